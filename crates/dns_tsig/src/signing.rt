//! Signing of messages (RFC 8945 sections 5.1, 5.2 and 5.3).

ghost use Rattle.std.specs.Prelude.{◌≡◌, ◌≢◌, ◌≤◌, ◌<◌, length, IsOk, IfOk, IfErr, OnOk, OnErr, None, Some};
ghost use Rattle.dns_tsig.specs.Numbers.{number_at};
ghost use Rattle.dns_tsig.specs.Record.{with_record};
ghost use Rattle.dns_tsig.specs.Sign.{IsSigned, code_for, refusal_of, signed_record};

use crate::covered::{Coverage, Terms, begin, finish};
use crate::error::SignError;
use crate::hmac::Code;
use crate::key::{Key, algorithm_name};
use crate::numbers::number_at;
use crate::tsig_record::{append_record, record_for};
use std::alloc::Global;

/// Signs a message: appends a TSIG record, and returns its code. The former code is empty for a request, and that of the request for
/// a reply. On an error the message is unchanged.
///
/// # Errors
///
/// - [`SignError::NoHeader`] if the message is shorter than a header;
/// - [`SignError::Full`] if ARCOUNT is 65,535;
/// - [`SignError::Memory`] if memory is refused.
pub fn sign(
    alloc: Global,
    key: &Key,
    prior: &[u8],
    message: &mut Vec<u8>,
    terms: &Terms<'_>,
    coverage: Coverage,
) -> Result<Code, SignError>
    requires prior { length prior.now < 65536 }
    requires other { length terms.now.other.now ≤ 6 }
    ensures ok { IfOk result (λ code. IsSigned key.now prior.now message.old.items coverage
        terms.now.time terms.now.fudge terms.now.error terms.now.other.now
        code.items message.new.items) }
    ensures refused { IfErr result (λ error. error ≢ SignError.Memory
        → refusal_of message.old.items ≡ Some error) }
    ensures allowed { IsOk result → refusal_of message.old.items ≡ None }
    ensures unchanged { OnErr result (message.new.items ≡ message.old.items) }
{
    check_room(message.as_slice())?;
    let code = code_for(key, prior, message.as_slice(), terms, coverage);
    append_signed(alloc, key, message, terms, &code)?;
    Ok(code)
}

/// Returns the code of a message that has no TSIG record yet.
fn code_for(key: &Key, prior: &[u8], message: &[u8], terms: &Terms<'_>, coverage: Coverage) -> Code
    requires prior { length prior.now < 65536 }
    requires other { length terms.now.other.now ≤ 6 }
    ensures code { result.items ≡ code_for key.now prior.now message.now coverage
        terms.now.time terms.now.fudge terms.now.error terms.now.other.now }
    ensures short { length result.items ≤ 64 }
{
    let mut state = begin(key, prior);
    state.update(message);
    finish(state, key, terms, coverage)
}

/// Appends the TSIG record of a key with a code. On an error the message is unchanged.
fn append_signed(
    alloc: Global,
    key: &Key,
    message: &mut Vec<u8>,
    terms: &Terms<'_>,
    code: &Code,
) -> Result<(), SignError>
    requires header { 12 ≤ length message.old.items }
    requires room { number_at message.old.items 10 < 65535 }
    requires code { length code.now.items ≤ 64 }
    requires other { length terms.now.other.now ≤ 6 }
    ensures ok { OnOk result (message.new.items ≡ with_record message.old.items (signed_record
        key.now terms.now.time terms.now.fudge terms.now.error terms.now.other.now
        (number_at message.old.items 0) code.now.items)) }
    ensures memory { IfErr result (λ error. error ≡ SignError.Memory) }
    ensures unchanged { OnErr result (message.new.items ≡ message.old.items) }
{
    let id = number_at(message.as_slice(), 0);
    let algorithm = algorithm_name(key.algorithm);
    let added = record_for(
        alloc,
        key.name.as_slice(),
        algorithm,
        terms,
        code.as_slice(),
        id,
    )?;
    append_record(message, added.as_slice())?;
    Ok(())
}

/// Checks that a message has a header, and room for a record.
pub fn check_room(message: &[u8]) -> Result<(), SignError>
    ensures ok { OnOk result (refusal_of message.now ≡ None) }
    ensures header { OnOk result (12 ≤ length message.now) }
    ensures room { OnOk result (number_at message.now 10 < 65535) }
    ensures refused { IfErr result (λ error. refusal_of message.now ≡ Some error) }
{
    if message.len() < 12 {
        return Err(SignError::NoHeader);
    }
    if number_at(message, 10) == u16::MAX {
        return Err(SignError::Full);
    }
    Ok(())
}
