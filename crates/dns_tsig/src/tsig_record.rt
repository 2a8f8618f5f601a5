//! TSIG records that are appended to messages (RFC 8945 sections 4.2 and 5.1).

ghost use Rattle.std.specs.Prelude.{◌≡◌, ◌++◌, ◌≤◌, ◌<◌, length, IfOk, OnOk, OnErr};
ghost use Rattle.dns_tsig.specs.Numbers.{number_at};
ghost use Rattle.dns_tsig.specs.Record.{outcome_data, tsig_data, tsig_record, with_record};

use crate::covered::Terms;
use crate::numbers::number_at;
use crate::tsig::HEAD;
use std::alloc::{AllocError, Global};

/// Returns the data of a TSIG record.
fn tsig_data(
    alloc: Global,
    algorithm: &[u8],
    terms: &Terms<'_>,
    mac: &[u8],
    id: u16,
) -> Result<Vec<u8>, AllocError>
    requires mac { length mac.now ≤ 64 }
    requires other { length terms.now.other.now ≤ 6 }
    ensures { IfOk result (λ made. made.items ≡ tsig_data algorithm.now terms.now.time
        terms.now.fudge mac.now id terms.now.error terms.now.other.now) }
{
    let mut made = Vec::new(alloc);
    made.extend_from_slice(algorithm)?;
    made.extend_from_slice(&terms.time.to_be_bytes()[2..])?;
    made.extend_from_slice(&terms.fudge.to_be_bytes())?;
    made.extend_from_slice(&(mac.len() as u16).to_be_bytes())?;
    made.extend_from_slice(mac)?;
    push_outcome(&mut made, id, terms)?;
    Ok(made)
}

/// Appends the original id, the error and the other data.
fn push_outcome(made: &mut Vec<u8>, id: u16, terms: &Terms<'_>) -> Result<(), AllocError>
    requires { length terms.now.other.now ≤ 6 }
    ensures { OnOk result (made.new.items ≡ made.old.items
        ++ outcome_data id terms.now.error terms.now.other.now) }
{
    made.extend_from_slice(&id.to_be_bytes())?;
    made.extend_from_slice(&terms.error.to_be_bytes())?;
    made.extend_from_slice(&(terms.other.len() as u16).to_be_bytes())?;
    made.extend_from_slice(terms.other)
}

/// Returns a TSIG record. Its names are not compressed.
pub fn record_for(
    alloc: Global,
    name: &[u8],
    algorithm: &[u8],
    terms: &Terms<'_>,
    mac: &[u8],
    id: u16,
) -> Result<Vec<u8>, AllocError>
    requires algorithm { length algorithm.now ≤ 255 }
    requires mac { length mac.now ≤ 64 }
    requires other { length terms.now.other.now ≤ 6 }
    ensures { IfOk result (λ made. made.items ≡ tsig_record name.now (tsig_data algorithm.now
        terms.now.time terms.now.fudge mac.now id terms.now.error terms.now.other.now)) }
{
    let made = tsig_data(alloc, algorithm, terms, mac, id)?;
    record_of(alloc, name, made.as_slice())
}

/// Returns the TSIG record of an owner and data.
fn record_of(alloc: Global, name: &[u8], content: &[u8]) -> Result<Vec<u8>, AllocError>
    requires { length content.now < 65536 }
    ensures { IfOk result (λ made. made.items ≡ tsig_record name.now content.now) }
{
    let mut made = Vec::new(alloc);
    made.extend_from_slice(name)?;
    made.extend_from_slice(&HEAD)?;
    made.extend_from_slice(&(content.len() as u16).to_be_bytes())?;
    made.extend_from_slice(content)?;
    Ok(made)
}

/// Appends a record to the additional section of a message. On an error the message is unchanged.
pub fn append_record(message: &mut Vec<u8>, added: &[u8]) -> Result<(), AllocError>
    requires header { 12 ≤ length message.old.items }
    requires room { number_at message.old.items 10 < 65535 }
    ensures ok { OnOk result (message.new.items ≡ with_record message.old.items added.now) }
    ensures unchanged { OnErr result (message.new.items ≡ message.old.items) }
{
    let count = number_at(message.as_slice(), 10) + 1;
    message.extend_from_slice(added)?;
    message[10] = (count / 256) as u8;
    message[11] = (count % 256) as u8;
    Ok(())
}
