//! Signing of replies, by the verdicts on their requests (RFC 8945 sections 5.2 and 5.3).

ghost use Rattle.std.specs.Prelude.{◌≡◌, ◌≢◌, ◌≤◌, [], length, slice_get, IfOk, IfErr, OnErr, Some};
ghost use Rattle.dns_tsig.specs.Reply.{IsBare, IsReply, IsSignedAt, SignsReply, refusal_with, reply_refusal, verdict_refusal};
ghost use Rattle.dns_tsig.specs.Sign.{refusal_of};

use crate::covered::{Coverage, Terms};
use crate::error::SignError;
use crate::found::{Found, Signature};
use crate::hmac::Code;
use crate::key::Key;
use crate::numbers::number_at;
use crate::signing::{check_room, sign};
use crate::tsig_record::{append_record, record_for};
use crate::verify::{Checked, Verdict};
use arrayvec::ArrayVec;
use std::alloc::Global;

/// The fudge of signed messages, in seconds (RFC 8945 section 10).
const FUDGE: u16 = 300;

/// The error of a wrong code.
const BADSIG: u16 = 16;

/// The error of an unknown key.
const BADKEY: u16 = 17;

/// The error of a time that is not within the fudge.
const BADTIME: u16 = 18;

/// The error of a code that is shorter than the key allows.
const BADTRUNC: u16 = 22;

/// Signs a reply by the verdict on its request, at a time in seconds, and returns its code, which is empty if it has none. On an
/// error the reply is unchanged.
///
/// The reply to a verified request is signed. That to a request with a wrong code or an unknown key has a TSIG record without a
/// code; that to a request with a wrong time is signed with the time and the fudge of the request, and the server's time in the
/// other data. A reply to a request without a TSIG record, or with one that cannot be read, has none.
///
/// # Errors
///
/// - [`SignError::NoKey`] if the keys have no key of the verdict's index;
/// - [`SignError::NoHeader`] if the reply is shorter than a header;
/// - [`SignError::Full`] if its ARCOUNT is 65,535;
/// - [`SignError::Memory`] if memory is refused.
pub fn sign_reply(
    alloc: Global,
    keys: &[Key],
    checked: &Checked<'_>,
    reply: &mut Vec<u8>,
    now: u64,
) -> Result<Code, SignError>
    ensures ok { IfOk result (λ code. IsReply keys.now checked.now.found checked.now.verdict now
        reply.old.items code.items reply.new.items) }
    ensures refused { IfErr result (λ error. error ≢ SignError.Memory → reply_refusal keys.now
        checked.now.found checked.now.verdict reply.old.items ≡ Some error) }
    ensures unchanged { OnErr result (reply.new.items ≡ reply.old.items) }
{
    let Found::Signed(signature) = &checked.found else {
        return Ok(ArrayVec::new());
    };
    sign_by_verdict(alloc, keys, signature, checked.verdict, reply, now)
}

/// Signs a reply by the verdict on a request with a TSIG record.
fn sign_by_verdict(
    alloc: Global,
    keys: &[Key],
    signature: &Signature<'_>,
    verdict: Verdict,
    reply: &mut Vec<u8>,
    now: u64,
) -> Result<Code, SignError>
    ensures ok { IfOk result (λ code. SignsReply keys.now signature.now verdict now
        reply.old.items code.items reply.new.items) }
    ensures refused { IfErr result (λ error. error ≢ SignError.Memory
        → verdict_refusal keys.now verdict reply.old.items ≡ Some error) }
    ensures unchanged { OnErr result (reply.new.items ≡ reply.old.items) }
{
    let time = signature.tsig.time();
    let fudge = signature.tsig.fudge();
    match verdict {
        Verdict::Verified(index) => {
            sign_at(alloc, keys, index, signature, reply, &plain_terms(now, 0))
        }
        Verdict::BadTrunc(index) => {
            sign_at(
                alloc,
                keys,
                index,
                signature,
                reply,
                &plain_terms(now, BADTRUNC),
            )
        }
        Verdict::BadTime(index) => {
            let clock = now.to_be_bytes();
            let terms = Terms {
                time,
                fudge,
                error: BADTIME,
                other: &clock[2..],
            };
            sign_at(alloc, keys, index, signature, reply, &terms)
        }
        Verdict::BadSig(_) => refuse(alloc, signature, reply, BADSIG),
        Verdict::BadKey => refuse(alloc, signature, reply, BADKEY),
        Verdict::Unsigned | Verdict::FormErr => Ok(ArrayVec::new()),
    }
}

/// Returns the terms of a reply without other data.
fn plain_terms(now: u64, error: u16) -> Terms<'static>
    ensures time { result.time ≡ now }
    ensures fudge { result.fudge ≡ FUDGE }
    ensures error { result.error ≡ error }
    ensures other { result.other.now ≡ [] }
{
    Terms {
        time: now,
        fudge: FUDGE,
        error,
        other: &[],
    }
}

/// Signs a reply with the key at an index.
fn sign_at(
    alloc: Global,
    keys: &[Key],
    index: usize,
    signature: &Signature<'_>,
    reply: &mut Vec<u8>,
    terms: &Terms<'_>,
) -> Result<Code, SignError>
    requires { length terms.now.other.now ≤ 6 }
    ensures ok { IfOk result (λ code. IsSignedAt keys.now index signature.now.tsig.mac
        reply.old.items terms.now.time terms.now.fudge terms.now.error terms.now.other.now
        code.items reply.new.items) }
    ensures refused { IfErr result (λ error. error ≢ SignError.Memory
        → refusal_with (slice_get keys.now index) reply.old.items ≡ Some error) }
    ensures unchanged { OnErr result (reply.new.items ≡ reply.old.items) }
{
    match keys.get(index) {
        Some(key) => {
            let prior = signature.tsig.mac();
            sign(alloc, key, prior, reply, terms, Coverage::Variables)
        }
        None => Err(SignError::NoKey),
    }
}

/// Appends a TSIG record without a code, with the name, the algorithm, the time and the fudge of the request.
fn refuse(
    alloc: Global,
    signature: &Signature<'_>,
    reply: &mut Vec<u8>,
    error: u16,
) -> Result<Code, SignError>
    ensures ok { IfOk result (λ code. IsBare signature.now error reply.old.items code.items
        reply.new.items) }
    ensures refused { IfErr result (λ error. error ≢ SignError.Memory
        → refusal_of reply.old.items ≡ Some error) }
    ensures unchanged { OnErr result (reply.new.items ≡ reply.old.items) }
{
    check_room(reply.as_slice())?;
    let tsig = &signature.tsig;
    let terms = Terms {
        time: tsig.time(),
        fudge: tsig.fudge(),
        error,
        other: &[],
    };
    let id = number_at(reply.as_slice(), 0);
    let added = record_for(
        alloc,
        signature.name.as_slice(),
        tsig.algorithm(),
        &terms,
        &[],
        id,
    )?;
    append_record(reply, added.as_slice())?;
    Ok(ArrayVec::new())
}
