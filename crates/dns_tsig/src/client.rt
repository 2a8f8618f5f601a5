//! The side of clients: signed requests, and replies that are verified (RFC 8945 sections 5.1, 5.3 and 5.4).

ghost use Rattle.std.specs.Prelude.{◌≡◌, ◌≢◌, ◌≤◌, ◌<◌, [], length, IsOk, IfOk, IfErr, OnErr, None, Some};
ghost use Rattle.dns_tsig.specs.Client.{judged, reply_verdict};
ghost use Rattle.dns_tsig.specs.Found.{Finds};
ghost use Rattle.dns_tsig.specs.Sign.{IsSigned, refusal_of};

use crate::covered::{Coverage, Terms};
use crate::error::SignError;
use crate::found::{Found, Signature, find_tsig};
use crate::hmac::Code;
use crate::judge::{Judgement, judgement_of};
use crate::key::Key;
use crate::signing::sign;
use crate::verify::is_key_of;
use std::alloc::{AllocError, Global};

/// The fudge of signed requests, in seconds (RFC 8945 section 10).
const FUDGE: u16 = 300;

/// By whom a reply was signed. All but `Judged(Verified)` are to be refused.
#[derive(Clone, Copy, Debug, PartialEq, Eq)]
pub enum ReplyVerdict {
    /// The reply has no TSIG record.
    Unsigned,
    /// The TSIG record cannot be read, or is not the last record.
    FormErr,
    /// The reply has the name or the algorithm of another key.
    OtherKey,
    /// The reply has the name of the key, and its code was judged.
    Judged(Judgement),
}

/// A reply, and by whom it was signed.
#[derive(Drop)]
pub struct CheckedReply<'m> {
    /// The TSIG record, whose MAC is the former code of the next reply on a stream.
    pub found: Found<'m>,
    /// By whom the reply was signed.
    pub verdict: ReplyVerdict,
}

/// Signs a request at a time in seconds since 1 January 1970 (UTC), and returns its code. On an error the request is unchanged.
///
/// # Errors
///
/// - [`SignError::NoHeader`] if the request is shorter than a header;
/// - [`SignError::Full`] if its ARCOUNT is 65,535;
/// - [`SignError::Memory`] if memory is refused.
pub fn sign_request(
    alloc: Global,
    key: &Key,
    request: &mut Vec<u8>,
    now: u64,
) -> Result<Code, SignError>
    ensures ok { IfOk result (λ code. IsSigned key.now [] request.old.items Coverage.Variables
        now 300 0 [] code.items request.new.items) }
    ensures refused { IfErr result (λ error. error ≢ SignError.Memory
        → refusal_of request.old.items ≡ Some error) }
    ensures allowed { IsOk result → refusal_of request.old.items ≡ None }
    ensures unchanged { OnErr result (request.new.items ≡ request.old.items) }
{
    let terms = Terms {
        time: now,
        fudge: FUDGE,
        error: 0,
        other: &[],
    };
    sign(alloc, key, &[], request, &terms, Coverage::Variables)
}

/// Verifies a reply by the key and the code of its request. On a stream, each reply after the first covers the code of the reply
/// before it, and of its TSIG record the timers alone.
pub fn verify_reply<'m>(
    alloc: Global,
    key: &Key,
    prior: &[u8],
    reply: &'m [u8],
    coverage: Coverage,
    now: u64,
) -> Result<CheckedReply<'m>, AllocError>
    requires { length prior.now < 65536 }
    ensures found { IfOk result (λ checked. Finds reply.now checked.found) }
    ensures verdict { IfOk result (λ checked. checked.verdict
        ≡ reply_verdict key.now prior.now reply.now checked.found coverage now) }
{
    let found = find_tsig(alloc, reply)?;
    let verdict = reply_verdict(key, prior, reply, &found, coverage, now);
    Ok(CheckedReply { found, verdict })
}

/// Returns by whom a reply was signed.
fn reply_verdict(
    key: &Key,
    prior: &[u8],
    reply: &[u8],
    found: &Found<'_>,
    coverage: Coverage,
    now: u64,
) -> ReplyVerdict
    requires prior { length prior.now < 65536 }
    requires found { Finds reply.now found.now }
    ensures { result ≡ reply_verdict key.now prior.now reply.now found.now coverage now }
{
    match found {
        Found::Unsigned => ReplyVerdict::Unsigned,
        Found::Malformed => ReplyVerdict::FormErr,
        Found::Signed(signature) => judged(key, prior, reply, signature, coverage, now),
    }
}

/// Returns by whom a reply with a TSIG record was signed.
fn judged(
    key: &Key,
    prior: &[u8],
    reply: &[u8],
    signature: &Signature<'_>,
    coverage: Coverage,
    now: u64,
) -> ReplyVerdict
    requires prior { length prior.now < 65536 }
    requires after_header { 12 ≤ signature.now.place }
    requires within { signature.now.place ≤ length reply.now }
    ensures { result ≡ judged key.now prior.now reply.now signature.now coverage now }
{
    if !is_key_of(key, signature) {
        return ReplyVerdict::OtherKey;
    }
    ReplyVerdict::Judged(judgement_of(key, prior, reply, signature, coverage, now))
}
