//! Replies are signed as their requests are, within the sizes that these ask for (RFC 8945 section 5.3).

ghost use Rattle.std.specs.Prelude.{IfOk};
ghost use Rattle.dns_durable.specs.Signed.{IsSignedAs, IsSignedWithin};
ghost use Rattle.dns_messages.specs.Sound.{IsSound};

use crate::incoming::Terms;
use dns_messages::Message;
use dns_tsig::{Checked, Key, sign_reply};
use dns_zone::{reply_limit, truncated_reply_bytes};
use std::alloc::{AllocError, Global};

/// Returns a reply with the signature that its request calls for, at a time in seconds since 1 January 1970 (UTC).
///
/// An error is want of memory.
pub fn sign(
    alloc: Global,
    keys: &[Key],
    checked: &Checked<'_>,
    time: u64,
    reply: Vec<u8>,
) -> Result<Vec<u8>, AllocError>
    ensures { IfOk result (λ out. IsSignedAs keys.now checked.now time reply.items out.items) }
{
    let mut reply = reply;
    match sign_reply(alloc, keys, checked, &mut reply, time) {
        Ok(_code) => Ok(reply),
        // Memory for the signature was refused: the reply has a header and room for a record, and its key is there.
        Err(_) => Err(AllocError),
    }
}

/// Returns a reply with the signature that its request calls for, within the size that the request and its transport allow. Where a
/// signature makes a reply longer than that, a truncated one takes its place: it has only the question, TC and the response code
/// `NoError`, and is signed itself, so that the requestor asks again over a stream (RFC 8945 section 5.3).
///
/// An error is want of memory.
pub fn sign_within(
    alloc: Global,
    keys: &[Key],
    checked: &Checked<'_>,
    request: &Message,
    terms: &Terms,
    reply: Vec<u8>,
) -> Result<Vec<u8>, AllocError>
    requires { IsSound request.now }
    ensures { IfOk result (λ out. IsSignedWithin keys.now checked.now terms.now request.now
        reply.items out.items) }
{
    let limit = usize::from(reply_limit(terms.transport(), request));
    let whole = sign(alloc, keys, checked, terms.time, reply)?;
    if whole.len() <= limit {
        return Ok(whole);
    }
    let short = truncated_reply_bytes(alloc, request, terms.transport())?;
    sign(alloc, keys, checked, terms.time, short)
}
