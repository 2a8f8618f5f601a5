//! What of a reply is sent under the limit of its transport (RFC 2181 section 9).

ghost use Rattle.std.specs.Prelude.{◌≡◌, ◌≤◌, ◌+◌, IfOk};
ghost use Rattle.dns_messages.specs.Cut.{front_reach};
ghost use Rattle.dns_messages.specs.Encoding.{Encodes};
ghost use Rattle.dns_authority.specs.replies.Sending.{borrowed_message, fits, fullest_sent, rest_sent, sent, without_additionals};

use crate::replies::reply_ref::ReplyRef;
use std::alloc::{AllocError, Global};

/// Returns the bytes of what is sent of a reply: all of it if it fits `limit` bytes.
pub(crate) fn send(alloc: Global, reply: ReplyRef<'_>, limit: u16) -> Result<Vec<u8>, AllocError>
    requires { front_reach (borrowed_message reply) + 11 ≤ limit }
    ensures { IfOk result (λ bytes.
        Encodes limit (sent limit (borrowed_message reply.entry)) bytes.items) }
{
    match reply.whole(alloc, limit)? {
        Some(bytes) => Ok(bytes),
        None => send_rest(alloc, reply, limit),
    }
}

/// Returns the bytes of what is sent of a reply that does not fit: its additional records are dropped first, but for the glue of
/// a referral.
fn send_rest(alloc: Global, reply: ReplyRef<'_>, limit: u16) -> Result<Vec<u8>, AllocError>
    requires { front_reach (borrowed_message reply) + 11 ≤ limit }
    ensures { IfOk result (λ bytes.
        Encodes limit (rest_sent limit (borrowed_message reply.entry)) bytes.items) }
{
    if reply.is_referral() {
        return reply.truncated().prefix(alloc, limit);
    }
    match reply.without_additionals().whole(alloc, limit)? {
        Some(bytes) => send_fullest(alloc, reply, limit, bytes),
        None => reply.truncated().prefix(alloc, limit),
    }
}

/// Returns the bytes of a reply with as many sets of its additional records as fit, given those without any, which fit.
fn send_fullest(
    alloc: Global,
    reply: ReplyRef<'_>,
    limit: u16,
    without: Vec<u8>,
) -> Result<Vec<u8>, AllocError>
    requires front { front_reach (borrowed_message reply) + 11 ≤ limit }
    requires without { Encodes limit (without_additionals (borrowed_message reply)) without.items }
    ensures { IfOk result (λ bytes.
        Encodes limit (fullest_sent limit (borrowed_message reply.entry)) bytes.items) }
{
    let fullest = reply.with_fitting(alloc, limit)?;
    match fullest.whole(alloc, limit)? {
        Some(bytes) => Ok(bytes),
        None => Ok(without),
    }
}
