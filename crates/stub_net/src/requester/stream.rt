//! Replies over a stream (RFC 7766 section 5).

ghost use Rattle.std.specs.Prelude.{◌≡◌, Ok};
ghost use Rattle.stub_net.specs.Request.{whole_reply};
ghost use Rattle.stub_net.specs.Try.{StreamEnds};

use crate::requester::message::{is_cut, reply_to};
use dns_messages::{DnsResponse, Message};
use std::alloc::Global;
use stub_lookup::{LinkFault, NetError};

/// Returns the reply to a request that was received over a stream.
pub(crate) fn stream_outcome(
    alloc: Global,
    message: &Message,
    bytes: Vec<u8>,
) -> Result<DnsResponse, NetError>
    ensures { StreamEnds message.now (Ok bytes.items) result }
{
    match reply_to(alloc, message, bytes) {
        Ok(Some(response)) => whole_reply(message, response),
        Ok(None) => Err(NetError::Link(LinkFault::StreamMismatch)),
        // There was no memory for the message.
        Err(_) => Err(NetError::Memory),
    }
}

/// Returns a reply that is not truncated. A truncated one is not used (RFC 2181 section 9).
fn whole_reply(message: &Message, response: DnsResponse) -> Result<DnsResponse, NetError>
    ensures { result ≡ whole_reply message.now response }
{
    if is_cut(message, &response) {
        Err(NetError::Link(LinkFault::Truncated))
    } else {
        Ok(response)
    }
}
