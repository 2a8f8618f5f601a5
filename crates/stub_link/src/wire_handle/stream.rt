//! Asking again over a stream (RFC 7766 section 5).

ghost use Rattle.std.specs.Prelude.{◌≡◌, ◌≤◌, ℕ};
ghost use Rattle.stub_link.specs.Ask.{AfterStream, IsStreamReply, stream_outcome};
ghost use Rattle.stub_link.specs.Link.{stream_reply_of, wire};
ghost use Rattle.stub_link.specs.WireHandle.{FailsByLink, StreamsTo};

use crate::link::{Link, LinkError};
use crate::wire_handle::reply::is_reply;
use dns_messages::laws::messages_decode_unambiguously;
use dns_messages::{DnsResponse, Query, ResponseError};
use dns_wire::DecodeError;
use std::alloc::Global;
use stub_lookup::{LinkFault, NetError};

/// Sends a request over a stream, and returns its reply.
pub(crate) fn ask_again<L: Link>(
    alloc: Global,
    link: &mut L,
    id: u16,
    query: &Query,
    request: &[u8],
) -> Result<DnsResponse, NetError>
    ensures streams { StreamsTo L.streams id query.now request.now link.old result link.new }
    ensures failed { FailsByLink result (L.failure_count link.old) (L.failure_count link.new) }
    ensures kept { L.failure_count link.old ≤ L.failure_count link.new }
{
    match link.ask_stream(request) {
        Ok(bytes) => stream_reply(alloc, id, query, bytes),
        Err(LinkError::Failed) => Err(NetError::Link(LinkFault::StreamFailed)),
        // The link ran out of memory.
        Err(LinkError::Memory) => Err(NetError::Memory),
    }
}

/// Returns the reply that was received over a stream.
fn stream_reply(
    alloc: Global,
    id: u16,
    query: &Query,
    bytes: Vec<u8>,
) -> Result<DnsResponse, NetError>
    ensures reply { IsStreamReply wire id query.now bytes.items result }
    ensures failed { (old new : ℕ) → FailsByLink result old new }
{
    messages_decode_unambiguously();
    match DnsResponse::from_buffer(alloc, bytes) {
        Ok(response) => {
            if is_reply(id, Some(query), response.message()) {
                whole_reply(response)
            } else {
                Err(NetError::Link(LinkFault::StreamMismatch))
            }
        }
        Err(ResponseError::Decode(error)) => match error {
            // There was no memory for the message.
            DecodeError::Memory => Err(NetError::Memory),
            _ => Err(NetError::Link(LinkFault::StreamUnreadable)),
        },
        Err(ResponseError::NotAResponse) => Err(NetError::Link(LinkFault::StreamMismatch)),
        Err(ResponseError::Encode(_)) => unreachable!(),
    }
}

/// Returns a whole reply. A truncated one is not used (RFC 2181 section 9).
fn whole_reply(response: DnsResponse) -> Result<DnsResponse, NetError>
    ensures { result ≡ stream_outcome response }
{
    if response.message().metadata.truncation {
        Err(NetError::Link(LinkFault::Truncated))
    } else {
        Ok(response)
    }
}
