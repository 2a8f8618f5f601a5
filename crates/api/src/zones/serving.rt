//! Requests to a zone, and their replies (RFC 1034 section 4.3.2, RFC 2136 section 3).

ghost use Rattle.std.specs.Prelude.{◌≡◌, IfErr, IfOk, OnErr, OnOk};
ghost use Rattle.dns_messages.specs.Sound.{IsSound};
ghost use Rattle.dns_zone.specs.Serving.{IsReplyTo, zone_after};
ghost use Rattle.api.specs.buffer.Buffer.{bytes_in};
ghost use Rattle.api.specs.zones.Serving.{IsUnserved, Replies, Serves, zone_within};

use crate::buffer::Refusal;
use crate::zones::transport::transport_of;
use dns_messages::{Message, OpCode};
use dns_zone::{Transport, Zone, decode_request};
use std::alloc::{AllocError, Global};

/// Serves a request over the transport with a number, as for [`transport_of`], to a sender with room for so many bytes, and
/// returns its reply.
///
/// An update with the response code `NoError` changes the zone, unless its reply is longer than the room: then nothing
/// changes, and the request can be made again with more.
///
/// # Errors
///
/// - [`Refusal::Transport`] and [`Refusal::Limit`] as for [`transport_of`];
/// - [`Refusal::NoReply`] if the bytes do not decode, or are a response;
/// - [`Refusal::Memory`] if memory is refused.
pub fn serve_request(
    alloc: Global,
    zone: &mut Zone,
    transport: u32,
    limit: u16,
    request: &[u8],
    room: usize,
) -> Result<Vec<u8>, Refusal>
    ensures { Replies zone.old transport limit request.now room
        (bytes_in (λ reply. reply.items) result) zone.new }
{
    match transport_of(transport, limit) {
        Ok(reply_transport) => serve_over(alloc, zone, request, reply_transport, room),
        Err(refusal) => Err(refusal),
    }
}

/// Serves a request over a transport.
fn serve_over(
    alloc: Global,
    zone: &mut Zone,
    request: &[u8],
    reply_transport: Transport,
    room: usize,
) -> Result<Vec<u8>, Refusal>
    ensures ok { IfOk result (λ reply.
        Serves zone.old reply_transport request.now room reply.items zone.new) }
    ensures refused { IfErr result (IsUnserved request.now) }
    ensures err { OnErr result (zone.new ≡ zone.old) }
{
    match decode_request(alloc, request)? {
        Some(message) => Ok(answer(zone, &message, reply_transport, room)?),
        None => Err(Refusal::NoReply),
    }
}

/// Replies to a request that is decoded, and applies it if the reply fits the room.
fn answer(
    zone: &mut Zone,
    request: &Message,
    reply_transport: Transport,
    room: usize,
) -> Result<Vec<u8>, AllocError>
    requires { IsSound request.now }
    ensures reply { IfOk result (λ reply.
        IsReplyTo zone.old reply_transport request.now reply.items) }
    ensures ok { IfOk result (λ reply.
        zone.new ≡ zone_within room reply.items zone.old request.now) }
    ensures err { OnErr result (zone.new ≡ zone.old) }
{
    let reply = zone.reply_bytes(request, reply_transport)?;
    if reply.len() <= room {
        take(zone, request)?;
    }
    Ok(reply)
}

/// Applies a request if it is an update.
fn take(zone: &mut Zone, request: &Message) -> Result<(), AllocError>
    requires { IsSound request.now }
    ensures ok { OnOk result (zone.new ≡ zone_after zone.old request.now) }
    ensures err { OnErr result (zone.new ≡ zone.old) }
{
    if let OpCode::Update = request.metadata.op_code {
        zone.apply(request)?;
    }
    Ok(())
}
