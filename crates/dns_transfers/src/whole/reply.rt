//! Replies to requests for transfers of zones (RFC 5936 section 2.2).

ghost use Rattle.std.specs.Prelude.{◌≡◌, ◌<◌, ◌≤◌, true, length, is_some, map, Some, None, IfOk, option_copied, option_map};
ghost use Rattle.dns_messages.specs.Header.{code_number, code_of};
ghost use Rattle.dns_messages.specs.Sound.{IsSound};
ghost use Rattle.dns_transfers.specs.whole.Reply.{IsReply, IsReplyBy, IsRefusal, Transfers, TransfersOrFails, TransfersTo};
ghost use Rattle.dns_transfers.specs.whole.Request.{is_transfer, refusal};

use crate::whole::request::{asked_by, is_transfer, refusal, zone_at};
use crate::whole::zone_records::ZoneRecords;
use crate::{Transfer, TransferError};
use dns_messages::laws::messages_decode_unambiguously;
use dns_messages::{Message, ResponseCode};
use dns_zone::{Transport, Zone, bare_reply_bytes, decode_request};
use std::alloc::{AllocError, Global};

/// Returns the messages of the reply to bytes that are a request for a transfer, or `None` for any others.
pub fn transfer(
    alloc: Global,
    zones: &[Zone],
    bytes: &[u8],
    transport: Transport,
    is_permitted: bool,
) -> Result<Option<Vec<Vec<u8>>>, AllocError>
    ensures { IfOk result (λ found. Transfers zones.now transport is_permitted bytes.now
        (option_map (λ messages. map (λ message. message.items) messages.items) found)) }
{
    messages_decode_unambiguously();
    match decode_request(alloc, bytes)? {
        Some(request) => transfer_to(alloc, zones, &request, transport, is_permitted),
        None => Ok(None),
    }
}

/// Returns the messages of the reply to a request if it is for a transfer.
fn transfer_to(
    alloc: Global,
    zones: &[Zone],
    request: &Message,
    transport: Transport,
    is_permitted: bool,
) -> Result<Option<Vec<Vec<u8>>>, AllocError>
    requires { IsSound request.now }
    ensures { IfOk result (λ found. TransfersTo zones.now transport is_permitted request.now
        (option_map (λ messages. map (λ message. message.items) messages.items) found)) }
{
    if !is_transfer(request) {
        return Ok(None);
    }
    let messages = reply_to_transfer(alloc, zones, request, transport, is_permitted)?;
    Ok(Some(messages))
}

/// Returns the messages of the reply to a request for a transfer. A transfer that is refused, or whose records have no room in
/// messages, has one message with a response code.
pub fn reply_to_transfer(
    alloc: Global,
    zones: &[Zone],
    request: &Message,
    transport: Transport,
    is_permitted: bool,
) -> Result<Vec<Vec<u8>>, AllocError>
    requires sound { IsSound request.now }
    requires asks { is_transfer request.now ≡ true }
    ensures { IfOk result (λ messages. IsReply zones.now transport is_permitted request.now
        (map (λ bytes. bytes.items) messages.items)) }
{
    match asked_by(request) {
        Some(query) => reply_for(
            alloc,
            zone_at(zones, query),
            request,
            transport,
            is_permitted,
        ),
        None => unreachable!(),
    }
}

/// Returns the messages of the reply to a request for a transfer of a zone that was found, or not.
fn reply_for(
    alloc: Global,
    zone: Option<&Zone>,
    request: &Message,
    transport: Transport,
    is_permitted: bool,
) -> Result<Vec<Vec<u8>>, AllocError>
    requires sound { IsSound request.now }
    requires asks { is_transfer request.now ≡ true }
    ensures { IfOk result (λ messages. IsReplyBy
        (refusal transport is_permitted (is_some (option_copied zone.entry)))
        (option_copied zone.entry) transport request.now
        (map (λ bytes. bytes.items) messages.items)) }
{
    match refusal(&transport, is_permitted, zone.is_some()) {
        Some(code) => refused(alloc, request, transport, code),
        None => match zone {
            Some(zone) => reply_with_zone(alloc, zone, request, transport),
            None => unreachable!(),
        },
    }
}

/// Returns the messages of the reply to a request with the records of a zone. If a record has no room in a message, there is one with
/// the code `ServFail`.
pub fn reply_with_zone(
    alloc: Global,
    zone: &Zone,
    request: &Message,
    transport: Transport,
) -> Result<Vec<Vec<u8>>, AllocError>
    requires sound { IsSound request.now }
    requires few { length request.now.queries ≤ 1 }
    ensures { IfOk result (λ messages. TransfersOrFails zone.now transport request.now
        (map (λ bytes. bytes.items) messages.items)) }
{
    let transfer = Transfer::new(alloc, request, ZoneRecords::new(zone));
    match transfer.into_messages() {
        Ok(messages) => Ok(messages),
        Err(TransferError::TooLong) => refused(alloc, request, transport, ResponseCode::ServFail),
        // The memory for a message was refused.
        Err(TransferError::Memory) => Err(AllocError),
    }
}

/// Returns the message with a response code and no records.
fn refused(
    alloc: Global,
    request: &Message,
    transport: Transport,
    code: ResponseCode,
) -> Result<Vec<Vec<u8>>, AllocError>
    requires sound { IsSound request.now }
    requires fits { code_number code < 16 }
    requires named { code_of (code_number code) ≡ code }
    ensures { IfOk result (λ messages. IsRefusal request.now transport code
        (map (λ bytes. bytes.items) messages.items)) }
{
    let bytes = bare_reply_bytes(alloc, request, code, transport)?;
    let mut messages = Vec::new(alloc);
    messages.push(bytes)?;
    Ok(messages)
}
