//! Replies to requests for incremental transfers (RFC 1995 sections 2 and 4).

ghost use Rattle.std.specs.Prelude.{◌≡◌, ◌≤◌, ◌<◌, length, map, IfOk, option_copied, option_map};
ghost use Rattle.dns_messages.specs.Header.{code_number, code_of};
ghost use Rattle.dns_messages.specs.Sound.{IsSound};
ghost use Rattle.dns_zone.specs.Rows.{rows_of};
ghost use Rattle.dns_transfers.specs.whole.Reply.{IsRefusal};
ghost use Rattle.dns_transfers.specs.replies.Incremental.{fits_alone, DiffersOrFails, DiffersOrStarts, SendsFound, SendsFrom, SendsIf, SendsIncremental, SendsKnown, SendsLacking, SendsSince, SendsUnknown, StartsOrFails, TriesAlone};
ghost use Rattle.dns_transfers.specs.replies.ZoneHistory.{known_differences};
ghost use Rattle.dns_zone.specs.ZoneSerial.{rows_serial, zone_serial};

use crate::TransferError;
use crate::incremental::incremental_transfer;
use crate::replies::request::{incremental_question, zone_at};
use crate::replies::zone_history::{ZoneHistory, lacking};
use crate::whole::reply_with_zone;
use dns_differences::Difference;
use dns_messages::{Message, ResponseCode};
use dns_zone::{Transport, Zone, bare_reply_bytes, first_serial, reply_limit, zone_serial};
use std::alloc::{AllocError, Global};

/// Returns the messages of the reply to a request for an incremental transfer, or `None` for another request.
///
/// The requestor is sent the differences that it lacks, or the SOA record alone if it lacks none. If they are not known, it is sent the
/// whole zone over a stream. In a datagram, what has no room in one message is the SOA record alone. A transfer that is refused, or
/// whose records have no room in a message, has one message with a response code.
pub(crate) fn reply_to_incremental(
    alloc: Global,
    zones: &[Zone],
    histories: &[ZoneHistory],
    request: &Message,
    transport: Transport,
    is_permitted: bool,
) -> Result<Option<Vec<Vec<u8>>>, AllocError>
    requires { IsSound request.now }
    ensures { IfOk result (λ found. SendsIncremental zones.now histories.now transport is_permitted
        request.now (option_map (λ messages. map (λ bytes. bytes.items) messages.items) found)) }
{
    match incremental_question(request) {
        Some(query) => {
            let zone = zone_at(zones, query);
            let messages = reply_for(alloc, zone, histories, request, transport, is_permitted)?;
            Ok(Some(messages))
        }
        None => Ok(None),
    }
}

/// Returns the messages for a zone that was found, or not.
fn reply_for(
    alloc: Global,
    zone: Option<&Zone>,
    histories: &[ZoneHistory],
    request: &Message,
    transport: Transport,
    is_permitted: bool,
) -> Result<Vec<Vec<u8>>, AllocError>
    requires sound { IsSound request.now }
    requires few { length request.now.queries ≤ 1 }
    ensures { IfOk result (λ messages. SendsFound (option_copied zone.entry) histories.now transport
        is_permitted request.now (map (λ bytes. bytes.items) messages.items)) }
{
    match zone {
        Some(zone) => reply_if(alloc, zone, histories, request, transport, is_permitted),
        None => refused(alloc, request, transport, ResponseCode::NotAuth),
    }
}

/// Returns the messages for a zone that may be sent or not.
fn reply_if(
    alloc: Global,
    zone: &Zone,
    histories: &[ZoneHistory],
    request: &Message,
    transport: Transport,
    is_permitted: bool,
) -> Result<Vec<Vec<u8>>, AllocError>
    requires sound { IsSound request.now }
    requires few { length request.now.queries ≤ 1 }
    ensures { IfOk result (λ messages. SendsIf is_permitted
        (known_differences histories.now zone.now.origin) zone.now transport request.now
        (map (λ bytes. bytes.items) messages.items)) }
{
    if is_permitted {
        reply_since(alloc, zone, histories, request, transport)
    } else {
        refused(alloc, request, transport, ResponseCode::Refused)
    }
}

/// Returns the messages for a zone, by the serial number that the request states.
fn reply_since(
    alloc: Global,
    zone: &Zone,
    histories: &[ZoneHistory],
    request: &Message,
    transport: Transport,
) -> Result<Vec<Vec<u8>>, AllocError>
    requires sound { IsSound request.now }
    requires few { length request.now.queries ≤ 1 }
    ensures { IfOk result (λ messages. SendsSince (rows_serial (rows_of request.now.authorities))
        (known_differences histories.now zone.now.origin) zone.now transport request.now
        (map (λ bytes. bytes.items) messages.items)) }
{
    match first_serial(request.authorities.as_slice()) {
        Some(serial) => reply_from(alloc, zone, histories, request, transport, serial),
        None => refused(alloc, request, transport, ResponseCode::FormErr),
    }
}

/// Returns the messages for a zone and the requestor of the version with a serial number.
fn reply_from(
    alloc: Global,
    zone: &Zone,
    histories: &[ZoneHistory],
    request: &Message,
    transport: Transport,
    serial: u32,
) -> Result<Vec<Vec<u8>>, AllocError>
    requires sound { IsSound request.now }
    requires few { length request.now.queries ≤ 1 }
    ensures { IfOk result (λ messages. SendsFrom (zone_serial zone.now) serial
        (known_differences histories.now zone.now.origin) zone.now transport request.now
        (map (λ bytes. bytes.items) messages.items)) }
{
    match zone_serial(zone) {
        Some(current) => {
            let differences = lacking(histories, zone.origin(), current, serial);
            reply_with(alloc, zone, differences, request, transport)
        }
        None => start_alone(alloc, zone, request, transport),
    }
}

/// Returns the messages for a zone, by the differences that the requestor lacks, if they are known.
fn reply_with(
    alloc: Global,
    zone: &Zone,
    lacking: Option<&[Difference]>,
    request: &Message,
    transport: Transport,
) -> Result<Vec<Vec<u8>>, AllocError>
    requires sound { IsSound request.now }
    requires few { length request.now.queries ≤ 1 }
    ensures { IfOk result (λ messages. SendsLacking (option_copied lacking.entry) zone.now transport
        request.now (map (λ bytes. bytes.items) messages.items)) }
{
    match lacking {
        Some(differences) => reply_with_known(alloc, zone, differences, request, transport),
        None => reply_with_unknown(alloc, zone, request, transport),
    }
}

/// Returns the messages with the differences that the requestor lacks.
fn reply_with_known(
    alloc: Global,
    zone: &Zone,
    differences: &[Difference],
    request: &Message,
    transport: Transport,
) -> Result<Vec<Vec<u8>>, AllocError>
    requires sound { IsSound request.now }
    requires few { length request.now.queries ≤ 1 }
    ensures { IfOk result (λ messages. SendsKnown transport zone.now differences.now request.now
        (map (λ bytes. bytes.items) messages.items)) }
{
    match transport {
        Transport::Stream => differences_or_failure(alloc, zone, differences, request, transport),
        Transport::Datagram(_) => differences_or_start(
            alloc,
            zone,
            differences,
            request,
            transport,
        ),
    }
}

/// Returns the messages if the differences that the requestor lacks are not known.
fn reply_with_unknown(
    alloc: Global,
    zone: &Zone,
    request: &Message,
    transport: Transport,
) -> Result<Vec<Vec<u8>>, AllocError>
    requires sound { IsSound request.now }
    requires few { length request.now.queries ≤ 1 }
    ensures { IfOk result (λ messages. SendsUnknown transport zone.now request.now
        (map (λ bytes. bytes.items) messages.items)) }
{
    match transport {
        Transport::Stream => reply_with_zone(alloc, zone, request, transport),
        Transport::Datagram(_) => start_alone(alloc, zone, request, transport),
    }
}

/// Returns the messages with differences, or the one that says that a record has no room in any.
fn differences_or_failure(
    alloc: Global,
    zone: &Zone,
    differences: &[Difference],
    request: &Message,
    transport: Transport,
) -> Result<Vec<Vec<u8>>, AllocError>
    requires sound { IsSound request.now }
    requires few { length request.now.queries ≤ 1 }
    ensures { IfOk result (λ messages. DiffersOrFails zone.now differences.now transport request.now
        (map (λ bytes. bytes.items) messages.items)) }
{
    match incremental_transfer(alloc, zone, differences, request) {
        Ok(messages) => Ok(messages),
        Err(TransferError::TooLong) => refused(alloc, request, transport, ResponseCode::ServFail),
        // The memory for a message was refused.
        Err(TransferError::Memory) => Err(AllocError),
    }
}

/// Returns the message with differences, or, if they have no room in one, that with the SOA record alone.
fn differences_or_start(
    alloc: Global,
    zone: &Zone,
    differences: &[Difference],
    request: &Message,
    transport: Transport,
) -> Result<Vec<Vec<u8>>, AllocError>
    requires sound { IsSound request.now }
    requires few { length request.now.queries ≤ 1 }
    ensures { IfOk result (λ messages.
        DiffersOrStarts zone.now differences.now transport request.now
        (map (λ bytes. bytes.items) messages.items)) }
{
    match alone(alloc, zone, differences, request, &transport)? {
        Some(messages) => Ok(messages),
        None => start_alone(alloc, zone, request, transport),
    }
}

/// Returns the message with the SOA record of a zone, or the one that says that it has no room.
fn start_alone(
    alloc: Global,
    zone: &Zone,
    request: &Message,
    transport: Transport,
) -> Result<Vec<Vec<u8>>, AllocError>
    requires sound { IsSound request.now }
    requires few { length request.now.queries ≤ 1 }
    ensures { IfOk result (λ messages. StartsOrFails zone.now transport request.now
        (map (λ bytes. bytes.items) messages.items)) }
{
    match alone(alloc, zone, &[], request, &transport)? {
        Some(messages) => Ok(messages),
        None => refused(alloc, request, transport, ResponseCode::ServFail),
    }
}

/// Returns the message with differences, or that with the SOA record alone if there is none, or `None` if they have no room in one.
fn alone(
    alloc: Global,
    zone: &Zone,
    differences: &[Difference],
    request: &Message,
    transport: &Transport,
) -> Result<Option<Vec<Vec<u8>>>, AllocError>
    requires { length request.now.queries ≤ 1 }
    ensures { IfOk result (λ found. TriesAlone zone.now differences.now transport.now
        request.now (option_map (λ messages. map (λ bytes. bytes.items) messages.items) found)) }
{
    match incremental_transfer(alloc, zone, differences, request) {
        Ok(messages) => {
            let limit = usize::from(reply_limit(*transport, request));
            if fits_alone(messages.as_slice(), limit) {
                Ok(Some(messages))
            } else {
                Ok(None)
            }
        }
        Err(TransferError::TooLong) => Ok(None),
        // The memory for a message was refused.
        Err(TransferError::Memory) => Err(AllocError),
    }
}

/// Returns `true` for one message that is not longer than a limit.
fn fits_alone(messages: &[Vec<u8>], limit: usize) -> bool
    ensures { result ≡ fits_alone limit (map (λ bytes. bytes.items) messages.now) }
{
    match messages {
        [bytes] => bytes.len() <= limit,
        _ => false,
    }
}

/// Returns the message with a response code and no records.
fn refused(
    alloc: Global,
    request: &Message,
    transport: Transport,
    code: ResponseCode,
) -> Result<Vec<Vec<u8>>, AllocError>
    requires sound { IsSound request.now }
    requires fits { code_number code < 16 }
    requires named { code_of (code_number code) ≡ code }
    ensures { IfOk result (λ messages. IsRefusal request.now transport code
        (map (λ bytes. bytes.items) messages.items)) }
{
    let bytes = bare_reply_bytes(alloc, request, code, transport)?;
    let mut messages = Vec::new(alloc);
    messages.push(bytes)?;
    Ok(messages)
}
