//! Responses to notifications (RFC 1996 sections 3.3 and 3.6).

ghost use Rattle.std.specs.Prelude.{◌≡◌, IfOk};
ghost use Rattle.dns_notify.specs.notifier.Response.{asks_for_start, is_notify, is_response, responds, IsResponse};

use dns_messages::laws::messages_decode_unambiguously;
use dns_messages::{Message, MessageType, OpCode, Query};
use dns_names::Name;
use dns_wire::{DNSClass, DecodeError, RecordType};
use std::alloc::{AllocError, Global};

/// Returns `true` if bytes are a response to the notification of a zone with an id. Its response code does not matter.
pub(crate) fn is_response(
    alloc: Global,
    id: u16,
    origin: &Name,
    bytes: &[u8],
) -> Result<bool, AllocError>
    ensures { IfOk result (IsResponse id origin.now bytes.now) }
{
    messages_decode_unambiguously();
    match Message::from_vec(alloc, bytes) {
        Ok(message) => Ok(responds(id, origin, &message)),
        Err(error) => match error {
            // The memory for the message was refused.
            DecodeError::Memory => Err(AllocError),
            _ => Ok(false),
        },
    }
}

/// Returns `true` if a message is a response to the notification of a zone with an id.
fn responds(id: u16, origin: &Name, message: &Message) -> bool
    ensures { result ≡ responds id origin.now message.now }
{
    is_kind_response(message.metadata.message_type)
        && is_notify(message.metadata.op_code)
        && message.metadata.id == id
        && asks_for_start(origin, message.queries.as_slice())
}

/// Returns `true` for a response.
fn is_kind_response(kind: MessageType) -> bool
    ensures { result ≡ is_response kind }
{
    match kind {
        MessageType::Response => true,
        MessageType::Query => false,
    }
}

/// Returns `true` for the opcode of notifications.
fn is_notify(op_code: OpCode) -> bool
    ensures { result ≡ is_notify op_code }
{
    match op_code {
        OpCode::Notify => true,
        _ => false,
    }
}

/// Returns `true` if there is one question, for the SOA record of a zone.
fn asks_for_start(origin: &Name, queries: &[Query]) -> bool
    ensures { result ≡ asks_for_start origin.now queries.now }
{
    let [query] = queries else {
        return false;
    };
    query.name.eq_ignore_root(origin)
        && query.query_type == RecordType::SOA
        && query.query_class == DNSClass::IN
}
