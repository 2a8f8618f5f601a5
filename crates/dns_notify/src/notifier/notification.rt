//! The message that notifies a secondary of a change (RFC 1996 section 3.7).

ghost use Rattle.std.specs.Prelude.{◌≡◌, ◌≤◌, IfOk};
ghost use Rattle.dns_messages.specs.Cut.{front_reach};
ghost use Rattle.dns_messages.specs.Encoding.{Encodes};
ghost use Rattle.dns_notify.specs.notifier.Notification.{notification, owned_by, start_question};

use dns_messages::{Message, MessageType, OpCode, Query};
use dns_names::Name;
use dns_records::Record;
use dns_wire::{EncodeError, RecordType};
use std::alloc::{AllocError, Global};

/// Returns the message that notifies a secondary that the SOA record of a zone is another one. Its records are a hint.
fn notification(
    alloc: Global,
    id: u16,
    origin: &Name,
    start: &Record,
) -> Result<Message, AllocError>
    ensures { IfOk result (λ message. message ≡ notification id origin.now start.now) }
{
    let mut message = Message::new(alloc, id, MessageType::Query, OpCode::Notify);
    message.metadata.authoritative = true;
    message.add_query(start_question(origin)?)?;
    message.add_answer(owned_by(origin, start)?)?;
    Ok(message)
}

/// Returns the question for the SOA record of a zone.
fn start_question(origin: &Name) -> Result<Query, AllocError>
    ensures { IfOk result (λ query. query ≡ start_question origin.now) }
{
    Ok(Query::query(origin.clone()?, RecordType::SOA))
}

/// Returns a copy of a record, of the class `IN` and with an owner.
fn owned_by(owner: &Name, stored: &Record) -> Result<Record, AllocError>
    ensures { IfOk result (λ copy. copy ≡ owned_by owner.now stored.now) }
{
    let rdata = stored.rdata.clone()?;
    Ok(Record::from_rdata(owner.clone()?, stored.ttl, rdata))
}

/// Returns the bytes of the message that notifies a secondary that the SOA record of a zone is another one.
pub(crate) fn encoded_notification(
    alloc: Global,
    id: u16,
    origin: &Name,
    start: &Record,
) -> Result<Vec<u8>, AllocError>
    ensures { IfOk result (λ bytes.
        Encodes 65535 (notification id origin.now start.now) bytes.items) }
{
    let message = notification(alloc, id, origin, start)?;
    let _len = origin.encoded_len();
    match message.to_vec(alloc) {
        Ok(bytes) => Ok(bytes),
        // The memory for the message's bytes was refused.
        Err(EncodeError::Memory) => Err(AllocError),
        Err(EncodeError::MaxBufferSizeExceeded) => unreachable!(),
    }
}
