//! The builder.

ghost use Rattle.std.specs.Prelude.{◌≡◌, [], ◌∷◌, false, IfOk};
ghost use Rattle.dns_updates.specs.Builders.{update_message, zone_section};
ghost use Rattle.dns_updates.specs.builder.Builder.{first_parts};

use dns_messages::{Message, MessageType, OpCode, Query, Record, Sequence};
use dns_names::Name;
use dns_records::laws::copies_are_identical;
use dns_wire::{DNSClass, RecordType};
use std::alloc::{AllocError, Global};
use std::marker::Model;

/// Collects the prerequisites and the changes of an update of a zone.
///
/// A call that is refused memory leaves the builder as it was.
#[derive(Drop)]
pub struct UpdateBuilder {
    pub(crate) zone: Name,
    pub(crate) dns_class: DNSClass,
    pub(crate) prerequisites: Sequence<Record>,
    pub(crate) changes: Sequence<Record>,
}

impl Model for UpdateBuilder {
    ghost use Rattle.dns_updates.specs.builder.Parts.{UpdateParts};

    ghost Value = { UpdateParts };

    ghost view = { λ builder. record {
      zone = builder.zone;
      dns_class = builder.dns_class;
      prerequisites = builder.prerequisites;
      changes = builder.changes;
    } };
}

impl UpdateBuilder {
    /// Creates an update of the zone with a name and a class, without prerequisites and changes.
    pub fn new(alloc: Global, zone: Name, dns_class: DNSClass) -> UpdateBuilder
        ensures { result ≡ first_parts zone dns_class }
    {
        UpdateBuilder {
            zone,
            dns_class,
            prerequisites: Sequence::new(alloc),
            changes: Sequence::new(alloc),
        }
    }

    /// Returns the zone's name.
    pub fn zone(&self) -> &Name
        ensures { result.now ≡ self.now.zone }
    {
        &self.zone
    }

    /// Returns a copy of the message of the update, with an id and without an OPT record (RFC 2136 section 2).
    pub fn to_message(&self, alloc: Global, id: u16) -> Result<Message, AllocError>
        ensures { IfOk result (λ message. message ≡ update_message id self.now.zone
            self.now.dns_class false self.now.prerequisites self.now.changes) }
    {
        let mut message = Message::new(alloc, id, MessageType::Query, OpCode::Update);
        message.answers = copy_records(&self.prerequisites)?;
        message.authorities = copy_records(&self.changes)?;
        let zone = zone_question(self.zone.clone()?, self.dns_class);
        message.queries.push(zone)?;
        Ok(message)
    }

    /// Converts to the message of the update, with an id and without an OPT record (RFC 2136 section 2).
    pub fn into_message(self, alloc: Global, id: u16) -> Result<Message, AllocError>
        ensures { IfOk result (λ message. message ≡ update_message id self.zone self.dns_class false
            self.prerequisites self.changes) }
    {
        let UpdateBuilder {
            zone,
            dns_class,
            prerequisites,
            changes,
        } = self;
        let mut message = Message::new(alloc, id, MessageType::Query, OpCode::Update);
        message.answers = prerequisites;
        message.authorities = changes;
        message.queries.push(zone_question(zone, dns_class))?;
        Ok(message)
    }
}

/// Copies records.
fn copy_records(records: &Sequence<Record>) -> Result<Sequence<Record>, AllocError>
    ensures { IfOk result (λ copies. copies ≡ records.now) }
{
    copies_are_identical();
    records.clone()
}

/// Returns the question of the zone section (RFC 2136 section 2.3).
fn zone_question(zone: Name, dns_class: DNSClass) -> Query
    ensures { zone_section zone dns_class ≡ result ∷ [] }
{
    Query {
        name: zone,
        query_type: RecordType::SOA,
        query_class: dns_class,
    }
}
