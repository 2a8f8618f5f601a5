//! Builders of dynamic updates (RFC 2136 sections 2.4 and 2.5).
//!
//! Each makes a message with an id for the zone that has the origin as its name. Names must be fully qualified, and at or below
//! the origin. `use_edns` adds an OPT record.

ghost use Rattle.std.specs.Prelude.{◌≡◌, ◌++◌, ◌∷◌, [], if◌then◌else◌, IfOk};
ghost use Rattle.dns_records.specs.RecordSet.{each_with_ttl};
ghost use Rattle.dns_wire.specs.declared.codes.dns_class.DNSClass.TheVariants as classes;
ghost use Rattle.dns_updates.specs.Builders.{zone_section, message_of, update_message, empty_record, as_deletions, create_message, append_message, compare_and_swap_message, delete_by_rdata_message, delete_rrset_message, delete_all_message};

use dns_data::RData;
use dns_messages::{Edns, Message, MessageType, OpCode, Query, Record, Sequence};
use dns_names::Name;
use dns_records::RecordSet;
use dns_wire::{DNSClass, RecordType};
use std::alloc::{AllocError, Global};

/// Creates an update that adds a set of records, if the zone has no records of its owner and type (RFC 2136 section 2.4.3).
pub fn create(
    alloc: Global,
    id: u16,
    rrset: RecordSet,
    origin: Name,
    use_edns: bool,
) -> Result<Message, AllocError>
    ensures { IfOk result (λ message. message ≡ create_message id rrset origin use_edns) }
{
    let prerequisites = absent(alloc, &rrset)?;
    addition_of(alloc, id, rrset, origin, use_edns, prerequisites)
}

/// Creates an update that adds a set of records to those of its owner and type. If `must_exist`, the zone must have some
/// (RFC 2136 section 2.4.1).
pub fn append(
    alloc: Global,
    id: u16,
    rrset: RecordSet,
    origin: Name,
    must_exist: bool,
    use_edns: bool,
) -> Result<Message, AllocError>
    ensures { IfOk result (λ message.
        message ≡ append_message id rrset origin must_exist use_edns) }
{
    let prerequisites = existing(alloc, &rrset, must_exist)?;
    addition_of(alloc, id, rrset, origin, use_edns, prerequisites)
}

/// Creates an update that replaces a set of records by another of the same owner, type and class, if the zone has the data
/// of the first (RFC 2136 section 2.4.2). The first must not be empty.
pub fn compare_and_swap(
    alloc: Global,
    id: u16,
    current: RecordSet,
    new: RecordSet,
    origin: Name,
    use_edns: bool,
) -> Result<Message, AllocError>
    ensures { IfOk result (λ message.
        message ≡ compare_and_swap_message id current new origin use_edns) }
{
    let prerequisites = required(alloc, current.as_slice())?;
    let dns_class = new.dns_class();
    let updates = replacement(current, new)?;
    let zones = zone_section(alloc, origin, dns_class)?;
    Ok(message_of(alloc, id, zones, use_edns, prerequisites, updates))
}

/// Creates an update that deletes the records with the data of a set (RFC 2136 section 2.5.4).
pub fn delete_by_rdata(
    alloc: Global,
    id: u16,
    rrset: RecordSet,
    origin: Name,
    use_edns: bool,
) -> Result<Message, AllocError>
    ensures { IfOk result (λ message. message ≡ delete_by_rdata_message id rrset origin use_edns) }
{
    let zones = zone_section(alloc, origin, rrset.dns_class())?;
    let updates = Sequence::from_vec(deletions_of(rrset));
    Ok(message_of(alloc, id, zones, use_edns, Sequence::new(alloc), updates))
}

/// Creates an update that deletes the records of a record's owner and type (RFC 2136 section 2.5.2).
pub fn delete_rrset(
    alloc: Global,
    id: u16,
    resource_record: Record,
    origin: Name,
    use_edns: bool,
) -> Result<Message, AllocError>
    ensures { IfOk result (λ message.
        message ≡ delete_rrset_message id resource_record origin use_edns) }
{
    let zones = zone_section(alloc, origin, resource_record.dns_class)?;
    let record_type = resource_record.record_type();
    let owner = resource_record.into_parts().name;
    let updates = empty_record(alloc, DNSClass::ANY, owner, record_type)?;
    Ok(message_of(alloc, id, zones, use_edns, Sequence::new(alloc), updates))
}

/// Creates an update that deletes all records of a name, in a zone of a class (RFC 2136 section 2.5.3).
pub fn delete_all(
    alloc: Global,
    id: u16,
    name: Name,
    origin: Name,
    dns_class: DNSClass,
    use_edns: bool,
) -> Result<Message, AllocError>
    ensures { IfOk result (λ message.
        message ≡ delete_all_message id name origin dns_class use_edns) }
{
    let zones = zone_section(alloc, origin, dns_class)?;
    let updates = empty_record(alloc, DNSClass::ANY, name, RecordType::ANY)?;
    Ok(message_of(alloc, id, zones, use_edns, Sequence::new(alloc), updates))
}

/// Makes an update that adds a set of records under these prerequisites.
fn addition_of(
    alloc: Global,
    id: u16,
    rrset: RecordSet,
    origin: Name,
    use_edns: bool,
    prerequisites: Sequence<Record>,
) -> Result<Message, AllocError>
    ensures { IfOk result (λ message. message ≡ update_message id origin rrset.dns_class use_edns
        prerequisites rrset.records) }
{
    let zones = zone_section(alloc, origin, rrset.dns_class())?;
    let updates = Sequence::from_vec(rrset.into_parts().records);
    Ok(message_of(alloc, id, zones, use_edns, prerequisites, updates))
}

/// Makes an update of its sections.
fn message_of(
    alloc: Global,
    id: u16,
    zones: Sequence<Query>,
    use_edns: bool,
    prerequisites: Sequence<Record>,
    updates: Sequence<Record>,
) -> Message
    ensures { result ≡ message_of id zones use_edns prerequisites updates }
{
    let mut message = Message::new(alloc, id, MessageType::Query, OpCode::Update);
    message.queries = zones;
    message.answers = prerequisites;
    message.authorities = updates;
    if use_edns {
        message.set_edns(Edns::new(alloc));
    }
    message
}

/// The zone section of an update (RFC 2136 section 2.3).
fn zone_section(
    alloc: Global,
    origin: Name,
    dns_class: DNSClass,
) -> Result<Sequence<Query>, AllocError>
    ensures { IfOk result (λ zones. zones ≡ zone_section origin dns_class) }
{
    let zone = Query {
        name: origin,
        query_type: RecordType::SOA,
        query_class: dns_class,
    };
    Ok(Sequence::from_vec(Vec::from_array(alloc, [zone])?))
}

/// A section of one record, without TTL and data.
fn empty_record(
    alloc: Global,
    dns_class: DNSClass,
    owner: Name,
    record_type: RecordType,
) -> Result<Sequence<Record>, AllocError>
    ensures { IfOk result (λ section. section ≡ empty_record dns_class owner record_type ∷ []) }
{
    let empty = Record {
        name: owner,
        dns_class,
        ttl: 0,
        rdata: RData::Update0(record_type),
    };
    Ok(Sequence::from_vec(Vec::from_array(alloc, [empty])?))
}

/// The prerequisite that the zone has no records of a set's owner and type.
fn absent(alloc: Global, rrset: &RecordSet) -> Result<Sequence<Record>, AllocError>
    ensures { IfOk result (λ section.
        section ≡ empty_record classes.NONE rrset.now.name rrset.now.record_type ∷ []) }
{
    let record_type = rrset.record_type();
    empty_record(alloc, DNSClass::NONE, rrset.name().clone()?, record_type)
}

/// The prerequisite that the zone has records of a set's owner and type, if it must.
fn existing(
    alloc: Global,
    rrset: &RecordSet,
    must_exist: bool,
) -> Result<Sequence<Record>, AllocError>
    ensures { IfOk result (λ section. section ≡ if must_exist
        then empty_record classes.ANY rrset.now.name rrset.now.record_type ∷ [] else []) }
{
    if !must_exist {
        return Ok(Sequence::new(alloc));
    }
    let record_type = rrset.record_type();
    empty_record(alloc, DNSClass::ANY, rrset.name().clone()?, record_type)
}

/// Returns the records of a set as deletions of their data.
fn deletions_of(rrset: RecordSet) -> Vec<Record>
    ensures { result.items ≡ as_deletions rrset.records }
{
    let mut deletions = rrset;
    deletions.set_ttl(0);
    deletions.set_dns_class(DNSClass::NONE);
    deletions.into_parts().records
}

/// Returns the updates that delete the data of a set and then add the records of another.
fn replacement(current: RecordSet, new: RecordSet) -> Result<Sequence<Record>, AllocError>
    ensures { IfOk result (λ updates. updates ≡ as_deletions current.records ++ new.records) }
{
    let mut updates = deletions_of(current);
    let mut additions = new.into_parts().records;
    updates.append(&mut additions)?;
    Ok(Sequence::from_vec(updates))
}

/// Copies a record, with a TTL of 0.
fn copy_without_ttl(resource_record: &Record) -> Result<Record, AllocError>
    ensures { IfOk result (λ copy. copy ≡ record resource_record.now { ttl = 0 }) }
{
    let mut copy = resource_record.clone()?;
    copy.ttl = 0;
    Ok(copy)
}

/// The prerequisite that the zone has the data of these records.
fn required(alloc: Global, records: &[Record]) -> Result<Sequence<Record>, AllocError>
    ensures { IfOk result (λ section. section ≡ each_with_ttl 0 records.now) }
{
    let mut section = Sequence::new(alloc);
    for resource_record in records {
        section.push(copy_without_ttl(resource_record)?)?;
    }
    Ok(section)
}
