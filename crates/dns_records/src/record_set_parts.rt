//! The parts of a set of records.

use crate::record::Record;
use dns_names::Name;
use dns_wire::{DNSClass, RecordType};

/// The parts of a [`RecordSet`](crate::RecordSet).
#[derive(Drop)]
pub struct RecordSetParts {
    /// The owner of the records.
    pub name: Name,
    pub record_type: RecordType,
    pub dns_class: DNSClass,
    /// The TTL of the set, in seconds.
    pub ttl: u32,
    pub records: Vec<Record>,
    /// The serial number of the zone at the last change of the set.
    pub serial: u32,
}
