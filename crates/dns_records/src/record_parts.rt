//! The parts of a record.

use dns_data::{RData, RecordData};
use dns_names::Name;
use dns_wire::DNSClass;

/// The parts of a [`Record`](crate::Record).
#[derive(Drop)]
pub struct RecordParts<R: RecordData = RData> {
    /// The owner.
    pub name: Name,
    pub dns_class: DNSClass,
    /// How long the record may be cached, in seconds.
    pub ttl: u32,
    pub rdata: R,
}
