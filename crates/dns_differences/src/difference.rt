//! Differences between two versions of a zone (RFC 1995 section 4).

ghost use Rattle.std.specs.Prelude.{◌≡◌, ◌+◌, ◌<◌, ◌≤◌, [], None, IfSome, length, sum_by};
ghost use Rattle.dns_differences.specs.Difference.{first_serial, is_empty, is_numbered, octets, record_octets, serial_of, size};

use dns_data::RData;
use dns_records::Record;
use std::alloc::Global;

/// The length of type, class, TTL and data length of a record, in octets (RFC 1035 section 4.1.3).
const RECORD_FIELDS_LEN: u128 = 10;

/// The difference between two versions of a zone: the records that only the old one has, and those that only the new one has. If
/// the SOA record changes, it is the first in both parts (RFC 1995 section 4).
#[derive(Drop)]
pub struct Difference {
    /// The records that are deleted.
    pub deleted: Vec<Record>,
    /// The records that are added.
    pub added: Vec<Record>,
}

impl Difference {
    /// Creates a difference without records.
    pub fn new(alloc: Global) -> Difference
        ensures deleted { result.deleted.items ≡ [] }
        ensures added { result.added.items ≡ [] }
    {
        Difference {
            deleted: Vec::new(alloc),
            added: Vec::new(alloc),
        }
    }

    /// Returns `true` if no record is deleted or added.
    pub fn is_empty(&self) -> bool
        ensures { result ≡ is_empty self.now }
    {
        self.deleted.is_empty() && self.added.is_empty()
    }

    /// Returns `true` if both parts begin with an SOA record, and their serial numbers differ.
    pub fn is_numbered(&self) -> bool
        ensures { result ≡ is_numbered self.now }
    {
        match (self.old_serial(), self.new_serial()) {
            (Some(old), Some(new)) => old != new,
            _ => false,
        }
    }

    /// Returns the serial number of the old version, if the first record that is deleted is an SOA record.
    pub fn old_serial(&self) -> Option<u32>
        ensures { result ≡ first_serial self.now.deleted.items }
    {
        first_serial(self.deleted.as_slice())
    }

    /// Returns the serial number of the new version, if the first record that is added is an SOA record.
    pub fn new_serial(&self) -> Option<u32>
        ensures { result ≡ first_serial self.now.added.items }
    {
        first_serial(self.added.as_slice())
    }

    /// Returns how much of `room` records is left after those of the difference, or `None` if they have no room.
    pub(crate) fn room_after(&self, room: usize) -> Option<usize>
        ensures some { IfSome result (λ left. left + size self.now ≡ room) }
        ensures none { result ≡ None → room < size self.now }
    {
        let left = left_after(room, self.deleted.len())?;
        left_after(left, self.added.len())
    }

    /// Returns the octets of the records without compression, or `None` if they are more than `most`.
    pub(crate) fn octets_within(&self, most: usize) -> Option<usize>
        ensures some { IfSome result (λ count. count ≡ octets self.now) }
        ensures within { IfSome result (λ count. count ≤ most) }
        ensures none { result ≡ None → most < octets self.now }
    {
        let left = left_after_records(most, self.deleted.as_slice())?;
        let left = left_after_records(left, self.added.as_slice())?;
        Some(most - left)
    }
}

/// Returns how many of `room` octets are left after records without compression, or `None` if they have no room.
fn left_after_records(room: usize, records: &[Record]) -> Option<usize>
    ensures some { IfSome result (λ left. left + sum_by record_octets records.now ≡ room) }
    ensures none { result ≡ None → room < sum_by record_octets records.now }
{
    let mut left = room;
    for present in records {
        left = left_after_record(left, present)?;
    }
    Some(left)
}

/// Returns how many of `room` octets are left after a record without compression, or `None` if it has no room.
fn left_after_record(room: usize, resource_record: &Record) -> Option<usize>
    ensures some { IfSome result (λ left. left + record_octets resource_record.now ≡ room) }
    ensures none { result ≡ None → room < record_octets resource_record.now }
{
    let head_len = resource_record.name.encoded_len() as u128 + RECORD_FIELDS_LEN;
    let left = left_after_octets(room, head_len)?;
    left_after_octets(left, resource_record.rdata.encoded_len())
}

/// Returns how many of `room` octets are left after `len` octets, or `None` if there are fewer.
fn left_after_octets(room: usize, len: u128) -> Option<usize>
    ensures some { IfSome result (λ left. left + len ≡ room) }
    ensures none { result ≡ None → room < len }
{
    if len > room as u128 {
        return None;
    }
    Some(room - len as usize)
}

/// Returns `room` without `count`, or `None` if it is less.
pub(crate) fn left_after(room: usize, count: usize) -> Option<usize>
    ensures some { IfSome result (λ left. left + count ≡ room) }
    ensures none { result ≡ None → room < count }
{
    if room < count {
        return None;
    }
    Some(room - count)
}

/// Returns the serial number of the first record, if that is an SOA record.
fn first_serial(records: &[Record]) -> Option<u32>
    ensures { result ≡ first_serial records.now }
{
    match records.first() {
        Some(first) => serial_of(&first.rdata),
        None => None,
    }
}

/// Returns the serial number of SOA data.
fn serial_of(rdata: &RData) -> Option<u32>
    ensures { result ≡ serial_of rdata.now }
{
    match rdata {
        RData::SOA(soa) => Some(soa.serial),
        _ => None,
    }
}
