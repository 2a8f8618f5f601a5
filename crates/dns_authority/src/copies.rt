//! Copies of a zone's records, with an owner.

ghost use Rattle.std.specs.Prelude.{◌≡◌, ◌++◌, map, take, IfOk};
ghost use Rattle.dns_zone.specs.Rows.{row_of, rows_of};
ghost use Rattle.dns_zone.specs.Answer.{authority, authority_row, negative_ttl, record_of};

use dns_data::RData;
use dns_names::Name;
use dns_records::{Record, Sequence};
use dns_wire::{DNSClass, RecordType};
use dns_zone::Zone;
use std::alloc::{AllocError, Global};

/// Copies a record with an owner and a TTL.
fn copy_with(owner: &Name, ttl: u32, stored: &Record) -> Result<Record, AllocError>
    ensures { IfOk result (λ copy. copy
        ≡ record_of owner.now (record { ttl = ttl; rdata = stored.now.rdata })) }
{
    let rdata = stored.rdata.clone()?;
    Ok(Record {
        name: owner.clone()?,
        dns_class: DNSClass::IN,
        ttl,
        rdata,
    })
}

/// Copies a record with an owner.
pub(crate) fn copy(owner: &Name, stored: &Record) -> Result<Record, AllocError>
    ensures { IfOk result (λ copy. copy ≡ record_of owner.now (row_of stored.now)) }
{
    copy_with(owner, stored.ttl, stored)
}

/// Copies records with an owner.
pub(crate) fn copies(
    alloc: Global,
    owner: &Name,
    stored: &[Record],
) -> Result<Sequence<Record>, AllocError>
    ensures { IfOk result (λ copies. copies ≡ map (record_of owner.now) (rows_of stored.now)) }
{
    let mut copies = Sequence::new(alloc);
    for record in stored {
        copies.push(copy(owner, record)?)?;
    }
    Ok(copies)
}

/// Appends copies of records with an owner.
pub(crate) fn push_copies(
    alloc: Global,
    records: Sequence<Record>,
    owner: &Name,
    stored: &[Record],
) -> Result<Sequence<Record>, AllocError>
    ensures { IfOk result (λ all. all
        ≡ records ++ map (record_of owner.now) (rows_of stored.now)) }
{
    joined(records, copies(alloc, owner, stored)?)
}

/// Copies the first `most` of some records with an owner.
pub(crate) fn first_copies(
    alloc: Global,
    most: usize,
    owner: &Name,
    stored: &[Record],
) -> Result<Sequence<Record>, AllocError>
    ensures { IfOk result (λ copies. take most copies
        ≡ take most (map (record_of owner.now) (rows_of stored.now))) }
{
    copies(alloc, owner, first_of(stored, most))
}

/// Returns the first `most` of some records, or all of them if there are fewer.
fn first_of(records: &[Record], most: usize) -> &[Record]
    ensures { result.now ≡ take most records.now }
{
    if records.len() <= most {
        return records;
    }
    &records[..most]
}

/// Appends records to others.
pub(crate) fn joined(
    records: Sequence<Record>,
    further: Sequence<Record>,
) -> Result<Sequence<Record>, AllocError>
    ensures { IfOk result (λ all. all ≡ records ++ further) }
{
    let mut records = records.into_vec();
    let mut further = further.into_vec();
    records.append(&mut further)?;
    Ok(Sequence::from_vec(records))
}

/// Returns the TTL of a negative answer: the lesser of the TTL and the minimum of an SOA record (RFC 2308 section 3).
fn negative_ttl(soa: &Record) -> u32
    ensures { result ≡ negative_ttl soa.now.ttl soa.now.rdata }
{
    match &soa.rdata {
        RData::SOA(data) => soa.ttl.min(data.minimum),
        _ => soa.ttl,
    }
}

/// Copies the SOA record of a zone, with the TTL of a negative answer.
pub(crate) fn soa_copies(alloc: Global, zone: &Zone) -> Result<Sequence<Record>, AllocError>
    ensures { IfOk result (λ copies. copies ≡ authority zone.now) }
{
    let mut copies = Sequence::new(alloc);
    let origin = zone.origin();
    for soa in zone.records_at(origin, RecordType::SOA) {
        copies.push(copy_with(origin, negative_ttl(soa), soa)?)?;
    }
    Ok(copies)
}
