//! Insertions in lists of records, and removals.

ghost use Rattle.std.specs.Prelude.{◌≡◌, ◌<◌, IfOk, OnOk, OnErr, length};
ghost use Rattle.dns_data.specs.rdata.{data_type};
ghost use Rattle.dns_records.specs.RecordSet.{AreDistinct, accepts_data, added, has_data, inserted, is_inserted, is_protected, is_removed, record_data, removed, supersedes, without_data};

use super::record_list::RecordList;
use crate::record::Record;
use dns_data::RData;
use dns_wire::RecordType;
use std::alloc::AllocError;

/// Returns whether new data supersedes present data.
fn is_superseded(new: &RData, old: &RData) -> bool
    ensures { result ≡ supersedes new.now old.now }
{
    match (new, old) {
        (RData::SOA(new), RData::SOA(old)) => old.serial < new.serial,
        _ => false,
    }
}

/// Returns whether a record has this data.
fn contains_data(records: &RecordList, rdata: &RData) -> bool
    ensures { result ≡ has_data record_data records.now rdata.now }
{
    records.position(rdata).is_some()
}

/// Returns whether a record with this data would be inserted.
pub fn accepts_data(records: &RecordList, rdata: &RData) -> bool
    ensures { result ≡ accepts_data record_data (data_type rdata.now) records.now rdata.now }
{
    match rdata.record_type() {
        RecordType::CNAME => true,
        RecordType::SOA => {
            let records = records.as_slice();
            records.is_empty() || is_superseded(rdata, &records[0].rdata)
        }
        _ => !contains_data(records, rdata),
    }
}

/// Inserts a record that is accepted. An error is possible only where the list would grow.
pub fn put_record(records: &mut RecordList, resource_record: Record) -> Result<(), AllocError>
    ensures ok { OnOk result (records.new
        ≡ added (data_type resource_record.rdata) records.old resource_record) }
    ensures err { OnErr result (records.new ≡ records.old) }
    ensures grows { OnErr result (length records.old
        < length (added (data_type resource_record.rdata) records.old resource_record)) }
{
    match resource_record.record_type() {
        RecordType::CNAME | RecordType::SOA => records.replace_all(resource_record),
        _ => records.push(resource_record),
    }
}

/// Inserts a record, and returns whether it was inserted. An error is possible only where the list would grow.
pub fn insert_record(records: &mut RecordList, resource_record: Record) -> Result<bool, AllocError>
    ensures inserted { IfOk result (λ taken.
        taken ≡ is_inserted record_data records.old resource_record) }
    ensures ok { OnOk result
        (records.new ≡ inserted record_data records.old resource_record) }
    ensures err { OnErr result (records.new ≡ records.old) }
    ensures grows { OnErr result (length records.old
        < length (inserted record_data records.old resource_record)) }
{
    if !accepts_data(records, &resource_record.rdata) {
        return Ok(false);
    }
    put_record(records, resource_record)?;
    Ok(true)
}

/// Returns whether all records of a set of a type stay: an SOA, and the last NS.
fn are_protected(record_type: RecordType, records: &[Record]) -> bool
    ensures { result ≡ is_protected record_type records.now }
{
    match record_type {
        RecordType::SOA => true,
        RecordType::NS => records.len() <= 1,
        _ => false,
    }
}

/// Removes the first record with this data, and returns whether there was one.
fn remove_data(records: &mut RecordList, rdata: &RData) -> bool
    ensures removed { result ≡ has_data record_data records.old rdata.now }
    ensures records { records.new ≡ without_data record_data records.old rdata.now }
{
    match records.position(rdata) {
        Some(index) => {
            records.remove(index);
            true
        }
        None => false,
    }
}

/// Removes the record with this data from those of a type, and returns whether one was removed.
pub fn remove_record(record_type: RecordType, records: &mut RecordList, rdata: &RData) -> bool
    ensures removed { result
        ≡ is_removed record_data record_type records.old rdata.now }
    ensures records { records.new
        ≡ removed record_data record_type records.old rdata.now }
    ensures distinct { AreDistinct record_data records.old
        → AreDistinct record_data records.new }
{
    !are_protected(record_type, records.as_slice()) && remove_data(records, rdata)
}
