//! Lists of records, with the positions of their data.

ghost use Rattle.std.specs.Prelude.{◌≡◌, ◌<◌, ◌==◌, ◌∷◌, ◌++◌, [], false, true, IfSome, OnOk, OnErr, length, position, slice_get, slice_set};
ghost use Rattle.std.specs.List.{remove};
ghost use Rattle.dns_data.specs.rdata.{same_data};
ghost use Rattle.dns_records.specs.RecordSet.{each_of_class, each_with_ttl, has_data, put, record_data};

use crate::data_index::DataIndex;
use crate::record::Record;
use dns_data::RData;
use dns_wire::DNSClass;
use std::alloc::AllocError;
use std::marker::Model;
use std::mem;

/// Records in their order, with an index of their data.
///
/// Among *n* records, data is found in a time proportional to log *n* once some have been added, see
/// [`DataIndex`](crate::DataIndex).
pub struct RecordList {
    records: Vec<Record>,
    index: DataIndex,
}

impl Drop for RecordList {
    fn drop(self) {
        let RecordList { records, index } = self;
        drop(records);
        drop(index);
    }
}

impl Model for RecordList {
    ghost use Rattle.std.specs.Prelude.{List};
    ghost use Rattle.dns_records.specs.Record.{Record};
    ghost use Rattle.dns_records.specs.DataIndex.{IsIndexOf};

    ghost Value = { List Record };

    ghost view = { λ l. l.records.items };

    ghost invariant = { λ l. IsIndexOf l.index l.records.items };
}

impl RecordList {
    /// Creates a list of these records. No memory is taken.
    pub fn new(records: Vec<Record>) -> RecordList
        ensures { result ≡ records.items }
    {
        let index = DataIndex::new(*records.allocator());
        RecordList { records, index }
    }

    /// Returns the records, in their order.
    pub fn as_slice(&self) -> &[Record]
        ensures { result.now ≡ self.now }
    {
        self.records.as_slice()
    }

    /// Returns `true` if there are no records.
    pub fn is_empty(&self) -> bool
        ensures { result ≡ (length self.now == 0) }
    {
        self.records.is_empty()
    }

    /// Puts other records in place of these, which are returned. No memory is taken.
    pub fn replace_by(&mut self, records: RecordList) -> RecordList
        ensures result { result ≡ self.old }
        ensures list { self.new ≡ records }
    {
        mem::replace(self, records)
    }

    /// Returns the records by value, in their order.
    pub fn into_vec(self) -> Vec<Record>
        ensures { result.items ≡ self }
    {
        let RecordList { records, index } = self;
        drop(index);
        records
    }

    /// Returns the position of the first record with equal data.
    pub fn position(&self, rdata: &RData) -> Option<usize>
        ensures { result ≡ position (λ r. same_data r.rdata rdata.now) self.now }
    {
        self.index.position(self.records.as_slice(), rdata)
    }

    /// Adds a record as the last. An error leaves the list unchanged.
    pub fn push(&mut self, resource_record: Record) -> Result<(), AllocError>
        ensures ok { OnOk result (self.new ≡ self.old ++ resource_record ∷ []) }
        ensures err { OnErr result (self.new ≡ self.old) }
    {
        self.records.reserve(1)?;
        self.index
            .push(self.records.as_slice(), &resource_record.rdata)?;
        self.records.push_reserved(resource_record);
        Ok(())
    }

    /// Puts a record in place of the first with equal data, or adds it as the last. An error leaves the list unchanged.
    pub fn put(&mut self, resource_record: Record) -> Result<(), AllocError>
        ensures ok { OnOk result (self.new ≡ put record_data self.old resource_record) }
        ensures err { OnErr result (self.new ≡ self.old) }
        ensures grows { OnErr result
            (has_data record_data self.old resource_record.rdata ≡ false) }
    {
        match self.position(&resource_record.rdata) {
            Some(place) => {
                self.replace(place, resource_record);
                Ok(())
            }
            None => self.push(resource_record),
        }
    }

    /// Replaces the record at a position by one with equal data.
    fn replace(&mut self, place: usize, resource_record: Record)
        requires within { place < length self.old }
        requires equal { IfSome (slice_get self.old place)
            (λ old. same_data old.rdata resource_record.rdata ≡ true) }
        ensures { self.new ≡ slice_set self.old place resource_record }
    {
        self.records[place] = resource_record;
    }

    /// Replaces all records by one. Memory is taken only if there are none.
    pub fn replace_all(&mut self, resource_record: Record) -> Result<(), AllocError>
        ensures ok { OnOk result (self.new ≡ resource_record ∷ []) }
        ensures err { OnErr result (self.new ≡ self.old) }
        ensures grows { OnErr result (self.old ≡ []) }
    {
        self.index.clear();
        if self.records.is_empty() {
            self.records.push(resource_record)?;
            return Ok(());
        }
        self.records[0] = resource_record;
        self.records.truncate(1);
        Ok(())
    }

    /// Removes the record at a position.
    pub fn remove(&mut self, place: usize)
        requires { place < length self.old }
        ensures { self.new ≡ remove self.old place }
    {
        self.index.clear();
        drop(self.records.remove(place));
    }

    /// Sets the class of each record.
    pub fn set_each_class(&mut self, dns_class: DNSClass)
        ensures { self.new ≡ each_of_class dns_class self.old }
    {
        self.index.clear();
        set_each_class(self.records.as_mut_slice(), dns_class);
    }

    /// Sets the TTL of each record.
    pub fn set_each_ttl(&mut self, ttl: u32)
        ensures { self.new ≡ each_with_ttl ttl self.old }
    {
        self.index.clear();
        set_each_ttl(self.records.as_mut_slice(), ttl);
    }
}

/// Sets the class of each record.
fn set_each_class(records: &mut [Record], dns_class: DNSClass)
    ensures { records.new ≡ each_of_class dns_class records.old }
{
    for present in records.iter_mut() {
        present.dns_class = dns_class;
    }
}

/// Sets the TTL of each record.
fn set_each_ttl(records: &mut [Record], ttl: u32)
    ensures { records.new ≡ each_with_ttl ttl records.old }
{
    for present in records.iter_mut() {
        present.ttl = ttl;
    }
}
