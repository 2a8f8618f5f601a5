//! Sets of records (RFC 2181 section 5).

ghost use Rattle.std.specs.Prelude.{◌≡◌, ◌<◌, ◌==◌, ◌∷◌, ◌⊎◌, [], IfOk, OnOk, OnErr, length, false, true, slice_get, option_copied, MatchResult, None, Some, if◌then◌else◌};
ghost use Rattle.dns_data.specs.rdata.{data_type};
ghost use Rattle.dns_records.specs.RecordSet.{record_data};

mod edits;
mod record_list;

use crate::record::Record;
use crate::record_set_parts::RecordSetParts;
use crate::rrset_records::RrsetRecords;
use dns_data::RData;
use dns_names::Name;
use dns_wire::{DNSClass, RecordType};
use edits::{accepts_data, insert_record, put_record, remove_record};
pub use record_list::RecordList;
use std::alloc::{AllocError, Global};
use std::marker::Model;
use std::vec::IntoIter;

/// The records of one owner and type, with the serial number of the zone at their last change.
///
/// Adding a record and deleting one never makes two of its data equal (RFC 2181 section 5). Which records are taken are rules of
/// the set by itself, and not those of an update of a zone (RFC 2136 section 3.4.2).
pub struct RecordSet {
    name: Name,
    record_type: RecordType,
    dns_class: DNSClass,
    ttl: u32,
    serial: u32,
    records: RecordList,
}

impl Drop for RecordSet {
    fn drop(self) {
        let RecordSet {
            name,
            record_type: _record_type,
            dns_class: _dns_class,
            ttl: _ttl,
            serial: _serial,
            records,
        } = self;
        drop(name);
        drop(records);
    }
}

impl Model for RecordSet {
    ghost use Rattle.dns_records.specs.RecordSet.{RecordSetValue};

    ghost Value = { RecordSetValue };

    ghost view = { λ s. record {
      name = s.name;
      record_type = s.record_type;
      dns_class = s.dns_class;
      ttl = s.ttl;
      serial = s.serial;
      records = s.records;
    } };
}

impl RecordSet {
    ghost use Rattle.dns_wire.specs.declared.codes.dns_class.DNSClass.TheVariants.{IN};
    ghost use Rattle.dns_records.specs.RecordSet.{empty_set};

    /// Creates an empty set of the Internet class, with a TTL of 0.
    pub fn new(alloc: Global, name: Name, record_type: RecordType, serial: u32) -> RecordSet
        ensures { result ≡ empty_set name record_type IN 0 serial }
    {
        RecordSet {
            name,
            record_type,
            dns_class: DNSClass::IN,
            ttl: 0,
            serial,
            records: RecordList::new(Vec::new(alloc)),
        }
    }

    /// Creates an empty set of the Internet class, with a TTL in seconds and the serial number 0.
    pub fn with_ttl(alloc: Global, name: Name, record_type: RecordType, ttl: u32) -> RecordSet
        ensures { result ≡ empty_set name record_type IN ttl 0 }
    {
        RecordSet {
            name,
            record_type,
            dns_class: DNSClass::IN,
            ttl,
            serial: 0,
            records: RecordList::new(Vec::new(alloc)),
        }
    }

    /// Creates a set of one record, with its owner, type, class and TTL, and with the serial number 0.
    pub fn from_record(alloc: Global, resource_record: Record) -> Result<RecordSet, AllocError>
        ensures { IfOk result (λ set. set ≡ record {
          name = resource_record.name;
          record_type = data_type resource_record.rdata;
          dns_class = resource_record.dns_class;
          ttl = resource_record.ttl;
          serial = 0;
          records = resource_record ∷ [];
        }) }
    {
        let name = resource_record.name.clone()?;
        let record_type = resource_record.record_type();
        let dns_class = resource_record.dns_class;
        let ttl = resource_record.ttl;
        let records = RecordList::new(Vec::from_array(alloc, [resource_record])?);
        Ok(RecordSet {
            name,
            record_type,
            dns_class,
            ttl,
            serial: 0,
            records,
        })
    }

    /// Returns the owner of the records.
    pub fn name(&self) -> &Name
        ensures { result.now ≡ self.now.name }
    {
        &self.name
    }

    /// Returns the type of the records.
    pub fn record_type(&self) -> RecordType
        ensures { result ≡ self.now.record_type }
    {
        self.record_type
    }

    /// Returns the class of the records.
    pub fn dns_class(&self) -> DNSClass
        ensures { result ≡ self.now.dns_class }
    {
        self.dns_class
    }

    /// Returns the TTL of the set, in seconds.
    pub fn ttl(&self) -> u32
        ensures { result ≡ self.now.ttl }
    {
        self.ttl
    }

    /// Returns the serial number of the zone at the last change of the set.
    pub fn serial(&self) -> u32
        ensures { result ≡ self.now.serial }
    {
        self.serial
    }

    /// Returns the number of records.
    pub fn records_count(&self) -> usize
        ensures { result ≡ length self.now.records }
    {
        self.records.as_slice().len()
    }

    /// Returns `true` if the set has no records.
    pub fn is_empty(&self) -> bool
        ensures { result ≡ (length self.now.records == 0) }
    {
        self.records.as_slice().is_empty()
    }

    /// Returns the records, in their order.
    pub fn as_slice(&self) -> &[Record]
        ensures { result.now ≡ self.now.records }
    {
        self.records.as_slice()
    }

    /// Returns the first record.
    pub fn record(&self) -> Option<&Record>
        ensures { option_copied result ≡ slice_get self.now.records 0 }
    {
        self.records.as_slice().first()
    }
}

impl RecordSet {
    ghost use Rattle.dns_records.specs.RrsetRecords.{records_left};
    ghost use Rattle.dns_records.specs.RecordSet.{has_data, put, with_each_class, with_each_ttl};

    /// Returns an iterator over the records, in their order.
    pub fn records(&self) -> RrsetRecords<'_>
        ensures { records_left result ≡ self.now.records }
    {
        RrsetRecords::new(self.records.as_slice())
    }

    /// Returns an iterator over the records without their signatures, in their order. A set has no signatures.
    pub fn records_without_rrsigs(&self) -> RrsetRecords<'_>
        ensures { records_left result ≡ self.now.records }
    {
        RrsetRecords::new(self.records.as_slice())
    }

    /// Sets the class of the set and of each record.
    pub fn set_dns_class(&mut self, dns_class: DNSClass)
        ensures { self.new ≡ with_each_class self.old dns_class }
    {
        self.dns_class = dns_class;
        self.records.set_each_class(dns_class);
    }

    /// Sets the TTL of the set and of each record, in seconds.
    pub fn set_ttl(&mut self, ttl: u32)
        ensures { self.new ≡ with_each_ttl self.old ttl }
    {
        self.ttl = ttl;
        self.records.set_each_ttl(ttl);
    }

    /// Replaces the records. They are not checked against the set or one another.
    pub fn set_records(&mut self, records: Vec<Record>)
        ensures { self.new ≡ record self.old { records = records.items } }
    {
        self.records = RecordList::new(records);
    }

    /// Puts a record in place of the one with equal data, or adds it as the last. It is not checked against the set, which keeps
    /// its TTL and its serial number. An error leaves the set unchanged, and is possible only where no record has equal data.
    ///
    /// Among *n* records this takes a time proportional to log *n*.
    pub fn put_record(&mut self, resource_record: Record) -> Result<(), AllocError>
        ensures ok { OnOk result (self.new
            ≡ record self.old { records = put record_data self.old.records resource_record }) }
        ensures err { OnErr result (self.new ≡ self.old) }
        ensures grows { OnErr result
            (has_data record_data self.old.records resource_record.rdata ≡ false) }
    {
        self.records.put(resource_record)
    }

    /// Converts to the parts of the set. No memory is taken.
    pub fn into_parts(self) -> RecordSetParts
        ensures parts { result ≡ record {
          name = self.name;
          record_type = self.record_type;
          dns_class = self.dns_class;
          ttl = self.ttl;
          records = result.records;
          serial = self.serial;
        } }
        ensures records { result.records.items ≡ self.records }
    {
        let RecordSet {
            name,
            record_type,
            dns_class,
            ttl,
            serial,
            records,
        } = self;
        RecordSetParts {
            name,
            record_type,
            dns_class,
            ttl,
            records: records.into_vec(),
            serial,
        }
    }
}

impl RecordSet {
    ghost use Rattle.dns_names.specs.Compare.{same_name};
    ghost use Rattle.dns_records.specs.RecordSet.{AreDistinct, loses_record, record_for, accepts_record, with_record, without_record};

    /// Inserts a record of the set's owner and type, and returns whether it was inserted.
    ///
    /// A `CNAME` replaces the records, and an `SOA` only one with a lower serial number. Any other record is added as the last,
    /// unless a record has equal data, which keeps its TTL. If the record was inserted, the set has its TTL, and `serial`.
    /// An error leaves the set unchanged, and is possible only where the number of records would grow.
    pub fn insert(&mut self, resource_record: Record, serial: u32) -> Result<bool, AllocError>
        requires owner { same_name resource_record.name self.old.name ≡ true }
        requires of_type { data_type resource_record.rdata ≡ self.old.record_type }
        ensures inserted { IfOk result (λ taken. taken ≡ accepts_record self.old resource_record) }
        ensures ok { OnOk result (self.new ≡ with_record self.old resource_record serial) }
        ensures err { OnErr result (self.new ≡ self.old) }
        ensures grows { OnErr result (length self.old.records
            < length (with_record self.old resource_record serial).records) }
        ensures distinct { AreDistinct record_data self.old.records
            → AreDistinct record_data self.new.records }
    {
        let ttl = resource_record.ttl;
        let is_inserted = insert_record(&mut self.records, resource_record)?;
        if is_inserted {
            self.ttl = ttl;
            self.serial = serial;
        }
        Ok(is_inserted)
    }

    /// Removes the record whose data equals that of `resource_record`, and returns whether there was one. If so, the set has
    /// `serial`. Owner, class and TTL are not compared.
    ///
    /// No `SOA` is removed, and not the last `NS`.
    pub fn remove(&mut self, resource_record: &Record, serial: u32) -> bool
        ensures removed { result ≡ loses_record self.old resource_record.now.rdata }
        ensures set { self.new ≡ without_record self.old resource_record.now.rdata serial }
        ensures distinct { AreDistinct record_data self.old.records
            → AreDistinct record_data self.new.records }
    {
        let is_removed = remove_record(self.record_type, &mut self.records, &resource_record.rdata);
        if is_removed {
            self.serial = serial;
        }
        is_removed
    }
}

impl RecordSet {
    ghost use Rattle.dns_records.specs.RecordSet.{AreDistinct, record_for, accepts_record, with_record};

    /// Inserts a record with the set's owner, class and TTL and with this data, whose type is the set's, as
    /// [`insert`](RecordSet::insert) with the set's serial number. Returns whether it was inserted.
    ///
    /// An error leaves the set unchanged, and is possible only where the record would be inserted.
    pub fn add_rdata(&mut self, rdata: RData) -> Result<bool, AllocError>
        requires { data_type rdata ≡ self.old.record_type }
        ensures inserted { IfOk result (λ taken.
            taken ≡ accepts_record self.old (record_for self.old rdata)) }
        ensures ok { OnOk result
            (self.new ≡ with_record self.old (record_for self.old rdata) self.old.serial) }
        ensures err { OnErr result (self.new ≡ self.old) }
        ensures accepts { OnErr result
            (accepts_record self.old (record_for self.old rdata) ≡ true) }
        ensures distinct { AreDistinct record_data self.old.records
            → AreDistinct record_data self.new.records }
    {
        if !accepts_data(&self.records, &rdata) {
            return Ok(false);
        }
        self.put_rdata(rdata)?;
        Ok(true)
    }

    /// Inserts a record with the set's owner, class and TTL and with this data, which is accepted.
    fn put_rdata(&mut self, rdata: RData) -> Result<(), AllocError>
        requires accepted { accepts_record self.old (record_for self.old rdata) ≡ true }
        ensures ok { OnOk result
            (self.new ≡ with_record self.old (record_for self.old rdata) self.old.serial) }
        ensures err { OnErr result (self.new ≡ self.old) }
    {
        let record = Record {
            name: self.name.clone()?,
            dns_class: self.dns_class,
            ttl: self.ttl,
            rdata,
        };
        put_record(&mut self.records, record)
    }
}

impl RecordSet {
    ghost use Rattle.std.specs.Borrow.{sem};
    ghost use Rattle.std.specs.Io.BufRead.{Rests};
    ghost use Rattle.dns_records.specs.contracts.record_set.RecordSet.{the_row};
    ghost use Rattle.dns_records.specs.RecordSet.{record_for, accepts_record, with_record};

    /// Inserts a record with the set's owner, class and TTL and with a copy of this data.
    fn add_copy(&mut self, rdata: &RData) -> Result<bool, AllocError>
        ensures inserted { IfOk result (λ taken.
            taken ≡ accepts_record self.old (record_for self.old rdata.now)) }
        ensures ok { OnOk result
            (self.new ≡ with_record self.old (record_for self.old rdata.now) self.old.serial) }
        ensures err { OnErr result (self.new ≡ self.old) }
        ensures accepts { OnErr result
            (accepts_record self.old (record_for self.old rdata.now) ≡ true) }
    {
        if !accepts_data(&self.records, rdata) {
            return Ok(false);
        }
        let rdata = rdata.clone()?;
        self.put_rdata(rdata)?;
        Ok(true)
    }

    /// Inserts a record with the set's owner, class and TTL and with a copy of this data, whose type is the set's, as
    /// [`insert`](RecordSet::insert) with the set's serial number. Returns the record if it was inserted.
    ///
    /// An error leaves the set unchanged, and is possible only where the record would be inserted.
    pub fn new_record(&mut self, rdata: &RData) -> Result<Option<&Record>, AllocError>
        requires { data_type rdata.now ≡ self.old.record_type }
        ensures inserted { IfOk result (λ lent. option_copied lent
            ≡ (if accepts_record self.old (record_for self.old rdata.now)
            then Some (record_for self.old rdata.now) else None)) }
        ensures accepts { OnErr result
            (accepts_record self.old (record_for self.old rdata.now) ≡ true) }
        ensures* set { sem 𝓛 (Rests the_row self.entry (λ after. MatchResult result
            (λ _. after ≡ with_record self.old (record_for self.old rdata.now) self.old.serial)
            (λ _. after ≡ self.old))) }
    {
        if self.add_copy(rdata)? {
            return Ok(self.records.as_slice().last());
        }
        Ok(None)
    }
}

impl IntoIterator for RecordSet {
    ghost use Rattle.std.specs.Prelude.{◌^◌};
    ghost use Rattle.std.specs.Vec.Iter.{into_iter_items, into_iter_len, into_iter_steps};
    ghost use Rattle.std.specs.Iterator.Runs.{EveryRun, ItemsAre};
    ghost use Rattle.dns_records.specs.Record.{Record};
    ghost use Rattle.std.specs.declared.alloc.Global.{Global};

    type Item = Record;

    type IntoIter = IntoIter<Record>;

    ghost into_iter_gives = { λ s r. (into_iter_items r ≡ s.records)
        × (into_iter_len r ≡ length s.records) × (into_iter_len r < 2 ^ 64)
        × EveryRun (into_iter_steps {X = Record} {Z = Global})
        (λ p. ItemsAre p (into_iter_items p.from)) };

    /// Iterates over the records by value, in their order.
    fn into_iter(self) -> IntoIter<Record> {
        let RecordSet {
            name: _name,
            record_type: _record_type,
            dns_class: _dns_class,
            ttl: _ttl,
            serial: _serial,
            records,
        } = self;
        records.into_vec().into_iter()
    }
}
