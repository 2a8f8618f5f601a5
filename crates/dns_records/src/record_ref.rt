//! Borrowed records.

ghost use Rattle.std.specs.Prelude.{◌≡◌};
ghost use Rattle.dns_data.specs.rdata.{data_type};
ghost use Rattle.dns_records.specs.RecordRef.{borrowed_record};

use crate::record::Record;
use dns_data::RecordData;
use dns_names::Name;
use dns_wire::{DNSClass, RecordType};
use std::alloc::AllocError;
use std::fmt;

/// A record whose owner and data are borrowed, by [`Record::try_borrow`]. The data is of one type.
#[derive(Drop)]
#[derive_where(Clone, Copy)]
pub struct RecordRef<'a, R: RecordData> {
    name: &'a Name,
    dns_class: DNSClass,
    ttl: u32,
    rdata: &'a R,
}

impl<'a, R: RecordData> RecordRef<'a, R> {
    /// Borrows the parts of a record.
    pub(crate) fn new(name: &'a Name, dns_class: DNSClass, ttl: u32, rdata: &'a R) -> Self
        ensures { borrowed_record result ≡ record {
          name = name.now;
          dns_class = dns_class;
          ttl = ttl;
          rdata = rdata.now;
        } }
    {
        RecordRef {
            name,
            dns_class,
            ttl,
            rdata,
        }
    }

    /// Returns the owner.
    pub fn name(&self) -> &'a Name
        ensures { result.now ≡ (borrowed_record self.now).name }
    {
        self.name
    }

    /// Returns the type of the record.
    pub fn record_type(&self) -> RecordType
        ensures { result ≡ data_type (R.rdata (borrowed_record self.now).rdata) }
    {
        self.rdata.record_type()
    }

    /// Returns the class.
    pub fn dns_class(&self) -> DNSClass
        ensures { result ≡ (borrowed_record self.now).dns_class }
    {
        self.dns_class
    }

    /// Returns how long the record may be cached, in seconds.
    pub fn ttl(&self) -> u32
        ensures { result ≡ (borrowed_record self.now).ttl }
    {
        self.ttl
    }

    /// Returns the data.
    pub fn rdata(&self) -> &'a R
        ensures { result.now ≡ (borrowed_record self.now).rdata }
    {
        self.rdata
    }
}

impl<'a, R: RecordData + Clone> RecordRef<'a, R> {
    ghost use Rattle.std.specs.Prelude.{IfOk};
    ghost use Rattle.dns_records.specs.Record.{IsCopyOf};

    /// Copies the record that is borrowed.
    pub fn to_owned(&self) -> Result<Record<R>, AllocError>
        ensures { IfOk result (IsCopyOf R.is_clone (borrowed_record self.now)) }
    {
        Ok(Record {
            name: self.name.clone()?,
            dns_class: self.dns_class,
            ttl: self.ttl,
            rdata: self.rdata.clone()?,
        })
    }
}

impl<'a, R: RecordData + fmt::Display> fmt::Display for RecordRef<'a, R> {
    ghost use Rattle.dns_records.specs.Record.{record_output};

    ghost output = { λ r. record_output R.rdata R.output (borrowed_record r) };

    /// Writes the record that is borrowed as a line of a zone file, without the line's end (RFC 1035 section 5.1).
    fn fmt<W: fmt::Write>(&self, f: &mut fmt::Formatter<W>) -> fmt::Result {
        let record_type = self.record_type();
        let (name, dns_class, ttl, rdata) = (self.name, self.dns_class, self.ttl, self.rdata);
        write!(f, "{name} {ttl} {dns_class} {record_type} {rdata}")
    }
}
