//! Records (RFC 1035 section 4.1.3).

ghost use Rattle.std.specs.Prelude.{◌≡◌, ◌≢◌, IfOk, IfErr, IfSome, IfNone, IsOk, option_map};
ghost use Rattle.dns_wire.specs.Encoder.{state_of, IsAtEnd};
ghost use Rattle.dns_wire.specs.Encodable.{Emits, AreWritable};
ghost use Rattle.dns_data.specs.declared.rdata.RData.{RData};
ghost use Rattle.dns_data.specs.rdata.{data_type};
ghost use Rattle.dns_records.specs.declared.record.Record.{Record};

use crate::emit::emit_behind_owner;
use crate::record_head::RecordHead;
use crate::record_parts::RecordParts;
use crate::record_ref::RecordRef;
use dns_data::{RData, RecordData};
use dns_names::Name;
use dns_wire::{
    BinDecodable, BinDecoder, BinEncodable, BinEncoder, DNSClass, DecodeError, EncodeError,
    RecordType,
};
use std::alloc::{AllocError, Global};
use std::cmp::Ordering;
use std::fmt;

/// A record, with data of one type or of any.
pub struct Record<R: RecordData = RData> {
    /// The owner.
    pub name: Name,
    pub dns_class: DNSClass,
    /// How long the record may be cached, in seconds.
    pub ttl: u32,
    pub rdata: R,
}

impl<R: RecordData + Drop> Drop for Record<R> {
    fn drop(self) {
        let Record {
            name,
            dns_class: _dns_class,
            ttl: _ttl,
            rdata,
        } = self;
        drop(name);
        drop(rdata);
    }
}

impl<R: RecordData> Record<R> {
    ghost use Rattle.dns_wire.specs.declared.codes.dns_class.DNSClass.TheVariants.{IN};
    ghost use Rattle.dns_records.specs.Record.{after_seconds, record_of_rdata};

    /// Creates a record of the Internet class.
    pub fn from_rdata(name: Name, ttl: u32, rdata: R) -> Record<R>
        ensures { result ≡ record { name = name; dns_class = IN; ttl = ttl; rdata = rdata } }
    {
        Record {
            name,
            dns_class: DNSClass::IN,
            ttl,
            rdata,
        }
    }

    /// Converts to the parts of the record. No memory is taken.
    pub fn into_parts(self) -> RecordParts<R>
        ensures { result ≡ record {
          name = self.name;
          dns_class = self.dns_class;
          ttl = self.ttl;
          rdata = self.rdata;
        } }
    {
        let Record {
            name,
            dns_class,
            ttl,
            rdata,
        } = self;
        RecordParts {
            name,
            dns_class,
            ttl,
            rdata,
        }
    }

    /// Returns the type of the record.
    pub fn record_type(&self) -> RecordType
        ensures { result ≡ data_type (R.rdata self.now.rdata) }
    {
        self.rdata.record_type()
    }

    /// Reduces the TTL by `seconds`, to 0 at the least.
    pub fn decrement_ttl(&mut self, seconds: u32)
        ensures { self.new ≡ after_seconds seconds self.old }
    {
        self.ttl = self.ttl.saturating_sub(seconds);
    }

    /// Converts to a record with data of any type. The data is not copied.
    pub fn into_record_of_rdata(self) -> Record
        ensures { result ≡ record_of_rdata R.rdata self }
    {
        let Record {
            name,
            dns_class,
            ttl,
            rdata,
        } = self;
        Record {
            name,
            dns_class,
            ttl,
            rdata: rdata.into_rdata(),
        }
    }

    /// Converts the data, and keeps owner, class and TTL. Returns `None` if the data cannot be converted.
    pub fn map<N: RecordData, F: FnOnce(R) -> Option<N>>(self, f: F) -> Option<Record<N>>
        requires { F.pre f self.rdata }
        ensures rdata { F.post f self.rdata (option_map (λ converted. converted.rdata) result) }
        ensures name { IfSome result (λ converted. converted.name ≡ self.name) }
        ensures dns_class { IfSome result (λ converted. converted.dns_class ≡ self.dns_class) }
        ensures ttl { IfSome result (λ converted. converted.ttl ≡ self.ttl) }
    {
        let Record {
            name,
            dns_class,
            ttl,
            rdata,
        } = self;
        let rdata = f(rdata)?;
        Some(Record {
            name,
            dns_class,
            ttl,
            rdata,
        })
    }
}

impl<R: RecordData + PartialEq> PartialEq for Record<R> {
    ghost use Rattle.dns_records.specs.Record.{same_record};
    ghost use Rattle.dns_records.specs.internal.Equality.{same_record-partial};

    ghost eq = { same_record R.eq };

    ghost laws = { same_record-partial R.PartialEq.laws };

    /// Returns `true` if owner, class and data are equal. The TTL is not compared (RFC 2136 section 1.1.1).
    fn eq(&self, other: &Record<R>) -> bool {
        self.name == other.name && self.dns_class == other.dns_class && self.rdata == other.rdata
    }
}

impl<R: RecordData + Eq> Eq for Record<R> {
    ghost use Rattle.dns_records.specs.internal.Equality.{same_record-equivalence};

    ghost laws = { same_record-equivalence R.Eq.laws };
}

impl<R: RecordData + Ord> Record<R> {
    ghost use Rattle.dns_records.specs.Record.{record_cmp};

    /// Compares owner, type, class, TTL and data, in this order. Types and classes compare by their numbers.
    ///
    /// `Record` is not `Ord`, since `==` ignores the TTL.
    pub fn compare(&self, other: &Record<R>) -> Ordering
        ensures { result ≡ record_cmp R.rdata R.cmp self.now other.now }
    {
        let types = u16::from(self.record_type()).cmp(&u16::from(other.record_type()));
        let classes = u16::from(self.dns_class).cmp(&u16::from(other.dns_class));
        self.name
            .cmp(&other.name)
            .then(types)
            .then(classes)
            .then(self.ttl.cmp(&other.ttl))
            .then(self.rdata.cmp(&other.rdata))
    }
}

impl<R: RecordData + Clone> Clone for Record<R> {
    ghost use Rattle.dns_records.specs.Record.{IsCopyOf};

    ghost is_clone = { IsCopyOf R.is_clone };

    fn clone(&self) -> Result<Record<R>, AllocError> {
        let name = self.name.clone()?;
        let rdata = self.rdata.clone()?;
        Ok(Record {
            name,
            dns_class: self.dns_class,
            ttl: self.ttl,
            rdata,
        })
    }
}

impl Record {
    ghost use Rattle.dns_wire.specs.declared.codes.dns_class.DNSClass.TheVariants.{IN};
    ghost use Rattle.dns_records.specs.Record.{head_pieces, record_of_rdata, IsInlineRecord, ReadsRecord, RefusesRecord};
    ghost use Rattle.dns_records.specs.RecordRef.{borrowed_record};

    /// Creates a record without data, as updates have them (RFC 2136 section 2.4).
    pub fn update0(name: Name, ttl: u32, record_type: RecordType) -> Record
        ensures { result ≡ record {
          name = name;
          dns_class = IN;
          ttl = ttl;
          rdata = RData.Update0 record_type;
        } }
    {
        Record::from_rdata(name, ttl, RData::Update0(record_type))
    }

    /// Borrows the record as one with data of one type. Returns `None` if its data is of another type.
    pub fn try_borrow<T: RecordData>(&self) -> Option<RecordRef<'_, T>>
        ensures some { IfSome result (λ borrowed.
            record_of_rdata T.rdata (borrowed_record borrowed) ≡ self.now) }
        ensures none { IfNone result ((other : T) → T.rdata other ≢ self.now.rdata) }
    {
        let rdata = T::try_borrow(&self.rdata)?;
        Some(RecordRef::new(&self.name, self.dns_class, self.ttl, rdata))
    }

    /// Copies the record. A short owner, numbers, addresses and short names take no memory.
    pub fn clone(&self) -> Result<Record, AllocError>
        ensures ok { IfOk result (λ copy. copy ≡ self.now) }
        ensures inline { IsInlineRecord self.now → IsOk result }
    {
        Ok(Record {
            name: self.name.clone()?,
            dns_class: self.dns_class,
            ttl: self.ttl,
            rdata: self.rdata.clone()?,
        })
    }

    /// Reads a record. A failed read may advance the decoder.
    fn read_on(alloc: Global, decoder: &mut BinDecoder<'_>) -> Result<Record, DecodeError>
        ensures read { IfOk result (λ found.
            ReadsRecord decoder.old.bytes decoder.old.index found decoder.new.index) }
        ensures refused { IfErr result (λ error. error ≢ DecodeError.Memory
            → RefusesRecord decoder.old.bytes decoder.old.index error) }
        ensures bytes { decoder.new.bytes ≡ decoder.old.bytes }
    {
        let head = RecordHead::read(alloc, decoder)?;
        head.read_data(alloc, decoder)
    }
}

impl BinDecodable for Record {
    ghost use Rattle.dns_records.specs.Record.{ReadsRecord, RefusesRecord};
    ghost use Rattle.dns_records.specs.internal.Records.{record_same, record_not_refused};

    ghost decodes = { ReadsRecord };

    ghost refuses = { RefusesRecord };

    /// Decodes a record of any type, whose data takes exactly its length. Empty data is that of an OPT record without
    /// options, or of a record of an update (RFC 2136 section 2.4).
    fn read(alloc: Global, decoder: &mut BinDecoder<'_>) -> Result<Record, DecodeError> {
        let mut reader = decoder.clone(decoder.index());
        let record = Record::read_on(alloc, &mut reader)?;
        *decoder = reader;
        Ok(record)
    }

    ghost unambiguous = { record_same };

    ghost not_refused = { record_not_refused };
}

impl BinEncodable for Record {
    ghost use Rattle.dns_records.specs.Record.{record_pieces};

    ghost pieces = { λ r s. record_pieces s r };

    fn emit(&self, encoder: &mut BinEncoder<'_>) -> Result<(), EncodeError> {
        let kind = self.rdata.record_type();
        self.name.emit(encoder)?;
        emit_behind_owner(kind, self.dns_class, self.ttl, &self.rdata, encoder)
    }
}

impl<R: RecordData + fmt::Display> fmt::Display for Record<R> {
    ghost use Rattle.dns_records.specs.Record.{record_output};

    ghost output = { record_output R.rdata R.output };

    /// Writes the record as a line of a zone file, without the line's end: owner, TTL, class, type and data, separated by
    /// single spaces, such as `a.t. 60 IN A 10.0.0.1` (RFC 1035 section 5.1). A parser of zone files reads the same record from
    /// it, if its class is `IN`, `CH` or `HS`, and its data is of a type with a text form, and not empty.
    fn fmt<W: fmt::Write>(&self, f: &mut fmt::Formatter<W>) -> fmt::Result {
        let record_type = self.record_type();
        let (name, dns_class, ttl, rdata) = (&self.name, self.dns_class, self.ttl, &self.rdata);
        write!(f, "{name} {ttl} {dns_class} {record_type} {rdata}")
    }
}
