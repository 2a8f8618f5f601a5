//! Sections of an answer, whose records are borrowed from a zone.

ghost use Rattle.std.specs.Prelude.{◌≡◌, ◌≤◌, ◌++◌, true, [], map, length, IfOk, IfErr, IsOk, OnErr};
ghost use Rattle.dns_wire.specs.Encoder.{state_of, IsAtEnd, CanRollBack};
ghost use Rattle.dns_wire.specs.Encodable.{position_of, AllBehind, AreWritable};
ghost use Rattle.dns_wire.specs.Items.{fitting_items, fitting_pieces, append_fitting};
ghost use Rattle.dns_records.specs.Record.{record_pieces};
ghost use Rattle.dns_messages.specs.Cut.{record_item};
ghost use Rattle.dns_zone.specs.Rows.{row_of, rows_of};
ghost use Rattle.dns_zone.specs.Answer.{authority_row, negative_ttl, record_of};
ghost use Rattle.dns_zone.specs.Section.{alias_records, borrowed_record, remaining_records, row_with, section_records};

use crate::zone::row_refs::RowRefs;
use dns_data::RData;
use dns_messages::{EmitAndCount, Sequence};
use dns_names::Name;
use dns_records::{Record, emit_behind_owner};
use dns_wire::{BinEncodable, BinEncoder, DNSClass, EncodeError, emit_if_fits};
use std::alloc::{AllocError, Global};

/// A row of a zone as a record of the class `IN`, with an owner. Owner and data are borrowed.
#[derive(Clone, Copy, Drop)]
pub(crate) struct RowRef<'a> {
    owner: &'a Name,
    ttl: u32,
    rdata: &'a RData,
}

/// The TTL that the records of a section have.
#[derive(Clone, Copy, Drop)]
pub(crate) enum SectionTtl {
    /// That of each record.
    Unchanged,
    /// The TTL of a negative answer (RFC 2308 section 3).
    Negative,
}

/// The most aliases that an answer follows.
pub(crate) const MAX_ALIASES: usize = 7;

/// A section of an answer: aliases, and then the records of a set of the zone, with an owner and a TTL.
#[derive(Clone, Copy, Drop)]
pub(crate) struct Section<'a> {
    /// The aliases, and then no more.
    aliases: [Option<RowRef<'a>>; MAX_ALIASES],
    owner: &'a Name,
    ttl: SectionTtl,
    records: &'a [Record],
}

/// Returns the TTL of a negative answer: the lesser of the TTL and the minimum of an SOA record (RFC 2308 section 3).
fn negative_ttl(soa: &Record) -> u32
    ensures { result ≡ negative_ttl soa.now.ttl soa.now.rdata }
{
    match &soa.rdata {
        RData::SOA(data) => soa.ttl.min(data.minimum),
        _ => soa.ttl,
    }
}

impl SectionTtl {
    /// Returns the TTL of a record in the section.
    pub(crate) fn of(self, stored: &Record) -> u32
        ensures { result ≡ (row_with self (row_of stored.now)).ttl }
    {
        match self {
            SectionTtl::Unchanged => stored.ttl,
            SectionTtl::Negative => negative_ttl(stored),
        }
    }
}

impl<'a> RowRef<'a> {
    /// Creates the record of a set with this owner and this TTL.
    pub(crate) fn new(owner: &'a Name, ttl: SectionTtl, stored: &'a Record) -> RowRef<'a>
        ensures { borrowed_record result
            ≡ record_of owner.now (row_with ttl (row_of stored.now)) }
    {
        RowRef {
            owner,
            ttl: ttl.of(stored),
            rdata: &stored.rdata,
        }
    }

    /// Copies the record.
    fn to_owned(&self) -> Result<Record, AllocError>
        ensures { IfOk result (λ copy. copy ≡ borrowed_record self.now) }
    {
        let rdata = self.rdata.clone()?;
        Ok(Record {
            name: self.owner.clone()?,
            dns_class: DNSClass::IN,
            ttl: self.ttl,
            rdata,
        })
    }
}

impl BinEncodable for RowRef<'_> {
    ghost pieces = { λ row s. record_pieces s (borrowed_record row) };

    fn emit(&self, encoder: &mut BinEncoder<'_>) -> Result<(), EncodeError> {
        let kind = self.rdata.record_type();
        self.owner.emit(encoder)?;
        emit_behind_owner(kind, DNSClass::IN, self.ttl, self.rdata, encoder)
    }
}

impl<'a> Section<'a> {
    /// Creates a section without records. `owner` is ignored.
    pub(crate) fn empty(owner: &'a Name) -> Section<'a>
        ensures { section_records result ≡ [] }
    {
        Section::along([None; MAX_ALIASES], owner, &[])
    }

    /// Creates the answer section with these aliases and these records of a name.
    pub(crate) fn along(
        aliases: [Option<RowRef<'a>>; MAX_ALIASES],
        owner: &'a Name,
        records: &'a [Record],
    ) -> Section<'a>
        ensures { section_records result
            ≡ alias_records aliases.entry ++ map (record_of owner.now) (rows_of records.now) }
    {
        Section {
            aliases,
            owner,
            ttl: SectionTtl::Unchanged,
            records,
        }
    }

    /// Creates the authority section of a negative answer with these SOA records.
    pub(crate) fn authority(origin: &'a Name, records: &'a [Record]) -> Section<'a>
        ensures { section_records result
            ≡ map (λ row. record_of origin.now (authority_row row)) (rows_of records.now) }
    {
        Section {
            aliases: [None; MAX_ALIASES],
            owner: origin,
            ttl: SectionTtl::Negative,
            records,
        }
    }

    /// Iterates over the records.
    fn rows(&self) -> RowRefs<'_, 'a>
        ensures { remaining_records result ≡ section_records self.now }
    {
        RowRefs::new(&self.aliases, self.owner, self.ttl, self.records)
    }

    /// Copies the records. An empty section takes no memory.
    pub(crate) fn to_owned(&self, alloc: Global) -> Result<Sequence<Record>, AllocError>
        ensures records { IfOk result (λ copies. copies ≡ section_records self.now) }
        ensures empty { section_records self.now ≡ [] → IsOk result }
    {
        let mut copies = Sequence::new(alloc);
        let mut rows = self.rows();
        while let Some(row) = rows.next() {
            copies.push(row.to_owned()?)?;
        }
        Ok(copies)
    }

    /// Writes the records at the end, up to the first that does not fit, which is rolled back, and returns how many were
    /// written.
    fn emit_fitting(&self, encoder: &mut BinEncoder<'_>) -> Result<usize, EncodeError>
        requires at_end { IsAtEnd (state_of encoder.old) }
        requires behind { AllBehind (position_of (state_of encoder.old)) }
        ensures count { IfOk result (λ n. n ≡ length
            (fitting_items record_item (state_of encoder.old) (section_records self.now))) }
        ensures wrote { IsOk result → state_of encoder.new
            ≡ append_fitting record_item (state_of encoder.old) (section_records self.now) }
        ensures writable { IsOk result → AreWritable
            (fitting_pieces record_item (state_of encoder.old) (section_records self.now)) }
        ensures at_end { IsOk result → IsAtEnd (state_of encoder.new) }
        ensures behind { IsOk result → AllBehind (position_of (state_of encoder.new)) }
        ensures memory { IfErr result (λ error. error ≡ EncodeError.Memory) }
        ensures back { OnErr result (CanRollBack (state_of encoder.old) (state_of encoder.new)) }
    {
        let len = self.len();
        let mut rows = self.rows();
        for count in 0..len {
            let Some(row) = rows.next() else {
                return Ok(count);
            };
            if !emit_if_fits(&row, encoder)? {
                return Ok(count);
            }
        }
        Ok(len)
    }
}

impl EmitAndCount for Section<'_> {
    type Item = Record;

    ghost items = { section_records };

    fn len(&self) -> usize {
        alias_count(&self.aliases) + self.records.len()
    }

    fn emit(&mut self, encoder: &mut BinEncoder<'_>) -> Result<usize, EncodeError> {
        self.emit_fitting(encoder)
    }
}

/// Returns the number of aliases before the first place without one.
fn alias_count(aliases: &[Option<RowRef<'_>>]) -> usize
    ensures count { result ≡ length (alias_records aliases.now) }
    ensures most { result ≤ length aliases.now }
{
    let mut count = 0;
    for alias in aliases {
        if alias.is_none() {
            return count;
        }
        count += 1;
    }
    count
}
