//! Zones as zone files (RFC 1035 section 5.1).

ghost use Rattle.std.specs.Prelude.{◌≡◌, ◌++◌, ℕ, List, Some, IfOk, flat_map, string_bytes};
ghost use Rattle.std.specs.Fmt.{WritesOnOk};
ghost use Rattle.dns_zone_file.specs.Printed.{record_line};
ghost use Rattle.dns_zone.specs.Printed.{IsZoneText, owner_lines, set_lines, zone_text};

use crate::sets::{Sets, ZoneSets};
use crate::zone::Zone;
use dns_names::Name;
use dns_records::Record;
use std::alloc::AllocError;
use std::fmt;

impl Zone {
    /// Returns the zone as a zone file: one record a line, with its owner, TTL, class and type. The SOA record comes first, and
    /// every name is fully qualified. `from_text` parses it back, unless the zone has data of a type without fields, from an
    /// update or by `from_text_with`. Such data is printed as bytes (RFC 3597 section 5), which `from_text` does not parse.
    pub fn to_text(&self) -> Result<String, AllocError>
        ensures { IfOk result (λ text. IsZoneText self.now (string_bytes text)) }
    {
        let lines = ZoneLines {
            origin: &self.origin,
            sets: &self.sets,
        };
        format!(in self.alloc; "{lines}")
    }
}

/// Writes the text that [`Zone::to_text`] returns, without taking memory.
impl fmt::Display for Zone {
    fn fmt<W: fmt::Write>(&self, f: &mut fmt::Formatter<W>) -> fmt::Result
        ensures { (text : List ℕ) × IsZoneText self.now text
            × WritesOnOk W.write_str_gives f.old result text f.new }
    {
        let lines = ZoneLines {
            origin: &self.origin,
            sets: &self.sets,
        };
        lines.fmt(f)
    }
}

/// Records of one owner as lines of a zone file, as [`Zone::to_text`] has them. No memory is taken.
#[derive(Clone, Copy)]
pub struct RecordLines<'a> {
    /// The owner.
    pub owner: &'a Name,
    /// The records.
    pub records: &'a [Record],
}

impl fmt::Display for RecordLines<'_> {
    ghost output = { λ lines. Some (owner_lines lines.owner.now lines.records.now) };

    fn fmt<W: fmt::Write>(&self, f: &mut fmt::Formatter<W>) -> fmt::Result {
        write_records(self.owner, self.records, f)
    }
}

/// The record sets of a zone, of which the first is the SOA.
#[derive(Clone, Copy)]
struct ZoneLines<'a> {
    origin: &'a Name,
    sets: &'a ZoneSets,
}

impl fmt::Display for ZoneLines<'_> {
    ghost output = { λ lines. Some (zone_text lines.origin.now lines.sets.now) };

    fn fmt<W: fmt::Write>(&self, f: &mut fmt::Formatter<W>) -> fmt::Result {
        let mut sets = self.sets.iter();
        let Some(start) = sets.next() else {
            return Ok(());
        };
        write_records(self.origin, start.as_slice(), f)?;
        write_sets(sets, f)
    }
}

/// Writes the records of sets, each on a line.
fn write_sets<W: fmt::Write>(sets: Sets<'_>, f: &mut fmt::Formatter<W>) -> fmt::Result
    ensures { WritesOnOk W.write_str_gives f.old result (flat_map set_lines sets.entry) f.new }
{
    let mut sets = sets;
    while let Some(set) = sets.next() {
        write_records(set.name(), set.as_slice(), f)?;
    }
    Ok(())
}

/// Writes records with an owner, each on a line.
fn write_records<W: fmt::Write>(
    owner: &Name,
    records: &[Record],
    f: &mut fmt::Formatter<W>,
) -> fmt::Result
    ensures { WritesOnOk W.write_str_gives f.old result (owner_lines owner.now records.now) f.new }
{
    for present in records {
        write_record(owner, present, f)?;
    }
    Ok(())
}

/// Writes a record with an owner as a line.
fn write_record<W: fmt::Write>(
    owner: &Name,
    present: &Record,
    f: &mut fmt::Formatter<W>,
) -> fmt::Result
    ensures { WritesOnOk W.write_str_gives f.old result
        (record_line owner.now present.now.ttl present.now.rdata) f.new }
{
    let ttl = present.ttl;
    let record_type = present.record_type();
    let rdata = &present.rdata;
    writeln!(f, "{owner} {ttl} IN {record_type} {rdata}")
}
