//! Records as JSON.

ghost use Rattle.std.specs.Prelude.{Some, flat_map};
ghost use Rattle.std.specs.Fmt.{WritesOnOk};
ghost use Rattle.lookup_cli.specs.answers.JsonRecords.{json_data, json_owner, json_record, json_records, other_record};

use dns_log::JsonDisplay;
use dns_records::Record;
use dns_zone_file::Types;
use dns_zone_file::record_texts::{OwnerText, RDataText, TypeText};
use std::fmt;

/// Records, which `Display` writes as the elements of a JSON array (RFC 8259 section 5).
#[derive(Clone, Copy)]
pub(crate) struct JsonRecords<'a>(pub(crate) &'a [Record]);

impl fmt::Display for JsonRecords<'_> {
    ghost output = { λ it. Some (json_records it.0.now) };

    fn fmt<W: fmt::Write>(&self, f: &mut fmt::Formatter<W>) -> fmt::Result {
        let [first, others @ ..] = self.0 else {
            return Ok(());
        };
        write_record(first, f)?;
        write_others(others, f)
    }
}

/// Writes records, a comma before each.
fn write_others<W: fmt::Write>(records: &[Record], f: &mut fmt::Formatter<W>) -> fmt::Result
    ensures { WritesOnOk W.write_str_gives f.old result (flat_map other_record records.now) f.new }
{
    for found in records {
        write_other(found, f)?;
    }
    Ok(())
}

/// Writes a record after a comma.
fn write_other<W: fmt::Write>(found: &Record, f: &mut fmt::Formatter<W>) -> fmt::Result
    ensures { WritesOnOk W.write_str_gives f.old result (other_record found.now) f.new }
{
    f.write_char(',')?;
    write_record(found, f)
}

/// Writes a record as an object.
fn write_record<W: fmt::Write>(found: &Record, f: &mut fmt::Formatter<W>) -> fmt::Result
    ensures { WritesOnOk W.write_str_gives f.old result (json_record found.now) f.new }
{
    write_owner(found, f)?;
    write_data(found, f)
}

/// Writes the owner of a record, its TTL and its class.
fn write_owner<W: fmt::Write>(found: &Record, f: &mut fmt::Formatter<W>) -> fmt::Result
    ensures { WritesOnOk W.write_str_gives f.old result (json_owner found.now) f.new }
{
    let name = JsonDisplay(OwnerText { name: &found.name });
    let ttl = found.ttl;
    write!(f, "{{\"name\":{name},\"ttl\":{ttl},\"class\":\"IN\"")
}

/// Writes the type of a record, its data, and the end of its object.
fn write_data<W: fmt::Write>(found: &Record, f: &mut fmt::Formatter<W>) -> fmt::Result
    ensures { WritesOnOk W.write_str_gives f.old result (json_data found.now) f.new }
{
    let record_type = JsonDisplay(TypeText {
        types: Types::All,
        record_type: found.rdata.record_type(),
    });
    let rdata = JsonDisplay(RDataText {
        types: Types::All,
        rdata: &found.rdata,
    });
    write!(f, ",\"type\":{record_type},\"data\":{rdata}}}")
}
