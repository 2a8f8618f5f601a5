//! The line about a zone file of which there is nothing to say.

ghost use Rattle.std.specs.Prelude.{◌≡◌, ◌++◌, IfOk, OnOk, string_bytes};
ghost use Rattle.zone_check.specs.Summary.{count_records, counts_part, is_record, serial_of, summary_line, zone_part, zone_summary};

use crate::apex::first_start;
use crate::check::ZoneCheck;
use crate::findings::{ReportFormat, push_shown};
use dns_data::RData;
use dns_names::Name;
use std::alloc::{AllocError, Global};
use zone_lines::{EntryLine, RecordLine};

/// Returns a line with the name of the zone, the number of its records and its serial number, or nothing if the file has a
/// fault or a warning.
pub fn zone_summary(alloc: Global, file: &str, check: &ZoneCheck) -> Result<String, AllocError>
    ensures { IfOk result (λ line. string_bytes line ≡ zone_summary file.now check.now) }
{
    let mut line = String::new(alloc);
    if let (Ok(zone), Some(start)) = (&check.outcome, first_start(check.entries.as_slice()))
        && check.warnings.is_empty()
    {
        let count = count_records(check.entries.as_slice());
        push_summary(alloc, &mut line, file, zone.origin(), count, start)?;
    }
    Ok(line)
}

/// Appends the line.
fn push_summary(
    alloc: Global,
    line: &mut String,
    file: &str,
    origin: &Name,
    count: usize,
    start: &RecordLine,
) -> Result<(), AllocError>
    ensures { OnOk result (string_bytes line.new ≡ string_bytes line.old
        ++ summary_line file.now origin.now count start.now) }
{
    push_shown(alloc, ReportFormat::Text, line, file)?;
    push_zone(line, origin)?;
    push_counts(alloc, line, count, serial_of(&start.rdata))
}

/// Appends the name of the zone.
fn push_zone(line: &mut String, origin: &Name) -> Result<(), AllocError>
    ensures { OnOk result (string_bytes line.new ≡ string_bytes line.old ++ zone_part origin.now) }
{
    let name = origin.to_ascii()?;
    line.push_str(": zone ")?;
    line.push_str(name.as_str())
}

/// Appends the number of its records and its serial number.
fn push_counts(
    alloc: Global,
    line: &mut String,
    count: usize,
    serial: u32,
) -> Result<(), AllocError>
    ensures { OnOk result (string_bytes line.new ≡ string_bytes line.old
        ++ counts_part count serial) }
{
    line.push_str(format!(in alloc; ", {count} records, serial {serial}\n")?.as_str())
}

/// Returns the serial number of SOA data.
fn serial_of(rdata: &RData) -> u32
    ensures { result ≡ serial_of rdata.now }
{
    match rdata {
        RData::SOA(soa) => soa.serial,
        _ => 0,
    }
}

/// Returns the number of records among entries.
fn count_records(entries: &[EntryLine]) -> usize
    ensures { result ≡ count_records entries.now }
{
    entries.iter().filter(|entry| is_record(entry)).count()
}

/// Returns `true` if an entry is a record.
#[tactic(auto, unfolding(crate::specs::Summary::is_record))]
fn is_record(entry: &EntryLine) -> bool
    ensures { result ≡ is_record entry.now }
{
    matches!(entry, EntryLine::Record(_))
}
