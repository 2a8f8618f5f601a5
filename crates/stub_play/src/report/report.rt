//! The text of a report, in either format.

ghost use Rattle.std.specs.Prelude.{◌≡◌, OnOk};
ghost use Rattle.std.specs.Io.KnownBytes.{Appends};
ghost use Rattle.stub_play.specs.report.Report.{report_text, told_text};

use crate::report::report_json::write_json;
use crate::report::report_text::write_text;
use dns_zone_file::Types;
use std::io;
use stub_run::{Event, EventReport, Report};

/// How a report is written.
#[derive(Clone, Copy, Debug, PartialEq, Eq)]
pub enum PlayFormat {
    /// For people: what happened on a line, and each record found on one below it.
    Text,
    /// For programs: one JSON object on a line for each event (RFC 8259).
    Json,
}

/// Writes the reply to each event, event by event, as far as there are both events and reports. Among all types, types are
/// written by their names in the registry, and data by the format of its type; else types that have no name in `RecordType`
/// are written by their numbers, and their data in the generic form (RFC 3597 section 5).
pub fn write_report<W: io::Write>(
    events: &[Event],
    report: &Report,
    types: Types,
    format: PlayFormat,
    writer: &mut W,
) -> io::Result<()>
    ensures { OnOk result (Appends (W.contents writer.old) (W.contents writer.new)
        (report_text types format events.now report.now.events.items)) }
{
    for (event, told) in events.iter().zip(report.events.iter()) {
        write_told(event, told, types, format, writer)?;
    }
    Ok(())
}

/// Writes an event, and the reply to it.
pub fn write_told<W: io::Write>(
    event: &Event,
    told: &EventReport,
    types: Types,
    format: PlayFormat,
    writer: &mut W,
) -> io::Result<()>
    ensures { OnOk result (Appends (W.contents writer.old) (W.contents writer.new)
        (told_text types format event.now told.now)) }
{
    match format {
        PlayFormat::Text => write_text(event, &told.reply, types, writer),
        PlayFormat::Json => write_json(event, told, types, writer),
    }
}
