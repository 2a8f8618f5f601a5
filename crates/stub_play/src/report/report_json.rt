//! The report of an event as a JSON object on a line (RFC 8259).

ghost use Rattle.std.specs.Prelude.{◌≡◌, ◌++◌, Some, OnOk, codes, flat_map};
ghost use Rattle.std.specs.Io.KnownBytes.{Appends};
ghost use Rattle.stub_play.specs.report.ReportJson.{json_array, json_counts, json_data, json_event, json_found, json_line, json_owner, json_record, json_records, json_reply, other_record};

use crate::report::json_members::{
    EventHost, EventName, EventType, EventWord, ReplyCode, ReplyError,
};
use dns_log::JsonDisplay;
use dns_messages::Record;
use dns_zone_file::Types;
use dns_zone_file::record_texts::{OwnerText, RDataText, TypeText};
use std::io;
use stub_run::{Event, EventReply, EventReport};

/// Writes the report of an event as an object on a line.
pub(crate) fn write_json<W: io::Write>(
    event: &Event,
    told: &EventReport,
    types: Types,
    writer: &mut W,
) -> io::Result<()>
    ensures { OnOk result (Appends (W.contents writer.old) (W.contents writer.new)
        (json_line types event.now told.now)) }
{
    write_event(event, types, writer)?;
    write_told(told, types, writer)
}

/// Writes what happened: its moment, its keyword, and what it is about.
fn write_event<W: io::Write>(event: &Event, types: Types, writer: &mut W) -> io::Result<()>
    ensures { OnOk result (Appends (W.contents writer.old) (W.contents writer.new)
        (json_event types event.now)) }
{
    let at = event.at;
    let action = &event.action;
    let word = EventWord { action };
    let name = EventName { action };
    let rtype = EventType { action, types };
    let host = EventHost { action };
    write!(
        writer,
        "{{\"moment\":{at},\"event\":\"{word}\",\"name\":{name},\"type\":{rtype},\"host\":{host}"
    )
}

/// Writes what an event led to, and the end of the line.
fn write_told<W: io::Write>(told: &EventReport, types: Types, writer: &mut W) -> io::Result<()>
    ensures { OnOk result (Appends (W.contents writer.old) (W.contents writer.new)
        (json_reply types told.now.reply ++ json_counts told.now)) }
{
    write_reply(&told.reply, types, writer)?;
    write_counts(told, writer)
}

/// Writes the code of a reply, why it has no records, and its records.
fn write_reply<W: io::Write>(reply: &EventReply, types: Types, writer: &mut W) -> io::Result<()>
    ensures { OnOk result (Appends (W.contents writer.old) (W.contents writer.new)
        (json_reply types reply.now)) }
{
    let code = ReplyCode { reply };
    let error = ReplyError { reply };
    write!(writer, ",\"code\":{code},\"error\":{error},\"records\":")?;
    write_found(reply, types, writer)
}

/// Writes the records of a reply, or `null` if it has none.
fn write_found<W: io::Write>(reply: &EventReply, types: Types, writer: &mut W) -> io::Result<()>
    ensures { OnOk result (Appends (W.contents writer.old) (W.contents writer.new)
        (json_found types reply.now)) }
{
    match reply {
        EventReply::Lookup(Ok(lookup)) => write_array(lookup.answers(), types, writer),
        EventReply::LookupIp(Ok(addresses)) => {
            write_array(addresses.as_lookup().answers(), types, writer)
        }
        EventReply::Lookup(Err(_))
        | EventReply::LookupIp(Err(_))
        | EventReply::Cleared(_)
        | EventReply::Update(_) => write!(writer, "null"),
    }
}

/// Writes records as an array.
fn write_array<W: io::Write>(records: &[Record], types: Types, writer: &mut W) -> io::Result<()>
    ensures { OnOk result (Appends (W.contents writer.old) (W.contents writer.new)
        (json_array types records.now)) }
{
    write!(writer, "[")?;
    write_closed(records, types, writer)
}

/// Writes records, and the end of their array.
fn write_closed<W: io::Write>(records: &[Record], types: Types, writer: &mut W) -> io::Result<()>
    ensures { OnOk result (Appends (W.contents writer.old) (W.contents writer.new)
        (json_records types records.now ++ codes "]")) }
{
    write_records(records, types, writer)?;
    write!(writer, "]")
}

/// Writes records, with commas between them.
fn write_records<W: io::Write>(records: &[Record], types: Types, writer: &mut W) -> io::Result<()>
    ensures { OnOk result (Appends (W.contents writer.old) (W.contents writer.new)
        (json_records types records.now)) }
{
    let [first, others @ ..] = records else {
        return Ok(());
    };
    write_record(first, types, writer)?;
    write_others(others, types, writer)
}

/// Writes records, a comma before each.
fn write_others<W: io::Write>(records: &[Record], types: Types, writer: &mut W) -> io::Result<()>
    ensures { OnOk result (Appends (W.contents writer.old) (W.contents writer.new)
        (flat_map (other_record types) records.now)) }
{
    for record in records {
        write_other(record, types, writer)?;
    }
    Ok(())
}

/// Writes a record after a comma.
fn write_other<W: io::Write>(found: &Record, types: Types, writer: &mut W) -> io::Result<()>
    ensures { OnOk result (Appends (W.contents writer.old) (W.contents writer.new)
        (other_record types found.now)) }
{
    write!(writer, ",")?;
    write_record(found, types, writer)
}

/// Writes a record as an object.
fn write_record<W: io::Write>(found: &Record, types: Types, writer: &mut W) -> io::Result<()>
    ensures { OnOk result (Appends (W.contents writer.old) (W.contents writer.new)
        (json_record types found.now)) }
{
    write_owner(found, writer)?;
    write_data(found, types, writer)
}

/// Writes the owner of a record, its TTL and its class.
fn write_owner<W: io::Write>(found: &Record, writer: &mut W) -> io::Result<()>
    ensures { OnOk result (Appends (W.contents writer.old) (W.contents writer.new)
        (json_owner found.now)) }
{
    let name = JsonDisplay(OwnerText { name: &found.name });
    let ttl = found.ttl;
    write!(writer, "{{\"name\":{name},\"ttl\":{ttl},\"class\":\"IN\"")
}

/// Writes the type of a record, its data, and the end of its object.
fn write_data<W: io::Write>(found: &Record, types: Types, writer: &mut W) -> io::Result<()>
    ensures { OnOk result (Appends (W.contents writer.old) (W.contents writer.new)
        (json_data types found.now)) }
{
    let rtype = JsonDisplay(TypeText {
        types,
        record_type: found.rdata.record_type(),
    });
    let rdata = JsonDisplay(RDataText {
        types,
        rdata: &found.rdata,
    });
    write!(writer, ",\"type\":{rtype},\"data\":{rdata}}}")
}

/// Writes how many questions were sent, how many ended in a fault, and the end of the line.
fn write_counts<W: io::Write>(told: &EventReport, writer: &mut W) -> io::Result<()>
    ensures { OnOk result (Appends (W.contents writer.old) (W.contents writer.new)
        (json_counts told.now)) }
{
    let questions = told.questions;
    let faults = told.faults;
    writeln!(writer, ",\"questions\":{questions},\"faults\":{faults}}}")
}
