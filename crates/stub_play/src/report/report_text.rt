//! The text of the report of an event.

ghost use Rattle.std.specs.Prelude.{◌≡◌, ◌∷◌, ◌++◌, [], Some, OnOk, codes, flat_map};
ghost use Rattle.std.specs.Io.KnownBytes.{Appends};
ghost use Rattle.stub_play.specs.report.ReportText.{answers_text, event_text, plain_text, reason_text, record_text, reply_text};

use crate::report::shown::ShownReason;
use dns_messages::Record;
use dns_zone_file::Types;
use dns_zone_file::record_texts::{OwnerText, RDataText, TypeText};
use std::io;
use stub_lookup::NetError;
use stub_run::{Action, Event, EventReply};

/// Writes what happened, and the reply to it.
pub(crate) fn write_text<W: io::Write>(
    event: &Event,
    reply: &EventReply,
    types: Types,
    writer: &mut W,
) -> io::Result<()>
    ensures { OnOk result (Appends (W.contents writer.old) (W.contents writer.new)
        (plain_text types event.now reply.now)) }
{
    write_event(event, types, writer)?;
    write_reply(reply, types, writer)
}

/// Writes what happened, as `0 lookup a.t. A`.
pub fn write_event<W: io::Write>(event: &Event, types: Types, writer: &mut W) -> io::Result<()>
    ensures { OnOk result (Appends (W.contents writer.old) (W.contents writer.new)
        (event_text types event.now)) }
{
    let at = event.at;
    match &event.action {
        Action::Lookup { name, rtype } => {
            let rtype = TypeText {
                types,
                record_type: *rtype,
            };
            write!(writer, "{at} lookup {name} {rtype}")
        }
        Action::LookupIp { host } => write!(writer, "{at} ip {host}"),
        Action::Clear { name, rtype } => {
            let rtype = TypeText {
                types,
                record_type: *rtype,
            };
            write!(writer, "{at} clear {name} {rtype}")
        }
        Action::ClearAll => write!(writer, "{at} clearall"),
        Action::Update(_) => write!(writer, "{at} update"),
    }
}

/// Writes the reply to an event after the event: the records, the code of an update, or why there is neither.
fn write_reply<W: io::Write>(reply: &EventReply, types: Types, writer: &mut W) -> io::Result<()>
    ensures { OnOk result (Appends (W.contents writer.old) (W.contents writer.new)
        (reply_text types reply.now)) }
{
    match reply {
        EventReply::Lookup(Ok(lookup)) => write_answers(lookup.answers(), types, writer),
        EventReply::Lookup(Err(error)) => write_error(error, writer),
        EventReply::LookupIp(Ok(addresses)) => {
            write_answers(addresses.as_lookup().answers(), types, writer)
        }
        EventReply::LookupIp(Err(error)) => write_error(error, writer),
        EventReply::Cleared(Ok(())) => writeln!(writer),
        EventReply::Cleared(Err(error)) => write_error(error, writer),
        EventReply::Update(Ok(code)) => writeln!(writer, ": {code}"),
        EventReply::Update(Err(error)) => write_error(error, writer),
    }
}

/// Writes how many records there are, and each on a line of its own.
fn write_answers<W: io::Write>(answers: &[Record], types: Types, writer: &mut W) -> io::Result<()>
    ensures { OnOk result (Appends (W.contents writer.old) (W.contents writer.new)
        (codes ": " ++ answers_text types answers.now)) }
{
    let count = answers.len();
    writeln!(writer, ": {count} records")?;
    write_records(answers, types, writer)
}

/// Writes each record on a line of its own.
fn write_records<W: io::Write>(records: &[Record], types: Types, writer: &mut W) -> io::Result<()>
    ensures { OnOk result (Appends (W.contents writer.old) (W.contents writer.new)
        (flat_map (record_text types) records.now)) }
{
    for record in records {
        write_record(record, types, writer)?;
    }
    Ok(())
}

/// Writes a record, as `  a.t. 60 IN A 10.0.0.1`.
fn write_record<W: io::Write>(found: &Record, types: Types, writer: &mut W) -> io::Result<()>
    ensures { OnOk result (Appends (W.contents writer.old) (W.contents writer.new)
        (record_text types found.now)) }
{
    let owner = OwnerText { name: &found.name };
    let ttl = found.ttl;
    let rtype = TypeText {
        types,
        record_type: found.rdata.record_type(),
    };
    let rdata = RDataText {
        types,
        rdata: &found.rdata,
    };
    writeln!(writer, "  {owner} {ttl} IN {rtype} {rdata}")
}

/// Writes why there are no records.
fn write_error<W: io::Write>(error: &NetError, writer: &mut W) -> io::Result<()>
    ensures { OnOk result (Appends (W.contents writer.old) (W.contents writer.new)
        (codes ": " ++ (reason_text error.now ++ 10 ∷ []))) }
{
    let reason = ShownReason { error };
    writeln!(writer, ": {reason}")
}
