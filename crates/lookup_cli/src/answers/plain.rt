//! Answers as lines of text.

ghost use Rattle.std.specs.Prelude.{Some, flat_map};
ghost use Rattle.std.specs.Fmt.{WritesOnOk};
ghost use Rattle.lookup_cli.specs.answers.Plain.{answer_reason, heading, nothing_text, plain_text, reason_text, record_line};

use crate::answers::answer::Answer;
use crate::answers::item::{Item, Question};
use crate::answers::status::Status;
use dns_records::Record;
use dns_zone_file::Types;
use dns_zone_file::record_texts::RecordText;
use std::fmt;
use stub_lookup::{Lookup, NetError};

/// An answer, which `Display` writes as a line for each record that was found, after a line that says what was looked up if it is
/// one of several.
#[derive(Clone, Copy)]
pub struct PlainAnswer<'a> {
    /// The answer.
    pub answer: &'a Answer,
    /// Whether it is one of several.
    pub has_heading: bool,
}

/// Why nothing was found, which `Display` writes as a line.
#[derive(Clone, Copy)]
pub struct PlainReason<'a>(pub &'a Answer);

/// Why an answer has no records, which `Display` writes.
#[derive(Clone, Copy)]
pub(crate) struct Reason<'a>(pub(crate) &'a Answer);

impl fmt::Display for PlainAnswer<'_> {
    ghost output = { λ it. Some (plain_text it.has_heading it.answer.now) };

    fn fmt<W: fmt::Write>(&self, f: &mut fmt::Formatter<W>) -> fmt::Result {
        write_heading(self.has_heading, &self.answer.item, f)?;
        write_records(self.answer.records(), f)
    }
}

/// Writes what was looked up as a line, if an answer is one of several.
fn write_heading<W: fmt::Write>(
    has_heading: bool,
    item: &Item,
    f: &mut fmt::Formatter<W>,
) -> fmt::Result
    ensures { WritesOnOk W.write_str_gives f.old result (heading has_heading item.now) f.new }
{
    if has_heading {
        writeln!(f, "; {item}")
    } else {
        Ok(())
    }
}

/// Writes records, each on a line of its own.
fn write_records<W: fmt::Write>(records: &[Record], f: &mut fmt::Formatter<W>) -> fmt::Result
    ensures { WritesOnOk W.write_str_gives f.old result (flat_map record_line records.now) f.new }
{
    for record in records {
        let line = RecordText {
            types: Types::All,
            record,
        };
        writeln!(f, "{line}")?;
    }
    Ok(())
}

impl fmt::Display for PlainReason<'_> {
    ghost output = { λ it. answer_reason it.0.now };

    fn fmt<W: fmt::Write>(&self, f: &mut fmt::Formatter<W>) -> fmt::Result {
        let item = &self.0.item;
        let reason = Reason(self.0);
        writeln!(f, "{item}: {reason}")
    }
}

impl fmt::Display for Reason<'_> {
    ghost output = { λ reason. reason_text reason.0.now };

    fn fmt<W: fmt::Write>(&self, f: &mut fmt::Formatter<W>) -> fmt::Result {
        let answer = self.0;
        match (answer.item.question, answer.status()) {
            (Question::Unknown, _) => f.write_str("no such type"),
            (_, Status::Failed) => write_failure(&answer.outcome, f),
            (_, Status::Found | Status::Nothing) => write_nothing(answer.has_no_name(), f),
        }
    }
}

/// Writes why a lookup without an error found nothing, by whether its name does not exist.
fn write_nothing<W: fmt::Write>(is_denied: bool, f: &mut fmt::Formatter<W>) -> fmt::Result
    ensures { WritesOnOk W.write_str_gives f.old result (nothing_text is_denied) f.new }
{
    if is_denied {
        f.write_str("no such name")
    } else {
        f.write_str("no records of the type")
    }
}

/// Writes why a lookup failed, if it did.
fn write_failure<W: fmt::Write>(
    outcome: &Result<Lookup, NetError>,
    f: &mut fmt::Formatter<W>,
) -> fmt::Result {
    match outcome {
        Ok(_) => Ok(()),
        Err(error) => write_error(error, f),
    }
}

/// Writes why a lookup failed.
fn write_error<W: fmt::Write>(error: &NetError, f: &mut fmt::Formatter<W>) -> fmt::Result {
    match error {
        NetError::Proto(error) => write!(f, "not a domain name: {error}"),
        NetError::Link(_) => write!(f, "no server answered: {error}"),
        error => write!(f, "{error}"),
    }
}
