//! Answers, and what became of updates, as JSON (RFC 8259).

ghost use Rattle.std.specs.Prelude.{◌≡◌, Some, option_map};
ghost use Rattle.std.specs.Fmt.{DisplaysOnOk, WritesOnOk};
ghost use Rattle.lookup_cli.specs.answers.Json.{answer_error, code_or_null, json_answer, json_asked, json_end, json_found, json_sent, json_type, json_update, reply_code, update_error};

use crate::answers::answer::Answer;
use crate::answers::given_text::GivenText;
use crate::answers::item::{Item, Question};
use crate::answers::json_records::JsonRecords;
use crate::answers::plain::Reason;
use crate::answers::status::Status;
use dns_log::JsonDisplay;
use dns_messages::ResponseCode;
use dns_names::Name;
use dns_tsig::signer::TsigError;
use dns_zone_file::record_texts::OwnerText;
use std::fmt;
use stub_net::signed::UpdateError;

/// An answer, which `Display` writes as a JSON object on a line.
#[derive(Clone, Copy)]
pub struct JsonAnswer<'a>(pub &'a Answer);

/// What became of an update, which `Display` writes as a JSON object on a line.
#[derive(Clone, Copy)]
pub struct JsonUpdate<'a> {
    /// The words of the update.
    pub words: &'a str,
    /// The name of the zone.
    pub zone: &'a Name,
    /// The response code of the reply, or why there is none.
    pub outcome: &'a Result<ResponseCode, UpdateError>,
    /// The error of the signature of the update that a signed reply reports.
    pub report: Option<TsigError>,
    /// The number of requests that were sent to servers.
    pub questions: u64,
    /// How long it took, in milliseconds.
    pub milliseconds: u64,
}

/// The type of an item, which `Display` writes as a JSON string.
#[derive(Clone, Copy)]
struct JsonType<'a>(&'a Item);

/// A response code, or none, which `Display` writes as a JSON string or `null`.
#[derive(Clone, Copy)]
struct CodeOrNull(Option<ResponseCode>);

/// Why an answer has no records, which `Display` writes as a JSON string, or `null` if it has some.
#[derive(Clone, Copy)]
struct AnswerError<'a>(&'a Answer);

/// Why an update has no reply, or what its reply reports, which `Display` writes as a JSON string, or `null`.
#[derive(Clone, Copy)]
struct OutcomeError<'a> {
    outcome: &'a Result<ResponseCode, UpdateError>,
    report: Option<TsigError>,
}

impl fmt::Display for JsonAnswer<'_> {
    ghost output = { λ it. json_answer it.0.now };

    /// Writes the object, with a line break.
    fn fmt<W: fmt::Write>(&self, f: &mut fmt::Formatter<W>) -> fmt::Result {
        let answer = self.0;
        write_asked(answer, f)?;
        write_found(answer, f)?;
        write_end(
            &AnswerError(answer),
            answer.questions,
            answer.milliseconds,
            f,
        )
    }
}

/// Writes the start of the object of an answer: what was looked up, and what that led to.
fn write_asked<W: fmt::Write>(answer: &Answer, f: &mut fmt::Formatter<W>) -> fmt::Result
    ensures { WritesOnOk W.write_str_gives f.old result (json_asked answer.now) f.new }
{
    let name = GivenText(answer.item.name.as_str());
    let record_type = JsonType(&answer.item);
    let status = answer.status().word();
    write!(
        f,
        "{{\"name\":{name},\"type\":{record_type},\"status\":\"{status}\""
    )
}

/// Writes the response code and the records of an answer.
fn write_found<W: fmt::Write>(answer: &Answer, f: &mut fmt::Formatter<W>) -> fmt::Result
    ensures { WritesOnOk W.write_str_gives f.old result (json_found answer.now) f.new }
{
    let code = CodeOrNull(answer.code());
    let records = JsonRecords(answer.records());
    write!(f, ",\"code\":{code},\"records\":[{records}]")
}

impl fmt::Display for JsonUpdate<'_> {
    ghost output = { json_update };

    /// Writes the object, with a line break.
    fn fmt<W: fmt::Write>(&self, f: &mut fmt::Formatter<W>) -> fmt::Result {
        let error = OutcomeError {
            outcome: self.outcome,
            report: self.report,
        };
        write_sent(self, f)?;
        write_end(&error, self.questions, self.milliseconds, f)
    }
}

/// Writes the start of the object of an update: what was sent, and the response code of the reply.
fn write_sent<W: fmt::Write>(update: &JsonUpdate<'_>, f: &mut fmt::Formatter<W>) -> fmt::Result
    ensures { WritesOnOk W.write_str_gives f.old result (json_sent update.now) f.new }
{
    let words = GivenText(update.words);
    let zone = JsonDisplay(OwnerText { name: update.zone });
    let code = CodeOrNull(reply_code(update.outcome));
    write!(f, "{{\"update\":{words},\"zone\":{zone},\"code\":{code}")
}

/// Writes the end of an object, with a line break: an error, the number of requests, and how long they took.
fn write_end<D: fmt::Display, W: fmt::Write>(
    error: &D,
    questions: u64,
    milliseconds: u64,
    f: &mut fmt::Formatter<W>,
) -> fmt::Result
    ensures { DisplaysOnOk W.write_str_gives f.old result
        (option_map (json_end questions milliseconds) (D.output error.now)) f.new }
{
    writeln!(
        f,
        ",\"error\":{error},\"questions\":{questions},\"milliseconds\":{milliseconds}}}"
    )
}

/// Returns the response code of a reply, if there is one.
fn reply_code(outcome: &Result<ResponseCode, UpdateError>) -> Option<ResponseCode>
    ensures { result ≡ reply_code outcome.now }
{
    match outcome {
        Ok(code) => Some(*code),
        Err(_) => None,
    }
}

impl fmt::Display for JsonType<'_> {
    ghost output = { λ it. Some (json_type it.0.now) };

    fn fmt<W: fmt::Write>(&self, f: &mut fmt::Formatter<W>) -> fmt::Result {
        match self.0.question {
            Question::Unknown => {
                let given = GivenText(self.0.type_text.as_str());
                write!(f, "{given}")
            }
            question => {
                let record_type = JsonDisplay(question);
                write!(f, "{record_type}")
            }
        }
    }
}

impl fmt::Display for CodeOrNull {
    ghost output = { λ it. Some (code_or_null it.0) };

    fn fmt<W: fmt::Write>(&self, f: &mut fmt::Formatter<W>) -> fmt::Result {
        match self.0 {
            Some(code) => {
                let code = JsonDisplay(code);
                write!(f, "{code}")
            }
            None => f.write_str("null"),
        }
    }
}

impl fmt::Display for AnswerError<'_> {
    ghost output = { λ it. answer_error it.0.now };

    fn fmt<W: fmt::Write>(&self, f: &mut fmt::Formatter<W>) -> fmt::Result {
        match self.0.status() {
            Status::Found => f.write_str("null"),
            Status::Nothing | Status::Failed => {
                let reason = JsonDisplay(Reason(self.0));
                write!(f, "{reason}")
            }
        }
    }
}

impl fmt::Display for OutcomeError<'_> {
    ghost output = { λ it. update_error it.outcome.now it.report };

    fn fmt<W: fmt::Write>(&self, f: &mut fmt::Formatter<W>) -> fmt::Result {
        match (self.outcome, self.report) {
            (Ok(_), None) => f.write_str("null"),
            (Ok(_), Some(report)) => {
                let report = JsonDisplay(report);
                write!(f, "{report}")
            }
            (Err(error), _) => {
                let error = JsonDisplay(error);
                write!(f, "{error}")
            }
        }
    }
}
