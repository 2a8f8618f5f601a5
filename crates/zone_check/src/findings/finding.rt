//! A finding, and its text: the line, what is wrong, and what to write instead.

ghost use Rattle.std.specs.Prelude.{◌≡◌, ◌++◌, OnOk, map, option_copied, string_bytes};
ghost use Rattle.zone_check.specs.findings.Finding.{finding_text, indented, json_finding, line_part, line_shown, line_text, number_part, said_by, severity_name, text_finding, word_part, word_shown};

use crate::findings::format::ReportFormat;
use crate::findings::shown::{push_front, push_shown};
use std::alloc::{AllocError, Global};
use zone_lines::line_numbered;

/// How bad a finding is.
#[derive(Clone, Copy, Debug, PartialEq, Eq)]
pub enum Severity {
    /// The file is refused.
    Fault,
    /// The file is accepted.
    Warning,
}

impl Severity {
    /// Returns its name.
    fn name(self) -> &'static str
        ensures { result.now ≡ severity_name self }
    {
        match self {
            Severity::Fault => "fault",
            Severity::Warning => "warning",
        }
    }
}

/// The sentences of a finding.
#[derive(Clone, Copy)]
pub struct Advice {
    /// What is wrong.
    pub reason: &'static str,
    /// What to write instead.
    pub hint: &'static str,
}

/// What is to be said of a line.
#[derive(Clone, Copy)]
pub struct Finding<'a> {
    /// The text, as that of a `Position` of `zone_lines`.
    pub source: usize,
    /// The line, from 1, if there is one.
    pub line: Option<usize>,
    pub severity: Severity,
    /// The word at fault, or what a warning shows, if it is known.
    pub word: Option<&'a str>,
    pub advice: Advice,
}

impl Finding<'_> {
    /// Appends the finding to a report of a file with these lines.
    pub fn push_to(
        &self,
        alloc: Global,
        format: ReportFormat,
        report: &mut String,
        file: &str,
        lines: &[&str],
    ) -> Result<(), AllocError>
        ensures { OnOk result (string_bytes report.new ≡ string_bytes report.old
            ++ finding_text format file.now (map (λ line. line.now) lines.now)
            (said_by self.now)) }
    {
        match format {
            ReportFormat::Text => self.push_text(alloc, report, file, text_at(lines, self.line)),
            ReportFormat::Json => self.push_json(alloc, report, file),
        }
    }

    /// Appends the finding for people, with the text of its line.
    fn push_text(
        &self,
        alloc: Global,
        report: &mut String,
        file: &str,
        line: &str,
    ) -> Result<(), AllocError>
        ensures { OnOk result (string_bytes report.new ≡ string_bytes report.old
            ++ text_finding file.now line.now (said_by self.now)) }
    {
        push_shown(alloc, ReportFormat::Text, report, file)?;
        push_line_number(alloc, report, self.line)?;
        report.push_str(": ")?;
        report.push_str(self.severity.name())?;
        report.push_str(": ")?;
        report.push_str(self.advice.reason)?;
        push_word(alloc, ReportFormat::Text, report, self.severity, self.word)?;
        report.push_str("\n")?;
        push_line_text(alloc, report, line)?;
        push_indented(report, self.advice.hint)
    }

    /// Appends the finding as a JSON object on a line.
    fn push_json(&self, alloc: Global, report: &mut String, file: &str) -> Result<(), AllocError>
        ensures { OnOk result (string_bytes report.new ≡ string_bytes report.old
            ++ json_finding file.now (said_by self.now)) }
    {
        report.push_str("{\"file\":\"")?;
        push_shown(alloc, ReportFormat::Json, report, file)?;
        report.push_str("\",\"line\":")?;
        push_number(alloc, report, self.line)?;
        report.push_str(",\"kind\":\"")?;
        report.push_str(self.severity.name())?;
        report.push_str("\",\"message\":\"")?;
        push_shown(alloc, ReportFormat::Json, report, self.advice.reason)?;
        push_word(alloc, ReportFormat::Json, report, self.severity, self.word)?;
        report.push_str("\",\"hint\":\"")?;
        push_shown(alloc, ReportFormat::Json, report, self.advice.hint)?;
        report.push_str("\"}\n")
    }
}

/// Appends the number of a line after a colon, if there is one.
fn push_line_number(
    alloc: Global,
    report: &mut String,
    line: Option<usize>,
) -> Result<(), AllocError>
    ensures { OnOk result (string_bytes report.new ≡ string_bytes report.old ++ line_part line) }
{
    match line {
        Some(number) => report.push_str(format!(in alloc; ":{number}")?.as_str()),
        None => Ok(()),
    }
}

/// Appends the number of a line, or `null` if there is none.
fn push_number(alloc: Global, report: &mut String, line: Option<usize>) -> Result<(), AllocError>
    ensures { OnOk result (string_bytes report.new ≡ string_bytes report.old ++ number_part line) }
{
    match line {
        Some(number) => report.push_str(format!(in alloc; "{number}")?.as_str()),
        None => report.push_str("null"),
    }
}

/// Appends the word after a colon and in backquotes, if one is known.
fn push_word(
    alloc: Global,
    format: ReportFormat,
    report: &mut String,
    severity: Severity,
    word: Option<&str>,
) -> Result<(), AllocError>
    ensures { OnOk result (string_bytes report.new ≡ string_bytes report.old
        ++ word_part format severity (option_copied word.entry)) }
{
    match word {
        Some(word) => {
            report.push_str(": `")?;
            push_shown_word(alloc, format, report, severity, word)?;
            report.push_str("`")
        }
        None => Ok(()),
    }
}

/// Appends a word. Of one at fault there are at most 60 characters.
fn push_shown_word(
    alloc: Global,
    format: ReportFormat,
    report: &mut String,
    severity: Severity,
    word: &str,
) -> Result<(), AllocError>
    ensures { OnOk result (string_bytes report.new ≡ string_bytes report.old
        ++ word_shown format severity word.now) }
{
    match severity {
        Severity::Fault => push_front(alloc, format, report, word),
        Severity::Warning => push_shown(alloc, format, report, word),
    }
}

/// Returns the text of a line, or an empty one if there is none.
pub fn text_at<'a>(lines: &[&'a str], line: Option<usize>) -> &'a str
    ensures { result.now ≡ line_text (map (λ line. line.now) lines.now) line }
{
    match line {
        Some(number) => line_numbered(lines, number).unwrap_or(""),
        None => "",
    }
}

/// Appends the text of a line after four blanks, unless it is empty.
fn push_line_text(alloc: Global, report: &mut String, line: &str) -> Result<(), AllocError>
    ensures { OnOk result (string_bytes report.new ≡ string_bytes report.old
        ++ line_shown line.now) }
{
    if line.is_empty() {
        return Ok(());
    }
    report.push_str("    ")?;
    push_shown(alloc, ReportFormat::Text, report, line)?;
    report.push_str("\n")
}

/// Appends a sentence after four blanks, unless it is empty.
fn push_indented(report: &mut String, sentence: &str) -> Result<(), AllocError>
    ensures { OnOk result (string_bytes report.new ≡ string_bytes report.old
        ++ indented sentence.now) }
{
    if sentence.is_empty() {
        return Ok(());
    }
    report.push_str("    ")?;
    report.push_str(sentence)?;
    report.push_str("\n")
}
