//! The text of the check of a script.

ghost use Rattle.std.specs.Prelude.{◌≡◌, IfOk, IfSome, option_copied, string_bytes};
ghost use Rattle.std.specs.Str.Lines.{lines};
ghost use Rattle.zone_check.specs.ScriptLine.{IsWordOf};
ghost use Rattle.zone_check.specs.ScriptText.{IsLineReport, is_mark_reason, is_marked, moment_said};
ghost use Rattle.zone_check.specs.findings.Finding.{finding_text};

use crate::fault::finding_on;
use crate::findings::{Advice, ReportFormat, text_at};
use crate::mark::{begins_with_mark, mark_text};
use crate::script_line::{Mistake, mistake_in};
use std::alloc::{AllocError, Global};
use zone_lines::lines_of;

/// Returns what is to be said of a line of a script that cannot be read.
pub fn script_report(
    alloc: Global,
    format: ReportFormat,
    file: &str,
    text: &str,
    line: usize,
) -> Result<String, AllocError>
    ensures { IfOk result (λ report.
        IsLineReport format file.now text.now line (string_bytes report)) }
{
    let lines = lines_of(alloc, text)?;
    let mistake = mistake_on(alloc, text_at(lines.as_slice(), Some(line)), line)?;
    let mut report = String::new(alloc);
    let finding = finding_on(0, Some(line), mistake.word, mistake.advice);
    finding.push_to(alloc, format, &mut report, file, lines.as_slice())?;
    Ok(report)
}

/// Returns what is wrong in a line that cannot be read, and perhaps is the first.
fn mistake_on(alloc: Global, text: &str, line: usize) -> Result<Mistake<'_>, AllocError>
    ensures word { IfOk result (λ mistake.
        IfSome mistake.word (λ word. IsWordOf text.now word.now)) }
    ensures mark { IfOk result (λ mistake.
        is_mark_reason mistake.advice.reason.now ≡ is_marked line text.now) }
{
    if line == 1 && begins_with_mark(text) {
        return Ok(Mistake {
            word: None,
            advice: mark_text(),
        });
    }
    mistake_in(alloc, text)
}

/// Returns what is to be said of a line of a script whose moment is before that of an event above it, or too great.
pub fn moment_report(
    alloc: Global,
    format: ReportFormat,
    file: &str,
    text: &str,
    line: usize,
) -> Result<String, AllocError>
    ensures { IfOk result (λ report. string_bytes report
        ≡ finding_text format file.now (lines text.now) (moment_said line)) }
{
    let lines = lines_of(alloc, text)?;
    let mut report = String::new(alloc);
    let advice = Advice {
        reason: "a moment before that of an event above, or after 2^62",
        hint: "write events in the order of their moments, and none after 2^62",
    };
    let finding = finding_on(0, Some(line), None, advice);
    finding.push_to(alloc, format, &mut report, file, lines.as_slice())?;
    Ok(report)
}
