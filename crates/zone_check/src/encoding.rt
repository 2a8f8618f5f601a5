//! A file that is not UTF-8.

ghost use Rattle.std.specs.Prelude.{◌≡◌, ◌==◌, ◌+◌, [], count_by, IfOk, IsOk, string_bytes};
ghost use Rattle.std.specs.Str.{IsUtf8};
ghost use Rattle.zone_check.specs.Encoding.{IsEncodingReport, encoding_said};
ghost use Rattle.zone_check.specs.findings.Finding.{finding_text};

use crate::fault::finding_on;
use crate::findings::{Advice, ReportFormat};
use std::alloc::{AllocError, Global};

/// Returns what is to be said of a file by its bytes: the line of the first byte that is not UTF-8, or nothing if there is
/// none, which takes no memory.
pub fn encoding_report(
    alloc: Global,
    format: ReportFormat,
    file: &str,
    bytes: &[u8],
) -> Result<String, AllocError>
    ensures report { IfOk result (λ report.
        IsEncodingReport format file.now bytes.now (string_bytes report)) }
    ensures decided { IsUtf8 bytes.now → IsOk result }
{
    match str::from_utf8(bytes) {
        Ok(_) => Ok(String::new(alloc)),
        Err(error) => invalid_report(alloc, format, file, &bytes[..error.valid_up_to()]),
    }
}

/// Returns what is to be said of a byte that is not UTF-8, after these.
fn invalid_report(
    alloc: Global,
    format: ReportFormat,
    file: &str,
    before: &[u8],
) -> Result<String, AllocError>
    ensures { IfOk result (λ report. string_bytes report
        ≡ finding_text format file.now [] (encoding_said before.now)) }
{
    let advice = Advice {
        reason: "a byte that is not UTF-8",
        hint: "save the file as UTF-8; it may be in Latin-1",
    };
    let finding = finding_on(0, Some(line_after(before)), None, advice);
    let mut report = String::new(alloc);
    finding.push_to(alloc, format, &mut report, file, &[])?;
    Ok(report)
}

/// Returns the line of the byte after these, from 1.
fn line_after(before: &[u8]) -> usize
    ensures { result ≡ count_by (λ b. b == 10) before.now + 1 }
{
    before.iter().filter(|byte| **byte == b'\n').count() + 1
}
