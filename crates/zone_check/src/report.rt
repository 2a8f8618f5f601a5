//! The text of the check of a zone file.

ghost use Rattle.std.specs.Prelude.{◌≡◌, ◌↔◌, ◌++◌, [], IfOk, IsOk, OnOk, map, option_copied, option_map, string_bytes};
ghost use Rattle.zone_check.specs.Fault.{start_view};
ghost use Rattle.zone_check.specs.Files.{files_view, names_view, report_text};
ghost use Rattle.zone_check.specs.Report.{doubled_apex, entries_said, entry_warned, file_said, lengths_part, lengths_text, marks_said, outcome_said, parts_said, said_of_warning, said_of_warnings, shown_lengths, shown_name, shown_word, warnings_said, whole_said, word_said, zone_report};
ghost use Rattle.zone_check.specs.findings.Finding.{said_by};
ghost use Rattle.zone_lines.specs.Source.{text_view};

use crate::apex::some_starts;
use crate::check::ZoneCheck;
use crate::fault::{ZoneStart, entry_finding, finding_on, zone_start};
use crate::files::Files;
use crate::findings::{Finding, ReportFormat, Severity, fault_advice, warning_advice};
use crate::mark::mark_text;
use dns_names::Name;
use dns_zone::ZoneFault;
use std::alloc::{AllocError, Global};
use zone_lines::warnings::{
    DigestLengths, Warning, WarningKind, doubled_origin, name_below, wrong_digest,
};
use zone_lines::{EntryLine, ZoneText, lines_of_file};

/// Returns what is to be said of a zone file, each fault and then each warning, in the order of its lines. It is empty if there
/// is nothing to say. The names are those of the file, and of the files of the texts to include.
pub fn zone_report(
    alloc: Global,
    format: ReportFormat,
    names: &[&str],
    file: &ZoneText<'_>,
    check: &ZoneCheck,
) -> Result<String, AllocError>
    ensures report { IfOk result (λ report. string_bytes report
        ≡ zone_report format (names_view names.now) (text_view file.entry.now) check.now) }
    ensures empty { IfOk result (λ report. string_bytes report ≡ []
        ↔ (IsOk check.now.outcome × (warnings_said (text_view file.entry.now) check.now ≡ []))) }
{
    let texts = lines_of_file(alloc, file)?;
    let files = Files {
        names,
        texts: texts.as_slice(),
    };
    let start = zone_start(file, check.origin.as_ref(), check.entries.as_slice());
    let faults = faults(alloc, &start, check)?;
    let mut report = String::new(alloc);
    push_findings(alloc, format, &mut report, files, faults.as_slice())?;
    push_warnings(alloc, format, &mut report, files, &start, check)?;
    Ok(report)
}

/// Appends what is said of findings to a report of a file with these lines.
fn push_findings(
    alloc: Global,
    format: ReportFormat,
    report: &mut String,
    files: Files<'_, '_, '_>,
    findings: &[Finding<'_>],
) -> Result<(), AllocError>
    ensures { OnOk result (string_bytes report.new ≡ string_bytes report.old
        ++ report_text format (files_view files.entry)
        (map said_by findings.now)) }
{
    for finding in findings {
        files.push(alloc, format, report, finding)?;
    }
    Ok(())
}

/// Returns the faults of a check: none of a zone, and at least one of a text that has none.
fn faults<'a>(
    alloc: Global,
    start: &ZoneStart<'_>,
    check: &'a ZoneCheck,
) -> Result<Vec<Finding<'a>>, AllocError>
    ensures { IfOk result (λ found. map said_by found.items
        ≡ outcome_said (start_view start.entry.now) check.now.entries.items check.now.outcome) }
{
    match &check.outcome {
        Ok(_) => Ok(Vec::new(alloc)),
        Err(fault) => {
            let found = faults_of_parts(alloc, start, check.entries.as_slice())?;
            with_whole(start, found, fault, check.entries.as_slice())
        }
    }
}

/// Returns the fault of a byte-order mark, if there is one, and then those of entries.
fn faults_of_parts<'a>(
    alloc: Global,
    start: &ZoneStart<'_>,
    entries: &'a [EntryLine],
) -> Result<Vec<Finding<'a>>, AllocError>
    ensures { IfOk result (λ found.
        map said_by found.items ≡ parts_said (start_view start.entry.now) entries.now) }
{
    let mut found = mark_faults(alloc, start.has_mark)?;
    let mut others = entry_faults(alloc, start, entries)?;
    found.append(&mut others)?;
    Ok(found)
}

/// Returns the fault of a byte-order mark, if there is one.
fn mark_faults<'a>(alloc: Global, has_mark: bool) -> Result<Vec<Finding<'a>>, AllocError>
    ensures { IfOk result (λ found. map said_by found.items ≡ marks_said has_mark) }
{
    let mut found = Vec::new(alloc);
    if has_mark {
        found.push(finding_on(0, Some(1), None, mark_text()))?;
    }
    Ok(found)
}

/// Returns the faults of entries.
fn entry_faults<'a>(
    alloc: Global,
    start: &ZoneStart<'_>,
    entries: &'a [EntryLine],
) -> Result<Vec<Finding<'a>>, AllocError>
    ensures { IfOk result (λ found.
        map said_by found.items ≡ entries_said (start_view start.entry.now) entries.now) }
{
    let mut found = Vec::new(alloc);
    for entry in entries {
        match entry_finding(start, entry)? {
            Some(finding) => found.push(finding)?,
            None => continue,
        }
    }
    Ok(found)
}

/// Adds the fault of a file without an SOA record to those of its entries, and the fault of the whole file if there is no other.
fn with_whole<'a>(
    start: &ZoneStart<'_>,
    found: Vec<Finding<'a>>,
    fault: &ZoneFault,
    entries: &[EntryLine],
) -> Result<Vec<Finding<'a>>, AllocError>
    ensures { IfOk result (λ all. map said_by all.items
        ≡ whole_said start.entry.now.types fault.now entries.now (map said_by found.entry.items)) }
{
    let mut found = found;
    if !some_starts(entries) {
        found.push(file_finding(start, &ZoneFault::NoSoa))?;
    } else if found.is_empty() {
        found.push(file_finding(start, fault))?;
    }
    Ok(found)
}

/// Returns what is said of a whole file.
fn file_finding<'a>(start: &ZoneStart<'_>, fault: &ZoneFault) -> Finding<'a>
    ensures { said_by result ≡ file_said start.entry.now.types fault.now }
{
    finding_on(0, None, None, fault_advice(start.types, fault))
}

/// Appends what is said of each warning, except of an entry with a fault.
fn push_warnings(
    alloc: Global,
    format: ReportFormat,
    report: &mut String,
    files: Files<'_, '_, '_>,
    start: &ZoneStart<'_>,
    check: &ZoneCheck,
) -> Result<(), AllocError>
    ensures { OnOk result (string_bytes report.new ≡ string_bytes report.old
        ++ report_text format (files_view files.entry) (said_of_warnings
        (start_view start.entry.now) check.now.entries.items check.now.warnings.items)) }
{
    let entries = check.entries.as_slice();
    for warning in &check.warnings {
        push_warning(alloc, format, report, files, start, entries, *warning)?;
    }
    Ok(())
}

/// Appends what is said of a warning about one of the entries, unless that has a fault.
fn push_warning(
    alloc: Global,
    format: ReportFormat,
    report: &mut String,
    files: Files<'_, '_, '_>,
    start: &ZoneStart<'_>,
    entries: &[EntryLine],
    warning: Warning,
) -> Result<(), AllocError>
    ensures { OnOk result (string_bytes report.new ≡ string_bytes report.old
        ++ report_text format (files_view files.entry)
        (said_of_warning (start_view start.entry.now) entries.now warning)) }
{
    match entries.get(warning.place) {
        Some(entry) => push_entry_warning(alloc, format, report, files, start, entry, warning),
        None => Ok(()),
    }
}

/// Appends what is said of a warning about an entry, unless that has a fault.
fn push_entry_warning(
    alloc: Global,
    format: ReportFormat,
    report: &mut String,
    files: Files<'_, '_, '_>,
    start: &ZoneStart<'_>,
    entry: &EntryLine,
    warning: Warning,
) -> Result<(), AllocError>
    ensures { OnOk result (string_bytes report.new ≡ string_bytes report.old
        ++ report_text format (files_view files.entry)
        (entry_warned (start_view start.entry.now) warning entry.now)) }
{
    if entry_finding(start, entry)?.is_some() {
        return Ok(());
    }
    let doubled = doubled_apex(start)?;
    let word = shown_word(alloc, doubled.as_ref(), entry, warning)?;
    let shown = match &word {
        Some(word) => Some(word.as_str()),
        None => None,
    };
    files.push(alloc, format, report, &warning_finding(warning, shown))
}

/// Returns the origin with its labels once more, if it is known and that is a name.
fn doubled_apex(start: &ZoneStart<'_>) -> Result<Option<Name>, AllocError>
    ensures { IfOk result (λ doubled. doubled ≡ doubled_apex (start_view start.entry.now)) }
{
    match start.apex {
        Some(apex) => doubled_origin(apex),
        None => Ok(None),
    }
}

/// Returns what a warning about an entry shows: the lengths of a digest, or a name.
fn shown_word(
    alloc: Global,
    doubled: Option<&Name>,
    entry: &EntryLine,
    warning: Warning,
) -> Result<Option<String>, AllocError>
    ensures { IfOk result (λ word. option_map string_bytes word
        ≡ shown_word (option_copied doubled.entry) entry.now warning.kind) }
{
    if let Some(lengths) = shown_lengths(entry, warning) {
        return Ok(Some(lengths_text(alloc, lengths)?));
    }
    match shown_name(doubled, entry, warning) {
        Some(name) => Ok(Some(name.to_ascii()?)),
        None => Ok(None),
    }
}

/// Returns the lengths that a warning about an entry shows: of a digest that has another than its type.
fn shown_lengths(entry: &EntryLine, warning: Warning) -> Option<DigestLengths>
    ensures { result ≡ shown_lengths entry.now warning.kind }
{
    match (warning.kind, entry) {
        (WarningKind::WrongDigest, EntryLine::Record(record_line)) => {
            wrong_digest(&record_line.rdata)
        }
        _ => None,
    }
}

/// Returns both lengths of a digest.
fn lengths_text(alloc: Global, lengths: DigestLengths) -> Result<String, AllocError>
    ensures { IfOk result (λ text. string_bytes text ≡ lengths_text lengths) }
{
    let mut text = String::new(alloc);
    push_lengths(alloc, &mut text, lengths.found, lengths.wanted)?;
    Ok(text)
}

/// Appends two lengths in bytes, of which the second is right.
fn push_lengths(
    alloc: Global,
    text: &mut String,
    found: usize,
    wanted: usize,
) -> Result<(), AllocError>
    ensures { OnOk result (string_bytes text.new ≡ string_bytes text.old
        ++ lengths_part found wanted) }
{
    text.push_str(format!(in alloc; "{found} bytes, not {wanted}")?.as_str())
}

/// Returns what is said of a warning that shows a word, if there is one.
fn warning_finding(warning: Warning, word: Option<&str>) -> Finding<'_>
    ensures { said_by result ≡ word_said (option_copied word.entry) warning }
{
    Finding {
        source: warning.at.source,
        line: Some(warning.at.line),
        severity: Severity::Warning,
        word,
        advice: warning_advice(warning.kind),
    }
}

/// Returns the name that a warning about an entry shows: of a missing dot, the one that ends in the origin twice, as it is
/// completed.
fn shown_name<'a>(
    doubled: Option<&Name>,
    entry: &'a EntryLine,
    warning: Warning,
) -> Option<&'a Name>
    ensures { option_copied result
        ≡ shown_name (option_copied doubled.entry) entry.now warning.kind }
{
    match (warning.kind, doubled, entry) {
        (WarningKind::MissingDot, Some(doubled), EntryLine::Record(record_line)) => {
            name_below(doubled, record_line)
        }
        _ => None,
    }
}
