//! The faults of the entries of a zone file.

ghost use Rattle.std.specs.Prelude.{◌≡◌, IfOk, option_copied, option_map};
ghost use Rattle.zone_check.specs.Fault.{entry_said, fault_line_said, fault_said, lacks_dot, record_advice, record_fault, record_said, start_fault, start_view, zone_of};
ghost use Rattle.zone_check.specs.findings.Finding.{said_by, sentences};
ghost use Rattle.zone_lines.specs.Source.{text_view};

use crate::apex::{has_start, is_doubled, is_start_record};
use crate::findings::{Advice, Finding, Severity, advice_on, fault_advice, warning_advice};
use crate::mark::begins_with_mark;
use dns_names::Name;
use dns_wire::DNSClass;
use dns_zone::ZoneFault;
use dns_zone_file::Types;
use std::alloc::AllocError;
use zone_lines::warnings::WarningKind;
use zone_lines::{EntryLine, FaultLine, RecordLine, ZoneText};

/// The greatest length of data that can be encoded (RFC 1035 section 3.2.1).
const MAX_DATA_LENGTH: u128 = 65_535;

/// What decides on the records of a zone file.
#[derive(Clone, Copy)]
pub(crate) struct ZoneStart<'a> {
    /// The origin, if it is known.
    pub(crate) apex: Option<&'a Name>,
    /// Whether it has an SOA record.
    pub(crate) has_start: bool,
    /// Whether the text begins with a byte-order mark.
    pub(crate) has_mark: bool,
    /// The types that the file may have.
    pub(crate) types: Types,
}

/// Returns what decides on the records of a zone file with an origin, if it is known.
pub(crate) fn zone_start<'a>(
    file: &ZoneText<'_>,
    apex: Option<&'a Name>,
    entries: &[EntryLine],
) -> ZoneStart<'a>
    ensures { start_view result
        ≡ zone_of (text_view file.entry.now) (option_copied apex.entry) entries.now }
{
    ZoneStart {
        apex,
        has_start: match apex {
            Some(apex) => has_start(apex, entries),
            None => false,
        },
        has_mark: begins_with_mark(file.text),
        types: file.types,
    }
}

/// Returns what is said of the fault of an entry, if it has one.
pub(crate) fn entry_finding<'a>(
    start: &ZoneStart<'_>,
    entry: &'a EntryLine,
) -> Result<Option<Finding<'a>>, AllocError>
    ensures { IfOk result (λ finding.
        option_map said_by finding ≡ entry_said (start_view start.entry.now) entry.now) }
{
    match entry {
        EntryLine::Record(record_line) => record_finding(start, record_line),
        EntryLine::Fault(fault) => Ok(Some(fault_finding(start, fault))),
    }
}

/// Returns what is said of an entry that could not be read.
fn fault_finding<'a>(start: &ZoneStart<'_>, fault: &'a FaultLine) -> Finding<'a>
    ensures { said_by result ≡ fault_line_said (start_view start.entry.now) fault.now }
{
    let word = match &fault.word {
        Some(word) => Some(word.as_str()),
        None => None,
    };
    let advice = advice_on(start.types, &fault.error, word, fault.record_type);
    finding_on(fault.source, fault.error.line(), word, advice)
}

/// Returns what is said of a record that the zone cannot have.
fn record_finding<'a>(
    start: &ZoneStart<'_>,
    record_line: &'a RecordLine,
) -> Result<Option<Finding<'a>>, AllocError>
    ensures { IfOk result (λ finding.
        option_map said_by finding ≡ record_said (start_view start.entry.now) record_line.now) }
{
    match record_fault(start, record_line) {
        Some(fault) => {
            let advice = record_advice(start, record_line, &fault)?;
            let at = record_line.at;
            Ok(Some(finding_on(at.source, Some(at.line), None, advice)))
        }
        None => Ok(None),
    }
}

/// Returns why the zone cannot have a record.
fn record_fault(start: &ZoneStart<'_>, record_line: &RecordLine) -> Option<ZoneFault>
    ensures { result ≡ record_fault (start_view start.entry.now) record_line.now }
{
    if record_line.dns_class != DNSClass::IN {
        return Some(ZoneFault::NotInternet);
    }
    if let Some(apex) = start.apex {
        if !apex.zone_of(&record_line.owner) {
            return Some(ZoneFault::OutsideOrigin);
        }
        if is_start_record(record_line) && !apex.eq_ignore_root(&record_line.owner) {
            return Some(start_fault(start.has_start));
        }
    }
    if record_line.rdata.encoded_len() > MAX_DATA_LENGTH {
        return Some(ZoneFault::DataTooLong);
    }
    None
}

/// Returns the fault of an SOA record elsewhere than at the origin, which has one or not.
fn start_fault(has_start: bool) -> ZoneFault
    ensures { result ≡ start_fault has_start }
{
    if has_start {
        ZoneFault::SoaElsewhere
    } else {
        ZoneFault::NoSoa
    }
}

/// Returns the sentences of a record that the zone cannot have. The owner of an SOA record may lack the dot at its end.
fn record_advice(
    start: &ZoneStart<'_>,
    record_line: &RecordLine,
    fault: &ZoneFault,
) -> Result<Advice, AllocError>
    ensures { IfOk result (λ advice.
        sentences advice ≡ record_advice (start_view start.entry.now) record_line.now fault.now) }
{
    if is_start_record(record_line) && lacks_dot(start, record_line)? {
        return Ok(warning_advice(WarningKind::MissingDot));
    }
    Ok(fault_advice(start.types, fault))
}

/// Returns `true` if the owner of a record is the origin twice.
fn lacks_dot(start: &ZoneStart<'_>, record_line: &RecordLine) -> Result<bool, AllocError>
    ensures { IfOk result (λ lacks.
        lacks ≡ lacks_dot (start_view start.entry.now) record_line.now) }
{
    match start.apex {
        Some(apex) => is_doubled(apex, &record_line.owner),
        None => Ok(false),
    }
}

/// Returns what is said of a fault on a line of a text, if it has one.
pub(crate) fn finding_on(
    source: usize,
    line: Option<usize>,
    word: Option<&str>,
    advice: Advice,
) -> Finding<'_>
    ensures { said_by result
        ≡ fault_said source line (option_copied word.entry) (sentences advice) }
{
    Finding {
        source,
        line,
        severity: Severity::Fault,
        word,
        advice,
    }
}
