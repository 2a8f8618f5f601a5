//! The check of a zone file.

use crate::arguments::Arguments;
use crate::ending::Ending;
use crate::file_origin::origin_in_path;
use crate::includes::{Includes, read_includes};
use crate::printed::zone_text;
use crate::{Verdict, read_text, write_report, write_text};
use dns_names::Name;
use dns_zone::Zone;
use std::alloc::AllocError;
use std::time::{SystemTime, UNIX_EPOCH};
use zone_check::{
    ReportFormat, ZoneCheck, ZoneText, check_zone, without_mark, zone_report, zone_summary,
};

/// What became of a zone file.
#[derive(Drop)]
pub(crate) struct CheckedFile {
    /// The zone's origin, if the file has no fault.
    pub(crate) origin: Option<Name>,
    /// Whether there are warnings about it.
    pub(crate) has_warnings: bool,
}

impl CheckedFile {
    /// Returns whether the file is accepted: it has no fault, and no warning where warnings fail.
    pub(crate) fn verdict(&self, arguments: &Arguments) -> Verdict {
        if self.origin.is_none() || arguments.fails_on_warning && self.has_warnings {
            Verdict::Refused
        } else {
            Verdict::Accepted
        }
    }
}

/// Returns the origin that is given for a zone file: that of the arguments, or the one that its path states if that is asked for.
pub(crate) fn origin_for(
    rt: &HostRuntime,
    path: &str,
    arguments: &Arguments,
) -> Result<Option<Name>, Ending> {
    if arguments.has_origins_of_files {
        return Ok(Some(origin_in_path(rt.alloc(), path)?));
    }
    match &arguments.origin {
        Some(origin) => Ok(Some(origin.clone()?)),
        None => Ok(None),
    }
}

/// Says what is wrong in a zone file, for which an origin may be given, or that nothing is, and prints its zone if that was asked for.
pub(crate) fn check_zone_file(
    rt: &HostRuntime,
    path: &str,
    origin: Option<&Name>,
    arguments: &Arguments,
) -> Result<CheckedFile, Ending> {
    let Some(text) = read_text(rt, path, arguments)? else {
        return Ok(CheckedFile {
            origin: None,
            has_warnings: false,
        });
    };
    let includes = read_includes(rt, path, without_mark(text.as_str()), arguments)?;
    let check = check_text(
        rt,
        text.as_str(),
        includes.texts.as_slice(),
        origin,
        arguments,
    )?;
    let names = names_of(rt, path, &includes)?;
    tell_findings(
        rt,
        names.as_slice(),
        text.as_str(),
        includes.texts.as_slice(),
        &check,
        arguments,
    )?;
    if check.origin.is_none() {
        tell_what_is_left_out(rt);
    }
    if arguments.format == ReportFormat::Text {
        let summary = zone_summary(rt.alloc(), path, &check)?;
        write_report(rt, summary.as_str(), arguments)?;
    }
    checked_file(rt, arguments, &check)
}

/// Says on standard error what is not looked for in a file whose origin is not known.
fn tell_what_is_left_out(rt: &HostRuntime) {
    // A failure to write to standard error can't be reported.
    let _written = rt.eprint(
        "zonecheck: no SOA record could be read: without it, or --origin, owners outside the zone and warnings are not looked for\n",
    );
}

/// Checks the text of a zone file, with the files that it includes.
fn check_text(
    rt: &HostRuntime,
    text: &str,
    includes: &[(String, String)],
    origin: Option<&Name>,
    arguments: &Arguments,
) -> Result<ZoneCheck, AllocError> {
    let file = ZoneText {
        text,
        includes,
        types: arguments.types,
    };
    let now = arguments.now.or(clock(rt));
    check_zone(rt.alloc(), &file, origin, now)
}

/// Says what is wrong in a zone file, if anything is.
fn tell_findings(
    rt: &HostRuntime,
    names: &[&str],
    text: &str,
    includes: &[(String, String)],
    check: &ZoneCheck,
    arguments: &Arguments,
) -> Result<(), Ending> {
    let file = ZoneText {
        text,
        includes,
        types: arguments.types,
    };
    let report = zone_report(rt.alloc(), arguments.format, names, &file, check)?;
    write_report(rt, report.as_str(), arguments)
}

/// Returns the names of a zone file and of those that it includes, as a report shows them.
fn names_of<'a>(
    rt: &HostRuntime,
    path: &'a str,
    includes: &'a Includes,
) -> Result<Vec<&'a str>, AllocError> {
    let mut names = Vec::new(rt.alloc());
    names.push(path)?;
    for place in &includes.paths {
        names.push(place.as_str())?;
    }
    Ok(names)
}

/// Returns what became of a zone file, and prints its zone if that was asked for.
fn checked_file(
    rt: &HostRuntime,
    arguments: &Arguments,
    check: &ZoneCheck,
) -> Result<CheckedFile, Ending> {
    let has_warnings = !check.warnings.is_empty();
    let Ok(zone) = &check.outcome else {
        return Ok(CheckedFile {
            origin: None,
            has_warnings,
        });
    };
    if arguments.print {
        print_zone(rt, zone)?;
    }
    Ok(CheckedFile {
        origin: Some(zone.origin().clone()?),
        has_warnings,
    })
}

/// Prints a zone as a zone file.
fn print_zone(rt: &HostRuntime, zone: &Zone) -> Result<(), Ending> {
    let text = zone_text(rt.alloc(), zone)?;
    write_text(rt, text.as_str())
}

/// Returns the time in seconds since 1970 and modulo 2^32, or `None` if the clock fails.
fn clock(rt: &HostRuntime) -> Option<u32> {
    let Ok(time) = SystemTime::now(rt) else {
        return None;
    };
    match time.duration_since(UNIX_EPOCH) {
        Ok(duration) => Some((duration.as_secs() % (1 << 32)) as u32),
        Err(_) => None,
    }
}
