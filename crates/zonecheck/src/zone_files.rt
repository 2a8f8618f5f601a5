//! The check of several zone files.

use crate::arguments::Arguments;
use crate::ending::Ending;
use crate::zone_file::{CheckedFile, check_zone_file, origin_for};
use crate::{Verdict, write_text};
use zone_check::ReportFormat;

/// How many zone files were checked, and with what result.
#[derive(Clone, Copy)]
struct Counts {
    files: usize,
    /// Those that have a fault, or could not be read.
    faulty: usize,
    /// Those that have warnings and no fault.
    warned: usize,
}

/// Says what is wrong in zone files, one after another, and how many have faults and warnings. One that cannot be read is reported, and
/// the others are checked.
pub(crate) fn check_zone_files(
    rt: &HostRuntime,
    paths: &[String],
    arguments: &Arguments,
) -> Result<Verdict, Ending> {
    let mut verdict = Verdict::Accepted;
    let mut counts = Counts {
        files: paths.len(),
        faulty: 0,
        warned: 0,
    };
    for path in paths {
        let checked = check_file(rt, path.as_str(), arguments)?;
        count(&mut counts, &checked);
        if checked.verdict(arguments) == Verdict::Refused {
            verdict = Verdict::Refused;
        }
    }
    if arguments.format == ReportFormat::Text {
        tell_counts(rt, counts)?;
    }
    Ok(verdict)
}

/// Says what is wrong in a zone file, also if it cannot be read.
fn check_file(rt: &HostRuntime, path: &str, arguments: &Arguments) -> Result<CheckedFile, Ending> {
    let origin = origin_for(rt, path, arguments)?;
    match check_zone_file(rt, path, origin.as_ref(), arguments) {
        Err(unread @ Ending::CannotRead(_, _)) => {
            // A failure to write to standard error can't be reported.
            let _written = rt.eprint(&unread);
            Ok(CheckedFile {
                origin: None,
                has_warnings: false,
            })
        }
        checked => checked,
    }
}

/// Counts a zone file that was checked.
fn count(counts: &mut Counts, checked: &CheckedFile) {
    if checked.origin.is_none() {
        counts.faulty = counts.faulty.saturating_add(1);
    } else if checked.has_warnings {
        counts.warned = counts.warned.saturating_add(1);
    }
}

/// Says how many zone files have faults and warnings.
fn tell_counts(rt: &HostRuntime, counts: Counts) -> Result<(), Ending> {
    let Counts {
        files,
        faulty,
        warned,
    } = counts;
    let line = format!(in rt.alloc();
        "{files} files: {faulty} with faults, {warned} with warnings\n"
    )?;
    write_text(rt, line.as_str())
}
