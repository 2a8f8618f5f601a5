//! `zonecheck [FILE..] [--origin NAME | --origin-of-file] [--nine] [--include-anywhere] [--now SECONDS] [--print] [--fail-on-warning]
//! [--json] [--script FILE]`: says what is wrong in zone files, in a script, or in a zone file and a script for it.
//!
//! - `arguments`: the arguments; `file_origin`: the origin that the name of a file states; `includes`: the files that a zone file
//!   includes; `zone_file`, `script_file`: the checks of the files; `zone_files`: that of several zone files; `printed`: the text of a
//!   zone; `ending`: how the program ends.
#![tactic(auto)]

mod arguments;
mod ending;
mod file_origin;
mod includes;
mod printed;
mod script_file;
mod zone_file;
mod zone_files;

use crate::arguments::{Arguments, read_arguments};
use crate::ending::Ending;
use crate::script_file::check_script;
use crate::zone_file::{CheckedFile, check_zone_file, origin_for};
use crate::zone_files::check_zone_files;
use dns_names::Name;
use std::process::ExitCode;
use std::{env, fs};
use zone_check::encoding_report;

/// What is to be said of the files.
#[derive(Clone, Copy, PartialEq, Eq)]
pub(crate) enum Verdict {
    /// They are accepted, perhaps with warnings.
    Accepted,
    /// One has a fault.
    Refused,
}

fn main(rt: HostRuntime) -> ExitCode {
    match run_program(&rt) {
        Ok(Verdict::Accepted) => ExitCode::SUCCESS,
        Ok(Verdict::Refused) => ExitCode::FAILURE,
        Err(ending) => end(&rt, &ending),
    }
}

/// Says why the program ends, and returns its status.
fn end(rt: &HostRuntime, ending: &Ending) -> ExitCode {
    if ending.is_answer() {
        return match rt.print(ending) {
            Ok(()) => ExitCode::SUCCESS,
            Err(_) => ExitCode::FAILURE,
        };
    }
    // A failure to write to standard error can't be reported.
    let _ = rt.eprint(ending);
    ExitCode::from(ending.status())
}

/// Checks the files that the arguments name.
fn run_program(rt: &HostRuntime) -> Result<Verdict, Ending> {
    let arguments = given_arguments(rt)?;
    match arguments.files.as_slice() {
        [] => {
            let root = Name::root(rt.alloc());
            let origin = arguments.origin.as_ref().unwrap_or(&root);
            check_script_file(rt, &arguments, origin)
        }
        [path] => check_both(rt, path.as_str(), &arguments),
        paths => check_zone_files(rt, paths, &arguments),
    }
}

/// Checks a zone file, and the script, if there is one, as a script for its zone.
fn check_both(rt: &HostRuntime, path: &str, arguments: &Arguments) -> Result<Verdict, Ending> {
    let given = origin_for(rt, path, arguments)?;
    let checked = check_zone_file(rt, path, given.as_ref(), arguments)?;
    let root = Name::root(rt.alloc());
    let origin = origin_of(&checked, given.as_ref(), &root);
    match (
        checked.verdict(arguments),
        check_script_file(rt, arguments, origin)?,
    ) {
        (Verdict::Accepted, Verdict::Accepted) => Ok(Verdict::Accepted),
        _ => Ok(Verdict::Refused),
    }
}

/// Returns the origin of a zone: that of its file, if it has no fault, or else the one that is given, or else the root.
fn origin_of<'a>(checked: &'a CheckedFile, given: Option<&'a Name>, root: &'a Name) -> &'a Name {
    match &checked.origin {
        Some(origin) => origin,
        None => given.unwrap_or(root),
    }
}

/// Checks the script, if there is one. The origin completes the names of its updates.
fn check_script_file(
    rt: &HostRuntime,
    arguments: &Arguments,
    origin: &Name,
) -> Result<Verdict, Ending> {
    match &arguments.script {
        Some(path) => check_script(rt, path.as_str(), arguments, origin),
        None => Ok(Verdict::Accepted),
    }
}

/// Returns the arguments of the program.
fn given_arguments(rt: &HostRuntime) -> Result<Arguments, Ending> {
    let given = match env::args(rt) {
        Ok(given) => given,
        Err(error) => return Err(Ending::unread(&error)),
    };
    let texts = given.collect::<Vec<String>>(rt.alloc())?;
    let words = texts
        .iter()
        .map(|text| text.as_str())
        .collect::<Vec<&str>>(rt.alloc())?;
    read_arguments(rt.alloc(), words.as_slice())
}

/// Returns the text of a file. One that is not UTF-8 has none, and is reported.
pub(crate) fn read_text(
    rt: &HostRuntime,
    path: &str,
    arguments: &Arguments,
) -> Result<Option<String>, Ending> {
    let bytes = read_bytes(rt, path)?;
    let report = encoding_report(rt.alloc(), arguments.format, path, bytes.as_slice())?;
    write_report(rt, report.as_str(), arguments)?;
    Ok(String::from_utf8(bytes).ok())
}

/// Returns the bytes of a file, or of standard input.
fn read_bytes(rt: &HostRuntime, path: &str) -> Result<Vec<u8>, Ending> {
    let path = if path == "-" { "/dev/stdin" } else { path };
    match fs::read(rt, path) {
        Ok(bytes) => Ok(bytes),
        Err(error) => Err(Ending::cannot_read(rt.alloc(), path, error)),
    }
}

/// Writes a report to standard output: as comments of a zone file, where the zone is printed after it.
pub(crate) fn write_report(
    rt: &HostRuntime,
    report: &str,
    arguments: &Arguments,
) -> Result<(), Ending> {
    if !arguments.print {
        return write_text(rt, report);
    }
    for line in report.lines() {
        write_text(rt, "; ")?;
        write_text(rt, line)?;
        write_text(rt, "\n")?;
    }
    Ok(())
}

/// Writes to standard output.
pub(crate) fn write_text(rt: &HostRuntime, text: &str) -> Result<(), Ending> {
    match rt.print(text) {
        Ok(()) => Ok(()),
        Err(_) => Err(Ending::CannotPrint),
    }
}
