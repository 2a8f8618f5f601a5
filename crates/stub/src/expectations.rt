//! The results of a script beside the expectations in it.

ghost use Rattle.std.specs.Prelude.{◌≡◌, ◌≤◌, true};

use crate::playing::play_script;
use crate::replies::GivenScript;
use crate::stop::Stop;
use script_expectations::{indented_expectation, write_blessed, write_differences};
use std::alloc::Global;
use std::io::{self, BufWriter, ErrorKind, Write};
use std::process::ExitCode;
use std::str::{self, Lines};
use stub_play::{Ending, PlayFault, PlayInput};
use stub_script::GivenReply;

/// What begins an expectation.
const EXPECTATION: &str = "#> ";

/// Refuses a script with blanks before the `#> ` of a line, which would be no expectation.
pub(crate) fn refuse_indented(alloc: Global, script: &str) -> Result<(), Stop> {
    match indented_expectation(alloc, script)? {
        Some(line) => Err(Stop::Indented(line)),
        None => Ok(()),
    }
}

/// Plays a script, and compares what each event led to with its expectations in the script. Each difference is printed, and
/// the status is 1 if there is any.
pub(crate) fn check(
    rt: &HostRuntime,
    input: &PlayInput,
    script: GivenScript,
    is_traced: bool,
) -> Result<ExitCode, Ending>
    requires limit { 512 ≤ input.now.limit }
    requires udp { input.now.udp ≡ true → input.now.limit ≤ 65507 }
{
    let GivenScript { replies, whole: _ } = script;
    let printed = play_to_text(rt, input, replies, is_traced)?;
    // The lines of replies are empty in the input, since they are no events.
    match print_differences(rt, input.script.as_str(), printed.as_str()) {
        Ok(true) => Ok(ExitCode::SUCCESS),
        Ok(false) => Ok(ExitCode::FAILURE),
        Err(error) => Err(ending_of(error)),
    }
}

/// Plays a script, and prints it with what each event led to as its expectations.
pub(crate) fn bless(
    rt: &HostRuntime,
    input: &PlayInput,
    script: GivenScript,
    is_traced: bool,
) -> Result<ExitCode, Ending>
    requires limit { 512 ≤ input.now.limit }
    requires udp { input.now.udp ≡ true → input.now.limit ≤ 65507 }
{
    let GivenScript { replies, whole } = script;
    let printed = play_to_text(rt, input, replies, is_traced)?;
    let blessed = match &whole {
        Some(text) => print_whole(rt, text.as_str(), input.script.as_str(), printed.as_str()),
        None => print_blessed(rt, input.script.as_str(), printed.as_str()),
    };
    match blessed {
        Ok(()) => Ok(ExitCode::SUCCESS),
        Err(error) => Err(ending_of(error)),
    }
}

/// Plays a script, and returns what it prints.
fn play_to_text(
    rt: &HostRuntime,
    input: &PlayInput,
    replies: Vec<GivenReply>,
    is_traced: bool,
) -> Result<String, Ending>
    requires limit { 512 ≤ input.now.limit }
    requires udp { input.now.udp ≡ true → input.now.limit ≤ 65507 }
{
    let mut bytes = Vec::new(rt.alloc());
    play_script(rt, input, replies, is_traced, &mut bytes)?;
    match String::from_utf8(bytes) {
        Ok(text) => Ok(text),
        // Names and data are printed in ASCII, and hosts as in the script.
        Err(_) => Err(Ending::Fault(PlayFault::Write)),
    }
}

/// Prints what a script expects and its events did not print.
fn print_differences(rt: &HostRuntime, script: &str, printed: &str) -> io::Result<bool> {
    let mut writer = BufWriter::new(rt.alloc(), io::writer(rt))?;
    let is_met = write_differences(rt.alloc(), script, printed, &mut writer)?;
    writer.flush()?;
    Ok(is_met)
}

/// Prints a script with what its events printed as its expectations.
fn print_blessed(rt: &HostRuntime, script: &str, printed: &str) -> io::Result<()> {
    let mut writer = BufWriter::new(rt.alloc(), io::writer(rt))?;
    write_blessed(rt.alloc(), script, printed, &mut writer)?;
    writer.flush()
}

/// Prints a script that gives replies with what its events printed as its expectations. The lines of replies are empty in `events`.
fn print_whole(rt: &HostRuntime, whole: &str, events: &str, printed: &str) -> io::Result<()> {
    let mut blessed = Vec::new(rt.alloc());
    write_blessed(rt.alloc(), events, printed, &mut blessed)?;
    let Ok(blessed) = str::from_utf8(blessed.as_slice()) else {
        // A blessed script has the lines of a script and of what was printed, which are texts.
        return Err(io::Error::from(ErrorKind::InvalidData));
    };
    let mut writer = BufWriter::new(rt.alloc(), io::writer(rt))?;
    write_whole(whole, blessed, &mut writer)?;
    writer.flush()
}

/// Writes the expectations of a blessed script, and between them the other lines of the whole script in the place of its own.
fn write_whole<W: Write>(whole: &str, blessed: &str, writer: &mut W) -> io::Result<()> {
    let mut lines = whole.lines();
    for line in blessed.lines() {
        if line.starts_with(EXPECTATION) {
            writeln!(writer, "{line}")?;
        } else {
            writeln!(writer, "{}", next_other(&mut lines))?;
        }
    }
    Ok(())
}

/// Returns the next line that is no expectation, or an empty one at the end.
fn next_other<'a>(lines: &mut Lines<'a>) -> &'a str {
    for line in lines {
        if !line.starts_with(EXPECTATION) {
            return line;
        }
    }
    ""
}

/// Returns how the program ends after an error.
fn ending_of(error: io::Error) -> Ending {
    match error.kind() {
        // Memory for the lines was refused.
        ErrorKind::OutOfMemory => Ending::Memory,
        _ => Ending::Fault(PlayFault::Write),
    }
}
