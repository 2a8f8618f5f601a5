//! Scripts of requests: they are read, and what their requests led to is printed.

use crate::files::read_text;
use nameserver_cli::replay::Replay;
use nameserver_cli::{Ending, ReplayMode};
use std::io::{self, BufWriter, ErrorKind, Write};

/// Reads a script.
pub(crate) fn read_replay(
    rt: &HostRuntime,
    path: &str,
    mode: ReplayMode,
) -> Result<Replay, Ending> {
    Replay::parse(rt.alloc(), path, read_text(rt, path)?, mode)
}

/// Prints what the requests of a script led to, or compares it with the expectations in the script, and returns whether these are met.
pub(crate) fn conclude(rt: &HostRuntime, replay: &Replay, printed: &str) -> Result<bool, Ending> {
    match print_outcome(rt, replay, printed) {
        Ok(is_met) => Ok(is_met),
        Err(error) => Err(ending_of(error)),
    }
}

/// Prints what is done with what the requests of a script printed.
fn print_outcome(rt: &HostRuntime, replay: &Replay, printed: &str) -> io::Result<bool> {
    let mut writer = BufWriter::new(rt.alloc(), io::writer(rt))?;
    let is_met = replay.write_outcome(rt.alloc(), printed, &mut writer)?;
    writer.flush()?;
    Ok(is_met)
}

/// Returns how the program ends after an error.
fn ending_of(error: io::Error) -> Ending {
    match error.kind() {
        // Memory for the lines was refused.
        ErrorKind::OutOfMemory => Ending::Memory,
        _ => Ending::CannotPrint,
    }
}
