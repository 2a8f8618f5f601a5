//! What is done with what the events of a script printed.

use crate::arguments::ReplayMode;
use script_expectations::{write_blessed, write_differences};
use std::alloc::Global;
use std::io;

/// Writes what the events of a script printed, its differences from the expectations in the script, or the script with what they
/// printed as their expectations. Returns `false` if there are differences.
pub(crate) fn write_outcome<W: io::Write>(
    alloc: Global,
    mode: ReplayMode,
    path: &str,
    script: &str,
    printed: &str,
    writer: &mut W,
) -> io::Result<bool> {
    match mode {
        ReplayMode::Print => {
            writer.write_all(printed.as_bytes())?;
            Ok(true)
        }
        ReplayMode::Check => write_checked(alloc, path, script, printed, writer),
        ReplayMode::Bless => {
            write_blessed(alloc, script, printed, writer)?;
            Ok(true)
        }
    }
}

/// Writes what a script expects and its events did not print, after the path of the script, and returns whether there is nothing.
fn write_checked<W: io::Write>(
    alloc: Global,
    path: &str,
    script: &str,
    printed: &str,
    writer: &mut W,
) -> io::Result<bool> {
    let mut differences = Vec::new(alloc);
    let is_met = write_differences(alloc, script, printed, &mut differences)?;
    if !is_met {
        writer.write_all(path.as_bytes())?;
        writer.write_all(b"\n")?;
        writer.write_all(differences.as_slice())?;
    }
    Ok(is_met)
}
