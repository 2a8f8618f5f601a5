//! A script, and what is done with what its events lead to.

use crate::arguments::ReplayMode;
use crate::ending::Ending;
use crate::replay::outcome::write_outcome;
use crate::replay::script::{Part, Script, parse_script};
use script_expectations::indented_expectation;
use std::alloc::Global;
use std::io;

/// A script that was read, and what is done with what its events lead to.
#[derive(Drop)]
pub struct Replay {
    path: String,
    text: String,
    script: Script,
    mode: ReplayMode,
}

impl Replay {
    /// Parses the text of the script at a path.
    pub fn parse(
        alloc: Global,
        path: &str,
        text: String,
        mode: ReplayMode,
    ) -> Result<Replay, Ending> {
        if uses_expectations(mode) {
            refuse_indented(alloc, path, text.as_str())?;
        }
        let script = parse_script(alloc, path, text.as_str())?;
        Ok(Replay {
            path: String::from_str(alloc, path)?,
            text,
            script,
            mode,
        })
    }

    /// Returns the parts of the script, each of which is for a server of its own.
    pub fn parts(&self) -> &[Part] {
        self.script.parts.as_slice()
    }

    /// Writes what the events printed, its differences from the expectations in the script after the path of the script, or the script
    /// with what they printed as their expectations. Returns `false` if there are differences.
    pub fn write_outcome<W: io::Write>(
        &self,
        alloc: Global,
        printed: &str,
        writer: &mut W,
    ) -> io::Result<bool> {
        write_outcome(
            alloc,
            self.mode,
            self.path.as_str(),
            self.text.as_str(),
            printed,
            writer,
        )
    }
}

/// Returns `true` if expectations in a script are compared or replaced.
fn uses_expectations(mode: ReplayMode) -> bool {
    match mode {
        ReplayMode::Check | ReplayMode::Bless => true,
        ReplayMode::Print => false,
    }
}

/// Refuses a script in which blanks are before `#> `: that would be a comment, and no expectation.
fn refuse_indented(alloc: Global, path: &str, text: &str) -> Result<(), Ending> {
    match indented_expectation(alloc, text)? {
        Some(number) => {
            let report = format!(in alloc;
                "{path}:{number}: '#> ' must be at the start of the line\n"
            )?;
            Err(Ending::Refused(report))
        }
        None => Ok(()),
    }
}
