//! Why the program stops, and its status then.

use crate::mode::Mode;
use std::alloc::AllocError;
use std::fmt;
use stub_play::Ending;

/// Why the program exits with a status other than 0, or with its help.
#[derive(Drop)]
pub(crate) enum Stop {
    /// Two options exclude each other, or one is given twice.
    Excluded(&'static str, &'static str),
    /// A line of the script, counted from 1, has blanks before `#> `.
    Indented(usize),
    /// The arguments, the files or the run are at fault.
    Ending(Ending),
}

impl Stop {
    /// Returns the exit status in a mode: 2 if the arguments are at fault, otherwise 1. With `--check` it is always 2, since 1 says
    /// that something differs.
    pub(crate) fn status(&self, mode: Mode) -> u8 {
        match self {
            Stop::Excluded(_, _) => 2,
            _ if mode == Mode::Check => 2,
            Stop::Indented(_) => 1,
            Stop::Ending(ending) => ending.status(),
        }
    }
}

impl From<Ending> for Stop {
    fn from(ending: Ending) -> Stop {
        Stop::Ending(ending)
    }
}

impl From<AllocError> for Stop {
    fn from(error: AllocError) -> Stop {
        Stop::Ending(Ending::from(error))
    }
}

impl fmt::Display for Stop {
    /// Writes what the program writes to standard error, including the line break.
    fn fmt<W: fmt::Write>(&self, f: &mut fmt::Formatter<W>) -> fmt::Result {
        match self {
            Stop::Excluded(option, other) => write_excluded(f, option, other),
            Stop::Indented(line) => {
                writeln!(
                    f,
                    "script line {line}: '#> ' must be at the start of the line"
                )
            }
            Stop::Ending(ending) => write!(f, "{ending}"),
        }
    }
}

/// Writes that two options exclude each other, in clap's words.
fn write_excluded<W: fmt::Write>(
    f: &mut fmt::Formatter<W>,
    option: &str,
    other: &str,
) -> fmt::Result {
    if option == other {
        writeln!(
            f,
            "error: the argument '{option}' cannot be used multiple times"
        )?;
    } else {
        writeln!(
            f,
            "error: the argument '{option}' cannot be used with '{other}'"
        )?;
    }
    f.write_str(
        "\nUsage: stub [OPTIONS] --zone <FILE> --script <FILE>\n\nFor more information, try '--help'.\n",
    )
}
