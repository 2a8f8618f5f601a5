//! Why the program ends early.

use dns_keys::KeyFileError;
use std::alloc::{AllocError, AllocFailed, Global};
use std::{fmt, io};

/// Why the program ends before its lookups, or among them.
#[derive(Debug, Drop)]
pub enum Ending {
    /// The arguments are invalid, or ask for help or the version. The error's text says which.
    Arguments(clap::Error),
    /// The value of an argument is invalid: a line says why.
    InvalidValue(String),
    /// An argument is not valid UTF-8.
    NotUtf8,
    /// The zone of an update is given, and no update.
    ZoneWithoutUpdate,
    /// A file could not be read: its path, as given, and the error.
    CannotRead(String, io::Error),
    /// A line of the hosts file is not valid UTF-8: its path, as given.
    HostsNotUtf8(String),
    /// A file is not a key file: its path, as given, and why.
    InvalidKeys(String, KeyFileError),
    /// A key file has no key, or none of the name that is given: its path, as given.
    NoKey(String),
    /// Standard input could not be read.
    CannotReadInput(io::Error),
    /// A line could not be written to standard output.
    CannotPrint,
    /// The system's clock failed.
    NoClock(io::Error),
    /// The system has no random bytes for the id of a request.
    NoEntropy,
    /// Out of memory.
    Memory,
}

impl From<AllocError> for Ending {
    ghost use Rattle.std.specs.Prelude.{◌≡◌};
    ghost use Rattle.lookup_cli.specs.declared.ending.Ending.TheVariants.{Memory};

    ghost from_gives = { λ _ ending. ending ≡ Memory };

    fn from(_error: AllocError) -> Ending {
        // The memory was refused to the call that returned the error.
        Ending::Memory
    }
}

impl<T: Drop> From<AllocFailed<T>> for Ending {
    ghost use Rattle.std.specs.Prelude.{◌≡◌};
    ghost use Rattle.lookup_cli.specs.declared.ending.Ending.TheVariants.{Memory};

    ghost from_gives = { λ _ ending. ending ≡ Memory };

    fn from(_error: AllocFailed<T>) -> Ending {
        // The memory was refused to the call that returned the error.
        Ending::Memory
    }
}

impl Ending {
    ghost use Rattle.std.specs.Prelude.{◌↔◌, IsTrue};
    ghost use Rattle.lookup_cli.specs.Ending.{IsAnswer, IsOfInvalidValue, IsOfUnread};

    /// Creates the ending for an invalid value of an argument, which is named as in its usage: [`Ending::InvalidValue`], or
    /// [`Ending::Memory`] if memory for the line is refused.
    pub fn invalid(alloc: Global, argument: &str, value: &str, reason: &str) -> Ending
        ensures { IsOfInvalidValue argument.now value.now reason.now result }
    {
        match format!(in alloc; "invalid value '{value}' for '{argument}': {reason}") {
            Ok(line) => Ending::InvalidValue(line),
            // Memory for the line was refused.
            Err(_) => Ending::Memory,
        }
    }

    /// Creates the ending for a file that could not be read: [`Ending::CannotRead`], or [`Ending::Memory`] if memory for
    /// reading the file, or for its path, is refused.
    pub fn cannot_read(alloc: Global, path: &str, error: io::Error) -> Ending
        ensures { IsOfUnread path.now error result }
    {
        if error.kind() == io::ErrorKind::OutOfMemory {
            // Reading the file was refused memory.
            return Ending::Memory;
        }
        match String::from_str(alloc, path) {
            Ok(path) => Ending::CannotRead(path, error),
            // Memory for the path was refused.
            Err(_) => Ending::Memory,
        }
    }

    /// Returns `true` if the program was asked for its help or its version, which go to standard output.
    pub fn is_answer(&self) -> bool
        ensures { IsTrue result ↔ IsAnswer self.now }
    {
        match self {
            Ending::Arguments(error) => !error.use_stderr(),
            _ => false,
        }
    }
}

impl fmt::Display for Ending {
    ghost use Rattle.lookup_cli.specs.Ending.{ending_text};

    ghost output = { λ ending. ending_text ending };

    /// Writes what the program says, with its line break.
    fn fmt<W: fmt::Write>(&self, f: &mut fmt::Formatter<W>) -> fmt::Result {
        match self {
            // Clap's text ends with a line break.
            Ending::Arguments(error) => write!(f, "{error}"),
            Ending::InvalidValue(line) => writeln!(f, "lookup: {line}"),
            Ending::NotUtf8 => f.write_str("lookup: arguments are not valid UTF-8\n"),
            Ending::ZoneWithoutUpdate => {
                f.write_str(
                    "lookup: --zone names the zone of an update, and there is no --update\n",
                )
            }
            Ending::CannotRead(path, error) => writeln!(f, "lookup: cannot read {path}: {error}"),
            Ending::HostsNotUtf8(path) => {
                writeln!(f, "lookup: {path}: a line is not valid UTF-8")
            }
            Ending::InvalidKeys(path, error) => writeln!(f, "lookup: {path}: {error}"),
            Ending::NoKey(path) => writeln!(f, "lookup: {path}: there is no such key"),
            Ending::CannotReadInput(error) => {
                writeln!(f, "lookup: cannot read standard input: {error}")
            }
            Ending::CannotPrint => f.write_str("lookup: cannot write to standard output\n"),
            Ending::NoClock(error) => writeln!(f, "lookup: cannot read the clock: {error}"),
            Ending::NoEntropy => f.write_str("lookup: the system has no random bytes\n"),
            Ending::Memory => f.write_str("lookup: out of memory\n"),
        }
    }
}
