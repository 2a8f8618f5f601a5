//! How the program ends.

use std::alloc::{AllocError, AllocFailed, Global};
use std::net::SocketAddr;
use std::{fmt, io};

/// Why the program ends, if no signal and no end of its standard input ends it.
#[derive(Debug, Drop)]
pub enum Ending {
    /// The arguments are invalid, or ask for help or the version. The error's text says which.
    Arguments(clap::Error),
    /// The value of an option is invalid: a line says why.
    InvalidValue(String),
    /// An argument is not valid UTF-8.
    NotUtf8,
    /// A file could not be read: its path, as given, and the error.
    CannotRead(String, io::Error),
    /// The zone file or its journal could not be read or written: the path of the journal, as given, and the error.
    Journal(String, io::Error),
    /// The log could not be opened: its path, as given, and the error.
    CannotOpenLog(String, io::Error),
    /// A file has a fault: a report says which.
    Refused(String),
    /// The sockets at an address could not be opened.
    CannotListen(SocketAddr, io::Error),
    /// A script expects something else than its events led to.
    Differs,
    /// A line could not be written to standard output.
    CannotPrint,
    /// The wait for requests failed.
    Failed(io::Error),
    /// Out of memory.
    Memory,
}

impl From<AllocError> for Ending {
    ghost use Rattle.std.specs.Prelude.{◌≡◌};
    ghost use Rattle.nameserver_cli.specs.declared.ending.Ending.TheVariants.{Memory};

    ghost from_gives = { λ _ ending. ending ≡ Memory };

    fn from(_error: AllocError) -> Ending {
        // The memory was refused to the call that returned the error.
        Ending::Memory
    }
}

impl<T: Drop> From<AllocFailed<T>> for Ending {
    ghost use Rattle.std.specs.Prelude.{◌≡◌};
    ghost use Rattle.nameserver_cli.specs.declared.ending.Ending.TheVariants.{Memory};

    ghost from_gives = { λ _ ending. ending ≡ Memory };

    fn from(_error: AllocFailed<T>) -> Ending {
        // The memory was refused to the call that returned the error.
        Ending::Memory
    }
}

impl Ending {
    ghost use Rattle.std.specs.Prelude.{◌≡◌, ◌↔◌, IsTrue};
    ghost use Rattle.nameserver_cli.specs.Ending.{IsAnswer, IsOfInvalidValue, status_of};

    /// Creates the ending for an invalid value of an option: [`Ending::InvalidValue`], or [`Ending::Memory`] if memory for the line is
    /// refused.
    pub fn invalid(alloc: Global, option: &str, value: &str, reason: &str) -> Ending
        ensures { IsOfInvalidValue option.now value.now reason.now result }
    {
        match format!(in alloc; "invalid value '{value}' for '--{option}': {reason}") {
            Ok(line) => Ending::InvalidValue(line),
            // Memory for the line was refused.
            Err(_) => Ending::Memory,
        }
    }

    /// Returns `true` if the program was asked for its help or its version, which go to standard output.
    pub fn is_answer(&self) -> bool
        ensures { IsTrue result ↔ IsAnswer self.now }
    {
        match self {
            Ending::Arguments(error) => !error.use_stderr(),
            _ => false,
        }
    }

    /// Returns the exit status: 2 if the arguments are at fault, otherwise 1. Of a comparison, 1 says that a script expects something
    /// else, and 2 that it was not compared.
    pub fn status(&self, is_comparison: bool) -> u8
        ensures { result ≡ status_of is_comparison self.now }
    {
        match self {
            Ending::Arguments(_) | Ending::InvalidValue(_) | Ending::NotUtf8 => 2,
            Ending::Differs => 1,
            _ if is_comparison => 2,
            _ => 1,
        }
    }
}

impl fmt::Display for Ending {
    ghost use Rattle.nameserver_cli.specs.Ending.{ending_text};

    ghost output = { λ ending. ending_text ending };

    /// Writes what the program says, with its line break.
    fn fmt<W: fmt::Write>(&self, f: &mut fmt::Formatter<W>) -> fmt::Result {
        match self {
            // Clap's text and a report end with a line break.
            Ending::Arguments(error) => write!(f, "{error}"),
            Ending::Refused(report) => f.write_str(report.as_str()),
            Ending::InvalidValue(line) => writeln!(f, "nameserver: {line}"),
            Ending::NotUtf8 => f.write_str("nameserver: arguments are not valid UTF-8\n"),
            Ending::CannotRead(path, error) => {
                writeln!(f, "nameserver: cannot read {path}: {error}")
            }
            Ending::Journal(path, error) => { writeln!(f, "nameserver: journal {path}: {error}") }
            Ending::CannotOpenLog(path, error) => {
                writeln!(f, "nameserver: cannot open the log {path}: {error}")
            }
            Ending::CannotListen(address, error) => {
                writeln!(f, "nameserver: cannot listen on {address}: {error}")
            }
            // Standard output has the differences.
            Ending::Differs => Ok(()),
            Ending::CannotPrint => f.write_str("nameserver: cannot write to standard output\n"),
            Ending::Failed(error) => writeln!(f, "nameserver: cannot wait for requests: {error}"),
            Ending::Memory => f.write_str("nameserver: out of memory\n"),
        }
    }
}
