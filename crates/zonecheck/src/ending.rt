//! How the program ends, if it cannot check the files, or was asked for its help.

use clap::error::ErrorKind;
use std::alloc::{AllocError, AllocFailed, Global};
use std::{fmt, io};

/// Why the program ends before it has checked the files.
#[derive(Debug, Drop)]
pub(crate) enum Ending {
    /// The arguments are invalid, or ask for help. The error's text says which.
    Arguments(clap::Error),
    /// The value of an option is invalid: a line says why.
    InvalidValue(String),
    /// An argument is not valid UTF-8.
    NotUtf8,
    /// An option is of one zone, and several zone files are given: its name.
    OfOneZone(&'static str),
    /// A file could not be read: its path, as given, and the error.
    CannotRead(String, io::Error),
    /// A report could not be written to standard output.
    CannotPrint,
    /// Out of memory.
    Memory,
}

impl From<AllocError> for Ending {
    fn from(_error: AllocError) -> Ending {
        // The memory was refused to the call that returned the error.
        Ending::Memory
    }
}

impl<T: Drop> From<AllocFailed<T>> for Ending {
    fn from(_error: AllocFailed<T>) -> Ending {
        // The memory was refused to the call that returned the error.
        Ending::Memory
    }
}

impl Ending {
    /// Creates the ending for arguments that cannot be read.
    pub(crate) fn unread(error: &io::Error) -> Ending {
        match error.kind() {
            // Copying the arguments was refused memory.
            io::ErrorKind::OutOfMemory => Ending::Memory,
            _ => Ending::NotUtf8,
        }
    }

    /// Creates the ending for arguments that clap refuses, or answers.
    pub(crate) fn of_arguments(error: clap::Error) -> Ending {
        match error.kind() {
            // Reading the arguments was refused memory.
            ErrorKind::OutOfMemory => Ending::Memory,
            _ => Ending::Arguments(error),
        }
    }

    /// Creates the ending for an invalid value of an option.
    pub(crate) fn invalid(alloc: Global, option: &str, value: &str, reason: &str) -> Ending {
        Ending::of_line(format!(in alloc; "invalid value '{value}' for '--{option}': {reason}"))
    }

    /// Creates the ending for a zone file whose path states no origin.
    pub(crate) fn invalid_file(alloc: Global, path: &str) -> Ending {
        Ending::of_line(format!(in alloc;
            "the name of the file '{path}' is no origin, such as mail.example.zone or db.mail.example"
        ))
    }

    /// Creates the ending for an invalid argument, of which a line says why.
    fn of_line(line: Result<String, AllocError>) -> Ending {
        match line {
            Ok(line) => Ending::InvalidValue(line),
            // Memory for the line was refused.
            Err(_) => Ending::Memory,
        }
    }

    /// Creates the ending for a file that cannot be read.
    pub(crate) fn cannot_read(alloc: Global, path: &str, error: io::Error) -> Ending {
        if error.kind() == io::ErrorKind::OutOfMemory {
            // Reading the file was refused memory.
            return Ending::Memory;
        }
        match String::from_str(alloc, path) {
            Ok(path) => Ending::CannotRead(path, error),
            // Memory for the path was refused.
            Err(_) => Ending::Memory,
        }
    }

    /// Returns `true` if the program was asked for its help, which goes to standard output.
    pub(crate) fn is_answer(&self) -> bool {
        match self {
            Ending::Arguments(error) => !error.use_stderr(),
            _ => false,
        }
    }

    /// Returns the exit status: 2 if the arguments are at fault, otherwise 1.
    pub(crate) fn status(&self) -> u8 {
        match self {
            Ending::Arguments(_)
            | Ending::InvalidValue(_)
            | Ending::NotUtf8
            | Ending::OfOneZone(_) => 2,
            _ => 1,
        }
    }
}

impl fmt::Display for Ending {
    /// Writes what the program says, with its line break.
    fn fmt<W: fmt::Write>(&self, f: &mut fmt::Formatter<W>) -> fmt::Result {
        match self {
            // Clap's text ends with a line break.
            Ending::Arguments(error) => write!(f, "{error}"),
            Ending::InvalidValue(line) => writeln!(f, "zonecheck: {line}"),
            Ending::NotUtf8 => f.write_str("zonecheck: arguments are not valid UTF-8\n"),
            Ending::OfOneZone(option) => {
                writeln!(
                    f,
                    "zonecheck: {option} is of one zone: give it with one zone file"
                )
            }
            Ending::CannotRead(path, error) => {
                writeln!(f, "zonecheck: cannot read {path}: {error}")
            }
            Ending::CannotPrint => f.write_str("zonecheck: cannot write to standard output\n"),
            Ending::Memory => f.write_str("zonecheck: out of memory\n"),
        }
    }
}
