//! Errors of parsing zone files.

ghost use Rattle.std.specs.Prelude.{◌≡◌};
ghost use Rattle.dns_zone_file.specs.internal.Error.{at_line};

use crate::templates::GenerateFault;
use dns_data::RDataParseError;
use dns_formats::FormatFault;
use dns_text::LexerError;
use std::alloc::{AllocError, AllocFailed};
use thiserror::Error;

/// Why an entry of a zone file cannot be parsed.
#[derive(Debug, Drop, Error)]
pub enum EntryFault {
    /// An entry begins with blanks, and no record precedes it.
    #[error("no owner, and no record before")]
    NoOwner,
    /// The owner is no name, or is too long with the origin (RFC 1035 section 2.3.4).
    #[error("invalid owner")]
    InvalidOwner,
    /// A word begins with a digit and is no time of 32 bits.
    #[error("invalid TTL")]
    InvalidTtl,
    /// There are two TTLs or two classes.
    #[error("TTL or class is given twice")]
    RepeatedField,
    /// The entry ends before a type.
    #[error("entry ends before a type")]
    MissingType,
    /// A word is no type.
    #[error("unknown type")]
    UnknownType,
    /// The data cannot be parsed. The error is not `Memory`.
    #[error("{0}")]
    InvalidData(RDataParseError),
    /// The data is read as bytes, and cannot be read. The error is not `Memory`.
    #[error("{0}")]
    InvalidFormat(FormatFault),
    /// The generic form has no bytes (RFC 3597 section 5). A record without data is one of an update (RFC 2136 section 2.4).
    #[error("record data of no bytes")]
    NoData,
    /// The TTL is omitted, and none was stated before.
    #[error("TTL is missing and no default applies")]
    NoTtl,
    /// The record has another class than the records of the same owner and type.
    #[error("class differs from that of the record set")]
    ClassMismatch,
    /// A directive has an argument too few, too many, or one that is invalid.
    #[error("invalid directive")]
    InvalidDirective,
    /// A `$GENERATE` has no valid range, or no valid text for one of its numbers. The fault is not `Memory`.
    #[error("{0}")]
    InvalidGenerate(GenerateFault),
    /// Texts are nested more than 16 deep.
    #[error("more than 16 nested includes")]
    TooManyIncludes,
}

/// Why a zone file cannot be parsed, with the line, from 1, in the text where the fault is.
#[derive(Debug, Drop, Error)]
pub enum ZoneFileError {
    /// The text cannot be divided into tokens.
    #[error("{0}")]
    Lexer(LexerError),
    /// An entry cannot be parsed. The line is its first.
    #[error("line {0}: {1}")]
    Entry(usize, EntryFault),
    /// There is no text of the name in an `$INCLUDE`, which is on this line.
    #[error("line {0}: no such text to include")]
    IncludeNotFound(usize),
    /// Memory could not be allocated.
    #[error("out of memory")]
    Memory,
}

/// Why an entry, or the data of a record, was not parsed.
#[derive(Debug, Drop, Error)]
pub enum EntryError {
    /// The entry has a fault.
    #[error("{0}")]
    Fault(EntryFault),
    /// Memory could not be allocated.
    #[error("out of memory")]
    Memory,
}

impl EntryError {
    /// Adds the line of the entry.
    pub(crate) fn at_line(self, line: usize) -> ZoneFileError
        ensures { result ≡ at_line line self }
    {
        match self {
            EntryError::Fault(fault) => ZoneFileError::Entry(line, fault),
            // Memory was refused while the entry was parsed.
            EntryError::Memory => ZoneFileError::Memory,
        }
    }
}

impl ZoneFileError {
    ghost use Rattle.std.specs.Prelude.{◌≡◌};
    ghost use Rattle.dns_zone_file.specs.Error.{line_of};

    /// Returns the line of the fault, from 1, or `None` if memory could not be allocated.
    pub fn line(&self) -> Option<usize>
        ensures { result ≡ line_of self.now }
    {
        match self {
            ZoneFileError::Lexer(error) => Some(error.line()),
            ZoneFileError::Entry(line, _) => Some(*line),
            ZoneFileError::IncludeNotFound(line) => Some(*line),
            ZoneFileError::Memory => None,
        }
    }
}

impl From<LexerError> for ZoneFileError {
    ghost use Rattle.std.specs.Prelude.{◌≡◌};
    ghost use Rattle.dns_zone_file.specs.declared.error.ZoneFileError.TheVariants.{Lexer};

    ghost from_gives = { λ error e. e ≡ Lexer error };

    fn from(error: LexerError) -> ZoneFileError {
        ZoneFileError::Lexer(error)
    }
}

impl From<AllocError> for ZoneFileError {
    ghost use Rattle.std.specs.Prelude.{◌≡◌};
    ghost use Rattle.dns_zone_file.specs.declared.error.ZoneFileError.TheVariants.{Memory};

    ghost from_gives = { λ _ e. e ≡ Memory };

    fn from(_e: AllocError) -> ZoneFileError {
        ZoneFileError::Memory
    }
}

impl<T: Drop> From<AllocFailed<T>> for ZoneFileError {
    ghost use Rattle.std.specs.Prelude.{◌≡◌};
    ghost use Rattle.dns_zone_file.specs.declared.error.ZoneFileError.TheVariants.{Memory};

    ghost from_gives = { λ _ e. e ≡ Memory };

    fn from(_e: AllocFailed<T>) -> ZoneFileError {
        ZoneFileError::Memory
    }
}

impl From<EntryFault> for EntryError {
    ghost use Rattle.std.specs.Prelude.{◌≡◌};
    ghost use Rattle.dns_zone_file.specs.declared.error.EntryError.TheVariants.{Fault};

    ghost from_gives = { λ fault e. e ≡ Fault fault };

    fn from(fault: EntryFault) -> EntryError {
        EntryError::Fault(fault)
    }
}

impl From<AllocError> for EntryError {
    ghost use Rattle.std.specs.Prelude.{◌≡◌};
    ghost use Rattle.dns_zone_file.specs.declared.error.EntryError.TheVariants.{Memory};

    ghost from_gives = { λ _ e. e ≡ Memory };

    fn from(_e: AllocError) -> EntryError {
        EntryError::Memory
    }
}

impl<T: Drop> From<AllocFailed<T>> for EntryError {
    ghost use Rattle.std.specs.Prelude.{◌≡◌};
    ghost use Rattle.dns_zone_file.specs.declared.error.EntryError.TheVariants.{Memory};

    ghost from_gives = { λ _ e. e ≡ Memory };

    fn from(_e: AllocFailed<T>) -> EntryError {
        EntryError::Memory
    }
}
