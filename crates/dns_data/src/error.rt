//! Errors of parsing record data.

use dns_names::ParseError;
use std::alloc::{AllocError, AllocFailed};
use thiserror::Error;

/// An error of parsing record data from the tokens of a zone file.
#[derive(Debug, Drop, Error)]
pub enum RDataParseError {
    /// The type has no text form here: `OPT`, or a type without fields.
    #[error("record data of this type cannot be parsed from text")]
    UnsupportedRecordType,
    /// A field of the type has no token.
    #[error("record data ends before its last field")]
    MissingToken,
    /// A token is not a value of its field.
    #[error("token is not valid for its field of record data")]
    InvalidToken,
    /// A token follows the last field.
    #[error("unexpected token after record data")]
    UnexpectedToken,
    /// A character string is longer than 255 bytes (RFC 1035 section 3.3).
    #[error("character string is longer than 255 bytes")]
    CharacterDataTooLong,
    /// A name cannot be parsed, or is too long with its origin (RFC 1035 section 2.3.4). The error is not `Memory`.
    #[error("invalid name in record data: {0}")]
    Name(ParseError),
    /// Memory could not be allocated.
    #[error("out of memory")]
    Memory,
}

impl From<AllocError> for RDataParseError {
    ghost use Rattle.std.specs.Prelude.{◌≡◌};
    ghost use Rattle.dns_data.specs.declared.error.RDataParseError.TheVariants.{Memory};

    ghost from_gives = { λ _ e. e ≡ Memory };

    fn from(_e: AllocError) -> RDataParseError {
        RDataParseError::Memory
    }
}

impl<T: Drop> From<AllocFailed<T>> for RDataParseError {
    ghost use Rattle.std.specs.Prelude.{◌≡◌};
    ghost use Rattle.dns_data.specs.declared.error.RDataParseError.TheVariants.{Memory};

    ghost from_gives = { λ _ e. e ≡ Memory };

    fn from(_e: AllocFailed<T>) -> RDataParseError {
        RDataParseError::Memory
    }
}

impl From<ParseError> for RDataParseError {
    ghost use Rattle.std.specs.Prelude.{◌≡◌};
    ghost use Rattle.dns_data.specs.Error.{name_error};

    ghost from_gives = { λ error e. e ≡ name_error error };

    fn from(error: ParseError) -> RDataParseError {
        match error {
            ParseError::Memory => RDataParseError::Memory,
            error => RDataParseError::Name(error),
        }
    }
}
