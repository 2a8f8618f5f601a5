//! Errors of labels and names.

use std::alloc::{AllocError, AllocFailed};
use thiserror::Error;

/// An error of building or parsing a label or a name, or of parsing a time.
#[derive(Debug, Drop, Error)]
pub enum ParseError {
    /// A label is longer than 63 bytes (RFC 1035 section 2.3.4).
    #[error("label is longer than 63 bytes")]
    LabelBytesTooLong,
    /// A label is empty; in a name's text, two dots follow one another, or a dot comes first and is not the whole text.
    #[error("empty label")]
    EmptyLabel,
    /// The encoded name is longer than 255 bytes (RFC 1035 section 2.3.4).
    #[error("name is longer than 255 bytes")]
    DomainNameTooLong,
    /// The character at this byte offset is not allowed there, or is a backslash without a valid escape. In a time it
    /// is the first character such that the text up to and including it is not a time of 32 bits, or 0 if the text is
    /// empty. For a name that is not a reverse name it is 0.
    #[error("invalid text at byte {0}")]
    Text(usize),
    /// Memory could not be allocated.
    #[error("out of memory")]
    Memory,
}

impl From<AllocError> for ParseError {
    ghost use Rattle.std.specs.Prelude.{◌≡◌};
    ghost use Rattle.dns_names.specs.declared.error.ParseError.TheVariants.{Memory};

    ghost from_gives = { λ _ e. e ≡ Memory };

    fn from(_e: AllocError) -> ParseError {
        ParseError::Memory
    }
}

impl<T: Drop> From<AllocFailed<T>> for ParseError {
    ghost use Rattle.std.specs.Prelude.{◌≡◌};
    ghost use Rattle.dns_names.specs.declared.error.ParseError.TheVariants.{Memory};

    ghost from_gives = { λ _ e. e ≡ Memory };

    fn from(_e: AllocFailed<T>) -> ParseError {
        ParseError::Memory
    }
}
