//! Why a text is not a key file.

ghost use Rattle.std.specs.Prelude.{◌≡◌};

use std::alloc::{AllocError, AllocFailed};
use thiserror::Error;

/// What is wrong with a key.
#[derive(Clone, Copy, Debug, PartialEq, Eq, Drop, Error)]
pub enum KeyFault {
    /// A comment `/* */` has no end.
    #[error("a comment does not end")]
    Comment,
    /// A statement does not begin with the word `key`.
    #[error("`key` is expected")]
    Key,
    /// There is no name after `key`, or it is not a domain name.
    #[error("the name of the key cannot be read")]
    Name,
    /// There is no `{` after the name.
    #[error("`{{` is expected after the name")]
    Open,
    /// There is neither `algorithm` nor `secret`.
    #[error("`algorithm` or `secret` is expected")]
    Statement,
    /// There is no word after `algorithm` or `secret`.
    #[error("a value is missing after `algorithm` or `secret`")]
    Value,
    /// There is no `;` after a value or after `}`.
    #[error("`;` is expected")]
    Semicolon,
    /// There is no `}` after two statements.
    #[error("`}}` is expected")]
    Close,
    /// `algorithm` or `secret` occurs twice.
    #[error("`algorithm` or `secret` is repeated")]
    Repeated,
    /// The algorithm is not known.
    #[error("an unknown algorithm")]
    Algorithm,
    /// The secret is not Base64 (RFC 4648 section 4).
    #[error("the secret is not Base64")]
    Secret,
}

/// Why a text is not a key file.
#[derive(Clone, Copy, Debug, PartialEq, Eq, Drop, Error)]
pub enum KeyFileError {
    /// A line, counted from 1, has a fault.
    #[error("line {line}: {fault}")]
    Line {
        /// The line, from 1.
        line: usize,
        /// What is wrong.
        fault: KeyFault,
    },
    /// Memory was refused.
    #[error("out of memory")]
    Memory,
}

impl From<AllocError> for KeyFileError {
    ghost use Rattle.dns_keys.specs.declared.error.KeyFileError.TheVariants.{Memory};

    ghost from_gives = { λ _ error. error ≡ Memory };

    fn from(_error: AllocError) -> KeyFileError {
        KeyFileError::Memory
    }
}

impl<T: Drop> From<AllocFailed<T>> for KeyFileError {
    ghost use Rattle.dns_keys.specs.declared.error.KeyFileError.TheVariants.{Memory};

    ghost from_gives = { λ _ error. error ≡ Memory };

    fn from(_error: AllocFailed<T>) -> KeyFileError {
        KeyFileError::Memory
    }
}
