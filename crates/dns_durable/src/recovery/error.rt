//! Why a journal is not opened.

ghost use Rattle.std.specs.Prelude.{◌≡◌};

use dns_journal::StorageError;
use dns_journal::format::ReadError;
use std::alloc::{AllocError, AllocFailed};
use thiserror::Error;

/// Why a journal is not opened.
#[derive(Clone, Copy, Debug, PartialEq, Eq, Drop, Error)]
pub enum OpenError {
    /// The bytes are not a journal. The error is not `Memory`.
    #[error("{0}")]
    Journal(ReadError),
    /// The journal belongs to another text.
    #[error("the journal belongs to another zone file")]
    OtherText,
    /// The storage failed. The files stand for the same updates.
    #[error("{0}")]
    Storage(StorageError),
    /// Memory could not be allocated.
    #[error("out of memory")]
    Memory,
}

impl From<AllocError> for OpenError {
    ghost use Rattle.dns_durable.specs.declared.recovery.error.OpenError.TheVariants.{Memory};

    ghost from_gives = { λ _ error. error ≡ Memory };

    fn from(_error: AllocError) -> OpenError {
        OpenError::Memory
    }
}

impl<T: Drop> From<AllocFailed<T>> for OpenError {
    ghost use Rattle.dns_durable.specs.declared.recovery.error.OpenError.TheVariants.{Memory};

    ghost from_gives = { λ _ error. error ≡ Memory };

    fn from(_error: AllocFailed<T>) -> OpenError {
        OpenError::Memory
    }
}
