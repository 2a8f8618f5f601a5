//! Why a storage or a journal failed.

ghost use Rattle.std.specs.Prelude.{◌≡◌};

use std::alloc::{AllocError, AllocFailed};
use thiserror::Error;

/// Why a call of a storage failed.
#[derive(Clone, Copy, Debug, PartialEq, Eq, Drop, Error)]
pub enum StorageError {
    /// The storage failed: no room was left, or a file could not be read, written, synchronized or renamed.
    #[error("storage failed")]
    Failed,
    /// Memory could not be allocated.
    #[error("out of memory")]
    Memory,
}

impl From<AllocError> for StorageError {
    ghost use Rattle.dns_journal.specs.declared.error.StorageError.TheVariants.{Memory};

    ghost from_gives = { λ _ error. error ≡ Memory };

    fn from(_error: AllocError) -> StorageError {
        StorageError::Memory
    }
}

impl<T: Drop> From<AllocFailed<T>> for StorageError {
    ghost use Rattle.dns_journal.specs.declared.error.StorageError.TheVariants.{Memory};

    ghost from_gives = { λ _ error. error ≡ Memory };

    fn from(_error: AllocFailed<T>) -> StorageError {
        StorageError::Memory
    }
}

/// Why a payload was not appended.
#[derive(Clone, Copy, Debug, PartialEq, Eq, Drop, Error)]
pub enum AppendError {
    /// An earlier call failed: the journal takes no entries until it is opened again.
    #[error("journal is not ready")]
    NotReady,
    /// The payload is too long, or the length of the journal or the number of its entries would not fit in 64 bits.
    #[error("journal is full")]
    Full,
    /// The storage failed.
    #[error("storage failed")]
    Storage,
    /// Memory could not be allocated.
    #[error("out of memory")]
    Memory,
}
