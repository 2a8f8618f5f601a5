//! Why a transfer has no further message.

ghost use Rattle.std.specs.Prelude.{◌≡◌};

use std::alloc::{AllocError, AllocFailed};
use thiserror::Error;

/// Why a transfer has no further message, although records are left.
#[derive(Clone, Copy, Debug, PartialEq, Eq, Drop, Error)]
pub enum TransferError {
    /// The next record has no room in a message without compression.
    #[error("record too long for a message")]
    TooLong,
    /// Memory could not be allocated.
    #[error("out of memory")]
    Memory,
}

impl From<AllocError> for TransferError {
    ghost use Rattle.dns_transfers.specs.declared.error.TransferError.TheVariants.{Memory};

    ghost from_gives = { λ _ error. error ≡ Memory };

    fn from(_error: AllocError) -> TransferError {
        TransferError::Memory
    }
}

impl<T: Drop> From<AllocFailed<T>> for TransferError {
    ghost use Rattle.dns_transfers.specs.declared.error.TransferError.TheVariants.{Memory};

    ghost from_gives = { λ _ error. error ≡ Memory };

    fn from(_error: AllocFailed<T>) -> TransferError {
        TransferError::Memory
    }
}
