//! Why bytes are not a journal.

ghost use Rattle.std.specs.Prelude.{◌≡◌};

use std::alloc::{AllocError, AllocFailed};
use thiserror::Error;

/// Why bytes are not a journal.
#[derive(Clone, Copy, Debug, PartialEq, Eq, Drop, Error)]
pub enum ReadError {
    /// The bytes do not begin with the header of a journal.
    #[error("not a journal, or its header is damaged")]
    Header,
    /// The bytes are a journal of the former format.
    #[error("a journal of the former format, dnsjrnl1")]
    Former,
    /// What is at this place, in bytes from the start, is not the next entry, and no interrupted write leaves it.
    #[error("damaged at byte {0}")]
    Damaged(usize),
    /// Memory could not be allocated.
    #[error("out of memory")]
    Memory,
}

impl From<AllocError> for ReadError {
    ghost use Rattle.dns_journal.specs.declared.format.error.ReadError.TheVariants.{Memory};

    ghost from_gives = { λ _ error. error ≡ Memory };

    fn from(_error: AllocError) -> ReadError {
        ReadError::Memory
    }
}

impl<T: Drop> From<AllocFailed<T>> for ReadError {
    ghost use Rattle.dns_journal.specs.declared.format.error.ReadError.TheVariants.{Memory};

    ghost from_gives = { λ _ error. error ≡ Memory };

    fn from(_error: AllocFailed<T>) -> ReadError {
        ReadError::Memory
    }
}
