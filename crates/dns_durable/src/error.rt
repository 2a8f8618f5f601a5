//! Why updates are not served again, or words are not a grant.

ghost use Rattle.std.specs.Prelude.{◌≡◌};

use dns_journal::AppendError;
use std::alloc::{AllocError, AllocFailed};
use thiserror::Error;

/// Why the updates of a journal are not served again.
#[derive(Clone, Copy, Debug, PartialEq, Eq, Drop, Error)]
pub enum ReplayError {
    /// An entry, counted from 1, is not the frames of requests.
    #[error("entry {0} of the journal is not an update")]
    NotUpdates(usize),
    /// Memory could not be allocated.
    #[error("out of memory")]
    Memory,
}

impl From<AllocError> for ReplayError {
    ghost use Rattle.dns_durable.specs.declared.error.ReplayError.TheVariants.{Memory};

    ghost from_gives = { λ _ error. error ≡ Memory };

    fn from(_error: AllocError) -> ReplayError {
        ReplayError::Memory
    }
}

/// Why words are not a grant.
#[derive(Clone, Copy, Debug, PartialEq, Eq, Drop, Error)]
pub enum GrantError {
    /// There are fewer words than the name of a key and that of a subtree.
    #[error("the names of a key and of a subtree are expected")]
    Missing,
    /// The name of the key is not a domain name.
    #[error("the name of the key is not a domain name")]
    Key,
    /// The name of the subtree is not a domain name.
    #[error("the name of the subtree is not a domain name")]
    Subtree,
    /// A word is not a record type.
    #[error("an unknown record type")]
    Type,
    /// Memory could not be allocated.
    #[error("out of memory")]
    Memory,
}

impl From<AllocError> for GrantError {
    ghost use Rattle.dns_durable.specs.declared.error.GrantError.TheVariants.{Memory};

    ghost from_gives = { λ _ error. error ≡ Memory };

    fn from(_error: AllocError) -> GrantError {
        GrantError::Memory
    }
}

impl<T: Drop> From<AllocFailed<T>> for GrantError {
    ghost use Rattle.dns_durable.specs.declared.error.GrantError.TheVariants.{Memory};

    ghost from_gives = { λ _ error. error ≡ Memory };

    fn from(_error: AllocFailed<T>) -> GrantError {
        GrantError::Memory
    }
}

/// Why the text of a zone does not take the place of its journal.
#[derive(Clone, Copy, Debug, PartialEq, Eq, Drop, Error)]
pub enum CompactError {
    /// There is not exactly one zone.
    #[error("there is not exactly one zone")]
    Zones,
    /// No zone with the same text is read from the text of the zone.
    #[error("the zone has no text that is read as it is")]
    Text,
    /// The journal is not ready, or the storage failed.
    #[error("{0}")]
    Journal(AppendError),
    /// Memory could not be allocated.
    #[error("out of memory")]
    Memory,
}

impl From<AllocError> for CompactError {
    ghost use Rattle.dns_durable.specs.declared.error.CompactError.TheVariants.{Memory};

    ghost from_gives = { λ _ error. error ≡ Memory };

    fn from(_error: AllocError) -> CompactError {
        CompactError::Memory
    }
}
