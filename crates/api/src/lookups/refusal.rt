//! Why a call on a resolver does not do what it was asked for.

use std::alloc::{AllocError, AllocFailed};
use thiserror::Error;

/// Why a call on a resolver does not do what it was asked for, or why a lookup has no records.
#[derive(Clone, Copy, Debug, PartialEq, Eq, Drop, Error)]
pub enum LookupRefusal {
    /// Memory was refused to the call, or to the lookup.
    #[error("out of memory")]
    Memory,
    /// A text is no domain name.
    #[error("no domain name")]
    Name,
    /// Bytes are not addresses with ports.
    #[error("not addresses with ports of 18 bytes each")]
    Endpoint,
    /// No lookup has the number.
    #[error("no lookup has the number")]
    NoLookup,
    /// The lookup still waits for a reply.
    #[error("the lookup waits for a reply")]
    Waiting,
    /// The lookup has ended.
    #[error("the lookup has ended")]
    Ended,
    /// The name does not exist (NXDOMAIN).
    #[error("the name does not exist")]
    NoName,
    /// The name has no records of the type.
    #[error("the name has no records of the type")]
    NoRecords,
    /// A server replied with an error.
    #[error("a server replied with an error")]
    ServerError,
    /// No server gave a reply that is accepted.
    #[error("no server gave a reply")]
    NoReply,
    /// The lookup had no id left for a question.
    #[error("no id is left")]
    NoId,
    /// The question can't be asked.
    #[error("the question can't be asked")]
    Unsupported,
    /// Every number was that of a lookup.
    #[error("no number is left")]
    NoNumber,
}

impl From<AllocError> for LookupRefusal {
    ghost use Rattle.std.specs.Prelude.{◌≡◌};
    ghost use Rattle.api.specs.declared.lookups.refusal.LookupRefusal.TheVariants.{Memory};

    ghost from_gives = { λ _ e. e ≡ Memory };

    fn from(_e: AllocError) -> LookupRefusal {
        LookupRefusal::Memory
    }
}

impl<T: Drop> From<AllocFailed<T>> for LookupRefusal {
    ghost use Rattle.std.specs.Prelude.{◌≡◌};
    ghost use Rattle.api.specs.declared.lookups.refusal.LookupRefusal.TheVariants.{Memory};

    ghost from_gives = { λ _ e. e ≡ Memory };

    fn from(_e: AllocFailed<T>) -> LookupRefusal {
        LookupRefusal::Memory
    }
}
