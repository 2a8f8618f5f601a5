//! Why a call of the library does not do what it was asked for.

use std::alloc::{AllocError, AllocFailed};
use thiserror::Error;

/// Why a call does not do what it was asked for. In no case has anything changed, but for the size that `TooSmall` tells.
#[derive(Clone, Copy, Debug, PartialEq, Eq, Drop, Error)]
pub enum Refusal {
    /// A request has no reply: its bytes do not decode, or are a response.
    #[error("no reply")]
    NoReply,
    /// The buffer is too small.
    #[error("the buffer is too small")]
    TooSmall,
    /// Memory was refused.
    #[error("out of memory")]
    Memory,
    /// The handle is null.
    #[error("the handle is null")]
    NullHandle,
    /// The transport is neither a datagram nor a stream.
    #[error("no such transport")]
    Transport,
    /// The maximum size of a datagram is below 512 bytes, or above 65,535.
    #[error("a limit that is not from 512 to 65,535")]
    Limit,
    /// A text is not UTF-8.
    #[error("the text is not UTF-8")]
    Encoding,
    /// A text is no domain name.
    #[error("no domain name")]
    Name,
    /// A text is not the zone file of a zone.
    #[error("not the zone file of a zone")]
    Zone,
    /// Bytes are no message.
    #[error("not a message")]
    Message,
    /// A message has more than 65,535 bytes.
    #[error("a message of more than 65,535 bytes")]
    TooLong,
    /// An update has an item that no message can have.
    #[error("an item that no message can have")]
    Update,
    /// No item of an update has this number.
    #[error("no such item of an update")]
    Item,
    /// A text is no data of a type.
    #[error("not data of the type")]
    Data,
}

impl From<AllocError> for Refusal {
    ghost use Rattle.std.specs.Prelude.{◌≡◌};
    ghost use Rattle.api.specs.declared.buffer.refusal.Refusal.TheVariants.{Memory};

    ghost from_gives = { λ _ e. e ≡ Memory };

    fn from(_e: AllocError) -> Refusal {
        Refusal::Memory
    }
}

impl<T: Drop> From<AllocFailed<T>> for Refusal {
    ghost use Rattle.std.specs.Prelude.{◌≡◌};
    ghost use Rattle.api.specs.declared.buffer.refusal.Refusal.TheVariants.{Memory};

    ghost from_gives = { λ _ e. e ≡ Memory };

    fn from(_e: AllocFailed<T>) -> Refusal {
        Refusal::Memory
    }
}
