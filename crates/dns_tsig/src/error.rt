//! Why a message cannot be signed.

ghost use Rattle.std.specs.Prelude.{◌≡◌};

use std::alloc::AllocError;
use thiserror::Error;

/// Why a message cannot be signed.
#[derive(Clone, Copy, Debug, PartialEq, Eq, Drop, Error)]
pub enum SignError {
    /// The message is shorter than a header.
    #[error("message is shorter than a header")]
    NoHeader,
    /// The additional section has 65,535 records.
    #[error("additional section is full")]
    Full,
    /// There is no key of this index.
    #[error("no such key")]
    NoKey,
    /// Memory was refused.
    #[error("out of memory")]
    Memory,
}

impl From<AllocError> for SignError {
    ghost use Rattle.dns_tsig.specs.declared.error.SignError.TheVariants.{Memory};

    ghost from_gives = { λ _ error. error ≡ Memory };

    fn from(_error: AllocError) -> SignError {
        SignError::Memory
    }
}
