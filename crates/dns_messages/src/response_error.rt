//! Why a response is refused.

use dns_wire::{DecodeError, EncodeError};
use thiserror::Error;

/// An error of making a response.
#[derive(Debug, Drop, Error)]
pub enum ResponseError {
    /// The message is a query (RFC 1035 section 4.1.1).
    #[error("message is not a response")]
    NotAResponse,
    /// The bytes do not decode to a message.
    #[error("{0}")]
    Decode(DecodeError),
    /// The message cannot be encoded.
    #[error("{0}")]
    Encode(EncodeError),
}

impl From<DecodeError> for ResponseError {
    ghost use Rattle.std.specs.Prelude.{◌≡◌};
    ghost use Rattle.dns_messages.specs.declared.response_error.ResponseError.TheVariants.{Decode};

    ghost from_gives = { λ error refusal. refusal ≡ Decode error };

    fn from(error: DecodeError) -> ResponseError {
        ResponseError::Decode(error)
    }
}

impl From<EncodeError> for ResponseError {
    ghost use Rattle.std.specs.Prelude.{◌≡◌};
    ghost use Rattle.dns_messages.specs.declared.response_error.ResponseError.TheVariants.{Encode};

    ghost from_gives = { λ error refusal. refusal ≡ Encode error };

    fn from(error: EncodeError) -> ResponseError {
        ResponseError::Encode(error)
    }
}
