//! Why calls of sockets have no result.

ghost use Rattle.std.specs.Prelude.{◌≡◌};

use std::alloc::AllocError;
use thiserror::Error;

/// Why a call of a socket has no result.
#[derive(Clone, Copy, Debug, PartialEq, Eq, Drop, Error)]
pub enum SocketError {
    /// The socket failed, or the other end was not ready in time.
    #[error("socket failed")]
    Failed,
    /// Memory could not be allocated.
    #[error("out of memory")]
    Memory,
}

impl From<AllocError> for SocketError {
    ghost use Rattle.dns_blocking.specs.declared.error.SocketError.TheVariants.{Memory};

    ghost from_gives = { λ _ error. error ≡ Memory };

    fn from(_error: AllocError) -> SocketError {
        SocketError::Memory
    }
}
