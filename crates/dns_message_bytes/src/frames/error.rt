//! Why frames cannot be read.

ghost use Rattle.std.specs.Prelude.{◌≡◌};

use std::alloc::AllocError;
use thiserror::Error;

/// Why a frame cannot be read.
#[derive(Clone, Copy, Debug, PartialEq, Eq, Drop, Error)]
pub enum FrameError {
    /// The stream ends within a frame.
    #[error("stream ends within a frame")]
    Truncated,
    /// The source failed.
    #[error("source failed")]
    Failed,
    /// Memory could not be allocated.
    #[error("out of memory")]
    Memory,
}

impl From<AllocError> for FrameError {
    ghost use Rattle.dns_message_bytes.specs.declared.frames.error.FrameError.TheVariants.{Memory};

    ghost from_gives = { λ _ error. error ≡ Memory };

    fn from(_error: AllocError) -> FrameError {
        FrameError::Memory
    }
}
