//! Why a `$GENERATE` is refused.

use std::alloc::{AllocError, AllocFailed};
use thiserror::Error;

/// Why a `$GENERATE` is refused.
#[derive(Clone, Copy, Debug, PartialEq, Eq, Drop, Error)]
pub enum GenerateFault {
    /// The range is not of the form `START-STOP` or `START-STOP/STEP`, has a number above 2^31 - 1 or a step of 0, or ends before
    /// it starts.
    #[error("invalid range of numbers")]
    InvalidRange,
    /// The range has more than 65,536 numbers.
    #[error("more than 65536 numbers")]
    TooManyNumbers,
    /// A `${` is not closed, or has no valid offset, width or base.
    #[error("invalid form of a number")]
    InvalidTemplate,
    /// A number with its offset is below 0.
    #[error("number below 0")]
    NegativeNumber,
    /// A number with its offset is above 2^31 - 1.
    #[error("number above 2147483647")]
    NumberTooGreat,
    /// Memory could not be allocated.
    #[error("out of memory")]
    Memory,
}

impl From<AllocError> for GenerateFault {
    ghost use Rattle.std.specs.Prelude.{◌≡◌};
    ghost use Rattle.dns_zone_file.specs.declared.templates.fault.GenerateFault.TheVariants.{Memory};

    ghost from_gives = { λ _ e. e ≡ Memory };

    fn from(_e: AllocError) -> GenerateFault {
        GenerateFault::Memory
    }
}

impl<T: Drop> From<AllocFailed<T>> for GenerateFault {
    ghost use Rattle.std.specs.Prelude.{◌≡◌};
    ghost use Rattle.dns_zone_file.specs.declared.templates.fault.GenerateFault.TheVariants.{Memory};

    ghost from_gives = { λ _ e. e ≡ Memory };

    fn from(_e: AllocFailed<T>) -> GenerateFault {
        GenerateFault::Memory
    }
}
