//! Why words are no location.

use std::alloc::{AllocError, AllocFailed};
use thiserror::Error;

/// Why words are not a location.
#[derive(Clone, Copy, Debug, PartialEq, Eq, Error)]
pub enum LocationFault {
    /// The words do not begin with degrees up to 90, perhaps minutes and seconds, and `N` or `S`.
    #[error("invalid latitude")]
    InvalidLatitude,
    /// No degrees up to 180, perhaps with minutes and seconds, and `E` or `W`, follow the latitude.
    #[error("invalid longitude")]
    InvalidLongitude,
    /// No altitude from -100000.00 to 42849672.95 follows the longitude.
    #[error("invalid altitude")]
    InvalidAltitude,
    /// A size or a precision is not a number from 0 to 90000000.00.
    #[error("invalid size or precision")]
    InvalidSize,
    /// A word follows the vertical precision.
    #[error("unexpected word after the vertical precision")]
    UnexpectedWord,
    /// Memory could not be allocated.
    #[error("out of memory")]
    Memory,
}

impl From<AllocError> for LocationFault {
    ghost use Rattle.std.specs.Prelude.{◌≡◌};
    ghost use Rattle.dns_fields.specs.declared.location.fault.LocationFault.TheVariants.{Memory};

    ghost from_gives = { λ _ fault. fault ≡ Memory };

    fn from(_e: AllocError) -> LocationFault {
        // The allocator had no memory.
        LocationFault::Memory
    }
}

impl<T: Drop> From<AllocFailed<T>> for LocationFault {
    ghost use Rattle.std.specs.Prelude.{◌≡◌};
    ghost use Rattle.dns_fields.specs.declared.location.fault.LocationFault.TheVariants.{Memory};

    ghost from_gives = { λ _ fault. fault ≡ Memory };

    fn from(_e: AllocFailed<T>) -> LocationFault {
        // The allocator had no memory.
        LocationFault::Memory
    }
}
