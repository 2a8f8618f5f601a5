//! Why a zone is not added to a server.

ghost use Rattle.std.specs.Prelude.{◌≡◌};

use std::alloc::{AllocError, AllocFailed};
use thiserror::Error;

/// Why a zone is not added to a server.
#[derive(Clone, Copy, Debug, PartialEq, Eq, Drop, Error)]
pub enum AddZoneError {
    /// There is a zone with this origin, ignoring ASCII case.
    #[error("there is a zone with this origin already")]
    Duplicate,
    /// Memory was refused.
    #[error("out of memory")]
    Memory,
}

impl<T: Drop> From<AllocFailed<T>> for AddZoneError {
    ghost use Rattle.std.specs.Prelude.{◌≡◌};
    ghost use Rattle.dns_server.specs.declared.error.AddZoneError.TheVariants.{Memory};

    ghost from_gives = { λ _ error. error ≡ Memory };

    fn from(_error: AllocFailed<T>) -> AddZoneError {
        AddZoneError::Memory
    }
}

impl From<AllocError> for AddZoneError {
    ghost use Rattle.std.specs.Prelude.{◌≡◌};
    ghost use Rattle.dns_server.specs.declared.error.AddZoneError.TheVariants.{Memory};

    ghost from_gives = { λ _ error. error ≡ Memory };

    fn from(_error: AllocError) -> AddZoneError {
        AddZoneError::Memory
    }
}
