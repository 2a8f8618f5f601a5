//! Why the text of a parameter is refused.

use std::alloc::{AllocError, AllocFailed};
use thiserror::Error;

/// Why a text is not a parameter of a service binding.
#[derive(Clone, Copy, Debug, PartialEq, Eq, Error)]
pub enum ServiceFault {
    /// The key is neither a name in lower case nor `key` and a number without leading zeros (RFC 9460 section 2.1).
    #[error("unknown key of a parameter")]
    UnknownKey,
    /// A backslash in a list is not followed by a comma or a backslash (RFC 9460 appendix A.1).
    #[error("invalid escape in a list")]
    InvalidEscape,
    /// The value has not the form of its key (RFC 9460 sections 7 and 8), or is longer than 65,535 bytes.
    #[error("invalid value of a parameter")]
    InvalidValue,
    /// A key occurs twice (RFC 9460 section 2.1).
    #[error("a parameter occurs twice")]
    Repeated,
    /// Memory could not be allocated.
    #[error("out of memory")]
    Memory,
}

impl From<AllocError> for ServiceFault {
    ghost use Rattle.std.specs.Prelude.{◌≡◌};
    ghost use Rattle.dns_fields.specs.declared.service.fault.ServiceFault.TheVariants.{Memory};

    ghost from_gives = { λ _ fault. fault ≡ Memory };

    fn from(_e: AllocError) -> ServiceFault {
        // The allocator had no memory.
        ServiceFault::Memory
    }
}

impl<T: Drop> From<AllocFailed<T>> for ServiceFault {
    ghost use Rattle.std.specs.Prelude.{◌≡◌};
    ghost use Rattle.dns_fields.specs.declared.service.fault.ServiceFault.TheVariants.{Memory};

    ghost from_gives = { λ _ fault. fault ≡ Memory };

    fn from(_e: AllocFailed<T>) -> ServiceFault {
        // The allocator had no memory.
        ServiceFault::Memory
    }
}
