//! The errors of decoding and encoding.

use std::alloc::{AllocError, AllocFailed};
use thiserror::Error;

/// An error of decoding.
#[derive(Debug, Drop, Error)]
pub enum DecodeError {
    /// Fewer bytes are unread than the read requires.
    #[error("unexpected end of input")]
    InsufficientBytes,
    /// A compression pointer does not point before the labels that it follows (RFC 1035 section 4.1.4).
    #[error("compression pointer does not point before its labels")]
    PointerNotPriorToLabel,
    /// The high bits of a label's length byte are 01 or 10 (RFC 1035 section 4.1.4).
    #[error("label length has reserved high bits")]
    UnrecognizedLabelCode,
    /// A name is longer than 255 bytes (RFC 1035 section 2.3.4).
    #[error("name is longer than 255 bytes")]
    DomainNameTooLong,
    /// The data of a record does not have exactly its length (RFC 1035 section 4.1.3).
    #[error("record data does not have its stated length")]
    IncorrectRDataLengthRead,
    /// The data of a record is empty, which is allowed only in updates (RFC 2136 section 2.4).
    #[error("record data is empty, which is allowed only in updates")]
    InvalidEmptyRecord,
    /// An OPT record is not in the additional section (RFC 6891 section 6.1.1), or a TSIG record is not the last record of
    /// that section (RFC 8945 section 5.1).
    #[error("OPT or TSIG record in the wrong place")]
    RecordNotInAdditionalSection,
    /// A message has more than one OPT record (RFC 6891 section 6.1.1).
    #[error("more than one OPT record")]
    DuplicateEdns,
    /// The owner of an OPT record is not the root (RFC 6891 section 6.1.2).
    #[error("owner of an OPT record is not the root")]
    EdnsNameNotRoot,
    /// Memory could not be allocated.
    #[error("out of memory")]
    Memory,
}

impl From<AllocError> for DecodeError {
    ghost use Rattle.std.specs.Prelude.{◌≡◌};
    ghost use Rattle.dns_wire.specs.declared.error.DecodeError.TheVariants.{Memory};

    ghost from_gives = { λ _ e. e ≡ Memory };

    fn from(_e: AllocError) -> DecodeError {
        DecodeError::Memory
    }
}

impl<T: Drop> From<AllocFailed<T>> for DecodeError {
    ghost use Rattle.std.specs.Prelude.{◌≡◌};
    ghost use Rattle.dns_wire.specs.declared.error.DecodeError.TheVariants.{Memory};

    ghost from_gives = { λ _ e. e ≡ Memory };

    fn from(_e: AllocFailed<T>) -> DecodeError {
        DecodeError::Memory
    }
}

/// An error of encoding.
#[derive(Debug, Drop, Error)]
pub enum EncodeError {
    /// The write would exceed the maximum size of the buffer.
    #[error("maximum buffer size exceeded")]
    MaxBufferSizeExceeded,
    /// Memory could not be allocated.
    #[error("out of memory")]
    Memory,
}

impl From<AllocError> for EncodeError {
    ghost use Rattle.std.specs.Prelude.{◌≡◌};
    ghost use Rattle.dns_wire.specs.declared.error.EncodeError.TheVariants.{Memory};

    ghost from_gives = { λ _ e. e ≡ Memory };

    fn from(_e: AllocError) -> EncodeError {
        EncodeError::Memory
    }
}

impl<T: Drop> From<AllocFailed<T>> for EncodeError {
    ghost use Rattle.std.specs.Prelude.{◌≡◌};
    ghost use Rattle.dns_wire.specs.declared.error.EncodeError.TheVariants.{Memory};

    ghost from_gives = { λ _ e. e ≡ Memory };

    fn from(_e: AllocFailed<T>) -> EncodeError {
        EncodeError::Memory
    }
}

/// An error of encoding a list or a character string.
#[derive(Debug, Drop, Error)]
pub enum ProtoError {
    /// An item of a list did not fit, after `count` items that did.
    #[error("only {count} records fit the buffer")]
    NotAllRecordsWritten { count: usize },
    /// A character string is longer than 255 bytes (RFC 1035 section 3.3).
    #[error("character string of {len} bytes exceeds 255 bytes")]
    CharacterDataTooLong { len: usize },
    /// The write would exceed the maximum size of the buffer.
    #[error("maximum buffer size exceeded")]
    MaxBufferSizeExceeded,
    /// Memory could not be allocated.
    #[error("out of memory")]
    Memory,
}

impl From<EncodeError> for ProtoError {
    ghost use Rattle.std.specs.Prelude.{◌≡◌};
    ghost use Rattle.dns_wire.specs.Error.{proto_error};

    ghost from_gives = { λ error e. e ≡ proto_error error };

    fn from(error: EncodeError) -> ProtoError {
        match error {
            EncodeError::MaxBufferSizeExceeded => ProtoError::MaxBufferSizeExceeded,
            EncodeError::Memory => ProtoError::Memory,
        }
    }
}

impl From<AllocError> for ProtoError {
    ghost use Rattle.std.specs.Prelude.{◌≡◌};
    ghost use Rattle.dns_wire.specs.declared.error.ProtoError.TheVariants.{Memory};

    ghost from_gives = { λ _ e. e ≡ Memory };

    fn from(_e: AllocError) -> ProtoError {
        ProtoError::Memory
    }
}
