//! Why the tokens of record data are refused.

use dns_fields::location::LocationFault;
use dns_fields::service::ServiceFault;
use dns_names::ParseError;
use std::alloc::{AllocError, AllocFailed};
use thiserror::Error;

/// Why a token is not a value of its field.
#[derive(Clone, Copy, Debug, PartialEq, Eq, Error)]
pub enum TokenFault {
    /// The field takes a word, which is neither quoted nor `@`.
    #[error("not a word")]
    NotAWord,
    /// The word is not a decimal number, or is one that the field has no bits for.
    #[error("not a number of this field")]
    NotANumber,
    /// A backslash is not followed by an escape (RFC 1035 section 5.1).
    #[error("invalid escape")]
    InvalidEscape,
    /// A character string is longer than 255 bytes (RFC 1035 section 3.3).
    #[error("string is longer than 255 bytes")]
    StringTooLong,
    /// The tag of a property is empty, or has a character that is neither a letter nor a digit (RFC 8659 section 4.1).
    #[error("not a tag of letters and digits")]
    NotATag,
    /// A name is relative, and there is no origin to complete it.
    #[error("relative name without an origin")]
    RelativeName,
    /// A label of a name is longer than 63 bytes (RFC 1035 section 2.3.4).
    #[error("label is longer than 63 bytes")]
    LabelTooLong,
    /// A label of a name is empty.
    #[error("empty label")]
    EmptyLabel,
    /// A name is longer than 255 bytes, perhaps with the origin (RFC 1035 section 2.3.4).
    #[error("name is longer than 255 bytes")]
    NameTooLong,
    /// The character of a name at this byte offset is not allowed there, or is not a valid escape.
    #[error("invalid name at byte {0}")]
    InvalidName(usize),
    /// The word is neither the name of a type nor `TYPE` and a number (RFC 3597 section 5).
    #[error("not a record type")]
    NotAType,
    /// The word is neither seconds since 1970 nor a date of the form `YYYYMMDDHHmmSS` (RFC 4034 section 3.2).
    #[error("not a time")]
    NotATime,
    /// The words are not pairs of hexadecimal digits, or there is none.
    #[error("not pairs of hexadecimal digits")]
    NotHex,
    /// The words are not base64 with its padding (RFC 4648 section 4), or there is none.
    #[error("not base64")]
    NotBase64,
    /// The word is not base32hex without padding (RFC 5155 section 3.3).
    #[error("not base32hex")]
    NotBase32,
    /// The word is neither a decimal number that the field has bits for, nor one of its mnemonics.
    #[error("neither a number of this field nor a mnemonic")]
    NotAMnemonic,
    /// A parameter of a service binding is refused (RFC 9460).
    #[error("{0}")]
    Parameter(ServiceFault),
    /// The parameters of a service binding don't belong together: a mandatory one is missing, `no-default-alpn` is without
    /// `alpn`, or a value has not the form of its key (RFC 9460 sections 7 and 8).
    #[error("the parameters are not those of a service binding")]
    NotParameters,
    /// The tokens are not a location (RFC 1876 section 3).
    #[error("{0}")]
    Location(LocationFault),
    /// Memory could not be allocated.
    #[error("out of memory")]
    Memory,
}

/// Why the tokens of record data are refused. Tokens are counted from 0.
#[derive(Clone, Copy, Debug, PartialEq, Eq, Error)]
pub enum FormatFault {
    /// The type has no text form but the generic one (RFC 3597 section 5).
    #[error("record data of this type has no text form but the generic one")]
    NoFormat,
    /// The data ends before this token, and a field has no token.
    #[error("record data ends before its last field, at token {0}")]
    MissingToken(usize),
    /// This token follows the last field.
    #[error("unexpected token {0} after record data")]
    UnexpectedToken(usize),
    /// This token is not a value of its field, or is the first token of a field that is refused as a whole.
    #[error("token {0}: {1}")]
    InvalidToken(usize, TokenFault),
    /// The generic form has more or fewer bytes than it says.
    #[error("generic form has another number of bytes than it says")]
    WrongLength,
    /// The bytes of a generic form are not data of the type.
    #[error("bytes are not data of this type")]
    NotOfType,
    /// The data is longer than 65,535 bytes (RFC 1035 section 3.2.1).
    #[error("record data is longer than 65535 bytes")]
    TooLong,
    /// Memory could not be allocated.
    #[error("out of memory")]
    Memory,
}

impl From<AllocError> for TokenFault {
    ghost use Rattle.std.specs.Prelude.{◌≡◌};
    ghost use Rattle.dns_formats.specs.declared.fault.TokenFault.TheVariants.{Memory};

    ghost from_gives = { λ _ fault. fault ≡ Memory };

    fn from(_e: AllocError) -> TokenFault {
        TokenFault::Memory
    }
}

impl<T: Drop> From<AllocFailed<T>> for TokenFault {
    ghost use Rattle.std.specs.Prelude.{◌≡◌};
    ghost use Rattle.dns_formats.specs.declared.fault.TokenFault.TheVariants.{Memory};

    ghost from_gives = { λ _ fault. fault ≡ Memory };

    fn from(_e: AllocFailed<T>) -> TokenFault {
        TokenFault::Memory
    }
}

impl From<ParseError> for TokenFault {
    ghost use Rattle.std.specs.Prelude.{◌≡◌};
    ghost use Rattle.dns_formats.specs.Fault.{name_fault};

    ghost from_gives = { λ error fault. fault ≡ name_fault error };

    fn from(error: ParseError) -> TokenFault {
        match error {
            ParseError::LabelBytesTooLong => TokenFault::LabelTooLong,
            ParseError::EmptyLabel => TokenFault::EmptyLabel,
            ParseError::DomainNameTooLong => TokenFault::NameTooLong,
            ParseError::Text(place) => TokenFault::InvalidName(place),
            // The name had no memory.
            ParseError::Memory => TokenFault::Memory,
        }
    }
}

impl TokenFault {
    ghost use Rattle.std.specs.Prelude.{◌≡◌};
    ghost use Rattle.dns_formats.specs.Fault.{fault_at};

    /// Returns the fault with the number of the token.
    pub(crate) fn at(self, token: usize) -> FormatFault
        ensures { result ≡ fault_at token self }
    {
        match self {
            // The field had no memory.
            TokenFault::Memory => FormatFault::Memory,
            fault => FormatFault::InvalidToken(token, fault),
        }
    }
}
