//! Why a reply is refused.

ghost use Rattle.std.specs.Prelude.{◌≡◌};
ghost use Rattle.dns_tsig.specs.signer.Refusal.{error_of_code};

use thiserror::Error;

/// An error that a server reports in a TSIG record (RFC 8945 section 3).
#[derive(Clone, Copy, Debug, PartialEq, Eq, Drop, Error)]
pub enum TsigError {
    /// The server could not verify the code of the request.
    #[error("BADSIG: the key has another secret there")]
    BadSig,
    /// The server does not know the key.
    #[error("BADKEY: the server does not know the key")]
    BadKey,
    /// The clock of the server is not within the fudge of the time of signing.
    #[error("BADTIME: the clocks differ")]
    BadTime,
    /// The code of the request was too short for the server.
    #[error("BADTRUNC: the code is too short")]
    BadTrunc,
    /// Another error.
    #[error("TSIG error {0}")]
    Other(u16),
}

impl TsigError {
    /// Returns the error of a code, or `None` if it is 0, which is none.
    pub fn of_code(code: u16) -> Option<TsigError>
        ensures { result ≡ error_of_code code }
    {
        match code {
            0 => None,
            16 => Some(TsigError::BadSig),
            17 => Some(TsigError::BadKey),
            18 => Some(TsigError::BadTime),
            22 => Some(TsigError::BadTrunc),
            code => Some(TsigError::Other(code)),
        }
    }
}

/// Why a reply to a signed request is refused. Each such reply may be forged.
#[derive(Clone, Copy, Debug, PartialEq, Eq, Drop, Error)]
pub enum Refusal {
    /// The reply has no TSIG record.
    #[error("the reply is not signed")]
    Unsigned,
    /// The TSIG record cannot be read, or is not the last record.
    #[error("the signature of the reply cannot be read")]
    Unreadable,
    /// The reply has the name or the algorithm of another key.
    #[error("the reply is signed with another key")]
    OtherKey,
    /// The TSIG record has an error of the server and no code, so that anyone may have sent it (RFC 8945 section 5.3.2).
    #[error("a reply that is not signed says {0}")]
    Reported(TsigError),
    /// The code is longer than that of the algorithm, or shorter than is ever allowed (RFC 8945 section 5.2.2.1).
    #[error("the signature of the reply has a wrong length")]
    WrongLength,
    /// The code is not that of the reply to the request (RFC 8945 section 5.2.2).
    #[error("the signature of the reply is wrong")]
    WrongCode,
    /// The reply was not signed within the fudge of the clock (RFC 8945 section 5.2.3).
    #[error("the reply was signed at another time: the clocks differ, or it is replayed")]
    WrongTime,
    /// The code is shorter than that of the algorithm (RFC 8945 section 5.2.4).
    #[error("the signature of the reply is truncated")]
    Truncated,
}
