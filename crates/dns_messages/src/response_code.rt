//! Response codes (RFC 1035 section 4.1.1, RFC 6895 section 2.3).

ghost use Rattle.std.specs.Prelude.{◌≡◌, ◌%◌, ◌↔◌, ℕ, Some};
ghost use Rattle.dns_messages.specs.ResponseCode.{code_number, code_of, code_low, code_high, code_from_parts, code_name, code_text, IsDecodedCode};
ghost use Rattle.dns_messages.specs.declared.response_code.ResponseCode.{ResponseCode};

use std::fmt;

/// The outcome of a request: RCODE.
///
/// The header has four bits for it. With EDNS it has twelve, and the upper eight are in the OPT record (RFC 6891
/// section 6.1.3); a TSIG or TKEY record has a code of sixteen bits.
#[derive(Clone, Copy, Debug, PartialEq, Eq)]
pub enum ResponseCode {
    /// No error, 0.
    NoError,
    /// The query could not be interpreted, 1.
    FormErr,
    /// The server failed, 2.
    ServFail,
    /// The name does not exist, 3.
    NXDomain,
    /// The server does not support this kind of query, 4.
    NotImp,
    /// The server refuses the operation, 5.
    Refused,
    /// A name exists when it should not (RFC 2136), 6.
    YXDomain,
    /// An RRset exists when it should not (RFC 2136), 7.
    YXRRSet,
    /// An RRset that should exist does not (RFC 2136), 8.
    NXRRSet,
    /// The server is not authoritative for the zone (RFC 2136), or the request is not authorized
    /// (RFC 8945), 9.
    NotAuth,
    /// A name is not within the zone (RFC 2136), 10.
    NotZone,
    /// The version of EDNS is not supported (RFC 6891), 16. `BADSIG` has the same number, and is
    /// the variant that it decodes to.
    BADVERS,
    /// The signature of a transaction is invalid (RFC 8945), 16.
    BADSIG,
    /// The key is not recognized (RFC 8945), 17.
    BADKEY,
    /// The signature is out of its time window (RFC 8945), 18.
    BADTIME,
    /// The mode of TKEY is not supported (RFC 2930), 19.
    BADMODE,
    /// The name of a key is a duplicate (RFC 2930), 20.
    BADNAME,
    /// The algorithm is not supported (RFC 2930), 21.
    BADALG,
    /// The signature is truncated too far (RFC 8945), 22.
    BADTRUNC,
    /// The server cookie is missing or invalid (RFC 7873), 23.
    BADCOOKIE,
    /// Any other code, by its number.
    Unknown(u16),
}

impl ResponseCode {
    /// Returns the code with these upper eight and lowest four bits. Only the lowest four bits of `low` are used.
    pub fn from_high_low(high: u8, low: u8) -> ResponseCode
        ensures { result ≡ code_from_parts high low }
    {
        ResponseCode::from(16 * u16::from(high) + u16::from(low % 16))
    }

    /// Returns the code with these lowest four bits, the code of a message without EDNS.
    pub fn from_low(low: u8) -> ResponseCode
        ensures { result ≡ code_of (low % 16) }
    {
        ResponseCode::from(u16::from(low % 16))
    }

    /// Returns the lowest four bits of the number, which the header encodes.
    pub fn low(&self) -> u8
        ensures { result ≡ code_low self.now }
    {
        (u16::from(*self) % 16) as u8
    }

    /// Returns the upper eight of the lowest twelve bits of the number, which the OPT record encodes.
    pub fn high(&self) -> u8
        ensures { result ≡ code_high self.now }
    {
        (u16::from(*self) / 16 % 256) as u8
    }

    /// Returns the name, or an empty text for a code without a name.
    pub fn to_str(&self) -> &'static str
        ensures { result.now ≡ code_name self.now }
    {
        match self {
            ResponseCode::NoError => "NoError",
            ResponseCode::FormErr => "FormErr",
            ResponseCode::ServFail => "ServFail",
            ResponseCode::NXDomain => "NXDomain",
            ResponseCode::NotImp => "NotImp",
            ResponseCode::Refused => "Refused",
            ResponseCode::YXDomain => "YXDomain",
            ResponseCode::YXRRSet => "YXRRSet",
            ResponseCode::NXRRSet => "NXRRSet",
            ResponseCode::NotAuth => "NotAuth",
            ResponseCode::NotZone => "NotZone",
            ResponseCode::BADVERS => "BADVERS",
            ResponseCode::BADSIG => "BADSIG",
            ResponseCode::BADKEY => "BADKEY",
            ResponseCode::BADTIME => "BADTIME",
            ResponseCode::BADMODE => "BADMODE",
            ResponseCode::BADNAME => "BADNAME",
            ResponseCode::BADALG => "BADALG",
            ResponseCode::BADTRUNC => "BADTRUNC",
            ResponseCode::BADCOOKIE => "BADCOOKIE",
            ResponseCode::Unknown(_) => "",
        }
    }
}

impl From<u16> for ResponseCode {
    ghost use Rattle.std.specs.Prelude.{◌≡◌};
    ghost use Rattle.dns_messages.specs.ResponseCode.{code_of};

    ghost from_gives = { λ number code. code ≡ code_of number };

    /// Returns the code with this number: for 16, `BADSIG`.
    fn from(number: u16) -> ResponseCode {
        match number {
            0 => ResponseCode::NoError,
            1 => ResponseCode::FormErr,
            2 => ResponseCode::ServFail,
            3 => ResponseCode::NXDomain,
            4 => ResponseCode::NotImp,
            5 => ResponseCode::Refused,
            6 => ResponseCode::YXDomain,
            7 => ResponseCode::YXRRSet,
            8 => ResponseCode::NXRRSet,
            9 => ResponseCode::NotAuth,
            10 => ResponseCode::NotZone,
            16 => ResponseCode::BADSIG,
            17 => ResponseCode::BADKEY,
            18 => ResponseCode::BADTIME,
            19 => ResponseCode::BADMODE,
            20 => ResponseCode::BADNAME,
            21 => ResponseCode::BADALG,
            22 => ResponseCode::BADTRUNC,
            23 => ResponseCode::BADCOOKIE,
            _ => ResponseCode::Unknown(number),
        }
    }
}

impl From<ResponseCode> for u16 {
    ghost use Rattle.std.specs.Prelude.{◌≡◌};
    ghost use Rattle.dns_messages.specs.ResponseCode.{code_number};

    ghost from_gives = { λ code number. number ≡ code_number code };

    fn from(code: ResponseCode) -> u16 {
        match code {
            ResponseCode::NoError => 0,
            ResponseCode::FormErr => 1,
            ResponseCode::ServFail => 2,
            ResponseCode::NXDomain => 3,
            ResponseCode::NotImp => 4,
            ResponseCode::Refused => 5,
            ResponseCode::YXDomain => 6,
            ResponseCode::YXRRSet => 7,
            ResponseCode::NXRRSet => 8,
            ResponseCode::NotAuth => 9,
            ResponseCode::NotZone => 10,
            ResponseCode::BADVERS | ResponseCode::BADSIG => 16,
            ResponseCode::BADKEY => 17,
            ResponseCode::BADTIME => 18,
            ResponseCode::BADMODE => 19,
            ResponseCode::BADNAME => 20,
            ResponseCode::BADALG => 21,
            ResponseCode::BADTRUNC => 22,
            ResponseCode::BADCOOKIE => 23,
            ResponseCode::Unknown(number) => number,
        }
    }
}

impl fmt::Display for ResponseCode {
    ghost output = { λ code. Some (code_text code) };

    /// Writes the name, or `CODE` and the number if it has none.
    fn fmt<W: fmt::Write>(&self, f: &mut fmt::Formatter<W>) -> fmt::Result {
        match self {
            ResponseCode::Unknown(number) => write!(f, "CODE{number}"),
            _ => f.write_str(self.to_str()),
        }
    }
}

/// Every 16-bit number round-trips through `ResponseCode`.
pub fn code_number_round_trips()
    ensures { (number : ℕ) → code_number (code_of number) ≡ number }
{}

/// The number of a code decodes to that code, unless it is `BADVERS`, or `Unknown` with the number of a code that has
/// a name.
pub fn decoded_codes_round_trip()
    ensures { (code : ResponseCode) → (code_of (code_number code) ≡ code) ↔ IsDecodedCode code }
{}

/// The two parts of a code, in the OPT record and in the header, are the code's lowest twelve bits (RFC 6891 section
/// 6.1.3).
pub fn code_parts_round_trip()
    ensures { (code : ResponseCode)
        → code_number (code_from_parts (code_high code) (code_low code)) ≡ code_number code % 4096 }
{}
