//! Types of records and questions (RFC 1035 sections 3.2.2 and 3.2.3, and later types of the IANA registry).

ghost use Rattle.std.specs.Prelude.{◌≡◌, Some, find};
ghost use Rattle.std.specs.Str.{str_eq_ignore_ascii_case};
ghost use Rattle.dns_wire.specs.codes.CodeText.{type_name, type_text, type_of_text};

use crate::codes::code_text::{CodeTextError, is_same_word, parse_numbered};
use crate::codes::later_types::{later_name, later_number, later_type};
use std::fmt;
use std::str::FromStr;

/// A type of a record or a question.
///
/// Types are equal if their numbers are: `Unknown(1)` equals `A` (RFC 3597 section 3).
#[derive(Clone, Copy, Debug)]
pub enum RecordType {
    /// An address of IPv4, 1.
    A,
    /// A name server, 2.
    NS,
    /// The canonical name of an alias, 5.
    CNAME,
    /// The start of a zone's authority, 6.
    SOA,
    /// Arbitrary bytes, 10.
    NULL,
    /// A pointer to a name, 12.
    PTR,
    /// A host's hardware and system, 13.
    HINFO,
    /// A mail exchange, 15.
    MX,
    /// Texts, 16.
    TXT,
    /// A signature (RFC 2535), 24.
    SIG,
    /// A public key (RFC 2535), 25.
    KEY,
    /// An address of IPv6 (RFC 3596), 28.
    AAAA,
    /// A service's location (RFC 2782), 33.
    SRV,
    /// A rule that rewrites names (RFC 3403), 35.
    NAPTR,
    /// A certificate (RFC 4398), 37.
    CERT,
    /// A redirection of all names below a name (RFC 6672), 39.
    DNAME,
    /// The extension of a message (RFC 6891), 41.
    OPT,
    /// A delegation's signer (RFC 4034), 43.
    DS,
    /// A host key's fingerprint (RFC 4255), 44.
    SSHFP,
    /// A signature of a record set (RFC 4034), 46.
    RRSIG,
    /// The next secure name (RFC 4034), 47.
    NSEC,
    /// A zone's public key (RFC 4034), 48.
    DNSKEY,
    /// The next hashed name (RFC 5155), 50.
    NSEC3,
    /// How names are hashed (RFC 5155), 51.
    NSEC3PARAM,
    /// A certificate's association (RFC 6698), 52.
    TLSA,
    /// A mail certificate's association (RFC 8162), 53.
    SMIMEA,
    /// A child's delegation signer (RFC 7344), 59.
    CDS,
    /// A child's public key (RFC 7344), 60.
    CDNSKEY,
    /// An OpenPGP key (RFC 7929), 61.
    OPENPGPKEY,
    /// What a parent is to copy (RFC 7477), 62.
    CSYNC,
    /// A service's binding (RFC 9460), 64.
    SVCB,
    /// A binding for HTTPS (RFC 9460), 65.
    HTTPS,
    /// A transaction's signature (RFC 8945), 250.
    TSIG,
    /// A question for a zone's changes (RFC 1995), 251.
    IXFR,
    /// A request for a whole zone, 252.
    AXFR,
    /// A request for records of any type, 255.
    ANY,
    /// Who may issue certificates (RFC 8659), 257.
    CAA,
    /// The number 0, which is reserved (RFC 2931).
    ZERO,
    /// Any other type, by its number.
    Unknown(u16),
}

impl RecordType {
    ghost use Rattle.std.specs.Prelude.{◌≡◌, ◌⊎◌, ◌↔◌, IsTrue};
    ghost use Rattle.dns_wire.specs.codes.RecordType.{is_dnssec_type};

    /// Returns the name in capitals, or an empty text for a type without a name.
    pub fn name(self) -> &'static str
        ensures { result.now ≡ type_name self }
    {
        match self {
            RecordType::A => "A",
            RecordType::NS => "NS",
            RecordType::CNAME => "CNAME",
            RecordType::SOA => "SOA",
            RecordType::NULL => "NULL",
            RecordType::PTR => "PTR",
            RecordType::HINFO => "HINFO",
            RecordType::MX => "MX",
            RecordType::TXT => "TXT",
            RecordType::AXFR => "AXFR",
            RecordType::ANY => "ANY",
            _ => later_name(self),
        }
    }

    /// Returns `true` for `ANY`.
    pub fn is_any(self) -> bool
        ensures { IsTrue result ↔ (self ≡ RecordType.ANY) }
    {
        matches!(self, RecordType::ANY)
    }

    /// Returns `true` for `CERT`.
    pub fn is_cert(self) -> bool
        ensures { IsTrue result ↔ (self ≡ RecordType.CERT) }
    {
        matches!(self, RecordType::CERT)
    }

    /// Returns `true` for `CNAME`.
    pub fn is_cname(self) -> bool
        ensures { IsTrue result ↔ (self ≡ RecordType.CNAME) }
    {
        matches!(self, RecordType::CNAME)
    }

    /// Returns `true` for `NS`.
    pub fn is_ns(self) -> bool
        ensures { IsTrue result ↔ (self ≡ RecordType.NS) }
    {
        matches!(self, RecordType::NS)
    }

    /// Returns `true` for `SOA`.
    pub fn is_soa(self) -> bool
        ensures { IsTrue result ↔ (self ≡ RecordType.SOA) }
    {
        matches!(self, RecordType::SOA)
    }

    /// Returns `true` for `SRV`.
    pub fn is_srv(self) -> bool
        ensures { IsTrue result ↔ (self ≡ RecordType.SRV) }
    {
        matches!(self, RecordType::SRV)
    }

    /// Returns `true` for `RRSIG`.
    pub fn is_rrsig(self) -> bool
        ensures { IsTrue result ↔ (self ≡ RecordType.RRSIG) }
    {
        matches!(self, RecordType::RRSIG)
    }

    /// Returns `true` for `ZERO`.
    pub fn is_zero(self) -> bool
        ensures { IsTrue result ↔ (self ≡ RecordType.ZERO) }
    {
        matches!(self, RecordType::ZERO)
    }

    /// Returns `true` for `A` and `AAAA`.
    pub fn is_ip_addr(self) -> bool
        ensures { IsTrue result ↔ ((self ≡ RecordType.A) ⊎ (self ≡ RecordType.AAAA)) }
    {
        matches!(self, RecordType::A | RecordType::AAAA)
    }

    /// Returns `true` if records of this type belong to DNSSEC (RFC 2535, RFC 4034, RFC 5155, RFC 7344).
    pub fn is_dnssec(self) -> bool
        ensures { result ≡ is_dnssec_type self }
    {
        matches!(
            self,
            RecordType::SIG
                | RecordType::KEY
                | RecordType::DS
                | RecordType::RRSIG
                | RecordType::NSEC
                | RecordType::DNSKEY
                | RecordType::NSEC3
                | RecordType::NSEC3PARAM
                | RecordType::CDS
                | RecordType::CDNSKEY
        )
    }
}

impl From<u16> for RecordType {
    ghost use Rattle.std.specs.Prelude.{◌≡◌};
    ghost use Rattle.dns_wire.specs.codes.RecordType.{type_of};

    ghost from_gives = { λ number kind. kind ≡ type_of number };

    fn from(number: u16) -> RecordType {
        match number {
            1 => RecordType::A,
            2 => RecordType::NS,
            5 => RecordType::CNAME,
            6 => RecordType::SOA,
            10 => RecordType::NULL,
            12 => RecordType::PTR,
            13 => RecordType::HINFO,
            15 => RecordType::MX,
            16 => RecordType::TXT,
            252 => RecordType::AXFR,
            255 => RecordType::ANY,
            _ => later_type(number),
        }
    }
}

impl From<RecordType> for u16 {
    ghost use Rattle.std.specs.Prelude.{◌≡◌};
    ghost use Rattle.dns_wire.specs.codes.RecordType.{type_number};

    ghost from_gives = { λ kind number. number ≡ type_number kind };

    fn from(kind: RecordType) -> u16 {
        match kind {
            RecordType::A => 1,
            RecordType::NS => 2,
            RecordType::CNAME => 5,
            RecordType::SOA => 6,
            RecordType::NULL => 10,
            RecordType::PTR => 12,
            RecordType::HINFO => 13,
            RecordType::MX => 15,
            RecordType::TXT => 16,
            RecordType::AXFR => 252,
            RecordType::ANY => 255,
            _ => later_number(kind),
        }
    }
}

impl PartialEq for RecordType {
    ghost use Rattle.std.specs.Cmp.{nat_eq_equiv, on_equiv, partial_equiv_from_equiv};
    ghost use Rattle.dns_wire.specs.codes.RecordType.{same_type, type_number};

    ghost eq = { same_type };

    ghost laws = { partial_equiv_from_equiv (on_equiv type_number nat_eq_equiv) };

    /// Returns `true` if the numbers are equal.
    fn eq(&self, other: &RecordType) -> bool {
        u16::from(*self) == u16::from(*other)
    }
}

impl Eq for RecordType {
    ghost use Rattle.std.specs.Cmp.{nat_eq_equiv, on_equiv};
    ghost use Rattle.dns_wire.specs.codes.RecordType.{type_number};

    ghost laws = { on_equiv type_number nat_eq_equiv };
}

impl RecordType {
    ghost use Rattle.dns_wire.specs.codes.RecordType.{type_number, type_of};

    /// Returns the variant that the type's number decodes to: `Unknown(1)` becomes `A` (RFC 3597 section 3).
    pub fn canonical(self) -> RecordType
        ensures { result ≡ type_of (type_number self) }
    {
        RecordType::from(u16::from(self))
    }
}

/// The types that have a name.
const NAMED: [RecordType; 38] = [
    RecordType::A,
    RecordType::NS,
    RecordType::CNAME,
    RecordType::SOA,
    RecordType::NULL,
    RecordType::PTR,
    RecordType::HINFO,
    RecordType::MX,
    RecordType::TXT,
    RecordType::SIG,
    RecordType::KEY,
    RecordType::AAAA,
    RecordType::SRV,
    RecordType::NAPTR,
    RecordType::CERT,
    RecordType::DNAME,
    RecordType::OPT,
    RecordType::DS,
    RecordType::SSHFP,
    RecordType::RRSIG,
    RecordType::NSEC,
    RecordType::DNSKEY,
    RecordType::NSEC3,
    RecordType::NSEC3PARAM,
    RecordType::TLSA,
    RecordType::SMIMEA,
    RecordType::CDS,
    RecordType::CDNSKEY,
    RecordType::OPENPGPKEY,
    RecordType::CSYNC,
    RecordType::SVCB,
    RecordType::HTTPS,
    RecordType::TSIG,
    RecordType::IXFR,
    RecordType::AXFR,
    RecordType::ANY,
    RecordType::CAA,
    RecordType::ZERO,
];

/// Returns the type that a text names, in any case.
fn find_named(types: &[RecordType], text: &[u8]) -> Option<RecordType>
    ensures { result ≡ find (λ kind. str_eq_ignore_ascii_case (type_name kind) text.now) types.now }
{
    types
        .iter()
        .copied()
        .find(|kind| is_same_word(kind.name().as_bytes(), text))
}

impl RecordType {
    ghost use Rattle.dns_wire.specs.codes.CodeText.{type_of_text};

    /// Parses a type from bytes: a name in any case, or `TYPE` and a number (RFC 3597 section 5).
    pub fn from_ascii_bytes(text: &[u8]) -> Option<RecordType>
        ensures { result ≡ type_of_text text.now }
    {
        if let Some(kind) = find_named(&NAMED, text) {
            return Some(kind);
        }
        let number = parse_numbered(b"TYPE".as_slice(), text)?;
        Some(RecordType::from(number))
    }
}

impl FromStr for RecordType {
    type Err = CodeTextError;

    ghost use Rattle.std.specs.Prelude.{◌≡◌, ok_or};
    ghost use Rattle.dns_wire.specs.codes.CodeText.{type_of_text};
    ghost use Rattle.dns_wire.specs.declared.codes.code_text.CodeTextError.TheVariants.{UnknownName};

    ghost from_str_gives = { λ text result. result ≡ ok_or (type_of_text text) UnknownName };

    /// Parses a type: a name in any case, or `TYPE` and a number (RFC 3597 section 5).
    fn from_str(text: &str) -> Result<RecordType, CodeTextError> {
        RecordType::from_ascii_bytes(text.as_bytes()).ok_or(CodeTextError::UnknownName)
    }
}

impl fmt::Display for RecordType {
    ghost output = { λ kind. Some (type_text kind) };

    /// Writes the name in capitals, or `TYPE` and the number if it has none (RFC 3597 section 5).
    fn fmt<W: fmt::Write>(&self, f: &mut fmt::Formatter<W>) -> fmt::Result {
        match self {
            RecordType::Unknown(number) => write!(f, "TYPE{number}"),
            _ => f.write_str(self.name()),
        }
    }
}
