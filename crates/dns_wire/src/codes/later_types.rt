//! The tables of the types that are later than RFC 1035, and of the reserved number 0.

ghost use Rattle.std.specs.Prelude.{◌≡◌};
ghost use Rattle.dns_wire.specs.codes.CodeText.{later_type_name};
ghost use Rattle.dns_wire.specs.codes.RecordType.{later_type_number, later_type_of};

use crate::codes::record_type::RecordType;

/// Returns the name in capitals, or an empty text for any other type.
pub(crate) fn later_name(kind: RecordType) -> &'static str
    ensures { result.now ≡ later_type_name kind }
{
    match kind {
        RecordType::SIG => "SIG",
        RecordType::KEY => "KEY",
        RecordType::AAAA => "AAAA",
        RecordType::SRV => "SRV",
        RecordType::NAPTR => "NAPTR",
        RecordType::CERT => "CERT",
        RecordType::DNAME => "DNAME",
        RecordType::OPT => "OPT",
        RecordType::DS => "DS",
        RecordType::SSHFP => "SSHFP",
        RecordType::RRSIG => "RRSIG",
        RecordType::NSEC => "NSEC",
        RecordType::DNSKEY => "DNSKEY",
        RecordType::NSEC3 => "NSEC3",
        RecordType::NSEC3PARAM => "NSEC3PARAM",
        RecordType::TLSA => "TLSA",
        RecordType::SMIMEA => "SMIMEA",
        RecordType::CDS => "CDS",
        RecordType::CDNSKEY => "CDNSKEY",
        RecordType::OPENPGPKEY => "OPENPGPKEY",
        RecordType::CSYNC => "CSYNC",
        RecordType::SVCB => "SVCB",
        RecordType::HTTPS => "HTTPS",
        RecordType::TSIG => "TSIG",
        RecordType::IXFR => "IXFR",
        RecordType::CAA => "CAA",
        RecordType::ZERO => "ZERO",
        _ => "",
    }
}

/// Returns the type with this number, or `Unknown`.
pub(crate) fn later_type(number: u16) -> RecordType
    ensures { result ≡ later_type_of number }
{
    match number {
        24 => RecordType::SIG,
        25 => RecordType::KEY,
        28 => RecordType::AAAA,
        33 => RecordType::SRV,
        35 => RecordType::NAPTR,
        37 => RecordType::CERT,
        39 => RecordType::DNAME,
        41 => RecordType::OPT,
        43 => RecordType::DS,
        44 => RecordType::SSHFP,
        46 => RecordType::RRSIG,
        47 => RecordType::NSEC,
        48 => RecordType::DNSKEY,
        50 => RecordType::NSEC3,
        51 => RecordType::NSEC3PARAM,
        52 => RecordType::TLSA,
        53 => RecordType::SMIMEA,
        59 => RecordType::CDS,
        60 => RecordType::CDNSKEY,
        61 => RecordType::OPENPGPKEY,
        62 => RecordType::CSYNC,
        64 => RecordType::SVCB,
        65 => RecordType::HTTPS,
        250 => RecordType::TSIG,
        251 => RecordType::IXFR,
        257 => RecordType::CAA,
        0 => RecordType::ZERO,
        _ => RecordType::Unknown(number),
    }
}

/// Returns the number, or 0 for any other type.
pub(crate) fn later_number(kind: RecordType) -> u16
    ensures { result ≡ later_type_number kind }
{
    match kind {
        RecordType::SIG => 24,
        RecordType::KEY => 25,
        RecordType::AAAA => 28,
        RecordType::SRV => 33,
        RecordType::NAPTR => 35,
        RecordType::CERT => 37,
        RecordType::DNAME => 39,
        RecordType::OPT => 41,
        RecordType::DS => 43,
        RecordType::SSHFP => 44,
        RecordType::RRSIG => 46,
        RecordType::NSEC => 47,
        RecordType::DNSKEY => 48,
        RecordType::NSEC3 => 50,
        RecordType::NSEC3PARAM => 51,
        RecordType::TLSA => 52,
        RecordType::SMIMEA => 53,
        RecordType::CDS => 59,
        RecordType::CDNSKEY => 60,
        RecordType::OPENPGPKEY => 61,
        RecordType::CSYNC => 62,
        RecordType::SVCB => 64,
        RecordType::HTTPS => 65,
        RecordType::TSIG => 250,
        RecordType::IXFR => 251,
        RecordType::CAA => 257,
        RecordType::Unknown(number) => number,
        _ => 0,
    }
}
