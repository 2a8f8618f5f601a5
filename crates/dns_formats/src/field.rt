//! The fields of record data, by its type.

ghost use Rattle.std.specs.Prelude.{◌≡◌, map, option_map};
ghost use Rattle.dns_wire.specs.codes.RecordType.{type_number};
ghost use Rattle.dns_formats.specs.Field.{takes_rest, may_be_empty, fields_among, fields_of};

use dns_wire::codes::RecordType;

/// A kind of field: how a value is written in text, and which bytes it has.
#[derive(Clone, Copy, Debug, PartialEq, Eq)]
pub enum Field {
    /// A decimal number of 8 bits.
    Number8,
    /// A decimal number of 16 bits.
    Number16,
    /// A decimal number of 32 bits.
    Number32,
    /// A name, which the origin completes if it is relative. It is never compressed (RFC 3597 section 4).
    Name,
    /// A character string: a word or a quoted string of at most 255 bytes (RFC 1035 section 3.3).
    CharacterString,
    /// A tag of letters and digits, after its length (RFC 8659 section 4.1).
    Tag,
    /// A word or a quoted string whose bytes extend to the end of the data (RFC 7553 section 4.4, RFC 8659 section 4.1).
    Text,
    /// A record type by its name, or `TYPE` and its number (RFC 3597 section 5).
    RecordType,
    /// A time of 32 bits, in seconds since 1970 or as `YYYYMMDDHHmmSS` (RFC 4034 section 3.2).
    Time,
    /// A salt in hexadecimal digits in one word, or `-`, after its length (RFC 5155 section 3.3).
    Salt,
    /// An algorithm of DNSSEC: a decimal number of 8 bits, or a mnemonic (RFC 4034 appendix A.1).
    Algorithm,
    /// A type of certificates: a decimal number of 16 bits, or a mnemonic (RFC 4398 section 2.1).
    CertificateType,
    /// A hash in base32hex without padding in one word, after its length (RFC 5155 section 3.3).
    Hash,
    /// Hexadecimal digits in any number of words, whose bytes extend to the end of the data.
    Hex,
    /// Base64 in any number of words, whose bytes extend to the end of the data (RFC 4648 section 4).
    Base64,
    /// Record types, perhaps none, as a bitmap that extends to the end of the data (RFC 4034 section 4.1.2).
    Types,
    /// Parameters of a service binding, perhaps none, which extend to the end of the data (RFC 9460 sections 2.1 and 2.2).
    Parameters,
    /// A location in several tokens, which is all data of its type (RFC 1876 sections 2 and 3).
    Location,
}

impl Field {
    /// Returns `true` if the field takes all tokens that are left.
    pub fn takes_rest(self) -> bool
        ensures { result ≡ takes_rest self }
    {
        matches!(
            self,
            Field::Hex | Field::Base64 | Field::Types | Field::Parameters | Field::Location
        )
    }

    /// Returns `true` if the field may have no token at all.
    pub fn may_be_empty(self) -> bool
        ensures { result ≡ may_be_empty self }
    {
        matches!(self, Field::Types | Field::Parameters)
    }
}

use Field::{
    Algorithm, Base64, CertificateType, CharacterString, Hash, Hex, Location, Name, Number8,
    Number16, Number32, Parameters, Salt, Tag, Text, Time, Types,
};

/// The fields of each type, by its number. A type of known kinds is one line here, and nothing else.
const FORMATS: &[(u16, &[Field])] = &[
    // HINFO (RFC 1035 section 3.3.2)
    (13, &[CharacterString, CharacterString]),
    // RP (RFC 1183 section 2.2)
    (17, &[Name, Name]),
    // AFSDB (RFC 1183 section 1)
    (18, &[Number16, Name]),
    // RT (RFC 1183 section 3.3)
    (21, &[Number16, Name]),
    // LOC (RFC 1876 section 3)
    (29, &[Location]),
    // NAPTR (RFC 3403 section 4.1)
    (
        35,
        &[
            Number16,
            Number16,
            CharacterString,
            CharacterString,
            CharacterString,
            Name,
        ],
    ),
    // KX (RFC 2230 section 3.1)
    (36, &[Number16, Name]),
    // CERT (RFC 4398 section 2)
    (37, &[CertificateType, Number16, Algorithm, Base64]),
    // DNAME (RFC 6672 section 2.1)
    (39, &[Name]),
    // DS (RFC 4034 section 5.1)
    (43, &[Number16, Algorithm, Number8, Hex]),
    // SSHFP (RFC 4255 section 3.1)
    (44, &[Number8, Number8, Hex]),
    // RRSIG (RFC 4034 section 3.1)
    (
        46,
        &[
            Field::RecordType,
            Algorithm,
            Number8,
            Number32,
            Time,
            Time,
            Number16,
            Name,
            Base64,
        ],
    ),
    // NSEC (RFC 4034 section 4.1)
    (47, &[Name, Types]),
    // DNSKEY (RFC 4034 section 2.1)
    (48, &[Number16, Number8, Algorithm, Base64]),
    // DHCID (RFC 4701 section 3.1)
    (49, &[Base64]),
    // NSEC3 (RFC 5155 section 3.2)
    (50, &[Number8, Number8, Number16, Salt, Hash, Types]),
    // NSEC3PARAM (RFC 5155 section 4.2)
    (51, &[Number8, Number8, Number16, Salt]),
    // TLSA (RFC 6698 section 2.1)
    (52, &[Number8, Number8, Number8, Hex]),
    // SMIMEA (RFC 8162 section 2)
    (53, &[Number8, Number8, Number8, Hex]),
    // CDS (RFC 7344 section 3.1)
    (59, &[Number16, Algorithm, Number8, Hex]),
    // CDNSKEY (RFC 7344 section 3.2)
    (60, &[Number16, Number8, Algorithm, Base64]),
    // OPENPGPKEY (RFC 7929 section 2)
    (61, &[Base64]),
    // CSYNC (RFC 7477 section 2.1)
    (62, &[Number32, Number16, Types]),
    // ZONEMD (RFC 8976 section 2.2)
    (63, &[Number32, Number8, Number8, Hex]),
    // SVCB (RFC 9460 section 2.1)
    (64, &[Number16, Name, Parameters]),
    // HTTPS (RFC 9460 section 9)
    (65, &[Number16, Name, Parameters]),
    // URI (RFC 7553 section 4.5)
    (256, &[Number16, Number16, Text]),
    // CAA (RFC 8659 section 4.1)
    (257, &[Number8, Tag, Text]),
];

/// Returns the fields of a type, in their order, or `None` if it has no text form but the generic one.
pub fn format_of(record_type: RecordType) -> Option<&'static [Field]>
    ensures { option_map (λ fields. fields.now) result ≡ fields_of (type_number record_type) }
{
    fields_among(FORMATS, u16::from(record_type))
}

/// Returns the fields of the type with a number, in a table.
fn fields_among(
    formats: &'static [(u16, &'static [Field])],
    number: u16,
) -> Option<&'static [Field]>
    ensures { option_map (λ fields. fields.now) result
        ≡ fields_among (map (λ line. (line.0, line.1.now)) formats.now) number }
{
    for (other, fields) in formats {
        if *other == number {
            return Some(*fields);
        }
    }
    None
}
