//! Which record types a zone file may have, and by which names.

ghost use Rattle.std.specs.Prelude.{◌≡◌, find};
ghost use Rattle.std.specs.Str.{str_eq_ignore_ascii_case};
ghost use Rattle.dns_zone_file.specs.Types.{further_name, further_type, type_in};

use dns_text::Quotes;
use dns_wire::RecordType;

/// Which record types a zone file may have, and in which notation.
#[derive(Clone, Copy, Debug, PartialEq, Eq)]
pub enum Types {
    /// A, AAAA, CNAME, MX, NS, PTR, SOA, SRV and TXT. A quoted string ends on its line, and a class that is omitted is IN.
    Nine,
    /// All types, but for those of queries and messages alone, and the generic form of data (RFC 3597 section 5). A quoted
    /// string may go over several lines, and a class that is omitted is the last one stated (RFC 1035 section 5.1).
    All,
}

impl Types {
    ghost use Rattle.dns_zone_file.specs.Types.{quotes_of};

    /// Returns how far the quoted strings of a zone file may go.
    pub fn quotes(self) -> Quotes
        ensures { result ≡ quotes_of self }
    {
        match self {
            Types::Nine => Quotes::OneLine,
            Types::All => Quotes::ManyLines,
        }
    }
}

/// The numbers of the types of zone files alone.
const FURTHER_NUMBERS: [u16; 19] = [
    17, 18, 21, 29, 36, 42, 45, 49, 55, 63, 99, 104, 105, 106, 107, 108, 109, 256, 260,
];

/// Returns the name of a type of zone files alone, by its number, or nothing for any other.
fn further_name(number: u16) -> &'static str
    ensures { result.now ≡ further_name number }
{
    match number {
        17 => "RP",
        18 => "AFSDB",
        21 => "RT",
        29 => "LOC",
        36 => "KX",
        42 => "APL",
        45 => "IPSECKEY",
        49 => "DHCID",
        55 => "HIP",
        63 => "ZONEMD",
        99 => "SPF",
        104 => "NID",
        105 => "L32",
        106 => "L64",
        107 => "LP",
        108 => "EUI48",
        109 => "EUI64",
        256 => "URI",
        260 => "AMTRELAY",
        _ => "",
    }
}

/// Returns the first of these numbers whose type has a name, in any case.
fn find_further(numbers: &[u16], text: &[u8]) -> Option<u16>
    ensures { result
        ≡ find (λ number. str_eq_ignore_ascii_case (further_name number) text.now) numbers.now }
{
    for number in numbers {
        if further_name(*number).as_bytes().eq_ignore_ascii_case(text) {
            return Some(*number);
        }
    }
    None
}

/// Returns the type of zone files alone that a name denotes, in any case.
fn further_type(text: &[u8]) -> Option<RecordType>
    ensures { result ≡ further_type text.now }
{
    match find_further(&FURTHER_NUMBERS, text) {
        Some(number) => Some(RecordType::from(number)),
        None => None,
    }
}

/// Returns the type that a word denotes: a name in any case, or `TYPE` and a number (RFC 3597 section 5).
pub(crate) fn type_of_word(types: Types, text: &[u8]) -> Option<RecordType>
    ensures { result ≡ type_in types text.now }
{
    if let Some(record_type) = RecordType::from_ascii_bytes(text) {
        return Some(record_type);
    }
    match types {
        Types::Nine => None,
        Types::All => further_type(text),
    }
}
