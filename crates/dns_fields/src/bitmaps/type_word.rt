//! Record types by their names in zone files, and other numbers by their mnemonics.

ghost use Rattle.std.specs.Prelude.{◌≡◌, map, option_map};
ghost use Rattle.std.specs.Str.{str_eq_ignore_ascii_case};
ghost use Rattle.std.specs.Fmt.{WritesOnOk};
ghost use Rattle.dns_wire.specs.codes.CodeText.{type_text};
ghost use Rattle.dns_wire.specs.codes.RecordType.{type_of};
ghost use Rattle.dns_fields.specs.bitmaps.TypeWord.{number_among, name_among, type_of_word, word_of_type};

use dns_wire::codes::RecordType;
use std::fmt;

/// The types that `RecordType` has no name for (IANA registry of RR types).
const TYPES: &[(&str, u16)] = &[
    ("MD", 3),
    ("MF", 4),
    ("MB", 7),
    ("MG", 8),
    ("MR", 9),
    ("WKS", 11),
    ("MINFO", 14),
    ("RP", 17),
    ("AFSDB", 18),
    ("X25", 19),
    ("ISDN", 20),
    ("RT", 21),
    ("NSAP", 22),
    ("PX", 26),
    ("GPOS", 27),
    ("LOC", 29),
    ("NXT", 30),
    ("EID", 31),
    ("NIMLOC", 32),
    ("ATMA", 34),
    ("KX", 36),
    ("A6", 38),
    ("SINK", 40),
    ("APL", 42),
    ("IPSECKEY", 45),
    ("DHCID", 49),
    ("HIP", 55),
    ("NINFO", 56),
    ("RKEY", 57),
    ("TALINK", 58),
    ("ZONEMD", 63),
    ("DSYNC", 66),
    ("SPF", 99),
    ("NID", 104),
    ("L32", 105),
    ("L64", 106),
    ("LP", 107),
    ("EUI48", 108),
    ("EUI64", 109),
    ("NXNAME", 128),
    ("TKEY", 249),
    ("MAILB", 253),
    ("MAILA", 254),
    ("URI", 256),
    ("AVC", 258),
    ("DOA", 259),
    ("AMTRELAY", 260),
    ("RESINFO", 261),
    ("WALLET", 262),
    ("TA", 32768),
    ("DLV", 32769),
];

/// Returns `true` if words are equal up to the case of letters.
fn is_same_word(a: &[u8], b: &[u8]) -> bool
    ensures { result ≡ str_eq_ignore_ascii_case a.now b.now }
{
    a.eq_ignore_ascii_case(b)
}

/// Returns the number of a mnemonic, in any case, in a table.
pub fn number_among(words: &[(&str, u16)], text: &[u8]) -> Option<u16>
    ensures { result ≡ number_among (map (λ line. (line.0.now, line.1)) words.now) text.now }
{
    for (word, number) in words {
        if is_same_word(word.as_bytes(), text) {
            return Some(*number);
        }
    }
    None
}

/// Returns the first mnemonic of a number in a table.
fn name_among(words: &'static [(&'static str, u16)], number: u16) -> Option<&'static str>
    ensures { option_map (λ name. name.now) result
        ≡ name_among (map (λ line. (line.0.now, line.1)) words.now) number }
{
    for (word, other) in words {
        if *other == number {
            return Some(*word);
        }
    }
    None
}

/// Returns the record type that a word of a zone file names, in any case: by a name of `RecordType`, by another name
/// of the registry, or by `TYPE` and a number (RFC 3597 section 5).
pub fn type_of_word(text: &[u8]) -> Option<RecordType>
    ensures { result ≡ type_of_word text.now }
{
    if let Some(record_type) = RecordType::from_ascii_bytes(text) {
        return Some(record_type);
    }
    let number = number_among(TYPES, text)?;
    Some(RecordType::from(number))
}

/// A record type by its number, which `Display` writes as a word of a zone file: its name in the registry, or else `TYPE`
/// and the number (RFC 3597 section 5). `type_of_word` reads it back.
#[derive(Clone, Copy, Debug)]
pub struct TypeWord {
    /// The number of the type.
    pub number: u16,
}

impl fmt::Display for TypeWord {
    ghost use Rattle.std.specs.Prelude.{Some};

    ghost output = { λ it. Some (word_of_type it.number) };

    fn fmt<W: fmt::Write>(&self, f: &mut fmt::Formatter<W>) -> fmt::Result {
        match name_among(TYPES, self.number) {
            Some(name) => f.write_str(name),
            None => write_text(self.number, f),
        }
    }
}

/// Writes the text of the type with a number.
fn write_text<W: fmt::Write>(number: u16, f: &mut fmt::Formatter<W>) -> fmt::Result
    ensures { WritesOnOk W.write_str_gives f.old result (type_text (type_of number)) f.new }
{
    let record_type = RecordType::from(number);
    write!(f, "{record_type}")
}
