//! What a word at fault says by itself.

ghost use Rattle.std.specs.Prelude.{◌≡◌, option_map};
ghost use Rattle.std.specs.Char.{is_ascii};
ghost use Rattle.std.specs.List.{list_all};
ghost use Rattle.zone_check.specs.findings.Finding.{sentences};
ghost use Rattle.zone_check.specs.findings.WordText.{directive_sentences, directives, foreign_sentences, front_sentences, is_ipv6, is_ipv6_character, mark_sentences, name_sentences, owner_sentences, type_sentences, word_sentences};

use crate::findings::finding::Advice;
use crate::findings::value_text::value_text;
use dns_data::RDataParseError;
use dns_formats::{FormatFault, TokenFault};
use dns_wire::RecordType;
use dns_zone_file::{EntryFault, Types};

/// The number of the type SPF (RFC 7208 section 3.1).
const SPF: u16 = 99;

/// Returns what a word at fault says by itself, in a file of some types and an entry that states a type: that it is meant as a
/// comment, as a directive, as a mail address or as another value.
pub(crate) fn word_text(
    types: Types,
    fault: &EntryFault,
    word: &str,
    record_type: Option<RecordType>,
) -> Option<Advice>
    ensures { option_map sentences result ≡ word_sentences types fault.now word.now record_type }
{
    match fault {
        EntryFault::InvalidOwner => owner_text(types, word),
        EntryFault::InvalidData(RDataParseError::Name(_)) => name_text(types, word),
        EntryFault::UnknownType
        | EntryFault::InvalidData(RDataParseError::UnexpectedToken)
        | EntryFault::InvalidFormat(FormatFault::UnexpectedToken(_)) => mark_text(types, word),
        EntryFault::InvalidFormat(FormatFault::InvalidToken(_, TokenFault::InvalidName(_))) => {
            foreign_text("not a name", word)
        }
        EntryFault::InvalidData(RDataParseError::UnsupportedRecordType) => type_text(record_type),
        EntryFault::InvalidDirective => directive_text(word),
        EntryFault::InvalidData(RDataParseError::InvalidToken) => match mark_text(types, word) {
            Some(advice) => Some(advice),
            None => value_text(word, record_type),
        },
        _ => None,
    }
}

/// Returns what a type says whose data cannot be written here, if another type has the same data: SPF (RFC 7208 section 3.1).
fn type_text(record_type: Option<RecordType>) -> Option<Advice>
    ensures { option_map sentences result ≡ type_sentences record_type }
{
    match record_type {
        Some(record_type) if u16::from(record_type) == SPF => Some(Advice {
            reason: "a type whose data cannot be written here",
            hint: "write TXT in place of SPF, which is obsolete",
        }),
        _ => None,
    }
}

/// Returns what the arguments of a directive are.
fn directive_text(word: &str) -> Option<Advice>
    ensures { option_map sentences result ≡ directive_sentences word.now }
{
    let hint = match word {
        "$ORIGIN" => "write $ORIGIN NAME, and nothing after it",
        "$TTL" => "write $TTL 1h, or another number with or without a unit, and nothing after it",
        "$INCLUDE" => "write $INCLUDE FILE, and perhaps the origin of its names",
        "$GENERATE" => "write $GENERATE RANGE OWNER TYPE DATA, as $GENERATE 1-9 host$ A 192.0.2.$",
        _ => return None,
    };
    Some(Advice {
        reason: "a directive with a missing or invalid argument",
        hint,
    })
}

/// Returns `true` if all characters of a word are ASCII.
fn are_ascii(word: &[u8]) -> bool
    ensures { result ≡ list_all is_ascii word.now }
{
    word.iter().all(u8::is_ascii)
}

/// Returns what an owner says that is no name.
fn owner_text(types: Types, word: &str) -> Option<Advice>
    ensures { option_map sentences result ≡ owner_sentences types word.now }
{
    match front_text(types, word) {
        Some(advice) => Some(advice),
        None => foreign_text("an owner that is not a name", word),
    }
}

/// Returns what a word of data says that is no name.
fn name_text(types: Types, word: &str) -> Option<Advice>
    ensures { option_map sentences result ≡ name_sentences types word.now }
{
    if is_ipv6(word.as_bytes()) {
        return Some(Advice {
            reason: "an address where a name belongs",
            hint: "write the name of the host, and its address in an AAAA record",
        });
    }
    if word.as_bytes().contains(&b'@') {
        return Some(Advice {
            reason: "a mail address, which a zone file writes as a name",
            hint: "write a dot in place of the @, as hostmaster.example.com., and a backslash before each dot in front of it",
        });
    }
    match front_text(types, word) {
        Some(advice) => Some(advice),
        None => foreign_text("not a name", word),
    }
}

/// Returns `true` if a word is hexadecimal digits, dots and colons, and has a colon.
fn is_ipv6(word: &[u8]) -> bool
    ensures { result ≡ is_ipv6 word.now }
{
    word.contains(&b':') && has_characters_of_ipv6(word)
}

/// Returns `true` if all characters of a word are hexadecimal digits, dots or colons.
fn has_characters_of_ipv6(word: &[u8]) -> bool
    ensures { result ≡ list_all is_ipv6_character word.now }
{
    word.iter().all(|c| is_ipv6_character(*c))
}

/// Returns `true` for a hexadecimal digit, a dot or a colon.
fn is_ipv6_character(c: u8) -> bool
    ensures { result ≡ is_ipv6_character c }
{
    matches!(c, b'0'..=b'9' | b'A'..=b'F' | b'a'..=b'f' | b'.' | b':')
}

/// Returns what a word says that is no name, if it has characters outside ASCII (RFC 5890 section 2.3.2.1). The reason is that of
/// any other word.
fn foreign_text(reason: &'static str, word: &str) -> Option<Advice>
    ensures { option_map sentences result ≡ foreign_sentences reason.now word.now }
{
    if are_ascii(word.as_bytes()) {
        return None;
    }
    Some(Advice {
        reason,
        hint: "write the name in its ASCII form, as xn--bro-hoa",
    })
}

/// Returns what the first character of a word says that is no name.
fn front_text(types: Types, word: &str) -> Option<Advice>
    ensures { option_map sentences result ≡ front_sentences types word.now }
{
    match word.as_bytes().first() {
        Some(b'-') => Some(Advice {
            reason: "a name that begins with a hyphen",
            hint: "write \\045 in place of the hyphen, if it is meant",
        }),
        _ => mark_text(types, word),
    }
}

/// Returns what the first character of a word at fault says.
fn mark_text(types: Types, word: &str) -> Option<Advice>
    ensures { option_map sentences result ≡ mark_sentences types word.now }
{
    match word.as_bytes().first() {
        Some(b'#') => Some(Advice {
            reason: "not the start of a comment",
            hint: "write ; before a comment",
        }),
        Some(b'$') => Some(Advice {
            reason: "not a directive here",
            hint: directives(types),
        }),
        _ => None,
    }
}

/// Returns which directives a file of some types may have.
fn directives(types: Types) -> &'static str
    ensures { result.now ≡ directives types }
{
    match types {
        Types::Nine => {
            "write $ORIGIN NAME or $TTL TIME, in capitals and at the start of a line; there are no others"
        }
        Types::All => {
            "write $ORIGIN NAME, $TTL TIME, $INCLUDE FILE or $GENERATE RANGE OWNER TYPE DATA, in capitals and at the start of a line; there are no others"
        }
    }
}
