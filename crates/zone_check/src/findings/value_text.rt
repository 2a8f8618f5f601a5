//! What a value at fault says by the type of its record.

ghost use Rattle.std.specs.Prelude.{◌≡◌, ◌==◌, ◌||◌, count_by, option_map};
ghost use Rattle.std.specs.List.{list_all};
ghost use Rattle.dns_wire.specs.codes.Decimal.{is_digit};
ghost use Rattle.zone_check.specs.findings.Finding.{sentences};
ghost use Rattle.zone_check.specs.findings.ValueText.{exceeds_from, exceeds_octet, is_above, is_dotted, is_number, value_sentences};

use crate::findings::finding::Advice;
use dns_wire::RecordType;
use dns_wire::codes::parse_decimal;

/// The greatest number of 16 bits.
const MAX_NUMBER: u64 = 65_535;

/// Returns what a value that is invalid says in an entry that states a type.
pub(crate) fn value_text(word: &str, record_type: Option<RecordType>) -> Option<Advice>
    ensures { option_map sentences result ≡ value_sentences record_type word.now }
{
    let word = word.as_bytes();
    match record_type {
        Some(RecordType::MX | RecordType::SRV) if is_above(word) => Some(Advice {
            reason: "a number above 65,535",
            hint: "write a number from 0 to 65535",
        }),
        Some(RecordType::MX) if !is_number(word) => Some(Advice {
            reason: "an MX record without its preference",
            hint: "write a number before the name, as: 10 mail",
        }),
        Some(RecordType::A) if is_dotted(word) && exceeds_octet(word) => Some(Advice {
            reason: "an address with a number above 255",
            hint: "write four numbers from 0 to 255, as 192.0.2.1",
        }),
        _ => None,
    }
}

/// Returns `true` if a word is digits.
fn is_number(word: &[u8]) -> bool
    ensures { result ≡ is_number word.now }
{
    !word.is_empty() && are_digits(word)
}

/// Returns `true` if all characters of a word are digits.
fn are_digits(word: &[u8]) -> bool
    ensures { result ≡ list_all is_digit word.now }
{
    word.iter().all(u8::is_ascii_digit)
}

/// Returns `true` if a word is a number of more than 16 bits.
fn is_above(word: &[u8]) -> bool
    ensures { result ≡ is_above word.now }
{
    is_number(word) && parse_decimal(word, MAX_NUMBER).is_none()
}

/// Returns `true` if a word is digits and three dots.
fn is_dotted(word: &[u8]) -> bool
    ensures { result ≡ is_dotted word.now }
{
    are_digits_and_dots(word) && count_dots(word) == 3
}

/// Returns `true` if all characters of a word are digits or dots.
fn are_digits_and_dots(word: &[u8]) -> bool
    ensures { result ≡ list_all (λ c. is_digit c || c == 46) word.now }
{
    word.iter().all(|c| c.is_ascii_digit() || *c == b'.')
}

/// Returns the number of dots in a word.
fn count_dots(word: &[u8]) -> usize
    ensures { result ≡ count_by (λ c. c == 46) word.now }
{
    word.iter().filter(|c| **c == b'.').count()
}

/// Returns `true` if some number between the dots of a word is above 255.
fn exceeds_octet(word: &[u8]) -> bool
    ensures { result ≡ exceeds_octet word.now }
{
    let mut value = 0_u32;
    for c in word {
        if *c == b'.' {
            value = 0;
            continue;
        }
        value = value * 10 + u32::from(c.saturating_sub(b'0'));
        if value > 255 {
            return true;
        }
    }
    false
}
