//! Types and classes in text, by number (RFC 3597 section 5).

ghost use Rattle.std.specs.Prelude.{◌≡◌};
ghost use Rattle.std.specs.Str.{str_eq_ignore_ascii_case};
ghost use Rattle.dns_wire.specs.codes.CodeText.{numbered_text};
ghost use Rattle.dns_wire.specs.codes.Decimal.{decimal_up_to};

use crate::codes::decimal::parse_decimal;
use thiserror::Error;

/// An error of parsing a type or a class.
#[derive(Debug, Drop, Error)]
pub enum CodeTextError {
    /// The text is neither a name nor a number after the word `TYPE` or `CLASS`.
    #[error("no such code")]
    UnknownName,
}

/// Returns `true` if two texts are equal up to ASCII case.
pub fn is_same_word(a: &[u8], b: &[u8]) -> bool
    ensures { result ≡ str_eq_ignore_ascii_case a.now b.now }
{
    a.eq_ignore_ascii_case(b)
}

/// Parses a word, in any case, and the 16-bit number that follows it.
pub fn parse_numbered(word: &[u8], text: &[u8]) -> Option<u16>
    ensures { result ≡ numbered_text word.now text.now }
{
    if text.len() < word.len() {
        return None;
    }
    if is_same_word(&text[..word.len()], word) {
        number_of(&text[word.len()..])
    } else {
        None
    }
}

/// Parses a 16-bit number.
fn number_of(text: &[u8]) -> Option<u16>
    ensures { result ≡ decimal_up_to 65535 text.now }
{
    Some(parse_decimal(text, 65_535)? as u16)
}
