//! Sizes and precisions: a digit times a power of ten, in centimeters (RFC 1876 section 2).

ghost use Rattle.std.specs.Prelude.{◌≡◌, ◌≤◌, ◌<◌, map, IfSome, option_map};
ghost use Rattle.dns_text.specs.Token.{lexeme};
ghost use Rattle.dns_fields.specs.location.Angle.{word_at};
ghost use Rattle.dns_fields.specs.location.Size.{size_octet, size_of, size_at, is_size, power, octet_centimeters};

use crate::location::angle::word_at;
use crate::location::fixed::centimeters;
use dns_text::Token;

/// The greatest size, in meters.
const GREATEST: u64 = 90_000_000;

/// Returns the octet of the size at a place, or the usual one if the words end before.
pub(crate) fn size_at(usual: u8, place: usize, tokens: &[Token<'_>]) -> Option<u8>
    ensures { result ≡ size_at usual place (map lexeme tokens.now) }
{
    if place >= tokens.len() {
        return Some(usual);
    }
    size_of(word_at(place, tokens)?)
}

/// Returns the octet of a size.
fn size_of(word: &[u8]) -> Option<u8>
    ensures { result ≡ size_of word.now }
{
    let number = centimeters(word, GREATEST)?;
    if number > 100 * GREATEST {
        return None;
    }
    Some(size_octet(number))
}

/// Returns the octet of a number of centimeters: its first digit, and how many digits follow it.
fn size_octet(number: u64) -> u8
    requires { number ≤ 9000000000 }
    ensures { result ≡ size_octet number }
{
    let (digit, more) = match number {
        0..=9 => (number, 0),
        10..=99 => (number / 10, 1),
        100..=999 => (number / 100, 2),
        1_000..=9_999 => (number / 1_000, 3),
        10_000..=99_999 => (number / 10_000, 4),
        100_000..=999_999 => (number / 100_000, 5),
        1_000_000..=9_999_999 => (number / 1_000_000, 6),
        10_000_000..=99_999_999 => (number / 10_000_000, 7),
        100_000_000..=999_999_999 => (number / 100_000_000, 8),
        _ => (number / 1_000_000_000, 9),
    };
    (16 * digit + more) as u8
}

/// Returns `true` if an octet is that of a size: a digit that is not 0 and the power of ten, each below 10, or 0 for none.
pub(crate) fn is_size(octet: u8) -> bool
    ensures { result ≡ is_size octet }
{
    octet == 0 || (octet / 16 > 0 && octet / 16 < 10 && octet % 16 < 10)
}

/// Returns the centimeters of the octet of a size.
pub(crate) fn octet_centimeters(octet: u8) -> u64
    ensures value { result ≡ octet_centimeters octet }
    ensures bound { result ≤ 15000000000 }
{
    u64::from(octet / 16) * power(octet % 16)
}

/// Returns a power of ten up to the ninth.
fn power(exponent: u8) -> u64
    ensures value { result ≡ power exponent }
    ensures bound { result ≤ 1000000000 }
{
    match exponent {
        0 => 1,
        1 => 10,
        2 => 100,
        3 => 1_000,
        4 => 10_000,
        5 => 100_000,
        6 => 1_000_000,
        7 => 10_000_000,
        8 => 100_000_000,
        _ => 1_000_000_000,
    }
}
