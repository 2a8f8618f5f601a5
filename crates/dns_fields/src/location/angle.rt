//! Latitudes and longitudes, in thousandths of a second of arc (RFC 1876 sections 2 and 3).

ghost use Rattle.std.specs.Prelude.{◌≡◌, ◌≤◌, ◌<◌, ◌*◌, ◌+◌, length, map, IfSome, option_map, Some};
ghost use Rattle.dns_text.specs.Token.{lexeme};
ghost use Rattle.dns_fields.specs.location.Angle.{greatest, letter, direction, word_at, degrees, minutes, seconds, placed, after_degrees, after_minutes, after_seconds, angle};

use crate::location::fixed::thousandths;
use dns_text::Token;
use dns_wire::codes::parse_decimal;

/// The value of the equator and of the prime meridian.
pub(crate) const ORIGIN: u64 = 2_147_483_648;

/// The thousandths of a second in a degree.
pub(crate) const DEGREE: u64 = 3_600_000;

/// The thousandths of a second in a minute.
pub(crate) const MINUTE: u64 = 60_000;

/// A kind of angles.
#[derive(Clone, Copy, Debug, PartialEq, Eq)]
pub(crate) enum Axis {
    /// North or south of the equator.
    Latitude,
    /// East or west of the prime meridian.
    Longitude,
}

/// Returns the greatest degrees.
pub(crate) fn greatest(axis: Axis) -> u64
    ensures value { result ≡ greatest axis }
    ensures bound { result ≤ 180 }
{
    match axis {
        Axis::Latitude => 90,
        Axis::Longitude => 180,
    }
}

/// Returns the word at a place.
pub(crate) fn word_at<'a>(place: usize, tokens: &[Token<'a>]) -> Option<&'a [u8]>
    ensures { option_map (λ word. word.now) result ≡ word_at place (map lexeme tokens.now) }
{
    if place >= tokens.len() {
        return None;
    }
    match tokens[place] {
        Token::CharData(word) => Some(word),
        _ => None,
    }
}

/// Returns the angle whose degrees are the word at a place, and the place after its direction. Minutes and seconds may be
/// missing.
pub(crate) fn angle(axis: Axis, place: usize, tokens: &[Token<'_>]) -> Option<(u32, usize)>
    requires { place < 16 }
    ensures value { result ≡ angle axis place (map lexeme tokens.now) }
    ensures next { IfSome result (λ found. found.1 ≤ place + 4) }
{
    let degrees = degrees(axis, place, tokens)?;
    match direction(axis, place + 1, tokens) {
        Some(is_positive) => placed(axis, is_positive, degrees, place + 2),
        None => after_degrees(axis, place, tokens, degrees),
    }
}

/// Returns an angle from the minutes on.
fn after_degrees(
    axis: Axis,
    place: usize,
    tokens: &[Token<'_>],
    degrees: u64,
) -> Option<(u32, usize)>
    requires within { place < 16 }
    requires degrees { degrees ≤ 180 * 3600000 }
    ensures value { result ≡ after_degrees axis place (map lexeme tokens.now) degrees }
    ensures next { IfSome result (λ found. found.1 ≤ place + 4) }
{
    let minutes = minutes(place + 1, tokens)?;
    match direction(axis, place + 2, tokens) {
        Some(is_positive) => placed(axis, is_positive, degrees + minutes, place + 3),
        None => after_minutes(axis, place, tokens, degrees + minutes),
    }
}

/// Returns an angle from the seconds on.
fn after_minutes(
    axis: Axis,
    place: usize,
    tokens: &[Token<'_>],
    minutes: u64,
) -> Option<(u32, usize)>
    requires within { place < 16 }
    requires minutes { minutes ≤ 181 * 3600000 }
    ensures value { result ≡ after_minutes axis place (map lexeme tokens.now) minutes }
    ensures next { IfSome result (λ found. found.1 ≤ place + 4) }
{
    let seconds = seconds(place + 2, tokens)?;
    let is_positive = direction(axis, place + 3, tokens)?;
    placed(axis, is_positive, minutes + seconds, place + 4)
}

/// Returns the thousandths of a second of the degrees at a place.
fn degrees(axis: Axis, place: usize, tokens: &[Token<'_>]) -> Option<u64>
    ensures value { result ≡ degrees axis (word_at place (map lexeme tokens.now)) }
    ensures bound { IfSome result (λ number. number ≤ 180 * 3600000) }
{
    let number = parse_decimal(word_at(place, tokens)?, greatest(axis))?;
    Some(DEGREE * number)
}

/// Returns the thousandths of a second of the minutes at a place.
fn minutes(place: usize, tokens: &[Token<'_>]) -> Option<u64>
    ensures value { result ≡ minutes (word_at place (map lexeme tokens.now)) }
    ensures bound { IfSome result (λ number. number < 3600000) }
{
    let number = parse_decimal(word_at(place, tokens)?, 59)?;
    Some(MINUTE * number)
}

/// Returns the thousandths of the seconds at a place.
fn seconds(place: usize, tokens: &[Token<'_>]) -> Option<u64>
    ensures value { result ≡ seconds (word_at place (map lexeme tokens.now)) }
    ensures bound { IfSome result (λ number. number < 60000) }
{
    thousandths(word_at(place, tokens)?, 3, 59)
}

/// Returns whether the word at a place is the letter of the positive direction, or `None` if it is no direction.
fn direction(axis: Axis, place: usize, tokens: &[Token<'_>]) -> Option<bool>
    ensures { result ≡ direction axis (word_at place (map lexeme tokens.now)) }
{
    let word = word_at(place, tokens)?;
    if word.len() != 1 {
        return None;
    }
    letter(axis, word[0])
}

/// Returns whether a letter denotes the positive direction, or `None` if it denotes none.
fn letter(axis: Axis, c: u8) -> Option<bool>
    ensures { result ≡ letter axis c }
{
    match axis {
        Axis::Latitude => match c {
            b'N' | b'n' => Some(true),
            b'S' | b's' => Some(false),
            _ => None,
        },
        Axis::Longitude => match c {
            b'E' | b'e' => Some(true),
            b'W' | b'w' => Some(false),
            _ => None,
        },
    }
}

/// Returns the value of an angle, unless it is too great, and the place after it.
fn placed(axis: Axis, is_positive: bool, total: u64, next: usize) -> Option<(u32, usize)>
    ensures value { result ≡ placed axis is_positive total next }
    ensures next { IfSome result (λ found. found.1 ≡ next) }
{
    if total > DEGREE * greatest(axis) {
        return None;
    }
    let value = if is_positive {
        ORIGIN + total
    } else {
        ORIGIN - total
    };
    Some((value as u32, next))
}
