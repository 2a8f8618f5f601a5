//! Decimal numbers with a fraction.

ghost use Rattle.std.specs.Prelude.{◌≡◌, ◌≤◌, ◌<◌, ◌==◌, ◌+◌, ◌*◌, length, drop, IfSome, option_map};
ghost use Rattle.std.specs.List.{position};
ghost use Rattle.dns_fields.specs.location.Fixed.{dot, padded, fraction, thousandths, without_unit, centimeters};

use dns_wire::codes::parse_decimal;

/// Returns the thousandths of a decimal number: digits, and perhaps a dot and at most `places` more digits.
pub(crate) fn thousandths(text: &[u8], places: usize, greatest: u64) -> Option<u64>
    requires { greatest < 1000000000 }
    ensures value { result ≡ thousandths places greatest text.now }
    ensures bound { IfSome result (λ number. number ≤ 1000 * greatest + 999) }
{
    let end = dot(text);
    let whole = parse_decimal(&text[..end], greatest)?;
    let part = fraction(after(text, end), places)?;
    Some(1000 * whole + part)
}

/// Returns the place of the first dot, or the length of the text.
fn dot(text: &[u8]) -> usize
    ensures value { result ≡ dot text.now }
    ensures within { result ≤ length text.now }
{
    match dot_place(text) {
        Some(place) => place,
        None => text.len(),
    }
}

/// Returns the place of the first dot.
fn dot_place(text: &[u8]) -> Option<usize>
    ensures place { result ≡ position (λ c. c == 46) text.now }
    ensures within { IfSome result (λ place. place < length text.now) }
{
    text.iter().position(|c| *c == b'.')
}

/// Returns what follows the character at a place.
fn after(text: &[u8], place: usize) -> &[u8]
    requires { place ≤ length text.now }
    ensures { result.now ≡ drop (place + 1) text.now }
{
    if place < text.len() {
        &text[place + 1..]
    } else {
        &text[place..]
    }
}

/// Returns the thousandths of at most `places` digits after a dot.
fn fraction(text: &[u8], places: usize) -> Option<u64>
    ensures value { result ≡ fraction places text.now }
    ensures bound { IfSome result (λ number. number ≤ 999) }
{
    if text.len() > places {
        return None;
    }
    let digits = padded(text)?;
    parse_decimal(&digits, 999)
}

/// Returns three digits, with zeros after those that are there.
fn padded(text: &[u8]) -> Option<[u8; 3]>
    ensures { option_map (λ digits. digits) result ≡ padded text.now }
{
    match text.len() {
        0 => Some([b'0', b'0', b'0']),
        1 => Some([text[0], b'0', b'0']),
        2 => Some([text[0], text[1], b'0']),
        3 => Some([text[0], text[1], text[2]]),
        _ => None,
    }
}

/// Returns the centimeters of a decimal number of meters with at most two digits after the dot, perhaps with `m`.
pub(crate) fn centimeters(text: &[u8], greatest: u64) -> Option<u64>
    requires { greatest < 1000000000 }
    ensures value { result ≡ centimeters greatest text.now }
    ensures bound { IfSome result (λ number. number ≤ 100 * greatest + 99) }
{
    let number = thousandths(without_unit(text), 2, greatest)?;
    Some(number / 10)
}

/// Returns a text of meters without the `m` at its end, if there is one.
fn without_unit(text: &[u8]) -> &[u8]
    ensures { result.now ≡ without_unit text.now }
{
    if text.is_empty() {
        return text;
    }
    let last = text.len() - 1;
    match text[last] {
        b'm' | b'M' => &text[..last],
        _ => text,
    }
}
