//! The symbols of a name in text (RFC 1035 section 5.1).

ghost use Rattle.std.specs.Prelude.{◌≡◌, ◌≢◌, ◌<◌, ◌≤◌, length, IfSome};
ghost use Rattle.std.specs.Option.{option_map_or};
ghost use Rattle.dns_names.specs.Parse.{Escaped, Broken, symbol, more_len, escape, escape_len, decimal_octet};
ghost use Rattle.dns_names.specs.internal.Symbol.{symbol_of};

use dns_wire::codes::parse_decimal;

/// A symbol of a name in text.
#[derive(Clone, Copy)]
pub(super) enum Symbol {
    /// A dot between labels.
    Dot,
    /// An unescaped octet.
    Plain(u8),
    /// An escaped octet.
    Escaped(u8),
    /// A backslash without a valid escape.
    Broken,
}

/// Returns the first symbol of a text, and how many characters it takes after its first.
pub(super) fn next_symbol(text: &[u8]) -> (Symbol, usize)
    requires { 0 < length text.now }
    ensures symbol { symbol_of result.0 ≡ symbol text.now }
    ensures more { symbol_of result.0 ≢ Broken → result.1 ≡ more_len text.now }
    ensures small { result.1 ≤ 3 }
{
    match text[0] {
        b'.' => (Symbol::Dot, 0),
        b'\\' => escape(&text[1..]),
        byte => (Symbol::Plain(byte), 0),
    }
}

/// Returns the symbol of an escape, from the text after its backslash, and the length of that text.
fn escape(text: &[u8]) -> (Symbol, usize)
    ensures symbol { symbol_of result.0 ≡ escape text.now }
    ensures more { symbol_of result.0 ≢ Broken → result.1 ≡ escape_len text.now }
    ensures small { result.1 ≤ 3 }
{
    match escaped_octet(text) {
        Some((octet, len)) => (Symbol::Escaped(octet), len),
        None => (Symbol::Broken, 0),
    }
}

/// Returns the octet that an escape denotes, from the text after its backslash, and how many characters of that text
/// the escape takes: three decimal digits up to 255, or one other printable ASCII character (RFC 1035 section 5.1).
/// Returns `None` if the text begins with neither.
pub fn escaped_octet(text: &[u8]) -> Option<(u8, usize)>
    ensures octet { escape text.now ≡ option_map_or (λ found. Escaped found.0) result Broken }
    ensures len { IfSome result (λ found. found.1 ≡ escape_len text.now) }
    ensures within { IfSome result (λ found. found.1 ≤ length text.now) }
    ensures small { IfSome result (λ found. found.1 ≤ 3) }
{
    if text.is_empty() {
        return None;
    }
    match text[0] {
        b'0'..=b'9' => Some((decimal_octet(text)?, 3)),
        byte @ 32..=126 => Some((byte, 1)),
        _ => None,
    }
}

/// Returns the octet that three decimal digits denote.
fn decimal_octet(text: &[u8]) -> Option<u8>
    ensures value { decimal_octet text.now ≡ option_map_or Escaped result Broken }
    ensures within { IfSome result (λ _. 3 ≤ length text.now) }
{
    if text.len() < 3 {
        return None;
    }
    match parse_decimal(&text[..3], 255) {
        Some(number) => Some(number as u8),
        None => None,
    }
}
