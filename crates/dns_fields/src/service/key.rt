//! The keys of parameters by their names (RFC 9460 sections 2.1 and 14.3.2).

ghost use Rattle.std.specs.Prelude.{◌≡◌, map};
ghost use Rattle.dns_fields.specs.service.Key.{key_among, has_leading_zero, is_numbered, numbered_key, key_of};

use dns_wire::codes::parse_decimal;

/// The keys that have names (IANA registry of service parameter keys).
pub(crate) const KEYS: &[(&str, u16)] = &[
    ("mandatory", 0),
    ("alpn", 1),
    ("no-default-alpn", 2),
    ("port", 3),
    ("ipv4hint", 4),
    ("ech", 5),
    ("ipv6hint", 6),
    // RFC 9461 section 5
    ("dohpath", 7),
];

/// Returns the key that a text names: by its name, in lower case, or by `key` and its number without leading zeros.
pub(crate) fn key_of(text: &[u8]) -> Option<u16>
    ensures { result ≡ key_of text.now }
{
    match key_among(KEYS, text) {
        Some(key) => Some(key),
        None => numbered_key(text),
    }
}

/// Returns the key with a name, in a table.
fn key_among(keys: &[(&str, u16)], text: &[u8]) -> Option<u16>
    ensures { result ≡ key_among (map (λ line. (line.0.now, line.1)) keys.now) text.now }
{
    for (name, key) in keys {
        if text == name.as_bytes() {
            return Some(*key);
        }
    }
    None
}

/// Returns the key of `key` and a number.
fn numbered_key(text: &[u8]) -> Option<u16>
    ensures { result ≡ numbered_key text.now }
{
    let (_, digits) = text.split_at(text.len().min(3));
    if !is_numbered(text) || has_leading_zero(digits) {
        return None;
    }
    match parse_decimal(digits, 65_535) {
        Some(number) => Some(number as u16),
        None => None,
    }
}

/// Returns `true` if a text begins with `key`, as no name does.
pub(crate) fn is_numbered(text: &[u8]) -> bool
    ensures { result ≡ is_numbered text.now }
{
    let (word, _) = text.split_at(text.len().min(3));
    word == b"key".as_slice()
}

/// Returns `true` if a number has a zero before its first digit.
pub(crate) fn has_leading_zero(digits: &[u8]) -> bool
    ensures { result ≡ has_leading_zero digits.now }
{
    digits.len() > 1 && digits[0] == b'0'
}
