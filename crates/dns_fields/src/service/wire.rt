//! Parameters as bytes (RFC 9460 section 2.2).

ghost use Rattle.std.specs.Prelude.{◌≡◌, ◌+◌, ◌≤◌, ◌<◌, length, take, drop, get_or};
ghost use Rattle.dns_fields.specs.service.Wire.{key_at, len_at, front_value, has_key, are_mandatory, are_protocols, is_value, is_front, are_parameters, place};

/// Returns `true` if bytes are parameters: in ascending order of their keys, each once, with values of their forms, and
/// with those parameters that others need (RFC 9460 sections 2.2, 7 and 8).
pub fn are_parameters(bytes: &[u8]) -> bool
    ensures { result ≡ are_parameters bytes.now 0 0 bytes.now }
{
    let mut left = bytes;
    let mut least = 0;
    while !left.is_empty() {
        if !is_front(bytes, least, left) {
            return false;
        }
        least = key_at(left) + 1;
        left = after_front(left);
    }
    true
}

/// Returns `true` if bytes begin with a parameter that has a key from `least` on and a value of the key.
fn is_front(all: &[u8], least: usize, bytes: &[u8]) -> bool
    ensures { result ≡ is_front all.now least bytes.now }
{
    least <= key_at(bytes)
        && 4 + len_at(bytes) <= bytes.len()
        && is_value(all, key_at(bytes), front_value(bytes))
}

/// Returns a byte, or 0 after the last.
pub(crate) fn byte_at(bytes: &[u8], place: usize) -> usize
    ensures value { result ≡ get_or bytes.now place 0 }
    ensures bound { result < 256 }
{
    if place < bytes.len() {
        usize::from(bytes[place])
    } else {
        0
    }
}

/// Returns the key of the parameter at the front of bytes.
pub(crate) fn key_at(bytes: &[u8]) -> usize
    ensures value { result ≡ key_at bytes.now }
    ensures bound { result < 65536 }
{
    256 * byte_at(bytes, 0) + byte_at(bytes, 1)
}

/// Returns the length of the value of the parameter at the front of bytes.
fn len_at(bytes: &[u8]) -> usize
    ensures value { result ≡ len_at bytes.now }
    ensures bound { result < 65536 }
{
    256 * byte_at(bytes, 2) + byte_at(bytes, 3)
}

/// Returns the value of the parameter at the front of bytes, as far as it is there.
pub(crate) fn front_value(bytes: &[u8]) -> &[u8]
    ensures { result.now ≡ front_value bytes.now }
{
    let value = skip(bytes, 4);
    &value[..value.len().min(len_at(bytes))]
}

/// Returns what follows the parameter at the front of bytes.
pub(crate) fn after_front(bytes: &[u8]) -> &[u8]
    ensures { result.now ≡ drop (4 + len_at bytes.now) bytes.now }
{
    skip(bytes, 4 + len_at(bytes))
}

/// Returns bytes without the first ones.
pub(crate) fn skip(bytes: &[u8], count: usize) -> &[u8]
    ensures { result.now ≡ drop count bytes.now }
{
    &bytes[bytes.len().min(count)..]
}

/// Returns `true` if bytes are a value of a key, beside all parameters.
fn is_value(all: &[u8], key: usize, value: &[u8]) -> bool
    ensures { result ≡ is_value all.now key value.now }
{
    match key {
        0 => !value.is_empty() && are_mandatory(all, value),
        1 => !value.is_empty() && are_protocols(value),
        2 => value.is_empty() && has_key(all, 1),
        3 => value.len() == 2,
        4 => !value.is_empty() && value.len() % 4 == 0,
        5 => !value.is_empty(),
        6 => !value.is_empty() && value.len() % 16 == 0,
        _ => true,
    }
}

/// Returns `true` if bytes are keys from 1 on that all parameters have, in ascending order, each once.
fn are_mandatory(all: &[u8], keys: &[u8]) -> bool
    ensures { result ≡ are_mandatory all.now 1 keys.now }
{
    let mut left = keys;
    let mut least = 1;
    while left.len() >= 2 {
        let key = key_at(left);
        if key < least {
            return false;
        }
        if !has_key(all, key) {
            return false;
        }
        least = key + 1;
        left = skip(left, 2);
    }
    left.is_empty()
}

/// Returns `true` if bytes are identifiers of protocols, each after its length, which is not 0.
fn are_protocols(value: &[u8]) -> bool
    ensures { result ≡ are_protocols 0 value.now }
{
    let mut left = value;
    while !left.is_empty() {
        let len = usize::from(left[0]);
        if len == 0 {
            return false;
        }
        if len >= left.len() {
            return false;
        }
        left = skip(left, 1 + len);
    }
    true
}

/// Returns `true` if parameters have one with a key.
pub(crate) fn has_key(bytes: &[u8], key: usize) -> bool
    ensures { result ≡ has_key key 0 bytes.now }
{
    let mut left = bytes;
    while !left.is_empty() {
        if key_at(left) == key {
            return true;
        }
        left = after_front(left);
    }
    false
}

/// Returns how many bytes the parameters before a key have.
pub(crate) fn place_of(bytes: &[u8], key: usize) -> usize
    ensures value { result ≡ place key 0 bytes.now }
    ensures within { result ≤ length bytes.now }
{
    let mut left = bytes;
    while !left.is_empty() && key_at(left) < key {
        left = after_front(left);
    }
    bytes.len() - left.len()
}
