//! The value of a field at the front of bytes.

ghost use Rattle.std.specs.Prelude.{◌≡◌, ◌≤◌, length, drop, IfSome, Option, unwrap_or};
ghost use Rattle.dns_formats.specs.Wire.{at_least, name_end, short_name, counted_len, some_counted_len, bitmap_len, parameters_len, location_len, counted_octets, all_of, value_len, value_size, fits};

use crate::field::Field;
use crate::value::is_tag;
use dns_fields::bitmaps::is_bitmap;
use dns_fields::location::is_location;
use dns_fields::service::are_parameters;

/// The greatest length of a name, in bytes (RFC 1035 section 2.3.4).
const MAX_NAME_LENGTH: usize = 255;

/// The greatest length of a label, in bytes (RFC 1035 section 2.3.4).
const MAX_LABEL_LENGTH: usize = 63;

/// Returns `true` if bytes are the values of the fields, one after another, and nothing else.
pub fn fits(fields: &[Field], bytes: &[u8]) -> bool
    ensures { result ≡ fits fields.now bytes.now }
{
    let mut left = bytes;
    for field in fields {
        let Some(len) = value_len(*field, left) else {
            return false;
        };
        left = &left[len..];
    }
    left.is_empty()
}

/// Returns the length of the value of a field at the front of bytes, if there is one.
pub(crate) fn value_len(field: Field, bytes: &[u8]) -> Option<usize>
    ensures value { result ≡ value_len field bytes.now }
    ensures within { IfSome result (λ len. len ≤ length bytes.now) }
{
    match field {
        Field::Number8 => at_least(1, bytes),
        Field::Number16 => at_least(2, bytes),
        Field::Number32 => at_least(4, bytes),
        Field::Name => name_len(bytes),
        Field::CharacterString | Field::Salt => counted_len(bytes),
        Field::RecordType => at_least(2, bytes),
        Field::Time => at_least(4, bytes),
        Field::Tag => {
            if is_tag(counted_octets(bytes)) {
                counted_len(bytes)
            } else {
                None
            }
        }
        Field::Algorithm => at_least(1, bytes),
        Field::CertificateType => at_least(2, bytes),
        Field::Hash => some_counted_len(bytes),
        Field::Types => bitmap_len(bytes),
        Field::Parameters => parameters_len(bytes),
        Field::Location => location_len(bytes),
        Field::Text => Some(bytes.len()),
        Field::Hex | Field::Base64 => all_of(bytes),
    }
}

/// Returns the length of the value of a field at the front of bytes, or 0 if there is none.
pub(crate) fn value_size(field: Field, bytes: &[u8]) -> usize
    ensures value { result ≡ value_size field bytes.now }
    ensures within { result ≤ length bytes.now }
{
    value_len(field, bytes).unwrap_or(0)
}

/// Returns a number of bytes, if there are as many.
fn at_least(count: usize, bytes: &[u8]) -> Option<usize>
    ensures value { result ≡ at_least count bytes.now }
    ensures within { IfSome result (λ len. len ≤ length bytes.now) }
{
    if count <= bytes.len() {
        Some(count)
    } else {
        None
    }
}

/// Returns the length of the uncompressed name at the front of bytes.
fn name_len(bytes: &[u8]) -> Option<usize>
    ensures value { result ≡ short_name (name_end 0 bytes.now) }
    ensures within { IfSome result (λ len. len ≤ length bytes.now) }
{
    let mut place = 0;
    while place < bytes.len() && place < MAX_NAME_LENGTH {
        let len = usize::from(bytes[place]);
        if len == 0 {
            return Some(place + 1);
        }
        if len > MAX_LABEL_LENGTH {
            return None;
        }
        place += 1 + len;
    }
    None
}

/// Returns the length of the string at the front of bytes, with the byte that counts it.
fn counted_len(bytes: &[u8]) -> Option<usize>
    ensures value { result ≡ counted_len bytes.now }
    ensures within { IfSome result (λ len. len ≤ length bytes.now) }
{
    if bytes.is_empty() {
        return None;
    }
    let len = usize::from(bytes[0]);
    if len < bytes.len() {
        Some(1 + len)
    } else {
        None
    }
}

/// Returns the length of the string at the front of bytes, which must not be empty, with the byte that counts it.
fn some_counted_len(bytes: &[u8]) -> Option<usize>
    ensures value { result ≡ some_counted_len bytes.now }
    ensures within { IfSome result (λ len. len ≤ length bytes.now) }
{
    if counted_octets(bytes).is_empty() {
        return None;
    }
    counted_len(bytes)
}

/// Returns the number of all bytes, if they are a bitmap of types.
fn bitmap_len(bytes: &[u8]) -> Option<usize>
    ensures value { result ≡ bitmap_len bytes.now }
    ensures within { IfSome result (λ len. len ≤ length bytes.now) }
{
    if is_bitmap(bytes) {
        Some(bytes.len())
    } else {
        None
    }
}

/// Returns the number of all bytes, if they are parameters of a service binding.
fn parameters_len(bytes: &[u8]) -> Option<usize>
    ensures value { result ≡ parameters_len bytes.now }
    ensures within { IfSome result (λ len. len ≤ length bytes.now) }
{
    if are_parameters(bytes) {
        Some(bytes.len())
    } else {
        None
    }
}

/// Returns the number of all bytes, if they are a location.
fn location_len(bytes: &[u8]) -> Option<usize>
    ensures value { result ≡ location_len bytes.now }
    ensures within { IfSome result (λ len. len ≤ length bytes.now) }
{
    if is_location(bytes) {
        Some(bytes.len())
    } else {
        None
    }
}

/// Returns the octets of the string at the front of bytes, as far as they are there.
pub(crate) fn counted_octets(bytes: &[u8]) -> &[u8]
    ensures { result.now ≡ counted_octets bytes.now }
{
    if bytes.is_empty() {
        return bytes;
    }
    let end = bytes.len().min(1 + usize::from(bytes[0]));
    &bytes[1..end]
}

/// Returns the number of all bytes, if there is one.
fn all_of(bytes: &[u8]) -> Option<usize>
    ensures value { result ≡ all_of bytes.now }
    ensures within { IfSome result (λ len. len ≤ length bytes.now) }
{
    if bytes.is_empty() {
        None
    } else {
        Some(bytes.len())
    }
}
