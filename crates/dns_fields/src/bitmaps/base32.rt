//! Bytes in base32hex without padding (RFC 4648 section 7, RFC 5155 section 3.3).

ghost use Rattle.std.specs.Prelude.{◌≡◌, ◌<◌, ◌≤◌, [], ◌∷◌, false, None, Some, Ok, IfOk, IfSome, option_map, length};
ghost use Rattle.std.specs.Fmt.{WritesOnOk};
ghost use Rattle.dns_fields.specs.bitmaps.Base32.{digit, digits_in, byte_at, quintet, front_digits, encoded, digit_value, are_digits, value_at, bytes_in, group_bytes, are_zero, whole_bytes, decoded};

use std::alloc::{AllocError, Global};
use std::fmt;

/// Bytes, which `Display` writes in base32hex without padding, in lower case.
#[derive(Clone, Copy, Debug)]
pub struct Base32Text<'a> {
    /// The bytes.
    pub bytes: &'a [u8],
}

impl<'a> fmt::Display for Base32Text<'a> {
    ghost output = { λ it. Some (encoded it.bytes.now) };

    fn fmt<W: fmt::Write>(&self, f: &mut fmt::Formatter<W>) -> fmt::Result {
        write_groups(self.bytes, f)
    }
}

/// Writes bytes in groups of five.
fn write_groups<W: fmt::Write>(bytes: &[u8], f: &mut fmt::Formatter<W>) -> fmt::Result
    ensures { WritesOnOk W.write_str_gives f.old result (encoded bytes.now) f.new }
{
    let mut left = bytes;
    while !left.is_empty() {
        write_group(left, f)?;
        left = &left[left.len().min(5)..];
    }
    Ok(())
}

/// Writes the digits of the group at the front of bytes.
fn write_group<W: fmt::Write>(bytes: &[u8], f: &mut fmt::Formatter<W>) -> fmt::Result
    ensures { WritesOnOk W.write_str_gives f.old result (front_digits bytes.now) f.new }
{
    let count = digits_in(bytes.len());
    for index in 0..count {
        write_digit(quintet(bytes, index), f)?;
    }
    Ok(())
}

/// Writes the digit of a value.
fn write_digit<W: fmt::Write>(value: u8, f: &mut fmt::Formatter<W>) -> fmt::Result
    requires { value < 32 }
    ensures { WritesOnOk W.write_str_gives f.old result (digit value ∷ []) f.new }
{
    f.write_char(digit(value) as char)
}

/// Returns one of the eight times five bits of the group at the front of bytes, as if zeros followed them.
fn quintet(bytes: &[u8], index: usize) -> u8
    ensures value { result ≡ quintet bytes.now index }
    ensures bound { result < 32 }
{
    match index {
        0 => byte_at(bytes, 0) / 8,
        1 => byte_at(bytes, 0) % 8 * 4 + byte_at(bytes, 1) / 64,
        2 => byte_at(bytes, 1) / 2 % 32,
        3 => byte_at(bytes, 1) % 2 * 16 + byte_at(bytes, 2) / 16,
        4 => byte_at(bytes, 2) % 16 * 2 + byte_at(bytes, 3) / 128,
        5 => byte_at(bytes, 3) / 4 % 32,
        6 => byte_at(bytes, 3) % 4 * 8 + byte_at(bytes, 4) / 32,
        _ => byte_at(bytes, 4) % 32,
    }
}

/// Returns a byte, or 0 after the last.
fn byte_at(bytes: &[u8], place: usize) -> u8
    ensures { result ≡ byte_at bytes.now place }
{
    if place < bytes.len() { bytes[place] } else { 0 }
}

/// Returns how many digits a group of bytes has.
fn digits_in(len: usize) -> usize
    ensures value { result ≡ digits_in len }
    ensures bound { result ≤ 8 }
{
    match len {
        0 => 0,
        1 => 2,
        2 => 4,
        3 => 5,
        4 => 7,
        _ => 8,
    }
}

/// Returns the digit of a value.
fn digit(value: u8) -> u8
    requires { value < 32 }
    ensures value { result ≡ digit value }
    ensures ascii { result < 128 }
{
    if value < 10 {
        b'0' + value
    } else {
        b'a' - 10 + value
    }
}

/// Returns the bytes of digits in any case, or `None` if there is another character or padding, a digit is missing, or
/// the bits after the last byte are not zero.
pub fn decode_base32(alloc: Global, digits: &[u8]) -> Result<Option<Vec<u8>>, AllocError>
    ensures value { IfOk result
        (λ bytes. option_map (λ bytes. bytes.items) bytes ≡ decoded digits.now) }
    ensures decided { are_digits digits.now ≡ false → result ≡ Ok None }
{
    if !are_digits(digits) {
        return Ok(None);
    }
    let mut bytes = Vec::new(alloc);
    let mut left = digits;
    while !left.is_empty() {
        let group = group_bytes(left);
        let Some(count) = whole_bytes(left.len(), &group) else {
            return Ok(None);
        };
        bytes.extend_from_slice(&group[..count])?;
        left = &left[left.len().min(8)..];
    }
    Ok(Some(bytes))
}

/// Returns `true` if all characters are digits.
fn are_digits(digits: &[u8]) -> bool
    ensures { result ≡ are_digits digits.now }
{
    for digit in digits {
        if digit_value(*digit).is_none() {
            return false;
        }
    }
    true
}

/// Returns the value of a digit.
fn digit_value(digit: u8) -> Option<u8>
    ensures { result ≡ digit_value digit }
{
    match digit {
        b'0'..=b'9' => Some(digit - b'0'),
        b'A'..=b'V' => Some(digit - b'A' + 10),
        b'a'..=b'v' => Some(digit - b'a' + 10),
        _ => None,
    }
}

/// Returns the value of the digit at a place, or 0 after the last.
fn value_at(digits: &[u8], place: usize) -> u8
    ensures value { result ≡ value_at digits.now place }
    ensures bound { result < 32 }
{
    if place >= digits.len() {
        return 0;
    }
    match digit_value(digits[place]) {
        Some(value) if value < 32 => value,
        _ => 0,
    }
}

/// Returns how many bytes a group of digits has, or 0 if no group has as many digits.
fn bytes_in(len: usize) -> usize
    ensures value { result ≡ bytes_in len }
    ensures bound { result ≤ 5 }
{
    match len {
        2 => 1,
        4 => 2,
        5 => 3,
        7 => 4,
        0 | 1 | 3 | 6 => 0,
        _ => 5,
    }
}

/// Returns the five bytes of the group at the front of digits, as if zeros followed them.
fn group_bytes(digits: &[u8]) -> [u8; 5]
    ensures { result ≡ group_bytes digits.now }
{
    let p = value_at(digits, 0);
    let q = value_at(digits, 1);
    let r = value_at(digits, 2);
    let s = value_at(digits, 3);
    let t = value_at(digits, 4);
    let u = value_at(digits, 5);
    let v = value_at(digits, 6);
    let w = value_at(digits, 7);
    [
        p * 8 + q / 4,
        q % 4 * 64 + r * 2 + s / 16,
        s % 16 * 16 + t / 2,
        t % 2 * 128 + u * 4 + v / 8,
        v % 8 * 32 + w,
    ]
}

/// Returns how many bytes a group of some digits has, if the bytes after them are zero.
fn whole_bytes(len: usize, group: &[u8]) -> Option<usize>
    requires { length group.now ≡ 5 }
    ensures value { result ≡ whole_bytes len group.now }
    ensures bound { IfSome result (λ count. count ≤ 5) }
{
    let count = bytes_in(len);
    if count == 0 {
        return None;
    }
    if are_zero(&group[count..]) {
        Some(count)
    } else {
        None
    }
}

/// Returns `true` if all bytes are zero.
fn are_zero(bytes: &[u8]) -> bool
    ensures { result ≡ are_zero bytes.now }
{
    for byte in bytes {
        if *byte != 0 {
            return false;
        }
    }
    true
}
