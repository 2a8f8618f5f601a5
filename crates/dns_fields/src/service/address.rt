//! Addresses in text (RFC 4291 section 2.2).

ghost use Rattle.std.specs.Prelude.{◌≡◌, ◌≤◌, ◌++◌, [], IfOk, IfSome, Some, None, if◌then◌else◌, option_map, length};
ghost use Rattle.dns_fields.specs.service.Address.{joined, part_bytes, padded, group_bytes, separator, parts_bytes, ipv4_bytes, last_group, has_dot, groups_bytes, mixed_bytes, tail_bytes, elision, elided, elided_at, ipv6_bytes};

use crate::service::key::has_leading_zero;
use crate::service::wire::skip;
use dns_wire::codes::parse_decimal;
use hex::FromHexError;
use std::alloc::{AllocError, Global};

/// A kind of part of an address.
#[derive(Clone, Copy, Debug, PartialEq, Eq)]
pub(crate) enum Part {
    /// A decimal number up to 255, between dots.
    Decimal,
    /// One to four hexadecimal digits, between colons.
    Group,
}

/// Returns the four bytes of an IPv4 address.
pub(crate) fn ipv4_bytes(alloc: Global, text: &[u8]) -> Result<Option<Vec<u8>>, AllocError>
    ensures { IfOk result (λ found. option_map (λ bytes. bytes.items) found
        ≡ ipv4_bytes text.now) }
{
    match parts_bytes(alloc, Part::Decimal, text)? {
        Some(bytes) if bytes.len() == 4 => Ok(Some(bytes)),
        _ => Ok(None),
    }
}

/// Returns the sixteen bytes of an IPv6 address.
pub(crate) fn ipv6_bytes(alloc: Global, text: &[u8]) -> Result<Option<Vec<u8>>, AllocError>
    ensures { IfOk result (λ found. option_map (λ bytes. bytes.items) found
        ≡ ipv6_bytes text.now) }
{
    match elision(text) {
        Some(place) => elided_bytes(alloc, &text[..place], skip(text, place + 2)),
        None => match tail_bytes(alloc, text)? {
            Some(bytes) if bytes.len() == 16 => Ok(Some(bytes)),
            _ => Ok(None),
        },
    }
}

/// Returns the sixteen bytes of an IPv6 address from what precedes and what follows its `::`.
fn elided_bytes(alloc: Global, before: &[u8], after: &[u8]) -> Result<Option<Vec<u8>>, AllocError>
    ensures { IfOk result (λ found. option_map (λ bytes. bytes.items) found
        ≡ elided (groups_bytes before.now) (tail_bytes after.now)) }
{
    let Some(mut bytes) = groups_bytes(alloc, before)? else {
        return Ok(None);
    };
    let Some(tail) = tail_bytes(alloc, after)? else {
        return Ok(None);
    };
    if bytes.len() > 14 || tail.len() > 14 - bytes.len() {
        return Ok(None);
    }
    bytes.resize(16 - tail.len(), 0)?;
    bytes.extend_from_slice(tail.as_slice())?;
    Ok(Some(bytes))
}

/// Returns the bytes of groups, of which the last two may be an IPv4 address.
fn tail_bytes(alloc: Global, text: &[u8]) -> Result<Option<Vec<u8>>, AllocError>
    ensures { IfOk result (λ found. option_map (λ bytes. bytes.items) found
        ≡ tail_bytes text.now) }
{
    let start = last_group(text);
    if !has_dot(&text[start..]) {
        return groups_bytes(alloc, text);
    }
    if start == 0 {
        return ipv4_bytes(alloc, text);
    }
    mixed_bytes(alloc, &text[..start - 1], &text[start..])
}

/// Returns the bytes of groups and of an IPv4 address after them.
fn mixed_bytes(alloc: Global, groups: &[u8], address: &[u8]) -> Result<Option<Vec<u8>>, AllocError>
    ensures { IfOk result (λ found. option_map (λ bytes. bytes.items) found
        ≡ joined (groups_bytes groups.now) (ipv4_bytes address.now)) }
{
    let Some(mut bytes) = groups_bytes(alloc, groups)? else {
        return Ok(None);
    };
    let Some(last) = ipv4_bytes(alloc, address)? else {
        return Ok(None);
    };
    bytes.extend_from_slice(last.as_slice())?;
    Ok(Some(bytes))
}

/// Returns the bytes of groups, perhaps none.
fn groups_bytes(alloc: Global, text: &[u8]) -> Result<Option<Vec<u8>>, AllocError>
    ensures { IfOk result (λ found. option_map (λ bytes. bytes.items) found
        ≡ groups_bytes text.now) }
{
    if text.is_empty() {
        return Ok(Some(Vec::new(alloc)));
    }
    parts_bytes(alloc, Part::Group, text)
}

/// Returns the bytes of parts.
fn parts_bytes(alloc: Global, kind: Part, text: &[u8]) -> Result<Option<Vec<u8>>, AllocError>
    ensures { IfOk result (λ found. option_map (λ bytes. bytes.items) found
        ≡ parts_bytes kind [] text.now) }
{
    let mut bytes = Vec::new(alloc);
    let mut part = Vec::new(alloc);
    for c in text {
        if *c != separator(kind) {
            part.push(*c)?;
            continue;
        }
        if !push_part(alloc, kind, part.as_slice(), &mut bytes)? {
            return Ok(None);
        }
        part.clear();
    }
    if push_part(alloc, kind, part.as_slice(), &mut bytes)? {
        Ok(Some(bytes))
    } else {
        Ok(None)
    }
}

/// Appends the bytes of a part, and returns whether it is one.
fn push_part(alloc: Global, kind: Part, part: &[u8], out: &mut Vec<u8>) -> Result<bool, AllocError>
    ensures { IfOk result (λ is_part. option_map (λ bytes. out.old.items ++ bytes)
        (part_bytes kind part.now) ≡ (if is_part then Some out.new.items else None)) }
{
    match kind {
        Part::Decimal => push_decimal(part, out),
        Part::Group => push_group(alloc, part, out),
    }
}

/// Appends the byte of a decimal number, and returns whether it is one.
fn push_decimal(part: &[u8], out: &mut Vec<u8>) -> Result<bool, AllocError>
    ensures { IfOk result (λ is_part. option_map (λ bytes. out.old.items ++ bytes)
        (part_bytes Part.Decimal part.now) ≡ (if is_part then Some out.new.items else None)) }
{
    if has_leading_zero(part) {
        return Ok(false);
    }
    match parse_decimal(part, 255) {
        Some(number) => {
            out.push(number as u8)?;
            Ok(true)
        }
        None => Ok(false),
    }
}

/// Appends the bytes of hexadecimal digits, and returns whether there are one to four.
fn push_group(alloc: Global, part: &[u8], out: &mut Vec<u8>) -> Result<bool, AllocError>
    ensures { IfOk result (λ is_part. option_map (λ bytes. out.old.items ++ bytes)
        (part_bytes Part.Group part.now) ≡ (if is_part then Some out.new.items else None)) }
{
    let Some(digits) = padded(part) else {
        return Ok(false);
    };
    match hex::decode(alloc, &digits) {
        Ok(bytes) => {
            out.extend_from_slice(bytes.as_slice())?;
            Ok(true)
        }
        // The decoder had no memory for the bytes.
        Err(FromHexError::OutOfMemory) => Err(AllocError),
        Err(_) => Ok(false),
    }
}

/// Returns four hexadecimal digits, with zeros before those that are there.
fn padded(part: &[u8]) -> Option<[u8; 4]>
    ensures { option_map (λ digits. digits) result ≡ padded part.now }
{
    match part.len() {
        1 => Some([b'0', b'0', b'0', part[0]]),
        2 => Some([b'0', b'0', part[0], part[1]]),
        3 => Some([b'0', part[0], part[1], part[2]]),
        4 => Some([part[0], part[1], part[2], part[3]]),
        _ => None,
    }
}

/// Returns what separates parts.
fn separator(kind: Part) -> u8
    ensures { result ≡ separator kind }
{
    match kind {
        Part::Decimal => b'.',
        Part::Group => b':',
    }
}

/// Returns the place after the last colon.
fn last_group(text: &[u8]) -> usize
    ensures value { result ≡ last_group 0 0 text.now }
    ensures within { result ≤ length text.now }
{
    let mut start = 0;
    let mut place = 0;
    for c in text {
        place += 1;
        if *c == b':' {
            start = place;
        }
    }
    start
}

/// Returns `true` if a text has a dot.
fn has_dot(text: &[u8]) -> bool
    ensures { result ≡ has_dot text.now }
{
    for c in text {
        if *c == b'.' {
            return true;
        }
    }
    false
}

/// Returns the place of the first `::`.
fn elision(text: &[u8]) -> Option<usize>
    ensures value { result ≡ elision 0 text.now }
    ensures within { IfSome result (λ place. place ≤ length text.now) }
{
    for place in 0..text.len() {
        if text[place] == b':' && place + 1 < text.len() && text[place + 1] == b':' {
            return Some(place);
        }
    }
    None
}
