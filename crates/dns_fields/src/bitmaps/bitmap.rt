//! The bitmap of a set of record types (RFC 4034 section 4.1.2).

ghost use Rattle.std.specs.Prelude.{◌≡◌, ◌==◌, ◌++◌, ◌<◌, ◌≤◌, ◌+◌, ◌*◌, ◌/◌, ◌%◌, ℕ, List, true, false, if◌then◌else◌, OnOk, IfSome, length, get_or, set};
ghost use Rattle.dns_fields.specs.bitmaps.Bitmap.{AreTypes, octet_of, weights, octets_needed, octets_from, block, blocks, bitmap_of, block_len, is_bitmap};

use std::alloc::AllocError;

/// The weights of the bits of an octet, from the first bit on.
pub(crate) const WEIGHTS: [u8; 8] = [128, 64, 32, 16, 8, 4, 2, 1];

/// Appends the bitmap of types, which may be in any order and may repeat.
pub fn push_bitmap(types: &[u16], out: &mut Vec<u8>) -> Result<(), AllocError>
    ensures { OnOk result (out.new.items ≡ out.old.items ++ bitmap_of types.now) }
{
    for window in 0..256u16 {
        push_block(types, window, out)?;
    }
    Ok(())
}

/// Appends the block of a window, unless it has no type.
fn push_block(types: &[u16], window: u16, out: &mut Vec<u8>) -> Result<(), AllocError>
    requires { window < 256 }
    ensures { OnOk result (out.new.items ≡ out.old.items ++ block types.now window) }
{
    let needed = octets_needed(types, window);
    if needed == 0 {
        return Ok(());
    }
    out.push(window as u8)?;
    out.push(needed as u8)?;
    push_octets(&types_in(types, window), needed, out)?;
    Ok(())
}

/// Returns how many octets the greatest type of a window needs.
fn octets_needed(types: &[u16], window: u16) -> u16
    ensures value { result ≡ octets_needed 0 types.now window }
    ensures bound { result ≤ 32 }
{
    let mut needed = 0;
    for number in types {
        if *number / 256 == window {
            needed = needed.max(*number % 256 / 8 + 1);
        }
    }
    needed
}

/// Returns which of the 256 types of a window are among others, so that a bit is found without a search.
fn types_in(types: &[u16], window: u16) -> [bool; 256]
    ensures { AreTypes result types.now (256 * window) }
{
    let mut present = [false; 256];
    for number in types {
        note_type(&mut present, window, *number);
    }
    present
}

/// Notes a type, if it is in a window.
fn note_type(present: &mut [bool; 256], window: u16, number: u16)
    ensures { present.new ≡ (if number / 256 == window then set present.old (number % 256) true
        else present.old) }
{
    if number / 256 == window {
        present[usize::from(number % 256)] = true;
    }
}

/// Appends the first octets of a window.
fn push_octets(present: &[bool; 256], count: u16, out: &mut Vec<u8>) -> Result<(), AllocError>
    requires { count ≤ 32 }
    ensures { OnOk result ((types : List ℕ) (base : ℕ) → AreTypes present.now types base
        → out.new.items ≡ out.old.items ++ octets_from types base count) }
{
    for index in 0..count {
        out.push(octet_of(present, 8 * index))?;
    }
    Ok(())
}

/// Returns the octet whose first bit is at a place of a window.
fn octet_of(present: &[bool; 256], first: u16) -> u8
    requires { first + 8 ≤ 256 }
    ensures { (types : List ℕ) (base : ℕ) → AreTypes present.now types base
        → result ≡ octet_of weights types (base + first) }
{
    let mut octet = 0;
    let mut place = usize::from(first);
    for weight in &WEIGHTS {
        octet += weight_if(present, place, *weight);
        place += 1;
    }
    octet
}

/// Returns the weight of a bit, if the type at its place is there, or 0.
fn weight_if(present: &[bool; 256], place: usize, weight: u8) -> u8
    requires { place < 256 }
    ensures { result ≡ if get_or present.now place false then weight else 0 }
{
    if present[place] { weight } else { 0 }
}

/// Returns `true` if bytes are the bitmap of a set of types: windows in ascending order, each with 1 to 32 octets, of
/// which the last is not zero.
pub fn is_bitmap(bytes: &[u8]) -> bool
    ensures { result ≡ is_bitmap 0 0 bytes.now }
{
    let mut left = bytes;
    let mut least = 0;
    while !left.is_empty() {
        let Some(len) = block_len(least, left) else {
            return false;
        };
        least = u16::from(left[0]) + 1;
        left = &left[len..];
    }
    true
}

/// Returns the length of the block at the front of bytes, if it is one of a window from `least` on.
pub(crate) fn block_len(least: u16, bytes: &[u8]) -> Option<usize>
    ensures value { result ≡ block_len least bytes.now }
    ensures within { IfSome result (λ len. (0 < len) × (len ≤ length bytes.now)) }
{
    if bytes.len() < 2 {
        return None;
    }
    let count = usize::from(bytes[1]);
    let is_block = least <= u16::from(bytes[0])
        && 1 <= count
        && count <= 32
        && count + 2 <= bytes.len()
        && bytes[count + 1] != 0;
    if is_block { Some(count + 2) } else { None }
}
