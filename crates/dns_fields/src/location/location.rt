//! Locations from words (RFC 1876 section 3).

ghost use Rattle.std.specs.Prelude.{◌≡◌, ◌≢◌, ◌≤◌, ◌<◌, map, Ok, Err, IfOk, IfErr, IfSome, Option, option_map};
ghost use Rattle.dns_text.specs.Token.{lexeme};
ghost use Rattle.dns_fields.specs.location.Fixed.{centimeters};
ghost use Rattle.dns_fields.specs.location.Location.{below, above, altitude_of, altitude_at, sizes_at, location_form, after_longitude, after_latitude, location_bytes};

use crate::location::angle::{Axis, angle, word_at};
use crate::location::fault::LocationFault;
use crate::location::fixed::centimeters;
use crate::location::size::size_at;
use dns_text::Token;
use std::alloc::{AllocError, Global};

/// The centimeters that the reference of altitudes is below the spheroid.
pub(crate) const REFERENCE: u64 = 10_000_000;

/// Returns the bytes of the location that words denote: a latitude, a longitude and an altitude, and perhaps a size, a
/// horizontal and a vertical precision. They are 1, 10000 and 10 meters where they are missing.
pub fn location_bytes(alloc: Global, tokens: &[Token<'_>]) -> Result<Vec<u8>, LocationFault>
    ensures ok { IfOk result (λ bytes. location_bytes (map lexeme tokens.now) ≡ Ok bytes.items) }
    ensures refused { IfErr result (λ fault. fault ≢ LocationFault.Memory
        → location_bytes (map lexeme tokens.now) ≡ Err fault) }
{
    let Some((latitude, place)) = angle(Axis::Latitude, 0, tokens) else {
        return Err(LocationFault::InvalidLatitude);
    };
    after_latitude(alloc, latitude, place, tokens)
}

/// Returns the bytes of a location from the longitude on, whose degrees are at a place.
fn after_latitude(
    alloc: Global,
    latitude: u32,
    place: usize,
    tokens: &[Token<'_>],
) -> Result<Vec<u8>, LocationFault>
    requires { place ≤ 4 }
    ensures ok { IfOk result (λ bytes.
        after_latitude latitude place (map lexeme tokens.now) ≡ Ok bytes.items) }
    ensures refused { IfErr result (λ fault. fault ≢ LocationFault.Memory
        → after_latitude latitude place (map lexeme tokens.now) ≡ Err fault) }
{
    let Some((longitude, next)) = angle(Axis::Longitude, place, tokens) else {
        return Err(LocationFault::InvalidLongitude);
    };
    after_longitude(alloc, latitude, longitude, next, tokens)
}

/// Returns the bytes of a location from the altitude on, which is at a place.
fn after_longitude(
    alloc: Global,
    latitude: u32,
    longitude: u32,
    place: usize,
    tokens: &[Token<'_>],
) -> Result<Vec<u8>, LocationFault>
    requires { place ≤ 8 }
    ensures ok { IfOk result (λ bytes.
        after_longitude latitude longitude place (map lexeme tokens.now) ≡ Ok bytes.items) }
    ensures refused { IfErr result (λ fault. fault ≢ LocationFault.Memory
        → after_longitude latitude longitude place (map lexeme tokens.now) ≡ Err fault) }
{
    let Some(altitude) = altitude_at(place, tokens) else {
        return Err(LocationFault::InvalidAltitude);
    };
    let Some(sizes) = sizes_at(place + 1, tokens) else {
        return Err(LocationFault::InvalidSize);
    };
    if place + 4 < tokens.len() {
        return Err(LocationFault::UnexpectedWord);
    }
    Ok(location_form(alloc, sizes, latitude, longitude, altitude)?)
}

/// Returns the bytes of a location of version 0.
fn location_form(
    alloc: Global,
    sizes: [u8; 3],
    latitude: u32,
    longitude: u32,
    altitude: u32,
) -> Result<Vec<u8>, AllocError>
    ensures { IfOk result (λ bytes. bytes.items ≡ location_form sizes latitude longitude altitude) }
{
    let mut bytes = Vec::new(alloc);
    bytes.push(0)?;
    bytes.extend_from_slice(&sizes)?;
    bytes.extend_from_slice(&latitude.to_be_bytes())?;
    bytes.extend_from_slice(&longitude.to_be_bytes())?;
    bytes.extend_from_slice(&altitude.to_be_bytes())?;
    Ok(bytes)
}

/// Returns the altitude at a place.
fn altitude_at(place: usize, tokens: &[Token<'_>]) -> Option<u32>
    ensures { result ≡ altitude_at place (map lexeme tokens.now) }
{
    altitude_of(word_at(place, tokens)?)
}

/// Returns the altitude of a word, in centimeters above the reference.
fn altitude_of(word: &[u8]) -> Option<u32>
    ensures { result ≡ altitude_of word.now }
{
    if !word.is_empty() && word[0] == b'-' {
        below(&word[1..])
    } else {
        above(word)
    }
}

/// Returns the altitude of meters below the spheroid.
fn below(text: &[u8]) -> Option<u32>
    ensures { result ≡ below (centimeters 100000 text.now) }
{
    let number = centimeters(text, 100_000)?;
    if number > REFERENCE {
        return None;
    }
    Some((REFERENCE - number) as u32)
}

/// Returns the altitude of meters above the spheroid.
fn above(text: &[u8]) -> Option<u32>
    ensures { result ≡ above (centimeters 42849672 text.now) }
{
    let number = centimeters(text, 42_849_672)?;
    if number > 4_284_967_295 {
        return None;
    }
    Some((REFERENCE + number) as u32)
}

/// Returns the octets of the size and of the precisions from a place on.
fn sizes_at(place: usize, tokens: &[Token<'_>]) -> Option<[u8; 3]>
    requires { place ≤ 9 }
    ensures { option_map (λ sizes. sizes) result ≡ sizes_at place (map lexeme tokens.now) }
{
    let size = size_at(0x12, place, tokens)?;
    let horizontal = size_at(0x16, place + 1, tokens)?;
    let vertical = size_at(0x13, place + 2, tokens)?;
    Some([size, horizontal, vertical])
}
