//! Which bytes are a location (RFC 1876 section 2).

ghost use Rattle.std.specs.Prelude.{◌≡◌, ◌<◌, ◌+◌, get_or};
ghost use Rattle.dns_fields.specs.location.Wire.{number_at, are_sizes, is_angle, is_location};

use crate::location::angle::{Axis, DEGREE, ORIGIN, greatest};
use crate::location::size::is_size;

/// Returns `true` if bytes are a location of version 0: sixteen, with sizes whose digits are below 10, and with angles of at
/// most 90 and 180 degrees.
pub fn is_location(bytes: &[u8]) -> bool
    ensures { result ≡ is_location bytes.now }
{
    bytes.len() == 16
        && byte_at(0, bytes) == 0
        && are_sizes(bytes)
        && is_angle(Axis::Latitude, number_at(4, bytes))
        && is_angle(Axis::Longitude, number_at(8, bytes))
}

/// Returns `true` if the octets of the size and of the precisions are those of sizes.
fn are_sizes(bytes: &[u8]) -> bool
    ensures { result ≡ are_sizes bytes.now }
{
    is_size(byte_at(1, bytes)) && is_size(byte_at(2, bytes)) && is_size(byte_at(3, bytes))
}

/// Returns `true` if a number is an angle of at most the greatest degrees.
fn is_angle(axis: Axis, value: u64) -> bool
    requires { value < 4294967296 }
    ensures { result ≡ is_angle axis value }
{
    let most = DEGREE * greatest(axis);
    value <= ORIGIN + most && ORIGIN <= value + most
}

/// Returns a byte, or 0 after the last.
pub(crate) fn byte_at(place: usize, bytes: &[u8]) -> u8
    ensures { result ≡ get_or bytes.now place 0 }
{
    if place < bytes.len() { bytes[place] } else { 0 }
}

/// Returns the number of 32 bits at a place.
pub(crate) fn number_at(place: usize, bytes: &[u8]) -> u64
    requires { place < 16 }
    ensures value { result ≡ number_at place bytes.now }
    ensures bound { result < 4294967296 }
{
    let a = u64::from(byte_at(place, bytes));
    let b = u64::from(byte_at(place + 1, bytes));
    let c = u64::from(byte_at(place + 2, bytes));
    let d = u64::from(byte_at(place + 3, bytes));
    16_777_216 * a + 65_536 * b + 256 * c + d
}
