//! Locations as text (RFC 1876 section 3).

ghost use Rattle.std.specs.Prelude.{◌≡◌, ◌≤◌, ◌<◌, ◌∷◌, ◌++◌, [], Bool, Some, ◌/◌, ◌%◌, ◌+◌};
ghost use Rattle.std.specs.Fmt.{WritesOnOk, decimal};
ghost use Rattle.dns_fields.specs.location.Text.{distance, letter_of, seconds_text, distance_words, angle_words, angles_text, meters_text, altitude_text, size_text, length_words, location_words, spaced_words, joined_words};

use crate::location::angle::{Axis, DEGREE, MINUTE, ORIGIN};
use crate::location::location::REFERENCE;
use crate::location::size::octet_centimeters;
use crate::location::wire::{byte_at, number_at};
use std::fmt;

/// A location, which `Display` writes with all its parts: degrees, minutes, seconds and a letter for each angle, and meters
/// for the altitude, the size and the precisions. Seconds have three digits after the dot, and meters two.
#[derive(Clone, Copy, Debug)]
pub struct LocationText<'a> {
    /// The bytes of the location.
    pub bytes: &'a [u8],
}

impl<'a> fmt::Display for LocationText<'a> {
    ghost output = { λ it. Some (joined_words (location_words it.bytes.now)) };

    fn fmt<W: fmt::Write>(&self, f: &mut fmt::Formatter<W>) -> fmt::Result {
        write_location(self.bytes, f)
    }
}

/// Writes a location.
fn write_location<W: fmt::Write>(bytes: &[u8], f: &mut fmt::Formatter<W>) -> fmt::Result
    ensures { WritesOnOk W.write_str_gives f.old result
        (joined_words (location_words bytes.now)) f.new }
{
    write_angles(number_at(4, bytes), number_at(8, bytes), f)?;
    write_lengths(bytes, f)
}

// ---- angles

/// Writes a latitude and a longitude.
fn write_angles<W: fmt::Write>(
    latitude: u64,
    longitude: u64,
    f: &mut fmt::Formatter<W>,
) -> fmt::Result
    requires latitude { latitude < 4294967296 }
    requires longitude { longitude < 4294967296 }
    ensures { WritesOnOk W.write_str_gives f.old result (angles_text latitude longitude) f.new }
{
    write_angle(Axis::Latitude, latitude, f)?;
    f.write_char(' ')?;
    write_angle(Axis::Longitude, longitude, f)
}

/// Writes an angle.
fn write_angle<W: fmt::Write>(axis: Axis, value: u64, f: &mut fmt::Formatter<W>) -> fmt::Result
    requires { value < 4294967296 }
    ensures { WritesOnOk W.write_str_gives f.old result
        (joined_words (angle_words axis value)) f.new }
{
    write_distance(distance(value), f)?;
    f.write_char(' ')?;
    f.write_char(letter_of(axis, value < ORIGIN) as char)
}

/// Returns the thousandths of a second between an angle and the equator or the prime meridian.
fn distance(value: u64) -> u64
    requires { value < 4294967296 }
    ensures value { result ≡ distance value }
    ensures bound { result ≤ 2147483648 }
{
    if value < ORIGIN {
        ORIGIN - value
    } else {
        value - ORIGIN
    }
}

/// Returns the letter of a direction.
fn letter_of(axis: Axis, is_negative: bool) -> u8
    ensures value { result ≡ letter_of axis is_negative }
    ensures ascii { result < 128 }
{
    match axis {
        Axis::Latitude => { if is_negative { b'S' } else { b'N' } }
        Axis::Longitude => { if is_negative { b'W' } else { b'E' } }
    }
}

/// Writes degrees, minutes and seconds.
fn write_distance<W: fmt::Write>(number: u64, f: &mut fmt::Formatter<W>) -> fmt::Result
    ensures { WritesOnOk W.write_str_gives f.old result
        (joined_words (distance_words number)) f.new }
{
    let degrees = number / DEGREE;
    let minutes = number % DEGREE / MINUTE;
    write!(f, "{degrees} {minutes} ")?;
    write_seconds(number % MINUTE, f)
}

/// Writes seconds, from their thousandths.
fn write_seconds<W: fmt::Write>(number: u64, f: &mut fmt::Formatter<W>) -> fmt::Result
    ensures { WritesOnOk W.write_str_gives f.old result (seconds_text number) f.new }
{
    let whole = number / 1000;
    write!(f, "{whole}.")?;
    write_digit(number / 100, f)?;
    write_digit(number / 10, f)?;
    write_digit(number, f)
}

/// Writes the last digit of a number.
fn write_digit<W: fmt::Write>(number: u64, f: &mut fmt::Formatter<W>) -> fmt::Result
    ensures { WritesOnOk W.write_str_gives f.old result ((48 + number % 10) ∷ []) f.new }
{
    f.write_char((b'0' + (number % 10) as u8) as char)
}

// ---- meters

/// Writes the altitude, the size and the precisions, a blank before each.
fn write_lengths<W: fmt::Write>(bytes: &[u8], f: &mut fmt::Formatter<W>) -> fmt::Result
    ensures { WritesOnOk W.write_str_gives f.old result
        (spaced_words (length_words bytes.now)) f.new }
{
    write_height(number_at(12, bytes), f)?;
    write_size(1, bytes, f)?;
    write_size(2, bytes, f)?;
    write_size(3, bytes, f)
}

/// Writes a blank and an altitude.
fn write_height<W: fmt::Write>(value: u64, f: &mut fmt::Formatter<W>) -> fmt::Result
    ensures { WritesOnOk W.write_str_gives f.old result (32 ∷ altitude_text value) f.new }
{
    f.write_char(' ')?;
    write_altitude(value, f)
}

/// Writes an altitude.
fn write_altitude<W: fmt::Write>(value: u64, f: &mut fmt::Formatter<W>) -> fmt::Result
    ensures { WritesOnOk W.write_str_gives f.old result (altitude_text value) f.new }
{
    if value < REFERENCE {
        f.write_char('-')?;
        return write_meters(REFERENCE - value, f);
    }
    write_meters(value - REFERENCE, f)
}

/// Writes a blank and the size or a precision at a place.
fn write_size<W: fmt::Write>(place: usize, bytes: &[u8], f: &mut fmt::Formatter<W>) -> fmt::Result
    ensures { WritesOnOk W.write_str_gives f.old result
        (32 ∷ size_text place bytes.now) f.new }
{
    f.write_char(' ')?;
    write_meters(octet_centimeters(byte_at(place, bytes)), f)
}

/// Writes centimeters as meters.
fn write_meters<W: fmt::Write>(number: u64, f: &mut fmt::Formatter<W>) -> fmt::Result
    ensures { WritesOnOk W.write_str_gives f.old result (meters_text number) f.new }
{
    let whole = number / 100;
    write!(f, "{whole}.")?;
    write_digit(number / 10, f)?;
    write_digit(number, f)?;
    f.write_char('m')
}
