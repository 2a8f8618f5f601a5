//! The types of a bitmap by their names.

ghost use Rattle.std.specs.Prelude.{◌≡◌, ◌++◌, ◌+◌, ◌*◌, ◌≤◌, [], ◌∷◌, length};
ghost use Rattle.std.specs.Fmt.{WritesOnOk};
ghost use Rattle.dns_fields.specs.bitmaps.Bitmap.{weights, bit_types, without, types_of_octet, types_of_octets, types_of, spaced_types};

use crate::bitmaps::bitmap::WEIGHTS;
use crate::bitmaps::type_word::TypeWord;
use std::fmt;

/// A bitmap, which `Display` writes as its types in ascending order, a blank before each (RFC 4034 section 4.2).
#[derive(Clone, Copy, Debug)]
pub struct BitmapText<'a> {
    /// The bytes of the bitmap.
    pub bytes: &'a [u8],
}

impl<'a> fmt::Display for BitmapText<'a> {
    ghost use Rattle.std.specs.Prelude.{Some};

    ghost output = { λ it. Some (spaced_types (types_of 0 0 it.bytes.now)) };

    fn fmt<W: fmt::Write>(&self, f: &mut fmt::Formatter<W>) -> fmt::Result {
        write_blocks(self.bytes, f)
    }
}

/// Writes the types of a bitmap, a blank before each.
fn write_blocks<W: fmt::Write>(bytes: &[u8], f: &mut fmt::Formatter<W>) -> fmt::Result
    ensures { WritesOnOk W.write_str_gives f.old result
        (spaced_types (types_of 0 0 bytes.now)) f.new }
{
    let mut left = bytes;
    while left.len() >= 2 {
        let end = left.len().min(2 + usize::from(left[1]));
        write_octets(256 * u32::from(left[0]), &left[2..end], f)?;
        left = &left[end..];
    }
    Ok(())
}

/// Writes the types of octets, the first bit of which is the type with number `base`.
fn write_octets<W: fmt::Write>(base: u32, octets: &[u8], f: &mut fmt::Formatter<W>) -> fmt::Result
    requires { base + 8 * length octets.now ≤ 100000 }
    ensures { WritesOnOk W.write_str_gives f.old result
        (spaced_types (types_of_octets base octets.now)) f.new }
{
    let mut number = base;
    for octet in octets {
        write_octet(number, *octet, f)?;
        number += 8;
    }
    Ok(())
}

/// Writes the types of an octet, the first bit of which is the type with number `base`.
fn write_octet<W: fmt::Write>(base: u32, octet: u8, f: &mut fmt::Formatter<W>) -> fmt::Result
    requires { base + 8 ≤ 100000 }
    ensures { WritesOnOk W.write_str_gives f.old result
        (spaced_types (types_of_octet weights base octet)) f.new }
{
    let mut number = base;
    let mut left = octet;
    for weight in &WEIGHTS {
        write_bit(*weight, number, left, f)?;
        left = without(*weight, left);
        number += 1;
    }
    Ok(())
}

/// Returns what is left of an octet without the bit of a weight, which is the greatest that it may have.
fn without(weight: u8, octet: u8) -> u8
    ensures { result ≡ without weight octet }
{
    if weight <= octet {
        octet - weight
    } else {
        octet
    }
}

/// Writes a blank and a type, if an octet has the bit of a weight, which is the greatest that it may have.
fn write_bit<W: fmt::Write>(
    weight: u8,
    number: u32,
    octet: u8,
    f: &mut fmt::Formatter<W>,
) -> fmt::Result
    ensures { WritesOnOk W.write_str_gives f.old result
        (spaced_types (bit_types weight number octet)) f.new }
{
    if weight <= octet {
        return write_type(number, f);
    }
    Ok(())
}

/// Writes a blank and a type.
fn write_type<W: fmt::Write>(number: u32, f: &mut fmt::Formatter<W>) -> fmt::Result
    ensures { WritesOnOk W.write_str_gives f.old result (spaced_types (number ∷ [])) f.new }
{
    let word = TypeWord {
        number: (number % 65_536) as u16,
    };
    write!(f, " {word}")
}
