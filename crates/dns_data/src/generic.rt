//! The text of record data of any type (RFC 3597 section 5).

ghost use Rattle.std.specs.Prelude.{◌∷◌, [], ◌<◌, ◌/◌, ◌%◌, ◌≡◌};
ghost use Rattle.std.specs.Char.{digit_char};
ghost use Rattle.std.specs.Fmt.{WritesOnOk};
ghost use Rattle.dns_data.specs.Text.{hex_text, generic_text};

use std::fmt;

/// Writes `\#`, the number of the bytes, and the bytes in hexadecimal digits.
pub(crate) fn write_generic<W: fmt::Write>(bytes: &[u8], f: &mut fmt::Formatter<W>) -> fmt::Result
    ensures { WritesOnOk W.write_str_gives f.old result (generic_text bytes.now) f.new }
{
    if bytes.is_empty() {
        return f.write_str("\\# 0");
    }
    let len = bytes.len();
    write!(f, "\\# {len} ")?;
    write_hex(bytes, f)
}

/// Writes bytes in hexadecimal digits.
pub(crate) fn write_hex<W: fmt::Write>(bytes: &[u8], f: &mut fmt::Formatter<W>) -> fmt::Result
    ensures { WritesOnOk W.write_str_gives f.old result (hex_text bytes.now) f.new }
{
    for byte in bytes {
        write_byte(*byte, f)?;
    }
    Ok(())
}

/// Writes a byte as two hexadecimal digits.
fn write_byte<W: fmt::Write>(byte: u8, f: &mut fmt::Formatter<W>) -> fmt::Result
    ensures { WritesOnOk W.write_str_gives f.old result
        (digit_char (byte / 16) ∷ digit_char (byte % 16) ∷ []) f.new }
{
    f.write_char(hex_digit(byte / 16) as char)?;
    f.write_char(hex_digit(byte % 16) as char)
}

/// Returns a hexadecimal digit, in lower case.
fn hex_digit(value: u8) -> u8
    requires { value < 16 }
    ensures digit { result ≡ digit_char value }
    ensures ascii { result < 128 }
{
    if value < 10 {
        b'0' + value
    } else {
        b'a' - 10 + value
    }
}
