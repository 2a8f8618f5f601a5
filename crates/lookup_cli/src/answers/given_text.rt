//! Given texts as JSON strings.

ghost use Rattle.std.specs.Prelude.{◌≡◌, ◌<◌, Some};
ghost use Rattle.std.specs.Char.{encode_utf8};
ghost use Rattle.std.specs.Fmt.{WritesOnOk};
ghost use Rattle.dns_log.specs.Json.{escape_text, hex_digit};
ghost use Rattle.lookup_cli.specs.answers.GivenText.{given_octets, given_text};

use std::fmt;

/// A text as it was given, which `Display` writes as a JSON string of the same characters (RFC 8259 section 7).
#[derive(Clone, Copy)]
pub(crate) struct GivenText<'a>(pub(crate) &'a str);

impl fmt::Display for GivenText<'_> {
    ghost output = { λ text. Some (given_text text.0.now) };

    fn fmt<W: fmt::Write>(&self, f: &mut fmt::Formatter<W>) -> fmt::Result {
        f.write_char('"')?;
        write_characters(self.0, f)?;
        f.write_char('"')
    }
}

/// Writes the characters of a JSON string, with escapes where they need one.
fn write_characters<W: fmt::Write>(text: &str, f: &mut fmt::Formatter<W>) -> fmt::Result
    ensures { WritesOnOk W.write_str_gives f.old result (given_octets text.now) f.new }
{
    for c in text.chars() {
        write_character(c, f)?;
    }
    Ok(())
}

/// Writes a character of a JSON string, with an escape where it needs one.
fn write_character<W: fmt::Write>(c: char, f: &mut fmt::Formatter<W>) -> fmt::Result
    ensures { WritesOnOk W.write_str_gives f.old result (given_octets (encode_utf8 c)) f.new }
{
    match c {
        '"' => f.write_str("\\\""),
        '\\' => f.write_str("\\\\"),
        c if c < ' ' => write_escape(c, f),
        c => f.write_char(c),
    }
}

/// Writes a control character as `\u` and four hexadecimal digits.
fn write_escape<W: fmt::Write>(c: char, f: &mut fmt::Formatter<W>) -> fmt::Result
    requires { c < 32 }
    ensures { WritesOnOk W.write_str_gives f.old result (escape_text c) f.new }
{
    let number = c as u32 as u8;
    f.write_str("\\u00")?;
    f.write_char(hex_digit(number / 16) as char)?;
    f.write_char(hex_digit(number % 16) as char)
}

/// Returns the hexadecimal digit of a number below 16.
fn hex_digit(number: u8) -> u8
    requires { number < 16 }
    ensures value { result ≡ hex_digit number }
    ensures ascii { result < 128 }
{
    if number < 10 {
        b'0' + number
    } else {
        b'a' + (number - 10)
    }
}
