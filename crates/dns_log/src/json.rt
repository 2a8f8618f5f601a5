//! Texts and optional numbers in JSON (RFC 8259 sections 3, 6 and 7).

ghost use Rattle.std.specs.Prelude.{◌≡◌, ◌<◌, Some, option_map};
ghost use Rattle.std.specs.Fmt.{DisplaysOnOk, HasWritten, IsPlainFormatter, WritesOnOk};
ghost use Rattle.dns_log.specs.Json.{escape_text, hex_digit, json_bool, json_number, json_octet, json_octets, json_text};

use std::fmt::{self, Write};

/// The octets of a text, each the character of its number, which `Display` writes as a JSON string: `"` and `\` after a
/// backslash, and each octet that is not a printable ASCII character as `\u` and four hexadecimal digits (RFC 8259 section 7).
#[derive(Clone, Copy, Debug)]
pub struct JsonText<'a>(pub &'a [u8]);

/// A value, which `Display` writes as a JSON string of the text that the `Display` of the value writes. Its octets are escaped as
/// those of a [`JsonText`]. It takes no memory.
#[derive(Clone, Copy, Debug)]
pub struct JsonDisplay<D>(pub D);

/// A number, or none, which `Display` writes as a JSON number or `null` (RFC 8259 sections 3 and 6).
#[derive(Clone, Copy, Debug)]
pub struct JsonNumber(pub Option<u64>);

/// A truth value, which `Display` writes as `true` or `false` (RFC 8259 section 3).
#[derive(Clone, Copy, Debug)]
pub struct JsonBool(pub bool);

impl<'a> fmt::Display for JsonText<'a> {
    ghost output = { λ text. Some (json_text text.0.now) };

    #[tactic(auto, unfolding(crate::specs::Json::json_text))]
    fn fmt<W: fmt::Write>(&self, f: &mut fmt::Formatter<W>) -> fmt::Result {
        f.write_char('"')?;
        write_octets(self.0, f)?;
        f.write_char('"')
    }
}

impl<D: fmt::Display> fmt::Display for JsonDisplay<D> {
    ghost output = { λ value. option_map json_text (D.output value.0) };

    #[tactic(auto, unfolding(crate::specs::Json::json_text))]
    fn fmt<W: fmt::Write>(&self, f: &mut fmt::Formatter<W>) -> fmt::Result {
        f.write_char('"')?;
        write_escaped(&self.0, f)?;
        f.write_char('"')
    }
}

/// The inside of a JSON string, as a writer of text that escapes what is written to it.
#[derive(Drop)]
struct Inside<'a, W> {
    f: &'a mut fmt::Formatter<W>,
}

impl<W: fmt::Write> fmt::Write for Inside<'_, W> {
    ghost write_str_gives = { λ old text new. (new.f.ghost_name ≡ old.f.ghost_name)
        × (IsPlainFormatter old.f.now → HasWritten W.write_str_gives old.f.now (json_octets text) new.f.now) };

    fn write_str(&mut self, text: &str) -> fmt::Result {
        write_octets(text.as_bytes(), self.f)
    }
}

/// Writes the text of a value between quotes.
fn write_escaped<D: fmt::Display, W: fmt::Write>(
    value: &D,
    f: &mut fmt::Formatter<W>,
) -> fmt::Result
    ensures { DisplaysOnOk W.write_str_gives f.old result
        (option_map json_octets (D.output value.now)) f.new }
{
    let mut inside = Inside { f };
    let result = inside.write(value);
    let Inside { f } = inside;
    // Tells the prover what the formatter has written.
    let _ = &*f;
    result
}

impl fmt::Display for JsonNumber {
    ghost output = { λ number. Some (json_number number.0) };

    #[tactic(auto, unfolding(crate::specs::Json::json_number))]
    fn fmt<W: fmt::Write>(&self, f: &mut fmt::Formatter<W>) -> fmt::Result {
        match self.0 {
            Some(number) => write!(f, "{number}"),
            None => f.write_str("null"),
        }
    }
}

impl fmt::Display for JsonBool {
    ghost output = { λ truth. Some (json_bool truth.0) };

    #[tactic(auto, unfolding(crate::specs::Json::json_bool))]
    fn fmt<W: fmt::Write>(&self, f: &mut fmt::Formatter<W>) -> fmt::Result {
        if self.0 {
            f.write_str("true")
        } else {
            f.write_str("false")
        }
    }
}

/// Writes octets between quotes.
fn write_octets<W: fmt::Write>(octets: &[u8], f: &mut fmt::Formatter<W>) -> fmt::Result
    ensures { WritesOnOk W.write_str_gives f.old result (json_octets octets.now) f.new }
{
    for octet in octets {
        write_octet(*octet, f)?;
    }
    Ok(())
}

/// Writes an octet between quotes.
fn write_octet<W: fmt::Write>(octet: u8, f: &mut fmt::Formatter<W>) -> fmt::Result
    ensures { WritesOnOk W.write_str_gives f.old result (json_octet octet) f.new }
{
    match octet {
        b'"' | b'\\' => {
            f.write_char('\\')?;
            f.write_char(octet as char)
        }
        32..=126 => f.write_char(octet as char),
        _ => write_escape(octet, f),
    }
}

/// Writes an octet as `\u` and four hexadecimal digits.
fn write_escape<W: fmt::Write>(octet: u8, f: &mut fmt::Formatter<W>) -> fmt::Result
    ensures { WritesOnOk W.write_str_gives f.old result (escape_text octet) f.new }
{
    f.write_char('\\')?;
    f.write_char('u')?;
    f.write_char('0')?;
    f.write_char('0')?;
    f.write_char(hex_digit(octet / 16) as char)?;
    f.write_char(hex_digit(octet % 16) as char)
}

/// Returns the hexadecimal digit of a number below 16.
fn hex_digit(number: u8) -> u8
    requires { number < 16 }
    ensures value { result ≡ hex_digit number }
    ensures ascii { result < 128 }
{
    if number < 10 {
        b'0' + number
    } else {
        b'a' + (number - 10)
    }
}
