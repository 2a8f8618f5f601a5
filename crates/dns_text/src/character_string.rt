//! Character strings in text (RFC 1035 section 5.1).

ghost use Rattle.std.specs.Prelude.{◌≡◌, ◌+◌, ◌≤◌, ◌<◌, [], length, IsOk, IfOk, IfSome, MatchOption, Option, Some, None, option_map};
ghost use Rattle.std.specs.Fmt.{WritesOnOk};
ghost use Rattle.dns_names.specs.Parse.{escape_len, more_len};
ghost use Rattle.dns_names.specs.Print.{escape_sequence};
ghost use Rattle.dns_text.specs.CharacterString.{unescaped, string_escape, first_octet, octet_text, escaped_text, quoted_text};

use dns_names::escaped_octet;
use std::alloc::{AllocError, Global};
use std::fmt;

/// Returns the octets of a character string from its text, without quotes if it is quoted: a backslash and three decimal
/// digits up to 255 denote an octet, a backslash and another printable ASCII character or a line feed that character, and
/// any other character itself. The result is `None` if the text has a backslash without a valid escape.
pub fn unescape(alloc: Global, text: &[u8]) -> Result<Option<Vec<u8>>, AllocError>
    ensures ok { IfOk result (λ found. MatchOption found (unescaped text.now ≡ None)
        (λ octets. unescaped text.now ≡ Some octets.items)) }
    ensures decided { text.now ≡ [] → IsOk result }
{
    let mut octets = Vec::new(alloc);
    let mut place = 0;
    while place < text.len() {
        let Some((octet, len)) = first_octet(&text[place..]) else {
            return Ok(None);
        };
        octets.push(octet)?;
        place += len;
    }
    Ok(Some(octets))
}

/// Returns the octet that a text begins with, and the length of its text.
fn first_octet(text: &[u8]) -> Option<(u8, usize)>
    requires { 0 < length text.now }
    ensures octet { option_map (λ found. found.0) result ≡ first_octet text.now }
    ensures len { IfSome result (λ found. found.1 ≡ more_len text.now + 1) }
    ensures within { IfSome result (λ found. found.1 ≤ length text.now) }
{
    if text[0] != b'\\' {
        return Some((text[0], 1));
    }
    let (octet, len) = string_escape(&text[1..])?;
    Some((octet, len + 1))
}

/// Returns the octet that an escape of a string denotes, from the text after its backslash, and how many characters of that
/// text the escape takes: those of an escape of names, or a line feed.
fn string_escape(text: &[u8]) -> Option<(u8, usize)>
    ensures octet { option_map (λ found. found.0) result ≡ string_escape text.now }
    ensures len { IfSome result (λ found. found.1 ≡ escape_len text.now) }
    ensures within { IfSome result (λ found. found.1 ≤ length text.now) }
{
    if text.is_empty() {
        return None;
    }
    match text[0] {
        b'\n' => Some((b'\n', 1)),
        _ => escaped_octet(text),
    }
}

/// The octets of a character string, which `Display` writes between quotes: `"` and `\` after a backslash, and each octet
/// that is not a printable ASCII character as `\DDD`.
#[derive(Clone, Copy, Debug)]
pub struct QuotedString<'a>(pub &'a [u8]);

impl<'a> fmt::Display for QuotedString<'a> {
    ghost output = { λ string. Some (quoted_text string.0.now) };

    fn fmt<W: fmt::Write>(&self, f: &mut fmt::Formatter<W>) -> fmt::Result {
        f.write_char('"')?;
        write_octets(self.0, f)?;
        f.write_char('"')
    }
}

/// Writes octets between quotes.
fn write_octets<W: fmt::Write>(octets: &[u8], f: &mut fmt::Formatter<W>) -> fmt::Result
    ensures { WritesOnOk W.write_str_gives f.old result (escaped_text octets.now) f.new }
{
    for octet in octets {
        write_octet(*octet, f)?;
    }
    Ok(())
}

/// Writes an octet between quotes.
fn write_octet<W: fmt::Write>(octet: u8, f: &mut fmt::Formatter<W>) -> fmt::Result
    ensures { WritesOnOk W.write_str_gives f.old result (octet_text octet) f.new }
{
    match octet {
        b'"' | b'\\' => {
            f.write_char('\\')?;
            f.write_char(octet as char)
        }
        32..=126 => f.write_char(octet as char),
        _ => write_escape(octet, f),
    }
}

/// Writes an octet as a backslash and three digits.
fn write_escape<W: fmt::Write>(octet: u8, f: &mut fmt::Formatter<W>) -> fmt::Result
    ensures { WritesOnOk W.write_str_gives f.old result (escape_sequence octet) f.new }
{
    f.write_char('\\')?;
    f.write_char((b'0' + octet / 100) as char)?;
    f.write_char((b'0' + octet / 10 % 10) as char)?;
    f.write_char((b'0' + octet % 10) as char)
}
