//! Names without a dot in the data of entries (RFC 1035 section 5.1).

ghost use Rattle.std.specs.Prelude.{◌≡◌, ◌≤◌, map, length, drop, slice_get};
ghost use Rattle.dns_text.specs.Token.{lexeme};
ghost use Rattle.zone_lines.specs.Dotless.{has_dotless_name, is_dotless, is_dotless_data, names_dotless};

use dns_formats::is_generic;
use dns_text::Token;
use dns_wire::RecordType;
use dns_zone_file::{Types, parse_fields};

/// Returns `true` if some name in the data of an entry has no dot, so that the origin completes it.
pub(crate) fn has_dotless_name(types: Types, tokens: &[Token<'_>]) -> bool
    ensures { result ≡ has_dotless_name types (map lexeme tokens.now) }
{
    let [_, words @ ..] = tokens else {
        return false;
    };
    match parse_fields(types, words) {
        Ok(fields) => is_dotless_data(fields.record_type, words_from(words, fields.count)),
        Err(_) => false,
    }
}

/// Returns the words from a place on.
fn words_from<'a, 'b>(words: &'b [Token<'a>], place: usize) -> &'b [Token<'a>]
    requires { place ≤ length words.now }
    ensures { map lexeme result.now ≡ drop place (map lexeme words.now) }
{
    &words[place..]
}

/// Returns `true` if some name in data has no dot. Data in the generic form has no names.
fn is_dotless_data(record_type: RecordType, words: &[Token<'_>]) -> bool
    ensures { result ≡ is_dotless_data record_type (map lexeme words.now) }
{
    !is_generic(words) && names_dotless(record_type, words)
}

/// Returns `true` if some name among the words of data has no dot.
fn names_dotless(record_type: RecordType, words: &[Token<'_>]) -> bool
    ensures { result ≡ names_dotless record_type (map lexeme words.now) }
{
    match record_type {
        RecordType::CNAME | RecordType::NS | RecordType::PTR => is_dotless(words, 0),
        RecordType::MX => is_dotless(words, 1),
        RecordType::SRV => is_dotless(words, 3),
        RecordType::SOA => is_dotless(words, 0) || is_dotless(words, 1),
        _ => false,
    }
}

/// Returns `true` if there is a word at a place, and it has no dot.
fn is_dotless(words: &[Token<'_>], place: usize) -> bool
    ensures { result ≡ is_dotless (slice_get (map lexeme words.now) place) }
{
    match words.get(place) {
        Some(Token::CharData(text)) => !text.contains(&b'.'),
        _ => false,
    }
}
