//! The words of records: a TTL, a type and data.

ghost use Rattle.std.specs.Prelude.{◌≡◌, ◌<◌, ◌+◌, IfOk, IfSome, codes, drop, length, map, take};
ghost use Rattle.std.specs.List.{position};
ghost use Rattle.std.specs.Str.{bytes_eq};
ghost use Rattle.dns_text.specs.Token.{lexeme};
ghost use Rattle.update_text.specs.Update.{arrow_of, text_after, text_before, text_with_ttl, text_without_ttl, ttl_of, word_lexeme};
ghost use Rattle.update_text.specs.Words.{texts};

use crate::type_word::parse_type;
use dns_text::Token;
use dns_wire::RecordType;
use dns_wire::codes::parse_decimal;
use dns_zone_file::Types;
use std::alloc::{AllocError, Global};
use std::marker::Model;

/// A TTL in seconds, a type, and the words of data.
#[derive(Drop)]
pub(super) struct RecordWords<'w> {
    pub(super) ttl: u32,
    pub(super) rtype: RecordType,
    pub(super) rdata: &'w [Vec<u8>],
}

impl<'w> Model for RecordWords<'w> {
    ghost use Rattle.update_text.specs.Update.{RecordText};
    ghost use Rattle.update_text.specs.Words.{texts};

    ghost Value = { RecordText };

    ghost view = { λ words. record {
      ttl = words.ttl;
      kind = words.rtype;
      rdata = texts words.rdata.now;
    } };
}

impl<'w> RecordWords<'w> {
    /// Reads a TTL, a type and data.
    pub(super) fn with_ttl(arguments: &'w [Vec<u8>], types: Types) -> Option<RecordWords<'w>>
        ensures { result ≡ text_with_ttl types (texts arguments.now) }
    {
        let [ttl, rtype, rdata @ ..] = arguments else {
            return None;
        };
        Some(RecordWords {
            ttl: parse_ttl_digits(ttl)?,
            rtype: parse_type(rtype, types)?,
            rdata,
        })
    }

    /// Reads a type and data. The TTL is 0.
    pub(super) fn without_ttl(arguments: &'w [Vec<u8>], types: Types) -> Option<RecordWords<'w>>
        ensures { result ≡ text_without_ttl types (texts arguments.now) }
    {
        let [rtype, rdata @ ..] = arguments else {
            return None;
        };
        Some(RecordWords {
            ttl: 0,
            rtype: parse_type(rtype, types)?,
            rdata,
        })
    }

    /// Returns the place of the first word `->` of the data.
    pub(super) fn find_arrow(&self) -> Option<usize>
        ensures place { result ≡ arrow_of self.now.rdata }
        ensures within { IfSome result (λ place. place < length self.now.rdata) }
    {
        find_arrow(self.rdata)
    }

    /// Returns the words before a place of the data. The TTL is 0.
    pub(super) fn before(&self, place: usize) -> RecordWords<'w>
        requires { place < length self.now.rdata }
        ensures { result ≡ text_before place self.now }
    {
        RecordWords {
            ttl: 0,
            rtype: self.rtype,
            rdata: words_before(self.rdata, place),
        }
    }

    /// Returns the words after the one at a place of the data.
    pub(super) fn after(&self, place: usize) -> RecordWords<'w>
        requires { place < length self.now.rdata }
        ensures { result ≡ text_after place self.now }
    {
        RecordWords {
            ttl: self.ttl,
            rtype: self.rtype,
            rdata: words_after(self.rdata, place),
        }
    }

    /// Returns the token of each word of the data.
    pub(super) fn tokens(&self, alloc: Global) -> Result<Vec<Token<'w>>, AllocError>
        ensures { IfOk result (λ tokens. map lexeme tokens.items
            ≡ map word_lexeme self.now.rdata) }
    {
        tokens_of(alloc, self.rdata)
    }
}

/// Parses a TTL in seconds: digits without a unit.
fn parse_ttl_digits(word: &[u8]) -> Option<u32>
    ensures { result ≡ ttl_of word.now }
{
    Some(parse_decimal(word, 4_294_967_295)? as u32)
}

/// Returns the place of the first word `->`.
fn find_arrow(words: &[Vec<u8>]) -> Option<usize>
    ensures place { result
        ≡ position (λ word. bytes_eq word.items (codes "->")) words.now }
    ensures within { IfSome result (λ place. place < length words.now) }
{
    words
        .iter()
        .position(|word| word.as_slice() == b"->".as_slice())
}

/// Returns the words before a place.
fn words_before(words: &[Vec<u8>], place: usize) -> &[Vec<u8>]
    requires { place < length words.now }
    ensures { result.now ≡ take place words.now }
{
    &words[..place]
}

/// Returns the words after the one at a place.
fn words_after(words: &[Vec<u8>], place: usize) -> &[Vec<u8>]
    requires { place < length words.now }
    ensures { result.now ≡ drop (place + 1) words.now }
{
    &words[place + 1..]
}

/// Returns the token of each word.
fn tokens_of(alloc: Global, words: &[Vec<u8>]) -> Result<Vec<Token<'_>>, AllocError>
    ensures { IfOk result (λ tokens. map lexeme tokens.items
        ≡ map word_lexeme (texts words.now)) }
{
    let mut tokens = Vec::new(alloc);
    for word in words {
        tokens.push(token_of(word))?;
    }
    Ok(tokens)
}

/// Returns a word as a token of record data (RFC 1035 section 5.1).
fn token_of(word: &[u8]) -> Token<'_>
    ensures { lexeme result ≡ word_lexeme word.now }
{
    match word {
        [b'"', string @ ..] => Token::Quoted(&string[..string.len().saturating_sub(1)]),
        b"@" => Token::At,
        _ => Token::CharData(word),
    }
}
