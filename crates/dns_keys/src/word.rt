//! Words and symbols.

ghost use Rattle.std.specs.Prelude.{◌≡◌, ◌≤◌, ◌<◌, length, option_map, IfSome};
ghost use Rattle.std.specs.List.{position, position_or_len};
ghost use Rattle.dns_keys.specs.Word.{after_symbol, has_line_feed, is_end, is_quote, plain_word, quoted_word, word_at};

use crate::blanks::is_blank;
use std::marker::Model;

/// A word, without its quotation marks, and the text after it.
#[derive(Drop)]
pub struct Word<'t> {
    text: &'t [u8],
    rest: &'t [u8],
}

impl<'t> Model for Word<'t> {
    ghost use Rattle.dns_keys.specs.WordParts.{WordParts};

    ghost Value = { WordParts };

    ghost view = { λ w. record { text = w.text.now; rest = w.rest.now } };
}

impl<'t> Word<'t> {
    ghost use Rattle.std.specs.Prelude.{◌≡◌};

    /// Creates a word with the text after it.
    pub fn new(text: &'t [u8], rest: &'t [u8]) -> Word<'t>
        ensures { result ≡ record { text = text.now; rest = rest.now } }
    {
        Word { text, rest }
    }

    /// Returns the word.
    pub fn text(&self) -> &'t [u8]
        ensures { result.now ≡ self.now.text }
    {
        self.text
    }

    /// Returns the text after the word.
    pub fn rest(&self) -> &'t [u8]
        ensures { result.now ≡ self.now.rest }
    {
        self.rest
    }
}

/// Returns the word at the front of a text.
pub fn word_at(text: &[u8]) -> Option<Word<'_>>
    ensures word { result ≡ word_at text.now }
    ensures shorter { IfSome result (λ word. length word.rest < length text.now) }
{
    match text {
        [b'"', more @ ..] => quoted_word(more),
        _ => plain_word(text),
    }
}

/// Returns the word before the next quotation mark, which must be on the same line.
fn quoted_word(text: &[u8]) -> Option<Word<'_>>
    ensures word { result ≡ quoted_word text.now }
    ensures shorter { IfSome result (λ word. length word.rest < length text.now) }
{
    let len = quote_place(text)?;
    if has_line_feed(&text[..len]) {
        return None;
    }
    Some(Word {
        text: &text[..len],
        rest: &text[len + 1..],
    })
}

/// Returns the word before the next blank, symbol or quotation mark. It has an octet at least.
fn plain_word(text: &[u8]) -> Option<Word<'_>>
    ensures word { result ≡ plain_word text.now }
    ensures shorter { IfSome result (λ word. length word.rest < length text.now) }
{
    let len = plain_len(text);
    if len == 0 {
        return None;
    }
    Some(Word {
        text: &text[..len],
        rest: &text[len..],
    })
}

/// Returns the place of the first quotation mark.
fn quote_place(text: &[u8]) -> Option<usize>
    ensures place { result ≡ position is_quote text.now }
    ensures within { IfSome result (λ place. place < length text.now) }
{
    text.iter().position(|octet| is_quote(*octet))
}

/// Returns the length of a word without quotation marks.
fn plain_len(text: &[u8]) -> usize
    ensures len { result ≡ position_or_len is_end text.now }
    ensures within { result ≤ length text.now }
{
    match end_place(text) {
        Some(place) => place,
        None => text.len(),
    }
}

/// Returns the place of the first octet that ends a word without quotation marks.
fn end_place(text: &[u8]) -> Option<usize>
    ensures place { result ≡ position is_end text.now }
    ensures within { IfSome result (λ place. place < length text.now) }
{
    text.iter().position(|octet| is_end(*octet))
}

/// Returns `true` if a text has a line feed.
fn has_line_feed(text: &[u8]) -> bool
    ensures { result ≡ has_line_feed text.now }
{
    text.iter().any(|octet| *octet == b'\n')
}

/// Returns `true` for a quotation mark.
fn is_quote(octet: u8) -> bool
    ensures { result ≡ is_quote octet }
{
    octet == b'"'
}

/// Returns `true` for a blank, a symbol or a quotation mark.
fn is_end(octet: u8) -> bool
    ensures { result ≡ is_end octet }
{
    is_blank(octet) || octet == b'{' || octet == b'}' || octet == b';' || is_quote(octet)
}

/// Returns the text after a symbol at its front.
pub fn after_symbol(text: &[u8], symbol: u8) -> Option<&[u8]>
    ensures rest { option_map (λ rest. rest.now) result ≡ after_symbol symbol text.now }
    ensures no_longer { IfSome result (λ rest. length rest.now ≤ length text.now) }
{
    match text {
        [octet, rest @ ..] if *octet == symbol => Some(rest),
        _ => None,
    }
}
