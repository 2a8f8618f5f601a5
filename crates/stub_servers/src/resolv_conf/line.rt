//! Lines: a keyword, and values after it.

ghost use Rattle.std.specs.Prelude.{◌≡◌, ◌<◌, IfOk, IfSome, length, map};
ghost use Rattle.std.specs.List.{after_first, before_first, position};
ghost use Rattle.stub_servers.specs.resolv_conf.Line.{is_blank, keyword_in, keyword_of, values_of, words_of};

use std::alloc::{AllocError, Global};

/// A keyword of a line that has an effect.
#[derive(Clone, Copy, Debug, PartialEq, Eq)]
pub enum Keyword {
    /// `nameserver`
    NameServer,
    /// `domain`
    Domain,
    /// `search`
    Search,
    /// `options`
    Options,
}

/// Returns the keyword of a line, if the line is UTF-8 and has one.
pub(crate) fn keyword_of(line: &[u8]) -> Option<Keyword>
    ensures { result ≡ keyword_of line.now }
{
    match str::from_utf8(line) {
        Ok(_text) => parse_keyword(before_blank(line)),
        Err(_) => None,
    }
}

/// Parses a keyword.
fn parse_keyword(word: &[u8]) -> Option<Keyword>
    ensures { result ≡ keyword_in word.now }
{
    if word == b"nameserver".as_slice() {
        Some(Keyword::NameServer)
    } else if word == b"domain".as_slice() {
        Some(Keyword::Domain)
    } else if word == b"search".as_slice() {
        Some(Keyword::Search)
    } else if word == b"options".as_slice() {
        Some(Keyword::Options)
    } else {
        None
    }
}

/// Returns the values of a line: the words after its first white space.
pub(crate) fn values_of(alloc: Global, line: &[u8]) -> Result<Vec<&[u8]>, AllocError>
    ensures { IfOk result (λ values.
        map (λ word. word.now) values.items ≡ values_of line.now) }
{
    words_of(alloc, after_blank(line))
}

/// Returns the words of a text, which white space separates.
fn words_of(alloc: Global, text: &[u8]) -> Result<Vec<&[u8]>, AllocError>
    ensures { IfOk result (λ words. map (λ word. word.now) words.items ≡ words_of text.now) }
{
    text.split(|octet| is_blank(*octet))
        .filter(|word| !word.is_empty())
        .collect(alloc)
}

/// Returns what a line has before its first white space.
fn before_blank(line: &[u8]) -> &[u8]
    ensures { result.now ≡ before_first is_blank line.now }
{
    match blank_place(line) {
        Some(place) => &line[..place],
        None => line,
    }
}

/// Returns what a line has after its first white space.
fn after_blank(line: &[u8]) -> &[u8]
    ensures { result.now ≡ after_first is_blank line.now }
{
    match blank_place(line) {
        Some(place) => &line[place + 1..],
        None => &[],
    }
}

/// Returns the place of the first white space of a line.
fn blank_place(line: &[u8]) -> Option<usize>
    ensures place { result ≡ position is_blank line.now }
    ensures within { IfSome result (λ place. place < length line.now) }
{
    line.iter().position(|octet| is_blank(*octet))
}

/// Returns `true` for a space or a tab.
fn is_blank(octet: u8) -> bool
    ensures { result ≡ is_blank octet }
{
    octet == b' ' || octet == b'\t'
}
