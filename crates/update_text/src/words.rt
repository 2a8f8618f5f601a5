//! The words of a text (RFC 1035 section 5.1).

ghost use Rattle.std.specs.Prelude.{◌≡◌, ◌++◌, [], IfOk, OnOk, map, option_map};
ghost use Rattle.update_text.specs.Words.{AreWords, is_blank};
ghost use Rattle.update_text.specs.internal.Words.{IsSplit, complete_words, ends_words, is_escape, is_quoted, open_word, role_of, word_if_any};

use std::alloc::{AllocError, Global};

/// The words at the start of a text.
#[derive(Drop)]
pub(crate) struct FirstWords {
    /// The words, with their quotes and escapes.
    pub(crate) words: Vec<Vec<u8>>,
    /// The index of the semicolon that ends the words, or the length of the text.
    pub(crate) end: usize,
}

/// The role of a character in the words of its line.
#[derive(Clone, Copy)]
enum Role {
    /// A blank between words.
    Blank,
    /// The quote that opens a quoted string, and ends a word before it.
    OpenQuote,
    /// The quote that ends a quoted string.
    CloseQuote,
    /// Any other character: it belongs to a word.
    Text,
}

/// Returns `true` if a character is a space or a tab.
pub fn is_blank(c: u8) -> bool
    ensures { result ≡ is_blank c }
{
    c == b' ' || c == b'\t'
}

/// Returns `true` if a character is a backslash that escapes the next one.
pub(crate) fn is_escape(escaped: bool, c: u8) -> bool
    ensures { result ≡ is_escape escaped c }
{
    !escaped && c == b'\\'
}

/// Returns `true` if a quote is open after a character.
pub(crate) fn is_quoted(escaped: bool, quoted: bool, c: u8) -> bool
    ensures { result ≡ is_quoted escaped quoted c }
{
    if !escaped && c == b'"' {
        !quoted
    } else {
        quoted
    }
}

/// Returns the role of a character, given whether it is escaped and whether a quote is open before it.
fn role_of(escaped: bool, quoted: bool, c: u8) -> Role
    ensures { result ≡ role_of escaped quoted c }
{
    if escaped {
        return Role::Text;
    }
    if c == b'"' {
        return if quoted {
            Role::CloseQuote
        } else {
            Role::OpenQuote
        };
    }
    if !quoted && is_blank(c) {
        Role::Blank
    } else {
        Role::Text
    }
}

/// Completes the open word, if it has a character.
fn end_word(alloc: Global, done: &mut Vec<Vec<u8>>, word: &mut Vec<u8>) -> Result<(), AllocError>
    ensures done { OnOk result (map (λ v. v.items) done.new.items
        ≡ map (λ v. v.items) done.old.items ++ word_if_any word.old.items) }
    ensures word { OnOk result (word.new.items ≡ []) }
{
    if !word.is_empty() {
        done.push(std::mem::replace(word, Vec::new(alloc)))?;
    }
    Ok(())
}

/// Adds a character of a line to its words.
fn take_character(
    alloc: Global,
    role: Role,
    c: u8,
    done: &mut Vec<Vec<u8>>,
    word: &mut Vec<u8>,
) -> Result<(), AllocError>
    ensures done { OnOk result (map (λ v. v.items) done.new.items
        ≡ map (λ v. v.items) done.old.items ++ complete_words role word.old.items c) }
    ensures word { OnOk result (word.new.items ≡ open_word role word.old.items c) }
{
    match role {
        Role::Blank => end_word(alloc, done, word)?,
        Role::OpenQuote => {
            end_word(alloc, done, word)?;
            word.push(c)?;
        }
        Role::CloseQuote => {
            word.push(c)?;
            end_word(alloc, done, word)?;
        }
        Role::Text => word.push(c)?,
    }
    Ok(())
}

/// Returns the words of a text, up to its end or to a semicolon that is neither quoted nor escaped. `None` if a quote is not
/// closed, or if a backslash at the end of the text has nothing to escape.
pub(crate) fn split_words(alloc: Global, text: &[u8]) -> Result<Option<FirstWords>, AllocError>
    ensures { IfOk result (IsSplit text.now) }
{
    let mut words = Vec::new(alloc);
    let mut word = Vec::new(alloc);
    let mut escaped = false;
    let mut quoted = false;
    for (i, c) in text.iter().enumerate() {
        if ends_words(escaped, quoted, *c) {
            end_word(alloc, &mut words, &mut word)?;
            return Ok(Some(FirstWords { words, end: i }));
        }
        let role = role_of(escaped, quoted, *c);
        take_character(alloc, role, *c, &mut words, &mut word)?;
        quoted = is_quoted(escaped, quoted, *c);
        escaped = is_escape(escaped, *c);
    }
    if escaped || quoted {
        return Ok(None);
    }
    end_word(alloc, &mut words, &mut word)?;
    Ok(Some(FirstWords {
        words,
        end: text.len(),
    }))
}

/// Returns the words of a text, or `None` if it has a semicolon, or if it does not consist of words.
pub(crate) fn words_alone(alloc: Global, text: &[u8]) -> Result<Option<Vec<Vec<u8>>>, AllocError>
    ensures { IfOk result (λ found. AreWords text.now
        (option_map (λ words. map (λ word. word.items) words.items) found)) }
{
    match split_words(alloc, text)? {
        Some(FirstWords { words, end }) => {
            if end < text.len() {
                return Ok(None);
            }
            Ok(Some(words))
        }
        None => Ok(None),
    }
}

/// Returns `true` if a character is a semicolon that is neither escaped nor quoted.
fn ends_words(escaped: bool, quoted: bool, c: u8) -> bool
    ensures { result ≡ ends_words escaped quoted c }
{
    !escaped && !quoted && c == b';'
}
