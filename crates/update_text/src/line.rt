//! Lines of words, with more words after a semicolon.

ghost use Rattle.std.specs.Prelude.{◌≡◌, ◌+◌, ◌≤◌, [], IfOk, IsOk, drop, length, map, option_map};
ghost use Rattle.update_text.specs.Words.{AreLineWords};

use crate::words::{FirstWords, split_words, words_alone};
use std::alloc::{AllocError, Global};

/// The words of a line, with their quotes and escapes.
#[derive(Drop)]
pub struct Line {
    /// The words before the semicolon, or all words if there is none.
    pub words: Vec<Vec<u8>>,
    /// The words after the semicolon. There are none if there is no semicolon.
    pub more: Vec<Vec<u8>>,
}

/// Returns the words of a line, which may have a semicolon that is neither quoted nor escaped, and more words after it.
///
/// The result is `None` if the line has a second semicolon, if a quote is not closed, or if a backslash at the end has nothing
/// to escape. An empty line takes no memory.
pub fn split_line(alloc: Global, text: &[u8]) -> Result<Option<Line>, AllocError>
    ensures words { IfOk result (λ found. AreLineWords text.now (option_map (λ line.
        (map (λ word. word.items) line.words.items, map (λ word. word.items) line.more.items)) found)) }
    ensures empty { text.now ≡ [] → IsOk result }
{
    if text.is_empty() {
        return Ok(Some(no_words(alloc)));
    }
    let Some(FirstWords { words, end }) = split_words(alloc, text)? else {
        return Ok(None);
    };
    match words_alone(alloc, after_semicolon(text, end))? {
        Some(more) => Ok(Some(Line { words, more })),
        None => Ok(None),
    }
}

/// Creates a line without words.
fn no_words(alloc: Global) -> Line
    ensures words { result.words.items ≡ [] }
    ensures more { result.more.items ≡ [] }
{
    let words = Vec::new(alloc);
    let more = Vec::new(alloc);
    Line { words, more }
}

/// Returns the text after the character at a place, if there is one.
fn after_semicolon(line: &[u8], place: usize) -> &[u8]
    requires { place ≤ length line.now }
    ensures { result.now ≡ drop (place + 1) line.now }
{
    if place < line.len() {
        &line[place + 1..]
    } else {
        &line[place..]
    }
}
