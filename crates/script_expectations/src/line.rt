//! The lines of a script: events, expectations, and lines that are neither.

ghost use Rattle.std.specs.Prelude.{◌≡◌, IfOk, MatchOption, drop, false, option_copied, true};
ghost use Rattle.std.specs.Str.Lines.{lines};
ghost use Rattle.script_expectations.specs.Line.{expected_lines, first_mark, is_blank, is_event, is_expectation, texts};

use std::alloc::{AllocError, Global};

/// Returns the lines of a text, without their ends.
pub(crate) fn lines_of(alloc: Global, text: &str) -> Result<Vec<&[u8]>, AllocError>
    ensures { IfOk result (λ found. texts found.items ≡ lines text.now) }
{
    let lines = text_lines(alloc, text)?;
    bytes_of(alloc, lines.as_slice())
}

/// Returns the lines of a text as texts.
fn text_lines(alloc: Global, text: &str) -> Result<Vec<&str>, AllocError>
    ensures { IfOk result (λ found. texts found.items ≡ lines text.now) }
{
    text.lines().collect(alloc)
}

/// Returns the bytes of each text.
fn bytes_of<'a>(alloc: Global, lines: &[&'a str]) -> Result<Vec<&'a [u8]>, AllocError>
    ensures { IfOk result (λ found. texts found.items ≡ texts lines.now) }
{
    let mut found = Vec::new(alloc);
    for line in lines {
        found.push(line.as_bytes())?;
    }
    Ok(found)
}

/// Returns `true` if a line has an event: it is neither blank nor a comment. Blanks may come before the `#` of a comment.
pub(crate) fn is_event(line: &[u8]) -> bool
    ensures { result ≡ is_event line.now }
{
    match first_mark(line) {
        Some(c) => *c != b'#',
        None => false,
    }
}

/// Returns the first character of a line that is not a blank.
fn first_mark(line: &[u8]) -> Option<&u8>
    ensures { option_copied result ≡ first_mark line.now }
{
    line.iter().find(|c| !is_blank(**c))
}

/// Returns `true` for a space and a tab.
pub(crate) fn is_blank(c: u8) -> bool
    ensures { result ≡ is_blank c }
{
    c == b' ' || c == b'\t'
}

/// Returns `true` if a line is an expectation.
pub(crate) fn is_expectation(line: &[u8]) -> bool
    ensures { result ≡ is_expectation line.now }
{
    expectation(line).is_some()
}

/// Returns the text that a line expects, if it is an expectation.
fn expectation(line: &[u8]) -> Option<&[u8]>
    ensures { MatchOption result (is_expectation line.now ≡ false)
        (λ text. (is_expectation line.now ≡ true) × (text.now ≡ drop 3 line.now)) }
{
    line.strip_prefix(b"#> ".as_slice())
}

/// Returns the lines that are expected of an event, from the lines of its script after it.
pub(crate) fn expected_lines<'a>(
    alloc: Global,
    lines: &[&'a [u8]],
) -> Result<Vec<&'a [u8]>, AllocError>
    ensures { IfOk result (λ found. texts found.items ≡ expected_lines (texts lines.now)) }
{
    let mut found = Vec::new(alloc);
    for line in lines {
        if is_event(line) {
            return Ok(found);
        }
        let Some(text) = expectation(line) else {
            continue;
        };
        found.push(text)?;
    }
    Ok(found)
}
