//! Expectations that are not at the start of their line.

ghost use Rattle.std.specs.Prelude.{◌≡◌, IfOk};
ghost use Rattle.std.specs.Str.Lines.{lines};
ghost use Rattle.script_expectations.specs.Line.{first_indented, is_indented, texts, unindented};

use crate::line::{is_blank, is_expectation, lines_of};
use std::alloc::{AllocError, Global};

/// Returns the first line of a script, counted from 1, that has blanks before `#> `. It would be a comment, and no expectation.
pub fn indented_expectation(alloc: Global, script: &str) -> Result<Option<usize>, AllocError>
    ensures { IfOk result (λ found. found ≡ first_indented 1 (lines script.now)) }
{
    let lines = lines_of(alloc, script)?;
    Ok(first_indented(lines.as_slice()))
}

/// Returns the first line that has blanks before `#> `, counted from 1.
fn first_indented(lines: &[&[u8]]) -> Option<usize>
    ensures { result ≡ first_indented 1 (texts lines.now) }
{
    for (i, line) in lines.iter().enumerate() {
        if is_indented(line) {
            return Some(i + 1);
        }
    }
    None
}

/// Returns `true` if a line has blanks before `#> `.
fn is_indented(line: &[u8]) -> bool
    ensures { result ≡ is_indented line.now }
{
    !is_expectation(line) && is_expectation(unindented(line))
}

/// Returns a line without the blanks at its start.
fn unindented(line: &[u8]) -> &[u8]
    ensures { result.now ≡ unindented line.now }
{
    for (i, c) in line.iter().enumerate() {
        if !is_blank(*c) {
            return line.split_at(i).1;
        }
    }
    &[]
}
