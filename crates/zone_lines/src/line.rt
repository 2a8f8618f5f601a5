//! The lines of texts.

ghost use Rattle.std.specs.Prelude.{◌≡◌, ◌++◌, [], IfOk, IsOk, OnOk, map, option_copied};
ghost use Rattle.std.specs.Str.Lines.{lines};
ghost use Rattle.zone_lines.specs.Line.{line_numbered, line_at, lines_of_all, lines_of_file, lines_view};
ghost use Rattle.zone_lines.specs.Source.{text_view};
ghost use Rattle.dns_zone_file.specs.internal.Parsing.{includes_view};

use crate::record_line::Position;
use crate::source::ZoneText;
use std::alloc::{AllocError, Global};

/// Returns the lines of each text of a zone file, without their ends, in the order of their numbers.
pub fn lines_of_file<'a>(
    alloc: Global,
    file: &ZoneText<'a>,
) -> Result<Vec<Vec<&'a str>>, AllocError>
    ensures { IfOk result (λ found.
        lines_view found.items ≡ lines_of_file (text_view file.entry.now)) }
{
    let mut texts = Vec::new(alloc);
    texts.push(lines_of(alloc, file.text)?)?;
    push_lines(alloc, &mut texts, file.includes)?;
    Ok(texts)
}

/// Appends the lines of each of the texts to include.
fn push_lines<'a>(
    alloc: Global,
    texts: &mut Vec<Vec<&'a str>>,
    includes: &'a [(String, String)],
) -> Result<(), AllocError>
    ensures { OnOk result (lines_view texts.new.items
        ≡ lines_view texts.old.items ++ lines_of_all (includes_view includes.now)) }
{
    for (_, text) in includes {
        texts.push(lines_of(alloc, text.as_str())?)?;
    }
    Ok(())
}

/// Returns the line at a place, among the lines of each text.
pub fn line_at<'a>(texts: &[Vec<&'a str>], at: Position) -> Option<&'a str>
    ensures { option_copied result ≡ line_at (lines_view texts.now) at }
{
    match texts.get(at.source) {
        Some(lines) => line_numbered(lines.as_slice(), at.line),
        None => None,
    }
}

/// Returns the lines of a text, without their ends. An empty text takes no memory.
pub fn lines_of(alloc: Global, text: &str) -> Result<Vec<&str>, AllocError>
    ensures ok { IfOk result (λ found. map (λ line. line.now) found.items ≡ lines text.now) }
    ensures empty { text.now ≡ [] → IsOk result }
{
    if text.is_empty() {
        return Ok(Vec::new(alloc));
    }
    text.lines().collect(alloc)
}

/// Returns the line of a number, from 1.
pub fn line_numbered<'a>(lines: &[&'a str], number: usize) -> Option<&'a str>
    ensures { result ≡ line_numbered lines.now number }
{
    let index = number.checked_sub(1)?;
    lines.get(index).copied()
}
