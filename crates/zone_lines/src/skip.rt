//! Where a file is read on after a fault of its text.

ghost use Rattle.std.specs.Prelude.{◌≡◌, ◌<◌, ◌≤◌, ◌+◌, IfOk, length};
ghost use Rattle.zone_lines.specs.Skip.{after_line, continues_entry, first_line, lines_after, opens_list, Resumes, SkipsContinuation, taken_lines};

use std::alloc::AllocError;

/// A text of a file from a line on.
#[derive(Clone, Copy)]
pub(crate) struct Section<'a> {
    /// The text of the file: 0 for its own, and *n* for the *n*-th of those to include.
    pub(crate) source: usize,
    /// The number of lines before it.
    pub(crate) base: usize,
    pub(crate) text: &'a str,
}

/// Adds numbers of lines.
pub(crate) fn add_lines(lines: usize, more: usize) -> Result<usize, AllocError>
    ensures { IfOk result (λ sum. sum ≡ lines + more) }
{
    match lines.checked_add(more) {
        Some(sum) => Ok(sum),
        // No text has as many lines, so no memory is wanted for the sum.
        None => Err(AllocError),
    }
}

/// Returns the section after an entry, which begins on a line of a section, and whose text has a fault on a line.
pub(crate) fn section_after<'a>(
    section: Section<'a>,
    entry: usize,
    fault_line: usize,
) -> Result<Section<'a>, AllocError>
    ensures ok { IfOk result (λ next. Resumes section.entry.base section.entry.text.now
        entry fault_line next.base next.text.now) }
    ensures same { IfOk result (λ next. next.source ≡ section.entry.source) }
    ensures shorter { IfOk result (λ next. 0 < length section.entry.text.now
        → length next.text.now < length section.entry.text.now) }
{
    let count = taken_lines(entry, fault_line);
    let rest = Section {
        source: section.source,
        base: add_lines(section.base, count)?,
        text: text_after(section.text, count),
    };
    let (first, _) = split_line(text_after(section.text, entry.saturating_sub(1)));
    if !opens_list(first) {
        return Ok(rest);
    }
    skip_continuation(rest)
}

/// Returns the number of lines that an entry takes at least, which begins on a line, and has a fault on another or the same:
/// the line of the fault may begin an entry.
fn taken_lines(entry: usize, fault_line: usize) -> usize
    ensures value { result ≡ taken_lines entry fault_line }
    ensures some { 0 < result }
{
    let before_fault = fault_line.saturating_sub(1);
    if entry < before_fault {
        before_fault
    } else if entry == 0 {
        1
    } else {
        entry
    }
}

/// Skips the lines that continue an entry.
fn skip_continuation(section: Section<'_>) -> Result<Section<'_>, AllocError>
    ensures ok { IfOk result (λ next.
        SkipsContinuation section.entry.base section.entry.text.now next.base next.text.now) }
    ensures same { IfOk result (λ next. next.source ≡ section.entry.source) }
    ensures shorter { IfOk result (λ next. length next.text.now ≤ length section.entry.text.now) }
{
    let mut base = section.base;
    let mut rest = section.text;
    while continues_entry(rest) {
        base = add_lines(base, 1)?;
        rest = split_line(rest).1;
    }
    Ok(Section {
        source: section.source,
        base,
        text: rest,
    })
}

/// Returns a text after so many of its lines.
fn text_after(text: &str, count: usize) -> &str
    ensures value { result.now ≡ lines_after count text.now }
    ensures shorter { 0 < count → 0 < length text.now → length result.now < length text.now }
{
    let mut rest = text;
    let mut done = 0;
    while done < count {
        rest = split_line(rest).1;
        done += 1;
    }
    rest
}

/// Divides a text into its first line, without its line feed, and the text after it.
fn split_line(text: &str) -> (&str, &str)
    ensures first { result.0.now ≡ first_line text.now }
    ensures rest { result.1.now ≡ after_line text.now }
{
    match text.split_once('\n') {
        Some((line, rest)) => (line, rest),
        None => (text, ""),
    }
}

/// Returns `true` if a line may open a list.
fn opens_list(line: &str) -> bool
    ensures { result ≡ opens_list line.now }
{
    line.as_bytes().contains(&b'(')
}

/// Returns `true` if the first line of a text continues an entry: it begins with a blank or a closing parenthesis.
fn continues_entry(text: &str) -> bool
    ensures { result ≡ continues_entry text.now }
{
    match text.as_bytes() {
        [b' ' | b'\t' | b')', ..] => true,
        _ => false,
    }
}
