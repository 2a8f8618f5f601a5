//! What the text of a zone file begins with (RFC 1035 section 5.1).

ghost use Rattle.std.specs.Prelude.{◌≡◌, ◌+◌, ◌≤◌, ◌==◌, ◌&&◌, not, length, false, IfSome};
ghost use Rattle.dns_text.specs.Front.{front, line_end, line_from, string_run, stops, is_on_line, ends_run, run_from, quoted, word};
ghost use Rattle.dns_text.specs.internal.Front.{front_len, HasSome};
ghost use Rattle.dns_text.specs.internal.Front.{front_of, run_of};

use crate::quotes::Quotes;

/// What a text begins with.
#[derive(Clone, Copy)]
pub(crate) enum Front {
    /// Nothing: the text is empty.
    TextEnd,
    /// The end of a line, with its length.
    LineEnd(usize),
    /// A blank.
    Gap,
    /// A comment, with its length.
    Comment(usize),
    /// An opening parenthesis.
    Open,
    /// A closing parenthesis.
    Close,
    /// A quoted string, with its length without the quotes.
    Quoted(usize),
    /// A word, with its length.
    Word(usize),
    /// A quoted string that is not closed, or not on its line where it must be.
    Unclosed,
    /// A run that ends in a backslash with nothing to escape.
    Broken,
}

/// The kind of a run of characters, in which a backslash escapes the next one.
#[derive(Clone, Copy)]
enum Run {
    /// A word outside quotes.
    Bare,
    /// A string between quotes on one line.
    InQuotes,
    /// A string between quotes that may go over several lines.
    OverLines,
}

/// Returns what a text begins with.
pub(crate) fn find_front(quotes: Quotes, text: &[u8]) -> Front
    ensures front { front_of result ≡ front quotes text.now }
    ensures within { front_len result ≤ length text.now }
    ensures some { HasSome result }
{
    if text.is_empty() {
        return Front::TextEnd;
    }
    let ending = line_ending(text);
    if ending > 0 {
        return Front::LineEnd(ending);
    }
    match text[0] {
        b' ' | b'\t' => Front::Gap,
        b';' => Front::Comment(line_len(&text[1..]) + 1),
        b'(' => Front::Open,
        b')' => Front::Close,
        b'"' => quoted_front(run_of_string(quotes), &text[1..]),
        _ => word_front(text),
    }
}

/// Returns the run that a quoted string is.
fn run_of_string(quotes: Quotes) -> Run
    ensures { run_of result ≡ string_run quotes }
{
    match quotes {
        Quotes::OneLine => Run::InQuotes,
        Quotes::ManyLines => Run::OverLines,
    }
}

/// Returns the item of a quoted string, from the text after its opening quote.
fn quoted_front(run: Run, text: &[u8]) -> Front
    ensures front { front_of result
        ≡ quoted (run_from (run_of run) false 0 text.now) text.now }
    ensures some { HasSome result }
    ensures within { front_len result ≤ length text.now + 1 }
{
    match run_len(run, text) {
        Some(len) if text[len..].starts_with(b"\"") => Front::Quoted(len),
        Some(_) => Front::Unclosed,
        None => Front::Broken,
    }
}

/// Returns the item of a word at the start of a text.
fn word_front(text: &[u8]) -> Front
    ensures front { front_of result ≡ word (run_from (run_of Run.Bare) false 0 text.now) }
    ensures some { HasSome result }
    ensures within { front_len result ≤ length text.now }
{
    match run_len(Run::Bare, text) {
        Some(len) => Front::Word(len),
        None => Front::Broken,
    }
}

/// Returns the length of a run, unless it ends in a backslash with nothing to escape.
fn run_len(run: Run, text: &[u8]) -> Option<usize>
    ensures value { result ≡ run_from (run_of run) false 0 text.now }
    ensures within { IfSome result (λ len. len ≤ length text.now) }
{
    let mut is_escaped = false;
    for place in 0..text.len() {
        if is_end_of_run(run, is_escaped, &text[place..]) {
            return if is_escaped { None } else { Some(place) };
        }
        is_escaped = escapes_next(is_escaped, text[place]);
    }
    if is_escaped { None } else { Some(text.len()) }
}

/// Returns `true` if a run ends at the start of a text: at its end, at the end of a line, or at an unescaped character that
/// stops it.
fn is_end_of_run(run: Run, is_escaped: bool, text: &[u8]) -> bool
    ensures { result ≡ ends_run (run_of run) is_escaped text.now }
{
    text.is_empty()
        || is_on_line(run) && line_ending(text) > 0
        || !is_escaped && is_stop(run, text[0])
}

/// Returns `true` if a character is a backslash that escapes the next one, given whether it is escaped itself.
fn escapes_next(is_escaped: bool, character: u8) -> bool
    ensures { result ≡ (not is_escaped && character == 92) }
{
    !is_escaped && character == b'\\'
}

/// Returns `true` if a run ends with its line at the latest.
fn is_on_line(run: Run) -> bool
    ensures { result ≡ is_on_line (run_of run) }
{
    match run {
        Run::Bare | Run::InQuotes => true,
        Run::OverLines => false,
    }
}

/// Returns `true` if a character stops a run.
fn is_stop(run: Run, character: u8) -> bool
    ensures { result ≡ stops (run_of run) character }
{
    match run {
        Run::Bare => matches!(character, b' ' | b'\t' | b';' | b'"' | b'(' | b')'),
        Run::InQuotes | Run::OverLines => character == b'"',
    }
}

/// Returns the number of characters before the end of the line.
fn line_len(text: &[u8]) -> usize
    ensures value { result ≡ line_from 0 text.now }
    ensures within { result ≤ length text.now }
{
    for place in 0..text.len() {
        if line_ending(&text[place..]) > 0 {
            return place;
        }
    }
    text.len()
}

/// Returns the length of the line ending at the start of a text: a line feed, or a carriage return and a line feed.
fn line_ending(text: &[u8]) -> usize
    ensures value { result ≡ line_end text.now }
    ensures within { result ≤ length text.now }
{
    if text.is_empty() {
        return 0;
    }
    if text[0] == b'\n' {
        return 1;
    }
    if text[0] == b'\r' && text.len() > 1 && text[1] == b'\n' {
        return 2;
    }
    0
}
