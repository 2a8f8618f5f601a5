//! Tables from text.

ghost use Rattle.std.specs.Prelude.{◌≡◌, ◌≢◌, IfOk, IfErr, OnOk, Ok, Err, [], ◌++◌, drop, map};
ghost use Rattle.std.specs.Str.Lines.{lines};
ghost use Rattle.std.specs.List.{position, position_or_len};
ghost use Rattle.dns_faults.specs.table.Text.{is_blank, is_skipped, rules_after, rules_from, table_in, word_before, words_of};

use crate::rules::FaultTable;
use crate::table::error::FaultTableError;
use crate::table::line::parse_rule;
use std::alloc::{AllocError, Global};

/// Parses a table of faults, one rule a line.
///
/// # Errors
///
/// - [`FaultTableError::Line`] for the first line that is not a rule, with what is wrong with it;
/// - [`FaultTableError::Memory`] if memory is refused.
pub fn parse_faults(alloc: Global, text: &str) -> Result<FaultTable, FaultTableError>
    ensures ok { IfOk result (λ table. table_in text.now ≡ Ok table) }
    ensures refused { IfErr result (λ error. error ≢ FaultTableError.Memory
        → table_in text.now ≡ Err error) }
{
    let lines = lines_of(alloc, text)?;
    read_lines(alloc, lines.as_slice())
}

/// Parses a table from the lines of its text.
fn read_lines(alloc: Global, lines: &[&str]) -> Result<FaultTable, FaultTableError>
    ensures ok { IfOk result (λ table.
        rules_from 1 [] (map (λ line. line.now) lines.now) ≡ Ok table) }
    ensures refused { IfErr result (λ error. error ≢ FaultTableError.Memory
        → rules_from 1 [] (map (λ line. line.now) lines.now) ≡ Err error) }
{
    let _count = lines.len();
    let mut table = FaultTable::new(alloc);
    let mut number = 1_usize;
    let mut rest = lines;
    while let [line, more @ ..] = rest {
        add_line(alloc, &mut table, number, line.as_bytes())?;
        number += 1;
        rest = more;
    }
    Ok(table)
}

/// Returns the lines of a text.
fn lines_of(alloc: Global, text: &str) -> Result<Vec<&str>, AllocError>
    ensures { IfOk result (λ found. map (λ line. line.now) found.items ≡ lines text.now) }
{
    text.lines().collect(alloc)
}

/// Adds the rule of a line, if it is not skipped.
fn add_line(
    alloc: Global,
    table: &mut FaultTable,
    line: usize,
    text: &[u8],
) -> Result<(), FaultTableError>
    ensures ok { OnOk result (rules_after line table.old text.now ≡ Ok table.new) }
    ensures refused { IfErr result (λ error. error ≢ FaultTableError.Memory
        → rules_after line table.old text.now ≡ Err error) }
{
    let words = words_of(alloc, text)?;
    if is_skipped(words.as_slice()) {
        return Ok(());
    }
    match parse_rule(alloc, line, words.as_slice())? {
        Ok(rule) => Ok(table.push(rule)?),
        Err(fault) => Err(FaultTableError::Line { line, fault }),
    }
}

/// Returns the words of a line, which blanks separate.
fn words_of(alloc: Global, text: &[u8]) -> Result<Vec<&[u8]>, AllocError>
    ensures { IfOk result (λ words. map (λ word. word.now) words.items ≡ words_of text.now) }
{
    let mut words = Vec::new(alloc);
    let mut rest = text;
    while !rest.is_empty() {
        let (word, more) = rest.split_at(word_len(rest));
        push_word(&mut words, word)?;
        rest = after_blank(more);
    }
    Ok(words)
}

/// Appends a word, unless it is empty.
fn push_word<'a>(words: &mut Vec<&'a [u8]>, word: &'a [u8]) -> Result<(), AllocError>
    ensures { OnOk result (map (λ word. word.now) words.new.items
        ≡ map (λ word. word.now) words.old.items ++ word_before word.now []) }
{
    if !word.is_empty() {
        words.push(word)?;
    }
    Ok(())
}

/// Returns a text without its first octet.
fn after_blank(text: &[u8]) -> &[u8]
    ensures { result.now ≡ drop 1 text.now }
{
    match text {
        [_blank, more @ ..] => more,
        [] => text,
    }
}

/// Returns the length of the word at the start of a text: 0 at a blank.
fn word_len(text: &[u8]) -> usize
    ensures { result ≡ position_or_len is_blank text.now }
{
    match blank_place(text) {
        Some(place) => place,
        None => text.len(),
    }
}

/// Returns the place of the first blank of a text.
fn blank_place(text: &[u8]) -> Option<usize>
    ensures { result ≡ position is_blank text.now }
{
    text.iter().position(|octet| is_blank(*octet))
}

/// Returns `true` for a space, a tab or a carriage return.
fn is_blank(octet: u8) -> bool
    ensures { result ≡ is_blank octet }
{
    octet == b' ' || octet == b'\t' || octet == b'\r'
}

/// Returns `true` if a line has no words, or its first one begins with `#`.
fn is_skipped(words: &[&[u8]]) -> bool
    ensures { result ≡ is_skipped (map (λ word. word.now) words.now) }
{
    match words {
        [first, ..] => first.starts_with(b"#"),
        [] => true,
    }
}
