//! The word at fault in a line of a script, which the faults of `stub_play` do not have.

ghost use Rattle.std.specs.Prelude.{◌≡◌, ℕ, false, IfOk, IfSome, Some, slice_get};
ghost use Rattle.std.specs.Str.Iter.{HasSubslice};
ghost use Rattle.zone_check.specs.ScriptLine.{IsWordOf};
ghost use Rattle.zone_check.specs.ScriptText.{is_mark_reason};

use crate::findings::Advice;
use dns_names::{Name, ParseError};
use dns_text::parse_ip;
use dns_wire::RecordType;
use dns_wire::codes::parse_decimal;
use std::alloc::{AllocError, Global};

/// How events and replies are written. A word in capitals denotes a value, and any other itself.
const FORMS: [&str; 12] = [
    "MOMENT lookup NAME TYPE",
    "MOMENT ip HOST",
    "MOMENT clear NAME TYPE",
    "MOMENT clearall",
    "MOMENT update create NAME TTL TYPE DATA",
    "MOMENT update append NAME TTL TYPE DATA",
    "MOMENT update swap NAME TTL TYPE DATA -> DATA",
    "MOMENT update delete-record NAME TYPE DATA",
    "MOMENT update delete-set NAME TYPE",
    "MOMENT update delete-name NAME",
    "reply NAME TYPE MESSAGES",
    "stream NAME TYPE MESSAGES",
];

/// What is wrong in a line.
#[derive(Clone, Copy)]
pub(crate) struct Mistake<'a> {
    /// The word at fault, if there is one.
    pub(crate) word: Option<&'a str>,
    /// What is wrong, and how the line is written.
    pub(crate) advice: Advice,
}

/// How far the words of a line follow a form.
#[derive(Clone, Copy)]
struct Fit {
    form: &'static str,
    /// The number of words that follow it.
    count: usize,
    /// The word of the form after these, or an empty one at its end.
    next: &'static str,
}

/// Returns what is wrong in a line that cannot be read.
pub(crate) fn mistake_in(alloc: Global, line: &str) -> Result<Mistake<'_>, AllocError>
    ensures word { IfOk result (λ mistake.
        IfSome mistake.word (λ word. IsWordOf line.now word.now)) }
    ensures mark { IfOk result (λ mistake.
        is_mark_reason mistake.advice.reason.now ≡ false) }
{
    let (event, link) = split_link(line);
    let words = words_of(alloc, event)?;
    let fit = best_fit(alloc, words.as_slice())?;
    match words.get(fit.count) {
        Some(word) => Ok(form_mistake(fit, Some(*word))),
        None if !matches!(fit.next, "" | "DATA" | "MESSAGES") => Ok(form_mistake(fit, None)),
        None => match wrong_link_word(alloc, link)? {
            Some(word) => Ok(link_mistake(word)),
            None => Ok(form_mistake(fit, None)),
        },
    }
}

/// Returns what is wrong in words that follow a form so far, and in the word after them, if there is one.
fn form_mistake(fit: Fit, word: Option<&str>) -> Mistake<'_>
    ensures word { result.word ≡ word.entry }
    ensures mark { is_mark_reason result.advice.reason.now ≡ false }
{
    let (reason, hint) = match word {
        Some("@") if fit.next == "NAME" => ("not a name here", "write the name of the origin"),
        _ => explanation(fit, word.is_some()),
    };
    Mistake {
        word,
        advice: Advice { reason, hint },
    }
}

/// Returns what is wrong in a word of a link script.
fn link_mistake(word: &str) -> Mistake<'_>
    ensures word { result.word ≡ Some word.entry }
    ensures mark { is_mark_reason result.advice.reason.now ≡ false }
{
    Mistake {
        word: Some(word),
        advice: Advice {
            reason: "not a word of a link script",
            hint: "write honest alone, or words of quiet, fail, qN, uN and rN, after the ;",
        },
    }
}

/// Divides a line at its first semicolon outside quotes, which begins a link script.
fn split_link(line: &str) -> (&str, &str)
    ensures event { HasSubslice line.now result.0.now }
    ensures link { HasSubslice line.now result.1.now }
{
    let start = link_start(line.as_bytes());
    let link = rest_at(line, start);
    (front_at(line, start), rest_at(link, 1))
}

/// Returns a text up to an index.
fn front_at(text: &str, index: usize) -> &str
    ensures { HasSubslice text.now result.now }
{
    match text.split_at_checked(index) {
        Some((front, _)) => front,
        None => text,
    }
}

/// Returns a text from an index on.
fn rest_at(text: &str, index: usize) -> &str
    ensures { HasSubslice text.now result.now }
{
    match text.split_at_checked(index) {
        Some((_, rest)) => rest,
        None => "",
    }
}

/// Returns the index of the first semicolon outside quotes, or the length of the line. A backslash escapes the next character.
fn link_start(line: &[u8]) -> usize {
    let mut is_escaped = false;
    let mut is_quoted = false;
    for (i, c) in line.iter().enumerate() {
        match *c {
            _ if is_escaped => is_escaped = false,
            b'\\' => is_escaped = true,
            b'"' => is_quoted = !is_quoted,
            b';' if !is_quoted => return i,
            _ => {}
        }
    }
    line.len()
}

/// Returns the words of a text.
fn words_of(alloc: Global, text: &str) -> Result<Vec<&str>, AllocError>
    ensures { IfOk result (λ words. (k : ℕ) →
        IfSome (slice_get words.items k) (λ word. IsWordOf text.now word.now)) }
{
    text.split_ascii_whitespace().collect(alloc)
}

/// Returns how far words follow the form that they follow farthest.
fn best_fit(alloc: Global, words: &[&str]) -> Result<Fit, AllocError> {
    let mut best = fit_of(alloc, FORMS[0], words)?;
    for form in FORMS {
        let fit = fit_of(alloc, form, words)?;
        if fit.count > best.count {
            best = fit;
        }
    }
    Ok(best)
}

/// Returns how far words follow a form. Data, and messages, are any words.
fn fit_of(alloc: Global, form: &'static str, words: &[&str]) -> Result<Fit, AllocError> {
    let mut count = 0_usize;
    for next in form.split(' ') {
        if matches!(next, "DATA" | "MESSAGES") {
            let count = words.len();
            return Ok(Fit { form, count, next });
        }
        match words.get(count) {
            Some(word) if fits(alloc, next, word)? => count += 1,
            _ => return Ok(Fit { form, count, next }),
        }
    }
    Ok(Fit {
        form,
        count,
        next: "",
    })
}

/// Returns `true` if a word of a line follows that of a form.
fn fits(alloc: Global, kind: &str, word: &str) -> Result<bool, AllocError> {
    match kind {
        "MOMENT" => Ok(parse_decimal(word.as_bytes(), u64::MAX).is_some()),
        "TTL" => Ok(parse_decimal(word.as_bytes(), u64::from(u32::MAX)).is_some()),
        "TYPE" => Ok(RecordType::from_ascii_bytes(word.as_bytes()).is_some()),
        "HOST" if parse_ip(word.as_bytes()).is_some() => Ok(true),
        "NAME" | "HOST" => is_name(alloc, word),
        _ => Ok(kind == word),
    }
}

/// Returns `true` if a word is a name.
fn is_name(alloc: Global, word: &str) -> Result<bool, AllocError> {
    match Name::from_ascii(alloc, word) {
        Ok(_) => Ok(true),
        // Memory for the name was refused.
        Err(ParseError::Memory) => Err(AllocError),
        Err(_) => Ok(false),
    }
}

/// Returns the first word that is not one of a link script.
fn wrong_link_word(alloc: Global, link: &str) -> Result<Option<&str>, AllocError>
    ensures { IfOk result (λ found. IfSome found (λ word. IsWordOf link.now word.now)) }
{
    let words = words_of(alloc, link)?;
    for word in &words {
        if !is_link_word(word) && (*word != "honest" || words.len() > 1) {
            return Ok(Some(*word));
        }
    }
    Ok(None)
}

/// Returns `true` if a word is one of a link script that is not `honest`.
fn is_link_word(word: &str) -> bool {
    match word.as_bytes() {
        [b'q' | b'u' | b'r', digits @ ..] if parse_decimal(digits, u64::MAX).is_some() => true,
        _ => matches!(word, "quiet" | "fail"),
    }
}

/// Returns what is said of words that follow a form so far, and perhaps have one after that.
fn explanation(fit: Fit, has_word: bool) -> (&'static str, &'static str)
    ensures { is_mark_reason result.0.now ≡ false }
{
    match (fit.next, fit.count, has_word) {
        ("DATA", _, _) => (
            "invalid data for this type, or an owner outside the origin",
            fit.form,
        ),
        ("MESSAGES", _, _) => (
            "not server, and not messages in hexadecimal digits",
            fit.form,
        ),
        ("", _, true) => ("a word too many", fit.form),
        ("", _, false) if fit.form.starts_with("MOMENT update") => (
            "an owner outside the origin, or a type that no update deletes",
            fit.form,
        ),
        ("", _, false) => ("a line that cannot be read", fit.form),
        (_, 0, _) => (
            "not a moment",
            "MOMENT EVENT, where MOMENT is a number of seconds; # begins a comment",
        ),
        (_, 1, _) if fit.form.starts_with("MOMENT") => (
            "not an event",
            "MOMENT lookup, ip, clear, clearall or update, and its arguments",
        ),
        ("NAME", _, true) => ("not a name", fit.form),
        ("TYPE", _, true) => ("not a type that is known here", fit.form),
        ("HOST", _, true) => ("not a host", fit.form),
        ("TTL", _, true) => ("not a TTL in seconds", fit.form),
        (_, 2, true) => (
            "not an action of an update",
            "MOMENT update create, append, swap, delete-record, delete-set or delete-name, and its arguments",
        ),
        _ => ("a line that ends too early", fit.form),
    }
}
