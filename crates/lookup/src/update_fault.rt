//! Why a text is not an update.

ghost use Rattle.std.specs.Prelude.{◌<◌, IfSome, length};

use dns_names::{Name, ParseError};
use dns_wire::codes::parse_decimal;
use dns_zone_file::Types;
use std::alloc::{AllocError, Global};
use std::fmt;
use update_text::{Line, parse_type, parse_update, read_update, split_line};

/// The greatest TTL.
const MAX_TTL: u64 = 4_294_967_295;

/// Why a text is not an update of a zone, which `Display` writes.
#[derive(Clone, Copy)]
enum UpdateFault<'a> {
    /// A quotation mark is not closed, or the backslash at the end has nothing to escape.
    NotWords,
    /// A semicolon is neither quoted nor escaped.
    Semicolon,
    /// There are no words.
    Empty,
    /// The first word is not an action.
    UnknownAction(&'a str),
    /// A part of the form is missing.
    Missing(&'static str, &'static str),
    /// The owner is not a domain name.
    NotName(&'a str),
    /// The owner is `@`, which only zone files have in place of their origin, here of the name of this zone.
    Origin(&'a Name),
    /// The owner is not at or below the origin of the zone.
    OutsideZone(&'a str, &'a Name),
    /// A type is at the place of the TTL in the form.
    NoTtl(&'a str, &'static str),
    /// A word is not a TTL.
    NotTtl(&'a str),
    /// A word is not a type.
    NotType(&'a str),
    /// Words are not data of the type.
    NotData(&'a [&'a str], &'a str),
    /// No update deletes what the words say.
    NotDeleted,
    /// A word comes after the last part of the form.
    Extra(&'a str, &'static str),
}

/// The form of the words of an update, and the zone that it changes.
#[derive(Clone, Copy)]
struct Form<'a> {
    alloc: Global,
    /// The parts of the form.
    text: &'static str,
    zone: &'a Name,
}

/// Words, which `Display` writes with a space between them.
#[derive(Clone, Copy)]
struct Spaced<'a>(&'a [&'a str]);

/// Returns why a text is not an update of a zone.
pub(crate) fn reason_of(alloc: Global, text: &str, zone: &Name) -> Result<String, AllocError> {
    match split_line(alloc, text.as_bytes())? {
        Some(line) => reason_of_line(alloc, &line, zone),
        None => text_of(alloc, UpdateFault::NotWords),
    }
}

/// Returns why a line is not an update of a zone, which has no words after a semicolon.
fn reason_of_line(alloc: Global, line: &Line, zone: &Name) -> Result<String, AllocError> {
    let words = line.words.as_slice();
    let is_update = read_update(alloc, words, zone, 0, Types::All)?.is_some();
    if is_update || !line.more.is_empty() {
        return text_of(alloc, UpdateFault::Semicolon);
    }
    let words = texts_of(alloc, words)?;
    text_of(alloc, fault_of(alloc, words.as_slice(), zone)?)
}

/// Returns words as texts. Each of them is one, since it is a part of a text.
fn texts_of(alloc: Global, words: &[Vec<u8>]) -> Result<Vec<&str>, AllocError> {
    let mut texts = Vec::new(alloc);
    for word in words {
        texts.push(str::from_utf8(word.as_slice()).unwrap_or("?"))?;
    }
    Ok(texts)
}

/// Returns the text of a value.
fn text_of<D: fmt::Display + Drop>(alloc: Global, value: D) -> Result<String, AllocError> {
    match format!(in alloc; "{value}") {
        Ok(text) => Ok(text),
        // Memory for the text was refused.
        Err(_) => Err(AllocError),
    }
}

/// Returns why words are not an update of a zone.
fn fault_of<'a>(
    alloc: Global,
    words: &'a [&'a str],
    zone: &'a Name,
) -> Result<UpdateFault<'a>, AllocError> {
    let [action, ..] = words else {
        return Ok(UpdateFault::Empty);
    };
    match form_of(*action) {
        Some(text) => Form { alloc, text, zone }.fault_of(words),
        None => Ok(UpdateFault::UnknownAction(*action)),
    }
}

/// Returns the form of the words of an action.
fn form_of(action: &str) -> Option<&'static str> {
    match action {
        "create" => Some("create NAME TTL TYPE DATA"),
        "append" => Some("append NAME TTL TYPE DATA"),
        "swap" => Some("swap NAME TTL TYPE DATA -> DATA"),
        "delete-record" => Some("delete-record NAME TYPE DATA"),
        "delete-set" => Some("delete-set NAME TYPE"),
        "delete-name" => Some("delete-name NAME"),
        _ => None,
    }
}

impl<'a> Form<'a> {
    /// Returns where words depart from the form. They begin with its action.
    fn fault_of(self, words: &'a [&'a str]) -> Result<UpdateFault<'a>, AllocError> {
        let mut rest = words;
        let mut read = words;
        for part in self.text.split(' ') {
            if part == "DATA" {
                return self.fault_of_data(read, rest);
            }
            let [word, after @ ..] = rest else {
                return Ok(UpdateFault::Missing(part, self.text));
            };
            if let Some(fault) = self.fault_of_word(part, *word)? {
                return Ok(fault);
            }
            read = rest;
            rest = after;
        }
        match rest {
            [word, ..] => Ok(UpdateFault::Extra(*word, self.text)),
            [] => Ok(UpdateFault::NotDeleted),
        }
    }

    /// Returns what is wrong with a word for a part of the form, if anything is.
    fn fault_of_word(
        self,
        part: &str,
        word: &'a str,
    ) -> Result<Option<UpdateFault<'a>>, AllocError> {
        match part {
            "NAME" => self.fault_of_owner(word),
            "TTL" => Ok(self.fault_of_ttl(word)),
            "TYPE" if !is_type(word) => Ok(Some(UpdateFault::NotType(word))),
            _ => Ok(None),
        }
    }

    /// Returns what is wrong with an owner, if anything is.
    fn fault_of_owner(self, word: &'a str) -> Result<Option<UpdateFault<'a>>, AllocError> {
        match Name::parse_bytes(self.alloc, word.as_bytes(), Some(self.zone)) {
            Ok(owner) if self.zone.zone_of(&owner) => Ok(None),
            Ok(_) => Ok(Some(UpdateFault::OutsideZone(word, self.zone))),
            // Memory for the name was refused.
            Err(ParseError::Memory) => Err(AllocError),
            Err(_) if word == "@" => Ok(Some(UpdateFault::Origin(self.zone))),
            Err(_) => Ok(Some(UpdateFault::NotName(word))),
        }
    }

    /// Returns what is wrong with a TTL, if anything is.
    fn fault_of_ttl(self, word: &'a str) -> Option<UpdateFault<'a>> {
        if parse_decimal(word.as_bytes(), MAX_TTL).is_some() {
            None
        } else if is_type(word) {
            Some(UpdateFault::NoTtl(word, self.text))
        } else {
            Some(UpdateFault::NotTtl(word))
        }
    }

    /// Returns what is wrong with data, whose type is the first of the words that were read last.
    fn fault_of_data(
        self,
        read: &'a [&'a str],
        data: &'a [&'a str],
    ) -> Result<UpdateFault<'a>, AllocError> {
        let [record_type, ..] = read else {
            return Ok(UpdateFault::Missing("TYPE", self.text));
        };
        if data.is_empty() {
            return Ok(UpdateFault::Missing("DATA", self.text));
        }
        if !self.text.ends_with("-> DATA") {
            return Ok(UpdateFault::NotData(data, *record_type));
        }
        match arrow_place(data) {
            Some(arrow) => self.fault_of_swap(*record_type, &data[..arrow], &data[arrow + 1..]),
            None => Ok(UpdateFault::Missing("->", self.text)),
        }
    }

    /// Returns what is wrong with the data that another takes the place of, or else with that one.
    fn fault_of_swap(
        self,
        record_type: &'a str,
        before: &'a [&'a str],
        after: &'a [&'a str],
    ) -> Result<UpdateFault<'a>, AllocError> {
        if before.is_empty() || after.is_empty() {
            return Ok(UpdateFault::Missing("DATA", self.text));
        }
        if self.is_data(record_type, before)? {
            Ok(UpdateFault::NotData(after, record_type))
        } else {
            Ok(UpdateFault::NotData(before, record_type))
        }
    }

    /// Returns `true` if words are data of a type: if an update can add a record with them.
    fn is_data(self, record_type: &str, data: &[&str]) -> Result<bool, AllocError> {
        let (zone, data) = (self.zone, Spaced(data));
        let text = text_of(
            self.alloc,
            format_args!("append {zone} 0 {record_type} {data}"),
        )?;
        let update = parse_update(self.alloc, text.as_str().as_bytes(), zone, 0, Types::All)?;
        Ok(update.is_some())
    }
}

/// Returns the place of the first arrow among words.
fn arrow_place(words: &[&str]) -> Option<usize>
    ensures { IfSome result (λ place. place < length words.now) }
{
    words.iter().position(|word| *word == "->")
}

/// Returns `true` if a word is a type.
fn is_type(word: &str) -> bool {
    parse_type(word.as_bytes(), Types::All).is_some()
}

impl fmt::Display for UpdateFault<'_> {
    fn fmt<W: fmt::Write>(&self, f: &mut fmt::Formatter<W>) -> fmt::Result {
        match self {
            UpdateFault::NotWords => {
                f.write_str("a quotation mark is not closed, or a backslash is at the end")
            }
            UpdateFault::Semicolon => f.write_str("a semicolon is neither quoted nor escaped"),
            UpdateFault::Empty => f.write_str("it has no words"),
            UpdateFault::UnknownAction(word) => write!(
                f,
                "'{word}' is none of the actions create, append, swap, delete-record, delete-set and delete-name"
            ),
            UpdateFault::Missing(part, form) => {
                write!(f, "{part} is missing; the form is '{form}'")
            }
            UpdateFault::NotName(word) => write!(f, "'{word}' is not a domain name"),
            UpdateFault::Origin(zone) => {
                write!(f, "'@' is not a domain name; that of the zone is '{zone}'")
            }
            UpdateFault::OutsideZone(word, zone) => {
                write!(f, "'{word}' is not in the zone '{zone}'")
            }
            UpdateFault::NoTtl(word, form) => {
                write!(f, "TTL is missing before '{word}'; the form is '{form}'")
            }
            UpdateFault::NotTtl(word) => {
                write!(
                    f,
                    "'{word}' is not a TTL, a number of seconds up to {MAX_TTL}"
                )
            }
            UpdateFault::NotType(word) => write!(f, "'{word}' is not a type"),
            UpdateFault::NotData(words, record_type) => {
                write!(
                    f,
                    "'{}' is not data of the type {record_type}",
                    Spaced(words)
                )
            }
            UpdateFault::NotDeleted => f.write_str("no update deletes records of this type"),
            UpdateFault::Extra(word, form) => {
                write!(f, "'{word}' is a word too many; the form is '{form}'")
            }
        }
    }
}

impl fmt::Display for Spaced<'_> {
    fn fmt<W: fmt::Write>(&self, f: &mut fmt::Formatter<W>) -> fmt::Result {
        for (i, word) in self.0.iter().enumerate() {
            if i > 0 {
                f.write_char(' ')?;
            }
            f.write_str(word)?;
        }
        Ok(())
    }
}
