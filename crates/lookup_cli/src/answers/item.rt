//! What is looked up.

ghost use Rattle.std.specs.Prelude.{◌≡◌, [], IfOk, IfSome, None, Ok, Option, string_bytes};
ghost use Rattle.std.specs.Str.{trim};
ghost use Rattle.std.specs.declared.net.ip_addr.IpAddr.{IpAddr};
ghost use Rattle.dns_text.specs.Address.{IsTextOf};
ghost use Rattle.lookup_cli.specs.answers.Item.{IsItemOf, Reverses, SplitsAtSpace, question_of_type, reversed_question};

use dns_formats::{TypeWord, type_of_word};
use dns_names::Name;
use dns_text::parse_ip;
use dns_wire::RecordType;
use std::alloc::{AllocError, Global};
use std::fmt;

/// What is asked about a name.
#[derive(Clone, Copy, Debug, PartialEq, Eq)]
pub enum Question {
    /// Its addresses, by the strategy of the options.
    Addresses,
    /// Its records of a type.
    Records(RecordType),
    /// Something that cannot be asked: what follows the name is not a type.
    Unknown,
}

/// A name, and what is asked about it. `Display` writes the name and the type, as `a.t. MX`.
#[derive(Drop)]
pub struct Item {
    /// The name, as given.
    pub name: String,
    /// The text that names the type, as given, which may name none. It is empty if the line has a name alone.
    pub type_text: String,
    /// What is asked.
    pub question: Question,
}

/// The type of an item, which `Display` writes as that of its question, or as it was given if it is not a type.
#[derive(Clone, Copy)]
pub(crate) struct ItemType<'a>(pub(crate) &'a Item);

impl Item {
    /// Creates the item of a name and what is asked about it.
    pub fn new(alloc: Global, name: String, question: Question) -> Item
        ensures name { result.name ≡ name }
        ensures type_text { string_bytes result.type_text ≡ [] }
        ensures question { result.question ≡ question }
    {
        Item {
            name,
            type_text: String::new(alloc),
            question,
        }
    }

    /// Returns the item with the reverse name of the address that its name is (RFC 1035 section 3.5, RFC 3596 section 2.5), for
    /// which PTR records are asked unless a type is given. An item with another name is returned as it is, without taking memory.
    pub fn reversed(mut self, alloc: Global) -> Result<Item, AllocError>
        ensures reversed { (address : Option IpAddr) × IsTextOf (string_bytes self.name) address
            × Reverses self address result }
    {
        if let Some(address) = parse_ip(self.name.as_str().as_bytes()) {
            self.name = Name::from(alloc, address)?.to_ascii()?;
            self.question = reversed_question(self.question);
        }
        Ok(self)
    }
}

/// Returns the question about a reverse name.
fn reversed_question(question: Question) -> Question
    ensures { result ≡ reversed_question question }
{
    match question {
        Question::Addresses => Question::Records(RecordType::PTR),
        other => other,
    }
}

/// Returns what a line of standard input asks: a name, after which a type may follow, with white space between and around them.
/// Without a type the question is the default one. An empty line asks nothing.
pub fn item_of_line(
    alloc: Global,
    line: &str,
    default: Question,
) -> Result<Option<Item>, AllocError>
    ensures empty { trim line.now ≡ [] → result ≡ Ok None }
    ensures some { IfOk result (λ found. found ≡ None → trim line.now ≡ []) }
    ensures item { IfOk result (λ found. IfSome found (IsItemOf (trim line.now) default)) }
{
    let line = line.trim();
    if line.is_empty() {
        return Ok(None);
    }
    Ok(Some(item_of(alloc, line, default)?))
}

/// Returns what a line asks that has no white space around it.
fn item_of(alloc: Global, line: &str, default: Question) -> Result<Item, AllocError>
    ensures { IfOk result (IsItemOf line.now default) }
{
    match split_at_space(line) {
        Some((name, rest)) => Ok(Item {
            name: String::from_str(alloc, name)?,
            type_text: String::from_str(alloc, rest.trim())?,
            question: question_of_type(rest.trim()),
        }),
        None => Ok(Item::new(alloc, String::from_str(alloc, line)?, default)),
    }
}

/// Divides a text at its first white space, if it has any.
fn split_at_space(text: &str) -> Option<(&str, &str)>
    ensures { SplitsAtSpace text.now result }
{
    text.split_once(|c: char| c.is_whitespace())
}

/// Returns the question for the records of a type.
fn question_of_type(text: &str) -> Question
    ensures { result ≡ question_of_type text.now }
{
    match type_of_word(text.as_bytes()) {
        Some(record_type) => Question::Records(record_type),
        None => Question::Unknown,
    }
}

impl fmt::Display for Item {
    ghost use Rattle.std.specs.Prelude.{Some};
    ghost use Rattle.lookup_cli.specs.answers.Item.{item_text};

    ghost output = { λ item. Some (item_text item) };

    fn fmt<W: fmt::Write>(&self, f: &mut fmt::Formatter<W>) -> fmt::Result {
        let record_type = ItemType(self);
        write!(f, "{} {record_type}", self.name)
    }
}

impl fmt::Display for ItemType<'_> {
    ghost use Rattle.std.specs.Prelude.{Some};
    ghost use Rattle.lookup_cli.specs.answers.Item.{item_type};

    ghost output = { λ it. Some (item_type it.0.now) };

    fn fmt<W: fmt::Write>(&self, f: &mut fmt::Formatter<W>) -> fmt::Result {
        match self.0.question {
            Question::Unknown => f.write_str(self.0.type_text.as_str()),
            question => write!(f, "{question}"),
        }
    }
}

impl fmt::Display for Question {
    ghost use Rattle.std.specs.Prelude.{Some};
    ghost use Rattle.lookup_cli.specs.answers.Item.{question_text};

    ghost output = { λ question. Some (question_text question) };

    /// Writes the type, or `ADDRESSES`, or `?` for what is not a type.
    fn fmt<W: fmt::Write>(&self, f: &mut fmt::Formatter<W>) -> fmt::Result {
        match self {
            Question::Addresses => f.write_str("ADDRESSES"),
            Question::Records(record_type) => {
                let number = u16::from(*record_type);
                write!(f, "{}", TypeWord { number })
            }
            Question::Unknown => f.write_str("?"),
        }
    }
}
