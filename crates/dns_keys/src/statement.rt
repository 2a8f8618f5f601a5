//! The statement of a key.

ghost use Rattle.std.specs.Prelude.{◌≡◌, ◌≤◌, ◌<◌, length, IfOk, IfErr, Ok, Err};
ghost use Rattle.dns_keys.specs.Statement.{clause_at, clause_value, key_name, next_symbol, next_word, part_of, skip_blanks, statement_at, statement_of};

use crate::algorithm::is_same_text;
use crate::blanks::after_blanks;
use crate::error::KeyFault;
use crate::word::{Word, after_symbol, word_at};
use std::marker::Model;

/// A fault, and the number of octets from its place to the end of the text.
#[derive(Clone, Copy, Debug, PartialEq, Eq)]
pub struct Failure {
    /// What is wrong.
    pub fault: KeyFault,
    /// The number of octets that are left.
    pub left: usize,
}

/// What a statement within a key is of.
#[derive(Clone, Copy, Debug, PartialEq, Eq)]
pub enum Part {
    /// `algorithm`
    Algorithm,
    /// `secret`
    Secret,
}

/// A statement within a key, and the text after it.
#[derive(Drop)]
pub struct Clause<'t> {
    part: Part,
    value: &'t [u8],
    rest: &'t [u8],
}

impl<'t> Model for Clause<'t> {
    ghost use Rattle.dns_keys.specs.Parts.{ClauseParts};

    ghost Value = { ClauseParts };

    ghost view = { λ c. record { part = c.part; value = c.value.now; rest = c.rest.now } };
}

/// The words of a key, and the text after its statement.
#[derive(Drop)]
pub struct Statement<'t> {
    name: &'t [u8],
    algorithm: &'t [u8],
    secret: &'t [u8],
    rest: &'t [u8],
}

impl<'t> Model for Statement<'t> {
    ghost use Rattle.dns_keys.specs.Parts.{StatementParts};

    ghost Value = { StatementParts };

    ghost view = { λ s. record {
      name = s.name.now;
      algorithm = s.algorithm.now;
      secret = s.secret.now;
      rest = s.rest.now;
    } };
}

impl<'t> Statement<'t> {
    ghost use Rattle.std.specs.Prelude.{◌≡◌};

    /// Returns the name of the key.
    pub fn name(&self) -> &'t [u8]
        ensures { result.now ≡ self.now.name }
    {
        self.name
    }

    /// Returns the name of the algorithm.
    pub fn algorithm(&self) -> &'t [u8]
        ensures { result.now ≡ self.now.algorithm }
    {
        self.algorithm
    }

    /// Returns the text of the secret.
    pub fn secret(&self) -> &'t [u8]
        ensures { result.now ≡ self.now.secret }
    {
        self.secret
    }

    /// Returns the text after the statement.
    pub fn rest(&self) -> &'t [u8]
        ensures { result.now ≡ self.now.rest }
    {
        self.rest
    }
}

/// Returns the text after blanks and comments.
pub fn skip_blanks(text: &[u8]) -> Result<&[u8], Failure>
    ensures ok { IfOk result (λ rest. skip_blanks text.now ≡ Ok rest.now) }
    ensures refused { IfErr result (λ failure. skip_blanks text.now ≡ Err failure) }
    ensures no_longer { IfOk result (λ rest. length rest.now ≤ length text.now) }
{
    match after_blanks(text) {
        Some(rest) => Ok(rest),
        None => Err(Failure {
            fault: KeyFault::Comment,
            left: text.len(),
        }),
    }
}

/// Returns the next word, or a fault if there is none.
fn next_word(text: &[u8], fault: KeyFault) -> Result<Word<'_>, Failure>
    ensures word { result ≡ next_word fault text.now }
    ensures shorter { IfOk result (λ word. length word.rest < length text.now) }
{
    let start = skip_blanks(text)?;
    match word_at(start) {
        Some(word) => Ok(word),
        None => Err(Failure {
            fault,
            left: start.len(),
        }),
    }
}

/// Returns the text after the next symbol, or a fault if another word or symbol follows.
fn next_symbol(text: &[u8], symbol: u8, fault: KeyFault) -> Result<&[u8], Failure>
    ensures ok { IfOk result (λ rest. next_symbol symbol fault text.now ≡ Ok rest.now) }
    ensures refused { IfErr result (λ failure. next_symbol symbol fault text.now ≡ Err failure) }
    ensures no_longer { IfOk result (λ rest. length rest.now ≤ length text.now) }
{
    let start = skip_blanks(text)?;
    match after_symbol(start, symbol) {
        Some(rest) => Ok(rest),
        None => Err(Failure {
            fault,
            left: start.len(),
        }),
    }
}

/// Returns what a statement within a key is of.
fn part_of(word: &[u8]) -> Option<Part>
    ensures { result ≡ part_of word.now }
{
    if is_same_text(word, b"algorithm") {
        return Some(Part::Algorithm);
    }
    if is_same_text(word, b"secret") {
        return Some(Part::Secret);
    }
    None
}

/// Returns the next statement within a key.
fn clause_at(text: &[u8]) -> Result<Clause<'_>, Failure>
    ensures clause { result ≡ clause_at text.now }
    ensures shorter { IfOk result (λ clause. length clause.rest < length text.now) }
{
    let word = next_word(text, KeyFault::Statement)?;
    match part_of(word.text()) {
        Some(part) => clause_value(part, word.rest()),
        None => Err(Failure {
            fault: KeyFault::Statement,
            left: word.rest().len(),
        }),
    }
}

/// Returns a statement within a key, from the text after its first word.
fn clause_value(part: Part, text: &[u8]) -> Result<Clause<'_>, Failure>
    ensures clause { result ≡ clause_value part text.now }
    ensures shorter { IfOk result (λ clause. length clause.rest < length text.now) }
{
    let value = next_word(text, KeyFault::Value)?;
    let rest = next_symbol(value.rest(), b';', KeyFault::Semicolon)?;
    Ok(Clause {
        part,
        value: value.text(),
        rest,
    })
}

/// Returns the name of a key, and the text after the `{` that follows it.
fn key_name(text: &[u8]) -> Result<Word<'_>, Failure>
    ensures word { result ≡ key_name text.now }
    ensures shorter { IfOk result (λ word. length word.rest < length text.now) }
{
    let key = next_word(text, KeyFault::Key)?;
    if !is_same_text(key.text(), b"key") {
        return Err(Failure {
            fault: KeyFault::Key,
            left: key.rest().len(),
        });
    }
    let name = next_word(key.rest(), KeyFault::Name)?;
    let rest = next_symbol(name.rest(), b'{', KeyFault::Open)?;
    Ok(Word::new(name.text(), rest))
}

/// Returns the next statement of a key.
pub fn statement_at(text: &[u8]) -> Result<Statement<'_>, Failure>
    ensures statement { result ≡ statement_at text.now }
    ensures shorter { IfOk result (λ statement. length statement.rest < length text.now) }
{
    let name = key_name(text)?;
    let first = clause_at(name.rest())?;
    let second = clause_at(first.rest)?;
    let end = next_symbol(second.rest, b'}', KeyFault::Close)?;
    let rest = next_symbol(end, b';', KeyFault::Semicolon)?;
    statement_of(name.text(), &first, &second, rest)
}

/// Returns the statement of a key with a name and two statements within it.
fn statement_of<'t>(
    name: &'t [u8],
    first: &Clause<'t>,
    second: &Clause<'t>,
    rest: &'t [u8],
) -> Result<Statement<'t>, Failure>
    ensures statement { result ≡ statement_of name.now first.now second.now rest.now }
    ensures rest { IfOk result (λ statement. statement.rest ≡ rest.now) }
{
    match (first.part, second.part) {
        (Part::Algorithm, Part::Secret) => Ok(Statement {
            name,
            algorithm: first.value,
            secret: second.value,
            rest,
        }),
        (Part::Secret, Part::Algorithm) => Ok(Statement {
            name,
            algorithm: second.value,
            secret: first.value,
            rest,
        }),
        _ => Err(Failure {
            fault: KeyFault::Repeated,
            left: second.rest.len(),
        }),
    }
}
