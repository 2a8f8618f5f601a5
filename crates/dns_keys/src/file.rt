//! The keys of a text.

ghost use Rattle.std.specs.Prelude.{◌≡◌, ◌≢◌, ◌<◌, ◌≤◌, length, map, option_map, IfOk, IfErr, IfSome, Ok, Err};
ghost use Rattle.dns_keys.specs.File.{IsKeyFile, IsRefused, key_at, key_value, line_of, located, name_at, next_in, next_value, secret_at, start_in, statement_in};

use crate::algorithm::parse_algorithm;
use crate::error::{KeyFault, KeyFileError};
use crate::statement::{Failure, Statement, skip_blanks, statement_at};
use base64::DecodeAllocError;
use base64::engine::general_purpose::STANDARD;
use dns_names::{Name, ParseError};
use dns_tsig::Key;
use std::alloc::Global;

/// A key, and the text after its statement.
#[derive(Drop)]
pub struct NextKey<'t> {
    /// The key.
    pub key: Key,
    /// The text after its statement.
    pub rest: &'t [u8],
}

/// Parses the keys of a text, in order.
///
/// # Errors
///
/// - [`KeyFileError::Line`] for the first fault, with its line;
/// - [`KeyFileError::Memory`] if memory is refused.
pub fn parse_keys(alloc: Global, text: &[u8]) -> Result<Vec<Key>, KeyFileError>
    ensures ok { IfOk result (λ keys. IsKeyFile text.now (map key_value keys.items)) }
    ensures refused { IfErr result (λ error. error ≢ KeyFileError.Memory
        → IsRefused text.now error) }
{
    let mut keys = Vec::new(alloc);
    let mut rest = text;
    while let Some(next) = next_key(alloc, text, rest)? {
        let NextKey { key, rest: more } = next;
        keys.push(key)?;
        rest = more;
    }
    Ok(keys)
}

/// Returns the next key of a text, or `None` at its end. The line of a fault is that in the whole text.
fn next_key<'t>(
    alloc: Global,
    whole: &[u8],
    text: &'t [u8],
) -> Result<Option<NextKey<'t>>, KeyFileError>
    ensures ok { IfOk result (λ next. next_in whole.now text.now
        ≡ Ok (option_map next_value next)) }
    ensures refused { IfErr result (λ error. error ≢ KeyFileError.Memory
        → next_in whole.now text.now ≡ Err error) }
    ensures shorter { IfOk result (λ next. IfSome next
        (λ found. length found.rest.now < length text.now)) }
{
    let start = start_in(whole, text)?;
    if start.is_empty() {
        return Ok(None);
    }
    let statement = statement_in(whole, start)?;
    let key = key_at(alloc, line_of(whole, start.len()), &statement)?;
    let rest = statement.rest();
    Ok(Some(NextKey { key, rest }))
}

/// Returns a text from its first word or symbol on.
fn start_in<'t>(whole: &[u8], text: &'t [u8]) -> Result<&'t [u8], KeyFileError>
    ensures ok { IfOk result (λ start. start_in whole.now text.now ≡ Ok start.now) }
    ensures refused { IfErr result (λ error. start_in whole.now text.now ≡ Err error) }
    ensures no_longer { IfOk result (λ start. length start.now ≤ length text.now) }
{
    match skip_blanks(text) {
        Ok(start) => Ok(start),
        Err(failure) => Err(located(whole, failure)),
    }
}

/// Returns the next statement of a key.
fn statement_in<'t>(whole: &[u8], text: &'t [u8]) -> Result<Statement<'t>, KeyFileError>
    ensures statement { result ≡ statement_in whole.now text.now }
    ensures shorter { IfOk result (λ statement. length statement.rest < length text.now) }
{
    match statement_at(text) {
        Ok(statement) => Ok(statement),
        Err(failure) => Err(located(whole, failure)),
    }
}

/// Returns the key of a statement on a line.
fn key_at(alloc: Global, line: usize, statement: &Statement<'_>) -> Result<Key, KeyFileError>
    ensures ok { IfOk result (λ key. key_at line statement.now ≡ Ok (key_value key)) }
    ensures refused { IfErr result (λ error. error ≢ KeyFileError.Memory
        → key_at line statement.now ≡ Err error) }
{
    let Some(algorithm) = parse_algorithm(statement.algorithm()) else {
        let fault = KeyFault::Algorithm;
        return Err(KeyFileError::Line { line, fault });
    };
    let name = name_at(alloc, line, statement.name())?;
    let secret = secret_at(alloc, line, statement.secret())?;
    Ok(Key::new(&name, algorithm, secret))
}

/// Returns a secret from its text on a line.
fn secret_at(alloc: Global, line: usize, text: &[u8]) -> Result<Vec<u8>, KeyFileError>
    ensures ok { IfOk result (λ secret. secret_at line text.now ≡ Ok secret.items) }
    ensures refused { IfErr result (λ error. error ≢ KeyFileError.Memory
        → secret_at line text.now ≡ Err error) }
{
    match STANDARD.decode(alloc, text) {
        Ok(secret) => Ok(secret),
        // The memory for the secret was refused.
        Err(DecodeAllocError::OutOfMemory) => Err(KeyFileError::Memory),
        Err(DecodeAllocError::DecodeError(_)) => {
            let fault = KeyFault::Secret;
            Err(KeyFileError::Line { line, fault })
        }
    }
}

/// Returns the name of a key from its text on a line.
fn name_at(alloc: Global, line: usize, text: &[u8]) -> Result<Name, KeyFileError>
    ensures ok { IfOk result (λ name. name_at line text.now ≡ Ok name) }
    ensures refused { IfErr result (λ error. error ≢ KeyFileError.Memory
        → name_at line text.now ≡ Err error) }
    ensures short { length text.now ≤ 32 → result ≡ name_at line text.now }
{
    match Name::from_ascii_bytes(alloc, text) {
        Ok(name) => Ok(name),
        // The memory for the name was refused.
        Err(ParseError::Memory) => Err(KeyFileError::Memory),
        Err(_) => {
            let fault = KeyFault::Name;
            Err(KeyFileError::Line { line, fault })
        }
    }
}

/// Returns a fault with its line.
fn located(text: &[u8], failure: Failure) -> KeyFileError
    ensures { result ≡ located text.now failure }
{
    KeyFileError::Line {
        line: line_of(text, failure.left),
        fault: failure.fault,
    }
}

/// Returns the line, from 1, of the place from which so many octets are left.
fn line_of(text: &[u8], left: usize) -> usize
    ensures { result ≡ line_of text.now left }
{
    let place = text.len().saturating_sub(left);
    1 + text[..place]
        .iter()
        .filter(|octet| **octet == b'\n')
        .count()
}
