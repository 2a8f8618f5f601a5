//! Grants from words.

ghost use Rattle.std.specs.Prelude.{◌≡◌, ◌≢◌, ◌++◌, ◌∷◌, [], map, IfOk, IfErr, OnOk, Ok, Err};
ghost use Rattle.dns_durable.specs.GrantText.{grant_in, grant_value, name_in, type_in, types_after};

use crate::error::GrantError;
use dns_keys::grants::Grant;
use dns_names::{Name, ParseError};
use dns_tsig::canonical_name;
use dns_wire::RecordType;
use std::alloc::Global;

/// Parses a grant: the name of a key, the name of a subtree, and the record types that the holders of the key may change at and below
/// it; without types they may change all.
///
/// # Errors
///
/// - [`GrantError::Missing`] if there are fewer than two words;
/// - [`GrantError::Key`], [`GrantError::Subtree`] or [`GrantError::Type`] for the first word that cannot be read;
/// - [`GrantError::Memory`] if memory is refused.
pub fn parse_grant(alloc: Global, words: &[&str]) -> Result<Grant, GrantError>
    ensures ok { IfOk result (λ grant. grant_in (map (λ word. word.now) words.now)
        ≡ Ok (grant_value grant)) }
    ensures refused { IfErr result (λ error. error ≢ GrantError.Memory
        → grant_in (map (λ word. word.now) words.now) ≡ Err error) }
{
    let [key, subtree, types @ ..] = words else {
        return Err(GrantError::Missing);
    };
    let key = canonical_name(&name_in(alloc, key, GrantError::Key)?);
    let mut subtree = name_in(alloc, subtree, GrantError::Subtree)?;
    subtree.set_fqdn(true);
    let types = types_in(alloc, types)?;
    Ok(Grant {
        key,
        subtree,
        types,
    })
}

/// Returns the name of a word, or an error.
fn name_in(alloc: Global, word: &str, error: GrantError) -> Result<Name, GrantError>
    ensures ok { IfOk result (λ name. name_in error word.now ≡ Ok name) }
    ensures refused { IfErr result (λ refusal. refusal ≢ GrantError.Memory
        → name_in error word.now ≡ Err refusal) }
{
    match Name::from_ascii(alloc, word) {
        Ok(name) => Ok(name),
        // The memory for the name was refused.
        Err(ParseError::Memory) => Err(GrantError::Memory),
        Err(_) => Err(error),
    }
}

/// Returns the record types of words.
fn types_in(alloc: Global, words: &[&str]) -> Result<Vec<RecordType>, GrantError>
    ensures ok { IfOk result (λ types. types_after [] (map (λ word. word.now) words.now)
        ≡ Ok types.items) }
    ensures refused { IfErr result (λ error. error ≢ GrantError.Memory
        → types_after [] (map (λ word. word.now) words.now) ≡ Err error) }
{
    let mut types = Vec::new(alloc);
    let mut rest = words;
    while let [word, more @ ..] = rest {
        types.push(type_in(word)?)?;
        rest = more;
    }
    Ok(types)
}

/// Returns the record type of a word.
fn type_in(word: &str) -> Result<RecordType, GrantError>
    ensures { result ≡ type_in word.now }
{
    match word.parse::<RecordType>() {
        Ok(record_type) => Ok(record_type),
        Err(_) => Err(GrantError::Type),
    }
}
