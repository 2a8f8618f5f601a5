//! Keys and grants.

ghost use Rattle.std.specs.Prelude.{◌≡◌, ◌≢◌, ◌++◌, IfErr, IfOk, OnOk, map, option_map, string_bytes};
ghost use Rattle.std.specs.List.{AllZip};
ghost use Rattle.nameserver_handlers.specs.Grants.{AddsKeys, AreDistinct, HasTwice, IsGrantOf, RefusesGrant, RefusesKeys, RefusesOne, has_name, has_name_below, unusable, words_of};

use crate::unmatched::overlaps;
use dns_durable::{GrantError, parse_grant};
use dns_keys::grants::Grant;
use dns_keys::{KeyFileError, parse_keys};
use dns_names::Name;
use dns_tsig::{Key, WireName};
use dns_zone::Zone;
use nameserver_cli::Ending;
use std::alloc::{AllocError, Global};

/// Adds the keys of the text of the key file at a path, of which there is at least one. No two keys have the same name.
///
/// # Errors
///
/// - [`Ending::Refused`] if the text is not that of a key file, or has no key, or one with the name of another;
/// - [`Ending::Memory`] if memory is refused.
pub fn add_keys(alloc: Global, keys: &mut Vec<Key>, path: &str, text: &[u8]) -> Result<(), Ending>
    ensures ok { OnOk result (AddsKeys text.now keys.old.items keys.new.items) }
    ensures refused { IfErr result (λ ending. ending ≢ Ending.Memory
        → RefusesKeys text.now keys.old.items) }
{
    match parse_keys(alloc, text) {
        Ok(found) if found.is_empty() => {
            Err(refusal(alloc, path, "there is no key in this file"))
        }
        Ok(found) => add_all(alloc, keys, path, found),
        Err(error) => match error {
            // Memory was refused while the keys were read.
            KeyFileError::Memory => Err(Ending::Memory),
            _ => Err(Ending::Refused(format!(in alloc; "{path}: {error}\n")?)),
        },
    }
}

/// Adds keys, no two of which have the same name.
fn add_all(alloc: Global, keys: &mut Vec<Key>, path: &str, found: Vec<Key>) -> Result<(), Ending>
    ensures added { OnOk result (keys.new.items ≡ keys.old.items ++ found.items) }
    ensures distinct { OnOk result (AreDistinct keys.old.items found.items) }
    ensures refused { IfErr result (λ ending. ending ≢ Ending.Memory
        → HasTwice keys.old.items found.items) }
{
    for key in found {
        if has_name(keys.as_slice(), &key.name) {
            return Err(refusal(alloc, path, "another key has the same name"));
        }
        keys.push(key)?;
    }
    Ok(())
}

/// Returns how the program ends if it refuses a key file.
fn refusal(alloc: Global, path: &str, reason: &str) -> Ending {
    match format!(in alloc; "{path}: {reason}\n") {
        Ok(report) => Ending::Refused(report),
        // Memory for the report was refused.
        Err(_) => Ending::Memory,
    }
}

/// Returns the grants of texts, each of which is for one of the keys, and for names of the zones.
pub fn grants_of(
    alloc: Global,
    texts: &[String],
    keys: &[Key],
    zones: &[Zone],
) -> Result<Vec<Grant>, Ending>
    ensures ok { IfOk result (λ grants.
        AllZip (IsGrantOf keys.now zones.now) (map string_bytes texts.now) grants.items) }
    ensures refused { IfErr result (λ ending. ending ≢ Ending.Memory
        → RefusesOne keys.now zones.now (map string_bytes texts.now) ending) }
{
    let mut grants = Vec::new(alloc);
    for text in texts {
        grants.push(grant_of(alloc, text.as_str(), keys, zones)?)?;
    }
    Ok(grants)
}

/// Returns the grant of a text, which is for one of the keys, and for names of the zones.
fn grant_of(alloc: Global, text: &str, keys: &[Key], zones: &[Zone]) -> Result<Grant, Ending>
    ensures ok { IfOk result (IsGrantOf keys.now zones.now text.now) }
    ensures refused { IfErr result (λ ending. ending ≢ Ending.Memory
        → RefusesGrant keys.now zones.now text.now ending) }
{
    let words = words_of(alloc, text)?;
    match parse_grant(alloc, words.as_slice()) {
        Ok(grant) => match unusable(&grant, keys, zones) {
            Some(reason) => Err(Ending::invalid(alloc, "grant", text, reason)),
            None => Ok(grant),
        },
        Err(error) => match error {
            // Memory for the grant was refused.
            GrantError::Memory => Err(Ending::Memory),
            _ => {
                let reason = format!(in alloc; "{error}")?;
                Err(Ending::invalid(alloc, "grant", text, reason.as_str()))
            }
        },
    }
}

/// Returns the words of a text, which spaces separate.
fn words_of(alloc: Global, text: &str) -> Result<Vec<&str>, AllocError>
    ensures { IfOk result (λ words. map (λ word. word.now) words.items ≡ words_of text.now) }
{
    text.split(' ')
        .filter(|word| !word.is_empty())
        .collect(alloc)
}

/// Returns why a grant permits nothing: none of the keys has its name, or none of the zones a name of its subtree.
fn unusable(grant: &Grant, keys: &[Key], zones: &[Zone]) -> Option<&'static str>
    ensures { option_map (λ text. text.now) result ≡ unusable keys.now zones.now grant.now }
{
    if !has_name(keys, &grant.key) {
        return Some("no key file has this key");
    }
    if has_name_below(zones, &grant.subtree) {
        None
    } else {
        Some("no zone here has this name")
    }
}

/// Returns `true` if one of the keys has a name.
fn has_name(keys: &[Key], name: &WireName) -> bool
    ensures { result ≡ has_name keys.now name.now.items }
{
    keys.iter()
        .any(|key| key.name.as_slice() == name.as_slice())
}

/// Returns `true` if one of the zones has a name of a subtree.
fn has_name_below(zones: &[Zone], subtree: &Name) -> bool
    ensures { result ≡ has_name_below zones.now subtree.now }
{
    zones.iter().any(|zone| overlaps(subtree, zone.origin()))
}
