//! The key that signs updates.

ghost use Rattle.std.specs.Prelude.{IfErr, IfOk, option_map};
ghost use Rattle.std.specs.Option.{option_copied};
ghost use Rattle.lookup_cli.specs.Keys.{IsKeyIn, IsRefusal};

use crate::ending::Ending;
use dns_keys::{KeyFileError, parse_keys};
use dns_names::Name;
use dns_tsig::Key;
use dns_tsig::signer::choose_key;
use std::alloc::Global;

/// Returns the key of a name in the text of a key file, or its first one. The path is for errors.
///
/// # Errors
///
/// - [`Ending::InvalidKeys`] if the text is not that of a key file;
/// - [`Ending::NoKey`] if it has no such key;
/// - [`Ending::Memory`] if memory is refused.
pub fn key_of(alloc: Global, path: &str, text: &[u8], name: Option<&Name>) -> Result<Key, Ending>
    ensures ok { IfOk result (IsKeyIn text.now
        (option_map (λ wanted. wanted.labels) (option_copied name.entry))) }
    ensures refused { IfErr result (IsRefusal path.now text.now
        (option_map (λ wanted. wanted.labels) (option_copied name.entry))) }
{
    match parse_keys(alloc, text) {
        Ok(keys) => match choose_key(keys, name) {
            Some(key) => Ok(key),
            None => Err(Ending::NoKey(String::from_str(alloc, path)?)),
        },
        // Memory for the keys was refused.
        Err(KeyFileError::Memory) => Err(Ending::Memory),
        Err(error) => Err(Ending::InvalidKeys(String::from_str(alloc, path)?, error)),
    }
}
