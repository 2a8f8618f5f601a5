//! A key of several, as those of a key file.

ghost use Rattle.std.specs.Prelude.{◌≡◌, option_map};
ghost use Rattle.std.specs.Option.{option_copied};
ghost use Rattle.dns_tsig.specs.WireName.{canonical_name};
ghost use Rattle.dns_tsig.specs.signer.KeyChoice.{chosen, first_named};

use crate::{Key, canonical_name};
use dns_names::Name;

/// Returns the first key of a list that has a name, or the first of all if no name is given. It is `None` if there is none.
pub fn choose_key(keys: Vec<Key>, name: Option<&Name>) -> Option<Key>
    ensures { result ≡ chosen keys.items
        (option_map (λ wanted. wanted.labels) (option_copied name.entry)) }
{
    match name {
        None => keys.into_iter().next(),
        Some(name) => first_named(keys, name),
    }
}

/// Returns the first key of a list that has a name.
fn first_named(keys: Vec<Key>, name: &Name) -> Option<Key>
    ensures { result ≡ first_named keys.items (canonical_name name.now.labels) }
{
    let wanted = canonical_name(name);
    keys.into_iter()
        .find(|key| key.name.as_slice() == wanted.as_slice())
}
