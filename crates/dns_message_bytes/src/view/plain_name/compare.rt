//! Equality and hash of names that are borrowed from a message, as those of `Name` (RFC 1035 section 2.3.3, RFC 4343).

ghost use Rattle.std.specs.Prelude.{◌≡◌};
ghost use Rattle.std.specs.List.{fold, flat_map};
ghost use Rattle.std.specs.Str.{str_to_ascii_lowercase};
ghost use Rattle.std.specs.Hash as fed;
ghost use Rattle.dns_names.specs.Compare.{same_labels, same_name, name_writes};
ghost use Rattle.dns_names.specs.internal.Compare.{same_name-partial, same_name-equivalence, hashed_alike};

use crate::view::plain_name::{PlainLabels, PlainName};
use dns_names::{LabelIter, Name};
use std::hash::{Hash, Hasher};

impl<'a> PartialEq for PlainName<'a> {
    ghost eq = { same_name };

    ghost laws = { same_name-partial };

    /// Names are equal if their labels are, ignoring ASCII case.
    fn eq(&self, other: &PlainName<'a>) -> bool {
        self.label_bytes().eq_ignore_ascii_case(other.label_bytes())
    }
}

impl<'a> Eq for PlainName<'a> {
    ghost laws = { same_name-equivalence };
}

/// A name is hashed as the `Name` with its labels.
impl<'a> Hash for PlainName<'a> {
    ghost hash_input = { name_writes };

    ghost respects_eq = { hashed_alike };

    fn hash<H: Hasher>(&self, state: &mut H) {
        true.hash(state);
        hash_bytes(self.label_bytes(), state);
    }
}

/// Hashes bytes, with ASCII letters in lower case.
fn hash_bytes<H: Hasher>(bytes: &[u8], state: &mut H)
    ensures { state.new
        ≡ fold H.write state.old (flat_map fed.u8 (str_to_ascii_lowercase bytes.now)) }
{
    for byte in bytes {
        state.write_u8(byte.to_ascii_lowercase());
    }
}

impl<'a> PlainName<'a> {
    /// Returns `true` if the name is equal to another, ignoring ASCII case.
    pub fn is_name(&self, name: &Name) -> bool
        ensures { result ≡ same_name self.now name.now }
    {
        let labels = self.labels();
        name.is_fqdn() && are_same(labels, name.iter())
    }
}

/// Returns `true` if labels are equal one by one, ignoring ASCII case.
fn are_same(own: PlainLabels<'_>, others: LabelIter<'_>) -> bool
    ensures { result ≡ same_labels own.entry others.entry }
{
    let mut own = own;
    for label in others {
        match own.next() {
            Some(first) if first.eq_ignore_ascii_case(label) => {}
            _ => return false,
        }
    }
    own.next().is_none()
}
