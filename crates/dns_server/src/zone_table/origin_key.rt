//! The keys of origins, whose order compares bytes alone.

ghost use Rattle.std.specs.Prelude.{◌≡◌, ◌+◌, ◌≤◌, ◌++◌, [], ◌∷◌, length};
ghost use Rattle.dns_updates.specs.Keys.{byte_code, label_code, owner_code};

use arrayvec::ArrayVec;
use dns_names::Name;
use std::cmp::Ordering;
use std::marker::Model;

/// The greatest length of a key: the bytes of an origin take at most those of an encoded name without the root.
const MAX_LENGTH: usize = Name::MAX_LENGTH;

/// An origin as bytes, from its last label to its first, in lower case.
#[derive(Drop)]
pub(crate) struct OriginKey {
    bytes: ArrayVec<u8, MAX_LENGTH>,
}

impl Model for OriginKey {
    ghost use Rattle.std.specs.Prelude.{List, ℕ};

    ghost Value = { List ℕ };

    ghost view = { λ k. k.bytes.items };
}

impl OriginKey {
    /// Returns the key of the root.
    pub(crate) fn root() -> OriginKey
        ensures { result ≡ [] }
    {
        OriginKey {
            bytes: ArrayVec::new(),
        }
    }

    /// Returns the key of an origin.
    pub(crate) fn of(origin: &Name) -> OriginKey
        ensures { result ≡ owner_code origin.now.labels }
    {
        prove!(origin.encoded_len() <= Name::MAX_LENGTH);
        let mut key = OriginKey::root();
        let mut labels = origin.iter();
        while let Some(label) = labels.next_back() {
            key.push(label);
        }
        key
    }

    /// Appends the next label of an origin, which is that before the others.
    pub(crate) fn push(&mut self, label: &[u8])
        requires { length self.old + length label.now + 1 ≤ 254 }
        ensures { self.new ≡ self.old ++ label_code label.now }
    {
        push_label(&mut self.bytes, label);
    }

    /// Returns the bytes.
    fn as_slice(&self) -> &[u8]
        ensures { result.now ≡ self.now }
    {
        self.bytes.as_slice()
    }
}

/// Appends a label and its end.
fn push_label(bytes: &mut ArrayVec<u8, MAX_LENGTH>, label: &[u8])
    requires { length bytes.old.items + length label.now + 1 ≤ 254 }
    ensures { bytes.new.items ≡ bytes.old.items ++ label_code label.now }
{
    for byte in label {
        bytes.push(byte_code(*byte));
    }
    bytes.push(0);
}

/// Returns a byte of a label in a key: in lower case, and greater than the byte that ends a label.
fn byte_code(byte: u8) -> u8
    ensures { result ≡ byte_code byte }
{
    let lower = byte.to_ascii_lowercase();
    // No byte in lower case lies between `A` and `Z`.
    if lower < b'A' { lower + 1 } else { lower }
}

impl PartialEq for OriginKey {
    ghost use Rattle.std.specs.Str.{bytes_eq};
    ghost use Rattle.std.specs.Cmp.{partial_equiv_from_equiv};
    ghost use Rattle.std.specs.Cmp.Lexicographic.{nat_list_eq_equiv};

    ghost eq = { bytes_eq };

    ghost laws = { partial_equiv_from_equiv nat_list_eq_equiv };

    fn eq(&self, other: &OriginKey) -> bool {
        self.as_slice() == other.as_slice()
    }
}

impl Eq for OriginKey {
    ghost use Rattle.std.specs.Cmp.Lexicographic.{nat_list_eq_equiv};

    ghost laws = { nat_list_eq_equiv };
}

impl Ord for OriginKey {
    ghost use Rattle.std.proofs.Common.{refl};
    ghost use Rattle.dns_updates.specs.Keys.{bytes_cmp};
    ghost use Rattle.dns_updates.specs.internal.OwnerKeys.{bytes_cmp-total, bytes_cmp-equal};

    ghost cmp = { bytes_cmp };

    ghost total = { bytes_cmp-total };

    ghost matches_partial_cmp = { λ x y. refl };

    ghost matches_eq = { bytes_cmp-equal };

    fn cmp(&self, other: &OriginKey) -> Ordering {
        self.as_slice().cmp(&other.as_slice())
    }
}

impl PartialOrd for OriginKey {
    ghost use Rattle.std.specs.Ordering.{as_partial_cmp};
    ghost use Rattle.dns_updates.specs.Keys.{bytes_cmp};
    ghost use Rattle.dns_updates.specs.internal.OwnerKeys.{bytes_cmp-partial};

    ghost partial_cmp = { as_partial_cmp bytes_cmp };

    ghost laws = { bytes_cmp-partial };

    fn partial_cmp(&self, other: &OriginKey) -> Option<Ordering> {
        Some(self.cmp(other))
    }
}
