//! Byte strings of bounded length.

ghost use Rattle.std.specs.Prelude.{◌≡◌, ◌≤◌, ◌<◌, ◌↔◌, [], length, IfOk, OnErr, IsOk};

use std::alloc::AllocError;
use std::cmp::Ordering;
use std::fmt;
use std::marker::Model;
use thiserror::Error;

/// A byte string is longer than its type permits.
#[derive(Clone, Copy, Debug, PartialEq, Eq, Error)]
#[error("byte string is too long")]
pub struct TooLong;

/// Bytes, at most `MAX` of them.
#[derive(Drop)]
pub struct Octets<const MAX: usize> {
    bytes: Vec<u8>,
}

/// A character string, of at most 255 bytes (RFC 1035 section 3.3).
pub type CharacterString = Octets<255>;

/// The data of an option, or of a record of a type without fields: at most 65,535 bytes (RFC 6891 section 6.1.2,
/// RFC 1035 section 3.2.1).
pub type OptionData = Octets<65535>;

impl<const MAX: usize> Model for Octets<MAX> {
    ghost use Rattle.std.specs.Prelude.{List, ℕ, ◌≤◌, length};

    ghost Value = { List ℕ };

    ghost view = { λ o. o.bytes.items };

    ghost invariant = { λ o. length o.bytes.items ≤ MAX };
}

impl<const MAX: usize> Octets<MAX> {
    /// The bytes of a vector, which is not copied. Refuses more than `MAX` bytes.
    pub fn new(bytes: Vec<u8>) -> Result<Self, TooLong>
        ensures ok { IfOk result (λ octets. octets ≡ bytes.items) }
        ensures long { IsOk result ↔ (length bytes.items ≤ MAX) }
    {
        if bytes.len() > MAX {
            return Err(TooLong);
        }
        Ok(Octets { bytes })
    }

    /// Returns the bytes.
    pub fn as_slice(&self) -> &[u8]
        ensures value { result.now ≡ self.now }
        ensures bounded { length result.now ≤ MAX }
    {
        self.bytes.as_slice()
    }

    /// Returns the bytes as a vector, which is not copied.
    pub fn into_vec(self) -> Vec<u8>
        ensures { result.items ≡ self.entry }
    {
        self.bytes
    }

    /// Clones the bytes. No bytes take no memory.
    pub fn clone(&self) -> Result<Self, AllocError>
        ensures ok { IfOk result (λ copy. copy ≡ self.now) }
        ensures empty { self.now ≡ [] → IsOk result }
    {
        Ok(Octets {
            bytes: clone_items(&self.bytes)?,
        })
    }
}

/// Clones a vector. One without items takes no memory.
pub(crate) fn clone_items<T: Clone>(items: &Vec<T>) -> Result<Vec<T>, AllocError>
    ensures identical { IfOk result (λ copy.
        ((x y : T) → T.is_clone x y → y ≡ x) → copy.items ≡ items.now.items) }
    ensures empty { items.now.items ≡ [] → IsOk result }
{
    let alloc = *items.allocator();
    if items.is_empty() {
        return Ok(Vec::new(alloc));
    }
    Vec::from_clones(alloc, items.as_slice())
}

impl<const MAX: usize> Clone for Octets<MAX> {
    ghost is_clone = { λ octets copy. copy ≡ octets };

    fn clone(&self) -> Result<Self, AllocError> {
        Octets::clone(self)
    }
}

impl<const MAX: usize> PartialEq for Octets<MAX> {
    ghost use Rattle.std.specs.Str.{bytes_eq};
    ghost use Rattle.std.specs.Cmp.{partial_equiv_from_equiv};
    ghost use Rattle.std.specs.Cmp.Lexicographic.{nat_list_eq_equiv};

    ghost eq = { bytes_eq };

    ghost laws = { partial_equiv_from_equiv nat_list_eq_equiv };

    fn eq(&self, other: &Self) -> bool {
        self.bytes == other.bytes
    }
}

impl<const MAX: usize> Eq for Octets<MAX> {
    ghost use Rattle.std.specs.Cmp.Lexicographic.{nat_list_eq_equiv};

    ghost laws = { nat_list_eq_equiv };
}

impl<const MAX: usize> Ord for Octets<MAX> {
    ghost use Rattle.std.proofs.Common.{refl};
    ghost use Rattle.std.specs.Ordering.{nat_cmp};
    ghost use Rattle.std.specs.Cmp.Lexicographic.{slice_cmp, nat_list_cmp_total, texts_ties};

    ghost cmp = { slice_cmp nat_cmp };

    ghost total = { nat_list_cmp_total };

    ghost matches_partial_cmp = { λ x y. refl };

    ghost matches_eq = { texts_ties };

    fn cmp(&self, other: &Self) -> Ordering {
        self.bytes.cmp(&other.bytes)
    }
}

impl<const MAX: usize> PartialOrd for Octets<MAX> {
    ghost use Rattle.std.specs.Ordering.{nat_cmp, as_partial_cmp};
    ghost use Rattle.std.specs.Cmp.Lexicographic.{slice_cmp, texts_po};

    ghost partial_cmp = { as_partial_cmp (slice_cmp nat_cmp) };

    ghost laws = { texts_po };

    fn partial_cmp(&self, other: &Self) -> Option<Ordering> {
        Some(self.cmp(other))
    }
}

impl<const MAX: usize> fmt::Debug for Octets<MAX> {
    ghost use Rattle.std.specs.Prelude.{Some};
    ghost use Rattle.std.specs.Fmt.{decimal, debug_list};

    ghost debug_output = { debug_list (λ byte. Some (decimal byte)) };

    fn fmt<W: fmt::Write>(&self, f: &mut fmt::Formatter<W>) -> fmt::Result {
        self.bytes.fmt(f)
    }
}
