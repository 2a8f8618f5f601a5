//! The keys of record sets, whose order compares bytes alone.

ghost use Rattle.std.specs.Prelude.{◌≡◌, ◌+◌, ◌≤◌, ◌++◌, [], ◌∷◌, length};
ghost use Rattle.std.specs.Prelude.{drop, get_or};
ghost use Rattle.dns_updates.specs.internal.OwnerKeys.{front, AreOctets};
ghost use Rattle.dns_updates.specs.Keys.{byte_code, label_code, owner_code, type_code};

use arrayvec::ArrayVec;
use dns_names::Name;
use dns_wire::RecordType;
use std::cmp::Ordering;
use std::marker::Model;

/// The greatest length of the bytes in a key: those of an owner take at most that of an encoded name without the root, and
/// the end of its keys one more.
const MAX_OWNER_LENGTH: usize = Name::MAX_LENGTH;

/// An owner as bytes. Their order is the canonical order of names (RFC 4034 section 6.1), and the bytes of a name begin with
/// those of each name above it.
///
/// Most keys differ in their first 32 bytes, which are kept as two numbers, so that two comparisons decide.
#[derive(Drop)]
pub struct OwnerKey {
    bytes: ArrayVec<u8, MAX_OWNER_LENGTH>,
    /// The first sixteen bytes as a number in base 256, with zeros in the place of those that are not there.
    first: u128,
    /// Likewise the next sixteen.
    second: u128,
}

impl Model for OwnerKey {
    ghost use Rattle.std.specs.Prelude.{List, ℕ};
    ghost use Rattle.dns_updates.specs.internal.OwnerKeys.{HasFront};

    ghost Value = { List ℕ };

    ghost view = { λ k. k.bytes.items };

    ghost invariant = { λ k. HasFront k.bytes.items k.first k.second };
}

impl OwnerKey {
    /// Returns the key of these bytes.
    fn of_bytes(bytes: ArrayVec<u8, MAX_OWNER_LENGTH>) -> OwnerKey
        ensures { result ≡ bytes.items }
    {
        let first = front(bytes.as_slice());
        let second = front(after_front(bytes.as_slice()));
        OwnerKey {
            bytes,
            first,
            second,
        }
    }

    /// Returns the bytes.
    pub fn as_slice(&self) -> &[u8]
        ensures { result.now ≡ self.now }
    {
        self.bytes.as_slice()
    }
}

/// Returns the first sixteen bytes as a number.
fn front(bytes: &[u8]) -> u128
    ensures number { result ≡ front 16 bytes.now }
    ensures octets { AreOctets bytes.now }
{
    let mut number = 0;
    for i in 0..16 {
        number = number * 256 + u128::from(byte_at(bytes, i));
    }
    number
}

/// Returns the bytes after the first sixteen.
fn after_front(bytes: &[u8]) -> &[u8]
    ensures { result.now ≡ drop 16 bytes.now }
{
    if bytes.len() < 16 {
        return &[];
    }
    &bytes[16..]
}

/// Returns the byte at a place, or 0 if there is none.
fn byte_at(bytes: &[u8], place: usize) -> u8
    ensures { result ≡ get_or bytes.now place 0 }
{
    match bytes.get(place) {
        Some(byte) => *byte,
        None => 0,
    }
}

impl PartialEq for OwnerKey {
    ghost use Rattle.std.specs.Str.{bytes_eq};
    ghost use Rattle.std.specs.Cmp.{partial_equiv_from_equiv};
    ghost use Rattle.std.specs.Cmp.Lexicographic.{nat_list_eq_equiv};

    ghost eq = { bytes_eq };

    ghost laws = { partial_equiv_from_equiv nat_list_eq_equiv };

    fn eq(&self, other: &OwnerKey) -> bool {
        self.as_slice() == other.as_slice()
    }
}

impl Eq for OwnerKey {
    ghost use Rattle.std.specs.Cmp.Lexicographic.{nat_list_eq_equiv};

    ghost laws = { nat_list_eq_equiv };
}

impl Ord for OwnerKey {
    ghost use Rattle.std.proofs.Common.{refl};
    ghost use Rattle.dns_updates.specs.Keys.{bytes_cmp};
    ghost use Rattle.dns_updates.specs.internal.OwnerKeys.{bytes_cmp-total, bytes_cmp-equal};

    ghost cmp = { bytes_cmp };

    ghost total = { bytes_cmp-total };

    ghost matches_partial_cmp = { λ x y. refl };

    ghost matches_eq = { bytes_cmp-equal };

    fn cmp(&self, other: &OwnerKey) -> Ordering {
        if self.first != other.first {
            return self.first.cmp(&other.first);
        }
        if self.second != other.second {
            return self.second.cmp(&other.second);
        }
        self.as_slice().cmp(&other.as_slice())
    }
}

impl PartialOrd for OwnerKey {
    ghost use Rattle.std.specs.Ordering.{as_partial_cmp};
    ghost use Rattle.dns_updates.specs.Keys.{bytes_cmp};
    ghost use Rattle.dns_updates.specs.internal.OwnerKeys.{bytes_cmp-partial};

    ghost partial_cmp = { as_partial_cmp bytes_cmp };

    ghost laws = { bytes_cmp-partial };

    fn partial_cmp(&self, other: &OwnerKey) -> Option<Ordering> {
        Some(self.cmp(other))
    }
}

/// The key of a set: its owner, and a number for its type.
pub type SetKey = (OwnerKey, u32);

/// Returns the key of the set of an owner and a type.
pub fn set_key(owner: &Name, record_type: RecordType) -> SetKey
    ensures owner { result.0 ≡ owner_code owner.now.labels }
    ensures of_type { result.1 ≡ type_code record_type }
{
    (owner_key(owner), type_code(record_type))
}

/// Returns the least of the keys at or below a name.
pub fn first_key(name: &Name) -> SetKey
    ensures owner { result.0 ≡ owner_code name.now.labels }
    ensures of_type { result.1 ≡ 0 }
{
    (owner_key(name), 0)
}

/// Returns a key that is greater than each of a name, and less than each of the names below it.
pub fn end_key(name: &Name) -> SetKey
    ensures owner { result.0 ≡ owner_code name.now.labels ++ 0 ∷ [] }
    ensures of_type { result.1 ≡ 0 }
{
    let mut end = owner_bytes(name);
    // No label begins with a byte as small as that which ends one.
    end.push(0);
    (OwnerKey::of_bytes(end), 0)
}

/// Returns the number of a type in a key, by which `SOA` comes first.
pub fn type_code(record_type: RecordType) -> u32
    ensures { result ≡ type_code record_type }
{
    if record_type == RecordType::SOA {
        return 0;
    }
    u32::from(u16::from(record_type)) + 1
}

/// Returns the key of an owner.
pub fn owner_key(owner: &Name) -> OwnerKey
    ensures bytes { result ≡ owner_code owner.now.labels }
    ensures most { length result ≤ 254 }
{
    OwnerKey::of_bytes(owner_bytes(owner))
}

/// Returns an owner as bytes.
fn owner_bytes(owner: &Name) -> ArrayVec<u8, MAX_OWNER_LENGTH>
    ensures bytes { result.items ≡ owner_code owner.now.labels }
    ensures most { length result.items ≤ 254 }
{
    prove!(owner.encoded_len() <= Name::MAX_LENGTH);
    let mut key = ArrayVec::new();
    let mut labels = owner.iter();
    while let Some(label) = labels.next_back() {
        push_label(&mut key, label);
    }
    key
}

/// Appends a label and its end.
fn push_label(key: &mut ArrayVec<u8, MAX_OWNER_LENGTH>, label: &[u8])
    requires { length key.old.items + length label.now + 1 ≤ 254 }
    ensures { key.new.items ≡ key.old.items ++ label_code label.now }
{
    for byte in label {
        key.push(byte_code(*byte));
    }
    key.push(0);
}

/// Returns a byte of a label in a key: in lower case, and greater than the byte that ends a label.
fn byte_code(byte: u8) -> u8
    ensures { result ≡ byte_code byte }
{
    let lower = byte.to_ascii_lowercase();
    // No byte in lower case lies between `A` and `Z`.
    if lower < b'A' { lower + 1 } else { lower }
}
