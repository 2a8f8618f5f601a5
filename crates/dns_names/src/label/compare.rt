//! Order, equality and hash of labels (RFC 4034 section 6.1, RFC 4343).

ghost use Rattle.std.specs.Prelude.{◌≡◌, ℕ};
ghost use Rattle.std.specs.Ordering.{nat_cmp, as_partial_cmp};
ghost use Rattle.std.specs.Cmp.{IsTotalOrder};
ghost use Rattle.std.specs.Cmp.Lexicographic.{slice_cmp};
ghost use Rattle.std.specs.declared.cmp.Ordering.{Ordering};
ghost use Rattle.dns_names.specs.LabelCompare.{lower_cmp};
ghost use Rattle.dns_names.specs.internal.Compare.{lower_cmp-total, nat_cmp-total};
ghost use Rattle.std.specs.Str.{str_eq_ignore_ascii_case, str_to_ascii_lowercase};
ghost use Rattle.std.proofs.Common.{refl};
ghost use Rattle.dns_names.specs.LabelCompare.{label_cmp, label_hash};
ghost use Rattle.dns_names.specs.internal.LabelCompare.{same_label-partial, same_label-equivalence, label_cmp-total, label_cmp-partial, labels_agree, labels_hashed_alike};
ghost use Rattle.std.specs.List.{fold, flat_map};
ghost use Rattle.std.specs.Hash as fed;
ghost use Rattle.dns_wire.specs.Name.{IsLabel};
ghost use Rattle.dns_names.specs.LabelCompare.{label_writes};

use crate::label::Label;
use std::cmp::Ordering;
use std::hash::{Hash, Hasher};

/// An order of the bytes of labels.
pub trait LabelCmp {
    /// The order of two bytes.
    ghost byte_order: { ℕ → ℕ → Ordering };

    /// The order is total.
    ghost total: { IsTotalOrder byte_order };

    /// Compares two bytes.
    fn cmp_u8(l: u8, r: u8) -> Ordering
        ensures { result ≡ byte_order l r };
}

/// Compares bytes by value.
pub struct CaseSensitive;

impl LabelCmp for CaseSensitive {
    ghost byte_order = { nat_cmp };

    ghost total = { nat_cmp-total };

    fn cmp_u8(l: u8, r: u8) -> Ordering {
        l.cmp(&r)
    }
}

/// Compares bytes with ASCII letters in lower case (RFC 4343).
pub struct CaseInsensitive;

impl LabelCmp for CaseInsensitive {
    ghost byte_order = { lower_cmp };

    ghost total = { lower_cmp-total };

    fn cmp_u8(l: u8, r: u8) -> Ordering {
        l.to_ascii_lowercase().cmp(&r.to_ascii_lowercase())
    }
}

impl Label {
    /// Compares labels byte by byte; a label that is a prefix of another comes first.
    pub fn cmp_with_f<F: LabelCmp>(&self, other: &Label) -> Ordering
        ensures { result ≡ slice_cmp F.byte_order self.now other.now }
    {
        cmp_bytes::<F>(self.as_bytes(), other.as_bytes())
    }
}

impl PartialEq for Label {
    ghost eq = { str_eq_ignore_ascii_case };

    ghost laws = { same_label-partial };

    fn eq(&self, other: &Label) -> bool {
        self.eq_ignore_ascii_case(other)
    }
}

impl Eq for Label {
    ghost laws = { same_label-equivalence };
}

impl Ord for Label {
    ghost cmp = { label_cmp };

    ghost total = { label_cmp-total };

    ghost matches_partial_cmp = { λ x y. refl };

    ghost matches_eq = { labels_agree };

    fn cmp(&self, other: &Label) -> Ordering {
        self.cmp_with_f::<CaseInsensitive>(other)
    }
}

impl PartialOrd for Label {
    ghost partial_cmp = { as_partial_cmp label_cmp };

    ghost laws = { label_cmp-partial };

    fn partial_cmp(&self, other: &Label) -> Option<Ordering> {
        Some(self.cmp(other))
    }
}

impl Hash for Label {
    ghost hash_input = { label_hash };

    ghost respects_eq = { labels_hashed_alike };

    fn hash<H: Hasher>(&self, state: &mut H) {
        hash_label(self.as_bytes(), state);
    }
}

/// Compares the bytes of two labels.
pub(crate) fn cmp_bytes<F: LabelCmp>(own: &[u8], other: &[u8]) -> Ordering
    ensures { result ≡ slice_cmp F.byte_order own.now other.now }
{
    let mut index = 0;
    while index < own.len() && index < other.len() {
        match F::cmp_u8(own[index], other[index]) {
            Ordering::Equal => index += 1,
            decided => return decided,
        }
    }
    own.len().cmp(&other.len())
}

/// Hashes a label, ignoring ASCII case: its length, and its bytes in lower case.
pub(crate) fn hash_label<H: Hasher>(label: &[u8], state: &mut H)
    requires { IsLabel label.now }
    ensures { state.new ≡ fold H.write state.old (label_writes (str_to_ascii_lowercase label.now)) }
{
    state.write_u8(label.len() as u8);
    hash_bytes(label, state);
}

/// Hashes bytes, with ASCII letters in lower case.
pub(crate) fn hash_bytes<H: Hasher>(bytes: &[u8], state: &mut H)
    ensures { state.new
        ≡ fold H.write state.old (flat_map fed.u8 (str_to_ascii_lowercase bytes.now)) }
{
    for byte in bytes {
        state.write_u8(byte.to_ascii_lowercase());
    }
}
