//! Equality, order and hash of names, and zones, ignoring ASCII case (RFC 1035 section 2.3.3, RFC 4034 section 6.1,
//! RFC 4343).

ghost use Rattle.std.specs.Prelude.{◌≡◌, ◌+◌, ◌<◌, drop, length, map, take, slice_index, ◌↔◌, ◌++◌, List, ℕ};
ghost use Rattle.dns_names.specs.Compare.{same_labels, at_or_below};
ghost use Rattle.std.specs.Ordering.{nat_cmp, as_partial_cmp};
ghost use Rattle.std.specs.Bool.{IsTrue};
ghost use Rattle.std.proofs.Common.{refl};
ghost use Rattle.dns_names.specs.Compare.{labels_order, name_order, name_cmp, name_writes};
ghost use Rattle.dns_names.specs.internal.Compare.{name_cmp-total, name_cmp-partial, names_agree, hashed_alike};

use crate::label::compare::{CaseInsensitive, CaseSensitive, LabelCmp, cmp_bytes, hash_bytes};
use crate::name::Name;
use std::cmp::Ordering;
use std::hash::{Hash, Hasher};

impl PartialEq for Name {
    ghost use Rattle.dns_names.specs.Compare.{same_name};
    ghost use Rattle.dns_names.specs.internal.Compare.{same_name-partial};

    ghost eq = { same_name };

    ghost laws = { same_name-partial };

    fn eq(&self, other: &Name) -> bool {
        self.is_fqdn() == other.is_fqdn() && self.eq_ignore_root(other)
    }
}

impl Eq for Name {
    ghost use Rattle.dns_names.specs.internal.Compare.{same_name-equivalence};

    ghost laws = { same_name-equivalence };
}

impl Ord for Name {
    ghost cmp = { name_cmp };

    ghost total = { name_cmp-total };

    ghost matches_partial_cmp = { λ x y. refl };

    ghost matches_eq = { names_agree };

    fn cmp(&self, other: &Name) -> Ordering {
        self.cmp_with_f::<CaseInsensitive>(other)
    }
}

impl PartialOrd for Name {
    ghost partial_cmp = { as_partial_cmp name_cmp };

    ghost laws = { name_cmp-partial };

    fn partial_cmp(&self, other: &Name) -> Option<Ordering> {
        Some(self.cmp(other))
    }
}

impl Hash for Name {
    ghost hash_input = { name_writes };

    ghost respects_eq = { hashed_alike };

    fn hash<H: Hasher>(&self, state: &mut H) {
        self.is_fqdn().hash(state);
        hash_bytes(self.wire(), state);
    }
}

impl Name {
    /// Returns `true` if `name` is at or below this name: if its last labels are this name's, ignoring ASCII case and
    /// whether the names are fully qualified.
    pub fn zone_of(&self, name: &Name) -> bool
        ensures { result ≡ at_or_below self.now.labels name.now.labels }
    {
        let (own, others) = (self.label_count(), name.label_count());
        own <= others && name.ends_in(others - own, self)
    }

    /// Returns `true` if the last labels are these, ignoring ASCII case: if the name is at or below the name that has
    /// them.
    pub fn ends_with(&self, labels: &[&[u8]]) -> bool
        ensures { result ≡ at_or_below (map (λ label. label.now) labels.now) self.now.labels }
    {
        let (own, others) = (self.label_count(), labels.len());
        others <= own && self.ends_in_labels(own - others, labels)
    }

    /// Returns `true` if `name` is at or below this name, comparing case: if its last labels are this name's.
    pub fn zone_of_case(&self, name: &Name) -> bool
        ensures { IsTrue result ↔
            ((front : List (List ℕ)) × (name.now.labels ≡ front ++ self.now.labels)) }
    {
        let (own, others) = (self.label_count(), name.label_count());
        own <= others && name.ends_in_case(others - own, self)
    }

    /// Returns `true` if the labels are equal, ignoring ASCII case and whether the names are fully qualified.
    pub fn eq_ignore_root(&self, other: &Name) -> bool
        ensures { result ≡ same_labels self.now.labels other.now.labels }
    {
        self.wire().eq_ignore_ascii_case(other.wire())
    }

    /// Returns `true` if the labels are equal, comparing case, whether or not the names are fully qualified.
    pub fn eq_ignore_root_case(&self, other: &Name) -> bool
        ensures { IsTrue result ↔ (self.now.labels ≡ other.now.labels) }
    {
        self.cmp_labels::<CaseSensitive>(other).is_eq()
    }

    /// Returns `true` if the names are equal, comparing case.
    pub fn eq_case(&self, other: &Name) -> bool
        ensures { IsTrue result ↔ (self.now ≡ other.now) }
    {
        self.cmp_case(other).is_eq()
    }

    /// Compares the names, comparing case: relative names come first, then labels are compared from right to left.
    pub fn cmp_case(&self, other: &Name) -> Ordering
        ensures { result ≡ name_order nat_cmp self.now other.now }
    {
        self.cmp_with_f::<CaseSensitive>(other)
    }

    /// Compares the names by an order of bytes.
    pub(crate) fn cmp_with_f<F: LabelCmp>(&self, other: &Name) -> Ordering
        ensures { result ≡ name_order F.byte_order self.now other.now }
    {
        self.is_fqdn()
            .cmp(&other.is_fqdn())
            .then(self.cmp_labels::<F>(other))
    }

    /// Compares the labels from right to left, in one pass over both names: of the labels that differ, the last decide.
    fn cmp_labels<F: LabelCmp>(&self, other: &Name) -> Ordering
        ensures { result ≡ labels_order F.byte_order self.now.labels other.now.labels }
    {
        let (own, others) = (self.label_count(), other.label_count());
        let shared = own.min(others);
        let mut own_rest = self.wire_after(own - shared);
        let mut other_rest = other.wire_after(others - shared);
        let mut order = own.cmp(&others);
        for _passed in 0..shared {
            let (label, after) = split_label(own_rest);
            let (others_label, others_after) = split_label(other_rest);
            order = cmp_bytes::<F>(label, others_label).then(order);
            own_rest = after;
            other_rest = others_after;
        }
        order
    }

    /// Returns `true` if the labels after the first `skipped` are another name's, ignoring ASCII case.
    fn ends_in(&self, skipped: usize, other: &Name) -> bool
        requires { length self.now.labels ≡ skipped + length other.now.labels }
        ensures { result ≡ same_labels other.now.labels (drop skipped self.now.labels) }
    {
        other.wire().eq_ignore_ascii_case(self.wire_after(skipped))
    }

    /// Returns `true` if the labels after the first `skipped` are these, ignoring ASCII case.
    fn ends_in_labels(&self, skipped: usize, labels: &[&[u8]]) -> bool
        requires { length self.now.labels ≡ skipped + length labels.now }
        ensures { result ≡ same_labels (map (λ label. label.now) labels.now)
            (drop skipped self.now.labels) }
    {
        let offsets = self.label_offsets();
        for index in skipped..self.label_count() {
            if !labels[index - skipped].eq_ignore_ascii_case(self.label_at(&offsets, index)) {
                return false;
            }
        }
        true
    }

    /// Returns `true` if the labels after the first `skipped` are another name's, comparing case.
    fn ends_in_case(&self, skipped: usize, other: &Name) -> bool
        requires { length self.now.labels ≡ skipped + length other.now.labels }
        ensures { IsTrue result ↔ (drop skipped self.now.labels ≡ other.now.labels) }
    {
        self.wire_after(skipped) == other.wire()
    }
}

/// Returns the first label of labels that each come after their length, and the bytes after it.
fn split_label(labels: &[u8]) -> (&[u8], &[u8])
    requires any { 0 < length labels.now }
    requires within { slice_index labels.now 0 < length labels.now }
    ensures label { result.0.now ≡ take (slice_index labels.now 0) (drop 1 labels.now) }
    ensures rest { result.1.now ≡ drop (slice_index labels.now 0 + 1) labels.now }
{
    let end = labels[0] as usize + 1;
    (&labels[1..end], &labels[end..])
}
