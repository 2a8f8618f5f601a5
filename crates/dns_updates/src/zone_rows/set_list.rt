//! The rows of a list of record sets.

ghost use Rattle.std.specs.Prelude.{◌≡◌, map, IfOk};
ghost use Rattle.std.specs.List.{filter, list_any, position_or_len};
ghost use Rattle.std.specs.Ordering.{eq_by_cmp};
ghost use Rattle.dns_names.specs.Compare.{same_labels};
ghost use Rattle.dns_records.specs.Rows.{key, key_cmp, set_key};

use crate::zone_rows::ZoneRows;
use dns_names::Name;
use dns_records::{Record, RecordSet};
use dns_wire::RecordType;
use std::alloc::{AllocError, Global};

/// A list of record sets. Of sets of one owner and type the first counts.
#[derive(Drop)]
pub struct SetList {
    /// The sets.
    pub sets: Vec<RecordSet>,
}

/// Returns `true` if a set has this owner and this type.
fn is_at(set: &RecordSet, owner: &Name, record_type: RecordType) -> bool
    ensures { result ≡ eq_by_cmp key_cmp (key owner.now.labels record_type) (set_key set.now) }
{
    owner.eq_ignore_root(set.name()) && record_type == set.record_type()
}

/// Returns the index of the first set of an owner and a type, or the number of sets if there is none.
fn position(sets: &[RecordSet], owner: &Name, record_type: RecordType) -> usize
    ensures { result ≡ position_or_len
        (λ s. eq_by_cmp key_cmp (key owner.now.labels record_type) (set_key s)) sets.now }
{
    for (i, set) in sets.iter().enumerate() {
        if is_at(set, owner, record_type) {
            return i;
        }
    }
    sets.len()
}

/// Returns `true` if a set has this owner and this type.
fn any_at(sets: &[RecordSet], owner: &Name, record_type: RecordType) -> bool
    ensures { result ≡ list_any
        (λ s. eq_by_cmp key_cmp (key owner.now.labels record_type) (set_key s)) sets.now }
{
    sets.iter().any(|set| is_at(set, owner, record_type))
}

/// Returns `true` if a set has this owner.
fn any_of(sets: &[RecordSet], owner: &Name) -> bool
    ensures { result ≡ list_any (λ s. same_labels owner.now.labels s.name.labels) sets.now }
{
    sets.iter().any(|set| owner.eq_ignore_root(set.name()))
}

/// Returns the types of the sets of an owner.
fn types_of(alloc: Global, sets: &[RecordSet], owner: &Name) -> Result<Vec<RecordType>, AllocError>
    ensures { IfOk result (λ found. found.items ≡ map (λ s. s.record_type)
        (filter (λ s. same_labels owner.now.labels s.name.labels) sets.now)) }
{
    let mut found = Vec::new(alloc);
    for set in sets {
        if owner.eq_ignore_root(set.name()) {
            found.push(set.record_type())?;
        }
    }
    Ok(found)
}

impl ZoneRows for SetList {
    ghost use Rattle.dns_updates.specs.Sets.{rows_of_sets};

    ghost rows = { λ list. rows_of_sets list.sets.items };

    fn records(&self, owner: &Name, record_type: RecordType) -> &[Record] {
        let sets = self.sets.as_slice();
        let place = position(sets, owner, record_type);
        if place < sets.len() {
            return sets[place].as_slice();
        }
        &[]
    }

    fn has_set(&self, owner: &Name, record_type: RecordType) -> bool {
        any_at(self.sets.as_slice(), owner, record_type)
    }

    fn has_rows(&self, owner: &Name) -> bool {
        any_of(self.sets.as_slice(), owner)
    }

    fn types(&self, alloc: Global, owner: &Name) -> Result<Vec<RecordType>, AllocError> {
        let found = types_of(alloc, self.sets.as_slice(), owner)?;
        Ok(found)
    }
}
