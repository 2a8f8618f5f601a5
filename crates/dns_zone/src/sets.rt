//! The record sets of a zone, by owner in canonical order (RFC 4034 section 6.1) and by type.

ghost use Rattle.std.specs.Prelude.{◌≡◌, [], List, None, Some, IfOk, OnOk, OnErr, option_copied, is_some, map, if◌then◌else◌};
ghost use Rattle.std.specs.List.{filter, list_any};
ghost use Rattle.std.specs.Ordering.{eq_by_cmp};
ghost use Rattle.dns_names.specs.Compare.{at_or_below, same_labels};
ghost use Rattle.dns_zone.specs.Rows.{Key, key, key_cmp, set_key};
ghost use Rattle.dns_zone.specs.Sets.{set_at, sets_after, with_put, with_records, AreInOrder};
ghost use Rattle.std.specs.Map.{values_of};

mod node;
mod store;
mod zone_rows;

use dns_names::Name;
use dns_records::{Record, RecordSet};
use dns_updates::{SetKey, end_key, first_key, set_key};
use dns_wire::RecordType;
pub(crate) use node::NodeSets;
use std::alloc::{AllocError, Global};
use std::collections::{BTreeMap, btree_map};
use std::marker::Model;
use std::ops::Bound;

/// An iterator over sets, in order.
pub type Sets<'a> = btree_map::Values<'a, SetKey, RecordSet>;

/// An iterator over sets with their keys, in order.
pub type SetEntries<'a> = btree_map::Range<'a, SetKey, RecordSet>;

/// Record sets, at most one for each owner, up to ASCII case, and type (RFC 2181 section 5).
///
/// A set is found in logarithmic time. Whether an owner is fully qualified makes no difference.
#[derive(Drop)]
pub struct ZoneSets {
    map: BTreeMap<SetKey, RecordSet>,
}

impl Model for ZoneSets {
    ghost use Rattle.std.specs.Prelude.{List};
    ghost use Rattle.std.specs.BTreeMap.{values};
    ghost use Rattle.dns_records.specs.RecordSet.{RecordSetValue};
    ghost use Rattle.dns_zone.specs.Sets.{HaveTheirKeys};

    ghost Value = { List RecordSetValue };

    ghost view = { λ z. values z.map };

    ghost invariant = { λ z. HaveTheirKeys z.map.entries };
}

impl ZoneSets {
    /// Creates an empty collection.
    pub fn new(alloc: Global) -> ZoneSets
        ensures { result ≡ [] }
    {
        ZoneSets {
            map: BTreeMap::new(alloc),
        }
    }

    /// Creates a collection of these sets. Of sets with the same owner and type it has the first.
    pub fn from_vec(alloc: Global, sets: Vec<RecordSet>) -> Result<ZoneSets, AllocError>
        ensures sets { IfOk result (λ kept. (k : Key) → set_at kept k ≡ set_at sets.items k) }
        ensures ordered { IfOk result AreInOrder }
    {
        let mut sets = sets;
        let mut kept = ZoneSets::new(alloc);
        while let Some(set) = sets.pop() {
            kept.insert(set)?;
        }
        kept.order();
        Ok(kept)
    }

    /// Proves that the sets are in order; nothing is computed.
    pub(crate) fn order(&self)
        ensures { AreInOrder self.now }
    {
        self.map.len();
    }

    /// Returns the set of an owner and a type.
    pub fn get(&self, owner: &Name, record_type: RecordType) -> Option<&RecordSet>
        ensures { option_copied result ≡ set_at self.now (key owner.now.labels record_type) }
    {
        self.map.get(&set_key(owner, record_type))
    }

    /// Returns `true` if there is a set of an owner and a type.
    pub fn contains(&self, owner: &Name, record_type: RecordType) -> bool
        ensures { result ≡ is_some (set_at self.now (key owner.now.labels record_type)) }
    {
        self.map.contains_key(&set_key(owner, record_type))
    }

    /// Returns `true` if the owner of some set is at or below the name.
    pub fn has_set_below(&self, name: &Name) -> bool
        ensures { result ≡ list_any (λ s. at_or_below name.now.labels s.name.labels) self.now }
    {
        // The names at or below a name are contiguous in the order and begin with that name.
        let start = first_key(name);
        match self
            .map
            .range((Bound::Included(&start), Bound::Unbounded))
            .next()
        {
            Some((next, _)) => next.0.as_slice().starts_with(start.0.as_slice()),
            None => false,
        }
    }

    /// Returns `true` if some set has the owner.
    pub fn has_set_of(&self, owner: &Name) -> bool
        ensures { result ≡ list_any (λ s. same_labels owner.now.labels s.name.labels) self.now }
    {
        let (start, end) = (first_key(owner), end_key(owner));
        match self
            .map
            .range((Bound::Included(&start), Bound::Excluded(&end)))
            .next()
        {
            Some(_) => true,
            None => false,
        }
    }

    /// Returns the types of the sets of an owner.
    pub fn types_of(&self, alloc: Global, owner: &Name) -> Result<Vec<RecordType>, AllocError>
        ensures { IfOk result (λ found. found.items ≡ map (λ s. s.record_type)
            (filter (λ s. same_labels owner.now.labels s.name.labels) self.now)) }
    {
        let (start, end) = (first_key(owner), end_key(owner));
        let mut found = Vec::new(alloc);
        let mut sets = self
            .map
            .range((Bound::Included(&start), Bound::Excluded(&end)));
        while let Some((_, set)) = sets.next() {
            found.push(set.record_type())?;
        }
        Ok(found)
    }

    /// Replaces the records of the set of an owner and a type, if there is one.
    pub fn set_records(&mut self, owner: &Name, record_type: RecordType, records: Vec<Record>)
        ensures sets { (k : Key) → set_at self.new k
            ≡ (if eq_by_cmp key_cmp k (key owner.now.labels record_type)
            then with_records records.items (set_at self.old k)
            else set_at self.old k) }
        ensures ordered { AreInOrder self.new }
    {
        if let Some(set) = self.map.get_mut(&set_key(owner, record_type)) {
            set.set_records(records);
        }
    }

    /// Puts a record into the set of an owner and a type, if there is one, in place of the record with equal data or as the
    /// last. An error leaves the sets unchanged.
    pub fn put_record(
        &mut self,
        owner: &Name,
        record_type: RecordType,
        resource_record: Record,
    ) -> Result<(), AllocError>
        ensures ok { OnOk result ((k : Key) → set_at self.new k
            ≡ (if eq_by_cmp key_cmp k (key owner.now.labels record_type)
            then with_put resource_record (set_at self.old k)
            else set_at self.old k)) }
        ensures err { OnErr result ((k : Key) → set_at self.new k ≡ set_at self.old k) }
        ensures ordered { AreInOrder self.new }
    {
        match self.map.get_mut(&set_key(owner, record_type)) {
            Some(set) => set.put_record(resource_record),
            None => Ok(()),
        }
    }

    /// Inserts a set in the place of that with its owner and type, which is returned. An error leaves the sets unchanged.
    pub fn insert(&mut self, set: RecordSet) -> Result<Option<RecordSet>, AllocError>
        ensures old { IfOk result (λ old. old ≡ set_at self.old (set_key set)) }
        ensures ok { OnOk result ((k : Key) → set_at self.new k
            ≡ (if eq_by_cmp key_cmp k (set_key set) then Some set else set_at self.old k)) }
        ensures err { OnErr result (self.new ≡ self.old) }
        ensures ordered { AreInOrder self.new }
    {
        let key = set_key(set.name(), set.record_type());
        Ok(self.map.insert(key, set)?)
    }

    /// Removes the set of an owner and a type, and returns it.
    pub fn remove(&mut self, owner: &Name, record_type: RecordType) -> Option<RecordSet>
        ensures value { result ≡ set_at self.old (key owner.now.labels record_type) }
        ensures others { (k : Key) → set_at self.new k
            ≡ (if eq_by_cmp key_cmp k (key owner.now.labels record_type) then None
            else set_at self.old k) }
        ensures ordered { AreInOrder self.new }
    {
        self.map.remove(&set_key(owner, record_type))
    }

    /// Iterates over the sets, in order. A set of `SOA` records comes before the others of its owner.
    pub fn iter(&self) -> Sets<'_>
        ensures { result ≡ self.now }
    {
        self.map.values()
    }

    /// Iterates over the sets that come after a key, in order.
    pub fn after(&self, key: &SetKey) -> SetEntries<'_>
        ensures { values_of result ≡ sets_after key.now self.now }
    {
        self.map.range((Bound::Excluded(key), Bound::Unbounded))
    }
}
