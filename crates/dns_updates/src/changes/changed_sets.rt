//! The changed sets of an update, found by owner and type in logarithmic time.

ghost use Rattle.std.specs.Prelude.{◌≡◌, [], None, Some, IfNone, IfOk, IfSome, IsOk, OnOk, is_some, option_copied, option_map, if◌then◌else◌};
ghost use Rattle.std.specs.Ordering.{eq_by_cmp};
ghost use Rattle.dns_records.specs.Rows.{Key, key, key_cmp};
ghost use Rattle.dns_updates.specs.Changes.{changed_at, changed_key, AreInOrder};
ghost use Rattle.dns_updates.specs.internal.Indexes.{with_records};

use crate::changes::changed_set::ChangedSet;
use crate::keys::{SetKey, set_key};
use dns_names::Name;
use dns_records::edits::EditedRecords;
use dns_wire::RecordType;
use std::alloc::{AllocError, Global};
use std::collections::BTreeMap;
use std::marker::Model;

/// Changed sets, at most one for each owner, up to ASCII case, and type.
pub struct ChangedSets {
    map: BTreeMap<SetKey, ChangedSet>,
}

impl Drop for ChangedSets {
    fn drop(self) {
        let ChangedSets { map } = self;
        drop(map);
    }
}

impl Model for ChangedSets {
    ghost use Rattle.std.specs.Prelude.{List};
    ghost use Rattle.std.specs.BTreeMap.{values};
    ghost use Rattle.dns_updates.specs.declared.changes.changed_set.ChangedSet.{ChangedSet};
    ghost use Rattle.dns_updates.specs.internal.Indexes.{HaveTheirKeys};

    ghost Value = { List ChangedSet };

    ghost view = { λ c. values c.map };

    ghost invariant = { λ c. HaveTheirKeys c.map.entries };
}

impl ChangedSets {
    /// Creates an empty collection.
    pub fn new(alloc: Global) -> ChangedSets
        ensures { result ≡ [] }
    {
        ChangedSets {
            map: BTreeMap::new(alloc),
        }
    }

    /// Returns the changed set of an owner and a type.
    pub fn get(&self, owner: &Name, record_type: RecordType) -> Option<&ChangedSet>
        ensures { option_copied result ≡ changed_at self.now (key owner.now.labels record_type) }
    {
        self.map.get(&set_key(owner, record_type))
    }

    /// Returns `true` if there is a changed set of an owner and a type.
    pub fn contains(&self, owner: &Name, record_type: RecordType) -> bool
        ensures { result ≡ is_some (changed_at self.now (key owner.now.labels record_type)) }
    {
        self.map.contains_key(&set_key(owner, record_type))
    }

    /// Inserts a changed set in the place of that with its owner and type.
    pub fn insert(&mut self, set: ChangedSet) -> Result<(), AllocError>
        ensures { OnOk result ((k : Key) → changed_at self.new k
            ≡ (if eq_by_cmp key_cmp k (changed_key set) then Some set
            else changed_at self.old k)) }
    {
        let key = set_key(&set.name, set.record_type);
        self.map.insert(key, set)?;
        Ok(())
    }

    /// Puts records in place of those of the changed set of an owner and a type, if there is one, and returns these. The set
    /// keeps its name.
    pub fn replace(
        &mut self,
        owner: &Name,
        record_type: RecordType,
        records: EditedRecords,
    ) -> Option<EditedRecords>
        ensures some { IfSome result (λ found. option_map (λ s. s.records)
            (changed_at self.old (key owner.now.labels record_type)) ≡ Some found) }
        ensures none { IfNone result
            (changed_at self.old (key owner.now.labels record_type) ≡ None) }
        ensures sets { (k : Key) → changed_at self.new k
            ≡ (if eq_by_cmp key_cmp k (key owner.now.labels record_type)
            then with_records records (changed_at self.old k)
            else changed_at self.old k) }
    {
        if let Some(set) = self.map.get_mut(&set_key(owner, record_type)) {
            return Some(set.records.replace_by(records));
        }
        None
    }

    /// Proves that the changed sets are in order; nothing is computed.
    pub fn order(&self)
        ensures { AreInOrder self.now }
    {
        self.map.len();
    }

    /// Returns the changed sets, in the order of their owners and types. For none, no memory is taken.
    pub fn into_vec(self, alloc: Global) -> Result<Vec<ChangedSet>, AllocError>
        ensures sets { IfOk result (λ sets. sets.items ≡ self) }
        ensures decided { self ≡ [] → IsOk result }
    {
        let ChangedSets { mut map } = self;
        let mut sets = Vec::new(alloc);
        while let Some((_, set)) = map.pop_first() {
            sets.push(set)?;
        }
        Ok(sets)
    }
}
