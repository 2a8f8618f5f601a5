//! Changed sets in place of those of a zone.

ghost use Rattle.std.specs.Prelude.{◌≡◌, [], ◌∷◌, OnOk, OnErr};
ghost use Rattle.dns_updates.specs.Changes.{changed_key};
ghost use Rattle.dns_zone.specs.Rows.{Key, HasNoEmptySet, rows_of_sets};
ghost use Rattle.dns_zone.specs.Sets.{AreInOrder, set_at};
ghost use Rattle.dns_zone.specs.internal.Store.{changed_at, changed_keys, one_reserved, one_stored, released_at, reserved_at, stored_at};

use crate::sets::ZoneSets;
use dns_records::RecordSet;
use dns_records::edits::EditedRecords;
use dns_updates::ChangedSet;
use dns_wire::laws::type_number_round_trips;
use std::alloc::{AllocError, Global};

impl ZoneSets {
    /// Puts each changed set in place of the one with its owner and type. Without records, it is removed. Of changed sets
    /// with the same owner and type, the first counts. An error leaves the sets unchanged: all memory is taken before a set
    /// changes.
    pub fn store(&mut self, alloc: Global, changed: Vec<ChangedSet>) -> Result<(), AllocError>
        requires { HasNoEmptySet (rows_of_sets self.old) }
        ensures ok { OnOk result ((k : Key)
            → set_at self.new k ≡ changed_at changed.items k (set_at self.old k)) }
        ensures err { OnErr result ((k : Key) → set_at self.new k ≡ set_at self.old k) }
        ensures ordered { AreInOrder self.new }
    {
        let mut changed = changed;
        match self.reserve(alloc, changed.as_slice()) {
            Ok(()) => {
                self.store_records(alloc, changed.as_mut_slice());
                self.release(changed.as_slice());
                self.order();
                Ok(())
            }
            Err(error) => {
                self.release(changed.as_slice());
                self.order();
                Err(error)
            }
        }
    }

    /// Inserts an empty set for each changed set with records whose owner and type have none. An error leaves only some of
    /// them inserted.
    fn reserve(&mut self, alloc: Global, changed: &[ChangedSet]) -> Result<(), AllocError>
        ensures ok { OnOk result ((k : Key)
            → set_at self.new k ≡ reserved_at changed.now k (set_at self.old k)) }
        ensures released { (k : Key) → released_at (changed_keys changed.now) k (set_at self.new k)
            ≡ released_at (changed_keys changed.now) k (set_at self.old k) }
    {
        for set in changed {
            if !set.records.is_empty() {
                self.reserve_one(alloc, set)?;
            }
        }
        Ok(())
    }

    /// Inserts an empty set for a changed set, if its owner and type have none. An error leaves the sets unchanged.
    fn reserve_one(&mut self, alloc: Global, set: &ChangedSet) -> Result<(), AllocError>
        ensures ok { OnOk result ((k : Key)
            → set_at self.new k ≡ one_reserved set.now k (set_at self.old k)) }
        ensures err { OnErr result (self.new ≡ self.old) }
    {
        type_number_round_trips();
        if self.contains(&set.name, set.record_type) {
            return Ok(());
        }
        let mut name = set.name.clone()?;
        name.set_fqdn(true);
        let record_type = set.record_type.canonical();
        self.insert(RecordSet::new(alloc, name, record_type, 0))?;
        Ok(())
    }

    /// Moves the records of each changed set to the set with its owner and type, if there is one. Of changed sets with the
    /// same owner and type, the first counts.
    fn store_records(&mut self, alloc: Global, changed: &mut [ChangedSet])
        ensures sets { (k : Key) → set_at self.new k ≡ stored_at changed.old k (set_at self.old k) }
        ensures keys { changed_keys changed.new ≡ changed_keys changed.old }
    {
        let mut index = changed.len();
        while index > 0 {
            index -= 1;
            self.store_one(alloc, &mut changed[index]);
        }
    }

    /// Moves the records of a changed set to the set with its owner and type, if there is one.
    fn store_one(&mut self, alloc: Global, set: &mut ChangedSet)
        ensures sets { (k : Key) → set_at self.new k ≡ one_stored set.old k (set_at self.old k) }
        ensures key { changed_key set.new ≡ changed_key set.old }
    {
        let records = set.records.replace_by(EditedRecords::empty(alloc));
        self.set_records(&set.name, set.record_type, records.into_vec());
    }

    /// Removes the sets without records that have the owner and type of a changed set.
    fn release(&mut self, changed: &[ChangedSet])
        ensures { (k : Key) → set_at self.new k
            ≡ released_at (changed_keys changed.now) k (set_at self.old k) }
    {
        for set in changed {
            self.release_one(set);
        }
    }

    /// Removes the set with the owner and type of a changed set, if it has no records.
    fn release_one(&mut self, set: &ChangedSet)
        ensures { (k : Key) → set_at self.new k
            ≡ released_at (changed_key set.now ∷ []) k (set_at self.old k) }
    {
        let is_released = match self.get(&set.name, set.record_type) {
            Some(present) => present.is_empty(),
            None => false,
        };
        if is_released {
            self.remove(&set.name, set.record_type);
        }
    }
}
