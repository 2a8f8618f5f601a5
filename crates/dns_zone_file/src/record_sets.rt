//! Record sets by owner and type (RFC 2181 section 5).

ghost use Rattle.std.specs.Prelude.{◌≡◌, ◌==◌, ◌<◌, ◌∷◌, ◌++◌, [], length, None, OnOk, OnErr, option_copied};
ghost use Rattle.dns_data.specs.rdata.{data_type};
ghost use Rattle.dns_wire.specs.codes.RecordType.{type_number};
ghost use Rattle.dns_zone_file.specs.internal.SetIndex.{IsIndexOf, place_of};
ghost use Rattle.dns_zone_file.specs.RecordSets.{set_of, inserted_in, has_other_class, records_count, IsNamedType};

use crate::set_index::SetIndex;
use dns_names::Name;
use dns_records::{Record, RecordSet};
use dns_wire::RecordType;
use std::alloc::{AllocError, Global};
use std::marker::Model;

/// Record sets, at most one for each owner and type, in the order in which their first records were inserted.
///
/// An index finds the set of an owner and a type, so the time that this takes hardly grows with the number of sets.
pub struct RecordSets {
    sets: Vec<RecordSet>,
    index: SetIndex,
}

impl Drop for RecordSets {
    fn drop(self) {
        let RecordSets { sets, index } = self;
        drop(sets);
        drop(index);
    }
}

impl Model for RecordSets {
    ghost use Rattle.std.specs.Prelude.{List};
    ghost use Rattle.dns_records.specs.RecordSet.{RecordSetValue};
    ghost use Rattle.dns_zone_file.specs.RecordSets.{HaveNamedTypes};
    ghost use Rattle.dns_zone_file.specs.internal.SetIndex.{IsIndexOf};

    ghost Value = { List RecordSetValue };

    ghost view = { λ s. s.sets.items };

    ghost invariant = { λ s. HaveNamedTypes s.sets.items × IsIndexOf s.index s.sets.items };
}

impl RecordSets {
    /// Creates a list without sets.
    pub fn new(alloc: Global) -> RecordSets
        ensures { result ≡ [] }
    {
        RecordSets {
            sets: Vec::new(alloc),
            index: SetIndex::new(alloc),
        }
    }

    /// Returns the sets, in their order.
    pub fn as_slice(&self) -> &[RecordSet]
        ensures { result.now ≡ self.now }
    {
        self.sets.as_slice()
    }

    /// Returns the sets by value, in their order.
    pub fn into_vec(self) -> Vec<RecordSet>
        ensures { result.items ≡ self }
    {
        let RecordSets { sets, index } = self;
        drop(index);
        sets
    }

    /// Returns the number of sets.
    pub fn len(&self) -> usize
        ensures { result ≡ length self.now }
    {
        self.sets.len()
    }

    /// Returns `true` if there are no sets.
    pub fn is_empty(&self) -> bool
        ensures { result ≡ (length self.now == 0) }
    {
        self.sets.is_empty()
    }

    /// Returns the set of an owner, up to ASCII case, and a type, by its number.
    pub fn get(&self, owner: &Name, record_type: RecordType) -> Option<&RecordSet>
        ensures { option_copied result ≡ set_of self.now owner.now record_type }
    {
        match self.index.get(owner, record_type) {
            Some(place) => self.sets.get(place),
            None => None,
        }
    }

    /// Returns `true` if the set of a record's owner and type has another class than the record.
    pub fn has_other_class(&self, resource_record: &Record) -> bool
        ensures { result ≡ has_other_class self.now resource_record.now }
    {
        match self
            .index
            .get(&resource_record.name, resource_record.record_type())
        {
            Some(place) => self.sets[place].dns_class() != resource_record.dns_class,
            None => false,
        }
    }

    /// Inserts a record in the set of its owner and type, as [`RecordSet::insert`] does, or in a new set, which is the last.
    ///
    /// An error leaves the sets unchanged, and is possible only where the number of records would grow.
    pub fn insert(&mut self, resource_record: Record) -> Result<(), AllocError>
        requires { IsNamedType (data_type resource_record.rdata) }
        ensures ok { OnOk result (self.new ≡ inserted_in self.old resource_record) }
        ensures err { OnErr result (self.new ≡ self.old) }
        ensures grows { OnErr result (records_count self.old
            < records_count (inserted_in self.old resource_record)) }
    {
        match self
            .index
            .get(&resource_record.name, resource_record.record_type())
        {
            Some(place) => {
                self.sets[place].insert(resource_record, 0)?;
                Ok(())
            }
            None => {
                let alloc = *self.sets.allocator();
                let set = RecordSet::from_record(alloc, resource_record)?;
                push_set(&mut self.sets, &mut self.index, set)
            }
        }
    }
}

/// Appends a set, of an owner and a type that no other set has, and enters it in the index.
///
/// An error leaves the sets unchanged.
fn push_set(
    sets: &mut Vec<RecordSet>,
    index: &mut SetIndex,
    set: RecordSet,
) -> Result<(), AllocError>
    requires indexed { IsIndexOf index.old sets.old.items }
    requires absent { place_of index.old set.name (type_number set.record_type) ≡ None }
    ensures ok { OnOk result (sets.new.items ≡ sets.old.items ++ set ∷ []) }
    ensures err { OnErr result (sets.new.items ≡ sets.old.items) }
    ensures indexed { IsIndexOf index.new sets.new.items }
{
    let place = sets.len();
    sets.reserve(1)?;
    index.insert(*sets.allocator(), set.name(), set.record_type(), place)?;
    sets.push_reserved(set);
    Ok(())
}
