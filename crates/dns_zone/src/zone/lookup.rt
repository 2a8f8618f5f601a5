//! The records of a zone by owner and type, for the answers of the crates above.

ghost use Rattle.std.specs.Prelude.{◌≡◌, map, List, IfOk, option_copied};
ghost use Rattle.std.specs.List.{filter};
ghost use Rattle.std.specs.Map.{values_of};
ghost use Rattle.dns_names.specs.Compare.{same_labels};
ghost use Rattle.dns_records.specs.RecordSet.{RecordSetValue};
ghost use Rattle.dns_zone.specs.Lookup.{AreSetsOf};
ghost use Rattle.dns_zone.specs.Rows.{key, rows_at, rows_of, some_row_below, AreSoundRows};
ghost use Rattle.dns_zone.specs.Sets.{set_at, sets_after};

use crate::rows::{has_row_below, records_at};
use crate::sets::{SetEntries, Sets};
use crate::zone::Zone;
use dns_names::Name;
use dns_records::{Record, RecordSet};
use dns_updates::SetKey;
use dns_wire::RecordType;
use std::alloc::AllocError;

impl Zone {
    /// Iterates over the record sets, in the canonical order of their owners (RFC 4034 section 6.1). That of the SOA record
    /// comes first.
    pub fn sets(&self) -> Sets<'_>
        ensures { AreSetsOf self.now result }
    {
        self.sets.order();
        self.sets.iter()
    }

    /// Iterates over the record sets that come after a key, with their keys, in the order of [`sets`](Zone::sets).
    pub fn sets_after(&self, key: &SetKey) -> SetEntries<'_>
        ensures { (sets : List RecordSetValue) × (AreSetsOf self.now sets
            × (values_of result ≡ sets_after key.now sets)) }
    {
        self.sets.order();
        self.sets.after(key)
    }

    /// Returns the record set of an owner and a type.
    pub fn record_set(&self, owner: &Name, record_type: RecordType) -> Option<&RecordSet>
        ensures { (sets : List RecordSetValue) × (AreSetsOf self.now sets
            × (option_copied result ≡ set_at sets (key owner.now.labels record_type))) }
    {
        self.sets.order();
        self.sets.get(owner, record_type)
    }

    /// Returns the types of the records of a name, in the order of the sets.
    pub fn types_at(&self, owner: &Name) -> Result<Vec<RecordType>, AllocError>
        ensures { (sets : List RecordSetValue) × (AreSetsOf self.now sets × IfOk result (λ found.
            found.items ≡ map (λ s. s.record_type)
            (filter (λ s. same_labels owner.now.labels s.name.labels) sets))) }
    {
        self.sets.order();
        self.sets.types_of(self.alloc, owner)
    }

    /// Returns the records of a type at a name, in their order. Without such records it returns an empty slice.
    pub fn records_at(&self, owner: &Name, record_type: RecordType) -> &[Record]
        ensures rows { rows_of result.now
            ≡ rows_at self.now.rows owner.now.labels record_type }
        ensures sound { AreSoundRows (rows_of result.now) }
    {
        records_at(&self.sets, owner, record_type)
    }

    /// Returns `true` if the owner of some record is at or below the name: if the name exists (RFC 4592 section 2.2.2).
    pub fn has_row_below(&self, name: &Name) -> bool
        ensures { result ≡ some_row_below self.now.rows name.now.labels }
    {
        has_row_below(&self.sets, name)
    }
}
