//! Where data stands among records.

ghost use Rattle.std.specs.Prelude.{◌≡◌, true, ℕ, List, ◌∷◌, ◌++◌, [], None, Some, Ok, Option, IfNone, IfSome, OnOk, OnErr, position, slice_get, slice_set};
ghost use Rattle.std.specs.BTreeMap.{IsEmpty};
ghost use Rattle.dns_data.specs.declared.rdata.RData.{RData};
ghost use Rattle.dns_records.specs.declared.record.Record.{Record};
ghost use Rattle.dns_records.specs.edits.Places.{has_data, is_place_of, HasPlaces, IsIndexOf};

use crate::Record;
use dns_data::RData;
use std::alloc::{AllocError, Global};
use std::collections::BTreeMap;

/// How many edits are made before data is entered.
const MAX_UNINDEXED: u8 = 16;

/// The places of data.
///
/// Before the sixteenth edit nothing is entered, and data is sought in one place after another: so few edits are cheap. Nor is
/// anything entered if two places have equal data, which the sets of a zone never have (RFC 2181 section 5).
pub struct DataPlaces {
    entries: BTreeMap<RData, usize>,
    edits: u8,
    /// Whether `entries` has all data.
    is_complete: bool,
}

impl Drop for DataPlaces {
    fn drop(self) {
        let DataPlaces {
            entries,
            edits: _edits,
            is_complete: _is_complete,
        } = self;
        drop(entries);
    }
}

/// Returns `true` if a place has a record with equal data.
pub fn has_data(place: &Option<Record>, rdata: &RData) -> bool
    ensures { result ≡ has_data place.now rdata.now }
{
    match place {
        Some(present) => present.rdata == *rdata,
        None => false,
    }
}

/// Enters the data of each place. Returns `false` if two have equal data.
fn enter_all(
    entries: &mut BTreeMap<RData, usize>,
    places: &[Option<Record>],
) -> Result<bool, AllocError>
    requires { IsEmpty entries.old }
    ensures { OnOk result (result ≡ Ok true → HasPlaces entries.new places.now) }
{
    for (place, present) in places.iter().enumerate() {
        if let Some(present) = present {
            if entries.contains_key(&present.rdata) {
                return Ok(false);
            }
            entries.insert(present.rdata.clone()?, place)?;
        }
    }
    Ok(true)
}

impl DataPlaces {
    /// Creates an index of any places.
    pub fn new(alloc: Global) -> DataPlaces
        ensures { (places : List (Option (Record RData))) → IsIndexOf result places }
    {
        DataPlaces {
            entries: BTreeMap::new(alloc),
            edits: 0,
            is_complete: false,
        }
    }

    /// Returns `true` if all data is entered.
    pub fn is_complete(&self) -> bool
        ensures { result ≡ self.now.is_complete }
    {
        self.is_complete
    }

    /// Counts an edit of these places, before it is made.
    pub fn count_edit(&mut self, places: &[Option<Record>]) -> Result<(), AllocError>
        requires { IsIndexOf self.old places.now }
        ensures { IsIndexOf self.new places.now }
    {
        if self.edits >= MAX_UNINDEXED {
            return Ok(());
        }
        self.edits += 1;
        if self.edits == MAX_UNINDEXED {
            self.is_complete = false;
            self.entries.clear();
            self.is_complete = enter_all(&mut self.entries, places)?;
        }
        Ok(())
    }

    /// Returns the first of these places with equal data.
    pub fn position(&self, places: &[Option<Record>], rdata: &RData) -> Option<usize>
        requires { IsIndexOf self.now places.now }
        ensures { result ≡ position (λ place. has_data place rdata.now) places.now }
    {
        if self.is_complete {
            return self.entries.get(rdata).copied();
        }
        places.iter().position(|place| has_data(place, rdata))
    }

    /// Enters data that stands in none of these places, and is about to be added in a further one.
    pub fn push(&mut self, places: &[Option<Record>], rdata: &RData) -> Result<(), AllocError>
        requires index { IsIndexOf self.old places.now }
        requires new { position (λ place. has_data place rdata.now) places.now ≡ None }
        ensures ok { OnOk result ((added : Record RData) → added.rdata ≡ rdata.now
            → IsIndexOf self.new (places.now ++ Some added ∷ [])) }
        ensures err { OnErr result (IsIndexOf self.new places.now) }
    {
        if self.is_complete {
            self.entries.insert(rdata.clone()?, places.len())?;
        }
        Ok(())
    }

    /// Removes the entry of data that is about to be removed from its place, which is returned. All data is entered.
    pub fn remove(&mut self, places: &[Option<Record>], rdata: &RData) -> Option<usize>
        requires index { IsIndexOf self.old places.now }
        requires complete { self.old.is_complete ≡ true }
        ensures place { result ≡ position (λ place. has_data place rdata.now) places.now }
        ensures only { IfSome result (λ i. (j : ℕ)
            → is_place_of (slice_get places.now j) rdata.now ≡ true → j ≡ i) }
        ensures some { IfSome result (λ i. IsIndexOf self.new (slice_set places.now i None)) }
        ensures none { IfNone result (IsIndexOf self.new places.now) }
    {
        self.entries.remove(rdata)
    }
}
