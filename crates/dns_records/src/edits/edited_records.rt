//! Records that are edited by their data.

ghost use Rattle.std.specs.Prelude.{◌≡◌, ◌==◌, ◌≤◌, ◌<◌, ◌+◌, ◌++◌, [], not, None, Some, IfOk, OnOk, length, map, slice_get, slice_set, vec_len, vec_capacity};
ghost use Rattle.std.specs.List.{filter};
ghost use Rattle.std.specs.Option.{option_copied};
ghost use Rattle.dns_data.specs.rdata.{same_data};
ghost use Rattle.dns_records.specs.RecordSet.{put, record_data};
ghost use Rattle.dns_records.specs.edits.Places.{records_in};
ghost use Rattle.dns_records.specs.edits.internal.Edits.{has_other_data};

use crate::Record;
use crate::edits::data_places::{DataPlaces, has_data};
use dns_data::RData;
use std::alloc::{AllocError, Global};
use std::marker::Model;
use std::mem;

/// The records of a set while an update edits it, in their order.
///
/// Among *n* records, putting one and removing one takes a time proportional to log *n*, once some edits have been made; each
/// of the first sixteen takes one proportional to *n*.
pub struct EditedRecords {
    /// The records in their order. A record keeps its place, which is empty once it is removed.
    places: Vec<Option<Record>>,
    /// The number of records.
    len: usize,
    /// Empty, with capacity for all records.
    room: Vec<Record>,
    index: DataPlaces,
}

impl Drop for EditedRecords {
    fn drop(self) {
        let EditedRecords {
            places,
            len: _len,
            room,
            index,
        } = self;
        drop(places);
        drop(room);
        drop(index);
    }
}

impl Model for EditedRecords {
    ghost use Rattle.std.specs.Prelude.{List};
    ghost use Rattle.dns_records.specs.Record.{Record};
    ghost use Rattle.dns_records.specs.edits.Places.{records_in};
    ghost use Rattle.dns_records.specs.edits.internal.Edits.{IsSound};

    ghost Value = { List Record };

    ghost view = { λ r. records_in r.places.items };

    ghost invariant = { λ r. IsSound r.places r.len r.room r.index };
}

impl EditedRecords {
    /// Creates an empty list. No memory is taken.
    pub fn empty(alloc: Global) -> EditedRecords
        ensures { result ≡ [] }
    {
        EditedRecords {
            places: Vec::new(alloc),
            len: 0,
            room: Vec::new(alloc),
            index: DataPlaces::new(alloc),
        }
    }

    /// Copies records.
    pub fn copy(alloc: Global, records: &[Record]) -> Result<EditedRecords, AllocError>
        ensures { IfOk result (λ copies. copies ≡ records.now) }
    {
        let places = copy_records(alloc, records)?;
        let mut room = Vec::new(alloc);
        room.reserve(records.len())?;
        Ok(EditedRecords {
            places,
            len: records.len(),
            room,
            index: DataPlaces::new(alloc),
        })
    }

    /// Returns the number of records.
    pub fn len(&self) -> usize
        ensures { result ≡ length self.now }
    {
        self.len
    }

    /// Returns `true` if there are no records.
    pub fn is_empty(&self) -> bool
        ensures { result ≡ (length self.now == 0) }
    {
        self.len == 0
    }

    /// Returns the first record.
    pub fn first(&self) -> Option<&Record>
        ensures { option_copied result ≡ slice_get self.now 0 }
    {
        first_of(self.places.as_slice())
    }

    /// Lends the records, in their order.
    pub fn lend<'a>(&'a self, alloc: Global) -> Result<Vec<&'a Record>, AllocError>
        ensures { IfOk result (λ lent. map (λ r. r.now) lent.items ≡ self.now) }
    {
        lend_records(alloc, self.places.as_slice())
    }

    /// Puts other records in place of these, which are returned. No memory is taken.
    pub fn replace_by(&mut self, records: EditedRecords) -> EditedRecords
        ensures result { result ≡ self.old }
        ensures list { self.new ≡ records }
    {
        mem::replace(self, records)
    }

    /// Returns the records by value, in their order. No memory is taken.
    pub fn into_vec(self) -> Vec<Record>
        ensures { result.items ≡ self }
    {
        let EditedRecords {
            mut places,
            len: _len,
            mut room,
            index,
        } = self;
        drop(index);
        move_records(places.as_mut_slice(), &mut room);
        room
    }

    /// Puts a record in place of the first with equal data, or adds it as the last.
    pub fn put(&mut self, resource_record: Record) -> Result<(), AllocError>
        ensures { OnOk result (self.new ≡ put record_data self.old resource_record) }
    {
        self.index.count_edit(self.places.as_slice())?;
        match self
            .index
            .position(self.places.as_slice(), &resource_record.rdata)
        {
            Some(place) => fill_place(&mut self.places, place, resource_record),
            None => {
                self.places.reserve(1)?;
                self.room.reserve(self.places.len() + 1)?;
                self.index
                    .push(self.places.as_slice(), &resource_record.rdata)?;
                self.places.push_reserved(Some(resource_record));
                self.len += 1;
            }
        }
        Ok(())
    }

    /// Removes the records with equal data.
    pub fn remove(&mut self, rdata: &RData) -> Result<(), AllocError>
        ensures { OnOk result
            (self.new ≡ filter (λ r. not (same_data r.rdata rdata.now)) self.old) }
    {
        self.index.count_edit(self.places.as_slice())?;
        if !self.index.is_complete() {
            retain_others(&mut self.places, rdata);
            self.len = self.places.len();
            return Ok(());
        }
        if let Some(place) = self.index.remove(self.places.as_slice(), rdata) {
            empty_place(&mut self.places, place);
            self.len -= 1;
        }
        Ok(())
    }
}

/// Copies records into places.
fn copy_records(alloc: Global, records: &[Record]) -> Result<Vec<Option<Record>>, AllocError>
    ensures { IfOk result (λ places. (records_in places.items ≡ records.now)
        × (length places.items ≡ length records.now)) }
{
    let mut places = Vec::new(alloc);
    for present in records {
        places.push(Some(present.clone()?))?;
    }
    Ok(places)
}

/// Puts a record in a place, whatever stands there.
fn fill_place(places: &mut Vec<Option<Record>>, place: usize, resource_record: Record)
    requires { place < length places.old.items }
    ensures { places.new.items ≡ slice_set places.old.items place (Some resource_record) }
{
    places[place] = Some(resource_record);
}

/// Leaves a place without a record.
fn empty_place(places: &mut Vec<Option<Record>>, place: usize)
    requires { place < length places.old.items }
    ensures { places.new.items ≡ slice_set places.old.items place None }
{
    places[place] = None;
}

/// Moves the records out of their places, to the end of a list with capacity for them.
fn move_records(places: &mut [Option<Record>], moved: &mut Vec<Record>)
    requires { vec_len moved.old + length places.old ≤ vec_capacity moved.old }
    ensures { moved.new.items ≡ moved.old.items ++ records_in places.old }
{
    for place in places.iter_mut() {
        if let Some(present) = place.take() {
            moved.push_reserved(present);
        }
    }
}

/// Lends the records in places, in their order.
fn lend_records<'a>(
    alloc: Global,
    places: &'a [Option<Record>],
) -> Result<Vec<&'a Record>, AllocError>
    ensures { IfOk result (λ lent. map (λ r. r.now) lent.items ≡ records_in places.now) }
{
    let mut lent = Vec::new(alloc);
    for place in places {
        if let Some(present) = place {
            lent.push(present)?;
        }
    }
    Ok(lent)
}

/// Returns the first record in places.
fn first_of(places: &[Option<Record>]) -> Option<&Record>
    ensures { option_copied result ≡ slice_get (records_in places.now) 0 }
{
    for place in places {
        if let Some(present) = place {
            return Some(present);
        }
    }
    None
}

/// Keeps the places with a record that has other data.
fn retain_others(places: &mut Vec<Option<Record>>, rdata: &RData)
    ensures records { records_in places.new.items
        ≡ filter (λ r. not (same_data r.rdata rdata.now)) (records_in places.old.items) }
    ensures len { length (records_in places.new.items) ≡ length places.new.items }
    ensures shorter { length places.new.items ≤ length places.old.items }
{
    places.retain(move |place| has_other_data(place, rdata));
}

/// Returns `true` if a place has a record with other data.
fn has_other_data(place: &Option<Record>, rdata: &RData) -> bool
    ensures { result ≡ has_other_data place.now rdata.now }
{
    match place {
        Some(present) => present.rdata != *rdata,
        None => false,
    }
}
