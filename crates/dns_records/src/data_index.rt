//! The positions of records by their data.

ghost use Rattle.std.specs.Prelude.{◌≡◌, List, ◌∷◌, ◌++◌, [], OnOk, OnErr, position};
ghost use Rattle.std.specs.BTreeMap.{IsEmpty, IsUnchanged};
ghost use Rattle.dns_data.specs.rdata.{same_data};
ghost use Rattle.dns_data.specs.declared.rdata.RData.{RData};
ghost use Rattle.dns_records.specs.declared.record.Record.{Record};
ghost use Rattle.dns_records.specs.DataIndex.{HasPositionsOf, IsIndexOf};
ghost use Rattle.dns_records.specs.internal.DataIndex.{HasEntered};

use crate::record::Record;
use dns_data::RData;
use std::alloc::{AllocError, Global};
use std::collections::BTreeMap;

/// How many records are added to a list before their positions are entered.
const MAX_UNINDEXED: usize = 16;

/// The positions of the records of a list, by their data.
///
/// An index makes it cheap to add many records to a list whose data must stay distinct: among *n* records
/// [`position`](DataIndex::position) takes a time proportional to log *n*, whatever the data are. It does not hold the list,
/// which each call borrows. It must be told of each addition by [`push`](DataIndex::push), and of any other change of data
/// by [`clear`](DataIndex::clear).
///
/// Until 16 records have been added since it was created or cleared, an index has no positions and takes no memory, and
/// `position` compares the records one by one. So few records stay cheap, and no positions are entered while additions and
/// removals alternate.
pub struct DataIndex {
    positions: BTreeMap<RData, usize>,
    /// How many records were added since the index was created or cleared. If it is 16, `positions` has those of all
    /// records.
    additions: usize,
}

impl Drop for DataIndex {
    fn drop(self) {
        let DataIndex {
            positions,
            additions: _additions,
        } = self;
        drop(positions);
    }
}

/// Enters the position of data, unless equal data has one. An error leaves the positions unchanged.
fn enter(
    positions: &mut BTreeMap<RData, usize>,
    rdata: &RData,
    place: usize,
) -> Result<(), AllocError>
    ensures ok { OnOk result (HasEntered positions.old rdata.now place positions.new) }
    ensures err { OnErr result (IsUnchanged positions.old positions.new) }
{
    if positions.contains_key(rdata) {
        return Ok(());
    }
    positions.insert(rdata.clone()?, place)?;
    Ok(())
}

/// Enters the positions of all records.
fn fill(positions: &mut BTreeMap<RData, usize>, records: &[Record]) -> Result<(), AllocError>
    requires { IsEmpty positions.old }
    ensures { OnOk result (HasPositionsOf positions.new records.now) }
{
    for (place, present) in records.iter().enumerate() {
        enter(positions, &present.rdata, place)?;
    }
    Ok(())
}

impl DataIndex {
    /// Creates an index, of any records.
    pub fn new(alloc: Global) -> DataIndex
        ensures { (records : List (Record RData)) → IsIndexOf result records }
    {
        DataIndex {
            positions: BTreeMap::new(alloc),
            additions: 0,
        }
    }

    /// Returns the position of the first of these records, which the index is of, with equal data.
    pub fn position(&self, records: &[Record], rdata: &RData) -> Option<usize>
        requires { IsIndexOf self.now records.now }
        ensures { result ≡ position (λ r. same_data r.rdata rdata.now) records.now }
    {
        if self.additions == MAX_UNINDEXED {
            return self.positions.get(rdata).copied();
        }
        records.iter().position(|present| present.rdata == *rdata)
    }

    /// Enters data that is about to be added to these records, which the index is of, as the last.
    ///
    /// An error leaves an index of the records as they are.
    pub fn push(&mut self, records: &[Record], rdata: &RData) -> Result<(), AllocError>
        requires { IsIndexOf self.old records.now }
        ensures ok { OnOk result ((added : Record RData) → added.rdata ≡ rdata.now
            → IsIndexOf self.new (records.now ++ added ∷ [])) }
        ensures err { OnErr result (IsIndexOf self.new records.now) }
    {
        if self.additions == MAX_UNINDEXED {
            return enter(&mut self.positions, rdata, records.len());
        }
        if self.additions < MAX_UNINDEXED - 1 {
            self.additions += 1;
            return Ok(());
        }
        self.positions.clear();
        fill(&mut self.positions, records)?;
        enter(&mut self.positions, rdata, records.len())?;
        self.additions = MAX_UNINDEXED;
        Ok(())
    }

    /// Removes all positions, so that the index is one of any records. Its memory is released.
    pub fn clear(&mut self)
        ensures { (records : List (Record RData)) → IsIndexOf self.new records }
    {
        self.positions.clear();
        self.additions = 0;
    }
}
