//! Comparison of sets of data, in a time that grows with their sizes and a logarithm.

ghost use Rattle.std.specs.Prelude.{◌≡◌, ◌||◌, map, IfOk, OnOk};
ghost use Rattle.std.specs.List.{list_all};
ghost use Rattle.dns_data.specs.declared.rdata.RData.{RData};
ghost use Rattle.dns_data.specs.rdata.{same_data};
ghost use Rattle.dns_updates.specs.Records.{is_among, same_data_set};
ghost use Rattle.dns_updates.specs.internal.Required.{has_datum, lent};

use dns_data::RData;
use dns_records::Record;
use std::alloc::{AllocError, Global};
use std::collections::BTreeSet;

/// Returns `true` if records have the data that is required, and no other.
pub fn has_data_set<'a>(
    alloc: Global,
    required: &[&'a RData],
    records: &'a [Record],
) -> Result<bool, AllocError>
    ensures { IfOk result (λ same. same
        ≡ same_data_set (lent required.now) (map (λ r. r.rdata) records.now)) }
{
    let present = data_of(alloc, records)?;
    let has_all = is_subset(alloc, required, present.as_slice())?;
    let has_only = is_subset(alloc, present.as_slice(), required)?;
    Ok(has_all && has_only)
}

/// Returns the data of records, in their order.
fn data_of(alloc: Global, records: &[Record]) -> Result<Vec<&RData>, AllocError>
    ensures { IfOk result (λ present.
        lent present.items ≡ map (λ r. r.rdata) records.now) }
{
    let mut present = Vec::new(alloc);
    for resource_record in records {
        present.push(&resource_record.rdata)?;
    }
    Ok(present)
}

/// Returns `true` if all of some data is among other data.
fn is_subset<'a>(alloc: Global, part: &[&'a RData], whole: &[&'a RData]) -> Result<bool, AllocError>
    ensures { IfOk result (λ all. all
        ≡ list_all (is_among (lent whole.now)) (lent part.now)) }
{
    let index = index_of(alloc, whole)?;
    Ok(has_all(&index, part))
}

/// Returns data in order.
fn index_of<'a>(alloc: Global, whole: &[&'a RData]) -> Result<BTreeSet<&'a RData>, AllocError>
    ensures { IfOk result (λ index. (d : RData)
        → has_datum index.keys d ≡ is_among (lent whole.now) d) }
{
    let mut index = BTreeSet::new(alloc);
    for rdata in whole {
        insert_datum(&mut index, rdata)?;
    }
    Ok(index)
}

/// Inserts data into an index.
fn insert_datum<'a>(index: &mut BTreeSet<&'a RData>, rdata: &'a RData) -> Result<(), AllocError>
    ensures { OnOk result ((d : RData) → has_datum index.new.keys d
        ≡ (has_datum index.old.keys d || same_data d rdata.now)) }
{
    index.insert(rdata)?;
    Ok(())
}

/// Returns `true` if all of some data is in an index.
fn has_all<'a>(index: &BTreeSet<&'a RData>, part: &[&'a RData]) -> bool
    ensures { result ≡ list_all (has_datum index.now.keys) (lent part.now) }
{
    for rdata in part {
        if !has_datum(index, rdata) {
            return false;
        }
    }
    true
}

/// Returns `true` if data is in an index.
fn has_datum<'a>(index: &BTreeSet<&'a RData>, rdata: &'a RData) -> bool
    ensures { result ≡ has_datum index.now.keys rdata.now }
{
    index.contains(&rdata)
}
