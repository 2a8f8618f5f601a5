//! The difference that changed sets make in a zone.

ghost use Rattle.std.specs.Prelude.{◌≡◌, ◌||◌, ◌++◌, find, map, not, IfOk, OnOk, option_copied, option_map};
ghost use Rattle.std.specs.List.{filter, flat_map};
ghost use Rattle.dns_data.specs.rdata.{same_data};
ghost use Rattle.dns_differences.specs.Difference.{has_row, same_row};
ghost use Rattle.dns_records.specs.declared.row.Row.{Row};
ghost use Rattle.dns_zone.specs.Answer.{record_of};
ghost use Rattle.dns_zone.specs.Rows.{row_of, rows_of, rows_of_sets};
ghost use Rattle.dns_zone.specs.internal.Change.{has_entry, lent_rows, put_by, qualified, records_added, records_deleted, replaced_by, rows_lacking, rows_put, rows_replaced};

use crate::rows::records_at;
use crate::sets::ZoneSets;
use dns_data::RData;
use dns_differences::Difference;
use dns_names::Name;
use dns_records::Record;
use dns_updates::ChangedSet;
use std::alloc::{AllocError, Global};
use std::collections::BTreeSet;

/// Returns the records that changed sets delete from a zone, and those that they add to it, in the order of the changed sets.
///
/// The cost grows with the records of these sets and a logarithm.
pub(crate) fn difference_of(
    alloc: Global,
    sets: &ZoneSets,
    changed: &[ChangedSet],
) -> Result<Difference, AllocError>
    ensures deleted { IfOk result (λ difference. difference.deleted.items
        ≡ flat_map (records_deleted (rows_of_sets sets.now)) changed.now) }
    ensures added { IfOk result (λ difference. difference.added.items
        ≡ flat_map (records_added (rows_of_sets sets.now)) changed.now) }
{
    let mut deleted = Vec::new(alloc);
    let mut added = Vec::new(alloc);
    for set in changed {
        push_set(alloc, sets, set, &mut deleted, &mut added)?;
    }
    Ok(Difference { deleted, added })
}

/// Returns the difference that a record makes that is put among the records of its owner and type, in place of the one with equal
/// data or as the last. Of these records, at most the one that is replaced is copied.
pub(crate) fn put_difference(
    alloc: Global,
    stored: &[Record],
    addition: &Record,
) -> Result<Difference, AllocError>
    ensures deleted { IfOk result (λ difference. difference.deleted.items
        ≡ map (record_of (qualified addition.now.name))
        (rows_replaced (rows_of stored.now) (row_of addition.now))) }
    ensures added { IfOk result (λ difference. difference.added.items
        ≡ map (record_of (qualified addition.now.name))
        (rows_put (rows_of stored.now) (row_of addition.now))) }
{
    let mut owner = addition.name.clone()?;
    owner.set_fqdn(true);
    let present = find(stored, &addition.rdata);
    let deleted = replaced(alloc, present, addition, &owner)?;
    let added = put(alloc, present, addition, &owner)?;
    Ok(Difference { deleted, added })
}

/// Returns the record with equal data.
fn find<'a>(stored: &'a [Record], rdata: &RData) -> Option<&'a Record>
    ensures { option_map row_of (option_copied result)
        ≡ find (λ x. same_data x.rdata rdata.now) (rows_of stored.now) }
{
    stored.iter().find(|present| present.rdata == *rdata)
}

/// Returns a copy of the record that another with equal data replaces, if their TTLs differ.
fn replaced(
    alloc: Global,
    present: Option<&Record>,
    addition: &Record,
    owner: &Name,
) -> Result<Vec<Record>, AllocError>
    ensures { IfOk result (λ records. records.items ≡ map (record_of owner.now)
        (replaced_by (option_map row_of (option_copied present.entry)) (row_of addition.now))) }
{
    let mut records = Vec::new(alloc);
    match present {
        Some(old) if old.ttl != addition.ttl => records.push(copy(owner, old)?)?,
        _ => {}
    }
    Ok(records)
}

/// Returns a copy of a record that is put, unless it only replaces one with an equal TTL.
fn put(
    alloc: Global,
    present: Option<&Record>,
    addition: &Record,
    owner: &Name,
) -> Result<Vec<Record>, AllocError>
    ensures { IfOk result (λ records. records.items ≡ map (record_of owner.now)
        (put_by (option_map row_of (option_copied present.entry)) (row_of addition.now))) }
{
    let mut records = Vec::new(alloc);
    match present {
        Some(old) if old.ttl == addition.ttl => {}
        _ => records.push(copy(owner, addition)?)?,
    }
    Ok(records)
}

/// Adds the records that a changed set deletes from a zone, and those that it adds to it. An error may leave a part of them.
fn push_set(
    alloc: Global,
    sets: &ZoneSets,
    set: &ChangedSet,
    deleted: &mut Vec<Record>,
    added: &mut Vec<Record>,
) -> Result<(), AllocError>
    ensures deleted { OnOk result (deleted.new.items
        ≡ deleted.old.items ++ records_deleted (rows_of_sets sets.now) set.now) }
    ensures added { OnOk result (added.new.items
        ≡ added.old.items ++ records_added (rows_of_sets sets.now) set.now) }
{
    let old = lend(alloc, records_at(sets, &set.name, set.record_type))?;
    let new = set.records.lend(alloc)?;
    let mut owner = set.name.clone()?;
    owner.set_fqdn(true);
    push_lacking(alloc, &owner, old.as_slice(), new.as_slice(), deleted)?;
    push_lacking(alloc, &owner, new.as_slice(), old.as_slice(), added)
}

/// Lends records, in their order.
fn lend<'a>(alloc: Global, records: &'a [Record]) -> Result<Vec<&'a Record>, AllocError>
    ensures { IfOk result (λ lent. lent_rows lent.items ≡ rows_of records.now) }
{
    let mut lent = Vec::new(alloc);
    for present in records {
        lent.push(present)?;
    }
    Ok(lent)
}

/// Adds copies of the records that others lack, with an owner. An error may leave a part of them.
fn push_lacking<'a>(
    alloc: Global,
    owner: &Name,
    records: &[&'a Record],
    others: &[&'a Record],
    target: &mut Vec<Record>,
) -> Result<(), AllocError>
    ensures { OnOk result (target.new.items ≡ target.old.items
        ++ map (record_of owner.now) (rows_lacking (lent_rows others.now) (lent_rows records.now))) }
{
    let index = index_of(alloc, others)?;
    push_missing(owner, records, &index, target)
}

/// Adds copies of the records that an index lacks, with an owner. An error may leave a part of them.
fn push_missing<'a>(
    owner: &Name,
    records: &[&'a Record],
    index: &BTreeSet<(u32, &'a RData)>,
    target: &mut Vec<Record>,
) -> Result<(), AllocError>
    ensures { OnOk result (target.new.items ≡ target.old.items ++ map (record_of owner.now)
        (filter (λ row. not (has_entry index.now.keys row)) (lent_rows records.now))) }
{
    for present in records {
        if !has_entry(index, present) {
            target.push(copy(owner, present)?)?;
        }
    }
    Ok(())
}

/// Returns the TTLs and the data of records, in order.
fn index_of<'a>(
    alloc: Global,
    records: &[&'a Record],
) -> Result<BTreeSet<(u32, &'a RData)>, AllocError>
    ensures { IfOk result (λ index. (row : Row) → has_entry index.keys row
        ≡ has_row (lent_rows records.now) row) }
{
    let mut index = BTreeSet::new(alloc);
    for present in records {
        insert(&mut index, present)?;
    }
    Ok(index)
}

/// Inserts the TTL and the data of a record into an index.
fn insert<'a>(index: &mut BTreeSet<(u32, &'a RData)>, present: &'a Record) -> Result<(), AllocError>
    ensures { OnOk result ((row : Row) → has_entry index.new.keys row
        ≡ (has_entry index.old.keys row || same_row (row_of present.now) row)) }
{
    index.insert((present.ttl, &present.rdata))?;
    Ok(())
}

/// Returns `true` if the TTL and the data of a record are in an index.
fn has_entry<'a>(index: &BTreeSet<(u32, &'a RData)>, present: &'a Record) -> bool
    ensures { result ≡ has_entry index.now.keys (row_of present.now) }
{
    index.contains(&(present.ttl, &present.rdata))
}

/// Returns a copy of a record, of the class `IN` and with an owner.
pub(crate) fn copy(owner: &Name, present: &Record) -> Result<Record, AllocError>
    ensures { IfOk result (λ copy. copy ≡ record_of owner.now (row_of present.now)) }
{
    let rdata = present.rdata.clone()?;
    Ok(Record::from_rdata(owner.clone()?, present.ttl, rdata))
}
