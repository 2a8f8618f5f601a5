//! Changes of sets.

ghost use Rattle.std.specs.Prelude.{◌≡◌, List, IfOk, OnOk};
ghost use Rattle.dns_records.specs.declared.row.Row.{Row};
ghost use Rattle.dns_records.specs.Rows.{Key, Rows, key, rows_at, rows_of, with_set};
ghost use Rattle.dns_updates.specs.Changes.{changed_at, overlay};
ghost use Rattle.dns_updates.specs.internal.Indexes.{KeepsName};

use crate::changes::changed_set::ChangedSet;
use crate::changes::changed_sets::ChangedSets;
use crate::zone_rows::ZoneRows;
use dns_names::Name;
use dns_records::edits::EditedRecords;
use dns_wire::RecordType;
use std::alloc::{AllocError, Global};

/// Takes the records of an owner and a type out of their changed set, which stays without records, or copies those of the zone.
pub fn take_records<Z: ZoneRows>(
    alloc: Global,
    zone: &Z,
    sets: &mut ChangedSets,
    owner: &Name,
    record_type: RecordType,
) -> Result<EditedRecords, AllocError>
    ensures taken { IfOk result (λ records. rows_of records
        ≡ rows_at (overlay (Z.rows zone.now) sets.old) owner.now.labels record_type) }
    ensures others { OnOk result ((s : List Row)
        → with_set (overlay (Z.rows zone.now) sets.new) (key owner.now.labels record_type) s
        ≡ with_set (overlay (Z.rows zone.now) sets.old) (key owner.now.labels record_type) s) }
    ensures names { OnOk result ((k : Key)
        → KeepsName (changed_at sets.old k) (changed_at sets.new k)) }
{
    if let Some(records) = sets.replace(owner, record_type, EditedRecords::empty(alloc)) {
        return Ok(records);
    }
    let records = EditedRecords::copy(alloc, zone.records(owner, record_type))?;
    Ok(records)
}

/// Makes records those of an owner and a type. A set that is changed already keeps the spelling of its name.
pub fn store_records(
    sets: &mut ChangedSets,
    owner: &Name,
    record_type: RecordType,
    records: EditedRecords,
) -> Result<(), AllocError>
    ensures rows { OnOk result ((rows : Rows) → overlay rows sets.new
        ≡ with_set (overlay rows sets.old) (key owner.now.labels record_type)
        (rows_of records)) }
    ensures names { OnOk result ((k : Key)
        → KeepsName (changed_at sets.old k) (changed_at sets.new k)) }
{
    if sets.contains(owner, record_type) {
        sets.replace(owner, record_type, records);
        return Ok(());
    }
    let name = owner.clone()?;
    sets.insert(ChangedSet {
        name,
        record_type,
        records,
    })?;
    Ok(())
}
