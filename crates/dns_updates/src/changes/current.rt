//! The rows of a zone with the changes so far.

ghost use Rattle.std.specs.Prelude.{◌≡◌, length, option_map, slice_get};
ghost use Rattle.std.specs.Option.{option_copied};
ghost use Rattle.dns_records.specs.Rows.{row_of, rows_at};
ghost use Rattle.dns_updates.specs.Changes.{is_other_set, overlay};
ghost use Rattle.dns_updates.specs.Records.{has_set};

use crate::changes::changed_sets::ChangedSets;
use crate::zone_rows::ZoneRows;
use dns_names::Name;
use dns_records::Record;
use dns_wire::RecordType;

/// Returns the first record of an owner and a type.
pub fn current_first<'a, Z: ZoneRows>(
    zone: &'a Z,
    sets: &'a ChangedSets,
    owner: &Name,
    record_type: RecordType,
) -> Option<&'a Record>
    ensures { option_map row_of (option_copied result) ≡ slice_get
        (rows_at (overlay (Z.rows zone.now) sets.now) owner.now.labels record_type) 0 }
{
    match sets.get(owner, record_type) {
        Some(set) => set.records.first(),
        None => zone.records(owner, record_type).first(),
    }
}

/// Returns the number of records of an owner and a type.
pub fn current_len<Z: ZoneRows>(
    zone: &Z,
    sets: &ChangedSets,
    owner: &Name,
    record_type: RecordType,
) -> usize
    ensures { result ≡ length
        (rows_at (overlay (Z.rows zone.now) sets.now) owner.now.labels record_type) }
{
    match sets.get(owner, record_type) {
        Some(set) => set.records.len(),
        None => zone.records(owner, record_type).len(),
    }
}

/// Returns `true` if the name has records of the type.
pub fn has_current<Z: ZoneRows>(
    zone: &Z,
    sets: &ChangedSets,
    owner: &Name,
    record_type: RecordType,
) -> bool
    ensures { result ≡ has_set (overlay (Z.rows zone.now) sets.now) owner.now record_type }
{
    match sets.get(owner, record_type) {
        Some(set) => !set.records.is_empty(),
        None => zone.has_set(owner, record_type),
    }
}

/// Returns `true` if the name has records of a type that is not this one.
pub fn is_other<Z: ZoneRows>(
    zone: &Z,
    sets: &ChangedSets,
    owner: &Name,
    record_type: RecordType,
    other: RecordType,
) -> bool
    ensures { result
        ≡ is_other_set (overlay (Z.rows zone.now) sets.now) owner.now record_type other }
{
    record_type != other && has_current(zone, sets, owner, other)
}
