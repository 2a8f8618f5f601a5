//! Additions (RFC 2136 section 3.4.2.2).

ghost use Rattle.std.specs.Prelude.{◌≡◌, true, false, not, [], List, if◌then◌else◌, Ok, IfOk, OnOk, ◌||◌, ◌&&◌, option_map};
ghost use Rattle.std.specs.Option.{option_copied};
ghost use Rattle.dns_wire.specs.declared.codes.record_type.RecordType.TheVariants as types;
ghost use Rattle.dns_wire.specs.codes.SerialNumber.{serial_order};
ghost use Rattle.dns_records.specs.declared.row.Row.{Row};
ghost use Rattle.dns_records.specs.Rows.{key_of, row_of, rows_of, set_of, with_set};
ghost use Rattle.dns_updates.specs.Records.{has_set, is_of_type};
ghost use Rattle.dns_updates.specs.Change.{added, is_ignored, is_less, set_with, succeeds, succeeds_soa};
ghost use Rattle.dns_updates.specs.Changes.{overlay};
ghost use Rattle.dns_updates.specs.internal.Indexes.{AreListed};
ghost use Rattle.dns_updates.specs.internal.First.{succeeds_first};

use crate::changes::changed_sets::ChangedSets;
use crate::changes::current::{current_first, has_current};
use crate::changes::edits::put_record;
use crate::changes::listings::{has_current_but, list_added};
use crate::changes::pending::Pending;
use crate::changes::store::{store_records, take_records};
use crate::record_tests::is_of_type;
use crate::zone_rows::ZoneRows;
use dns_data::RData;
use dns_records::Record;
use dns_records::edits::EditedRecords;
use dns_wire::{RecordType, SerialNumber, SerialOrder};
use std::alloc::{AllocError, Global};

/// Adds a record, unless it is ignored. An ignored record that is no CNAME takes no memory.
pub fn add<Z: ZoneRows>(
    alloc: Global,
    zone: &Z,
    pending: &mut Pending,
    update: &Record,
) -> Result<(), AllocError>
    requires { AreListed (Z.rows zone.now) (overlay (Z.rows zone.now) pending.old.sets)
        pending.old.types }
    ensures change { OnOk result (overlay (Z.rows zone.now) pending.new.sets
        ≡ added (overlay (Z.rows zone.now) pending.old.sets) update.now) }
    ensures listed { OnOk result (AreListed (Z.rows zone.now)
        (overlay (Z.rows zone.now) pending.new.sets) pending.new.types) }
    ensures decided { is_of_type types.CNAME update.now ≡ false
        → is_ignored (overlay (Z.rows zone.now) pending.old.sets) update.now ≡ true
        → (result ≡ Ok tt) × (pending.new.sets ≡ pending.old.sets) }
{
    if is_of_type(RecordType::CNAME, update) {
        add_alias(alloc, zone, pending, update)?;
        return Ok(());
    }
    if is_ignored_row(zone, &pending.sets, update) {
        return Ok(());
    }
    put(alloc, zone, pending, update)?;
    Ok(())
}

/// Adds a CNAME, unless there are rows of another type beside it.
fn add_alias<Z: ZoneRows>(
    alloc: Global,
    zone: &Z,
    pending: &mut Pending,
    update: &Record,
) -> Result<(), AllocError>
    requires alias { is_of_type types.CNAME update.now ≡ true }
    requires listed { AreListed (Z.rows zone.now) (overlay (Z.rows zone.now) pending.old.sets)
        pending.old.types }
    ensures change { OnOk result (overlay (Z.rows zone.now) pending.new.sets
        ≡ added (overlay (Z.rows zone.now) pending.old.sets) update.now) }
    ensures listed { OnOk result (AreListed (Z.rows zone.now)
        (overlay (Z.rows zone.now) pending.new.sets) pending.new.types) }
{
    if has_current_but(alloc, zone, pending, &update.name, RecordType::CNAME)? {
        return Ok(());
    }
    put(alloc, zone, pending, update)?;
    Ok(())
}

/// Adds a record that is not ignored.
fn put<Z: ZoneRows>(
    alloc: Global,
    zone: &Z,
    pending: &mut Pending,
    update: &Record,
) -> Result<(), AllocError>
    requires { AreListed (Z.rows zone.now) (overlay (Z.rows zone.now) pending.old.sets)
        pending.old.types }
    ensures change { OnOk result (overlay (Z.rows zone.now) pending.new.sets
        ≡ with_set (overlay (Z.rows zone.now) pending.old.sets) (key_of update.now)
        (set_with (overlay (Z.rows zone.now) pending.old.sets) update.now)) }
    ensures listed { OnOk result (AreListed (Z.rows zone.now)
        (overlay (Z.rows zone.now) pending.new.sets) pending.new.types) }
{
    list_added(alloc, zone, pending, &update.name, update.record_type())?;
    put_row(alloc, zone, &mut pending.sets, update)?;
    Ok(())
}

/// Puts a record in place of one with equal data, or at the end of its set; a CNAME or an SOA is the only one of its set.
fn put_row<Z: ZoneRows>(
    alloc: Global,
    zone: &Z,
    sets: &mut ChangedSets,
    update: &Record,
) -> Result<(), AllocError>
    ensures { OnOk result (overlay (Z.rows zone.now) sets.new
        ≡ with_set (overlay (Z.rows zone.now) sets.old) (key_of update.now)
        (set_with (overlay (Z.rows zone.now) sets.old) update.now)) }
{
    let records = records_beside(alloc, zone, sets, update)?;
    let records = put_record(records, update.clone()?)?;
    store_records(sets, &update.name, update.record_type(), records)?;
    Ok(())
}

/// Takes the records to which one is added: those of its owner and type, but none for a CNAME or an SOA.
fn records_beside<Z: ZoneRows>(
    alloc: Global,
    zone: &Z,
    sets: &mut ChangedSets,
    update: &Record,
) -> Result<EditedRecords, AllocError>
    ensures taken { IfOk result (λ records. rows_of records
        ≡ (if is_of_type types.CNAME update.now || is_of_type types.SOA update.now then []
        else set_of (overlay (Z.rows zone.now) sets.old) update.now)) }
    ensures others { OnOk result ((s : List Row)
        → with_set (overlay (Z.rows zone.now) sets.new) (key_of update.now) s
        ≡ with_set (overlay (Z.rows zone.now) sets.old) (key_of update.now) s) }
{
    if is_of_type(RecordType::CNAME, update) || is_of_type(RecordType::SOA, update) {
        return Ok(EditedRecords::empty(alloc));
    }
    let records = take_records(alloc, zone, sets, &update.name, update.record_type())?;
    Ok(records)
}

/// Returns `true` for an addition of no CNAME that is ignored: one beside a CNAME, and an SOA that does not succeed one.
fn is_ignored_row<Z: ZoneRows>(zone: &Z, sets: &ChangedSets, update: &Record) -> bool
    ensures { result ≡ (has_set (overlay (Z.rows zone.now) sets.now) update.now.name types.CNAME
        || (is_of_type types.SOA update.now
        && not (succeeds_soa (set_of (overlay (Z.rows zone.now) sets.now) update.now)
        update.now))) }
{
    let owner = &update.name;
    if has_current(zone, sets, owner, RecordType::CNAME) {
        return true;
    }
    if !is_of_type(RecordType::SOA, update) {
        return false;
    }
    let first = current_first(zone, sets, owner, update.record_type());
    !succeeds_soa(first, update)
}

/// Returns `true` if the first record is an SOA, and another is an SOA with a greater serial number.
fn succeeds_soa(first: Option<&Record>, update: &Record) -> bool
    ensures { result
        ≡ succeeds_first (option_map row_of (option_copied first.entry)) update.now }
{
    match first {
        None => false,
        Some(old) => succeeds(&update.rdata, &old.rdata),
    }
}

/// Returns `true` if the serial number of an SOA is greater (RFC 1982 section 3.2).
fn succeeds(new: &RData, old: &RData) -> bool
    ensures { result ≡ succeeds new.now old.now }
{
    match (new, old) {
        (RData::SOA(new), RData::SOA(old)) => is_less(old.serial, new.serial),
        _ => false,
    }
}

/// Returns `true` if a serial number is less than another (RFC 1982 section 3.2).
fn is_less(first: u32, second: u32) -> bool
    ensures { result ≡ is_less (serial_order first second) }
{
    match SerialNumber::new(first).compare(SerialNumber::new(second)) {
        SerialOrder::Less => true,
        _ => false,
    }
}
