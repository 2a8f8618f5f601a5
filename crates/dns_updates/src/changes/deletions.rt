//! Deletions (RFC 2136 sections 3.4.2.3 and 3.4.2.4).

ghost use Rattle.std.specs.Prelude.{◌≡◌, ◌==◌, ◌&&◌, true, false, length, Ok, OnOk};
ghost use Rattle.std.specs.List.{filter, fold};
ghost use Rattle.dns_wire.specs.codes.RecordType.{type_number};
ghost use Rattle.dns_wire.specs.declared.codes.dns_class.DNSClass.TheVariants.{ANY};
ghost use Rattle.dns_wire.specs.declared.codes.record_type.RecordType.TheVariants as types;
ghost use Rattle.dns_records.specs.Rows.{Rows, set_of, type_of_record};
ghost use Rattle.dns_updates.specs.Records.{is_of_type, is_origin};
ghost use Rattle.dns_updates.specs.Change.{change_of_class, is_kept_set, keeps_rows, without_name, without_row, without_set};
ghost use Rattle.dns_updates.specs.Changes.{overlay};
ghost use Rattle.dns_updates.specs.internal.Indexes.{AreListed};

use crate::changes::changed_sets::ChangedSets;
use crate::changes::current::current_len;
use crate::changes::edits::remove_data;
use crate::changes::listings::take_types;
use crate::changes::owner_types::Listing;
use crate::changes::pending::Pending;
use crate::changes::store::{store_records, take_records};
use crate::record_tests::is_of_type;
use crate::zone_rows::ZoneRows;
use dns_names::Name;
use dns_records::Record;
use dns_records::edits::EditedRecords;
use dns_wire::RecordType;
use std::alloc::{AllocError, Global};

/// Deletes the sets of a name, or that of a type. A set that is kept takes no memory.
pub fn delete_sets<Z: ZoneRows>(
    alloc: Global,
    zone: &Z,
    origin: &Name,
    pending: &mut Pending,
    update: &Record,
) -> Result<(), AllocError>
    requires { AreListed (Z.rows zone.now) (overlay (Z.rows zone.now) pending.old.sets)
        pending.old.types }
    ensures change { OnOk result (overlay (Z.rows zone.now) pending.new.sets ≡ change_of_class
        origin.now (overlay (Z.rows zone.now) pending.old.sets) ANY update.now) }
    ensures listed { OnOk result (AreListed (Z.rows zone.now)
        (overlay (Z.rows zone.now) pending.new.sets) pending.new.types) }
    ensures decided { is_of_type types.ANY update.now ≡ false
        → is_kept_set origin.now update.now.name (type_number (type_of_record update.now)) ≡ true
        → (result ≡ Ok tt) × (pending.new.sets ≡ pending.old.sets) }
{
    let owner = &update.name;
    if is_of_type(RecordType::ANY, update) {
        delete_name(alloc, zone, origin, pending, owner)?;
        return Ok(());
    }
    delete_set(
        alloc,
        origin,
        &mut pending.sets,
        owner,
        update.record_type(),
    )?;
    Ok(())
}

/// Deletes the sets of a name. Types that are deleted leave the listing, so that none is deleted twice.
fn delete_name<Z: ZoneRows>(
    alloc: Global,
    zone: &Z,
    origin: &Name,
    pending: &mut Pending,
    owner: &Name,
) -> Result<(), AllocError>
    requires { AreListed (Z.rows zone.now) (overlay (Z.rows zone.now) pending.old.sets)
        pending.old.types }
    ensures change { OnOk result (overlay (Z.rows zone.now) pending.new.sets
        ≡ without_name origin.now (overlay (Z.rows zone.now) pending.old.sets) owner.now) }
    ensures listed { OnOk result (AreListed (Z.rows zone.now)
        (overlay (Z.rows zone.now) pending.new.sets) pending.new.types) }
{
    let mut types = take_types(alloc, zone, &mut pending.types, owner)?;
    delete_types(alloc, origin, &mut pending.sets, owner, types.as_slice())?;
    keep_types(origin, owner, &mut types);
    let listing = Listing {
        types,
        is_complete: true,
    };
    pending.types.put(owner, listing)?;
    Ok(())
}

/// Removes the types of the sets of a name that are not kept.
fn keep_types(origin: &Name, owner: &Name, types: &mut Vec<RecordType>)
    ensures { types.new.items
        ≡ filter (λ t. is_kept_set origin.now owner.now (type_number t)) types.old.items }
{
    types.retain(move |record_type| is_kept_set(origin, owner, *record_type));
}

/// Deletes the sets of a name and of some types.
fn delete_types(
    alloc: Global,
    origin: &Name,
    sets: &mut ChangedSets,
    owner: &Name,
    found: &[RecordType],
) -> Result<(), AllocError>
    ensures { OnOk result ((rows : Rows) → overlay rows sets.new
        ≡ fold (λ left t. without_set origin.now left owner.now t)
        (overlay rows sets.old) found.now) }
{
    for record_type in found {
        delete_set(alloc, origin, sets, owner, *record_type)?;
    }
    Ok(())
}

/// Deletes the set of a name and a type.
fn delete_set(
    alloc: Global,
    origin: &Name,
    sets: &mut ChangedSets,
    owner: &Name,
    record_type: RecordType,
) -> Result<(), AllocError>
    ensures change { OnOk result ((rows : Rows) → overlay rows sets.new
        ≡ without_set origin.now (overlay rows sets.old) owner.now record_type) }
    ensures decided { is_kept_set origin.now owner.now (type_number record_type) ≡ true
        → (result ≡ Ok tt) × (sets.new ≡ sets.old) }
{
    if is_kept_set(origin, owner, record_type) {
        return Ok(());
    }
    store_records(sets, owner, record_type, EditedRecords::empty(alloc))?;
    Ok(())
}

/// Returns `true` for a set that deletions of sets keep: SOA and NS at the origin.
fn is_kept_set(origin: &Name, owner: &Name, record_type: RecordType) -> bool
    ensures { result ≡ is_kept_set origin.now owner.now (type_number record_type) }
{
    origin.eq_ignore_root(owner)
        && (record_type == RecordType::SOA || record_type == RecordType::NS)
}

/// Deletes the rows with the data of a record from those of its owner and type, unless they are kept, which takes no memory.
pub fn delete_row<Z: ZoneRows>(
    alloc: Global,
    zone: &Z,
    origin: &Name,
    sets: &mut ChangedSets,
    update: &Record,
) -> Result<(), AllocError>
    ensures change { OnOk result (overlay (Z.rows zone.now) sets.new
        ≡ without_row origin.now (overlay (Z.rows zone.now) sets.old) update.now) }
    ensures decided { keeps_rows origin.now (overlay (Z.rows zone.now) sets.old) update.now
        ≡ true → (result ≡ Ok tt) × (sets.new ≡ sets.old) }
{
    if keeps_rows(zone, origin, sets, update) {
        return Ok(());
    }
    let owner = &update.name;
    let record_type = update.record_type();
    let records = take_records(alloc, zone, sets, owner, record_type)?;
    let records = remove_data(records, &update.rdata)?;
    store_records(sets, owner, record_type, records)?;
    Ok(())
}

/// Returns `true` if deletions of rows keep a record's set: an SOA, and the last NS at the origin.
fn keeps_rows<Z: ZoneRows>(zone: &Z, origin: &Name, sets: &ChangedSets, update: &Record) -> bool
    ensures { result ≡ keeps_rows origin.now (overlay (Z.rows zone.now) sets.now) update.now }
{
    is_of_type(RecordType::SOA, update) || is_last_name_server(zone, origin, sets, update)
}

/// Returns `true` for the last NS at the origin.
fn is_last_name_server<Z: ZoneRows>(
    zone: &Z,
    origin: &Name,
    sets: &ChangedSets,
    update: &Record,
) -> bool
    ensures { result ≡ (is_of_type types.NS update.now && (is_origin origin.now update.now.name
        && (length (set_of (overlay (Z.rows zone.now) sets.now) update.now) == 1))) }
{
    is_of_type(RecordType::NS, update)
        && origin.eq_ignore_root(&update.name)
        && current_len(zone, sets, &update.name, update.record_type()) == 1
}
