//! Which types the sets of a name have, with the changes so far.

ghost use Rattle.std.specs.Prelude.{◌≡◌, ◌&&◌, ◌||◌, Bool, true, [], List, ℕ, None, Some, IfNone, IfOk, IfSome, OnOk, if◌then◌else◌};
ghost use Rattle.std.specs.List.{list_any};
ghost use Rattle.dns_wire.specs.declared.codes.record_type.RecordType.{RecordType};
ghost use Rattle.dns_names.specs.Compare.{same_labels};
ghost use Rattle.dns_records.specs.declared.row.Row.{Row};
ghost use Rattle.dns_records.specs.Rows.{Key, Rows, key, with_set};
ghost use Rattle.dns_updates.specs.Changes.{is_other_set, overlay};
ghost use Rattle.dns_updates.specs.Keys.{owner_code};
ghost use Rattle.dns_updates.specs.Records.{has_rows_but, has_set};
ghost use Rattle.dns_updates.specs.Sets.{AreTypesAt, is_key_among};
ghost use Rattle.dns_updates.specs.internal.Indexes.{AreListed, is_code, is_in_listing, listing_at, passes};

use crate::changes::changed_sets::ChangedSets;
use crate::changes::current::{has_current, is_other};
use crate::changes::owner_types::{Listing, OwnerTypes};
use crate::changes::pending::Pending;
use crate::zone_rows::ZoneRows;
use dns_names::Name;
use dns_wire::RecordType;
use std::alloc::{AllocError, Global};

/// Returns a listing, or one without types.
fn or_new(alloc: Global, found: Option<Listing>) -> Listing
    ensures { (zone : Rows) (k : Key)
        → is_in_listing zone k (Some result) ≡ is_in_listing zone k found }
{
    match found {
        Some(listing) => listing,
        None => Listing {
            types: Vec::new(alloc),
            is_complete: false,
        },
    }
}

/// Lists a type of an owner.
fn list_type(
    alloc: Global,
    types: &mut OwnerTypes,
    owner: &Name,
    record_type: RecordType,
) -> Result<(), AllocError>
    ensures { OnOk result ((zone rows : Rows) (s : List Row) → AreListed zone rows types.old
        → AreListed zone (with_set rows (key owner.now.labels record_type) s) types.new) }
{
    let found = types.take(owner);
    let mut listing = or_new(alloc, found);
    listing.types.push(record_type)?;
    types.put(owner, listing)?;
    Ok(())
}

/// Lists a type of an owner, unless there are rows of the type, for rows that come there.
pub fn list_added<Z: ZoneRows>(
    alloc: Global,
    zone: &Z,
    pending: &mut Pending,
    owner: &Name,
    record_type: RecordType,
) -> Result<(), AllocError>
    ensures listed { OnOk result ((s : List Row)
        → AreListed (Z.rows zone.now) (overlay (Z.rows zone.now) pending.old.sets) pending.old.types
        → AreListed (Z.rows zone.now) (with_set (overlay (Z.rows zone.now) pending.old.sets)
        (key owner.now.labels record_type) s) pending.new.types) }
    ensures sets { pending.new.sets ≡ pending.old.sets }
{
    if has_current(zone, &pending.sets, owner, record_type) {
        return Ok(());
    }
    list_type(alloc, &mut pending.types, owner, record_type)?;
    Ok(())
}

/// Returns the types of a listing with those in which the zone has sets, unless it is complete.
fn completed<Z: ZoneRows>(
    alloc: Global,
    zone: &Z,
    owner: &Name,
    listing: Listing,
) -> Result<Vec<RecordType>, AllocError>
    ensures { IfOk result (λ found. (k : Key) → same_labels owner.now.labels k.0 ≡ true
        → is_in_listing (Z.rows zone.now) k (Some listing) ≡ true
        → is_key_among owner.now.labels found.items k ≡ true) }
{
    let Listing {
        mut types,
        is_complete,
    } = listing;
    if is_complete {
        return Ok(types);
    }
    let more = zone.types(alloc, owner)?;
    types.extend_from_slice(more.as_slice())?;
    Ok(types)
}

/// Takes the types of the sets of an owner out of the listings.
pub fn take_types<Z: ZoneRows>(
    alloc: Global,
    zone: &Z,
    types: &mut OwnerTypes,
    owner: &Name,
) -> Result<Vec<RecordType>, AllocError>
    ensures found { IfOk result (λ found. (rows : Rows) → AreListed (Z.rows zone.now) rows types.old
        → AreTypesAt rows owner.now.labels found.items) }
    ensures others { OnOk result ((code : List ℕ) → listing_at types.new code
        ≡ (if is_code (owner_code owner.now.labels) code then None
        else listing_at types.old code)) }
{
    if let Some(listing) = types.take(owner) {
        let found = completed(alloc, zone, owner, listing)?;
        return Ok(found);
    }
    let found = zone.types(alloc, owner)?;
    Ok(found)
}

/// Removes types from the end up to the last one other than this of which the name has records, and returns that.
fn pop_other<Z: ZoneRows>(
    zone: &Z,
    sets: &ChangedSets,
    owner: &Name,
    record_type: RecordType,
    types: &mut Vec<RecordType>,
) -> Option<RecordType>
    ensures found { IfSome result (λ other. is_other_set (overlay (Z.rows zone.now) sets.now)
        owner.now record_type other ≡ true) }
    ensures none { IfNone result (types.new.items ≡ []) }
    ensures left { (p : RecordType → Bool) → ((t : RecordType) → p t ≡ true → is_other_set
        (overlay (Z.rows zone.now) sets.now) owner.now record_type t ≡ true)
        → list_any p types.old.items ≡ (list_any p types.new.items || passes p result) }
{
    while let Some(other) = types.pop() {
        if is_other(zone, sets, owner, record_type, other) {
            return Some(other);
        }
    }
    None
}

/// Returns `true` if the name has records of another type. Types without records leave the listing, so that none is
/// looked up twice.
pub fn has_current_but<Z: ZoneRows>(
    alloc: Global,
    zone: &Z,
    pending: &mut Pending,
    owner: &Name,
    record_type: RecordType,
) -> Result<bool, AllocError>
    requires { AreListed (Z.rows zone.now) (overlay (Z.rows zone.now) pending.old.sets)
        pending.old.types }
    ensures found { IfOk result (λ found. found
        ≡ has_rows_but (overlay (Z.rows zone.now) pending.old.sets) owner.now record_type) }
    ensures sets { pending.new.sets ≡ pending.old.sets }
    ensures listed { OnOk result (AreListed (Z.rows zone.now)
        (overlay (Z.rows zone.now) pending.old.sets) pending.new.types) }
{
    let mut types = take_types(alloc, zone, &mut pending.types, owner)?;
    let other = pop_other(zone, &pending.sets, owner, record_type, &mut types);
    push_some(&mut types, other)?;
    push_current(zone, &pending.sets, owner, record_type, &mut types)?;
    let listing = Listing {
        types,
        is_complete: true,
    };
    pending.types.put(owner, listing)?;
    Ok(other.is_some())
}

/// Appends a type, if there is one.
fn push_some(types: &mut Vec<RecordType>, found: Option<RecordType>) -> Result<(), AllocError>
    ensures { OnOk result ((p : RecordType → Bool)
        → list_any p types.new.items ≡ (list_any p types.old.items || passes p found)) }
{
    if let Some(record_type) = found {
        types.push(record_type)?;
    }
    Ok(())
}

/// Appends a type, if the name has records of it.
fn push_current<Z: ZoneRows>(
    zone: &Z,
    sets: &ChangedSets,
    owner: &Name,
    record_type: RecordType,
    types: &mut Vec<RecordType>,
) -> Result<(), AllocError>
    ensures { OnOk result ((p : RecordType → Bool)
        → list_any p types.new.items ≡ (list_any p types.old.items
        || (has_set (overlay (Z.rows zone.now) sets.now) owner.now record_type && p record_type))) }
{
    if has_current(zone, sets, owner, record_type) {
        types.push(record_type)?;
    }
    Ok(())
}
