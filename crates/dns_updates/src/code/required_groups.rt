//! The sets of data that prerequisites of class `IN` require (RFC 2136 section 3.2.3), grouped by owner and type.

ghost use Rattle.std.specs.Prelude.{◌≡◌, ◌++◌, true, List, [], ◌∷◌, IfOk, OnOk, if◌then◌else◌};
ghost use Rattle.std.specs.List.{filter, list_all, list_any};
ghost use Rattle.dns_records.specs.Record.{Record as RecordValue};
ghost use Rattle.dns_updates.specs.Code.{has_required, is_required_with, required_data, sets_code};
ghost use Rattle.dns_updates.specs.Records.{is_in_class};
ghost use Rattle.dns_updates.specs.internal.Required.{AreLeft, all_data_at, record_place};

use crate::code::data_sets::has_data_set;
use crate::code::required_data::RequiredData;
use crate::record_tests::is_in_class;
use crate::zone_rows::ZoneRows;
use dns_messages::ResponseCode;
use dns_records::Record;
use std::alloc::{AllocError, Global};

/// Returns the code of the required sets: the zone has each of them.
pub fn sets_code_by_groups<Z: ZoneRows>(
    alloc: Global,
    zone: &Z,
    prerequisites: &[Record],
) -> Result<ResponseCode, AllocError>
    ensures { IfOk result (λ code. code ≡ sets_code (Z.rows zone.now) prerequisites.now) }
{
    let mut groups = group(alloc, prerequisites)?;
    for prerequisite in prerequisites {
        if !is_met(alloc, zone, &mut groups, prerequisite)? {
            return Ok(ResponseCode::NXRRSet);
        }
    }
    Ok(ResponseCode::NoError)
}

/// Groups the data that prerequisites of class `IN` require, in their order.
fn group(alloc: Global, prerequisites: &[Record]) -> Result<RequiredData<'_>, AllocError>
    ensures { IfOk result (λ groups. (r : RecordValue) → all_data_at groups (record_place r)
        ≡ required_data prerequisites.now r) }
{
    let mut groups = RequiredData::new(alloc);
    for prerequisite in prerequisites {
        add_required(alloc, &mut groups, prerequisite)?;
    }
    Ok(groups)
}

/// Adds the data that a prerequisite requires, if it is of class `IN`.
fn add_required<'a>(
    alloc: Global,
    groups: &mut RequiredData<'a>,
    prerequisite: &'a Record,
) -> Result<(), AllocError>
    ensures { OnOk result ((r : RecordValue) → all_data_at groups.new (record_place r)
        ≡ all_data_at groups.old (record_place r)
        ++ (if is_required_with r prerequisite.now then prerequisite.now.rdata ∷ [] else [])) }
{
    if !is_in_class(prerequisite.dns_class) {
        return Ok(());
    }
    let record_type = prerequisite.record_type();
    groups.add(alloc, &prerequisite.name, record_type, &prerequisite.rdata)?;
    Ok(())
}

/// Returns `true` if a prerequisite is not of class `IN`, or the zone has exactly the data that is required of its owner and
/// type.
fn is_met<'a, Z: ZoneRows>(
    alloc: Global,
    zone: &'a Z,
    groups: &mut RequiredData<'a>,
    prerequisite: &Record,
) -> Result<bool, AllocError>
    ensures met { IfOk result (λ met. (required : List RecordValue)
        → AreLeft (Z.rows zone.now) required groups.old
        → (is_in_class prerequisite.now.dns_class ≡ true
        → list_any (is_required_with prerequisite.now) required ≡ true)
        → met ≡ list_all (has_required (Z.rows zone.now) required)
        (filter (λ r. is_in_class r.dns_class) (prerequisite.now ∷ []))) }
    ensures left { IfOk result (λ met. (required : List RecordValue)
        → AreLeft (Z.rows zone.now) required groups.old → met ≡ true
        → AreLeft (Z.rows zone.now) required groups.new) }
{
    if !is_in_class(prerequisite.dns_class) {
        return Ok(true);
    }
    let met = has_required(alloc, zone, groups, prerequisite)?;
    Ok(met)
}

/// Returns `true` if the zone has exactly the data that is required of the owner and type of a prerequisite. It is compared
/// once, and leaves the groups.
fn has_required<'a, Z: ZoneRows>(
    alloc: Global,
    zone: &'a Z,
    groups: &mut RequiredData<'a>,
    prerequisite: &Record,
) -> Result<bool, AllocError>
    ensures met { IfOk result (λ met. (required : List RecordValue)
        → AreLeft (Z.rows zone.now) required groups.old
        → list_any (is_required_with prerequisite.now) required ≡ true
        → met ≡ has_required (Z.rows zone.now) required prerequisite.now) }
    ensures left { IfOk result (λ met. (required : List RecordValue)
        → AreLeft (Z.rows zone.now) required groups.old → met ≡ true
        → AreLeft (Z.rows zone.now) required groups.new) }
{
    let record_type = prerequisite.record_type();
    let Some(required) = groups.take(&prerequisite.name, record_type) else {
        return Ok(true);
    };
    let records = zone.records(&prerequisite.name, record_type);
    let met = has_data_set(alloc, required.as_slice(), records)?;
    Ok(met)
}
