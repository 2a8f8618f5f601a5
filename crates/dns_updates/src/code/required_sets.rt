//! The sets of data that prerequisites of class `IN` require (RFC 2136 section 3.2.3).

ghost use Rattle.std.specs.Prelude.{◌≡◌, ◌&&◌, not, map};
ghost use Rattle.std.specs.List.{list_any, list_all};
ghost use Rattle.dns_names.specs.Compare.{same_labels};
ghost use Rattle.dns_records.specs.Rows.{type_of_record};
ghost use Rattle.dns_updates.specs.Records.{is_in_class, is_among, is_type};
ghost use Rattle.dns_data.specs.rdata.{same_data};
ghost use Rattle.dns_updates.specs.Code.{is_required_with, required_data, has_required, sets_code};

use crate::code::required_groups::sets_code_by_groups;
use crate::record_tests::{is_in_class, is_of_type};
use crate::zone_rows::ZoneRows;
use dns_data::RData;
use dns_messages::ResponseCode;
use dns_names::laws::equal_labels_have_equal_lowercase;
use dns_records::Record;
use std::alloc::Global;

/// The greatest number of prerequisites that are compared with one another. More of them are grouped by owner and type.
const MAX_COMPARED: usize = 16;

/// Returns the code of the required sets: the zone has each of them. Memory that is refused only makes it slower.
pub fn sets_code<Z: ZoneRows>(alloc: Global, zone: &Z, prerequisites: &[Record]) -> ResponseCode
    ensures { result ≡ sets_code (Z.rows zone.now) prerequisites.now }
{
    if prerequisites.len() <= MAX_COMPARED {
        return sets_code_by_search(zone, prerequisites);
    }
    match sets_code_by_groups(alloc, zone, prerequisites) {
        Ok(code) => code,
        Err(_) => sets_code_by_search(zone, prerequisites),
    }
}

/// Returns the code of the required sets without memory. Prerequisites are compared with one another.
fn sets_code_by_search<Z: ZoneRows>(zone: &Z, prerequisites: &[Record]) -> ResponseCode
    ensures { result ≡ sets_code (Z.rows zone.now) prerequisites.now }
{
    equal_labels_have_equal_lowercase();
    for (i, prerequisite) in prerequisites.iter().enumerate() {
        if is_first_of_set(&prerequisites[..i], prerequisite)
            && !has_required(zone, prerequisites, prerequisite)
        {
            return ResponseCode::NXRRSet;
        }
    }
    ResponseCode::NoError
}

/// Returns `true` for a prerequisite of class `IN`, if no earlier one requires data of its owner and type.
fn is_first_of_set(earlier: &[Record], prerequisite: &Record) -> bool
    ensures { result ≡ (is_in_class prerequisite.now.dns_class
        && not (list_any (is_required_with prerequisite.now) earlier.now)) }
{
    is_in_class(prerequisite.dns_class) && !is_required_by(earlier, prerequisite)
}

/// Returns `true` if a prerequisite requires data of the owner and type of a record.
fn is_required_by(prerequisites: &[Record], resource_record: &Record) -> bool
    ensures { result ≡ list_any (is_required_with resource_record.now) prerequisites.now }
{
    prerequisites.iter().any(|prerequisite| is_required_with(resource_record, prerequisite))
}

/// Returns `true` if a prerequisite requires data of the owner and type of a record.
fn is_required_with(resource_record: &Record, prerequisite: &Record) -> bool
    ensures { result ≡ is_required_with resource_record.now prerequisite.now }
{
    is_in_class(prerequisite.dns_class) && is_of_same_set(resource_record, prerequisite)
}

/// Returns `true` if two records have the same owner and type. The types are compared first, since names may be long.
fn is_of_same_set(own: &Record, other: &Record) -> bool
    ensures { result ≡ (same_labels own.now.name.labels other.now.name.labels
        && is_type (type_of_record own.now) (type_of_record other.now)) }
{
    is_of_type(own.record_type(), other) && own.name.eq_ignore_root(&other.name)
}

/// Returns `true` if the zone has exactly the data that prerequisites require of the owner and type of a record.
fn has_required<Z: ZoneRows>(zone: &Z, prerequisites: &[Record], resource_record: &Record) -> bool
    ensures { result ≡ has_required (Z.rows zone.now) prerequisites.now resource_record.now }
{
    let records = zone.records(&resource_record.name, resource_record.record_type());
    has_all_required(records, prerequisites, resource_record)
        && has_only_required(records, prerequisites, resource_record)
}

/// Returns `true` if records have all data that prerequisites require of the owner and type of a record.
fn has_all_required(records: &[Record], prerequisites: &[Record], resource_record: &Record) -> bool
    ensures { result ≡ list_all (is_among (map (λ r. r.rdata) records.now))
        (required_data prerequisites.now resource_record.now) }
{
    for prerequisite in prerequisites {
        if is_missing(records, prerequisite, resource_record) {
            return false;
        }
    }
    true
}

/// Returns `true` if a prerequisite requires data of the owner and type of a record that no record has.
fn is_missing(records: &[Record], prerequisite: &Record, resource_record: &Record) -> bool
    ensures { result ≡ (is_required_with resource_record.now prerequisite.now
        && not (is_among (map (λ r. r.rdata) records.now) prerequisite.now.rdata)) }
{
    is_required_with(resource_record, prerequisite) && !is_among(records, &prerequisite.rdata)
}

/// Returns `true` if the data of each record is required.
fn has_only_required(records: &[Record], prerequisites: &[Record], resource_record: &Record) -> bool
    ensures { result
        ≡ list_all (is_among (required_data prerequisites.now resource_record.now))
        (map (λ r. r.rdata) records.now) }
{
    for present in records {
        if !is_required_data(prerequisites, resource_record, &present.rdata) {
            return false;
        }
    }
    true
}

/// Returns `true` if a record has the data.
fn is_among(records: &[Record], rdata: &RData) -> bool
    ensures { result ≡ is_among (map (λ r. r.rdata) records.now) rdata.now }
{
    for present in records {
        if *rdata == present.rdata {
            return true;
        }
    }
    false
}

/// Returns `true` if prerequisites require the data of the owner and type of a record.
fn is_required_data(prerequisites: &[Record], resource_record: &Record, rdata: &RData) -> bool
    ensures { result ≡ is_among (required_data prerequisites.now resource_record.now) rdata.now }
{
    for prerequisite in prerequisites {
        if is_required_as(prerequisite, resource_record, rdata) {
            return true;
        }
    }
    false
}

/// Returns `true` if a prerequisite requires the data of the owner and type of a record. The data is compared first, since
/// most of it differs, and names may be long.
fn is_required_as(prerequisite: &Record, resource_record: &Record, rdata: &RData) -> bool
    ensures { result ≡ (is_required_with resource_record.now prerequisite.now
        && same_data rdata.now prerequisite.now.rdata) }
{
    *rdata == prerequisite.rdata && is_required_with(resource_record, prerequisite)
}
