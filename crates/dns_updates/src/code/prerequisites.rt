//! Prerequisites of an update, one by one (RFC 2136 section 3.2).

ghost use Rattle.std.specs.Prelude.{◌≡◌};
ghost use Rattle.dns_updates.specs.Code.{first_fault_of, existence_code, absence_code, test_code, prerequisite_code};

use crate::code::fault_if;
use crate::record_tests::{has_data, is_of_type};
use crate::zone_rows::ZoneRows;
use dns_messages::ResponseCode;
use dns_names::Name;
use dns_records::Record;
use dns_wire::{DNSClass, RecordType};

/// Returns the code of the first fault of prerequisites.
pub fn prerequisites_code<Z: ZoneRows>(
    zone: &Z,
    origin: &Name,
    prerequisites: &[Record],
) -> ResponseCode
    ensures { result
        ≡ first_fault_of (prerequisite_code origin.now (Z.rows zone.now)) prerequisites.now }
{
    for prerequisite in prerequisites {
        match prerequisite_code(zone, origin, prerequisite) {
            ResponseCode::NoError => {}
            fault => return fault,
        }
    }
    ResponseCode::NoError
}

/// Returns the code of a prerequisite: it has no TTL, an owner in the zone, and what it says of the zone is true.
fn prerequisite_code<Z: ZoneRows>(zone: &Z, origin: &Name, prerequisite: &Record) -> ResponseCode
    ensures { result ≡ prerequisite_code origin.now (Z.rows zone.now) prerequisite.now }
{
    if prerequisite.ttl != 0 {
        return ResponseCode::FormErr;
    }
    if !origin.zone_of(&prerequisite.name) {
        return ResponseCode::NotZone;
    }
    test_code(zone, prerequisite)
}

/// Returns the code of what a prerequisite says of the zone. Those of class `IN` are compared as sets.
fn test_code<Z: ZoneRows>(zone: &Z, prerequisite: &Record) -> ResponseCode
    ensures { result ≡ test_code (Z.rows zone.now) prerequisite.now.dns_class prerequisite.now }
{
    match prerequisite.dns_class {
        DNSClass::ANY if has_data(prerequisite) => ResponseCode::FormErr,
        DNSClass::ANY => existence_code(zone, prerequisite),
        DNSClass::NONE if has_data(prerequisite) => ResponseCode::FormErr,
        DNSClass::NONE => absence_code(zone, prerequisite),
        DNSClass::IN => ResponseCode::NoError,
        _ => ResponseCode::FormErr,
    }
}

/// Returns the code of a prerequisite that the name has rows, or rows of the type.
fn existence_code<Z: ZoneRows>(zone: &Z, prerequisite: &Record) -> ResponseCode
    ensures { result ≡ existence_code (Z.rows zone.now) prerequisite.now }
{
    let owner = &prerequisite.name;
    if is_of_type(RecordType::ANY, prerequisite) {
        return fault_if(!zone.has_rows(owner), ResponseCode::NXDomain);
    }
    let is_present = zone.has_set(owner, prerequisite.record_type());
    fault_if(!is_present, ResponseCode::NXRRSet)
}

/// Returns the code of a prerequisite that the name has no rows, or none of the type.
fn absence_code<Z: ZoneRows>(zone: &Z, prerequisite: &Record) -> ResponseCode
    ensures { result ≡ absence_code (Z.rows zone.now) prerequisite.now }
{
    let owner = &prerequisite.name;
    if is_of_type(RecordType::ANY, prerequisite) {
        return fault_if(zone.has_rows(owner), ResponseCode::YXDomain);
    }
    let is_present = zone.has_set(owner, prerequisite.record_type());
    fault_if(is_present, ResponseCode::YXRRSet)
}
