//! The zone section of an update (RFC 2136 section 3.1.1).

ghost use Rattle.std.specs.Prelude.{◌≡◌, ◌&&◌, not};
ghost use Rattle.dns_wire.specs.declared.codes.record_type.RecordType.TheVariants as types;
ghost use Rattle.dns_messages.specs.declared.response_code.ResponseCode.TheVariants.{FormErr, NotAuth};
ghost use Rattle.dns_updates.specs.Records.{is_type, is_origin, is_in_class};
ghost use Rattle.dns_updates.specs.Code.{first_fault, fault_if, zone_code};

use crate::code::fault_if;
use crate::record_tests::is_in_class;
use dns_messages::{Query, ResponseCode};
use dns_names::Name;
use dns_wire::RecordType;

/// Returns the code of the zone section: it has one entry, of type `SOA`, for the zone and its class.
pub fn zone_code(origin: &Name, zones: &[Query]) -> ResponseCode
    ensures { result ≡ zone_code origin.now zones.now }
{
    match zones {
        [zone] => entry_code(origin, zone),
        _ => ResponseCode::FormErr,
    }
}

/// Returns the code of the entry.
fn entry_code(origin: &Name, zone: &Query) -> ResponseCode
    ensures { result ≡ first_fault
        (fault_if (not (is_type types.SOA zone.now.query_type)) FormErr)
        (fault_if (not (is_origin origin.now zone.now.name && is_in_class zone.now.query_class))
        NotAuth) }
{
    if zone.query_type != RecordType::SOA {
        return ResponseCode::FormErr;
    }
    let is_zone = origin.eq_ignore_root(&zone.name) && is_in_class(zone.query_class);
    fault_if(!is_zone, ResponseCode::NotAuth)
}
