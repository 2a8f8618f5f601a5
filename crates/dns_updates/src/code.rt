//! The response code of an update (RFC 2136 sections 3.1, 3.2 and 3.4.1).

ghost use Rattle.std.specs.Prelude.{◌≡◌};
ghost use Rattle.dns_updates.specs.Code.{fault_if, update_code};

mod data_sets;
mod prerequisites;
mod prescan;
mod required_data;
mod required_groups;
mod required_sets;
mod zone_section;

use crate::zone_rows::ZoneRows;
use dns_messages::{Message, ResponseCode};
use dns_names::Name;
use prerequisites::prerequisites_code;
use prescan::updates_code;
use required_sets::sets_code;
use std::alloc::Global;
use zone_section::zone_code;

/// Returns the response code of an update of the zone with an origin: that of the first fault of its zone section, its
/// prerequisites, the sets that these require, and its updates, or `NoError`.
///
/// Memory is taken for an index of the data that many prerequisites require, if it can be had. Refused memory only makes
/// it slower.
pub fn update_code<Z: ZoneRows>(
    alloc: Global,
    zone: &Z,
    origin: &Name,
    message: &Message,
) -> ResponseCode
    ensures { result ≡ update_code origin.now (Z.rows zone.now) message.now }
{
    match zone_code(origin, message.queries.as_slice()) {
        ResponseCode::NoError => {}
        fault => return fault,
    }
    let prerequisites = message.answers.as_slice();
    match prerequisites_code(zone, origin, prerequisites) {
        ResponseCode::NoError => {}
        fault => return fault,
    }
    match sets_code(alloc, zone, prerequisites) {
        ResponseCode::NoError => updates_code(origin, message.authorities.as_slice()),
        fault => fault,
    }
}

/// Returns the fault if the test holds, and else `NoError`.
fn fault_if(test: bool, fault: ResponseCode) -> ResponseCode
    ensures { result ≡ fault_if test fault }
{
    if test { fault } else { ResponseCode::NoError }
}
