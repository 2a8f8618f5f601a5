//! Which zone a request is for (RFC 1034 section 4.3.2 step 2, RFC 2136 section 3.1.1).

ghost use Rattle.std.specs.Prelude.{◌≡◌};
ghost use Rattle.dns_server.specs.Server.{route, route_by_name, IsRouteOf};

use crate::updates::Updates;
use crate::zone_table::ZoneTable;
use dns_messages::{Message, OpCode, Query, ResponseCode};

/// What decides the reply to a request.
#[derive(Clone, Copy, Debug, PartialEq, Eq)]
pub(crate) enum Route {
    /// The zone at this place.
    Zone(usize),
    /// No zone: the response code.
    Code(ResponseCode),
}

/// Returns what decides the reply to a request.
pub(crate) fn route_of(zones: &ZoneTable, request: &Message, updates: Updates) -> Route
    ensures route { result ≡ route updates zones.now request.now }
    ensures sound { IsRouteOf zones.now result }
{
    match request.metadata.op_code {
        OpCode::Query => route_by_name(zones, request.queries.as_slice()),
        OpCode::Update => match updates {
            Updates::Allowed => route_by_name(zones, request.queries.as_slice()),
            Updates::Refused => Route::Code(ResponseCode::Refused),
        },
        _ => Route::Code(ResponseCode::NotImp),
    }
}

/// Returns what decides the reply to a request with these questions.
fn route_by_name(zones: &ZoneTable, queries: &[Query]) -> Route
    ensures route { result ≡ route_by_name zones.now queries.now }
    ensures sound { IsRouteOf zones.now result }
{
    let [query] = queries else {
        return Route::Code(ResponseCode::FormErr);
    };
    match zones.closest(&query.name) {
        Some(place) => Route::Zone(place),
        None => Route::Code(ResponseCode::Refused),
    }
}
