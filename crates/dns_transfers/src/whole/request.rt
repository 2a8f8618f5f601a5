//! Requests for transfers of zones, and why they are refused (RFC 5936 sections 2.1, 2.2.1 and 4.2).

ghost use Rattle.std.specs.Prelude.{◌≡◌, ◌<◌, true, None, IfSome, option_copied};
ghost use Rattle.dns_messages.specs.Header.{code_number, code_of};
ghost use Rattle.dns_transfers.specs.whole.Request.{asked_by, has_origin, if_transfer, is_transfer, only, refusal, zone_at, zone_of};

use dns_messages::{Message, OpCode, Query, ResponseCode};
use dns_names::Name;
use dns_wire::{DNSClass, RecordType};
use dns_zone::{Transport, Zone};

/// Returns `true` if a request is for a transfer: its only question is for the type AXFR, and its version of EDNS is 0 (RFC 6891
/// section 6.1.3).
pub fn is_transfer(request: &Message) -> bool
    ensures { result ≡ is_transfer request.now }
{
    request.version() == 0 && asks_for_transfer(request)
}

/// Returns `true` if the only question of a query is for the type AXFR.
fn asks_for_transfer(request: &Message) -> bool
    ensures { result ≡ if_transfer (asked_by request.now.metadata.op_code request.now.queries) }
{
    match asked_by(request) {
        Some(query) => query.query_type == RecordType::AXFR,
        None => false,
    }
}

/// Returns the only question of a query.
pub(crate) fn asked_by(request: &Message) -> Option<&Query>
    ensures { option_copied result ≡ asked_by request.now.metadata.op_code request.now.queries }
{
    match request.metadata.op_code {
        OpCode::Query => only(request.queries.as_slice()),
        _ => None,
    }
}

/// Returns a question if there is exactly one.
fn only(queries: &[Query]) -> Option<&Query>
    ensures { option_copied result ≡ only queries.now }
{
    let [query] = queries else {
        return None;
    };
    Some(query)
}

/// Returns the zone of the class `IN` with the name of a question as its origin.
pub(crate) fn zone_at<'a>(zones: &'a [Zone], query: &Query) -> Option<&'a Zone>
    ensures { option_copied result ≡ zone_at zones.now query.now }
{
    if query.query_class != DNSClass::IN {
        return None;
    }
    zone_of(zones, &query.name)
}

/// Returns the zone with an origin.
fn zone_of<'a>(zones: &'a [Zone], origin: &Name) -> Option<&'a Zone>
    ensures { option_copied result ≡ zone_of zones.now origin.now }
{
    zones.iter().find(|zone| has_origin(zone, origin))
}

/// Returns `true` if a zone has this origin, ignoring ASCII case.
fn has_origin(zone: &Zone, origin: &Name) -> bool
    ensures { result ≡ has_origin origin.now zone.now }
{
    zone.origin().eq_ignore_root(origin)
}

/// Returns why a transfer is refused.
pub(crate) fn refusal(
    transport: &Transport,
    is_permitted: bool,
    is_known: bool,
) -> Option<ResponseCode>
    ensures value { result ≡ refusal transport.now is_permitted is_known }
    ensures code { IfSome result (λ code.
        (code_number code < 16) × (code_of (code_number code) ≡ code)) }
    ensures known { result ≡ None → is_known ≡ true }
{
    let Transport::Stream = transport else {
        return Some(ResponseCode::FormErr);
    };
    if !is_known {
        return Some(ResponseCode::NotAuth);
    }
    if !is_permitted {
        return Some(ResponseCode::Refused);
    }
    None
}
