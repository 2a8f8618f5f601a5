//! Requests for incremental transfers (RFC 1995 section 3).

ghost use Rattle.std.specs.Prelude.{◌≡◌, ◌≤◌, length, IfSome, option_copied};
ghost use Rattle.dns_transfers.specs.whole.Request.{has_origin, zone_at, zone_of};
ghost use Rattle.dns_transfers.specs.replies.Request.{if_incremental, incremental_of, incremental_question};

use dns_messages::{Message, OpCode, Query};
use dns_names::Name;
use dns_wire::{DNSClass, RecordType};
use dns_zone::Zone;

/// Returns the question of a request for an incremental transfer: the only one of a query, of the type IXFR, without a version of EDNS
/// above 0 (RFC 6891 section 6.1.3). Other requests have none.
pub(crate) fn incremental_question(request: &Message) -> Option<&Query>
    ensures value { option_copied result ≡ incremental_question request.now }
    ensures few { IfSome result (λ _. length request.now.queries ≤ 1) }
{
    if request.version() != 0 {
        return None;
    }
    match request.metadata.op_code {
        OpCode::Query => incremental_of(request.queries.as_slice()),
        _ => None,
    }
}

/// Returns a question for an incremental transfer if it is the only one.
fn incremental_of(queries: &[Query]) -> Option<&Query>
    ensures value { option_copied result ≡ incremental_of queries.now }
    ensures few { IfSome result (λ _. length queries.now ≤ 1) }
{
    match queries {
        [query] => if_incremental(query),
        _ => None,
    }
}

/// Returns a question if it is for an incremental transfer.
fn if_incremental(query: &Query) -> Option<&Query>
    ensures { option_copied result ≡ if_incremental query.now }
{
    if query.query_type == RecordType::IXFR {
        Some(query)
    } else {
        None
    }
}

/// Returns the zone of the class `IN` with the name of a question as its origin.
pub(crate) fn zone_at<'a>(zones: &'a [Zone], query: &Query) -> Option<&'a Zone>
    ensures { option_copied result ≡ zone_at zones.now query.now }
{
    if query.query_class != DNSClass::IN {
        return None;
    }
    zone_of(zones, &query.name)
}

/// Returns the zone with an origin.
fn zone_of<'a>(zones: &'a [Zone], origin: &Name) -> Option<&'a Zone>
    ensures { option_copied result ≡ zone_of zones.now origin.now }
{
    zones.iter().find(|zone| has_origin(zone, origin))
}

/// Returns `true` if a zone has this origin, ignoring ASCII case.
fn has_origin(zone: &Zone, origin: &Name) -> bool
    ensures { result ≡ has_origin origin.now zone.now }
{
    zone.origin().eq_ignore_root(origin)
}
