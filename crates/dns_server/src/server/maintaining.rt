//! Updates of a server that keeps what RFC 2136 leaves to it.

ghost use Rattle.std.specs.Prelude.{◌≡◌, ◌<◌, Some, length, IfOk, OnErr, OnOk};
ghost use Rattle.dns_messages.specs.Sound.{IsSound};
ghost use Rattle.dns_messages.specs.declared.op_code.OpCode.TheVariants as ops;
ghost use Rattle.dns_server.specs.Maintaining.{IsRecordableOf, adds_formatted_data, fit_if, is_formatted, is_formatted_if_added, maintained_as, maintained_by, update_route, update_route_by_name, update_route_to, zones_maintained};
ghost use Rattle.dns_server.specs.Server.{IsReplyBy, IsRouteOf};
ghost use Rattle.dns_server.specs.Zones.{AreServable};
ghost use Rattle.dns_server.specs.declared.server.route.Route.TheVariants as by;
ghost use Rattle.dns_zone.specs.Rows.{IsZone};
ghost use Rattle.dns_zone.specs.Serving.{IsReplyTo};
ghost use Rattle.dns_zone.specs.Maintained.{IsRecordable};
ghost use Rattle.dns_updates.specs.Code.{update_code};
ghost use Rattle.dns_formats.specs.Field.{fields_of};
ghost use Rattle.dns_wire.specs.codes.RecordType.{type_number};

use crate::server::route::Route;
use crate::server::set_ttls::completed;
use crate::server::{Served, Server, ZoneChange};
use crate::zone_table::ZoneTable;
use dns_data::RData;
use dns_formats::{fits, format_of};
use dns_messages::{Message, Query, ResponseCode};
use dns_records::Record;
use dns_wire::codes::DNSClass;
use dns_zone::{Applied, Serials, Transport, Zone, bare_reply_bytes};
use std::alloc::{AllocError, Global};

impl Server {
    /// Serves an update that is allowed and decoded (RFC 2136 section 3), and returns its reply and what it has changed.
    ///
    /// It is answered with `FormErr` if data that it adds does not have the format of its type, and with `NotAuth` if no zone is at
    /// or above the name of its zone section. The records of a set have one TTL, the one that an update adds last (RFC 2181 section
    /// 5.2). With [`Serials::Rising`], a change raises the serial number of the zone by one, unless the update has raised it
    /// (section 3.6).
    ///
    /// An error leaves the server unchanged.
    pub fn update(
        &mut self,
        request: &Message,
        transport: Transport,
        serials: Serials,
    ) -> Result<Served, AllocError>
        requires sound { IsSound request.now }
        requires update { request.now.metadata.op_code ≡ ops.Update }
        ensures reply { IfOk result (λ served. IsReplyBy self.old
            (update_route self.old request.now) transport request.now served.reply.items) }
        ensures ok { OnOk result (self.new ≡ zones_maintained serials self.old request.now) }
        ensures recordable { IfOk result (λ served.
            IsRecordableOf self.old served.change self.new) }
        ensures err { OnErr result (self.new ≡ self.old) }
        ensures servable { AreServable self.new }
    {
        self.servable();
        match update_route_of(&self.zones, request) {
            Route::Zone(place) => {
                let served = self
                    .zones
                    .update_at(self.alloc, place, request, transport, serials)?;
                Ok(Served {
                    reply: served.reply,
                    change: Some(ZoneChange {
                        place,
                        difference: served.change,
                    }),
                })
            }
            Route::Code(code) => {
                let reply = bare_reply_bytes(self.alloc, request, code, transport)?;
                Ok(Served {
                    reply,
                    change: None,
                })
            }
        }
    }
}

/// Serves an update by a zone. The reply is encoded before the change.
pub(crate) fn update_and_reply(
    alloc: Global,
    zone: &mut Zone,
    request: &Message,
    transport: Transport,
    serials: Serials,
) -> Result<dns_zone::Served, AllocError>
    requires { IsSound request.now }
    ensures reply { IfOk result (λ served.
        IsReplyTo zone.old transport request.now served.reply.items) }
    ensures ok { OnOk result (zone.new ≡ maintained_as serials zone.old request.now) }
    ensures change { IfOk result (λ served.
        IsRecordable zone.old.rows zone.new.rows served.change) }
    ensures err { OnErr result (zone.new ≡ zone.old) }
    ensures well_formed { IsZone zone.new }
{
    // It is well formed.
    let _origin = zone.origin();
    let reply = zone.reply_bytes(request, transport)?;
    let applied = apply(alloc, zone, request, serials)?;
    Ok(dns_zone::Served {
        reply,
        change: applied.change,
    })
}

/// Applies an update to a zone, so that each set has one TTL, and returns the response code of the update and what has changed.
fn apply(
    alloc: Global,
    zone: &mut Zone,
    update: &Message,
    serials: Serials,
) -> Result<Applied, AllocError>
    requires { IsSound update.now }
    ensures code { IfOk result (λ applied.
        applied.code ≡ update_code zone.old.origin zone.old.rows update.now) }
    ensures ok { OnOk result (zone.new ≡ maintained_as serials zone.old update.now) }
    ensures change { IfOk result (λ applied.
        IsRecordable zone.old.rows zone.new.rows applied.change) }
    ensures err { OnErr result (zone.new ≡ zone.old) }
    ensures well_formed { IsZone zone.new }
{
    // It is well formed.
    let _origin = zone.origin();
    match completed(alloc, zone, update)? {
        Some(message) => zone.update_with(&message, serials),
        None => zone.update_with(update, serials),
    }
}

/// Returns what decides the reply to an update.
fn update_route_of(zones: &ZoneTable, request: &Message) -> Route
    ensures route { result ≡ update_route zones.now request.now }
    ensures sound { IsRouteOf zones.now result }
{
    if adds_formatted_data(request) {
        update_route_by_name(zones, request.queries.as_slice())
    } else {
        Route::Code(ResponseCode::FormErr)
    }
}

/// Returns what decides the reply to an update with this zone section.
fn update_route_by_name(zones: &ZoneTable, queries: &[Query]) -> Route
    ensures route { result ≡ update_route_by_name zones.now queries.now }
    ensures sound { IsRouteOf zones.now result }
{
    let [query] = queries else {
        return Route::Code(ResponseCode::FormErr);
    };
    match zones.closest(&query.name) {
        Some(place) => Route::Zone(place),
        None => Route::Code(ResponseCode::NotAuth),
    }
}

/// Returns `true` if all data that an update adds has the format of its type, where that is known.
fn adds_formatted_data(request: &Message) -> bool
    ensures { result ≡ adds_formatted_data request.now }
{
    request
        .authorities
        .as_slice()
        .iter()
        .all(is_formatted_if_added)
}

/// Returns `true` if a record of an update section is no addition, or its data has the format of its type.
fn is_formatted_if_added(change: &Record) -> bool
    ensures { result ≡ is_formatted_if_added change.now }
{
    match change.dns_class {
        DNSClass::IN => is_formatted(&change.rdata),
        _ => true,
    }
}

/// Returns `true` if data has the format of its type, where that is known (RFC 3597 section 4).
fn is_formatted(rdata: &RData) -> bool
    ensures { result ≡ is_formatted rdata.now }
{
    match rdata {
        RData::Unknown { code, rdata } => match format_of(*code) {
            Some(fields) => fits(fields, rdata.as_slice()),
            None => true,
        },
        _ => true,
    }
}
