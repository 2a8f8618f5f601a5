//! Servers of zones, and their replies to requests (RFC 1034 section 4.3.2, RFC 2136 section 3).

ghost use Rattle.std.specs.Prelude.{◌≡◌, ◌<◌, [], ◌∷◌, ◌++◌, false, true, length, None, Some, Ok, Err, IfOk, OnOk, OnErr, option_map};
ghost use Rattle.dns_messages.specs.Sound.{IsSound};
ghost use Rattle.dns_zone.specs.Serving.{has_query_header};
ghost use Rattle.dns_server.specs.Zones.{has_origin, AreServable};
ghost use Rattle.dns_server.specs.Maintaining.{IsRecordableOf};
ghost use Rattle.dns_server.specs.Server.{IsChangeOf, IsReplyBy, Responds, zones_after, zones_by, route};
ghost use Rattle.dns_server.specs.declared.server.route.Route.TheVariants as by;

pub(crate) mod maintaining;
mod route;
mod set_ttls;

use crate::error::AddZoneError;
use crate::server::route::{Route, route_of};
use crate::updates::Updates;
use crate::zone_table::ZoneTable;
use dns_differences::Difference;
use dns_messages::Message;
use dns_zone::{Transport, Zone, bare_reply_bytes, decode_request};
use std::alloc::{AllocError, Global};
use std::marker::Model;

/// A server of zones. No two zones have the same origin, ignoring ASCII case.
#[derive(Drop)]
pub struct Server {
    alloc: Global,
    zones: ZoneTable,
}

/// What a request has led to.
#[derive(Drop)]
pub struct Served {
    /// The bytes of the reply.
    pub reply: Vec<u8>,
    /// The change of the zone that has served it, or `None` if no zone has.
    pub change: Option<ZoneChange>,
}

/// The change of a zone.
#[derive(Drop)]
pub struct ZoneChange {
    /// The place of the zone among those of the server.
    pub place: usize,
    /// The records that the zone has lost, and those that it has gained.
    pub difference: Difference,
}

impl Model for Server {
    ghost use Rattle.std.specs.Prelude.{List};
    ghost use Rattle.dns_zone.specs.Rows.{ZoneContent};
    ghost use Rattle.std.specs.Coded.{codes};
    ghost use Rattle.std.specs.FinMap as rows_map;

    ghost Value = { List ZoneContent };

    ghost coded = { Prim.hlevel (codes, rows_map.code) };

    ghost view = { λ server. server.zones };
}

impl Server {
    /// Creates a server without zones.
    pub fn new(alloc: Global) -> Server
        ensures { result ≡ [] }
    {
        Server {
            alloc,
            zones: ZoneTable::new(alloc),
        }
    }

    /// Returns the zones, in the order in which they were added.
    pub fn zones(&self) -> &[Zone]
        ensures zones { result.now ≡ self.now }
        ensures servable { AreServable self.now }
    {
        self.zones.as_slice()
    }

    /// Returns the zones as a table, which finds them by their origins.
    pub fn table(&self) -> &ZoneTable
        ensures { result.now ≡ self.now }
    {
        &self.zones
    }

    /// Adds a zone. An error leaves the server unchanged.
    ///
    /// # Errors
    ///
    /// - [`AddZoneError::Duplicate`] if there is a zone with this origin, ignoring ASCII case, before memory is taken;
    /// - [`AddZoneError::Memory`] if memory is refused.
    pub fn add_zone(&mut self, zone: Zone) -> Result<(), AddZoneError>
        ensures ok { OnOk result (self.new ≡ self.old ++ zone ∷ []) }
        ensures distinct { OnOk result (has_origin self.old zone.origin.labels ≡ false) }
        ensures err { OnErr result (self.new ≡ self.old) }
        ensures duplicate { result ≡ Err AddZoneError.Duplicate
            → has_origin self.old zone.origin.labels ≡ true }
        ensures decided { has_origin self.old zone.origin.labels ≡ true
            → result ≡ Err AddZoneError.Duplicate }
        ensures servable { AreServable self.new }
    {
        self.zones.add(zone)
    }

    /// Serves a request: returns its reply, or `None` if the bytes do not decode or are a response. Bytes that do not begin
    /// with the header of a query are dropped before memory is taken.
    ///
    /// The reply is that of the zone with the closest origin at or above the name of the question (RFC 1034 section 4.3.2
    /// step 2), or, for an update, at or above the name of its zone section (RFC 2136 section 3.1.1). Without such a zone, and
    /// for an update that is not allowed, it is `Refused`. Only an update with the response code `NoError` changes a zone, and
    /// it changes no other. An error leaves the server unchanged.
    pub fn respond(
        &mut self,
        request: &[u8],
        transport: Transport,
        updates: Updates,
    ) -> Result<Option<Vec<u8>>, AllocError>
        ensures reply { IfOk result (λ reply. Responds self.old transport updates request.now
            (option_map (λ out. out.items) reply) self.new) }
        ensures err { OnErr result (self.new ≡ self.old) }
        ensures header { has_query_header request.now ≡ false → result ≡ Ok None }
        ensures servable { AreServable self.new }
    {
        self.servable();
        match decode_request(self.alloc, request)? {
            Some(message) => Ok(Some(self.respond_to(&message, transport, updates)?)),
            None => Ok(None),
        }
    }

    /// Serves a request that is decoded. An error leaves the server unchanged.
    pub fn respond_to(
        &mut self,
        request: &Message,
        transport: Transport,
        updates: Updates,
    ) -> Result<Vec<u8>, AllocError>
        requires { IsSound request.now }
        ensures reply { IfOk result (λ out. IsReplyBy self.old (route updates self.old request.now)
            transport request.now out.items) }
        ensures ok { OnOk result (self.new ≡ zones_after updates self.old request.now) }
        ensures err { OnErr result (self.new ≡ self.old) }
        ensures servable { AreServable self.new }
    {
        let served = self.serve(request, transport, updates)?;
        Ok(served.reply)
    }

    /// Serves a request that is decoded as [`respond_to`](Server::respond_to) does, and returns its reply and what it has changed.
    pub fn serve(
        &mut self,
        request: &Message,
        transport: Transport,
        updates: Updates,
    ) -> Result<Served, AllocError>
        requires { IsSound request.now }
        ensures reply { IfOk result (λ served. IsReplyBy self.old
            (route updates self.old request.now) transport request.now served.reply.items) }
        ensures ok { OnOk result (self.new ≡ zones_after updates self.old request.now) }
        ensures change { IfOk result (λ served. IsChangeOf self.old served.change self.new) }
        ensures recordable { IfOk result (λ served.
            IsRecordableOf self.old served.change self.new) }
        ensures err { OnErr result (self.new ≡ self.old) }
        ensures servable { AreServable self.new }
    {
        self.servable();
        match route_of(&self.zones, request, updates) {
            Route::Zone(place) => {
                let served = self.zones.serve_at(place, request, transport)?;
                Ok(Served {
                    reply: served.reply,
                    change: Some(ZoneChange {
                        place,
                        difference: served.change,
                    }),
                })
            }
            Route::Code(code) => {
                let reply = bare_reply_bytes(self.alloc, request, code, transport)?;
                Ok(Served {
                    reply,
                    change: None,
                })
            }
        }
    }

    /// Proves that the zones can be served; nothing is computed.
    fn servable(&self)
        ensures { AreServable self.now }
    {
        let _zones = self.zones();
    }
}
