//! Zones, found by their origins (RFC 1034 section 4.3.2 step 2).

ghost use Rattle.std.specs.Prelude.{◌≡◌, ◌<◌, List, [], ◌∷◌, ◌++◌, false, true, length, Some, Err, IfOk, IfSome, OnOk, OnErr};
ghost use Rattle.dns_messages.specs.Sound.{IsSound};
ghost use Rattle.dns_messages.specs.declared.op_code.OpCode.TheVariants as ops;
ghost use Rattle.dns_server.specs.Maintaining.{IsRecordableOf, maintained_by};
ghost use Rattle.dns_server.specs.Server.{IsChangeOf, IsReplyBy, zones_by};
ghost use Rattle.dns_server.specs.Zones.{closest, has_origin, AreServable};
ghost use Rattle.dns_server.specs.internal.ZoneTable.{place_by_key, ArePlacesOf, HaveLabels};
ghost use Rattle.dns_server.specs.declared.server.route.Route.TheVariants as by;
ghost use Rattle.dns_zone.specs.Rows.{ZoneContent};

mod origin_key;

use crate::error::AddZoneError;
use crate::server::maintaining::update_and_reply;
use crate::zone_table::origin_key::OriginKey;
use dns_messages::Message;
use dns_names::Name;
use dns_zone::{Serials, Served, Transport, Zone};
use std::alloc::{AllocError, Global};
use std::collections::BTreeMap;
use std::marker::Model;

/// Zones, of which no two have the same origin, ignoring ASCII case.
///
/// The zone of a name is found in logarithmic time for each label of the name, up to as many as an origin has.
#[derive(Drop)]
pub struct ZoneTable {
    zones: Vec<Zone>,
    /// The places of the zones by their origins.
    places: BTreeMap<OriginKey, usize>,
    /// No origin has more labels.
    most_labels: usize,
}

impl Model for ZoneTable {
    ghost use Rattle.std.specs.Prelude.{List};
    ghost use Rattle.dns_zone.specs.Rows.{ZoneContent};
    ghost use Rattle.dns_server.specs.internal.ZoneTable.{IsTable};
    ghost use Rattle.std.specs.Coded.{codes};
    ghost use Rattle.std.specs.FinMap as rows_map;

    ghost Value = { List ZoneContent };

    ghost coded = { Prim.hlevel (codes, rows_map.code) };

    ghost view = { λ table. table.zones.items };

    ghost invariant = { λ table. IsTable table.zones.items table.places.entries
        table.most_labels };
}

impl ZoneTable {
    /// Creates a table without zones.
    pub(crate) fn new(alloc: Global) -> ZoneTable
        ensures { result ≡ [] }
    {
        ZoneTable {
            zones: Vec::new(alloc),
            places: BTreeMap::new(alloc),
            most_labels: 0,
        }
    }

    /// Returns the zones, in the order in which they were added.
    pub fn as_slice(&self) -> &[Zone]
        ensures zones { result.now ≡ self.now }
        ensures servable { AreServable self.now }
    {
        self.zones.as_slice()
    }

    /// Returns the place of the zone with the closest origin at or above a name: at the name, or else above it.
    pub fn closest(&self, name: &Name) -> Option<usize>
        ensures place { result ≡ closest self.now name.now.labels }
        ensures within { IfSome result (λ place. place < length self.now) }
    {
        closest_by(&self.places, self.most_labels, name)
    }

    /// Adds a zone. An error leaves the table unchanged.
    ///
    /// # Errors
    ///
    /// - [`AddZoneError::Duplicate`] if there is a zone with this origin, ignoring ASCII case, before memory is taken;
    /// - [`AddZoneError::Memory`] if memory is refused.
    pub(crate) fn add(&mut self, zone: Zone) -> Result<(), AddZoneError>
        ensures ok { OnOk result (self.new ≡ self.old ++ zone ∷ []) }
        ensures distinct { OnOk result (has_origin self.old zone.origin.labels ≡ false) }
        ensures err { OnErr result (self.new ≡ self.old) }
        ensures duplicate { result ≡ Err AddZoneError.Duplicate
            → has_origin self.old zone.origin.labels ≡ true }
        ensures decided { has_origin self.old zone.origin.labels ≡ true
            → result ≡ Err AddZoneError.Duplicate }
        ensures servable { AreServable self.new }
    {
        let origin = zone.origin();
        if self.has_zone(origin) {
            return Err(AddZoneError::Duplicate);
        }
        let key = OriginKey::of(origin);
        let count = label_count(origin);
        self.zones.reserve(1)?;
        let place = self.zones.len();
        self.places.insert(key, place)?;
        self.zones.push_reserved(zone);
        self.most_labels = self.most_labels.max(count);
        Ok(())
    }

    /// Returns `true` if a zone has this origin, ignoring ASCII case.
    fn has_zone(&self, origin: &Name) -> bool
        ensures { result ≡ has_origin self.now origin.now.labels }
    {
        place_of(&self.places, &OriginKey::of(origin)).is_some()
    }

    /// Serves a request by the zone at a place. An error leaves the table unchanged.
    pub(crate) fn serve_at(
        &mut self,
        place: usize,
        request: &Message,
        transport: Transport,
    ) -> Result<Served, AllocError>
        requires sound { IsSound request.now }
        requires within { place < length self.old }
        ensures reply { IfOk result (λ served. IsReplyBy self.old (by.Zone place)
            transport request.now served.reply.items) }
        ensures ok { OnOk result (self.new ≡ zones_by self.old request.now (by.Zone place)) }
        ensures change { IfOk result (λ served. IsChangeOf self.old
            (Some (record { place = place; difference = served.change })) self.new) }
        ensures recordable { IfOk result (λ served. IsRecordableOf self.old
            (Some (record { place = place; difference = served.change })) self.new) }
        ensures err { OnErr result (self.new ≡ self.old) }
        ensures servable { AreServable self.new }
    {
        let zone = &mut self.zones[place];
        zone.serve_request(request, transport)
    }

    /// Serves an update by the zone at a place. An error leaves the table unchanged.
    pub(crate) fn update_at(
        &mut self,
        alloc: Global,
        place: usize,
        request: &Message,
        transport: Transport,
        serials: Serials,
    ) -> Result<Served, AllocError>
        requires sound { IsSound request.now }
        requires update { request.now.metadata.op_code ≡ ops.Update }
        requires within { place < length self.old }
        ensures reply { IfOk result (λ served. IsReplyBy self.old (by.Zone place)
            transport request.now served.reply.items) }
        ensures ok { OnOk result
            (self.new ≡ maintained_by serials self.old request.now (by.Zone place)) }
        ensures recordable { IfOk result (λ served. IsRecordableOf self.old
            (Some (record { place = place; difference = served.change })) self.new) }
        ensures err { OnErr result (self.new ≡ self.old) }
        ensures servable { AreServable self.new }
    {
        update_and_reply(alloc, &mut self.zones[place], request, transport, serials)
    }
}

/// Returns the place of the zone with the closest origin at or above a name, by the places of zones and the most labels of their
/// origins: from the root down, the last place that is found.
fn closest_by(places: &BTreeMap<OriginKey, usize>, most_labels: usize, name: &Name) -> Option<usize>
    ensures { (zones : List ZoneContent) → ArePlacesOf places.now.entries zones
        → HaveLabels most_labels zones → result ≡ closest zones name.now.labels }
{
    prove!(name.encoded_len() <= Name::MAX_LENGTH);
    let mut key = OriginKey::root();
    let mut found = place_of(places, &key);
    let mut labels = name.iter();
    for _taken in 0..most_labels {
        let Some(label) = labels.next_back() else {
            return found;
        };
        key.push(label);
        found = place_of(places, &key).or(found);
    }
    found
}

/// Returns the place of the zone with the origin of a key.
fn place_of(places: &BTreeMap<OriginKey, usize>, key: &OriginKey) -> Option<usize>
    ensures { result ≡ place_by_key places.now.entries key.now }
{
    places.get(key).copied()
}

/// Returns the number of labels of a name.
fn label_count(name: &Name) -> usize
    ensures { result ≡ length name.now.labels }
{
    name.iter().len()
}
