//! Zones of zone files (RFC 1035 section 5.2).

ghost use Rattle.std.specs.Prelude.{◌≡◌, ◌≢◌, ◌&&◌, not, true, option_copied, IfOk, IfErr, IfSome, Ok, Err, Some, None};
ghost use Rattle.std.specs.List.{list_any, AllByRecursion};
ghost use Rattle.dns_names.specs.Print.{AreOctets};
ghost use Rattle.dns_zone_file.specs.Parsed.{IsParsedSet, AreDistinctSets};
ghost use Rattle.dns_zone_file.specs.Parsing.{HasRecords};
ghost use Rattle.dns_zone_file.specs.Printed.{IsValidName};
ghost use Rattle.dns_zone_file.specs.internal.Parsing.{includes_view};
ghost use Rattle.dns_zone.specs.Load.{ReadsZone, ReadsZoneIn, zone_origin, is_internet, is_inside, is_soa, is_apex, has_long_data, fault_at, fault_of};
ghost use Rattle.dns_zone.specs.Printed.{is_start, IsPrintable};
ghost use Rattle.dns_zone.specs.Rows.{HasNoEmptySet, IsZone, rows_of_sets};

use crate::sets::ZoneSets;
use crate::zone::{Zone, ZoneFault};
use dns_names::Name;
use dns_records::RecordSet;
use dns_wire::{DNSClass, RecordType};
use dns_zone_file::laws::parsed_sets_have_records;
use dns_zone_file::{Parser, RecordSets, Types, ZoneFileError, ZoneRecords};
use std::alloc::{AllocError, Global};

/// The greatest length of data that can be encoded (RFC 1035 section 3.2.1).
const MAX_DATA_LENGTH: u128 = 65_535;

impl Zone {
    /// Parses a zone file of the types that have fields, [`Types::Nine`]. Each pair of `includes` is a name, as `$INCLUDE` states it, and the text that it stands for. The
    /// origin completes relative names and is the zone's. Without it relative names end at the root, and the zone's origin is
    /// the owner of the first SOA record.
    ///
    /// The records must be of the class `IN`, at or below the origin, and have an SOA record at the origin and nowhere else.
    pub fn from_text(
        alloc: Global,
        text: &str,
        includes: &[(String, String)],
        origin: Option<&Name>,
    ) -> Result<Zone, ZoneFault>
        ensures ok { IfOk result (λ zone. ReadsZone
            (includes_view includes.now) (option_copied origin.entry) text.now (Ok zone)) }
        ensures refused { IfErr result (λ fault. fault ≢ ZoneFault.Memory → ReadsZone
            (includes_view includes.now) (option_copied origin.entry) text.now (Err fault)) }
        ensures well_formed { IfOk result IsZone }
        ensures filled { IfOk result (λ zone. HasNoEmptySet zone.rows) }
        ensures printable { IfOk result IsPrintable }
    {
        Zone::from_text_with(alloc, text, includes, origin, Types::Nine)
    }

    /// Parses a zone file, as [`from_text`](Zone::from_text) does, which may have the types that `types` says. Data of other
    /// types than those with fields is kept as its bytes.
    pub fn from_text_with(
        alloc: Global,
        text: &str,
        includes: &[(String, String)],
        origin: Option<&Name>,
        types: Types,
    ) -> Result<Zone, ZoneFault>
        ensures ok { IfOk result (λ zone. ReadsZoneIn types
            (includes_view includes.now) (option_copied origin.entry) text.now (Ok zone)) }
        ensures refused { IfErr result (λ fault. fault ≢ ZoneFault.Memory → ReadsZoneIn types
            (includes_view includes.now) (option_copied origin.entry) text.now (Err fault)) }
        ensures well_formed { IfOk result IsZone }
        ensures filled { IfOk result (λ zone. HasNoEmptySet zone.rows) }
        ensures printable { types ≡ Types.Nine → IfOk result IsPrintable }
    {
        parsed_sets_have_records();
        texts_are_octets(includes);
        origin_is_valid(origin);
        let records = parse_records(alloc, text, includes, origin, types)?;
        let origin = zone_origin(origin, records.soa_owner)?;
        zone_of(alloc, origin, records.sets)
    }
}

/// Proves that texts to include consist of octets; nothing is computed.
fn texts_are_octets(includes: &[(String, String)])
    ensures { AllByRecursion (λ i. AreOctets i.1) (includes_view includes.now) }
{
    for (_, text) in includes {
        bytes_are_octets(text.as_str().as_bytes());
    }
}

/// Proves that an origin is a valid name, if there is one; nothing is computed.
fn origin_is_valid(origin: Option<&Name>)
    ensures { IfSome (option_copied origin.entry) IsValidName }
{
    if let Some(origin) = origin {
        name_is_valid(origin);
    }
}

/// Proves that a name is valid; nothing is computed.
fn name_is_valid(name: &Name)
    ensures { IsValidName name.now }
{
    let _ = name.encoded_len();
    for label in name.iter() {
        bytes_are_octets(label);
    }
}

/// Proves that bytes are octets; nothing is computed.
fn bytes_are_octets(_bytes: &[u8])
    ensures { AreOctets _bytes.now }
{}

/// Copies a name, if there is one.
fn copy_of(name: Option<&Name>) -> Result<Option<Name>, AllocError>
    ensures { IfOk result (λ copy. copy ≡ option_copied name.entry) }
{
    match name {
        Some(name) => Ok(Some(name.clone()?)),
        None => Ok(None),
    }
}

/// Parses the records of a zone file.
fn parse_records(
    alloc: Global,
    text: &str,
    includes: &[(String, String)],
    origin: Option<&Name>,
    types: Types,
) -> Result<ZoneRecords, ZoneFault>
    ensures ok { IfOk result (HasRecords (record {
      text = text.now;
      includes = includes_view includes.now;
      origin = option_copied origin.entry;
      types = types;
    })) }
    ensures refused { IfErr result (λ fault. fault ≢ ZoneFault.Memory → ReadsZoneIn types
        (includes_view includes.now) (option_copied origin.entry) text.now (Err fault)) }
{
    let origin = copy_of(origin)?;
    match Parser::with_types(text, includes, origin, types).parse(alloc) {
        Ok(records) => Ok(records),
        // Memory was refused while the text was parsed.
        Err(ZoneFileError::Memory) => Err(ZoneFault::Memory),
        Err(error) => Err(ZoneFault::Parse(error)),
    }
}

/// Returns the origin of a zone: the one that is given, fully qualified, or else the owner of an SOA record.
fn zone_origin(origin: Option<&Name>, soa_owner: Option<Name>) -> Result<Option<Name>, AllocError>
    ensures { IfOk result (λ found. found ≡ zone_origin (option_copied origin.entry) soa_owner) }
{
    match origin {
        Some(origin) => {
            let mut origin = origin.clone()?;
            origin.set_fqdn(true);
            Ok(Some(origin))
        }
        None => Ok(soa_owner),
    }
}

/// Returns the zone of record sets, or their first fault.
fn zone_of(alloc: Global, origin: Option<Name>, sets: RecordSets) -> Result<Zone, ZoneFault>
    requires origin { IfSome origin (λ o. o.is_fqdn ≡ true) }
    requires sets { AllByRecursion IsParsedSet sets }
    requires distinct { AreDistinctSets sets }
    ensures origin { IfOk result (λ zone. origin ≡ Some zone.origin) }
    ensures rows { IfOk result (λ zone. zone.rows ≡ rows_of_sets sets) }
    ensures faultless { IfOk result (λ _. fault_of origin sets ≡ None) }
    ensures refused { IfErr result (λ fault. fault ≢ ZoneFault.Memory
        → fault_of origin sets ≡ Some fault) }
    ensures well_formed { IfOk result IsZone }
    ensures filled { IfOk result (λ zone. HasNoEmptySet zone.rows) }
{
    if let Some(fault) = fault_of(origin.as_ref(), sets.as_slice()) {
        return Err(fault);
    }
    let Some(origin) = origin else {
        unreachable!();
    };
    let sets = ZoneSets::from_vec(alloc, sets.into_vec())?;
    Ok(Zone {
        origin,
        sets,
        alloc,
    })
}

/// Returns the first fault of record sets, by kind. Without an origin nothing is outside, and the SOA record is missing.
fn fault_of(origin: Option<&Name>, sets: &[RecordSet]) -> Option<ZoneFault>
    ensures { result ≡ fault_of (option_copied origin.entry) sets.now }
{
    if has_other_class(sets) {
        return Some(ZoneFault::NotInternet);
    }
    match origin {
        Some(origin) => fault_at(origin, sets),
        None => Some(ZoneFault::NoSoa),
    }
}

/// Returns the first fault of record sets at an origin, by kind.
fn fault_at(origin: &Name, sets: &[RecordSet]) -> Option<ZoneFault>
    ensures { result ≡ fault_at origin.now sets.now }
{
    if has_owner_outside(origin, sets) {
        return Some(ZoneFault::OutsideOrigin);
    }
    if !has_soa_at(origin, sets) {
        return Some(ZoneFault::NoSoa);
    }
    if has_soa_elsewhere(origin, sets) {
        return Some(ZoneFault::SoaElsewhere);
    }
    if has_set_of_long_data(sets) {
        return Some(ZoneFault::DataTooLong);
    }
    None
}

/// Returns `true` if some set has another class than `IN`.
fn has_other_class(sets: &[RecordSet]) -> bool
    ensures { result ≡ list_any (λ s. not (is_internet s)) sets.now }
{
    sets.iter().any(|set| set.dns_class() != DNSClass::IN)
}

/// Returns `true` if some owner is not at or below the origin.
fn has_owner_outside(origin: &Name, sets: &[RecordSet]) -> bool
    ensures { result ≡ list_any (λ s. not (is_inside origin.now s)) sets.now }
{
    sets.iter().any(|set| !origin.zone_of(set.name()))
}

/// Returns `true` if a set has SOA records.
fn is_soa(set: &RecordSet) -> bool
    ensures { result ≡ is_soa set.now }
{
    set.record_type() == RecordType::SOA
}

/// Returns `true` if a set has the SOA record of the origin.
fn is_start(origin: &Name, set: &RecordSet) -> bool
    ensures { result ≡ is_start origin.now set.now }
{
    is_soa(set) && origin.eq_ignore_root(set.name())
}

/// Returns `true` if the origin has an SOA record.
fn has_soa_at(origin: &Name, sets: &[RecordSet]) -> bool
    ensures { result ≡ list_any (λ s. is_soa s && is_apex origin.now s) sets.now }
{
    sets.iter().any(|set| is_start(origin, set))
}

/// Returns `true` if another name than the origin has an SOA record.
fn has_soa_elsewhere(origin: &Name, sets: &[RecordSet]) -> bool
    ensures { result ≡ list_any (λ s. is_soa s && not (is_apex origin.now s)) sets.now }
{
    sets.iter()
        .any(|set| is_soa(set) && !origin.eq_ignore_root(set.name()))
}

/// Returns `true` if some data of a set is too long to be encoded.
fn has_long_data(set: &RecordSet) -> bool
    ensures { result ≡ has_long_data set.now }
{
    set.as_slice()
        .iter()
        .any(|record| record.rdata.encoded_len() > MAX_DATA_LENGTH)
}

/// Returns `true` if some data is too long to be encoded.
fn has_set_of_long_data(sets: &[RecordSet]) -> bool
    ensures { result ≡ list_any has_long_data sets.now }
{
    sets.iter().any(|set| has_long_data(set))
}
