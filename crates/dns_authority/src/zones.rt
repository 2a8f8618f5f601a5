//! Which zone a name is in (RFC 1034 section 4.3.2 step 2).

ghost use Rattle.std.specs.Prelude.{◌≡◌, IfOk, option_copied};
ghost use Rattle.dns_authority.specs.Step.{closest_zone, zone_for};

use crate::steps::is_ds;
use dns_names::Name;
use dns_server::ZoneTable;
use dns_wire::RecordType;
use dns_zone::Zone;
use std::alloc::AllocError;

/// Returns the zone of a question: that with the closest origin at or above the name, but for the type DS the closest above it,
/// if there is one (RFC 4035 section 3.1.4.1).
pub(crate) fn zone_for<'a>(
    zones: &'a ZoneTable,
    record_type: RecordType,
    name: &Name,
) -> Result<Option<&'a Zone>, AllocError>
    ensures { IfOk result (λ zone. option_copied zone ≡ zone_for zones.now record_type name.now) }
{
    if !is_ds(record_type) {
        return Ok(closest_zone(zones, name));
    }
    let above = name.base_name()?;
    let zone = closest_zone(zones, &above);
    if zone.is_some() {
        return Ok(zone);
    }
    Ok(closest_zone(zones, name))
}

/// Returns the zone with the closest origin at or above a name.
pub(crate) fn closest_zone<'a>(zones: &'a ZoneTable, name: &Name) -> Option<&'a Zone>
    ensures { option_copied result ≡ closest_zone zones.now name.now.labels }
{
    match zones.closest(name) {
        Some(place) => zones.as_slice().get(place),
        None => None,
    }
}
