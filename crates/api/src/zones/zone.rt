//! Zones of texts, and their texts (RFC 1035 section 5.1).

ghost use Rattle.std.specs.Prelude.{◌≡◌, IfErr, IfOk, string_bytes};
ghost use Rattle.dns_zone.specs.Printed.{IsZoneText};
ghost use Rattle.dns_zone.specs.Rows.{IsZone};
ghost use Rattle.api.specs.zones.Zones.{IsRefused, IsZoneOf};

use crate::buffer::{Refusal, origin_in, text_in};
use dns_zone::{Zone, ZoneFault};
use std::alloc::Global;

/// Returns the zone of a zone file. The origin completes relative names and is the zone's. If its text is empty, relative
/// names end at the root, and the origin is the owner of the first SOA record.
///
/// # Errors
///
/// - [`Refusal::Encoding`] if the text is not UTF-8;
/// - [`Refusal::Name`] if the origin is no name;
/// - [`Refusal::Zone`] if the text is not the zone file of a zone: `zone_report` says why;
/// - [`Refusal::Memory`] if memory is refused.
pub fn read_zone(alloc: Global, text: &[u8], origin: &[u8]) -> Result<Zone, Refusal>
    ensures zone { IfOk result (IsZoneOf origin.now text.now) }
    ensures refused { IfErr result (IsRefused origin.now text.now) }
{
    let text = text_in(text)?;
    let origin = origin_in(alloc, origin)?;
    match Zone::from_text(alloc, text, &[], origin.as_ref()) {
        Ok(zone) => Ok(zone),
        // Memory was refused while the zone was read.
        Err(ZoneFault::Memory) => Err(Refusal::Memory),
        Err(_) => Err(Refusal::Zone),
    }
}

/// Returns the zone as a zone file.
///
/// The error is [`Refusal::Memory`].
pub fn zone_text(zone: &Zone) -> Result<Vec<u8>, Refusal>
    ensures text { IfOk result (λ text. IsZoneText zone.now text.items) }
    ensures refused { IfErr result (λ refusal. refusal ≡ Refusal.Memory) }
{
    match zone.to_text() {
        Ok(text) => Ok(text.into_bytes()),
        // Memory was refused for the text.
        Err(_) => Err(Refusal::Memory),
    }
}
