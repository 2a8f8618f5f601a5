//! The differences that are known of zones (RFC 1995 section 5).

ghost use Rattle.std.specs.Prelude.{◌≡◌, [], option_copied};
ghost use Rattle.dns_differences.specs.History.{since};
ghost use Rattle.dns_transfers.specs.replies.ZoneHistory.{history_of, is_history_of, known_differences};

use dns_differences::{Difference, History};
use dns_names::Name;
use dns_wire::codes::{SerialNumber, SerialOrder};

/// The last differences of the zone with an origin.
#[derive(Drop)]
pub struct ZoneHistory {
    /// The origin of the zone.
    pub origin: Name,
    /// Its last differences.
    pub history: History,
}

/// Returns what a client with a serial number lacks of the zone with an origin and the serial number `current`: the differences that
/// lead to it, or none if the client has this version or a later one (RFC 1995 section 2). Returns `None` if they are not known.
pub(crate) fn lacking<'a>(
    histories: &'a [ZoneHistory],
    origin: &Name,
    current: u32,
    serial: u32,
) -> Option<&'a [Difference]>
    ensures { option_copied result
        ≡ since (known_differences histories.now origin.now) current serial }
{
    match history_of(histories, origin) {
        Some(known) => known.history.since(current, serial),
        None => since_unknown(current, serial),
    }
}

/// Returns what a client with a serial number lacks if no differences are known.
fn since_unknown<'a>(current: u32, serial: u32) -> Option<&'a [Difference]>
    ensures { option_copied result ≡ since [] current serial }
{
    match SerialNumber::new(serial).compare(SerialNumber::new(current)) {
        SerialOrder::Equal | SerialOrder::Greater => Some(&[]),
        SerialOrder::Less | SerialOrder::Undecided => None,
    }
}

/// Returns the history of the zone with an origin.
fn history_of<'a>(histories: &'a [ZoneHistory], origin: &Name) -> Option<&'a ZoneHistory>
    ensures { option_copied result ≡ history_of histories.now origin.now }
{
    histories.iter().find(|known| is_history_of(known, origin))
}

/// Returns `true` if a history is that of the zone with an origin, ignoring ASCII case.
fn is_history_of(known: &ZoneHistory, origin: &Name) -> bool
    ensures { result ≡ is_history_of origin.now known.now }
{
    known.origin.eq_ignore_root(origin)
}
