//! The serial number of a zone after a change.

ghost use Rattle.std.specs.Prelude.{◌≡◌};
ghost use Rattle.dns_differences.specs.serials.Serial.{next_serial, serial_after};

use dns_wire::codes::{SerialNumber, SerialOrder};

/// Returns the serial number that a zone is to have after a change, whose SOA record had the serial number `before` and has
/// `after` now: the latter if the change has raised it, or else the next one (RFC 2136 section 3.6).
pub fn serial_after(before: u32, after: u32) -> u32
    ensures { result ≡ serial_after before after }
{
    match SerialNumber::new(before).compare(SerialNumber::new(after)) {
        SerialOrder::Less => after,
        SerialOrder::Equal | SerialOrder::Greater | SerialOrder::Undecided => next_serial(before),
    }
}

/// Returns the serial number after another (RFC 1982 section 3.1).
pub fn next_serial(serial: u32) -> u32
    ensures { result ≡ next_serial serial }
{
    serial.wrapping_add(1)
}
