//! The transports of requests, by number.

ghost use Rattle.std.specs.Prelude.{◌≡◌, IfErr, IfOk};
ghost use Rattle.api.specs.zones.Transport.{IsTransport, IsRefused};

use crate::buffer::Refusal;
use dns_zone::{DatagramLimit, Transport};

/// Returns the transport with a number: 0 for datagrams, and 1 for streams. `limit` is the maximum size of a reply in a
/// datagram, in bytes; for a stream it is ignored.
///
/// # Errors
///
/// - [`Refusal::Transport`] for any other number;
/// - [`Refusal::Limit`] if a datagram's limit is below 512.
pub fn transport_of(transport: u32, limit: u16) -> Result<Transport, Refusal>
    ensures reply_transport { IfOk result (IsTransport transport limit) }
    ensures refused { IfErr result (IsRefused transport limit) }
{
    match transport {
        0 => match DatagramLimit::new(limit) {
            Ok(limit) => Ok(Transport::Datagram(limit)),
            Err(_) => Err(Refusal::Limit),
        },
        1 => Ok(Transport::Stream),
        _ => Err(Refusal::Transport),
    }
}
