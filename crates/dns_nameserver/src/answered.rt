//! What a request leads to, and what decides on it beside its bytes.

ghost use Rattle.std.specs.Prelude.{◌≡◌};
ghost use Rattle.dns_nameserver.specs.Answered.{reply_transport, updates_of};

use dns_faults::Delivery;
use dns_faults::rules::Transport;
use dns_server::Updates;
use dns_zone::{DatagramLimit, Transport as ReplyTransport};

/// What a request led to.
#[derive(Drop)]
pub struct Answered {
    /// What is sent, and how.
    pub delivery: Delivery,
    /// The line of the rule that made a fault, from 1, or `None` if none did.
    pub line: Option<usize>,
    /// Whether the request was an update that changed records.
    pub has_updated: bool,
}

/// Returns whether the requestors of an address may update, given whether the list has it.
pub fn updates_of(is_listed: bool) -> Updates
    ensures { result ≡ updates_of is_listed }
{
    if is_listed {
        Updates::Allowed
    } else {
        Updates::Refused
    }
}

/// Returns a transport, with the maximum size of datagrams.
pub fn reply_transport(transport: Transport, limit: DatagramLimit) -> ReplyTransport
    ensures { result ≡ reply_transport transport limit }
{
    match transport {
        Transport::Datagram => ReplyTransport::Datagram(limit),
        Transport::Stream => ReplyTransport::Stream,
    }
}
