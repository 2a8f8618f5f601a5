//! The wait for the reply to a datagram (RFC 5452 section 9.1).

ghost use Rattle.std.specs.Prelude.{◌^◌, ◌-◌};
ghost use Rattle.stub_net.specs.Network.{network_calls};
ghost use Rattle.stub_net.specs.Wait.{Awaits};

use crate::network::Network;
use crate::requester::message::reply_to;
use dns_messages::{DnsResponse, Message};
use std::alloc::Global;
use stub_link::LinkError;
use stub_lookup::{LinkFault, NetError};

/// Receives datagrams until a deadline, up to the reply. All others are dropped and counted.
pub(crate) fn wait<N: Network>(
    alloc: Global,
    network: &mut N,
    message: &Message,
    deadline: u64,
    dropped: &mut u64,
) -> Result<DnsResponse, NetError>
    ensures { Awaits (network_calls N.sends N.receives N.streams N.reads_clock) message.now
        deadline (2 ^ 64 - 1) network.old dropped.old result network.new dropped.new }
{
    for _received in 0..u64::MAX {
        match network.receive_until(deadline) {
            Err(LinkError::Failed) => return Err(NetError::Link(LinkFault::NotReceived)),
            // The network ran out of memory.
            Err(LinkError::Memory) => return Err(NetError::Memory),
            Ok(None) => return Err(NetError::Link(LinkFault::Quiet)),
            Ok(Some(bytes)) => match reply_to(alloc, message, bytes) {
                // There was no memory for the message.
                Err(_) => return Err(NetError::Memory),
                Ok(Some(response)) => return Ok(response),
                Ok(None) => *dropped = dropped.saturating_add(1),
            },
        }
    }
    Err(NetError::Link(LinkFault::NoMatch))
}
