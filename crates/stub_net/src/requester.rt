//! One request to one server.

ghost use Rattle.std.specs.Prelude.{◌≡◌, false};
ghost use Rattle.stub_net.specs.Network.{network_calls};
ghost use Rattle.stub_net.specs.Request.{is_cut_reply};
ghost use Rattle.stub_net.specs.Try.{AfterDatagram, AsksDatagram, AsksStream, ReadsDeadline, SendsDatagram, Tries, count_fault, first_counts};

mod message;
mod stream;
mod wait;

use crate::network::Network;
use dns_messages::{DnsResponse, Message};
use message::is_cut_reply;
pub(crate) use message::question_in;
use std::alloc::Global;
use std::net::SocketAddr;
use stream::stream_outcome;
use stub_link::LinkError;
use stub_lookup::{LinkFault, NetError};
use stub_servers::Server;
use wait::wait;

/// What a handle over a network counts. A count stays at `u64::MAX` once it is there.
#[derive(Clone, Copy, Debug, PartialEq, Eq)]
pub struct NetCounts {
    /// The number of datagrams that were sent.
    pub datagrams: u64,
    /// The number of messages that were sent over a stream, or were to be.
    pub streams: u64,
    /// The number of datagrams that were received and dropped, since they are not the reply to the open request.
    pub dropped: u64,
    /// The number of questions and updates that ended in a fault, `F1` to `F9`.
    pub faults: u64,
}

/// Sends requests to servers over a network, and waits for the replies.
#[derive(Drop)]
pub struct Requester<N> {
    alloc: Global,
    /// The network.
    pub(crate) network: N,
    /// How long to wait for a reply, in milliseconds.
    pub(crate) timeout: u64,
    /// Whether servers are asked over streams alone.
    pub(crate) streams_alone: bool,
    /// What is counted.
    pub(crate) counts: NetCounts,
}

impl<N: Network> Requester<N> {
    /// Creates a requester that waits for each reply so many milliseconds.
    pub(crate) fn new(alloc: Global, network: N, timeout: u64) -> Requester<N>
        ensures network { result.network ≡ network }
        ensures timeout { result.timeout ≡ timeout }
        ensures datagrams { result.streams_alone ≡ false }
        ensures counts { result.counts ≡ first_counts }
    {
        Requester {
            alloc,
            network,
            timeout,
            streams_alone: false,
            counts: NetCounts {
                datagrams: 0,
                streams: 0,
                dropped: 0,
                faults: 0,
            },
        }
    }

    /// Sends a request to a server, and returns its reply: by a datagram if the server has an address for it, and over
    /// a stream otherwise, or if the reply is truncated.
    pub(crate) fn try_server(
        &mut self,
        message: &Message,
        bytes: &[u8],
        server: Server,
    ) -> Result<DnsResponse, NetError>
        ensures { Tries (network_calls N.sends N.receives N.streams N.reads_clock) message.now
            bytes.now server self.old result self.new }
    {
        let udp = if self.streams_alone { None } else { server.udp };
        match (udp, server.tcp) {
            (Some(address), tcp) => self.ask_datagram(message, bytes, address, tcp),
            (None, Some(address)) => self.ask_stream(message, bytes, address),
            (None, None) => Err(NetError::Link(LinkFault::NotSent)),
        }
    }

    /// Sends a request by a datagram, and over a stream if the reply is truncated.
    fn ask_datagram(
        &mut self,
        message: &Message,
        bytes: &[u8],
        udp: SocketAddr,
        tcp: Option<SocketAddr>,
    ) -> Result<DnsResponse, NetError>
        ensures { AsksDatagram (network_calls N.sends N.receives N.streams N.reads_clock)
            message.now bytes.now udp tcp self.old result self.new }
    {
        let reply = self.send_datagram(message, bytes, udp);
        if !is_cut_reply(message, &reply) {
            return reply;
        }
        match tcp {
            Some(address) => self.ask_stream(message, bytes, address),
            None => Err(NetError::Link(LinkFault::Truncated)),
        }
    }

    /// Sends a request by a datagram, and waits for its reply.
    fn send_datagram(
        &mut self,
        message: &Message,
        bytes: &[u8],
        server: SocketAddr,
    ) -> Result<DnsResponse, NetError>
        ensures { SendsDatagram (network_calls N.sends N.receives N.streams N.reads_clock)
            message.now bytes.now server self.old result self.new }
    {
        match self.network.send(server, bytes) {
            Err(LinkError::Failed) => return Err(NetError::Link(LinkFault::NotSent)),
            // The network ran out of memory.
            Err(LinkError::Memory) => return Err(NetError::Memory),
            Ok(()) => {}
        }
        self.counts.datagrams = self.counts.datagrams.saturating_add(1);
        let deadline = self.deadline();
        wait(
            self.alloc,
            &mut self.network,
            message,
            deadline,
            &mut self.counts.dropped,
        )
    }

    /// Sends a request over a stream, and returns its reply.
    fn ask_stream(
        &mut self,
        message: &Message,
        bytes: &[u8],
        server: SocketAddr,
    ) -> Result<DnsResponse, NetError>
        ensures { AsksStream (network_calls N.sends N.receives N.streams N.reads_clock)
            message.now bytes.now server self.old result self.new }
    {
        self.counts.streams = self.counts.streams.saturating_add(1);
        let deadline = self.deadline();
        match self.network.ask_stream(server, bytes, deadline) {
            Ok(reply) => stream_outcome(self.alloc, message, reply),
            Err(LinkError::Failed) => Err(NetError::Link(LinkFault::StreamFailed)),
            // The network ran out of memory.
            Err(LinkError::Memory) => Err(NetError::Memory),
        }
    }

    /// Returns the moment at which a wait that begins now ends.
    fn deadline(&mut self) -> u64
        ensures { ReadsDeadline N.reads_clock self.old result self.new }
    {
        self.network.now().saturating_add(self.timeout)
    }

    /// Counts the fault of an outcome, if it is one.
    pub(crate) fn count_fault(&mut self, outcome: &Result<DnsResponse, NetError>)
        ensures { self.new ≡ count_fault outcome.now self.old }
    {
        if matches!(outcome, Err(NetError::Link(_))) {
            self.counts.faults = self.counts.faults.saturating_add(1);
        }
    }
}
