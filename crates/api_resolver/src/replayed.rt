//! A network of what has come so far.

ghost use Rattle.std.specs.Prelude.{◌≡◌, OnErr, OnOk};
ghost use Rattle.api_resolver.specs.Replay.{TakesEvent, first_replay, with_outgoing};

use crate::event::{Arrival, Event, Outgoing};
use dns_messages::Sequence;
use std::alloc::{AllocError, Global};
use std::marker::Model;
use std::net::SocketAddr;
use stub_config::Protocol;
use stub_link::LinkError;
use stub_net::Network;

/// A network that takes its events from a list. A receive and a stream take the next event each; the clock is that of the last
/// event. Where no event is left, it remembers the deadline of the wait, and runs out of memory, which ends the exchange.
#[derive(Drop)]
pub struct ReplayedNetwork {
    alloc: Global,
    clock: u64,
    events: Vec<Event>,
    outgoing: Option<Outgoing>,
    count: u64,
    deadline: Option<u64>,
}

impl Model for ReplayedNetwork {
    ghost use Rattle.api_resolver.specs.Replay.{ReplayState};

    ghost Value = { ReplayState };

    ghost view = { λ network. record {
      clock = network.clock;
      events = network.events.items;
      outgoing = network.outgoing;
      count = network.count;
      deadline = network.deadline;
    } };
}

impl ReplayedNetwork {
    ghost use Rattle.std.specs.Option.{option_copied};

    /// Creates a network of events, whose clock begins at a moment.
    pub(crate) fn new(alloc: Global, start: u64, events: Vec<Event>) -> ReplayedNetwork
        ensures { result ≡ first_replay start events.items }
    {
        ReplayedNetwork {
            alloc,
            clock: start,
            events,
            outgoing: None,
            count: 0,
            deadline: None,
        }
    }

    /// Returns the message that was sent last.
    pub(crate) fn outgoing(&self) -> Option<&Outgoing>
        ensures { option_copied result ≡ self.now.outgoing }
    {
        self.outgoing.as_ref()
    }

    /// Returns how many messages were sent.
    pub(crate) fn count(&self) -> u64
        ensures { result ≡ self.now.count }
    {
        self.count
    }

    /// Returns the deadline of the wait for which no event was left.
    pub(crate) fn deadline(&self) -> Option<u64>
        ensures { result ≡ self.now.deadline }
    {
        self.deadline
    }

    /// Remembers a message that is sent.
    fn remember(
        &mut self,
        protocol: Protocol,
        server: SocketAddr,
        bytes: &[u8],
    ) -> Result<(), AllocError>
        ensures ok { OnOk result (self.new ≡ with_outgoing protocol server bytes.now self.old) }
        ensures err { OnErr result (self.new ≡ self.old) }
    {
        let copy = Vec::from_slice(self.alloc, bytes)?;
        self.outgoing = Some(Outgoing {
            protocol,
            server,
            bytes: Sequence::from_vec(copy),
        });
        self.count = self.count.saturating_add(1);
        Ok(())
    }

    /// Takes the next event of a wait until a deadline, if one is left.
    fn take_event(&mut self, deadline: u64) -> Option<Arrival>
        ensures { TakesEvent deadline self.old result self.new }
    {
        if self.events.is_empty() {
            self.deadline = Some(deadline);
            return None;
        }
        let Event { moment, arrival } = self.events.remove(0);
        self.clock = self.clock.max(moment);
        Some(arrival)
    }
}

impl Network for ReplayedNetwork {
    ghost use Rattle.api_resolver.specs.Replay.{ReadsClock, Receives, Sends, Streams};

    ghost sends = { λ old server bytes result new. Sends old server bytes result new };

    ghost receives = { λ old deadline result new. Receives old deadline result new };

    ghost streams = { λ old server bytes deadline result new.
        Streams old server bytes deadline result new };

    ghost reads_clock = { λ old now new. ReadsClock old now new };

    fn send(&mut self, server: SocketAddr, bytes: &[u8]) -> Result<(), LinkError> {
        self.remember(Protocol::Udp, server, bytes)?;
        Ok(())
    }

    fn receive_until(&mut self, deadline: u64) -> Result<Option<Vec<u8>>, LinkError> {
        match self.take_event(deadline) {
            Some(Arrival::Message(bytes)) => Ok(Some(bytes.into_vec())),
            Some(Arrival::TimedOut) => Ok(None),
            Some(Arrival::Failed) => Err(LinkError::Failed),
            // Want of memory ends the exchange, which is run again when there is an event.
            None => Err(LinkError::Memory),
        }
    }

    fn ask_stream(
        &mut self,
        server: SocketAddr,
        bytes: &[u8],
        deadline: u64,
    ) -> Result<Vec<u8>, LinkError> {
        self.remember(Protocol::Tcp, server, bytes)?;
        match self.take_event(deadline) {
            Some(Arrival::Message(bytes)) => Ok(bytes.into_vec()),
            Some(Arrival::TimedOut) | Some(Arrival::Failed) => Err(LinkError::Failed),
            // Want of memory ends the exchange, which is run again when there is an event.
            None => Err(LinkError::Memory),
        }
    }

    fn now(&mut self) -> u64 {
        self.clock
    }
}
