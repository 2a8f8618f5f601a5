//! A network in memory, which follows a script.

ghost use Rattle.std.specs.Prelude.{◌≡◌, ◌∷◌, ◌++◌, [], OnOk, OnErr};
ghost use Rattle.stub_net.specs.Script.{TakesEvent, TakesSendFailure, first_script, is_send_failure, transmit};

use crate::network::Network;
use dns_messages::Sequence;
use std::alloc::{AllocError, Global};
use std::marker::Model;
use std::net::SocketAddr;
use stub_config::Protocol;
use stub_link::LinkError;

/// What a call to a network leads to.
#[derive(Drop)]
pub enum NetworkEvent {
    /// A message arrives: a datagram, or the reply over a stream.
    Arrival(Sequence<u8>),
    /// Nothing arrives before the deadline. A stream fails then.
    Silence,
    /// A receive or a stream fails.
    Failure,
    /// A send fails. A receive or a stream that takes this event fails, too.
    SendFailure,
}

/// An event, and how long after the call it comes.
#[derive(Drop)]
pub struct TimedEvent {
    /// The delay, in milliseconds.
    pub delay: u64,
    /// The event.
    pub event: NetworkEvent,
}

/// A message that a network was given to send.
#[derive(Drop)]
pub struct Transmission {
    /// When it was given, in milliseconds.
    pub moment: u64,
    /// How it was sent.
    pub protocol: Protocol,
    /// The server that it was sent to.
    pub server: SocketAddr,
    /// The message.
    pub bytes: Sequence<u8>,
}

/// A network in memory, which follows a script: each receive and each stream takes the next event. A send succeeds,
/// unless the next event is [`NetworkEvent::SendFailure`], which it takes.
///
/// What arrives after the deadline is lost. When the script is used up, nothing arrives.
#[derive(Drop)]
pub struct ScriptedNetwork {
    alloc: Global,
    clock: u64,
    script: Vec<TimedEvent>,
    sent: Vec<Transmission>,
}

impl Model for ScriptedNetwork {
    ghost use Rattle.stub_net.specs.Script.{ScriptState};

    ghost Value = { ScriptState };

    ghost view = { λ network. record {
      clock = network.clock;
      script = network.script.items;
      sent = network.sent.items;
    } };
}

impl ScriptedNetwork {
    /// Creates a network with a script, at the moment 0.
    pub fn new(alloc: Global, script: Vec<TimedEvent>) -> ScriptedNetwork
        ensures { result ≡ first_script script.items }
    {
        ScriptedNetwork {
            alloc,
            clock: 0,
            script,
            sent: Vec::new(alloc),
        }
    }

    /// Returns what the network was given to send, in order.
    pub fn sent(&self) -> &[Transmission]
        ensures { result.now ≡ self.now.sent }
    {
        self.sent.as_slice()
    }

    /// Records a message that the network was given to send.
    fn record(
        &mut self,
        protocol: Protocol,
        server: SocketAddr,
        bytes: &[u8],
    ) -> Result<(), AllocError>
        ensures ok { OnOk result (self.new ≡ transmit protocol server bytes.now self.old) }
        ensures err { OnErr result (self.new ≡ self.old) }
    {
        let copy = Vec::from_slice(self.alloc, bytes)?;
        self.sent.push(Transmission {
            moment: self.clock,
            protocol,
            server,
            bytes: Sequence::from_vec(copy),
        })?;
        Ok(())
    }

    /// Takes the next event, if it is one of a send that fails.
    fn takes_send_failure(&mut self) -> bool
        ensures { TakesSendFailure self.old result self.new }
    {
        match self.script.first() {
            Some(next) if is_send_failure(&next.event) => {
                self.script.remove(0);
                true
            }
            _ => false,
        }
    }

    /// Takes the next event, if there is one that comes up to a deadline, and sets the clock to its moment. Otherwise
    /// nothing arrives before the deadline.
    fn take_event(&mut self, deadline: u64) -> NetworkEvent
        ensures { TakesEvent deadline self.old result self.new }
    {
        if self.script.is_empty() {
            return NetworkEvent::Silence;
        }
        let TimedEvent { delay, event } = self.script.remove(0);
        let moment = self.clock.saturating_add(delay);
        if moment > deadline {
            return NetworkEvent::Silence;
        }
        self.clock = moment;
        event
    }
}

/// Returns `true` if an event is that of a send that fails.
fn is_send_failure(event: &NetworkEvent) -> bool
    ensures { result ≡ is_send_failure event.now }
{
    matches!(event, NetworkEvent::SendFailure)
}

impl Network for ScriptedNetwork {
    ghost use Rattle.stub_net.specs.Script.{ReadsClock, Receives, Sends, Streams};

    ghost sends = { λ old server bytes result new. Sends old server bytes result new };

    ghost receives = { λ old deadline result new. Receives old deadline result new };

    ghost streams = { λ old server bytes deadline result new.
        Streams old server bytes deadline result new };

    ghost reads_clock = { λ old now new. ReadsClock old now new };

    fn send(&mut self, server: SocketAddr, bytes: &[u8]) -> Result<(), LinkError> {
        self.record(Protocol::Udp, server, bytes)?;
        if self.takes_send_failure() {
            Err(LinkError::Failed)
        } else {
            Ok(())
        }
    }

    fn receive_until(&mut self, deadline: u64) -> Result<Option<Vec<u8>>, LinkError> {
        match self.take_event(deadline) {
            NetworkEvent::Arrival(bytes) => Ok(Some(bytes.into_vec())),
            NetworkEvent::Silence => {
                self.clock = self.clock.max(deadline);
                Ok(None)
            }
            NetworkEvent::Failure | NetworkEvent::SendFailure => Err(LinkError::Failed),
        }
    }

    fn ask_stream(
        &mut self,
        server: SocketAddr,
        bytes: &[u8],
        deadline: u64,
    ) -> Result<Vec<u8>, LinkError> {
        self.record(Protocol::Tcp, server, bytes)?;
        match self.receive_until(deadline)? {
            Some(reply) => Ok(reply),
            None => Err(LinkError::Failed),
        }
    }

    fn now(&mut self) -> u64 {
        self.clock
    }
}
