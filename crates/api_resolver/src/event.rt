//! What a caller sends, and what comes of it.

ghost use Rattle.std.specs.Prelude.{◌≡◌, IfOk};

use dns_messages::Sequence;
use std::alloc::AllocError;
use std::net::SocketAddr;
use stub_config::Protocol;

/// A message to send.
pub struct Outgoing {
    /// How it is sent: as a datagram, or over a stream of its own.
    pub protocol: Protocol,
    /// The server that it is sent to.
    pub server: SocketAddr,
    /// The message, for a stream without the two bytes of its length (RFC 1035 section 4.2.2).
    pub bytes: Sequence<u8>,
}

impl Drop for Outgoing {
    fn drop(self) {
        let Outgoing {
            protocol: _protocol,
            server: _server,
            bytes,
        } = self;
        drop(bytes);
    }
}

impl Outgoing {
    /// Copies the message.
    pub(crate) fn clone(&self) -> Result<Outgoing, AllocError>
        ensures { IfOk result (λ copy. copy ≡ self.now) }
    {
        Ok(Outgoing {
            protocol: self.protocol,
            server: self.server,
            bytes: self.bytes.clone()?,
        })
    }
}

/// What came of a wait for a message.
#[derive(Drop)]
pub enum Arrival {
    /// A message arrived: a datagram, or the reply over a stream.
    Message(Sequence<u8>),
    /// The deadline passed.
    TimedOut,
    /// A message could not be sent, or none can be received.
    Failed,
}

impl Arrival {
    /// Copies what came.
    pub(crate) fn clone(&self) -> Result<Arrival, AllocError>
        ensures { IfOk result (λ copy. copy ≡ self.now) }
    {
        match self {
            Arrival::Message(bytes) => Ok(Arrival::Message(bytes.clone()?)),
            Arrival::TimedOut => Ok(Arrival::TimedOut),
            Arrival::Failed => Ok(Arrival::Failed),
        }
    }
}

/// What came of a wait, and when.
#[derive(Drop)]
pub struct Event {
    /// When it came, in milliseconds of the caller's clock.
    pub moment: u64,
    /// What came.
    pub arrival: Arrival,
}

impl Event {
    /// Copies the event.
    pub(crate) fn clone(&self) -> Result<Event, AllocError>
        ensures { IfOk result (λ copy. copy ≡ self.now) }
    {
        Ok(Event {
            moment: self.moment,
            arrival: self.arrival.clone()?,
        })
    }
}

impl Clone for Event {
    ghost is_clone = { λ event copy. copy ≡ event };

    fn clone(&self) -> Result<Event, AllocError> {
        Event::clone(self)
    }
}
