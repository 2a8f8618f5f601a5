//! A network that tells what it does.

ghost use Rattle.std.specs.Prelude.{◌≡◌};

use std::fmt;
use std::net::SocketAddr;
use std::time::{Clock, Instant};
use stub_link::LinkError;
use stub_net::Network;

/// A network that behaves as another one and, if it is on, writes lines to standard error about what that one does.
///
/// A line begins with the milliseconds since a moment, and says what was sent or received, how long it is, and under which id, as
/// `12 ms udp 127.0.0.1:53 sent 33 bytes, id 4711`. One that cannot be written is left out. `R` is the runtime, or a reference to
/// it.
#[derive(Drop)]
pub struct Traced<N, R> {
    network: N,
    rt: R,
    start: Instant,
    is_on: bool,
    server: Option<SocketAddr>,
}

impl<N, R> Traced<N, R> {
    /// Creates a network that tells what another one does, with milliseconds since a moment, if it is on.
    pub fn new(network: N, rt: R, start: Instant, is_on: bool) -> Traced<N, R>
        ensures { result.network ≡ network }
    {
        Traced {
            network,
            rt,
            start,
            is_on,
            server: None,
        }
    }
}

impl<N, R: Clock + Eprint> Traced<N, R> {
    /// Writes a line about a transport and a server.
    fn tell(&self, transport: &str, server: Option<SocketAddr>, event: Event) {
        if !self.is_on {
            return;
        }
        let Some(server) = server else {
            return;
        };
        let moment = self
            .start
            .elapsed(&self.rt)
            .map_or(0, |elapsed| elapsed.as_millis());
        // A failure to write to standard error can't be reported.
        let _written = eprintln!(self.rt; "{moment} ms {transport} {server} {event}");
    }
}

/// What happened.
#[derive(Clone, Copy)]
enum Event {
    /// A message was sent, of a length and under an id.
    Sent(usize, Option<u16>),
    /// A message was received, of a length and under an id.
    Received(usize, Option<u16>),
    /// Nothing was received by the deadline.
    Nothing,
    /// The call failed.
    Failed,
    /// There was no memory.
    Memory,
}

/// Returns that a message was sent.
fn sent(bytes: &[u8]) -> Event {
    Event::Sent(bytes.len(), id_of(bytes))
}

/// Returns that a message was received.
fn received(bytes: &[u8]) -> Event {
    Event::Received(bytes.len(), id_of(bytes))
}

/// Returns that a call failed.
fn failed(error: LinkError) -> Event {
    match error {
        LinkError::Failed => Event::Failed,
        // The network was refused memory.
        LinkError::Memory => Event::Memory,
    }
}

/// Returns the id of a message (RFC 1035 section 4.1.1).
fn id_of(bytes: &[u8]) -> Option<u16> {
    match bytes {
        [high, low, ..] => Some(u16::from_be_bytes([*high, *low])),
        _ => None,
    }
}

impl fmt::Display for Event {
    fn fmt<W: fmt::Write>(&self, f: &mut fmt::Formatter<W>) -> fmt::Result {
        match self {
            Event::Sent(len, Some(id)) => write!(f, "sent {len} bytes, id {id}"),
            Event::Sent(len, None) => write!(f, "sent {len} bytes"),
            Event::Received(len, Some(id)) => write!(f, "received {len} bytes, id {id}"),
            Event::Received(len, None) => write!(f, "received {len} bytes"),
            Event::Nothing => f.write_str("nothing by the deadline"),
            Event::Failed => f.write_str("failed: the server is not reached"),
            Event::Memory => f.write_str("failed: out of memory"),
        }
    }
}

impl<N: Network, R: Clock + Eprint> Network for Traced<N, R> {
    ghost sends = { λ old server bytes result new. N.sends old.network server bytes result new.network };

    ghost receives = { λ old deadline result new. N.receives old.network deadline result new.network };

    ghost streams = { λ old server bytes deadline result new.
        N.streams old.network server bytes deadline result new.network };

    ghost reads_clock = { λ old now new. N.reads_clock old.network now new.network };

    fn send(&mut self, server: SocketAddr, bytes: &[u8]) -> Result<(), LinkError> {
        self.server = Some(server);
        let outcome = self.network.send(server, bytes);
        let event = match &outcome {
            Ok(()) => sent(bytes),
            Err(error) => failed(*error),
        };
        self.tell("udp", self.server, event);
        outcome
    }

    fn receive_until(&mut self, deadline: u64) -> Result<Option<Vec<u8>>, LinkError> {
        let outcome = self.network.receive_until(deadline);
        let event = match &outcome {
            Ok(Some(bytes)) => received(bytes.as_slice()),
            Ok(None) => Event::Nothing,
            Err(error) => failed(*error),
        };
        self.tell("udp", self.server, event);
        outcome
    }

    fn ask_stream(
        &mut self,
        server: SocketAddr,
        bytes: &[u8],
        deadline: u64,
    ) -> Result<Vec<u8>, LinkError> {
        self.tell("tcp", Some(server), sent(bytes));
        let outcome = self.network.ask_stream(server, bytes, deadline);
        let event = match &outcome {
            Ok(reply) => received(reply.as_slice()),
            Err(error) => failed(*error),
        };
        self.tell("tcp", Some(server), event);
        outcome
    }

    fn now(&mut self) -> u64 {
        self.network.now()
    }
}
