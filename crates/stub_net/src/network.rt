//! Networks: what carries requests to servers, and their replies.

mod scripted;

pub use scripted::{NetworkEvent, ScriptedNetwork, TimedEvent, Transmission};
use std::net::SocketAddr;
use stub_link::LinkError;

/// Carries requests to servers, one at a time, and their replies.
pub trait Network {
    ghost use Rattle.std.specs.Prelude.{List, Option, Result, ℕ};
    ghost use Rattle.std.specs.declared.net.socket_addr.SocketAddr.{SocketAddr};
    ghost use Rattle.stub_link.specs.Link.{datagram_of, stream_reply_of};
    ghost use Rattle.stub_link.specs.declared.link.LinkError.{LinkError};

    /// From a state, sending bytes to a server may have this result and lead to that state.
    ghost sends: { Self → SocketAddr → List ℕ → Result (Unit {0}) LinkError → Self → Type 0 };

    /// From a state, a receive until a deadline may have this result and lead to that state.
    ghost receives: { Self → ℕ → Result (Option (List ℕ)) LinkError → Self → Type 0 };

    /// From a state, asking a server over a stream until a deadline may have this result and lead to that state.
    ghost streams: { Self → SocketAddr → List ℕ → ℕ → Result (List ℕ) LinkError → Self → Type 0 };

    /// From a state, the clock may read this and lead to that state.
    ghost reads_clock: { Self → ℕ → Self → Type 0 };

    /// Sends a datagram to a server. From then on, datagrams are received that this server sends in reply (RFC 5452
    /// section 9.2).
    fn send(&mut self, server: SocketAddr, bytes: &[u8]) -> Result<(), LinkError>
        ensures { sends self.old server bytes.now result self.new };

    /// Receives the next datagram of the server, or `None` once the clock passes a deadline, in milliseconds.
    fn receive_until(&mut self, deadline: u64) -> Result<Option<Vec<u8>>, LinkError>
        ensures { receives self.old deadline (datagram_of result) self.new };

    /// Sends a message to a server over a stream, and returns the message that is received over it before the deadline,
    /// in milliseconds (RFC 7766 section 5).
    fn ask_stream(
        &mut self,
        server: SocketAddr,
        bytes: &[u8],
        deadline: u64,
    ) -> Result<Vec<u8>, LinkError>
        ensures { streams self.old server bytes.now deadline (stream_reply_of result) self.new };

    /// Returns the milliseconds of a clock that does not go back.
    fn now(&mut self) -> u64
        ensures { reads_clock self.old result self.new };
}
