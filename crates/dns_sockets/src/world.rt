//! What a service sees of the world: datagrams, connections and time.

use crate::clock::Milliseconds;
use std::io;
use std::net::SocketAddr;

/// What came of a receive.
#[derive(Clone, Copy, Debug, PartialEq, Eq)]
pub enum Receipt {
    /// A datagram of so many bytes, from a peer.
    Datagram(usize, SocketAddr),
    /// A signal interrupted the call, which may be made again.
    Interrupted,
    /// No datagram waits.
    Nothing,
    /// The system could not receive a datagram, from an unreachable peer, say, of which nothing can be told to anyone.
    Failed,
}

/// What came of an attempt to accept a connection.
#[derive(Clone, Copy, Debug, PartialEq, Eq)]
pub enum Arrival {
    /// A connection from a peer.
    Connection(SocketAddr),
    /// A signal or the peer interrupted the call, which may be made again.
    Interrupted,
    /// No connection waits.
    Nothing,
    /// The system could not accept a connection, for want of descriptors, say.
    Failed,
}

/// What came of a read or a write on a connection.
#[derive(Clone, Copy, Debug, PartialEq, Eq)]
pub enum Progress {
    /// So many bytes were read or written: none where the connection is at its end.
    Bytes(usize),
    /// A signal interrupted the call, which may be made again.
    Interrupted,
    /// The peer has to go on first.
    Nothing,
    /// The connection is broken.
    Failed,
}

/// What ended a wait.
#[derive(Clone, Copy, Debug, PartialEq, Eq)]
pub enum Wake {
    /// Datagrams may wait at the socket of an index.
    Datagrams(usize),
    /// Connections may wait at the listener of an index.
    Listener(usize),
    /// The connection of an index may be readable, and may be writable.
    Stream(usize, bool, bool),
    /// The service is to end.
    End,
}

/// What a service sees of the world. No call but `wait` waits.
///
/// The datagram sockets and the listeners have indices from 0 on, one each at an address. The service chooses the index of a connection.
pub trait World {
    ghost use Rattle.std.specs.Prelude.{length};
    ghost use Rattle.dns_sockets.specs.World as events;
    ghost use Rattle.dns_sockets.specs.World.{IsArrivalWithin, IsWithin, WorldEvent, accept_event, clock_event, read_event, receive_event, write_event};

    /// From a state, a call may be this event and lead to that state.
    ghost performs: { Self → WorldEvent → Self → Type 0 };

    /// Receives the next datagram that waits at a socket into a buffer. What does not fit is lost.
    fn receive(&mut self, socket: usize, buffer: &mut [u8]) -> Receipt
        ensures performs { performs self.old (receive_event socket result buffer.new) self.new }
        ensures within { IsArrivalWithin result (length buffer.new) };

    /// Sends a datagram to a peer. Returns `false` if the system does not take it: it is lost then, as any datagram may be.
    fn send(&mut self, socket: usize, bytes: &[u8], peer: SocketAddr) -> bool
        ensures { performs self.old (events.Sent socket bytes.now peer result) self.new };

    /// Accepts the next connection that waits at a listener. It is closed unless it is admitted before the next one.
    fn accept(&mut self, listener: usize) -> Arrival
        ensures { performs self.old (accept_event listener result) self.new };

    /// Gives the connection that was accepted an index, at which there is none. Returns `false` if that cannot be done.
    fn admit(&mut self, stream: usize) -> bool
        ensures { performs self.old (events.Admitted stream result) self.new };

    /// Reads bytes of a connection into a buffer.
    fn read(&mut self, stream: usize, buffer: &mut [u8]) -> Progress
        ensures performs { performs self.old (read_event stream result buffer.new) self.new }
        ensures within { IsWithin result (length buffer.new) };

    /// Writes the first of these bytes on a connection.
    fn write(&mut self, stream: usize, bytes: &[u8]) -> Progress
        ensures performs { performs self.old (write_event stream result bytes.now) self.new }
        ensures within { IsWithin result (length bytes.now) };

    /// Closes the connection of an index, if there is one.
    fn close(&mut self, stream: usize)
        ensures { performs self.old (events.Closed stream) self.new };

    /// Returns the time since the service began. It never goes back.
    ///
    /// # Errors
    ///
    /// The clock of the system fails, which it does not on a sound one.
    fn now(&mut self) -> io::Result<Milliseconds>
        ensures { performs self.old (clock_event result) self.new };

    /// Waits until there is something to do, at most so long, or without end.
    ///
    /// # Errors
    ///
    /// The system cannot wait, which it can on a sound one.
    fn wait(&mut self, most: Option<Milliseconds>) -> io::Result<()>
        ensures { performs self.old (events.Waited most) self.new };

    /// Returns one thing after another that ended the last wait, in any order, and `None` after the last of them.
    fn next_wake(&mut self) -> Option<Wake>
        ensures { performs self.old (events.Woken result) self.new };
}
