//! The network.

ghost use Rattle.std.specs.Prelude.{◌≡◌, ◌<◌, ◌≤◌, IfOk, IsSome, None, Ok};

use crate::datagram::DatagramSocket;
use crate::stopwatch::Stopwatch;
use crate::stream::exchange;
use dns_blocking::SocketError;
use std::alloc::{AllocError, Global};
use std::net::{Net, SocketAddr, TcpListener, TcpStream};
use std::time::Clock;
use stub_link::LinkError;
use stub_net::Network;

/// The size of the buffer for datagrams, in bytes: that of the largest message (RFC 1035 section 4.2.2).
const BUFFER_LEN: usize = 65_535;

/// How often a receive is repeated because its time-out passed early, or a datagram of another address arrived.
const MAX_WAITS: u32 = 65_536;

/// A network over sockets. `R` is the runtime, or a reference to it.
///
/// The socket of a datagram is open until the next one is sent, or a stream is opened. A system call that a signal interrupts is
/// repeated, at most 1,024 times. The clock is read after each wait, so that the time of a wait belongs to the call that waited.
#[derive(Drop)]
pub struct SocketNetwork<R> {
    net: R,
    alloc: Global,
    clock: Stopwatch<R>,
    buffer: Vec<u8>,
    socket: Option<DatagramSocket>,
}

impl<R: Net<Listener = TcpListener, Stream = TcpStream> + Clock + Drop> SocketNetwork<R> {
    /// Creates a network without an open socket.
    pub fn new(net: R, alloc: Global, clock: Stopwatch<R>) -> Result<SocketNetwork<R>, AllocError>
        ensures { IfOk result (λ network. network.clock ≡ clock) }
    {
        let buffer = vec![in alloc; 0u8; BUFFER_LEN]?;
        Ok(SocketNetwork {
            net,
            alloc,
            clock,
            buffer,
            socket: None,
        })
    }

    /// Receives the next datagram of the open socket, or `None` once the deadline has passed. Each wait begins before the
    /// deadline, and the clock is read after it.
    fn receive(&mut self, deadline: u64) -> Result<Option<Vec<u8>>, SocketError>
        ensures kept { self.old.clock.last ≤ self.new.clock.last }
        ensures passed { result ≡ Ok None → deadline ≤ self.new.clock.last }
        ensures arrived { IfOk result (λ found. IsSome found → self.old.clock.last < deadline) }
    {
        let Some(socket) = &self.socket else {
            return Err(SocketError::Failed);
        };
        for _wait in 0..MAX_WAITS {
            let left = deadline.saturating_sub(self.clock.milliseconds());
            if left == 0 {
                return Ok(None);
            }
            let received = socket.receive(self.buffer.as_mut_slice(), left);
            self.clock.milliseconds();
            if let Some(count) = received? {
                let bytes = &self.buffer.as_slice()[..count];
                return Ok(Some(Vec::from_slice(self.alloc, bytes)?));
            }
        }
        Err(SocketError::Failed)
    }

    /// Sends a datagram to a server from a new socket.
    fn send_from_new_socket(&mut self, server: SocketAddr, bytes: &[u8]) -> Result<(), SocketError>
        ensures { self.new.clock ≡ self.old.clock }
    {
        self.socket = None;
        let socket = DatagramSocket::open(&self.net, server)?;
        socket.send(bytes)?;
        self.socket = Some(socket);
        Ok(())
    }
}

/// Returns the result of calls of sockets as that of a call of a network.
fn network_result<T>(outcome: Result<T, SocketError>) -> Result<T, LinkError>
    ensures { IfOk result (λ value. outcome ≡ Ok value) }
{
    match outcome {
        Ok(value) => Ok(value),
        Err(SocketError::Failed) => Err(LinkError::Failed),
        // A socket had no memory for a message.
        Err(SocketError::Memory) => Err(LinkError::Memory),
    }
}

impl<R: Net<Listener = TcpListener, Stream = TcpStream> + Clock + Drop> Network
    for SocketNetwork<R> {
    ghost use Rattle.stub_net_sockets.specs.SocketNetwork.{ContinuesClock, KeepsClock, ReadsClock, ReceivesUntil};

    ghost sends = { λ old _ _ _ new. KeepsClock old new };

    ghost receives = { λ old deadline found new. ReceivesUntil old deadline found new };

    ghost streams = { λ old _ _ _ _ new. ContinuesClock old new };

    ghost reads_clock = { λ old now new. ReadsClock old now new };

    fn send(&mut self, server: SocketAddr, bytes: &[u8]) -> Result<(), LinkError> {
        network_result(self.send_from_new_socket(server, bytes))
    }

    fn receive_until(&mut self, deadline: u64) -> Result<Option<Vec<u8>>, LinkError> {
        network_result(self.receive(deadline))
    }

    fn ask_stream(
        &mut self,
        server: SocketAddr,
        bytes: &[u8],
        deadline: u64,
    ) -> Result<Vec<u8>, LinkError> {
        self.socket = None;
        let clock = &mut self.clock;
        let reply = exchange(&self.net, self.alloc, clock, server, bytes, deadline);
        self.clock.milliseconds();
        network_result(reply)
    }

    fn now(&mut self) -> u64 {
        self.clock.milliseconds()
    }
}
