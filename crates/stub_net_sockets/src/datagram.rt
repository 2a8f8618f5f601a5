//! The socket of a datagram.

ghost use Rattle.std.specs.Prelude.{◌≤◌, length, IfOk, IfSome};

use dns_blocking::{SocketError, or_failed, patience, receive, send};
use std::net::{Ipv4Addr, Ipv6Addr, Net, SocketAddr, SocketAddrV4, SocketAddrV6, UdpSocket};
use std::time::Duration;

/// A socket that is connected to a server.
#[derive(Drop)]
pub(crate) struct DatagramSocket {
    socket: UdpSocket,
    peer: SocketAddr,
}

impl DatagramSocket {
    /// Opens a socket, at a port that the system draws, and connects it to a server.
    pub(crate) fn open<R: Net>(net: &R, server: SocketAddr) -> Result<DatagramSocket, SocketError> {
        let socket = or_failed(UdpSocket::bind(net, unspecified(server)))?;
        or_failed(socket.connect(server))?;
        or_failed(socket.set_write_timeout(Some(patience())))?;
        let peer = or_failed(socket.peer_addr())?;
        Ok(DatagramSocket { socket, peer })
    }

    /// Sends a datagram to the server.
    pub(crate) fn send(&self, bytes: &[u8]) -> Result<(), SocketError> {
        send(&self.socket, bytes)
    }

    /// Receives a datagram to the front of a buffer, and returns its length in bytes, or `None` if none arrives within so many
    /// milliseconds. It may also be `None` before that; a datagram of another address, which can only have arrived before the
    /// socket was connected, is dropped.
    pub(crate) fn receive(
        &self,
        buffer: &mut [u8],
        milliseconds: u64,
    ) -> Result<Option<usize>, SocketError>
        ensures { IfOk result (λ found. IfSome found (λ count. count ≤ length buffer.new)) }
    {
        let limit = Duration::from_millis(milliseconds);
        or_failed(self.socket.set_read_timeout(Some(limit)))?;
        match receive(&self.socket, buffer)? {
            Some((count, sender)) if is_same(sender, self.peer) => Ok(Some(count)),
            _ => Ok(None),
        }
    }
}

/// Returns the unspecified address of the family of a server, with port 0, for which the system draws a port.
fn unspecified(server: SocketAddr) -> SocketAddr {
    match server {
        SocketAddr::V4(_) => SocketAddr::V4(SocketAddrV4::new(Ipv4Addr::UNSPECIFIED, 0)),
        SocketAddr::V6(_) => SocketAddr::V6(SocketAddrV6::new(Ipv6Addr::UNSPECIFIED, 0, 0, 0)),
    }
}

/// Returns `true` if addresses and ports are the same.
fn is_same(one: SocketAddr, other: SocketAddr) -> bool {
    one.ip() == other.ip() && one.port() == other.port()
}
