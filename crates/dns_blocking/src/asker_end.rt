//! The end of an exchange that sends requests, and receives their replies.

ghost use Rattle.std.specs.Prelude.{◌≡◌, ◌≤◌, length, Err, IfOk, IfSome, OnErr};
ghost use Rattle.dns_blocking.specs.declared.error.SocketError.TheVariants.{Failed};

use crate::calls::{or_failed, patience, receive, send};
use crate::error::SocketError;
use std::alloc::Global;
use std::net::{Net, SocketAddr, UdpSocket};

/// The size of the buffer for datagrams, in bytes: more than the 65,507 bytes that a datagram over IPv4 may have.
const BUFFER_LEN: usize = 65_535;

/// How many datagrams are passed over because they are from elsewhere.
const MAX_FOREIGN: u32 = 1_024;

/// A datagram socket that is connected to the server's, so that the system drops what other addresses send (RFC 5452 section
/// 9.1).
#[derive(Drop)]
pub struct AskerEnd {
    alloc: Global,
    socket: UdpSocket,
    address: SocketAddr,
    server: SocketAddr,
    buffer: Vec<u8>,
}

impl AskerEnd {
    /// Opens a socket at a local address that asks the server at another. At port 0 the system chooses the port.
    ///
    /// # Errors
    ///
    /// - [`SocketError::Failed`] if the socket cannot be opened or connected;
    /// - [`SocketError::Memory`] if the buffer for datagrams cannot be allocated.
    pub fn open<R: Net>(
        net: &R,
        alloc: Global,
        local: SocketAddr,
        server: SocketAddr,
    ) -> Result<AskerEnd, SocketError>
        ensures { IfOk result (λ end. end.server ≡ server) }
    {
        let buffer = vec![in alloc; 0u8; BUFFER_LEN]?;
        let (socket, address) = connected_socket(net, local, server)?;
        Ok(AskerEnd {
            alloc,
            socket,
            address,
            server,
            buffer,
        })
    }

    /// Returns the address of the socket.
    pub fn address(&self) -> SocketAddr
        ensures { result ≡ self.now.address }
    {
        self.address
    }

    /// Sends a datagram to the server.
    ///
    /// The error is [`SocketError::Failed`] if the system refuses the datagram, or takes none for a second.
    pub fn send(&self, bytes: &[u8]) -> Result<(), SocketError>
        ensures { OnErr result (result ≡ Err Failed) }
    {
        send(&self.socket, bytes)
    }

    /// Receives the next datagram from the server, or returns `None` if none arrives within a second. Datagrams from other
    /// addresses, which can only have arrived before the socket was connected, are dropped, at most 1,024 in a call.
    ///
    /// # Errors
    ///
    /// - [`SocketError::Failed`] if the socket fails, as it does when the server's port is closed;
    /// - [`SocketError::Memory`] if the datagram cannot be allocated.
    pub fn receive(&mut self) -> Result<Option<Vec<u8>>, SocketError>
        ensures peer { self.new.server ≡ self.old.server }
        ensures address { self.new.address ≡ self.old.address }
        ensures room { length self.new.buffer.items ≡ length self.old.buffer.items }
        ensures within { IfOk result (λ received. IfSome received
            (λ bytes. length bytes.items ≤ length self.old.buffer.items)) }
    {
        for _dropped in 0..MAX_FOREIGN {
            match receive(&self.socket, self.buffer.as_mut_slice())? {
                Some((count, sender)) => {
                    if sender == self.server {
                        return Ok(Some(Vec::from_slice(
                            self.alloc,
                            &self.buffer.as_slice()[..count],
                        )?));
                    }
                }
                None => return Ok(None),
            }
        }
        Ok(None)
    }
}

/// Opens a datagram socket whose peer is a server, and whose calls wait for at most one second, and returns its address.
fn connected_socket<R: Net>(
    net: &R,
    local: SocketAddr,
    server: SocketAddr,
) -> Result<(UdpSocket, SocketAddr), SocketError> {
    let socket = or_failed(UdpSocket::bind(net, local))?;
    or_failed(socket.connect(server))?;
    or_failed(socket.set_read_timeout(Some(patience())))?;
    or_failed(socket.set_write_timeout(Some(patience())))?;
    let address = or_failed(socket.local_addr())?;
    Ok((socket, address))
}
