//! The end of an exchange that serves requests.

ghost use Rattle.std.specs.Prelude.{◌≡◌};
ghost use Rattle.dns_zone.specs.declared.transport.Transport.TheVariants.{Datagram};
ghost use Rattle.dns_blocking.specs.Serving.{MayServe, ServesAtMost};

use crate::calls::{or_failed, receive, send_to};
use crate::error::SocketError;
use crate::responder::DatagramResponder;
use dns_zone::{DatagramLimit, Transport};
use std::alloc::{AllocError, Global};
use std::net::{Net, SocketAddr, TcpListener, TcpStream, UdpSocket};

/// The size of the buffer for datagrams, in bytes: more than the 65,507 bytes that a datagram over IPv4 may have.
const BUFFER_LEN: usize = 65_535;

/// How many datagrams are served in a call.
const MAX_SERVED: u32 = 1_024;

/// The datagram socket and the listener of a server. Neither of them waits, so a thread that also plays the other end, or
/// serves several servers, serves what has arrived and goes on.
#[derive(Drop)]
pub struct ServerEnd {
    socket: UdpSocket,
    address: SocketAddr,
    listener: TcpListener,
    stream_address: SocketAddr,
    buffer: Vec<u8>,
}

impl ServerEnd {
    /// Opens the sockets of a server at a local address. At port 0 the system chooses a port for each of them.
    ///
    /// # Errors
    ///
    /// - [`SocketError::Failed`] if a socket cannot be opened;
    /// - [`SocketError::Memory`] if the buffer for datagrams cannot be allocated.
    pub fn open<R: Net<Listener = TcpListener, Stream = TcpStream>>(
        net: &R,
        alloc: Global,
        local: SocketAddr,
    ) -> Result<ServerEnd, SocketError> {
        let buffer = vec![in alloc; 0u8; BUFFER_LEN]?;
        let (socket, address) = datagram_socket(net, local)?;
        let (listener, stream_address) = listener(net, local)?;
        Ok(ServerEnd {
            socket,
            address,
            listener,
            stream_address,
            buffer,
        })
    }

    /// Returns the address of the datagram socket.
    pub fn address(&self) -> SocketAddr
        ensures { result ≡ self.now.address }
    {
        self.address
    }

    /// Returns the listener.
    pub fn listener(&self) -> &TcpListener
        ensures { result.now ≡ self.now.listener }
    {
        &self.listener
    }

    /// Returns the address of the listener.
    pub fn stream_address(&self) -> SocketAddr
        ensures { result ≡ self.now.stream_address }
    {
        self.stream_address
    }

    /// Serves the datagrams that wait, at most 1,024 of them. Each reply is sent to the sender of its request (RFC 5452 section
    /// 9.1); one that cannot be sent is lost, as any datagram may be.
    ///
    /// # Errors
    ///
    /// - [`SocketError::Failed`] if the socket fails;
    /// - [`SocketError::Memory`] if the memory for a reply is refused.
    pub fn serve_waiting<D: DatagramResponder>(
        &mut self,
        responder: &mut D,
        limit: DatagramLimit,
    ) -> Result<(), SocketError>
        ensures { ServesAtMost D.replies (Datagram limit) responder.old 1024 responder.new }
    {
        for _served in 0..MAX_SERVED {
            if !self.serve_next(responder, limit)? {
                return Ok(());
            }
        }
        Ok(())
    }

    /// Serves the next datagram that waits. Returns `false` if there is none.
    fn serve_next<D: DatagramResponder>(
        &mut self,
        responder: &mut D,
        limit: DatagramLimit,
    ) -> Result<bool, SocketError>
        ensures { MayServe D.replies (Datagram limit) responder.old responder.new }
    {
        match receive(&self.socket, self.buffer.as_mut_slice())? {
            Some((count, sender)) => {
                let request = &self.buffer.as_slice()[..count];
                serve_datagram(&self.socket, request, sender, responder, limit)?;
                Ok(true)
            }
            None => Ok(false),
        }
    }
}

/// Serves a datagram, and sends the reply to its sender (RFC 5452 section 9.1). A reply that cannot be sent is lost, as any
/// datagram may be.
fn serve_datagram<D: DatagramResponder>(
    socket: &UdpSocket,
    request: &[u8],
    sender: SocketAddr,
    responder: &mut D,
    limit: DatagramLimit,
) -> Result<(), AllocError>
    ensures { MayServe D.replies (Datagram limit) responder.old responder.new }
{
    match responder.reply_by(request, Transport::Datagram(limit))? {
        Some(reply) => {
            let _sent = send_to(socket, reply.as_slice(), sender);
            Ok(())
        }
        None => Ok(()),
    }
}

/// Opens a datagram socket that does not wait, and returns its address.
fn datagram_socket<R: Net>(
    net: &R,
    local: SocketAddr,
) -> Result<(UdpSocket, SocketAddr), SocketError> {
    let socket = or_failed(UdpSocket::bind(net, local))?;
    or_failed(socket.set_nonblocking(true))?;
    let address = or_failed(socket.local_addr())?;
    Ok((socket, address))
}

/// Opens a listener that does not wait, and returns its address.
fn listener<R: Net<Listener = TcpListener, Stream = TcpStream>>(
    net: &R,
    local: SocketAddr,
) -> Result<(TcpListener, SocketAddr), SocketError> {
    let listener = or_failed(TcpListener::bind(net, local))?;
    or_failed(listener.set_nonblocking(true))?;
    let address = or_failed(listener.local_addr())?;
    Ok((listener, address))
}
