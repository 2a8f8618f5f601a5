//! Streams between both ends of an exchange.

ghost use Rattle.std.specs.Prelude.{◌≡◌, Err, OnErr};
ghost use Rattle.dns_blocking.specs.declared.error.SocketError.TheVariants.{Failed};

use crate::calls::{or_failed, patience};
use crate::error::SocketError;
use std::io;
use std::io::ErrorKind;
use std::net::{Net, SocketAddr, TcpListener, TcpStream};
use std::time::Duration;

/// How many connections are accepted until the right one is found: more than a listener queues.
const MAX_ACCEPTED: u32 = 1_024;

/// How often a connection is looked for, each time after a wait of ten milliseconds: for a second.
const MAX_LOOKS: u32 = 100;

/// How long to wait before a connection is looked for again, in milliseconds.
const LOOK_INTERVAL: u64 = 10;

/// Closes the connections that wait for a server, at most 1,024 of them, so that a further one finds room. The listener must
/// not wait ([`ServerEnd::listener`](crate::ServerEnd::listener)), or this call waits for a connection.
pub fn close_waiting(listener: &TcpListener) {
    for _closed in 0..MAX_ACCEPTED {
        if listener.accept().is_err() {
            return;
        }
    }
}

/// Connects to a server, and returns the end of the stream that asks. It sends what is written at once.
///
/// The error is [`SocketError::Failed`] if the connection is refused, or not made within a second.
pub fn connect<R: Net<Listener = TcpListener, Stream = TcpStream>>(
    net: &R,
    server: SocketAddr,
) -> Result<TcpStream, SocketError>
    ensures { OnErr result (result ≡ Err Failed) }
{
    let stream = or_failed(net.connect_timeout(server, patience()))?;
    or_failed(stream.set_nodelay(true))?;
    Ok(stream)
}

/// Accepts a connection, given its other end, and returns the end of the stream that serves. It sends what is written at once.
/// Connections from other addresses are closed, at most 1,024.
///
/// The listener must not wait ([`ServerEnd::listener`](crate::ServerEnd::listener)). Between two looks at it, the call waits
/// for bytes at the other end, whose read timeout it sets to 10 milliseconds; [`set_patience`] sets it again.
///
/// The error is [`SocketError::Failed`] if the listener fails, or the connection does not arrive within a second.
pub fn accept(listener: &TcpListener, asker: &TcpStream) -> Result<TcpStream, SocketError>
    ensures { OnErr result (result ≡ Err Failed) }
{
    let address = or_failed(asker.local_addr())?;
    for _closed in 0..MAX_ACCEPTED {
        let (stream, peer) = accept_any(listener, asker)?;
        if peer == address {
            or_failed(stream.set_nodelay(true))?;
            return Ok(stream);
        }
    }
    Err(SocketError::Failed)
}

/// Accepts the next connection, which is waited for for a second.
fn accept_any(
    listener: &TcpListener,
    asker: &TcpStream,
) -> Result<(TcpStream, SocketAddr), SocketError>
    ensures { OnErr result (result ≡ Err Failed) }
{
    for _look in 0..MAX_LOOKS {
        match listener.accept() {
            Ok(accepted) => return Ok(accepted),
            Err(error) => wait(&error, asker)?,
        }
    }
    Err(SocketError::Failed)
}

/// Waits before another look for a connection. An error other than that there is none yet is returned.
fn wait(error: &io::Error, asker: &TcpStream) -> Result<(), SocketError>
    ensures { OnErr result (result ≡ Err Failed) }
{
    if error.kind() != ErrorKind::WouldBlock {
        return Err(SocketError::Failed);
    }
    or_failed(asker.set_read_timeout(Some(Duration::from_millis(LOOK_INTERVAL))))?;
    // Nothing can arrive before the connection is accepted.
    let _nothing = asker.peek(&mut [0u8]);
    Ok(())
}

/// Makes the calls of a stream wait for at most a second.
///
/// The error is [`SocketError::Failed`] if the system refuses it.
pub fn set_patience(stream: &TcpStream) -> Result<(), SocketError>
    ensures { OnErr result (result ≡ Err Failed) }
{
    or_failed(stream.set_read_timeout(Some(patience())))?;
    or_failed(stream.set_write_timeout(Some(patience())))
}
