//! Calls of sockets, which are repeated while signals interrupt them.

ghost use Rattle.std.specs.Prelude.{◌≡◌, ◌<◌, ◌≤◌, length, Ok, Err, IfOk, IfSome, OnErr, MatchResult};
ghost use Rattle.std.specs.Duration.{as_nanos};
ghost use Rattle.std.specs.IoError.{error_kind};
ghost use Rattle.dns_blocking.specs.Calls.{loopback, trouble_of};
ghost use Rattle.dns_blocking.specs.declared.error.SocketError.TheVariants.{Failed};

use crate::error::SocketError;
use std::io;
use std::io::{ErrorKind, Read, Write};
use std::net::{Ipv4Addr, SocketAddr, SocketAddrV4, TcpStream, UdpSocket};
use std::time::Duration;

/// How long a call waits for the other end, in seconds.
const PATIENCE: u64 = 1;

/// How often a call is made while signals interrupt it.
const MAX_ATTEMPTS: u32 = 1_024;

/// Why a call of a socket has no result.
#[derive(Clone, Copy)]
enum Trouble {
    /// A signal interrupted it.
    Interrupted,
    /// The socket was not ready, for as long as the call waits.
    NotReady,
    /// It failed.
    Failed,
}

/// Returns an address for a new socket: that of the loopback interface, 127.0.0.1, and port 0, for which the system chooses a
/// port.
pub fn loopback() -> SocketAddr
    ensures { result ≡ loopback }
{
    SocketAddr::V4(SocketAddrV4::new(Ipv4Addr::LOCALHOST, 0))
}

/// Returns how long a call waits for the other end: one second.
pub fn patience() -> Duration
    ensures { as_nanos result ≡ 1_000_000_000 }
{
    Duration::from_secs(PATIENCE)
}

/// Returns what the error of a call means.
fn trouble_of(error: &io::Error) -> Trouble
    ensures { result ≡ trouble_of (error_kind error.now) }
{
    match error.kind() {
        ErrorKind::Interrupted => Trouble::Interrupted,
        ErrorKind::WouldBlock => Trouble::NotReady,
        ErrorKind::TimedOut => Trouble::NotReady,
        _ => Trouble::Failed,
    }
}

/// Returns the result of a call, or [`SocketError::Failed`] if it failed.
pub fn or_failed<T>(result_of_call: io::Result<T>) -> Result<T, SocketError>
    ensures { MatchResult result_of_call (λ value. result ≡ Ok value) (λ _. result ≡ Err Failed) }
{
    match result_of_call {
        Ok(value) => Ok(value),
        Err(_) => Err(SocketError::Failed),
    }
}

/// Receives a datagram to the front of a buffer, and returns its length in bytes and the address of its sender, or `None` if
/// the socket has none for as long as it waits. The bytes of a datagram that the buffer has no room for are lost.
///
/// The error is [`SocketError::Failed`] if the socket fails, or signals interrupt the call 1,024 times.
pub fn receive(
    socket: &UdpSocket,
    buffer: &mut [u8],
) -> Result<Option<(usize, SocketAddr)>, SocketError>
    ensures within { IfOk result (λ found. IfSome found (λ it. it.0 ≤ length buffer.new)) }
    ensures failed { OnErr result (result ≡ Err Failed) }
{
    for _attempt in 0..MAX_ATTEMPTS {
        match socket.recv_from(buffer) {
            Ok(received) => return Ok(Some(received)),
            Err(error) => match trouble_of(&error) {
                Trouble::Interrupted => {}
                Trouble::NotReady => return Ok(None),
                Trouble::Failed => return Err(SocketError::Failed),
            },
        }
    }
    Err(SocketError::Failed)
}

/// Sends a datagram to the peer of a socket.
///
/// The error is [`SocketError::Failed`] if the socket fails or has no peer, if it takes no datagram for as long as it waits,
/// or if signals interrupt the call 1,024 times.
pub fn send(socket: &UdpSocket, bytes: &[u8]) -> Result<(), SocketError>
    ensures { OnErr result (result ≡ Err Failed) }
{
    for _attempt in 0..MAX_ATTEMPTS {
        match socket.send(bytes) {
            Ok(_) => return Ok(()),
            Err(error) => match trouble_of(&error) {
                Trouble::Interrupted => {}
                Trouble::NotReady | Trouble::Failed => return Err(SocketError::Failed),
            },
        }
    }
    Err(SocketError::Failed)
}

/// Sends a datagram to an address.
///
/// The error is [`SocketError::Failed`] if the socket fails, if it takes no datagram for as long as it waits, or if signals
/// interrupt the call 1,024 times.
pub fn send_to(socket: &UdpSocket, bytes: &[u8], address: SocketAddr) -> Result<(), SocketError>
    ensures { OnErr result (result ≡ Err Failed) }
{
    for _attempt in 0..MAX_ATTEMPTS {
        match socket.send_to(bytes, address) {
            Ok(_) => return Ok(()),
            Err(error) => match trouble_of(&error) {
                Trouble::Interrupted => {}
                Trouble::NotReady | Trouble::Failed => return Err(SocketError::Failed),
            },
        }
    }
    Err(SocketError::Failed)
}

/// Reads from a stream to the front of a buffer, and returns the number of bytes, which is above 0.
///
/// The error is [`SocketError::Failed`] if the stream fails or is at its end, if the buffer is empty, if nothing arrives for as
/// long as the stream waits, or if signals interrupt the call 1,024 times.
pub fn read(stream: &TcpStream, buffer: &mut [u8]) -> Result<usize, SocketError>
    ensures count { IfOk result (λ count. (0 < count) × (count ≤ length buffer.new)) }
    ensures failed { OnErr result (result ≡ Err Failed) }
{
    let mut source = stream;
    for _attempt in 0..MAX_ATTEMPTS {
        match source.read(buffer) {
            Ok(0) => return Err(SocketError::Failed),
            Ok(count) => return Ok(count),
            Err(error) => match trouble_of(&error) {
                Trouble::Interrupted => {}
                Trouble::NotReady | Trouble::Failed => return Err(SocketError::Failed),
            },
        }
    }
    Err(SocketError::Failed)
}

/// Writes bytes from the front to a stream, and returns their number, which is above 0.
///
/// The error is [`SocketError::Failed`] if the stream fails, if there are no bytes, if none is written for as long as the
/// stream waits, or if signals interrupt the call 1,024 times.
pub fn write(stream: &TcpStream, bytes: &[u8]) -> Result<usize, SocketError>
    ensures count { IfOk result (λ count. (0 < count) × (count ≤ length bytes.now)) }
    ensures failed { OnErr result (result ≡ Err Failed) }
{
    let mut sink = stream;
    for _attempt in 0..MAX_ATTEMPTS {
        match sink.write(bytes) {
            Ok(0) => return Err(SocketError::Failed),
            Ok(count) => return Ok(count),
            Err(error) => match trouble_of(&error) {
                Trouble::Interrupted => {}
                Trouble::NotReady | Trouble::Failed => return Err(SocketError::Failed),
            },
        }
    }
    Err(SocketError::Failed)
}
