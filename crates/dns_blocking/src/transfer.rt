//! Messages are carried over streams, as frames (RFC 1035 section 4.2.2, RFC 7766 section 8).

ghost use Rattle.std.specs.Prelude.{◌≡◌, ◌<◌, ◌≤◌, ◌++◌, List, ℕ, length, Err, IfOk, OnErr};
ghost use Rattle.dns_message_bytes.specs.frames.Frame.{frame};
ghost use Rattle.dns_blocking.specs.declared.error.SocketError.TheVariants.{Failed};

use crate::calls::{read, write};
use crate::error::SocketError;
use dns_message_bytes::frames::{FrameError, ListSource, read_frame, write_frame};
use std::alloc::{AllocError, Global};
use std::net::TcpStream;

/// The maximum size of a message, in bytes (RFC 1035 section 4.2.2).
const MAX_MESSAGE_LEN: usize = 65_535;

/// The maximum number of bytes that are written before they are read at the other end. The buffers of sockets hold more.
const PIECE_LEN: usize = 16_384;

/// Sends a message from one end of a stream, and returns the message that arrives at the other end. Both ends belong to the
/// caller, whose thread writes and reads in turn.
///
/// # Errors
///
/// - [`SocketError::Failed`] if the message has more than 65,535 bytes, or an end of the stream fails or is not ready for as
///   long as it waits;
/// - [`SocketError::Memory`] if the frame, what is received, or the message cannot be allocated.
pub fn transfer_message(
    alloc: Global,
    from: &TcpStream,
    to: &TcpStream,
    message: &[u8],
) -> Result<Vec<u8>, SocketError>
    ensures { 65535 < length message.now → result ≡ Err Failed }
{
    if message.len() > MAX_MESSAGE_LEN {
        return Err(SocketError::Failed);
    }
    let sent = frame_of(alloc, message)?;
    let received = received_bytes(alloc, from, to, sent.as_slice())?;
    message_in(alloc, received.as_slice())
}

/// Returns the frame of a message.
fn frame_of(alloc: Global, message: &[u8]) -> Result<Vec<u8>, AllocError>
    requires { length message.now ≤ 65535 }
    ensures { IfOk result (λ bytes. bytes.items ≡ frame message.now) }
{
    let mut frame = Vec::new(alloc);
    write_frame(&mut frame, message)?;
    Ok(frame)
}

/// Returns the message of the frame with which received bytes begin.
fn message_in(alloc: Global, received: &[u8]) -> Result<Vec<u8>, SocketError>
    ensures { IfOk result (λ message.
        (rest : List ℕ) × (received.now ≡ frame message.items ++ rest)) }
{
    let mut source = ListSource::new(received, PIECE_LEN);
    match read_frame(alloc, &mut source) {
        Ok(Some(message)) => Ok(message),
        // There was no memory for the message.
        Err(FrameError::Memory) => Err(SocketError::Memory),
        Ok(None) | Err(FrameError::Truncated) | Err(FrameError::Failed) => Err(SocketError::Failed),
    }
}

/// Sends bytes from one end of a stream, and returns as many bytes that arrive at the other end.
fn received_bytes(
    alloc: Global,
    from: &TcpStream,
    to: &TcpStream,
    sent: &[u8],
) -> Result<Vec<u8>, SocketError> {
    let mut received = vec![in alloc; 0u8; sent.len()]?;
    carry(from, to, sent, received.as_mut_slice())?;
    Ok(received)
}

/// Sends bytes from one end of a stream in pieces, each of which is received at the other end before the next one is sent: so
/// no piece waits for the buffers of the sockets.
fn carry(
    from: &TcpStream,
    to: &TcpStream,
    sent: &[u8],
    received: &mut [u8],
) -> Result<(), SocketError>
    requires { length received.old ≡ length sent.now }
    ensures { OnErr result (result ≡ Err Failed) }
{
    let mut done = 0;
    while done < sent.len() {
        let end = sent.len().min(done.saturating_add(PIECE_LEN));
        let count = write(from, &sent[done..end])?;
        fill(to, &mut received[done..done + count])?;
        done += count;
    }
    Ok(())
}

/// Reads from a stream until a buffer is full. It is an error if the stream ends before.
fn fill(stream: &TcpStream, buffer: &mut [u8]) -> Result<(), SocketError>
    ensures { OnErr result (result ≡ Err Failed) }
{
    let mut filled = 0;
    while filled < buffer.len() {
        filled += read(stream, &mut buffer[filled..])?;
    }
    Ok(())
}
