//! An exchange over a stream (RFC 7766 section 8).

ghost use Rattle.std.specs.Prelude.{◌≡◌, ◌≤◌};

use crate::stopwatch::Stopwatch;
use dns_blocking::{SocketError, or_failed, read, write};
use dns_message_bytes::frames::write_frame;
use std::alloc::Global;
use std::net::{Net, SocketAddr, TcpListener, TcpStream};
use std::time::{Clock, Duration};

/// The maximum size of a message, in bytes (RFC 1035 section 4.2.2).
const MAX_MESSAGE_LEN: usize = 65_535;

/// A stream to a server whose calls end at a deadline.
#[derive(Drop)]
struct TimedStream<'a, R> {
    stream: TcpStream,
    clock: &'a mut Stopwatch<R>,
    deadline: u64,
}

/// Sends a message to a server over a stream, and returns the message that is received before the deadline, in milliseconds of
/// the clock.
pub(crate) fn exchange<R: Net<Listener = TcpListener, Stream = TcpStream>, C: Clock>(
    net: &R,
    alloc: Global,
    clock: &mut Stopwatch<C>,
    server: SocketAddr,
    bytes: &[u8],
    deadline: u64,
) -> Result<Vec<u8>, SocketError>
    ensures { clock.old.last ≤ clock.new.last }
{
    if bytes.len() > MAX_MESSAGE_LEN {
        return Err(SocketError::Failed);
    }
    let mut frame = Vec::new(alloc);
    write_frame(&mut frame, bytes)?;
    let stream = or_failed(net.connect_timeout(server, time_left(clock, deadline)?))?;
    or_failed(stream.set_nodelay(true))?;
    let mut stream = TimedStream {
        stream,
        clock,
        deadline,
    };
    stream.write_all(frame.as_slice())?;
    stream.read_message(alloc)
}

/// Returns how long it is to a deadline. If it has passed, the error is [`SocketError::Failed`].
fn time_left<C: Clock>(clock: &mut Stopwatch<C>, deadline: u64) -> Result<Duration, SocketError>
    ensures { clock.old.last ≤ clock.new.last }
{
    match deadline.saturating_sub(clock.milliseconds()) {
        0 => Err(SocketError::Failed),
        left => Ok(Duration::from_millis(left)),
    }
}

impl<C: Clock> TimedStream<'_, C> {
    /// Writes bytes.
    fn write_all(&mut self, bytes: &[u8]) -> Result<(), SocketError>
        ensures reference { self.new.clock.ghost_name ≡ self.old.clock.ghost_name }
        ensures kept { self.old.clock.now.last ≤ self.new.clock.now.last }
    {
        let mut done = 0;
        while done < bytes.len() {
            let left = time_left(self.clock, self.deadline)?;
            or_failed(self.stream.set_write_timeout(Some(left)))?;
            done += write(&self.stream, &bytes[done..])?;
        }
        Ok(())
    }

    /// Reads the message of a frame: its length in two bytes, and so many bytes.
    fn read_message(&mut self, alloc: Global) -> Result<Vec<u8>, SocketError>
        ensures reference { self.new.clock.ghost_name ≡ self.old.clock.ghost_name }
        ensures kept { self.old.clock.now.last ≤ self.new.clock.now.last }
    {
        let mut length = [0u8; 2];
        self.fill(&mut length)?;
        let mut message = vec![in alloc; 0u8; usize::from(u16::from_be_bytes(length))]?;
        self.fill(message.as_mut_slice())?;
        Ok(message)
    }

    /// Reads bytes until a buffer is full. It is an error if the stream ends before.
    fn fill(&mut self, buffer: &mut [u8]) -> Result<(), SocketError>
        ensures reference { self.new.clock.ghost_name ≡ self.old.clock.ghost_name }
        ensures kept { self.old.clock.now.last ≤ self.new.clock.now.last }
    {
        let mut filled = 0;
        while filled < buffer.len() {
            let left = time_left(self.clock, self.deadline)?;
            or_failed(self.stream.set_read_timeout(Some(left)))?;
            filled += read(&self.stream, &mut buffer[filled..])?;
        }
        Ok(())
    }
}
