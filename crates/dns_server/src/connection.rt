//! Connections: the state of a stream of messages (RFC 1035 section 4.2.2, RFC 7766 sections 6.2 and 8).

ghost use Rattle.std.specs.Prelude.{◌≡◌, ◌≤◌, ◌-◌, ◌+◌, ◌++◌, [], Some, IsSome, length, drop, OnOk, OnErr};
ghost use Rattle.std.specs.Option.{option_copied, option_map};
ghost use Rattle.dns_server.specs.Connection.{completed, first_message as first_message_of, max_input_len, max_output_len, next_message};

use crate::buffer::Buffer;
use crate::frame::{first_message, frame_len};
use std::alloc::{AllocError, Global};
use std::marker::Model;

/// The greatest number of bytes that a connection holds of requests: those of the longest frame.
pub const MAX_INPUT_LEN: usize = 65_537;

/// The greatest number of bytes that wait to be written while a message is served. Its reply may add 65,537.
pub const MAX_WAITING_LEN: usize = 65_537;

/// The greatest length of a message, in bytes.
const MAX_MESSAGE_LEN: usize = 65_535;

/// The state of a stream: the bytes that are received and not yet served, and those to be written.
///
/// Whole frames are served in order, whatever the pieces in which their bytes arrive. A peer that does not read its replies, or
/// never ends a frame, costs a fixed amount of memory.
#[derive(Drop)]
pub struct Connection {
    input: Buffer,
    output: Buffer,
}

impl Model for Connection {
    ghost use Rattle.std.specs.Prelude.{◌≤◌, length};
    ghost use Rattle.dns_server.specs.Connection.{Stream, max_input_len, max_output_len};

    ghost Value = { Stream };

    ghost view = { λ c. record { input = c.input; output = c.output } };

    ghost invariant = { λ c. (length c.input ≤ max_input_len) × (length c.output ≤ max_output_len) };
}

impl Connection {
    /// Creates a connection on which nothing is received.
    pub fn new(alloc: Global) -> Connection
        ensures { result ≡ record { input = []; output = [] } }
    {
        Connection {
            input: Buffer::new(alloc),
            output: Buffer::new(alloc),
        }
    }

    /// Returns how many more bytes may be received now: 0 only if there is a whole frame.
    pub fn room(&self) -> usize
        ensures room { result + length self.now.input ≡ max_input_len }
        ensures full { result ≡ 0 → IsSome (first_message_of self.now.input) }
    {
        prove!(frame_len(self.input.as_slice()) <= MAX_INPUT_LEN);
        MAX_INPUT_LEN - self.input.len()
    }

    /// Adds bytes that are received, at most as many as there is room for. An error leaves the connection unchanged.
    pub fn received(&mut self, bytes: &[u8]) -> Result<(), AllocError>
        requires { length self.old.input + length bytes.now ≤ max_input_len }
        ensures ok { OnOk result (self.new ≡ record self.old {
          input = self.old.input ++ bytes.now;
        }) }
        ensures err { OnErr result (self.new ≡ self.old) }
    {
        self.input.push(bytes)
    }

    /// Returns the message of the first frame, or `None` while only a part of the frame is received, or while more than
    /// [`MAX_WAITING_LEN`] bytes wait to be written.
    pub fn next_message(&self) -> Option<&[u8]>
        ensures { option_copied result ≡ next_message self.now }
    {
        if self.output.len() > MAX_WAITING_LEN {
            return None;
        }
        first_message(self.input.as_slice())
    }

    /// Removes the first frame, and adds the frame of its reply to the bytes to be written. A reply of more than 65,535 bytes
    /// has no frame, and is dropped. An error leaves the connection unchanged.
    pub fn complete(&mut self, reply: Option<&[u8]>) -> Result<(), AllocError>
        requires { IsSome (next_message self.old) }
        ensures ok { OnOk result (self.new ≡ completed self.old (option_copied reply.entry)) }
        ensures err { OnErr result (self.new ≡ self.old) }
    {
        if let Some(reply) = reply {
            if reply.len() <= MAX_MESSAGE_LEN {
                self.output.push_frame(reply)?;
            }
        }
        let len = frame_len(self.input.as_slice());
        self.input.remove(len);
        Ok(())
    }

    /// Returns the bytes to be written: at most 131,074.
    pub fn to_write(&self) -> &[u8]
        ensures bytes { result.now ≡ self.now.output }
        ensures most { length self.now.output ≤ max_output_len }
    {
        self.output.as_slice()
    }

    /// Removes so many bytes that are written.
    pub fn wrote(&mut self, count: usize)
        requires { count ≤ length self.old.output }
        ensures { self.new ≡ record self.old { output = drop count self.old.output } }
    {
        self.output.remove(count);
    }
}
