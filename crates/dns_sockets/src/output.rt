//! The bytes that wait to be written on a connection.

ghost use Rattle.std.specs.Prelude.{◌≡◌, ◌≤◌, ◌<◌, ◌++◌, ◌↔◌, [], drop, length, take, IsOk, IsTrue, OnErr, OnOk};
ghost use Rattle.dns_message_bytes.specs.frames.Frame.{frame};
ghost use Rattle.dns_sockets.specs.Output.{added};

use dns_message_bytes::frames::write_frame;
use dns_server::{Buffer, MAX_WAITING_LEN};
use std::alloc::{AllocError, Global};
use std::marker::Model;

/// The maximum length of a message, in bytes (RFC 1035 section 4.2.2).
const MAX_MESSAGE_LEN: usize = 65_535;

/// The bytes that wait to be written on a connection.
#[derive(Drop)]
pub(crate) struct Output {
    alloc: Global,
    waiting: Buffer,
}

impl Model for Output {
    ghost use Rattle.std.specs.Prelude.{List, ℕ};

    ghost Value = { List ℕ };

    ghost view = { λ output. output.waiting };
}

impl Output {
    /// Creates an output without bytes.
    pub(crate) fn new(alloc: Global) -> Output
        ensures { result ≡ [] }
    {
        Output {
            alloc,
            waiting: Buffer::new(alloc),
        }
    }

    /// Returns the bytes that wait.
    pub(crate) fn rest(&self) -> &[u8]
        ensures { result.now ≡ self.now }
    {
        self.waiting.as_slice()
    }

    /// Returns `true` if no reply may be added.
    pub(crate) fn is_full(&self) -> bool
        ensures { IsTrue result ↔ (65537 < length self.now) }
    {
        self.waiting.len() > MAX_WAITING_LEN
    }

    /// Removes bytes that were written.
    pub(crate) fn wrote(&mut self, count: usize)
        ensures { self.new ≡ drop count self.old }
    {
        let count = count.min(self.waiting.len());
        self.waiting.remove(count);
    }

    /// Adds the frame of a reply, or the first `most` bytes of it. A reply of more than 65,535 bytes has no frame, and is dropped.
    /// An error leaves the output unchanged.
    pub(crate) fn push(&mut self, reply: &[u8], most: Option<usize>) -> Result<(), AllocError>
        ensures ok { OnOk result (self.new ≡ self.old ++ added most reply.now) }
        ensures err { OnErr result (self.new ≡ self.old) }
        ensures long { 65535 < length reply.now → IsOk result × (self.new ≡ self.old) }
    {
        if reply.len() > MAX_MESSAGE_LEN {
            return Ok(());
        }
        match most {
            None => self.waiting.push_frame(reply),
            Some(count) => self.push_front(reply, count),
        }
    }

    /// Adds the first bytes of the frame of a reply.
    fn push_front(&mut self, reply: &[u8], count: usize) -> Result<(), AllocError>
        requires { length reply.now ≤ 65535 }
        ensures ok { OnOk result (self.new ≡ self.old ++ take count (frame reply.now)) }
        ensures err { OnErr result (self.new ≡ self.old) }
    {
        let mut bytes = Vec::new(self.alloc);
        write_frame(&mut bytes, reply)?;
        bytes.truncate(count);
        self.waiting.push(bytes.as_slice())
    }
}
