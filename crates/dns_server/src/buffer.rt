//! Bytes that wait: they are added at the end, and removed from the front.

ghost use Rattle.std.specs.Prelude.{◌≡◌, ◌≤◌, ◌++◌, [], length, drop, OnOk, OnErr};
ghost use Rattle.dns_message_bytes.specs.frames.Frame.{frame};

use dns_message_bytes::frames::write_frame;
use std::alloc::{AllocError, Global};
use std::marker::Model;

/// How many removed bytes are kept at most in front of those that wait, once more are added.
const MAX_REMOVED_LEN: usize = 65_536;

/// Bytes that wait. Removed bytes stay in front of them until there are none after these, or more than 65,536 of them: so
/// each byte is moved at most once for one that is removed, however small the pieces.
#[derive(Drop)]
pub struct Buffer {
    bytes: Vec<u8>,
    /// The number of removed bytes.
    start: usize,
}

impl Model for Buffer {
    ghost use Rattle.std.specs.Prelude.{List, ℕ, ◌≤◌, drop, vec_len};

    ghost Value = { List ℕ };

    ghost view = { λ buffer. drop buffer.start buffer.bytes.items };

    ghost invariant = { λ buffer. buffer.start ≤ vec_len buffer.bytes };
}

impl Buffer {
    /// Creates an empty buffer.
    pub fn new(alloc: Global) -> Buffer
        ensures { result ≡ [] }
    {
        Buffer {
            bytes: Vec::new(alloc),
            start: 0,
        }
    }

    /// Returns the number of bytes.
    pub fn len(&self) -> usize
        ensures { result ≡ length self.now }
    {
        self.bytes.len() - self.start
    }

    /// Returns the bytes.
    pub fn as_slice(&self) -> &[u8]
        ensures { result.now ≡ self.now }
    {
        &self.bytes.as_slice()[self.start..]
    }

    /// Adds bytes. An error leaves the buffer unchanged.
    pub fn push(&mut self, bytes: &[u8]) -> Result<(), AllocError>
        ensures ok { OnOk result (self.new ≡ self.old ++ bytes.now) }
        ensures err { OnErr result (self.new ≡ self.old) }
    {
        self.compact();
        self.bytes.extend_from_slice(bytes)
    }

    /// Adds the frame of a message. An error leaves the buffer unchanged.
    pub fn push_frame(&mut self, message: &[u8]) -> Result<(), AllocError>
        requires { length message.now ≤ 65535 }
        ensures ok { OnOk result (self.new ≡ self.old ++ frame message.now) }
        ensures err { OnErr result (self.new ≡ self.old) }
    {
        self.compact();
        write_frame(&mut self.bytes, message)
    }

    /// Removes the first `count` bytes.
    pub fn remove(&mut self, count: usize)
        requires { count ≤ length self.old }
        ensures { self.new ≡ drop count self.old }
    {
        self.start += count;
    }

    /// Drops the removed bytes if no others are there, or if they are many.
    fn compact(&mut self)
        ensures { self.new ≡ self.old }
    {
        if self.start == self.bytes.len() {
            self.bytes.clear();
            self.start = 0;
        } else if self.start > MAX_REMOVED_LEN {
            drop_front(&mut self.bytes, self.start);
            self.start = 0;
        }
    }
}

/// Removes the first `count` bytes, and moves the others to their place.
fn drop_front(bytes: &mut Vec<u8>, count: usize)
    requires { count ≤ length bytes.old.items }
    ensures { bytes.new.items ≡ drop count bytes.old.items }
{
    let rest = bytes.len() - count;
    bytes.as_mut_slice().copy_within(count.., 0);
    bytes.truncate(rest);
}
