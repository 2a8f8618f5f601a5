//! A source of bytes in memory.

ghost use Rattle.std.specs.Prelude.{◌≡◌, ◌<◌, min, length, IfOk, Ok};
ghost use Rattle.dns_message_bytes.specs.frames.Frame.{ReadsFront};

use crate::frames::source::Source;
use std::marker::Model;

/// A source of bytes in memory, each of whose reads gives at most a fixed number of them. It never fails.
#[derive(Debug, Drop)]
pub struct ListSource<'a> {
    left: &'a [u8],
    piece: usize,
}

impl<'a> Model for ListSource<'a> {
    ghost use Rattle.std.specs.Prelude.{◌<◌};
    ghost use Rattle.dns_message_bytes.specs.frames.Frame.{Pieces};

    ghost Value = { Pieces };

    ghost view = { λ source. record { left = source.left.now; piece = source.piece } };

    ghost invariant = { λ source. 0 < source.piece };
}

impl<'a> ListSource<'a> {
    /// Creates a source of bytes, at most `piece` of them a read.
    pub fn new(bytes: &'a [u8], piece: usize) -> ListSource<'a>
        requires { 0 < piece }
        ensures { result ≡ record { left = bytes.now; piece = piece } }
    {
        ListSource { left: bytes, piece }
    }
}

impl<'a> Source for ListSource<'a> {
    ghost bytes_left = { λ source. source.left };

    ghost failure_count = { λ _. 0 };

    fn read(&mut self, buffer: &mut [u8]) -> Result<usize, ()>
        ensures ok { IfOk result (ReadsFront self.old.left (length buffer.old) buffer.new
            self.new.left) }
        ensures count { result
            ≡ Ok (min (min (length self.old.left) self.old.piece) (length buffer.old)) }
        ensures piece { self.new.piece ≡ self.old.piece }
    {
        let count = self.left.len().min(self.piece).min(buffer.len());
        let (front, rest) = self.left.split_at(count);
        buffer[..count].copy_from_slice(front);
        self.left = rest;
        Ok(count)
    }

    fn failures(&self) -> u64 {
        0
    }
}
