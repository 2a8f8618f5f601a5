//! A decoder: reads numbers and slices from the front of the unread bytes.

ghost use Rattle.std.specs.Prelude.{◌≡◌, ◌+◌, ◌<◌, ◌≤◌, ◌↔◌, ◌⊎◌, ℕ, List, [], ◌∷◌, ◌++◌, length, slice_range, IsOk, IsTrue, IfOk, IfErr, OnErr, slice_get};
ghost use Rattle.std.specs.Int.{w16, w32, to_be_bytes, cast_unsigned};
ghost use Rattle.dns_wire.specs.Decoder.{rest, Advances};
ghost use Rattle.dns_wire.specs.Pointers.{Follows, IsTableOf};

use crate::error::DecodeError;
use crate::pointers::{self, PointerTable};
use std::alloc::Global;
use std::marker::Model;

/// A decoder over borrowed bytes. A failed read leaves it unchanged.
///
/// `ends` are the ends of the chains of pointers, from the first place of the bytes on, as a table has them. Without a table
/// there are none.
#[derive(Drop)]
pub struct BinDecoder<'a> {
    buffer: &'a [u8],
    index: usize,
    ends: &'a [u16],
}

impl<'a> Model for BinDecoder<'a> {
    ghost use Rattle.std.specs.Prelude.{◌≤◌, length};
    ghost use Rattle.dns_wire.specs.Decoder.{Decoder};
    ghost use Rattle.dns_wire.specs.Pointers.{AreEnds};

    ghost Value = { Decoder };

    ghost view = { λ d. record { bytes = d.buffer.now; index = d.index } };

    ghost invariant = { λ d. (d.index ≤ length d.buffer.now)
        × AreEnds d.buffer.now d.ends.now };
}

impl<'a> BinDecoder<'a> {
    /// Creates a decoder at the start of the bytes.
    pub fn new(buffer: &'a [u8]) -> Self
        ensures { result ≡ record { bytes = buffer.now; index = 0 } }
    {
        BinDecoder {
            buffer,
            index: 0,
            ends: &[],
        }
    }

    /// Creates a decoder at the start of the bytes, which follows pointers by the table of these bytes.
    pub fn with_pointers(buffer: &'a [u8], table: &'a PointerTable) -> Self
        requires { IsTableOf buffer.now table.now }
        ensures { result ≡ record { bytes = buffer.now; index = 0 } }
    {
        BinDecoder {
            buffer,
            index: 0,
            ends: table.ends(),
        }
    }

    /// Returns a decoder over the same bytes, at another index, which must not be past their end.
    pub fn clone(&self, index_at: usize) -> BinDecoder<'a>
        requires { index_at ≤ length self.now.bytes }
        ensures { result ≡ record self.now { index = index_at } }
    {
        BinDecoder {
            buffer: self.buffer,
            index: index_at,
            ends: self.ends,
        }
    }

    /// Returns the index of the next byte.
    pub fn index(&self) -> usize
        ensures value { result ≡ self.now.index }
        ensures within { result ≤ length self.now.bytes }
    {
        self.index
    }

    /// Returns the number of unread bytes.
    pub fn len(&self) -> usize
        ensures { result ≡ length (rest self.now) }
    {
        self.buffer.len() - self.index
    }

    /// Returns `true` if no byte is unread.
    pub fn is_empty(&self) -> bool
        ensures { IsTrue result ↔ (rest self.now ≡ []) }
    {
        self.len() == 0
    }

    /// Returns the next byte without reading it.
    pub fn peek(&self) -> Option<u8>
        ensures { result ≡ slice_get (rest self.now) 0 }
    {
        if self.index < self.buffer.len() {
            Some(self.buffer[self.index])
        } else {
            None
        }
    }

    /// Reads the next `len` bytes, without copying them.
    pub fn read_slice(&mut self, len: usize) -> Result<&'a [u8], DecodeError>
        ensures ok { IfOk result (λ bytes. rest self.old ≡ bytes.now ++ rest self.new) }
        ensures len { IfOk result (λ bytes. length bytes.now ≡ len) }
        ensures moved { IfOk result (λ _. Advances self.old self.new len) }
        ensures short { IfErr result (λ error.
            (error ≡ DecodeError.InsufficientBytes) × (length (rest self.old) < len)) }
        ensures err { OnErr result (self.new ≡ self.old) }
    {
        if self.buffer.len() - self.index < len {
            return Err(DecodeError::InsufficientBytes);
        }
        let start = self.index;
        self.index = start + len;
        Ok(&self.buffer[start..start + len])
    }

    /// Reads a byte.
    pub fn read_u8(&mut self) -> Result<u8, DecodeError>
        ensures ok { IfOk result (λ byte. rest self.old ≡ byte ∷ rest self.new) }
        ensures moved { IfOk result (λ _. Advances self.old self.new 1) }
        ensures short { IfErr result (λ error.
            (error ≡ DecodeError.InsufficientBytes) × (rest self.old ≡ [])) }
        ensures err { OnErr result (self.new ≡ self.old) }
    {
        let bytes = self.read_slice(1)?;
        Ok(bytes[0])
    }

    /// Reads a 16-bit number in network byte order.
    pub fn read_u16(&mut self) -> Result<u16, DecodeError>
        ensures ok { IfOk result
            (λ number. rest self.old ≡ to_be_bytes w16 number ++ rest self.new) }
        ensures moved { IfOk result (λ _. Advances self.old self.new 2) }
        ensures short { IfErr result (λ error.
            (error ≡ DecodeError.InsufficientBytes) × (length (rest self.old) < 2)) }
        ensures err { OnErr result (self.new ≡ self.old) }
    {
        let bytes = self.read_slice(2)?;
        Ok(u16::from_be_bytes([bytes[0], bytes[1]]))
    }

    /// Reads a 32-bit number in network byte order.
    pub fn read_u32(&mut self) -> Result<u32, DecodeError>
        ensures ok { IfOk result
            (λ number. rest self.old ≡ to_be_bytes w32 number ++ rest self.new) }
        ensures moved { IfOk result (λ _. Advances self.old self.new 4) }
        ensures short { IfErr result (λ error.
            (error ≡ DecodeError.InsufficientBytes) × (length (rest self.old) < 4)) }
        ensures err { OnErr result (self.new ≡ self.old) }
    {
        let bytes = self.read_slice(4)?;
        Ok(u32::from_be_bytes([bytes[0], bytes[1], bytes[2], bytes[3]]))
    }

    /// Reads a signed 32-bit number in network byte order.
    pub fn read_i32(&mut self) -> Result<i32, DecodeError>
        ensures ok { IfOk result (λ number.
            rest self.old ≡ to_be_bytes w32 (cast_unsigned w32 number) ++ rest self.new) }
        ensures moved { IfOk result (λ _. Advances self.old self.new 4) }
        ensures short { IfErr result (λ error.
            (error ≡ DecodeError.InsufficientBytes) × (length (rest self.old) < 4)) }
        ensures err { OnErr result (self.new ≡ self.old) }
    {
        Ok(self.read_u32()?.cast_signed())
    }

    /// Reads a byte, like `read_u8`.
    pub fn pop(&mut self) -> Result<u8, DecodeError>
        ensures ok { IfOk result (λ byte. rest self.old ≡ byte ∷ rest self.new) }
        ensures moved { IfOk result (λ _. Advances self.old self.new 1) }
        ensures short { IfErr result (λ error.
            (error ≡ DecodeError.InsufficientBytes) × (rest self.old ≡ [])) }
        ensures err { OnErr result (self.new ≡ self.old) }
    {
        self.read_u8()
    }

    /// Reads the next `len` bytes into a new vector. Nothing is allocated if fewer are unread.
    pub fn read_vec(&mut self, alloc: Global, len: usize) -> Result<Vec<u8>, DecodeError>
        ensures ok { IfOk result (λ bytes. rest self.old ≡ bytes.items ++ rest self.new) }
        ensures len { IfOk result (λ bytes. length bytes.items ≡ len) }
        ensures moved { IfOk result (λ _. Advances self.old self.new len) }
        ensures short { (result ≡ Err DecodeError.InsufficientBytes)
            ↔ (length (rest self.old) < len) }
        ensures only { IfErr result (λ error.
            (error ≡ DecodeError.InsufficientBytes) ⊎ (error ≡ DecodeError.Memory)) }
        ensures err { OnErr result (self.new ≡ self.old) }
    {
        let mut reader = self.clone(self.index);
        let bytes = Vec::from_slice(alloc, reader.read_slice(len)?)?;
        *self = reader;
        Ok(bytes)
    }

    /// Reads a character string: a length byte and as many bytes, which are not copied (RFC 1035 section 3.3).
    pub fn read_character_data(&mut self) -> Result<&'a [u8], DecodeError>
        ensures ok { IfOk result
            (λ bytes. rest self.old ≡ length bytes.now ∷ (bytes.now ++ rest self.new)) }
        ensures moved { IfOk result (λ bytes. Advances self.old self.new (length bytes.now + 1)) }
        ensures short { IfErr result (λ error. error ≡ DecodeError.InsufficientBytes) }
        ensures complete { (bytes more : List ℕ) → length bytes < 256
            → rest self.old ≡ length bytes ∷ (bytes ++ more) → IsOk result }
        ensures err { OnErr result (self.new ≡ self.old) }
    {
        let mut reader = self.clone(self.index);
        let len = reader.read_u8()?;
        let bytes = reader.read_slice(len as usize)?;
        *self = reader;
        Ok(bytes)
    }

    /// Returns the bytes from `index` up to the decoder's index, which `index` must not be past.
    pub fn slice_from(&self, index: usize) -> &'a [u8]
        requires { index ≤ self.now.index }
        ensures { result.now ≡ slice_range self.now.bytes index self.now.index }
    {
        &self.buffer[index..self.index]
    }

    /// Follows compression pointers from `place` on, which must not be past the end of the bytes, and returns the first
    /// place without a pointer to an earlier place (RFC 1035 section 4.1.4).
    pub fn follow_pointers(&self, place: usize) -> usize
        requires { place ≤ length self.now.bytes }
        ensures follows { Follows self.now.bytes place result }
        ensures within { result ≤ place }
    {
        match self.ends.get(place) {
            Some(end) => usize::from(*end),
            None => pointers::follow(self.buffer, place),
        }
    }
}
