//! An encoder: writes bytes at an offset of a buffer, up to a size.

ghost use Rattle.std.specs.Prelude.{◌≡◌, ◌≤◌, vec_len, filter, nat_lt};

use crate::encodable::EncodedSize;
use crate::error::{EncodeError, ProtoError};
use crate::name_encoding::NameEncoding;
use crate::suffixes::Suffixes;
use std::alloc::{AllocError, Global};

/// The maximum size of a message (RFC 1035 section 4.2.2).
const MAX_MESSAGE_LEN: usize = 65_535;

/// How many suffixes an encoder remembers.
const MAX_SUFFIXES: usize = 64;

/// Suffixes are remembered below this offset, the greatest that a pointer's 14 bits can hold (RFC 1035 section 4.1.4).
const SUFFIX_OFFSET_LIMIT: usize = 0x3FFF;

/// How many names an encoder tries to compress.
const MAX_COMPRESSED_NAMES: usize = 120;

/// The maximum length of a character string (RFC 1035 section 3.3).
const MAX_CHARACTER_STRING_LEN: usize = 255;

/// An encoder over a borrowed buffer.
///
/// Names are compressed with pointers to the suffixes that it remembers (RFC 1035 section 4.1.4).
#[derive(Drop)]
pub struct BinEncoder<'a> {
    buffer: &'a mut Vec<u8>,
    offset: usize,
    max_size: usize,
    name_encoding: NameEncoding,
    canonical_form: bool,
    suffixes: Suffixes,
    attempts: usize,
    ghost within: { offset ≤ vec_len buffer.now },
    ghost small: { max_size ≤ 65535 },
}

impl<'a> BinEncoder<'a> {
    ghost use Rattle.std.specs.Prelude.{◌≡◌, vec_len, ◌+◌, ◌<◌, ◌≤◌, ◌↔◌, ◌⊎◌, nat_lt, if◌then◌else◌, [], ◌∷◌, ◌++◌, false, length, replicate, slice_range, IsTrue, IsOk, IfOk, IfErr, OnOk, OnErr, None};
    ghost use Rattle.std.specs.Int.{w16, w32, to_be_bytes, cast_unsigned};
    ghost use Rattle.dns_wire.specs.Encoder.{max_message_len, max_compressed_names, max_character_string_len, state_of, overwrite_at, put_at, place_of, remember, trim_to_offset, IsAtEnd, CanRollBack};
    ghost use Rattle.dns_wire.specs.Encodable.{Plain, Emits, Puts, PutsCharacterString};
    ghost use Rattle.dns_wire.specs.declared.name_encoding.NameEncoding.TheVariants.{Compressed};

    /// Creates an encoder at the start of the buffer. It compresses names, and its maximum size is 65,535 bytes.
    pub fn new(alloc: Global, buffer: &'a mut Vec<u8>) -> BinEncoder<'a>
        ensures { state_of result ≡ record {
          bytes = buffer.old.items;
          offset = 0;
          limit = max_message_len;
          encoding = Compressed;
          canonical = false;
          suffixes = [];
          attempts = 0;
          lender = buffer.entry.ghost_name;
        } }
    {
        BinEncoder::with_offset(alloc, buffer, 0, NameEncoding::Compressed)
    }

    /// Creates an encoder at an offset of the buffer, with this encoding of names and a maximum size of 65,535 bytes.
    /// The offset must not be past the end of the buffer.
    pub fn with_offset(
        alloc: Global,
        buffer: &'a mut Vec<u8>,
        offset: usize,
        name_encoding: NameEncoding,
    ) -> BinEncoder<'a>
        requires within { offset ≤ vec_len buffer.old }
        ensures { state_of result ≡ record {
          bytes = buffer.old.items;
          offset = offset;
          limit = max_message_len;
          encoding = name_encoding;
          canonical = false;
          suffixes = [];
          attempts = 0;
          lender = buffer.entry.ghost_name;
        } }
    {
        BinEncoder {
            buffer,
            offset,
            max_size: MAX_MESSAGE_LEN,
            name_encoding,
            canonical_form: false,
            suffixes: Suffixes::new(alloc),
            attempts: 0,
        }
    }

    /// Returns the buffer.
    pub fn into_bytes(self) -> &'a mut Vec<u8>
        ensures value { result.now.items ≡ (state_of self.entry).bytes }
        ensures lender { result.ghost_name ≡ (state_of self.entry).lender }
    {
        let BinEncoder {
            buffer,
            offset: _,
            max_size: _,
            name_encoding: _,
            canonical_form: _,
            suffixes,
            attempts: _,
        } = self;
        drop(suffixes);
        buffer
    }

    /// Returns the offset of the next byte.
    pub fn offset(&self) -> usize
        ensures value { result ≡ (state_of self.now).offset }
        ensures within { result ≤ length (state_of self.now).bytes }
        ensures small { (state_of self.now).limit ≤ max_message_len }
    {
        self.offset
    }

    /// Returns the length of the buffer.
    pub fn len(&self) -> usize
        ensures { result ≡ length (state_of self.now).bytes }
    {
        self.buffer.len()
    }

    /// Returns `true` if the buffer is empty.
    pub fn is_empty(&self) -> bool
        ensures { IsTrue result ↔ ((state_of self.now).bytes ≡ []) }
    {
        self.buffer.is_empty()
    }

    /// Sets the offset of the next byte, which must not be past the end of the buffer.
    pub fn set_offset(&mut self, offset: usize)
        requires { offset ≤ length (state_of self.old).bytes }
        ensures { state_of self.new ≡ record (state_of self.old) { offset = offset } }
    {
        self.offset = offset;
    }

    /// Sets the maximum size of the buffer.
    pub fn set_max_size(&mut self, max: u16)
        ensures { state_of self.new ≡ record (state_of self.old) { limit = max } }
    {
        self.max_size = usize::from(max);
    }

    /// Returns how names are encoded.
    pub fn name_encoding(&self) -> NameEncoding
        ensures { result ≡ (state_of self.now).encoding }
    {
        self.name_encoding
    }

    /// Sets how names are encoded.
    pub fn set_name_encoding(&mut self, encoding: NameEncoding)
        ensures { state_of self.new ≡ record (state_of self.old) { encoding = encoding } }
    {
        self.name_encoding = encoding;
    }

    /// Returns `true` if record data is written in canonical form (RFC 4034 section 6.2).
    pub fn is_canonical_form(&self) -> bool
        ensures { result ≡ (state_of self.now).canonical }
    {
        self.canonical_form
    }

    /// Sets whether record data is written in canonical form.
    pub fn set_canonical_form(&mut self, canonical_form: bool)
        ensures { state_of self.new ≡ record (state_of self.old) { canonical = canonical_form } }
    {
        self.canonical_form = canonical_form;
    }

    /// Writes bytes at the offset. They overwrite what is there, and extend the buffer past its end. Nothing is allocated
    /// if they would pass the maximum size, or if they only overwrite.
    pub fn emit_vec(&mut self, bytes: &[u8]) -> Result<(), EncodeError>
        ensures { Puts (state_of self.old) bytes.now result (state_of self.new) }
    {
        let offset = self.offset;
        if bytes.len() > self.max_size || offset > self.max_size - bytes.len() {
            return Err(EncodeError::MaxBufferSizeExceeded);
        }
        if offset == self.buffer.len() {
            self.buffer.extend_from_slice(bytes)?;
        } else {
            self.overwrite(bytes)?;
        }
        self.offset = offset + bytes.len();
        Ok(())
    }

    /// Overwrites the bytes at the offset, and extends the buffer past its end. The offset stays.
    fn overwrite(&mut self, bytes: &[u8]) -> Result<(), AllocError>
        ensures ok { OnOk result (state_of self.new ≡ record (state_of self.old) {
          bytes = put_at (state_of self.old).offset bytes.now (state_of self.old).bytes;
        }) }
        ensures decided { (state_of self.old).offset + length bytes.now
            ≤ length (state_of self.old).bytes → IsOk result }
        ensures err { OnErr result (state_of self.new ≡ state_of self.old) }
    {
        let offset = self.offset;
        let over = bytes.len().min(self.buffer.len() - offset);
        self.buffer.extend_from_slice(&bytes[over..])?;
        self.buffer[offset..offset + over].copy_from_slice(&bytes[..over]);
        Ok(())
    }

    /// Writes a byte.
    pub fn emit_u8(&mut self, byte: u8) -> Result<(), EncodeError>
        ensures { Puts (state_of self.old) (byte ∷ []) result (state_of self.new) }
    {
        self.emit_vec(&[byte])
    }

    /// Writes a 16-bit number in network byte order.
    pub fn emit_u16(&mut self, number: u16) -> Result<(), EncodeError>
        ensures { Puts (state_of self.old) (to_be_bytes w16 number) result (state_of self.new) }
    {
        self.emit_vec(&number.to_be_bytes())
    }

    /// Writes a 32-bit number in network byte order.
    pub fn emit_u32(&mut self, number: u32) -> Result<(), EncodeError>
        ensures { Puts (state_of self.old) (to_be_bytes w32 number) result (state_of self.new) }
    {
        self.emit_vec(&number.to_be_bytes())
    }

    /// Writes a signed 32-bit number in network byte order.
    pub fn emit_i32(&mut self, number: i32) -> Result<(), EncodeError>
        ensures { Puts (state_of self.old) (to_be_bytes w32 (cast_unsigned w32 number))
            result (state_of self.new) }
    {
        self.emit_u32(number.cast_unsigned())
    }

    /// Writes a byte, like `emit_u8`.
    pub fn emit(&mut self, byte: u8) -> Result<(), EncodeError>
        ensures { Puts (state_of self.old) (byte ∷ []) result (state_of self.new) }
    {
        self.emit_u8(byte)
    }

    /// Writes a character string: a length byte and at most 255 bytes (RFC 1035 section 3.3).
    pub fn emit_character_data_unrestricted(&mut self, bytes: &[u8]) -> Result<(), EncodeError>
        requires { length bytes.now < 256 }
        ensures puts { PutsCharacterString EncodeError.MaxBufferSizeExceeded (state_of self.old)
            bytes.now result (state_of self.new) }
        ensures at_end { IsAtEnd (state_of self.old)
            → Emits (state_of self.old) (Plain (length bytes.now ∷ []) ∷ Plain bytes.now ∷ [])
            result (state_of self.new) }
    {
        if !self.has_room(bytes.len() + 1) {
            return Err(EncodeError::MaxBufferSizeExceeded);
        }
        if self.offset == self.buffer.len() {
            self.append_character_data(bytes)?;
            return Ok(());
        }
        self.emit_u8(bytes.len() as u8)?;
        self.emit_vec(bytes)
    }

    /// Appends a length byte and at most 255 bytes, or nothing. The offset must be at the end of the buffer.
    fn append_character_data(&mut self, bytes: &[u8]) -> Result<(), AllocError>
        requires at_end { IsAtEnd (state_of self.old) }
        requires short { length bytes.now < 256 }
        ensures ok { OnOk result (state_of self.new ≡ record (state_of self.old) {
          bytes = (state_of self.old).bytes ++ length bytes.now ∷ bytes.now;
          offset = (state_of self.old).offset + (1 + length bytes.now);
        }) }
        ensures err { OnErr result (state_of self.new ≡ state_of self.old) }
    {
        self.buffer.reserve(1 + bytes.len())?;
        self.buffer.push(bytes.len() as u8)?;
        self.buffer.extend_from_slice(bytes)?;
        self.offset = self.buffer.len();
        Ok(())
    }

    /// Writes a character string: a length byte and the bytes (RFC 1035 section 3.3). More than 255 bytes are refused.
    pub fn emit_character_data(&mut self, bytes: &[u8]) -> Result<(), ProtoError>
        ensures puts { length bytes.now < 256
            → PutsCharacterString ProtoError.MaxBufferSizeExceeded (state_of self.old)
            bytes.now result (state_of self.new) }
        ensures long { (result ≡ Err (ProtoError.CharacterDataTooLong (length bytes.now)))
            ↔ (max_character_string_len < length bytes.now) }
        ensures untouched { max_character_string_len < length bytes.now
            → state_of self.new ≡ state_of self.old }
        ensures only { IfErr result (λ error. (error ≡ ProtoError.Memory)
            ⊎ (error ≡ ProtoError.MaxBufferSizeExceeded)
            ⊎ (error ≡ ProtoError.CharacterDataTooLong (length bytes.now))) }
    {
        if bytes.len() > MAX_CHARACTER_STRING_LEN {
            return Err(ProtoError::CharacterDataTooLong { len: bytes.len() });
        }
        self.emit_character_data_unrestricted(bytes)?;
        Ok(())
    }

    /// Returns `true` if `len` bytes at the offset are within the maximum size.
    fn has_room(&self, len: usize) -> bool
        ensures { IsTrue result ↔ ((state_of self.now).offset + len ≤ (state_of self.now).limit) }
    {
        len <= self.max_size && self.offset <= self.max_size - len
    }

    /// Writes `len` zero bytes. Nothing is allocated if they would pass the maximum size, or if they only overwrite.
    pub(crate) fn emit_zeros(&mut self, len: usize) -> Result<(), EncodeError>
        ensures { Puts (state_of self.old) (replicate len 0) result (state_of self.new) }
    {
        if !self.has_room(len) {
            return Err(EncodeError::MaxBufferSizeExceeded);
        }
        let start = self.offset;
        let end = start + len;
        if end > self.buffer.len() {
            self.buffer.resize(end, 0)?;
        }
        self.buffer[start..end].fill(0);
        self.offset = end;
        Ok(())
    }

    /// Returns the maximum size of the buffer.
    pub(crate) fn max_size(&self) -> usize
        ensures { result ≡ (state_of self.now).limit }
    {
        self.max_size
    }

    /// Overwrites the bytes at `start` with a value.
    pub(crate) fn fill_at<T: EncodedSize>(&mut self, start: usize, value: &T)
        requires { start + T.LEN ≤ length (state_of self.old).bytes }
        ensures { state_of self.new ≡ record (state_of self.old) {
          bytes = put_at start (T.wire value.now) (state_of self.old).bytes;
        } }
    {
        value.fill(&mut self.buffer[start..start + T::LEN]);
    }

    /// Returns a range of the buffer. It must be within the buffer, with `start <= end`.
    pub fn slice_of(&self, start: usize, end: usize) -> &[u8]
        requires order { start ≤ end }
        requires within { end ≤ length (state_of self.now).bytes }
        ensures { result.now ≡ slice_range (state_of self.now).bytes start end }
    {
        &self.buffer[start..end]
    }

    /// Returns the offset of the first remembered suffix that equals a range of the buffer. The range must be within
    /// the buffer, with `start <= end`.
    pub fn get_label_pointer(&self, start: usize, end: usize) -> Option<u16>
        requires order { start ≤ end }
        requires within { end ≤ length (state_of self.now).bytes }
        ensures { result ≡ place_of (state_of self.now).suffixes
            (slice_range (state_of self.now).bytes start end) }
    {
        self.suffixes.find(self.slice_of(start, end))
    }

    /// Remembers a range of the buffer as a suffix. Does nothing if it is remembered already, if it starts at 0x3FFF or
    /// later, or if 64 suffixes are remembered. The range must be within the buffer, with `start <= end`.
    pub fn store_label_pointer(&mut self, start: usize, end: usize) -> Result<(), AllocError>
        requires order { start ≤ end }
        requires within { end ≤ length (state_of self.old).bytes }
        ensures ok { OnOk result (state_of self.new ≡ record (state_of self.old) {
          suffixes = remember (state_of self.old).suffixes start
              (slice_range (state_of self.old).bytes start end);
        }) }
        ensures decided { remember (state_of self.old).suffixes start
            (slice_range (state_of self.old).bytes start end) ≡ (state_of self.old).suffixes
            → IsOk result }
        ensures err { OnErr result (state_of self.new ≡ state_of self.old) }
    {
        self.find_or_store_label_pointer(start, end)?;
        Ok(())
    }

    /// Returns the offset of the first remembered suffix that equals a range of the buffer, like `get_label_pointer`. If
    /// there is none, remembers the range as a suffix, like `store_label_pointer`. The range must be within the buffer,
    /// with `start <= end`.
    pub fn find_or_store_label_pointer(
        &mut self,
        start: usize,
        end: usize,
    ) -> Result<Option<u16>, AllocError>
        requires order { start ≤ end }
        requires within { end ≤ length (state_of self.old).bytes }
        ensures found { IfOk result (λ found. found ≡ place_of (state_of self.old).suffixes
            (slice_range (state_of self.old).bytes start end)) }
        ensures ok { OnOk result (state_of self.new ≡ record (state_of self.old) {
          suffixes = remember (state_of self.old).suffixes start
              (slice_range (state_of self.old).bytes start end);
        }) }
        ensures decided { remember (state_of self.old).suffixes start
            (slice_range (state_of self.old).bytes start end) ≡ (state_of self.old).suffixes
            → IsOk result }
        ensures err { OnErr result (state_of self.new ≡ state_of self.old) }
    {
        let found = self.get_label_pointer(start, end);
        if found.is_none() {
            self.push_suffix(start, end)?;
        }
        Ok(found)
    }

    /// Remembers a range of the buffer that equals no remembered suffix, unless it starts at 0x3FFF or later, or 64
    /// suffixes are remembered.
    fn push_suffix(&mut self, start: usize, end: usize) -> Result<(), AllocError>
        requires order { start ≤ end }
        requires within { end ≤ length (state_of self.old).bytes }
        requires fresh { place_of (state_of self.old).suffixes
            (slice_range (state_of self.old).bytes start end) ≡ None }
        ensures ok { OnOk result (state_of self.new ≡ record (state_of self.old) {
          suffixes = remember (state_of self.old).suffixes start
              (slice_range (state_of self.old).bytes start end);
        }) }
        ensures decided { remember (state_of self.old).suffixes start
            (slice_range (state_of self.old).bytes start end) ≡ (state_of self.old).suffixes
            → IsOk result }
        ensures err { OnErr result (state_of self.new ≡ state_of self.old) }
    {
        if start >= SUFFIX_OFFSET_LIMIT || self.suffixes.len() >= MAX_SUFFIXES {
            return Ok(());
        }
        self.suffixes.push(start as u16, &self.buffer[start..end])
    }

    /// Counts a name that could be compressed, and returns true if it should be: the first 120 are.
    ///
    /// Call it once for each name that is written in the compressing encoding, before the name's first byte.
    pub fn begin_name(&mut self) -> bool
        ensures value { result ≡ nat_lt (state_of self.old).attempts max_compressed_names }
        ensures counts { state_of self.new ≡ record (state_of self.old) {
          attempts = if nat_lt (state_of self.old).attempts max_compressed_names
              then (state_of self.old).attempts + 1 else (state_of self.old).attempts;
        } }
    {
        if self.attempts < MAX_COMPRESSED_NAMES {
            self.attempts += 1;
            true
        } else {
            false
        }
    }

    /// Truncates the buffer to the offset, and forgets the suffixes from there on.
    pub fn trim(&mut self)
        ensures { state_of self.new ≡ trim_to_offset (state_of self.old) }
    {
        let offset = self.offset;
        self.buffer.truncate(offset);
        self.suffixes.forget_from(offset);
    }
}
