//! Encoding messages under a limit (RFC 1035 section 4.2.1, RFC 2181 section 9).

ghost use Rattle.std.specs.Prelude.{◌≡◌, ◌≤◌, ◌<◌, length, IfOk, OnOk, OnErr, Err};
ghost use Rattle.dns_wire.specs.Encoder.{state_of, CanRollBack};
ghost use Rattle.dns_messages.specs.Cut.{front_reach, cut, cut_form, IsFresh};
ghost use Rattle.dns_messages.specs.Grammar.{ReadsMessage};
ghost use Rattle.dns_messages.specs.Sound.{IsSound};

use super::Message;
use crate::emit::emit_message_parts;
use dns_wire::{BinEncoder, EncodeError};
use std::alloc::Global;

impl Message {
    ghost use Rattle.dns_wire.specs.Encoder.{max_message_len};
    ghost use Rattle.dns_messages.specs.Encoding.{Encodes, IsTooLong};

    /// Writes the message at the start of an encoder, as much of it as fits (RFC 1035 section 4.2.1).
    ///
    /// Each section is written up to its first record that does not fit, and the OPT record and the signature if they
    /// fit. TC is set if something was dropped. Without the OPT record, only the lower four bits of the response code
    /// remain (RFC 6891 section 6.1.3). The questions must fit: if they do not, the error is
    /// [`EncodeError::MaxBufferSizeExceeded`], for a limit below the 12 bytes of a header before memory is allocated. After
    /// an error, `set_offset(0)` and `trim` restore the encoder, except for the number of names that were tried.
    pub fn emit(&self, encoder: &mut BinEncoder<'_>) -> Result<(), EncodeError>
        requires fresh { IsFresh (state_of encoder.old) }
        ensures bytes { OnOk result ((state_of encoder.new).bytes
            ≡ cut_form (state_of encoder.old).limit self.now) }
        ensures decodes { OnOk result (IsSound self.now
            → ReadsMessage (state_of encoder.new).bytes (cut (state_of encoder.old).limit self.now)) }
        ensures within { OnOk result
            (length (state_of encoder.new).bytes ≤ (state_of encoder.old).limit) }
        ensures room { OnOk result (front_reach self.now ≤ (state_of encoder.old).limit) }
        ensures full { result ≡ Err EncodeError.MaxBufferSizeExceeded
            → (state_of encoder.old).limit < front_reach self.now }
        ensures decided { (state_of encoder.old).limit < 12
            → result ≡ Err EncodeError.MaxBufferSizeExceeded }
        ensures back { OnErr result (CanRollBack (state_of encoder.old) (state_of encoder.new)) }
        ensures lender { (state_of encoder.new).lender ≡ (state_of encoder.old).lender }
    {
        let mut queries = self.queries.as_slice();
        let mut answers = self.answers.as_slice();
        let mut authorities = self.authorities.as_slice();
        let mut additionals = self.additionals.as_slice();
        emit_message_parts(
            &self.metadata,
            &mut queries,
            &mut answers,
            &mut authorities,
            &mut additionals,
            self.edns.as_ref(),
            self.signature.as_ref(),
            encoder,
        )?;
        Ok(())
    }

    /// Writes the message like `emit`, with a contract that names the whole result.
    fn emit_whole(&self, encoder: &mut BinEncoder<'_>) -> Result<(), EncodeError>
        requires fresh { IsFresh (state_of encoder.old) }
        ensures encodes { OnOk result
            (Encodes (state_of encoder.old).limit self.now (state_of encoder.new).bytes) }
        ensures full { result ≡ Err EncodeError.MaxBufferSizeExceeded
            → IsTooLong (state_of encoder.old).limit self.now }
        ensures decided { (state_of encoder.old).limit < 12
            → result ≡ Err EncodeError.MaxBufferSizeExceeded }
        ensures lender { (state_of encoder.new).lender ≡ (state_of encoder.old).lender }
    {
        self.emit(encoder)?;
        Ok(())
    }

    /// Encodes the message, as much of it as fits 65,535 bytes (RFC 1035 section 4.2.2).
    pub fn to_vec(&self, alloc: Global) -> Result<Vec<u8>, EncodeError>
        ensures encodes { IfOk result (λ bytes. Encodes max_message_len self.now bytes.items) }
        ensures full { result ≡ Err EncodeError.MaxBufferSizeExceeded
            → IsTooLong max_message_len self.now }
    {
        self.to_vec_within(alloc, u16::MAX)
    }

    /// Encodes the message, as much of it as fits `limit` bytes. A limit below the 12 bytes of a header is refused before
    /// memory is allocated.
    pub fn to_vec_within(&self, alloc: Global, limit: u16) -> Result<Vec<u8>, EncodeError>
        ensures encodes { IfOk result (λ bytes. Encodes limit self.now bytes.items) }
        ensures full { result ≡ Err EncodeError.MaxBufferSizeExceeded
            → IsTooLong limit self.now }
        ensures decided { limit < 12 → result ≡ Err EncodeError.MaxBufferSizeExceeded }
    {
        let mut buffer = Vec::new(alloc);
        let mut encoder = BinEncoder::new(alloc, &mut buffer);
        encoder.set_max_size(limit);
        self.emit_whole(&mut encoder)?;
        encoder.into_bytes();
        Ok(buffer)
    }
}
