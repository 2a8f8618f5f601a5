//! Numbers on the wire, in network byte order (RFC 1035 section 2.3.2).

ghost use Rattle.std.specs.Prelude.{◌≡◌, ◌<◌, ◌^◌, [], ◌∷◌, length, drop, refl};
ghost use Rattle.std.proofs.Common.{rules};
ghost use Rattle.std.specs.Int.{w16, w32, to_be_bytes, cast_unsigned};
ghost use Rattle.std.specs.Int.RustNames.{FitsSigned};
ghost use Rattle.dns_wire.specs.Encodable.{Plain, BytesAt};
ghost use Rattle.dns_wire.specs.internal.NumberLaws.{one_byte, one_of_two, one_of_four, one_signed, not_short};
ghost use Rattle.dns_wire.specs.declared.error.DecodeError.TheVariants.{InsufficientBytes};

use crate::decodable::BinDecodable;
use crate::decoder::BinDecoder;
use crate::encodable::{BinEncodable, EncodedSize};
use crate::encoder::BinEncoder;
use crate::error::{DecodeError, EncodeError};
use std::alloc::Global;

impl BinEncodable for u8 {
    ghost pieces = { λ number _. Plain (number ∷ []) ∷ [] };

    fn emit(&self, encoder: &mut BinEncoder<'_>) -> Result<(), EncodeError> {
        encoder.emit_u8(*self)
    }
}

impl EncodedSize for u8 {
    ghost LEN = { 1 };

    const LEN: usize = 1;

    ghost wire = { λ number. number ∷ [] };

    fn fill(&self, target: &mut [u8]) {
        target.copy_from_slice(&[*self]);
    }

    ghost is_plain = { λ value s. refl };

    ghost has_len = { λ value. refl };

    ghost some = { Prim.search rules };
}

impl BinEncodable for u16 {
    ghost pieces = { λ number _. Plain (to_be_bytes w16 number) ∷ [] };

    fn emit(&self, encoder: &mut BinEncoder<'_>) -> Result<(), EncodeError> {
        encoder.emit_u16(*self)
    }
}

impl EncodedSize for u16 {
    ghost LEN = { 2 };

    const LEN: usize = 2;

    ghost wire = { λ number. to_be_bytes w16 number };

    fn fill(&self, target: &mut [u8]) {
        target.copy_from_slice(&self.to_be_bytes());
    }

    ghost is_plain = { λ value s. refl };

    ghost has_len = { λ value. refl };

    ghost some = { Prim.search rules };
}

impl BinEncodable for u32 {
    ghost pieces = { λ number _. Plain (to_be_bytes w32 number) ∷ [] };

    fn emit(&self, encoder: &mut BinEncoder<'_>) -> Result<(), EncodeError> {
        encoder.emit_u32(*self)
    }
}

impl EncodedSize for u32 {
    ghost LEN = { 4 };

    const LEN: usize = 4;

    ghost wire = { λ number. to_be_bytes w32 number };

    fn fill(&self, target: &mut [u8]) {
        target.copy_from_slice(&self.to_be_bytes());
    }

    ghost is_plain = { λ value s. refl };

    ghost has_len = { λ value. refl };

    ghost some = { Prim.search rules };
}

impl BinEncodable for i32 {
    ghost pieces = { λ number _. Plain (to_be_bytes w32 (cast_unsigned w32 number)) ∷ [] };

    fn emit(&self, encoder: &mut BinEncoder<'_>) -> Result<(), EncodeError> {
        encoder.emit_i32(*self)
    }
}

impl EncodedSize for i32 {
    ghost LEN = { 4 };

    const LEN: usize = 4;

    ghost wire = { λ number. to_be_bytes w32 (cast_unsigned w32 number) };

    fn fill(&self, target: &mut [u8]) {
        target.copy_from_slice(&self.cast_unsigned().to_be_bytes());
    }

    ghost is_plain = { λ value s. refl };

    ghost has_len = { λ value. refl };

    ghost some = { Prim.search rules };
}

impl BinDecodable for u8 {
    ghost decodes = { λ bytes place number end. BytesAt bytes place (number ∷ []) end };

    ghost refuses = { λ bytes place error.
        (error ≡ InsufficientBytes) × (length (drop place bytes) < 1) };

    fn read(_alloc: Global, decoder: &mut BinDecoder<'_>) -> Result<u8, DecodeError> {
        decoder.read_u8()
    }

    ghost unambiguous = { one_byte };

    ghost not_refused = { λ bytes place value end error decodes refused.
        not_short bytes place (value ∷ []) end decodes refused.1 };
}

impl BinDecodable for u16 {
    ghost decodes = { λ bytes place number end.
        BytesAt bytes place (to_be_bytes w16 number) end × (number < 2 ^ 16) };

    ghost refuses = { λ bytes place error.
        (error ≡ InsufficientBytes) × (length (drop place bytes) < 2) };

    fn read(_alloc: Global, decoder: &mut BinDecoder<'_>) -> Result<u16, DecodeError> {
        let number = decoder.read_u16()?;
        Ok(number)
    }

    ghost unambiguous = { one_of_two };

    ghost not_refused = { λ bytes place value end error decodes refused.
        not_short bytes place (to_be_bytes w16 value) end decodes.0 refused.1 };
}

impl BinDecodable for u32 {
    ghost decodes = { λ bytes place number end.
        BytesAt bytes place (to_be_bytes w32 number) end × (number < 2 ^ 32) };

    ghost refuses = { λ bytes place error.
        (error ≡ InsufficientBytes) × (length (drop place bytes) < 4) };

    fn read(_alloc: Global, decoder: &mut BinDecoder<'_>) -> Result<u32, DecodeError> {
        let number = decoder.read_u32()?;
        Ok(number)
    }

    ghost unambiguous = { one_of_four };

    ghost not_refused = { λ bytes place value end error decodes refused.
        not_short bytes place (to_be_bytes w32 value) end decodes.0 refused.1 };
}

impl BinDecodable for i32 {
    ghost decodes = { λ bytes place number end.
        BytesAt bytes place (to_be_bytes w32 (cast_unsigned w32 number)) end
        × FitsSigned w32 number };

    ghost refuses = { λ bytes place error.
        (error ≡ InsufficientBytes) × (length (drop place bytes) < 4) };

    fn read(_alloc: Global, decoder: &mut BinDecoder<'_>) -> Result<i32, DecodeError> {
        let number = decoder.read_i32()?;
        Ok(number)
    }

    ghost unambiguous = { one_signed };

    ghost not_refused = { λ bytes place value end error decodes refused.
        not_short bytes place (to_be_bytes w32 (cast_unsigned w32 value)) end decodes.0 refused.1 };
}
