//! Values that are decoded from the wire.

ghost use Rattle.std.specs.Prelude.{◌≡◌, ◌≢◌, ℕ, List, IfOk, IfErr, OnErr};
ghost use Rattle.dns_wire.specs.declared.error.DecodeError.{DecodeError};

use crate::decoder::BinDecoder;
use crate::error::DecodeError;
use std::alloc::Global;

/// A value that can be decoded.
pub trait BinDecodable {
    /// The grammar: the bytes from a place up to an end decode to a value.
    ghost decodes: { List ℕ → ℕ → Self → ℕ → Type 0 };

    /// The bytes at a place decode to no value, with this error.
    ghost refuses: { List ℕ → ℕ → DecodeError → Type 0 };

    /// Reads a value. A failed read leaves the decoder unchanged.
    fn read(alloc: Global, decoder: &mut BinDecoder<'_>) -> Result<Self, DecodeError>
        ensures read { IfOk result (λ value.
            decodes decoder.old.bytes decoder.old.index value decoder.new.index) }
        ensures refused { IfErr result (λ error. error ≢ DecodeError.Memory
            → refuses decoder.old.bytes decoder.old.index error) }
        ensures bytes { decoder.new.bytes ≡ decoder.old.bytes }
        ensures err { OnErr result (decoder.new ≡ decoder.old) };

    /// Reads a value from the front of the bytes. Bytes may follow it.
    final fn from_bytes(alloc: Global, bytes: &[u8]) -> Result<Self, DecodeError>
        ensures read { IfOk result (λ value. (end : ℕ) × decodes bytes.now 0 value end) }
        ensures refused { IfErr result
            (λ error. error ≢ DecodeError.Memory → refuses bytes.now 0 error) }
    {
        let mut decoder = BinDecoder::new(bytes);
        Self::read(alloc, &mut decoder)
    }

    /// The bytes at a place decode to at most one value, up to one end.
    ghost unambiguous: { (bytes : List ℕ) (place : ℕ) (value other : Self) (end other_end : ℕ)
        → decodes bytes place value end → decodes bytes place other other_end
        → (value ≡ other) × (end ≡ other_end) };

    /// Bytes that decode to a value are not refused.
    ghost not_refused: { (bytes : List ℕ) (place : ℕ) (value : Self) (end : ℕ)
        (error : DecodeError)
        → decodes bytes place value end → refuses bytes place error → ⊥ };
}
