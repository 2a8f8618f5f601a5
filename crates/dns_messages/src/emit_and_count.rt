//! Sections of a message, as what can be written and counted.

ghost use Rattle.std.specs.Prelude.{◌≡◌, List, length, IsOk, IfOk, IfErr, OnErr};
ghost use Rattle.dns_wire.specs.Encoder.{state_of, IsAtEnd, CanRollBack};
ghost use Rattle.dns_wire.specs.Encodable.{position_of, AllBehind, AreWritable};
ghost use Rattle.dns_wire.specs.Items.{fitting_items, fitting_pieces, append_fitting};

use dns_wire::{BinEncodable, BinEncoder, EncodeError, emit_fitting};
use std::slice::Iter;

/// Items of a section of a message, which are written one after another.
pub trait EmitAndCount {
    type Item: BinEncodable;

    /// The items to write.
    ghost items: { Self → List Self.Item };

    /// Returns the number of the items.
    fn len(&self) -> usize
        ensures { result ≡ length (items self.now) };

    /// Writes the items at the end, up to the first that does not fit, which is rolled back, and returns how many were
    /// written. No item is consumed, whether the call succeeds or not.
    fn emit(&mut self, encoder: &mut BinEncoder<'_>) -> Result<usize, EncodeError>
        requires at_end { IsAtEnd (state_of encoder.old) }
        requires behind { AllBehind (position_of (state_of encoder.old)) }
        ensures count { IfOk result (λ n.
            n ≡ length (fitting_items Self.Item.pieces (state_of encoder.old) (items self.old))) }
        ensures wrote { IsOk result → state_of encoder.new
            ≡ append_fitting Self.Item.pieces (state_of encoder.old) (items self.old) }
        ensures writable { IsOk result → AreWritable
            (fitting_pieces Self.Item.pieces (state_of encoder.old) (items self.old)) }
        ensures at_end { IsOk result → IsAtEnd (state_of encoder.new) }
        ensures behind { IsOk result → AllBehind (position_of (state_of encoder.new)) }
        ensures same { self.new ≡ self.old }
        ensures memory { IfErr result (λ error. error ≡ EncodeError.Memory) }
        ensures back { OnErr result
            (CanRollBack (state_of encoder.old) (state_of encoder.new)) };
}

impl<T: BinEncodable> EmitAndCount for &[T] {
    type Item = T;

    ghost items = { λ slice. slice.now };

    fn len(&self) -> usize {
        <[T]>::len(self)
    }

    fn emit(&mut self, encoder: &mut BinEncoder<'_>) -> Result<usize, EncodeError> {
        emit_fitting(self, encoder)
    }
}

impl<'a, T: BinEncodable> EmitAndCount for Iter<'a, T> {
    type Item = T;

    ghost items = { λ iter. iter.rest.now };

    fn len(&self) -> usize {
        self.as_slice().len()
    }

    fn emit(&mut self, encoder: &mut BinEncoder<'_>) -> Result<usize, EncodeError> {
        emit_fitting(self.as_slice(), encoder)
    }
}
