//! Lists of values, written one after another.

ghost use Rattle.std.specs.Prelude.{◌≡◌, [], ◌∷◌, if◌then◌else◌, length, IfOk, IfErr, IsOk, OnErr};
ghost use Rattle.dns_wire.specs.Encoder.{state_of, IsAtEnd, CanRollBack};
ghost use Rattle.dns_wire.specs.Items.{fitting_items, fitting_pieces, append_fitting, lent_pieces, WritesFitting};
ghost use Rattle.dns_wire.specs.Encodable.{position_of, AllBehind, AreWritable};

use crate::encodable::BinEncodable;
use crate::encoder::BinEncoder;
use crate::error::{EncodeError, ProtoError};
use std::alloc::Global;

impl<'a> BinEncoder<'a> {
    ghost use Rattle.std.specs.Prelude.{◌≢◌, ◌<◌, ◌⊎◌, List};
    ghost use Rattle.std.specs.Iterator.{IsFinite, Drains};
    ghost use Rattle.std.specs.Borrow.{Bor};

    /// Writes all items at the end, and returns their number. If one does not fit, it is rolled back, those before it
    /// stay, and the error counts them.
    pub fn emit_all<T: BinEncodable>(&mut self, items: &[T]) -> Result<usize, ProtoError>
        requires at_end { IsAtEnd (state_of self.old) }
        requires behind { AllBehind (position_of (state_of self.old)) }
        ensures all { IfOk result (λ n. (n ≡ length items.now)
            × (fitting_items T.pieces (state_of self.old) items.now ≡ items.now)) }
        ensures not_all { IfErr result (λ error. (error ≡ ProtoError.Memory)
            ⊎ ((error ≡ ProtoError.NotAllRecordsWritten
            (length (fitting_items T.pieces (state_of self.old) items.now)))
            × (length (fitting_items T.pieces (state_of self.old) items.now) < length items.now))) }
        ensures decided { items.now ≡ [] → result ≡ Ok 0 }
        ensures wrote { result ≢ Err ProtoError.Memory
            → state_of self.new ≡ append_fitting T.pieces (state_of self.old) items.now }
        ensures writable { result ≢ Err ProtoError.Memory
            → AreWritable (fitting_pieces T.pieces (state_of self.old) items.now) }
        ensures at_end { result ≢ Err ProtoError.Memory → IsAtEnd (state_of self.new) }
        ensures behind { result ≢ Err ProtoError.Memory
            → AllBehind (position_of (state_of self.new)) }
        ensures back { result ≡ Err ProtoError.Memory
            → CanRollBack (state_of self.old) (state_of self.new) }
    {
        let count = emit_fitting(items, self)?;
        if count < items.len() {
            return Err(ProtoError::NotAllRecordsWritten { count });
        }
        Ok(count)
    }

    /// Writes items behind references, like `emit_all`.
    pub fn emit_all_refs<T: BinEncodable>(&mut self, items: &[&T]) -> Result<usize, ProtoError>
        requires at_end { IsAtEnd (state_of self.old) }
        requires behind { AllBehind (position_of (state_of self.old)) }
        ensures all { IfOk result (λ n. (n ≡ length items.now)
            × (fitting_items (lent_pieces T.pieces) (state_of self.old) items.now ≡ items.now)) }
        ensures not_all { IfErr result (λ error. (error ≡ ProtoError.Memory)
            ⊎ ((error ≡ ProtoError.NotAllRecordsWritten
            (length (fitting_items (lent_pieces T.pieces) (state_of self.old) items.now)))
            × (length (fitting_items (lent_pieces T.pieces) (state_of self.old) items.now)
            < length items.now))) }
        ensures decided { items.now ≡ [] → result ≡ Ok 0 }
        ensures wrote { result ≢ Err ProtoError.Memory
            → state_of self.new
            ≡ append_fitting (lent_pieces T.pieces) (state_of self.old) items.now }
        ensures writable { result ≢ Err ProtoError.Memory
            → AreWritable (fitting_pieces (lent_pieces T.pieces) (state_of self.old) items.now) }
        ensures at_end { result ≢ Err ProtoError.Memory → IsAtEnd (state_of self.new) }
        ensures behind { result ≢ Err ProtoError.Memory
            → AllBehind (position_of (state_of self.new)) }
        ensures back { result ≡ Err ProtoError.Memory
            → CanRollBack (state_of self.old) (state_of self.new) }
    {
        self.emit_all(items)
    }

    /// Writes the items of an iterator, like `emit_all`. They are collected before the first one is written.
    pub fn emit_iter<'e, T: BinEncodable + 'e, I: Iterator<Item = &'e T> + Drop>(
        &mut self,
        alloc: Global,
        items: I,
    ) -> Result<usize, ProtoError>
        requires at_end { IsAtEnd (state_of self.old) }
        requires behind { AllBehind (position_of (state_of self.old)) }
        requires can { I.can_next items }
        requires ends { IsFinite (I.remaining items) }
        ensures items { (xs : List (Bor T))
            × (result ≢ Err ProtoError.Memory → Drains I.next_gives items xs)
            × WritesFitting (lent_pieces T.pieces) (state_of self.old) xs
            result (state_of self.new) }
        ensures at_end { result ≢ Err ProtoError.Memory → IsAtEnd (state_of self.new) }
        ensures behind { result ≢ Err ProtoError.Memory
            → AllBehind (position_of (state_of self.new)) }
        ensures back { result ≡ Err ProtoError.Memory
            → CanRollBack (state_of self.old) (state_of self.new) }
    {
        let lent: Vec<&T> = items.collect(alloc)?;
        self.emit_all_refs(&lent)
    }
}

/// Writes items at the end up to the first that does not fit, which is rolled back, and returns how many were written.
pub fn emit_fitting<T: BinEncodable>(
    items: &[T],
    encoder: &mut BinEncoder<'_>,
) -> Result<usize, EncodeError>
    requires at_end { IsAtEnd (state_of encoder.old) }
    requires behind { AllBehind (position_of (state_of encoder.old)) }
    ensures count { IfOk result
        (λ n. n ≡ length (fitting_items T.pieces (state_of encoder.old) items.now)) }
    ensures decided { items.now ≡ [] → result ≡ Ok 0 }
    ensures wrote { IsOk result
        → state_of encoder.new ≡ append_fitting T.pieces (state_of encoder.old) items.now }
    ensures writable { IsOk result
        → AreWritable (fitting_pieces T.pieces (state_of encoder.old) items.now) }
    ensures at_end { IsOk result → IsAtEnd (state_of encoder.new) }
    ensures behind { IsOk result → AllBehind (position_of (state_of encoder.new)) }
    ensures memory { IfErr result (λ error. error ≡ EncodeError.Memory) }
    ensures back { OnErr result (CanRollBack (state_of encoder.old) (state_of encoder.new)) }
{
    let mut count = 0;
    for item in items {
        let start = encoder.offset();
        match item.emit(encoder) {
            Ok(()) => count += 1,
            Err(EncodeError::MaxBufferSizeExceeded) => {
                encoder.set_offset(start);
                encoder.trim();
                return Ok(count);
            }
            Err(error) => return Err(error),
        }
    }
    Ok(count)
}

/// Writes an item at the end if it fits, and returns true if it was written. An item that does not fit is rolled back.
pub fn emit_if_fits<T: BinEncodable>(
    item: &T,
    encoder: &mut BinEncoder<'_>,
) -> Result<bool, EncodeError>
    requires at_end { IsAtEnd (state_of encoder.old) }
    requires behind { AllBehind (position_of (state_of encoder.old)) }
    ensures fits { IfOk result (λ fits.
        fitting_items T.pieces (state_of encoder.old) (item.now ∷ [])
        ≡ if fits then item.now ∷ [] else []) }
    ensures wrote { IsOk result
        → state_of encoder.new ≡ append_fitting T.pieces (state_of encoder.old) (item.now ∷ []) }
    ensures writable { IsOk result
        → AreWritable (fitting_pieces T.pieces (state_of encoder.old) (item.now ∷ [])) }
    ensures at_end { IsOk result → IsAtEnd (state_of encoder.new) }
    ensures behind { IsOk result → AllBehind (position_of (state_of encoder.new)) }
    ensures memory { IfErr result (λ error. error ≡ EncodeError.Memory) }
    ensures back { OnErr result (CanRollBack (state_of encoder.old) (state_of encoder.new)) }
{
    let offset = encoder.offset();
    match item.emit(encoder) {
        Ok(()) => Ok(true),
        Err(EncodeError::MaxBufferSizeExceeded) => {
            encoder.set_offset(offset);
            encoder.trim();
            Ok(false)
        }
        Err(error) => Err(error),
    }
}
