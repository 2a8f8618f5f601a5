//! Compression pointers that lead to compression pointers (RFC 1035 section 4.1.4).

ghost use Rattle.std.specs.Prelude.{◌≡◌, ◌<◌, ◌≤◌, ℕ, length, Ok, None, IfOk, IfSome};
ghost use Rattle.dns_wire.specs.Element.{Pointer, element_at};
ghost use Rattle.dns_wire.specs.Pointers.{AreEnds, Follows, IsTableOf};

use std::alloc::{AllocError, Global};
use std::marker::Model;

/// The number of places that a pointer can lead to: an offset has 14 bits.
const TARGETS: usize = 16_384;

/// The least byte that begins a compression pointer: its two high bits are set.
const POINTER: u8 = 192;

/// The end of each chain of pointers in a buffer, so that a long chain is not followed again for each name.
///
/// It has an entry for each place of the buffer that a pointer can lead to. The table is made in one pass.
#[derive(Drop)]
pub struct PointerTable {
    ends: Vec<u16>,
}

impl Model for PointerTable {
    ghost use Rattle.std.specs.Prelude.{ℕ, List};

    ghost Value = { List ℕ };

    ghost view = { λ t. t.ends.items };
}

impl PointerTable {
    /// Makes the table of a buffer, in at most 32 KiB of memory.
    pub fn new(alloc: Global, buffer: &[u8]) -> Result<PointerTable, AllocError>
        ensures { IfOk result (λ table. IsTableOf buffer.now table) }
    {
        let len = buffer.len().min(TARGETS);
        let mut ends = Vec::with_capacity(alloc, len)?;
        for place in 0..len {
            let end = end_from(buffer, ends.as_slice(), place);
            ends.push(end)?;
        }
        Ok(PointerTable { ends })
    }

    /// Returns the ends of the chains of pointers, from the first place of the buffer on.
    pub(crate) fn ends(&self) -> &[u16]
        ensures { result.now ≡ self.now }
    {
        self.ends.as_slice()
    }
}

/// Returns the first place, from `place` on, without a pointer to an earlier place, where `ends` has these for the places
/// before it.
fn end_from(buffer: &[u8], ends: &[u16], place: usize) -> u16
    requires ends { AreEnds buffer.now ends.now }
    requires len { length ends.now ≡ place }
    requires place { place ≤ length buffer.now }
    requires target { place < TARGETS }
    ensures follows { Follows buffer.now place result }
    ensures within { result ≤ place }
{
    match prior_target(buffer, place) {
        Some(target) => ends[target],
        None => place as u16,
    }
}

/// Returns the first place, from `place` on, without a pointer to an earlier place.
pub(crate) fn follow(buffer: &[u8], place: usize) -> usize
    requires { place ≤ length buffer.now }
    ensures follows { Follows buffer.now place result }
    ensures within { result ≤ place }
{
    let mut end = place;
    while let Some(target) = prior_target(buffer, end) {
        end = target;
    }
    end
}

/// Returns the target of the pointer at `place`, if there is a pointer to an earlier place.
fn prior_target(buffer: &[u8], place: usize) -> Option<usize>
    requires { place ≤ length buffer.now }
    ensures pointer { IfSome result (λ target. element_at buffer.now place ≡ Ok (Pointer target)) }
    ensures prior { IfSome result (λ target. target < place) }
    ensures none { result ≡ None → (target : ℕ)
        → element_at buffer.now place ≡ Ok (Pointer target) → place ≤ target }
{
    if buffer.len() - place < 2 || buffer[place] < POINTER {
        return None;
    }
    let target = (buffer[place] - POINTER) as usize * 256 + buffer[place + 1] as usize;
    if target < place { Some(target) } else { None }
}
