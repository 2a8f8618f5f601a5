//! What an interrupted write may leave.

ghost use Rattle.std.specs.Prelude.{◌≡◌, ◌<◌, ◌≤◌, ◌+◌, ◌^◌, ◌↔◌, length, take, drop, IsTrue, min};
ghost use Rattle.dns_journal.specs.format.Format.{room, AreZeros, HasTornStart, IsTorn, IsTornEntry};

use crate::format::find::{has_frame, has_later_frame, number_in};
use crate::format::link::Link;
use crate::format::write::{FRAME_LEN, MAX_PAYLOAD_LEN};

/// The number of bytes of a block, which a disk writes whole or not at all.
const BLOCK_LEN: usize = 512;

/// Returns `true` if bytes at a place, after a link, are what an interrupted write may leave: they are no longer than the longest entry,
/// no other entry of the journal begins in them, and they begin as the next entry does or with a block that was not written.
pub fn is_torn(key: &[u8], link: Link, place: usize, end: &[u8]) -> bool
    requires { link.number + 1 < 2 ^ 64 }
    ensures { IsTrue result ↔ IsTorn key.now link place end.now }
{
    end.len() <= MAX_PAYLOAD_LEN + 36
        && !has_later_frame(key, end)
        && has_torn_start(key, link, place, end)
}

/// Returns `true` if bytes begin as an interrupted write does.
fn has_torn_start(key: &[u8], link: Link, place: usize, end: &[u8]) -> bool
    requires number { link.number + 1 < 2 ^ 64 }
    requires bounded { length end.now < 36 + 2 ^ 23 }
    ensures { IsTrue result ↔ HasTornStart key.now link place end.now }
{
    if end.len() < FRAME_LEN {
        return true;
    }
    let room = room(place);
    let in_block = room.min(end.len());
    if are_zeros(&end[..in_block]) {
        return true;
    }
    if has_unwritten_frame_end(room, end) {
        return true;
    }
    is_torn_entry(key, link, in_block, end)
}

/// Returns `true` if the frame of an entry reaches past the block in which it begins, of which a number of bytes are left, and
/// what it has of the next block was not written.
fn has_unwritten_frame_end(room: usize, end: &[u8]) -> bool
    requires { 28 ≤ length end.now }
    ensures { IsTrue result ↔ ((room < 28) × AreZeros (drop room (take 28 end.now))) }
{
    if room >= FRAME_LEN {
        return false;
    }
    are_zeros(&end[room..FRAME_LEN])
}

/// Returns the number of bytes from a place up to the end of its block.
#[tactic(auto, unfolding(crate::specs::format::Format::room))]
fn room(place: usize) -> usize
    ensures { result ≡ room place }
{
    BLOCK_LEN - place % BLOCK_LEN
}

/// Returns `true` if all bytes are zeros.
fn are_zeros(bytes: &[u8]) -> bool
    ensures { IsTrue result ↔ AreZeros bytes.now }
{
    for at in 0..bytes.len() {
        if bytes[at] != 0 {
            return false;
        }
    }
    true
}

/// Returns `true` if bytes, of which a number are in the block in which they begin, begin with the frame of the entry that follows a
/// link, are not longer than that entry, and don't have all of it in that block.
fn is_torn_entry(key: &[u8], link: Link, in_block: usize, end: &[u8]) -> bool
    requires number { link.number + 1 < 2 ^ 64 }
    requires whole { 28 ≤ length end.now }
    ensures { IsTrue result ↔ IsTornEntry key.now link in_block end.now }
{
    let len = number_in(&end[16..20]);
    if len > MAX_PAYLOAD_LEN {
        return false;
    }
    if end.len() > 36 + len {
        return false;
    }
    if in_block >= 36 + len {
        return false;
    }
    has_frame(key, link, end, len)
}
