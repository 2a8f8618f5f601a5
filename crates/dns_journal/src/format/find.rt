//! Entries and frames that are found in bytes.

ghost use Rattle.std.specs.Prelude.{◌≡◌, ◌<◌, ◌≤◌, ◌+◌, ◌^◌, ◌↔◌, ◌⊎◌, List, ℕ, length, take, drop, IsTrue, IfSome, IfNone};
ghost use Rattle.std.specs.Int.{w32, from_be_bytes};
ghost use Rattle.dns_journal.specs.format.Format.{frame, next, word, BeginsWith, HasLaterFrame, IsFrame};

use crate::format::link::Link;
use crate::format::sealing::{check, seal, word};
use crate::format::write::{FRAME_LEN, MAX_PAYLOAD_LEN, front};

/// The parts of an entry at the front of bytes, and what follows it.
#[derive(Clone, Copy)]
pub struct FoundEntry<'a> {
    /// The payload.
    pub payload: &'a [u8],
    /// The link for the next entry.
    pub link: Link,
    /// What follows the entry.
    pub rest: &'a [u8],
}

/// Returns the entry at the front of bytes that follows a link, if there is a whole one whose check and seal are right.
pub fn first_entry<'a>(key: &[u8], link: Link, bytes: &'a [u8]) -> Option<FoundEntry<'a>>
    requires { link.number + 1 < 2 ^ 64 }
    ensures found { IfSome result (λ found. BeginsWith key.now link found.payload.now bytes.now
        found.rest.now) }
    ensures link { IfSome result (λ found. found.link ≡ next key.now link found.payload.now) }
    ensures none { IfNone result ((payload rest : List ℕ)
        → ¬ (BeginsWith key.now link payload bytes.now rest)) }
{
    match payload_len(bytes) {
        Some(len) => entry_of_len(key, link, bytes, len),
        None => None,
    }
}

/// Returns the entry at the front of bytes that follows a link, whose payload has a length, if its check and its seal are right.
fn entry_of_len<'a>(key: &[u8], link: Link, bytes: &'a [u8], len: usize) -> Option<FoundEntry<'a>>
    requires number { link.number + 1 < 2 ^ 64 }
    requires within { 36 + len ≤ length bytes.now }
    requires small { len < 2 ^ 23 }
    requires len { len ≡ from_be_bytes w32 (take 4 (drop 16 bytes.now)) }
    ensures found { IfSome result (λ found. BeginsWith key.now link found.payload.now bytes.now
        found.rest.now) }
    ensures link { IfSome result (λ found. found.link ≡ next key.now link found.payload.now) }
    ensures none { IfNone result ((payload rest : List ℕ)
        → ¬ (BeginsWith key.now link payload bytes.now rest)) }
{
    let payload = &bytes[28..28 + len];
    if !has_frame(key, link, bytes, len) {
        return None;
    }
    let sealed = seal(key, front(link, len).as_slice(), payload);
    if !is_word(&bytes[28 + len..36 + len], sealed) {
        return None;
    }
    Some(FoundEntry {
        payload,
        link: Link {
            seal: sealed,
            number: link.number + 1,
        },
        rest: &bytes[36 + len..],
    })
}

/// Returns `true` if bytes begin with the frame of the entry that follows a link, with a payload of this length.
pub(crate) fn has_frame(key: &[u8], link: Link, bytes: &[u8], len: usize) -> bool
    requires number { link.number + 1 < 2 ^ 64 }
    requires small { len < 2 ^ 23 }
    requires whole { 28 ≤ length bytes.now }
    ensures { IsTrue result ↔ (take 28 bytes.now ≡ frame key.now link len) }
{
    let front = front(link, len);
    is_slice(&bytes[..20], front.as_slice())
        && is_word(&bytes[20..28], check(key, front.as_slice()))
}

/// Returns `true` if bytes are a number in eight bytes.
pub(crate) fn is_word(bytes: &[u8], number: u64) -> bool
    ensures { IsTrue result ↔ (bytes.now ≡ word number) }
{
    is_slice(bytes, word(number).as_slice())
}

/// Returns `true` if bytes are equal.
fn is_slice(bytes: &[u8], other: &[u8]) -> bool
    ensures { IsTrue result ↔ (bytes.now ≡ other.now) }
{
    bytes == other
}

/// Returns the length of the payload that a frame at the front of bytes says, if the entry is short and ends within the bytes.
fn payload_len(bytes: &[u8]) -> Option<usize>
    ensures within { IfSome result (λ len. 36 + len ≤ length bytes.now) }
    ensures small { IfSome result (λ len. len < 2 ^ 23) }
    ensures number { IfSome result (λ len. len ≡ from_be_bytes w32 (take 4 (drop 16 bytes.now))) }
    ensures none { IfNone result ((length bytes.now < 36)
        ⊎ ((2 ^ 23 ≤ from_be_bytes w32 (take 4 (drop 16 bytes.now)))
        ⊎ (length bytes.now < 36 + from_be_bytes w32 (take 4 (drop 16 bytes.now))))) }
{
    if bytes.len() < 36 {
        return None;
    }
    let len = number_in(&bytes[16..20]);
    if len > MAX_PAYLOAD_LEN || bytes.len() < 36 + len {
        return None;
    }
    Some(len)
}

/// Returns the number in four bytes.
pub(crate) fn number_in(bytes: &[u8]) -> usize
    requires { length bytes.now ≡ 4 }
    ensures number { result ≡ from_be_bytes w32 bytes.now }
    ensures small { result < 2 ^ 32 }
{
    u32::from_be_bytes([bytes[0], bytes[1], bytes[2], bytes[3]]) as usize
}

/// Returns `true` if the frame of an entry of the journal with a key begins somewhere in bytes, but not at their start.
pub fn has_later_frame(key: &[u8], bytes: &[u8]) -> bool
    ensures { IsTrue result ↔ HasLaterFrame key.now bytes.now }
{
    for at in 1..bytes.len() {
        if is_frame(key, &bytes[at..]) {
            return true;
        }
    }
    false
}

/// Returns `true` if bytes begin with the frame of an entry of the journal with a key, whatever it follows.
pub fn is_frame(key: &[u8], bytes: &[u8]) -> bool
    ensures { IsTrue result ↔ IsFrame key.now bytes.now }
{
    if bytes.len() < FRAME_LEN {
        return false;
    }
    is_word(&bytes[20..28], check(key, &bytes[..20]))
}
