//! A whole journal is read.

ghost use Rattle.std.specs.Prelude.{◌≡◌, ◌<◌, ◌≤◌, ◌+◌, ◌^◌, ◌++◌, ◌∷◌, [], List, ℕ, length, map, take, IsTrue, ◌↔◌, Err, IfOk, IfSome, IfNone, IfErr, OnOk};
ghost use Rattle.dns_journal.specs.format.Format.{entries, first_link, former_magic, header, key_in, last_link, link_after, magic, place_after, AreEntriesOf, AreShort, BeginsWith, HasHeader, IsFault, IsJournal};
ghost use Rattle.dns_journal.specs.declared.format.error.ReadError.TheVariants as errors;

use crate::format::error::ReadError;
use crate::format::find::{first_entry, is_word};
use crate::format::link::Link;
use crate::format::sealing::head_seal;
use crate::format::torn::is_torn;
use crate::format::write::{FORMER_MAGIC, HEADER_LEN, MAGIC};
use std::alloc::{AllocError, Global};

/// What a journal has.
#[derive(Drop)]
pub struct JournalContent<'a> {
    /// Its identity, 48 bytes: the digest of the text that it belongs to, and its key.
    pub head: &'a [u8],
    /// The payloads of its entries, in order.
    pub payloads: Vec<&'a [u8]>,
    /// The link for the next entry.
    pub link: Link,
    /// The length of the header and the entries, in bytes.
    pub len: usize,
    /// What follows the entries: the end of a write that was interrupted.
    pub end: &'a [u8],
}

/// Reads a journal. What follows its entries is the end of a write that was interrupted, if such a write may leave it.
///
/// # Errors
///
/// - [`ReadError::Former`] if the bytes begin as a journal of the former format does, before memory is taken;
/// - [`ReadError::Header`] if the bytes do not begin with a header, before memory is taken;
/// - [`ReadError::Damaged`] if what follows the entries is not what an interrupted write leaves, with its place;
/// - [`ReadError::Memory`] if memory is refused.
pub fn read_journal(alloc: Global, bytes: &[u8]) -> Result<JournalContent<'_>, ReadError>
    ensures journal { IfOk result (λ content. IsJournal bytes.now content.head.now
        (map (λ p. p.now) content.payloads.items) content.end.now) }
    ensures link { IfOk result (λ content. content.link
        ≡ last_link content.head.now (map (λ p. p.now) content.payloads.items)) }
    ensures len { IfOk result (λ content. content.len + length content.end.now
        ≡ length bytes.now) }
    ensures head { IfOk result (λ content. length content.head.now ≡ 48) }
    ensures refused { IfErr result (IsFault bytes.now) }
    ensures former { take 8 bytes.now ≡ former_magic → result ≡ Err errors.Former }
    ensures decided { ¬ (HasHeader bytes.now) → ¬ (take 8 bytes.now ≡ former_magic)
        → result ≡ Err errors.Header }
{
    if begins_with(bytes, FORMER_MAGIC) {
        return Err(ReadError::Former);
    }
    match split_header(bytes) {
        Some(parts) => read_content(alloc, bytes, parts.head, parts.rest),
        None => Err(ReadError::Header),
    }
}

/// The identity in a header, and what follows the header.
#[derive(Clone, Copy)]
struct HeaderParts<'a> {
    head: &'a [u8],
    rest: &'a [u8],
}

/// Returns the parts of bytes that begin with a header.
fn split_header(bytes: &[u8]) -> Option<HeaderParts<'_>>
    ensures len { IfSome result (λ parts. length parts.head.now ≡ 48) }
    ensures found { IfSome result (λ parts. bytes.now
        ≡ header parts.head.now ++ parts.rest.now) }
    ensures none { IfNone result (¬ (HasHeader bytes.now)) }
{
    if bytes.len() < HEADER_LEN {
        return None;
    }
    if !begins_with(bytes, MAGIC) {
        return None;
    }
    let head = &bytes[8..56];
    if !is_word(&bytes[56..HEADER_LEN], head_seal(head)) {
        return None;
    }
    Some(HeaderParts {
        head,
        rest: &bytes[HEADER_LEN..],
    })
}

/// Returns `true` if bytes begin with eight bytes.
fn begins_with(bytes: &[u8], wanted: [u8; 8]) -> bool
    ensures { IsTrue result ↔ (take 8 bytes.now ≡ wanted) }
{
    &bytes[..8.min(bytes.len())] == wanted.as_slice()
}

/// Reads the entries that follow a header.
fn read_content<'a>(
    alloc: Global,
    bytes: &'a [u8],
    head: &'a [u8],
    rest: &'a [u8],
) -> Result<JournalContent<'a>, ReadError>
    requires len { length head.now ≡ 48 }
    requires parts { bytes.now ≡ header head.now ++ rest.now }
    ensures journal { IfOk result (λ content. IsJournal bytes.now content.head.now
        (map (λ p. p.now) content.payloads.items) content.end.now) }
    ensures link { IfOk result (λ content. content.link
        ≡ last_link content.head.now (map (λ p. p.now) content.payloads.items)) }
    ensures len { IfOk result (λ content. content.len + length content.end.now
        ≡ length bytes.now) }
    ensures head { IfOk result (λ content. length content.head.now ≡ 48) }
    ensures refused { IfErr result (IsFault bytes.now) }
{
    let link = Link {
        seal: head_seal(head),
        number: 0,
    };
    match read_entries(alloc, &head[32..], link, HEADER_LEN, rest) {
        Ok(entries) => content_of(bytes, head, entries),
        // Memory for the list of payloads was refused.
        Err(_) => Err(ReadError::Memory),
    }
}

/// Entries that are read, and what follows them.
#[derive(Drop)]
struct ReadEntries<'a> {
    payloads: Vec<&'a [u8]>,
    link: Link,
    place: usize,
    end: &'a [u8],
}

/// Returns the content of a journal with these entries, if an interrupted write may leave what follows them.
fn content_of<'a>(
    bytes: &'a [u8],
    head: &'a [u8],
    entries: ReadEntries<'a>,
) -> Result<JournalContent<'a>, ReadError>
    requires front { AreEntriesOf bytes.now head.now
        (map (λ p. p.now) entries.payloads.items) entries.end.now }
    requires link { entries.link ≡ last_link head.now (map (λ p. p.now) entries.payloads.items) }
    requires number { entries.link.number + 1 < 2 ^ 64 }
    requires place { entries.place ≡ place_after 64 (map (λ p. p.now) entries.payloads.items) }
    ensures journal { IfOk result (λ content. IsJournal bytes.now content.head.now
        (map (λ p. p.now) content.payloads.items) content.end.now) }
    ensures link { IfOk result (λ content. content.link
        ≡ last_link content.head.now (map (λ p. p.now) content.payloads.items)) }
    ensures len { IfOk result (λ content. content.len + length content.end.now
        ≡ length bytes.now) }
    ensures head { IfOk result (λ content. length content.head.now ≡ 48) }
    ensures refused { IfErr result (IsFault bytes.now) }
{
    if !is_torn(&head[32..], entries.link, entries.place, entries.end) {
        return Err(ReadError::Damaged(entries.place));
    }
    Ok(JournalContent {
        head,
        payloads: entries.payloads,
        link: entries.link,
        len: entries.place,
        end: entries.end,
    })
}

/// Reads entries, from a link and a place on, up to the first bytes that are not the next one.
fn read_entries<'a>(
    alloc: Global,
    key: &[u8],
    first: Link,
    start: usize,
    bytes: &'a [u8],
) -> Result<ReadEntries<'a>, AllocError>
    requires number { first.number < start }
    requires fits { start + length bytes.now < 2 ^ 64 }
    ensures parts { IfOk result (λ read. bytes.now ≡ entries key.now first
        (map (λ p. p.now) read.payloads.items) ++ read.end.now) }
    ensures short { IfOk result (λ read. AreShort (map (λ p. p.now) read.payloads.items)) }
    ensures link { IfOk result (λ read. read.link
        ≡ link_after key.now first (map (λ p. p.now) read.payloads.items)) }
    ensures number { IfOk result (λ read. read.link.number + 1 < 2 ^ 64) }
    ensures place { IfOk result (λ read. read.place
        ≡ place_after start (map (λ p. p.now) read.payloads.items)) }
    ensures none { IfOk result (λ read. (payload rest : List ℕ)
        → ¬ (BeginsWith key.now read.link payload read.end.now rest)) }
{
    let mut payloads = Vec::new(alloc);
    let mut link = first;
    let mut place = start;
    let mut rest = bytes;
    while let Some(found) = first_entry(key, link, rest) {
        push_payload(&mut payloads, found.payload)?;
        place += 36 + found.payload.len();
        link = found.link;
        rest = found.rest;
    }
    Ok(ReadEntries {
        payloads,
        link,
        place,
        end: rest,
    })
}

/// Appends a payload to a list.
fn push_payload<'a>(payloads: &mut Vec<&'a [u8]>, payload: &'a [u8]) -> Result<(), AllocError>
    ensures { OnOk result (map (λ p. p.now) payloads.new.items
        ≡ map (λ p. p.now) payloads.old.items ++ payload.now ∷ []) }
{
    payloads.push(payload)?;
    Ok(())
}
