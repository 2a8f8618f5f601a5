//! Remembered suffixes of names, the targets of compression pointers (RFC 1035 section 4.1.4).

ghost use Rattle.std.specs.Prelude.{◌≡◌, ℕ, ◌+◌, ◌≤◌, ◌<◌, filter, get_or, length, nat_lt, slice_range, if◌then◌else◌, Some, OnOk};
ghost use Rattle.std.specs.Str.{bytes_eq};
ghost use Rattle.dns_wire.specs.Suffixes.{place_of};
ghost use Rattle.dns_wire.specs.internal.Suffixes.{suffixes_of, AreStoredFrom, bucket_of, IsLink, IsChained, IsIndexed};

use std::alloc::{AllocError, Global};
use std::marker::Model;

/// The first allocation has room for so many suffixes.
const FIRST_SUFFIXES: usize = 16;

/// The first allocation has room for so many bytes of suffixes.
const FIRST_BYTES: usize = 256;

/// The number of buckets of the hash table.
const BUCKETS: usize = 16;

/// A suffix: its offset in the message, the range of its bytes in the store, and a link to the previous entry of its
/// bucket.
#[derive(Clone, Copy)]
struct Entry {
    offset: u16,
    start: usize,
    end: usize,
    next: usize,
}

/// The suffixes that an encoder remembers, in order. Their bytes are stored one after another in one vector.
///
/// A hash table with chains finds a suffix by its bytes. A link is the one-based index of an entry, or 0 for none:
/// `heads` has a link to the last entry of each bucket, and an entry's `next` is a link to the previous entry of its
/// bucket. All offsets are less than `offset_bound`.
#[derive(Drop)]
pub struct Suffixes {
    stored: Vec<u8>,
    entries: Vec<Entry>,
    heads: [usize; BUCKETS],
    offset_bound: usize,
}

impl Model for Suffixes {
    ghost use Rattle.std.specs.Prelude.{List};
    ghost use Rattle.dns_wire.specs.Suffixes.{Suffix};
    ghost use Rattle.dns_wire.specs.internal.Suffixes.{suffixes_of, IsStore};

    ghost Value = { List Suffix };

    ghost view = { λ s. suffixes_of s.stored.items s.entries.items };

    ghost invariant = { λ s. IsStore s.stored.items s.entries.items s.heads s.offset_bound };
}

impl Suffixes {
    ghost use Rattle.std.specs.Prelude.{[], ◌∷◌, ◌++◌, OnOk, OnErr};
    ghost use Rattle.dns_wire.specs.Suffixes.{suffixes_before};

    /// Creates an empty list.
    pub(crate) fn new(alloc: Global) -> Self
        ensures { result ≡ [] }
    {
        Suffixes {
            stored: Vec::new(alloc),
            entries: Vec::new(alloc),
            heads: [0; BUCKETS],
            offset_bound: 0,
        }
    }

    /// Returns the number of suffixes.
    pub(crate) fn len(&self) -> usize
        ensures { result ≡ length self.now }
    {
        self.entries.len()
    }

    /// Returns the offset of the first suffix with these bytes.
    pub(crate) fn find(&self, bytes: &[u8]) -> Option<u16>
        ensures { result ≡ place_of self.now bytes.now }
    {
        let head = self.heads[hash_bucket(bytes)];
        find_in_chain(self.stored.as_slice(), self.entries.as_slice(), head, bytes)
    }

    /// Appends a suffix.
    pub(crate) fn push(&mut self, offset: u16, bytes: &[u8]) -> Result<(), AllocError>
        ensures ok { OnOk result (self.new
            ≡ self.old ++ record { start = offset; bytes = bytes.now } ∷ []) }
        ensures err { OnErr result (self.new ≡ self.old) }
    {
        if self.entries.is_empty() {
            self.reserve_first()?;
        }
        self.append(offset, bytes)
    }

    /// Takes memory for the suffixes of a short message at once.
    fn reserve_first(&mut self) -> Result<(), AllocError>
        ensures { self.new ≡ self.old }
    {
        self.entries.reserve(FIRST_SUFFIXES)?;
        self.stored.reserve(FIRST_BYTES)?;
        Ok(())
    }

    /// Appends a suffix and its bytes.
    fn append(&mut self, offset: u16, bytes: &[u8]) -> Result<(), AllocError>
        ensures ok { OnOk result (self.new
            ≡ self.old ++ record { start = offset; bytes = bytes.now } ∷ []) }
        ensures err { OnErr result (self.new ≡ self.old) }
    {
        let start = self.stored.len();
        self.stored.extend_from_slice(bytes)?;
        let end = self.stored.len();
        self.entries.push(Entry {
            offset,
            start,
            end,
            next: 0,
        })?;
        let last = self.entries.len() - 1;
        link(
            self.stored.as_slice(),
            &mut self.entries,
            &mut self.heads,
            last,
        );
        self.offset_bound = self.offset_bound.max(usize::from(offset) + 1);
        Ok(())
    }

    /// Forgets the suffixes at `offset` or later.
    pub(crate) fn forget_from(&mut self, offset: usize)
        ensures { self.new ≡ suffixes_before offset self.old }
    {
        if self.offset_bound <= offset {
            return;
        }
        retain_before(&mut self.entries, offset);
        let end = end_of_last(self.entries.as_slice(), self.stored.len());
        self.stored.truncate(end);
        link_all(self.stored.as_slice(), &mut self.entries, &mut self.heads);
        self.offset_bound = offset;
    }
}

/// Returns the byte at an index, or 0 past the end.
fn byte_at(bytes: &[u8], index: usize) -> usize
    ensures value { result ≡ get_or bytes.now index 0 }
    ensures within { result < 256 }
{
    match bytes.get(index) {
        Some(byte) => usize::from(*byte),
        None => 0,
    }
}

/// Returns the bucket of a suffix with these bytes. The hash reads few of them, since a suffix is hashed more often than
/// it is compared.
#[tactic(auto, unfolding(crate::specs::internal::Suffixes::bucket_of))]
fn hash_bucket(bytes: &[u8]) -> usize
    ensures value { result ≡ bucket_of bytes.now }
    ensures within { result < 16 }
{
    let label_len = byte_at(bytes, 0);
    let first = byte_at(bytes, 1);
    let last = byte_at(bytes, label_len);
    (bytes.len() + 3 * first + 7 * last) % BUCKETS
}

/// Returns the stored bytes of an entry.
fn bytes_of<'s>(stored: &'s [u8], entry: &Entry) -> &'s [u8]
    requires order { entry.now.start ≤ entry.now.end }
    requires within { entry.now.end ≤ length stored.now }
    ensures { result.now ≡ slice_range stored.now entry.now.start entry.now.end }
{
    &stored[entry.start..entry.end]
}

/// Returns the offset of the entry if it has these bytes, and `found` otherwise.
fn offset_or(stored: &[u8], entry: &Entry, bytes: &[u8], found: Option<u16>) -> Option<u16>
    requires order { entry.now.start ≤ entry.now.end }
    requires within { entry.now.end ≤ length stored.now }
    ensures { result ≡ (if bytes_eq (slice_range stored.now entry.now.start entry.now.end) bytes.now
        then Some entry.now.offset else found) }
{
    if bytes_of(stored, entry) == bytes {
        Some(entry.offset)
    } else {
        found
    }
}

/// Returns the offset of the first entry with these bytes. `head` is the link to the last entry of their bucket.
fn find_in_chain(stored: &[u8], entries: &[Entry], head: usize, bytes: &[u8]) -> Option<u16>
    requires stored { AreStoredFrom 0 (length stored.now) entries.now }
    requires chained { IsChained (length entries.now) (suffixes_of stored.now entries.now)
        entries.now }
    requires head { IsLink (suffixes_of stored.now entries.now) (length entries.now) head
        (bucket_of bytes.now) }
    ensures { result ≡ place_of (suffixes_of stored.now entries.now) bytes.now }
{
    let mut found = None;
    let mut link = head;
    while link > 0 {
        let entry = &entries[link - 1];
        found = offset_or(stored, entry, bytes, found);
        link = entry.next;
    }
    found
}

/// Adds an entry to the chain of its bucket. The chains must contain exactly the entries before it.
fn link(stored: &[u8], entries: &mut Vec<Entry>, heads: &mut [usize; BUCKETS], at: usize)
    requires within { at < length entries.old.items }
    requires stored { AreStoredFrom 0 (length stored.now) entries.old.items }
    requires indexed { IsIndexed at (suffixes_of stored.now entries.old.items) entries.old.items
        heads.old }
    ensures stored { AreStoredFrom 0 (length stored.now) entries.new.items }
    ensures same { suffixes_of stored.now entries.new.items
        ≡ suffixes_of stored.now entries.old.items }
    ensures entries { length entries.new.items ≡ length entries.old.items }
    ensures indexed { IsIndexed (at + 1) (suffixes_of stored.now entries.old.items)
        entries.new.items heads.new }
{
    let bucket = hash_bucket(bytes_of(stored, &entries[at]));
    entries[at].next = heads[bucket];
    heads[bucket] = at + 1;
}

/// Rebuilds the chains of all buckets.
fn link_all(stored: &[u8], entries: &mut Vec<Entry>, heads: &mut [usize; BUCKETS])
    requires stored { AreStoredFrom 0 (length stored.now) entries.old.items }
    ensures stored { AreStoredFrom 0 (length stored.now) entries.new.items }
    ensures same { suffixes_of stored.now entries.new.items
        ≡ suffixes_of stored.now entries.old.items }
    ensures indexed { IsIndexed (length entries.new.items)
        (suffixes_of stored.now entries.old.items) entries.new.items heads.new }
{
    *heads = [0; BUCKETS];
    for at in 0..entries.len() {
        link(stored, entries, heads, at);
    }
}

/// Retains the entries before `offset`.
fn retain_before(entries: &mut Vec<Entry>, offset: usize)
    ensures { entries.new.items ≡ filter (λ e. nat_lt e.offset offset) entries.old.items }
{
    entries.retain(move |entry| usize::from(entry.offset) < offset);
}

/// Returns where the stored bytes of the last entry end, of `len` stored bytes.
fn end_of_last(entries: &[Entry], len: usize) -> usize
    requires { AreStoredFrom 0 len entries.now }
    ensures stored { AreStoredFrom 0 result entries.now }
    ensures within { result ≤ len }
{
    match entries.last() {
        Some(entry) => entry.end,
        None => 0,
    }
}
