//! A storage in memory, which can be made to fail and to crash.

ghost use Rattle.std.specs.Prelude.{◌≡◌, ◌≤◌, ◌<◌, ◌-◌, [], length, true, false, IfOk, OnOk, OnErr};
ghost use Rattle.dns_journal.specs.Memory.{disk_of, torn};
ghost use Rattle.dns_journal.specs.Storage.{Leaves, appended, at_rest};

use crate::error::StorageError;
use crate::storage::{Storage, StoredFiles};
use std::alloc::{AllocError, Global};

/// A storage in memory. It behaves as a disk: [`crashed`](MemoryStorage::crashed) makes what a crash may leave of it.
///
/// A number of calls succeed, and all later ones fail. An append that fails appends the first half of its bytes.
#[derive(Drop)]
pub struct MemoryStorage {
    alloc: Global,
    text: Vec<u8>,
    journal: Vec<u8>,
    /// The number of bytes at the front of the journal that no crash changes.
    safe: usize,
    /// The greatest length that a crash may leave the journal.
    reach: usize,
    /// Whether a sync has failed.
    unsure: bool,
    /// The number of calls that succeed before all later ones fail.
    calls_left: u64,
}

impl MemoryStorage {
    /// Creates a storage with these contents, all of them on the disk, of which a number of calls succeed.
    pub fn new(alloc: Global, files: StoredFiles, calls_left: u64) -> MemoryStorage
        ensures disk { disk_of result ≡ at_rest files.text.items files.journal.items }
        ensures calls { result.calls_left ≡ calls_left }
    {
        let len = files.journal.len();
        MemoryStorage {
            alloc,
            text: files.text,
            journal: files.journal,
            safe: len,
            reach: len,
            unsure: false,
            calls_left,
        }
    }

    /// Returns the bytes of the text.
    pub fn text(&self) -> &[u8]
        ensures { result.now ≡ (disk_of self.now).text }
    {
        self.text.as_slice()
    }

    /// Returns the bytes of the journal, as they are read.
    pub fn journal(&self) -> &[u8]
        ensures { result.now ≡ (disk_of self.now).seen }
    {
        self.journal.as_slice()
    }

    /// Returns the number of bytes at the front of the journal that no crash changes.
    pub fn safe_len(&self) -> usize
        ensures { result ≡ (disk_of self.now).safe }
    {
        self.safe
    }

    /// Returns the greatest length that a crash may leave the journal.
    pub fn greatest_len(&self) -> usize
        ensures { result ≡ (disk_of self.now).reach }
    {
        self.reach
    }

    /// Counts a call, and returns `true` if it succeeds.
    fn succeeds(&mut self) -> bool
        ensures disk { disk_of self.new ≡ disk_of self.old }
        ensures counted { self.new.calls_left ≡ self.old.calls_left - 1 }
        ensures done { result ≡ true → 0 < self.old.calls_left }
        ensures failed { result ≡ false → self.old.calls_left ≡ 0 }
    {
        if self.calls_left == 0 {
            return false;
        }
        self.calls_left -= 1;
        true
    }

    /// Appends bytes to the journal, of which nothing is on the disk yet. An error leaves it unchanged.
    fn push(&mut self, bytes: &[u8]) -> Result<(), AllocError>
        ensures ok { OnOk result (disk_of self.new ≡ appended (disk_of self.old) bytes.now) }
        ensures err { OnErr result (disk_of self.new ≡ appended (disk_of self.old) []) }
        ensures calls { self.new.calls_left ≡ self.old.calls_left }
    {
        self.reach = self.reach.max(self.journal.len());
        self.journal.extend_from_slice(bytes)?;
        self.reach = self.reach.max(self.journal.len());
        Ok(())
    }

    /// Makes what a crash may leave of a storage: its text, and a journal of which the safe front is unchanged and these bytes follow,
    /// as many of them as have room.
    pub fn crashed(&self, tail: &[u8]) -> Result<StoredFiles, AllocError>
        ensures leaves { (disk_of self.now).safe ≤ length (disk_of self.now).seen
            → (disk_of self.now).safe ≤ (disk_of self.now).reach
            → IfOk result (λ files. Leaves (disk_of self.now)
            (record { text = files.text.items; journal = files.journal.items })) }
        ensures text { IfOk result (λ files. files.text.items ≡ (disk_of self.now).text) }
        ensures torn { IfOk result (λ files. files.journal.items
            ≡ torn (disk_of self.now) tail.now) }
    {
        let safe = self.safe.min(self.journal.len());
        let room = self.reach.saturating_sub(safe);
        let tail = &tail[..tail.len().min(room)];
        let mut files = copy_of(self.alloc, self.text.as_slice(), &self.journal[..safe])?;
        files.journal.extend_from_slice(tail)?;
        Ok(files)
    }
}

impl Storage for MemoryStorage {
    ghost use Rattle.std.specs.Prelude.{◌≡◌, ◌<◌, ◌/◌, Err, IsOk, OnErr, [], is_ok, length, take};
    ghost use Rattle.dns_journal.specs.Event as events;
    ghost use Rattle.dns_journal.specs.Memory.{disk_of, Calls};
    ghost use Rattle.dns_journal.specs.Storage.{appended, read_event};

    ghost performs = { Calls };

    fn read(&mut self, alloc: Global) -> Result<StoredFiles, StorageError>
        ensures calls { Calls self.old (read_event result) self.new }
        ensures failed { result ≡ Err StorageError.Failed → self.old.calls_left ≡ 0 }
    {
        if !self.succeeds() {
            return Err(StorageError::Failed);
        }
        match copy_of(alloc, self.text.as_slice(), self.journal.as_slice()) {
            Ok(files) => Ok(files),
            // Memory for the copies was refused.
            Err(_) => Err(StorageError::Memory),
        }
    }

    fn append(&mut self, bytes: &[u8]) -> Result<(), StorageError>
        ensures calls { Calls self.old (events.Append bytes.now (is_ok result)) self.new }
        ensures failed { result ≡ Err StorageError.Failed → self.old.calls_left ≡ 0 }
        ensures half { result ≡ Err StorageError.Failed → disk_of self.new
            ≡ appended (disk_of self.old) (take (length bytes.now / 2) bytes.now) }
        ensures none { result ≡ Err StorageError.Memory
            → disk_of self.new ≡ appended (disk_of self.old) [] }
    {
        if self.succeeds() {
            return match self.push(bytes) {
                Ok(()) => Ok(()),
                // Memory for the bytes was refused.
                Err(_) => Err(StorageError::Memory),
            };
        }
        let half = bytes.len() / 2;
        match self.push(&bytes[..half]) {
            Ok(()) => Err(StorageError::Failed),
            // Memory for the bytes was refused.
            Err(_) => Err(StorageError::Memory),
        }
    }

    fn sync(&mut self) -> Result<(), StorageError>
        ensures calls { Calls self.old (events.Sync (is_ok result)) self.new }
        ensures decided { 0 < self.old.calls_left → IsOk result }
    {
        if !self.succeeds() {
            self.unsure = true;
            return Err(StorageError::Failed);
        }
        if !self.unsure {
            self.safe = self.journal.len();
            self.reach = self.safe;
        }
        Ok(())
    }

    fn cut(&mut self, len: usize) -> Result<(), StorageError>
        ensures calls { Calls self.old (events.Cut len (is_ok result)) self.new }
        ensures decided { 0 < self.old.calls_left → IsOk result }
        ensures err { OnErr result (disk_of self.new ≡ disk_of self.old) }
    {
        if !self.succeeds() {
            return Err(StorageError::Failed);
        }
        self.journal.truncate(len);
        self.safe = len.min(self.safe);
        Ok(())
    }

    fn replace_text(&mut self, text: &[u8]) -> Result<(), StorageError>
        ensures calls { Calls self.old (events.ReplaceText text.now (is_ok result)) self.new }
        ensures failed { result ≡ Err StorageError.Failed → self.old.calls_left ≡ 0 }
        ensures err { OnErr result (disk_of self.new ≡ disk_of self.old) }
    {
        if !self.succeeds() {
            return Err(StorageError::Failed);
        }
        match Vec::from_slice(self.alloc, text) {
            Ok(text) => {
                self.text = text;
                Ok(())
            }
            // Memory for the text was refused.
            Err(_) => Err(StorageError::Memory),
        }
    }

    fn replace_journal(&mut self, bytes: &[u8]) -> Result<(), StorageError>
        ensures calls { Calls self.old (events.ReplaceJournal bytes.now (is_ok result)) self.new }
        ensures failed { result ≡ Err StorageError.Failed → self.old.calls_left ≡ 0 }
        ensures err { OnErr result (disk_of self.new ≡ disk_of self.old) }
    {
        if !self.succeeds() {
            return Err(StorageError::Failed);
        }
        match Vec::from_slice(self.alloc, bytes) {
            Ok(journal) => {
                self.safe = journal.len();
                self.reach = self.safe;
                self.unsure = false;
                self.journal = journal;
                Ok(())
            }
            // Memory for the journal was refused.
            Err(_) => Err(StorageError::Memory),
        }
    }
}

/// Copies a text and a journal.
fn copy_of(alloc: Global, text: &[u8], journal: &[u8]) -> Result<StoredFiles, AllocError>
    ensures text { IfOk result (λ files. files.text.items ≡ text.now) }
    ensures journal { IfOk result (λ files. files.journal.items ≡ journal.now) }
{
    Ok(StoredFiles {
        text: Vec::from_slice(alloc, text)?,
        journal: Vec::from_slice(alloc, journal)?,
    })
}
