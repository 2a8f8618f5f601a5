//! Storages: what keeps the text of a zone and its journal.

use crate::error::StorageError;
use std::alloc::Global;

/// What a storage has.
#[derive(Drop)]
pub struct StoredFiles {
    /// The text of the zone.
    pub text: Vec<u8>,
    /// The journal. It is empty if none was begun.
    pub journal: Vec<u8>,
}

/// Keeps the text of a zone and its journal.
///
/// Until the journal is synchronized, a crash may leave any bytes in place of those that were appended, and may bring back what was
/// cut off. A replacement is on the disk when it returns, and a crash leaves what was there before or all of the new bytes.
pub trait Storage {
    ghost use Rattle.std.specs.Prelude.{is_ok};
    ghost use Rattle.dns_journal.specs.Event.{Event};
    ghost use Rattle.dns_journal.specs.Event as events;
    ghost use Rattle.dns_journal.specs.Storage.{read_event};

    /// From a state, a call may be this event and lead to that state.
    ghost performs: { Self → Event → Self → Type 0 };

    /// Reads the text and the journal.
    fn read(&mut self, alloc: Global) -> Result<StoredFiles, StorageError>
        ensures { performs self.old (read_event result) self.new };

    /// Appends bytes to the journal. If it fails, some of them may have been appended.
    fn append(&mut self, bytes: &[u8]) -> Result<(), StorageError>
        ensures { performs self.old (events.Append bytes.now (is_ok result)) self.new };

    /// Returns once the journal is on the disk as it is read.
    fn sync(&mut self) -> Result<(), StorageError>
        ensures { performs self.old (events.Sync (is_ok result)) self.new };

    /// Cuts the journal to a length.
    fn cut(&mut self, len: usize) -> Result<(), StorageError>
        ensures { performs self.old (events.Cut len (is_ok result)) self.new };

    /// Replaces the text.
    fn replace_text(&mut self, text: &[u8]) -> Result<(), StorageError>
        ensures { performs self.old (events.ReplaceText text.now (is_ok result)) self.new };

    /// Replaces the journal.
    fn replace_journal(&mut self, bytes: &[u8]) -> Result<(), StorageError>
        ensures { performs self.old (events.ReplaceJournal bytes.now (is_ok result)) self.new };
}
