//! Storages whose text is a file that a person may edit.

ghost use Rattle.nameserver_handlers.specs.TextFile.{AsksNothing};

use dns_journal::files::FileStorage;
use dns_journal::{Storage, StorageError};
use std::io;

/// A storage whose text is a file, beside which a new text is written before it takes the place of that file.
///
/// None of its calls asks anything of the text and the journal: they are read and written by those of [`Storage`] alone.
pub trait TextFile: Storage {
    /// Returns `true` if there are files. If not, nothing is kept, and each call succeeds.
    fn has_files(&self) -> bool;

    /// Takes the error of the last call that failed.
    fn take_error(&mut self) -> Option<io::Error>
        ensures { AsksNothing Self.performs self.old self.new };

    /// Returns `true` if the text was not edited since it was read or replaced: its file is the same, or has this digest.
    fn is_unedited(&mut self, digest: &[u8]) -> Result<bool, StorageError>
        ensures { AsksNothing Self.performs self.old self.new };

    /// Writes a text to a file beside that of the text. An error leaves no such file.
    fn prepare_text(&mut self, text: &[u8]) -> Result<(), StorageError>
        ensures { AsksNothing Self.performs self.old self.new };

    /// Begins a file beside that of the text, to which a text is written in pieces. An error leaves no such file.
    fn begin_text(&mut self) -> Result<(), StorageError>
        ensures { AsksNothing Self.performs self.old self.new };

    /// Returns the length of the text that was read or replaced, in bytes.
    fn text_len(&self) -> usize;

    /// Returns how many bytes are written of a text in pieces.
    fn written_len(&self) -> usize;

    /// Appends a piece to the text that was begun, and returns once it is on the disk. An error leaves no file of that text.
    fn extend_text(&mut self, piece: &[u8]) -> Result<(), StorageError>
        ensures { AsksNothing Self.performs self.old self.new };

    /// Returns once the text that was begun is on the disk as a whole. An error leaves no file of that text.
    fn finish_text(&mut self) -> Result<(), StorageError>
        ensures { AsksNothing Self.performs self.old self.new };

    /// Removes the file of a text that was prepared, or begun.
    fn discard_text(&mut self)
        ensures { AsksNothing Self.performs self.old self.new };
}

impl TextFile for FileStorage<'_> {
    fn has_files(&self) -> bool {
        FileStorage::has_files(self)
    }

    fn take_error(&mut self) -> Option<io::Error> {
        FileStorage::take_error(self)
    }

    fn is_unedited(&mut self, digest: &[u8]) -> Result<bool, StorageError> {
        FileStorage::is_unedited(self, digest)
    }

    fn prepare_text(&mut self, text: &[u8]) -> Result<(), StorageError> {
        FileStorage::prepare_text(self, text)
    }

    fn begin_text(&mut self) -> Result<(), StorageError> {
        FileStorage::begin_text(self)
    }

    fn text_len(&self) -> usize {
        FileStorage::text_len(self)
    }

    fn written_len(&self) -> usize {
        FileStorage::written_len(self)
    }

    fn extend_text(&mut self, piece: &[u8]) -> Result<(), StorageError> {
        FileStorage::extend_text(self, piece)
    }

    fn finish_text(&mut self) -> Result<(), StorageError> {
        FileStorage::finish_text(self)
    }

    fn discard_text(&mut self) {
        FileStorage::discard_text(self)
    }
}
