//! A storage in files.

ghost use Rattle.std.specs.Prelude.{◌≡◌, None, IfOk, IsSomeAnd, is_some};

use crate::files::cut::{Cut, keep_cut};
use crate::files::end::EndRecord;
use crate::files::lock::take_lock;
use crate::files::paths::{sync_folder, target_of};
use crate::files::prepared::{PreparedText, UnfinishedText};
use crate::files::replace::{Replacement, replace_file};
use crate::files::stamp::Stamp;
use crate::format::digest_of;
use crate::{Storage, StorageError, StoredFiles};
use std::alloc::{AllocError, Global};
use std::fs::{File, OpenOptions};
use std::io::Write;
use std::{fs, io};

/// The paths of a zone's text and of its journal.
#[derive(Drop)]
struct Paths {
    text: String,
    journal: String,
}

/// A storage in two files: the text of a zone, and its journal.
///
/// A journal that is missing is read as an empty one. Before anything is read, the lock of the journal is taken, and it is held as long
/// as the storage is alive: so no two servers have one journal. What is cut off is kept in a file beside the journal, and another one has
/// the number of bytes that were synchronized: a journal that has lost some of these is neither read nor cut.
pub struct FileStorage<'a> {
    rt: &'a HostRuntime,
    /// The paths of the files, or `None` if nothing is kept.
    paths: Option<Paths>,
    /// The lock file of the journal, once its lock is taken.
    lock: Option<File>,
    /// The journal, opened for appends.
    file: Option<File>,
    /// The record of how many bytes of the journal are on the disk, once it is read.
    end: Option<EndRecord>,
    /// The length of the journal.
    len: usize,
    /// The text as it was when it was read or replaced.
    stamp: Option<Stamp>,
    /// What is being written of a text that is about to replace the text.
    unfinished: Option<UnfinishedText>,
    /// What is about to replace the text.
    prepared: Option<PreparedText>,
    /// What was cut off the journal.
    cut: Option<Cut>,
    /// The error of the last call that failed.
    error: Option<io::Error>,
}

impl Drop for FileStorage<'_> {
    fn drop(self) {
        let FileStorage {
            rt: _rt,
            paths,
            lock,
            file,
            end,
            len: _len,
            stamp: _stamp,
            unfinished,
            prepared,
            cut,
            error,
        } = self;
        drop(paths);
        drop(file);
        drop(end);
        drop(lock);
        drop(unfinished);
        drop(prepared);
        drop(cut);
        drop(error);
    }
}

impl<'a> FileStorage<'a> {
    /// Creates a storage of the text and the journal at these paths. Nothing is opened.
    pub fn new(
        rt: &'a HostRuntime,
        text: &str,
        journal: &str,
    ) -> Result<FileStorage<'a>, AllocError>
        ensures files { IfOk result (λ storage. IsSomeAnd storage.paths
            (λ paths. (paths.text.bytes.items ≡ text.now)
            × (paths.journal.bytes.items ≡ journal.now))) }
        ensures closed { IfOk result (λ storage. storage.file ≡ None) }
        ensures error { IfOk result (λ storage. storage.error ≡ None) }
    {
        let text = String::from_str(rt.alloc(), text)?;
        let journal = String::from_str(rt.alloc(), journal)?;
        Ok(FileStorage {
            rt,
            paths: Some(Paths { text, journal }),
            lock: None,
            file: None,
            end: None,
            len: 0,
            stamp: None,
            unfinished: None,
            prepared: None,
            cut: None,
            error: None,
        })
    }

    /// Creates a storage without files: it keeps nothing, and each of its calls succeeds.
    pub fn without_files(rt: &'a HostRuntime) -> FileStorage<'a>
        ensures files { result.paths ≡ None }
        ensures error { result.error ≡ None }
    {
        FileStorage {
            rt,
            paths: None,
            lock: None,
            file: None,
            end: None,
            len: 0,
            stamp: None,
            unfinished: None,
            prepared: None,
            cut: None,
            error: None,
        }
    }

    /// Returns `true` if there are files.
    pub fn has_files(&self) -> bool
        ensures { result ≡ is_some self.now.paths }
    {
        self.paths.is_some()
    }

    /// Takes the error of the last call that failed.
    pub fn take_error(&mut self) -> Option<io::Error>
        ensures result { result ≡ self.old.error }
        ensures after { self.new ≡ record self.old { error = None } }
    {
        self.error.take()
    }

    /// Takes what was cut off the journal, if anything was since the last call.
    pub fn take_cut(&mut self) -> Option<Cut>
        ensures result { result ≡ self.old.cut }
        ensures after { self.new ≡ record self.old { cut = None } }
    {
        self.cut.take()
    }

    /// Returns `true` if the text was not edited since it was read or replaced: its file is the same, or has this digest.
    pub fn is_unedited(&mut self, digest: &[u8]) -> Result<bool, StorageError> {
        let outcome = self.text_has(digest);
        self.noted(outcome)
    }

    /// Returns `true` if the file of the text is the same, or has this digest, or if there are no files.
    fn text_has(&mut self, digest: &[u8]) -> io::Result<bool> {
        let Some(paths) = &self.paths else {
            return Ok(true);
        };
        let stamp = Stamp::of(self.rt, paths.text.as_str())?;
        if self.stamp == Some(stamp) {
            return Ok(true);
        }
        let text = fs::read(self.rt, paths.text.as_str())?;
        if digest_of(text.as_slice()).as_slice() != digest {
            return Ok(false);
        }
        self.stamp = Some(stamp);
        Ok(true)
    }

    /// Writes a text to a file beside that of the text. To replace the text by it, only a name is changed then, unless the text was
    /// edited since it was read, replaced or found unedited. An error leaves no such file.
    pub fn prepare_text(&mut self, bytes: &[u8]) -> Result<(), StorageError> {
        self.discard_text();
        let outcome = self.prepare(bytes);
        self.noted(outcome)
    }

    /// Writes a text to a file beside that of the text.
    fn prepare(&mut self, bytes: &[u8]) -> io::Result<()> {
        if let Some(paths) = &self.paths {
            self.prepared = Some(PreparedText::write(self.rt, paths.text.as_str(), bytes)?);
        }
        Ok(())
    }

    /// Begins a file beside that of the text, to which a text is written in pieces. An error leaves no such file.
    pub fn begin_text(&mut self) -> Result<(), StorageError> {
        self.discard_text();
        let outcome = self.begin();
        self.noted(outcome)
    }

    /// Begins a file beside that of the text.
    fn begin(&mut self) -> io::Result<()> {
        if let Some(paths) = &self.paths {
            self.unfinished = Some(UnfinishedText::begin(self.rt, paths.text.as_str())?);
        }
        Ok(())
    }

    /// Returns the length of the text that was read or replaced.
    pub fn text_len(&self) -> usize {
        match &self.stamp {
            Some(stamp) => stamp.size(),
            None => 0,
        }
    }

    /// Returns how many bytes are written of a text in pieces.
    pub fn written_len(&self) -> usize {
        match &self.unfinished {
            Some(unfinished) => unfinished.len(),
            None => 0,
        }
    }

    /// Appends a piece to the text that was begun, and returns once it is on the disk. An error leaves no file of that text.
    pub fn extend_text(&mut self, bytes: &[u8]) -> Result<(), StorageError> {
        let outcome = match &mut self.unfinished {
            Some(unfinished) => unfinished.extend(bytes),
            None => Ok(()),
        };
        if outcome.is_err() {
            self.discard_text();
        }
        self.noted(outcome)
    }

    /// Returns once the text that was begun is on the disk as a whole, so that it may replace the text, as after
    /// [`prepare_text`](FileStorage::prepare_text). An error leaves no file of that text.
    pub fn finish_text(&mut self) -> Result<(), StorageError> {
        let outcome = self.finish();
        self.noted(outcome)
    }

    /// Returns once the text that was begun is on the disk as a whole.
    fn finish(&mut self) -> io::Result<()> {
        if let Some(unfinished) = self.unfinished.take() {
            self.prepared = Some(unfinished.finish(self.rt)?);
        }
        Ok(())
    }

    /// Removes the file of a text that was prepared, or begun.
    pub fn discard_text(&mut self) {
        if let Some(unfinished) = self.unfinished.take() {
            unfinished.remove(self.rt);
        }
        if let Some(prepared) = self.prepared.take() {
            prepared.into_replacement().remove(self.rt);
        }
    }

    /// Returns the outcome of a call, and keeps its error.
    fn noted<T: Drop>(&mut self, outcome: io::Result<T>) -> Result<T, StorageError> {
        match outcome {
            Ok(value) => Ok(value),
            Err(error) => {
                self.error = Some(error);
                Err(StorageError::Failed)
            }
        }
    }

    /// Takes the lock of the journal, unless it is taken.
    fn lock(&mut self) -> io::Result<()> {
        if let (None, Some(paths)) = (&self.lock, &self.paths) {
            let journal = target_of(self.rt, paths.journal.as_str())?;
            self.lock = Some(take_lock(self.rt, journal.as_str())?);
        }
        Ok(())
    }

    /// Opens the journal for appends, unless it is open.
    fn open(&mut self) -> io::Result<()> {
        self.lock()?;
        if let (None, Some(paths)) = (&self.file, &self.paths) {
            let file = OpenOptions::new()
                .append(true)
                .create(true)
                .open(self.rt, paths.journal.as_str())?;
            self.file = Some(file);
        }
        Ok(())
    }

    /// Empties the record of the journal if that is missing.
    fn forget_missing(&self) -> io::Result<()> {
        if let Some(paths) = &self.paths {
            let journal = target_of(self.rt, paths.journal.as_str())?;
            if !fs::exists(self.rt, journal.as_str())? {
                EndRecord::forget(self.rt, journal.as_str())?;
            }
        }
        Ok(())
    }

    /// Reads both files. What is read is on the disk.
    fn read_files(&mut self) -> io::Result<StoredFiles> {
        self.lock()?;
        self.forget_missing()?;
        self.open()?;
        if let Some(file) = &self.file {
            file.sync_all()?;
        }
        let Some(paths) = &self.paths else {
            return Ok(StoredFiles {
                text: Vec::new(self.rt.alloc()),
                journal: Vec::new(self.rt.alloc()),
            });
        };
        sync_folder(
            self.rt,
            target_of(self.rt, paths.journal.as_str())?.as_str(),
        )?;
        sync_folder(self.rt, target_of(self.rt, paths.text.as_str())?.as_str())?;
        // An edit that is made meanwhile leads to another stamp.
        let stamp = Stamp::of(self.rt, paths.text.as_str())?;
        let text = fs::read(self.rt, paths.text.as_str())?;
        let journal = fs::read(self.rt, paths.journal.as_str())?;
        let target = target_of(self.rt, paths.journal.as_str())?;
        let end = EndRecord::open(self.rt, target.as_str(), journal.as_slice())?;
        end.check(self.rt.alloc(), journal.len())?;
        self.len = journal.len();
        self.stamp = Some(stamp);
        self.end = Some(end);
        Ok(StoredFiles { text, journal })
    }

    /// Appends bytes to the journal.
    fn append_bytes(&mut self, bytes: &[u8]) -> io::Result<()> {
        self.open()?;
        let Some(file) = &mut self.file else {
            return Ok(());
        };
        file.write_all(bytes)?;
        self.len = self.len.saturating_add(bytes.len());
        Ok(())
    }

    /// Returns once the data of the journal are on the disk.
    fn sync_journal(&mut self) -> io::Result<()> {
        self.open()?;
        let Some(file) = &self.file else {
            return Ok(());
        };
        file.sync_data()?;
        self.note_end(self.len);
        Ok(())
    }

    /// Notes that so many bytes of the journal are on the disk.
    pub fn note_end(&mut self, len: usize) {
        if let Some(end) = &mut self.end {
            end.note(self.rt.alloc(), len);
        }
    }

    /// Cuts the journal to a length, once what is cut off is in a file beside it. Nothing that was synchronized is cut off.
    fn cut_journal(&mut self, len: usize) -> io::Result<()> {
        self.open()?;
        if let Some(end) = &self.end {
            end.check(self.rt.alloc(), len)?;
        }
        if let Some(paths) = &self.paths {
            let journal = target_of(self.rt, paths.journal.as_str())?;
            let bytes = fs::read(self.rt, journal.as_str())?;
            if len < bytes.len() {
                let cut = keep_cut(self.rt, journal.as_str(), &bytes.as_slice()[len..])?;
                sync_folder(self.rt, journal.as_str())?;
                self.cut = Some(cut);
            }
        }
        let Some(file) = &self.file else {
            return Ok(());
        };
        file.set_len(len as u64)?;
        self.len = len;
        Ok(())
    }

    /// Replaces the text, unless it was edited.
    fn write_text(&mut self, bytes: &[u8]) -> io::Result<()> {
        let replacement = self.replacement_of(bytes)?;
        let Some(paths) = &self.paths else {
            return Ok(());
        };
        if self.stamp.is_some() && self.stamp != Some(Stamp::of(self.rt, paths.text.as_str())?) {
            if let Some(replacement) = replacement {
                replacement.remove(self.rt);
            }
            let message = "the zone file was edited since it was read";
            return Err(io::Error::new(io::ErrorKind::Other, message));
        }
        if let Some(replacement) = replacement {
            replacement.take_name(self.rt)?;
        }
        self.stamp = Some(Stamp::of(self.rt, paths.text.as_str())?);
        Ok(())
    }

    /// Returns the file that is about to replace the text by these bytes: the one that was prepared, if it has them, or a new one. There
    /// is none if there are no files.
    fn replacement_of(&mut self, bytes: &[u8]) -> io::Result<Option<Replacement>> {
        if let Some(prepared) = self.prepared.take() {
            if prepared.has(bytes) {
                return Ok(Some(prepared.into_replacement()));
            }
            prepared.into_replacement().remove(self.rt);
        }
        match &self.paths {
            Some(paths) => Ok(Some(Replacement::write(self.rt, paths.text.as_str(), bytes)?)),
            None => Ok(None),
        }
    }

    /// Replaces the journal, and opens the new one.
    fn write_journal(&mut self, bytes: &[u8]) -> io::Result<()> {
        if let Some(end) = &mut self.end {
            end.begin(self.rt.alloc(), bytes)?;
        }
        // The file that is open loses its name.
        self.file = None;
        if let Some(paths) = &self.paths {
            replace_file(self.rt, paths.journal.as_str(), bytes)?;
        }
        self.len = bytes.len();
        self.note_end(self.len);
        self.open()
    }
}

impl<'a> Storage for FileStorage<'a> {
    // No contract can say what files have.
    ghost performs = { λ _ _ _. Unit {0} };

    fn read(&mut self, _alloc: Global) -> Result<StoredFiles, StorageError> {
        let outcome = self.read_files();
        self.noted(outcome)
    }

    fn append(&mut self, bytes: &[u8]) -> Result<(), StorageError> {
        let outcome = self.append_bytes(bytes);
        self.noted(outcome)
    }

    fn sync(&mut self) -> Result<(), StorageError> {
        let outcome = self.sync_journal();
        self.noted(outcome)
    }

    fn cut(&mut self, len: usize) -> Result<(), StorageError> {
        let outcome = self.cut_journal(len);
        self.noted(outcome)
    }

    fn replace_text(&mut self, text: &[u8]) -> Result<(), StorageError> {
        let outcome = self.write_text(text);
        self.noted(outcome)
    }

    fn replace_journal(&mut self, bytes: &[u8]) -> Result<(), StorageError> {
        let outcome = self.write_journal(bytes);
        self.noted(outcome)
    }
}
