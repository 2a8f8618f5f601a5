//! A text that is on the disk beside the one that it is about to replace.

use crate::files::replace::{Replacement, Unfinished};
use std::hash::{DefaultHasher, Hasher};
use std::io;

/// A text in a file of its own, which is about to take the name of the text.
#[derive(Drop)]
pub(crate) struct PreparedText {
    replacement: Replacement,
    /// What the whole text has to be.
    seal: TextSeal,
}

/// A text that is written in pieces to a file of its own.
#[derive(Drop)]
pub(crate) struct UnfinishedText {
    file: Unfinished,
    /// What is written of it.
    seal: TextSeal,
}

/// By what a text is recognized: its length, and the hash of its last piece.
#[derive(Clone, Copy)]
struct TextSeal {
    len: usize,
    last_len: usize,
    last_hash: u64,
}

impl PreparedText {
    /// Writes a text to a file beside the one at a path.
    pub(crate) fn write(rt: &HostRuntime, path: &str, bytes: &[u8]) -> io::Result<PreparedText> {
        Ok(PreparedText {
            replacement: Replacement::write(rt, path, bytes)?,
            seal: TextSeal {
                len: bytes.len(),
                last_len: bytes.len(),
                last_hash: hash_of(bytes),
            },
        })
    }

    /// Returns `true` if the file is that of these bytes.
    pub(crate) fn has(&self, bytes: &[u8]) -> bool {
        let TextSeal {
            len,
            last_len,
            last_hash,
        } = self.seal;
        len == bytes.len() && last_len <= len && last_hash == hash_of(&bytes[len - last_len..])
    }

    /// Returns the file.
    pub(crate) fn into_replacement(self) -> Replacement {
        self.replacement
    }
}

impl UnfinishedText {
    /// Begins a text in a file beside the one at a path.
    pub(crate) fn begin(rt: &HostRuntime, path: &str) -> io::Result<UnfinishedText> {
        Ok(UnfinishedText {
            file: Unfinished::begin(rt, path)?,
            seal: TextSeal {
                len: 0,
                last_len: 0,
                last_hash: hash_of(&[]),
            },
        })
    }

    /// Returns how many bytes of the text are written.
    pub(crate) fn len(&self) -> usize {
        self.seal.len
    }

    /// Appends a piece of the text, and returns once it is on the disk.
    pub(crate) fn extend(&mut self, bytes: &[u8]) -> io::Result<()> {
        self.file.extend(bytes)?;
        self.seal = TextSeal {
            len: self.seal.len.saturating_add(bytes.len()),
            last_len: bytes.len(),
            last_hash: hash_of(bytes),
        };
        Ok(())
    }

    /// Returns the whole text, once it is on the disk.
    pub(crate) fn finish(self, rt: &HostRuntime) -> io::Result<PreparedText> {
        let UnfinishedText { file, seal } = self;
        Ok(PreparedText {
            replacement: file.finish(rt)?,
            seal,
        })
    }

    /// Removes the file.
    pub(crate) fn remove(self, rt: &HostRuntime) {
        self.file.remove(rt);
    }
}

/// Returns a hash of bytes.
fn hash_of(bytes: &[u8]) -> u64 {
    let mut hasher = DefaultHasher::new();
    hasher.write(bytes);
    hasher.finish()
}
