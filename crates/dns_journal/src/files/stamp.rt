//! What tells whether a file is still the one that was read.

use std::fs::{self, Metadata};
use std::io;
use std::os::unix::fs::MetadataExt;

/// The identity, the size and the times of a file. An edit changes them, unless it follows within the resolution of the clock of the
/// file system.
#[derive(Clone, Copy, PartialEq, Eq)]
pub(crate) struct Stamp {
    device: u64,
    inode: u64,
    size: u64,
    modified: (i64, i64),
    changed: (i64, i64),
}

impl Stamp {
    /// Returns the stamp of the file at a path.
    pub(crate) fn of(rt: &HostRuntime, path: &str) -> io::Result<Stamp> {
        Ok(Stamp::in_metadata(&fs::metadata(rt, path)?))
    }

    /// Returns the size of the file.
    pub(crate) fn size(&self) -> usize {
        match usize::try_from(self.size) {
            Ok(size) => size,
            // No text is that long.
            Err(_) => usize::MAX,
        }
    }

    /// Returns the stamp that metadata have.
    fn in_metadata(metadata: &Metadata) -> Stamp {
        Stamp {
            device: metadata.dev(),
            inode: metadata.ino(),
            size: metadata.size(),
            modified: (metadata.mtime(), metadata.mtime_nsec()),
            changed: (metadata.ctime(), metadata.ctime_nsec()),
        }
    }
}
