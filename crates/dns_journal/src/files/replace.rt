//! A file is replaced.

use crate::files::paths::{sync_folder, target_of};
use std::fs::{File, OpenOptions, Permissions};
use std::io::Write;
use std::os::unix::fs::{MetadataExt, OpenOptionsExt, PermissionsExt, fchown};
use std::{fs, io};

/// A file that is about to take the name of another one in the same folder. Its bytes are on the disk.
#[derive(Drop)]
pub(crate) struct Replacement {
    /// Its path, until it takes the name.
    path: String,
    /// The path of the file that it replaces.
    target: String,
}

impl Replacement {
    /// Writes bytes to a file that is about to replace the one at a path, or the one that a symbolic link leads to. It has the mode of
    /// that file, and its owner and its group as far as this process may give files away. After a failure it is removed.
    pub(crate) fn write(rt: &HostRuntime, path: &str, bytes: &[u8]) -> io::Result<Replacement> {
        let target = target_of(rt, path)?;
        let path = format!(in rt.alloc(); "{target}.new")?;
        match write_like(rt, path.as_str(), target.as_str(), bytes) {
            Ok(()) => Ok(Replacement { path, target }),
            Err(error) => {
                // The failure that is reported is the first one.
                let _removed = fs::remove_file(rt, path.as_str());
                Err(error)
            }
        }
    }

    /// Gives the file the name of the other one. A crash leaves the other file as it was before, or this one. After a failure this file
    /// is removed.
    pub(crate) fn take_name(self, rt: &HostRuntime) -> io::Result<()> {
        match fs::rename(rt, self.path.as_str(), self.target.as_str()) {
            Ok(()) => sync_folder(rt, self.target.as_str()),
            Err(error) => {
                self.remove(rt);
                Err(error)
            }
        }
    }

    /// Removes the file.
    pub(crate) fn remove(self, rt: &HostRuntime) {
        // It is written anew before it is used.
        let _removed = fs::remove_file(rt, self.path.as_str());
    }
}

/// A file that is being written, and is about to take the name of another one.
#[derive(Drop)]
pub(crate) struct Unfinished {
    file: File,
    replacement: Replacement,
}

impl Unfinished {
    /// Begins a file that is about to replace the one at a path, as [`Replacement::write`] does.
    pub(crate) fn begin(rt: &HostRuntime, path: &str) -> io::Result<Unfinished> {
        let target = target_of(rt, path)?;
        let path = format!(in rt.alloc(); "{target}.new")?;
        match create_like(rt, path.as_str(), target.as_str()) {
            Ok(file) => Ok(Unfinished {
                file,
                replacement: Replacement { path, target },
            }),
            Err(error) => {
                // The failure that is reported is the first one.
                let _removed = fs::remove_file(rt, path.as_str());
                Err(error)
            }
        }
    }

    /// Appends bytes, and returns once they are on the disk.
    pub(crate) fn extend(&mut self, bytes: &[u8]) -> io::Result<()> {
        self.file.write_all(bytes)?;
        self.file.sync_data()
    }

    /// Returns the file, once it is on the disk.
    pub(crate) fn finish(self, rt: &HostRuntime) -> io::Result<Replacement> {
        let Unfinished { file, replacement } = self;
        match file.sync_all() {
            Ok(()) => Ok(replacement),
            Err(error) => {
                replacement.remove(rt);
                Err(error)
            }
        }
    }

    /// Removes the file.
    pub(crate) fn remove(self, rt: &HostRuntime) {
        let Unfinished { file, replacement } = self;
        drop(file);
        replacement.remove(rt);
    }
}

/// Replaces a file, as [`Replacement`] does.
pub(crate) fn replace_file(rt: &HostRuntime, path: &str, bytes: &[u8]) -> io::Result<()> {
    Replacement::write(rt, path, bytes)?.take_name(rt)
}

/// Writes bytes to a file with the mode, the owner and the group of another one, and synchronizes it.
fn write_like(rt: &HostRuntime, path: &str, target: &str, bytes: &[u8]) -> io::Result<()> {
    let mut file = create_like(rt, path, target)?;
    file.write_all(bytes)?;
    file.sync_all()
}

/// Creates a file with the mode, the owner and the group of another one.
fn create_like(rt: &HostRuntime, path: &str, target: &str) -> io::Result<File> {
    match fs::metadata(rt, target) {
        Ok(metadata) => {
            let file = create_private(rt, path)?;
            let (user, group) = (metadata.uid(), metadata.gid());
            // Only a privileged process may give a file to another user.
            let _given = fchown(&file, None, Some(group));
            let _given = fchown(&file, Some(user), None);
            file.set_permissions(Permissions::from_mode(metadata.mode() & 0o7777))?;
            Ok(file)
        }
        Err(error) if error.kind() == io::ErrorKind::NotFound => File::create(rt, path),
        Err(error) => Err(error),
    }
}

/// Creates a file that no other user may read.
fn create_private(rt: &HostRuntime, path: &str) -> io::Result<File> {
    OpenOptions::new()
        .write(true)
        .create(true)
        .truncate(true)
        .mode(0o600)
        .open(rt, path)
}
