//! The lock file of a journal.

use std::fs::{File, OpenOptions, TryLockError};
use std::io::Write;
use std::{fs, io};

/// Takes the lock of the journal at a path, by the file `PATH.lock`. That file is created if it is missing, and is never replaced or
/// removed: so whoever holds its lock is the only one. It has the process id of the holder. The lock is released when the file is
/// closed.
///
/// An error of kind `WouldBlock` names the process that holds the lock.
pub(crate) fn take_lock(rt: &HostRuntime, journal: &str) -> io::Result<File> {
    let path = format!(in rt.alloc(); "{journal}.lock")?;
    let mut file = OpenOptions::new()
        .read(true)
        .write(true)
        .create(true)
        .open(rt, path.as_str())?;
    match file.try_lock() {
        Ok(()) => {}
        Err(TryLockError::WouldBlock) => return Err(held(rt, path.as_str())?),
        Err(TryLockError::Error(error)) => return Err(error),
    }
    // Without a process id the lock is the same.
    let _named = name_holder(rt, &mut file);
    Ok(file)
}

/// Writes the process id of this process to a lock file.
fn name_holder(rt: &HostRuntime, file: &mut File) -> io::Result<()> {
    let id = fs::read_link(rt, "/proc/self")?.into_string();
    let line = format!(in rt.alloc(); "{id}\n")?;
    file.set_len(0)?;
    file.write_all(line.as_bytes())
}

/// Returns the error that names who holds the lock.
fn held(rt: &HostRuntime, path: &str) -> io::Result<io::Error> {
    let text = fs::read_to_string(rt, path)?;
    let id = text.trim();
    let message = if id.is_empty() {
        String::from_str(rt.alloc(), "another process has its lock file")?
    } else {
        format!(in rt.alloc(); "process {id} has its lock file")?
    };
    Ok(io::Error::new(io::ErrorKind::WouldBlock, message.as_str()))
}
