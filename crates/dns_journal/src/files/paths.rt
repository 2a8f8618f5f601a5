//! Symbolic links and folders.

use std::alloc::{AllocError, Global};
use std::fs::File;
use std::{fs, io};

/// Returns the path of the file that a path leads to through symbolic links. The file may be missing, and so may the target of a link.
pub(crate) fn target_of(rt: &HostRuntime, path: &str) -> io::Result<String> {
    match fs::canonicalize(rt, path) {
        Ok(target) => Ok(target.into_string()),
        Err(error) if error.kind() == io::ErrorKind::NotFound => missing_target(rt, path),
        Err(error) => Err(error),
    }
}

/// Returns the path of a missing file that a path leads to, through one symbolic link at most.
fn missing_target(rt: &HostRuntime, path: &str) -> io::Result<String> {
    match fs::read_link(rt, path) {
        Ok(target) => Ok(joined(rt.alloc(), path, target.into_string())?),
        Err(_) => Ok(String::from_str(rt.alloc(), path)?),
    }
}

/// Returns the target of a link at a path: it may be relative to the folder of the link.
fn joined(alloc: Global, path: &str, target: String) -> Result<String, AllocError> {
    if target.starts_with('/') {
        return Ok(target);
    }
    let mut whole = folder_of(alloc, path)?;
    whole.push('/')?;
    whole.push_str(target.as_str())?;
    Ok(whole)
}

/// Returns once the names in the folder of a path are on the disk.
pub(crate) fn sync_folder(rt: &HostRuntime, path: &str) -> io::Result<()> {
    let folder = folder_of(rt.alloc(), path)?;
    File::open(rt, folder.as_str())?.sync_all()
}

/// Returns the folder of a path.
fn folder_of(alloc: Global, path: &str) -> Result<String, AllocError> {
    match path.rsplit_once('/') {
        Some(("", _)) => String::from_str(alloc, "/"),
        Some((folder, _)) => String::from_str(alloc, folder),
        None => String::from_str(alloc, "."),
    }
}
