//! Files that the program reads.

use dns_keys::is_exposed;
use nameserver_cli::{Ending, text_of};
use std::fs::File;
use std::io::Read;
use std::os::unix::fs::PermissionsExt;
use std::{fs, io};

/// Reads a file.
fn read_file(rt: &HostRuntime, path: &str) -> Result<Vec<u8>, Ending> {
    match fs::read(rt, path) {
        Ok(bytes) => Ok(bytes),
        Err(error) if error.kind() == io::ErrorKind::OutOfMemory => {
            // Reading the file was refused memory.
            Err(Ending::Memory)
        }
        Err(error) => Err(Ending::CannotRead(String::from_str(rt.alloc(), path)?, error)),
    }
}

/// Reads a file as text.
pub(crate) fn read_text(rt: &HostRuntime, path: &str) -> Result<String, Ending> {
    text_of(rt.alloc(), path, read_file(rt, path)?)
}

/// Reads a key file. If other users may read or write it, a line on standard error says so.
pub(crate) fn read_key_file(rt: &HostRuntime, path: &str) -> Result<Vec<u8>, Ending> {
    match read_secrets(rt, path) {
        Ok(Secrets { text, mode }) => {
            if is_exposed(mode) {
                // A failure to write to standard error can't be reported.
                let _written = eprintln!(rt;
                    "nameserver: {path}: other users may read or write the key file"
                );
            }
            Ok(text)
        }
        Err(error) if error.kind() == io::ErrorKind::OutOfMemory => {
            // Reading the file was refused memory.
            Err(Ending::Memory)
        }
        Err(error) => Err(Ending::CannotRead(String::from_str(rt.alloc(), path)?, error)),
    }
}

/// The text of a file, and its mode.
#[derive(Drop)]
struct Secrets {
    text: Vec<u8>,
    mode: u32,
}

/// Reads a file and its mode.
fn read_secrets(rt: &HostRuntime, path: &str) -> io::Result<Secrets> {
    let mut file = File::open(rt, path)?;
    let mode = file.metadata()?.permissions().mode();
    let mut text = Vec::new(rt.alloc());
    file.read_to_end(&mut text)?;
    Ok(Secrets { text, mode })
}
