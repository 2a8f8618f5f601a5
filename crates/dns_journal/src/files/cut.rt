//! Bytes that are cut off a journal are kept beside it.

use std::fs::File;
use std::io;
use std::io::Write;

/// The greatest number of files of one journal with bytes that were cut off.
const MAX_CUTS: u32 = 10_000;

/// Bytes that were cut off a journal: the file that has them now, and their number.
#[derive(Drop)]
pub struct Cut {
    /// The path of the file.
    pub path: String,
    /// The number of bytes.
    pub len: usize,
}

/// Writes bytes that are about to be cut off a journal to a new file beside it: `PATH.cut`, or `PATH.cut.1` and so on if that is there.
/// No file is overwritten.
pub(crate) fn keep_cut(rt: &HostRuntime, journal: &str, bytes: &[u8]) -> io::Result<Cut> {
    let mut path = format!(in rt.alloc(); "{journal}.cut")?;
    for number in 1..MAX_CUTS {
        match File::create_new(rt, path.as_str()) {
            Ok(mut file) => {
                file.write_all(bytes)?;
                file.sync_all()?;
                return Ok(Cut {
                    path,
                    len: bytes.len(),
                });
            }
            Err(error) if error.kind() == io::ErrorKind::AlreadyExists => {
                path = format!(in rt.alloc(); "{journal}.cut.{number}")?;
            }
            Err(error) => return Err(error),
        }
    }
    Err(io::Error::from(io::ErrorKind::AlreadyExists))
}
