//! The record of how many bytes of a journal are on the disk.

use crate::format::HEADER_LEN;
use std::alloc::{AllocError, Global};
use std::fs::{File, OpenOptions};
use std::hash::{DefaultHasher, Hasher};
use std::os::unix::fs::FileExt;
use std::{fs, io};

/// Where the number of bytes ends in a record, and its seal begins.
const SEAL_AT: usize = HEADER_LEN + 8;

/// The number of bytes of a record: the header of the journal that it is about, the number in eight bytes, most significant first, and
/// a seal of both.
const RECORD_LEN: usize = SEAL_AT + 8;

/// The file `PATH.end` beside a journal. It has the number of bytes of the journal that were synchronized, so that a journal that has
/// lost some of them is told from one whose last write was interrupted.
///
/// A record is written after each synchronization, and reaches the disk by itself. So after a crash of the machine it may tell of fewer
/// bytes than were synchronized, or be torn, which counts as none; it never tells of more.
#[derive(Drop)]
pub(crate) struct EndRecord {
    file: File,
    /// The header of the journal. It is empty if there is no journal.
    header: Vec<u8>,
    /// The number of bytes that were synchronized, as far as it is known.
    end: usize,
}

impl EndRecord {
    /// Opens the record of the journal at a path, of which these are the bytes. A record of another journal counts as none.
    pub(crate) fn open(rt: &HostRuntime, journal: &str, bytes: &[u8]) -> io::Result<EndRecord> {
        let path = format!(in rt.alloc(); "{journal}.end")?;
        let file = OpenOptions::new()
            .read(true)
            .write(true)
            .create(true)
            .open(rt, path.as_str())?;
        let found = fs::read(rt, path.as_str())?;
        let header = header_in(rt.alloc(), bytes)?;
        let end = recorded_end(found.as_slice(), header.as_slice());
        Ok(EndRecord { file, header, end })
    }

    /// Empties the record of a journal that is missing: it was removed, and a new one is begun.
    pub(crate) fn forget(rt: &HostRuntime, journal: &str) -> io::Result<()> {
        let path = format!(in rt.alloc(); "{journal}.end")?;
        let file = OpenOptions::new()
            .write(true)
            .create(true)
            .truncate(true)
            .open(rt, path.as_str())?;
        file.sync_data()
    }

    /// Fails if fewer bytes are left of the journal than were synchronized.
    pub(crate) fn check(&self, alloc: Global, len: usize) -> io::Result<()> {
        if len < self.end {
            let end = self.end;
            let message = format!(in alloc; "damaged at byte {len}: {end} bytes were on the disk")?;
            return Err(io::Error::new(io::ErrorKind::InvalidData, message.as_str()));
        }
        Ok(())
    }

    /// Notes that so many bytes of the journal are on the disk.
    pub(crate) fn note(&mut self, alloc: Global, end: usize) {
        if self.header.is_empty() || end == self.end {
            return;
        }
        self.end = end;
        // Without its record the journal is the same.
        let _written = self.write(alloc);
    }

    /// Writes the record, by one call.
    fn write(&self, alloc: Global) -> io::Result<()> {
        let number = (self.end as u64).to_be_bytes();
        let seal = seal_of(self.header.as_slice(), number.as_slice());
        let mut record = Vec::new(alloc);
        record.extend_from_slice(self.header.as_slice())?;
        record.extend_from_slice(number.as_slice())?;
        record.extend_from_slice(seal.as_slice())?;
        self.file.write_all_at(record.as_slice(), 0)
    }

    /// Takes the record off the disk, since the journal is about to be replaced by these bytes.
    pub(crate) fn begin(&mut self, alloc: Global, bytes: &[u8]) -> io::Result<()> {
        self.file.set_len(0)?;
        self.file.sync_data()?;
        self.header = header_in(alloc, bytes)?;
        self.end = 0;
        Ok(())
    }
}

/// Returns the header of a journal, or nothing if there is no journal.
fn header_in(alloc: Global, journal: &[u8]) -> Result<Vec<u8>, AllocError> {
    if journal.len() < HEADER_LEN {
        return Ok(Vec::new(alloc));
    }
    Vec::from_slice(alloc, &journal[..HEADER_LEN])
}

/// Returns the number in a record, and 0 if it is not sealed, or is of another journal than the one with this header. A journal that is
/// too short for a header may be any.
fn recorded_end(record: &[u8], header: &[u8]) -> usize {
    if record.len() < RECORD_LEN {
        return 0;
    }
    let front = &record[0..HEADER_LEN];
    let number = &record[HEADER_LEN..SEAL_AT];
    let seal = &record[SEAL_AT..RECORD_LEN];
    let header = if header.is_empty() { front } else { header };
    if front != header || seal != seal_of(header, number).as_slice() {
        return 0;
    }
    number_in(number)
}

/// Returns the number in eight bytes.
fn number_in(bytes: &[u8]) -> usize {
    let number = bytes
        .iter()
        .fold(0u64, |number, byte| number << 8 | u64::from(*byte));
    usize::try_from(number).unwrap_or(usize::MAX)
}

/// Returns the seal of a header and a number.
fn seal_of(header: &[u8], number: &[u8]) -> [u8; 8] {
    let mut hasher = DefaultHasher::new();
    hasher.write(header);
    hasher.write(number);
    hasher.finish().to_be_bytes()
}
