//! The zone with the updates of its journal takes the place of the zone file.

use crate::text_file::TextFile;
use dns_durable::{CompactError, DurableServer};
use dns_journal::Journal;
use std::io;
use std::random::RandomSource;

/// Draws the key of a journal at random.
pub fn draw_key<R: RandomSource>(rt: &R) -> io::Result<[u8; 16]> {
    let mut key = [0u8; 16];
    rt.fill_bytes(&mut key)?;
    Ok(key)
}

/// Why a zone file is not replaced.
#[derive(Drop)]
pub enum Unreplaced {
    /// It was edited since it was read, or can't be read. The zone file and the journal are unchanged.
    Edited(&'static str),
    /// The new text can't be written beside it, or the key of a new journal can't be drawn. The zone file and the journal are
    /// unchanged.
    Unwritten(io::Error),
    /// The zone has no text, or the journal failed.
    Refused(CompactError),
}

/// Replaces the zone file by the zone with the updates of its journal. The journal and the zone file are as they were until the new text
/// is on the disk.
pub fn replace_text<R: AllocGlobal + RandomSource, S: TextFile>(
    rt: &R,
    server: &mut DurableServer<S>,
) -> Result<(), Unreplaced> {
    unedited_text(&mut server.journal)?;
    let rewritten = match server.rewrite(rt.alloc()) {
        Ok(rewritten) => rewritten,
        Err(error) => return Err(Unreplaced::Refused(error)),
    };
    prepare(&mut server.journal, rewritten.text.as_str())?;
    let key = match draw_key(rt) {
        Ok(key) => key,
        Err(error) => {
            server.journal.storage.discard_text();
            return Err(Unreplaced::Unwritten(error));
        }
    };
    match server.replace(rt.alloc(), key, rewritten) {
        Ok(()) => Ok(()),
        Err(error) => {
            server.journal.storage.discard_text();
            Err(Unreplaced::Refused(error))
        }
    }
}

/// Writes a text to a file beside the zone file, which was not edited until it is there.
fn prepare<S: TextFile>(journal: &mut Journal<S>, text: &str) -> Result<(), Unreplaced> {
    if journal.storage.prepare_text(text.as_bytes()).is_err() {
        return Err(unwritten(&mut journal.storage));
    }
    match unedited_text(journal) {
        Ok(()) => Ok(()),
        Err(edited) => {
            journal.storage.discard_text();
            Err(edited)
        }
    }
}

/// Returns why a text can't be written beside the zone file.
pub(crate) fn unwritten<S: TextFile>(storage: &mut S) -> Unreplaced {
    let error = storage.take_error();
    Unreplaced::Unwritten(error.unwrap_or(io::Error::from(io::ErrorKind::Other)))
}

/// Returns why the zone file is not to be replaced, if it was edited since it was read, or can't be read.
pub(crate) fn unedited_text<S: TextFile>(journal: &mut Journal<S>) -> Result<(), Unreplaced> {
    let Journal { storage, position } = journal;
    match storage.is_unedited(position.digest.as_slice()) {
        Ok(true) => Ok(()),
        Ok(false) => Err(Unreplaced::Edited("the zone file was edited since it was read")),
        Err(_) => Err(Unreplaced::Edited("the zone file can't be read")),
    }
}
