//! The zone file takes the place of a journal, a step at a time.

use crate::replacement::{Unreplaced, draw_key, replace_text, unedited_text, unwritten};
use crate::text_file::TextFile;
use dns_durable::{CompactError, DraftFault, DurableServer, Progress};
use dns_journal::{AppendError, State};
use std::random::RandomSource;

/// How many records are written or looked at in a step.
const RECORDS: usize = 4_000;

/// How many bytes of the text are written to its file at once.
const PIECE_LEN: usize = 1_048_576;

/// How far a compaction is.
#[derive(Clone, Copy, Debug, PartialEq, Eq)]
pub(crate) enum Stage {
    /// There is more to do.
    Begun,
    /// The zone file has taken the place of the journal.
    Done,
}

/// Begins to replace the zone file by the zone with the updates of its journal.
pub(crate) fn begin_compaction<R: AllocGlobal + RandomSource, S: TextFile>(
    rt: &R,
    server: &mut DurableServer<S>,
) -> Result<Stage, Unreplaced> {
    unedited_text(&mut server.journal)?;
    let storage = &mut server.journal.storage;
    if storage.begin_text().is_err() {
        return Err(unwritten(storage));
    }
    // The zone of a text that a person wrote may take twice as many bytes.
    let capacity = storage.text_len().saturating_mul(2);
    match server.begin_draft(rt.alloc(), capacity) {
        Ok(()) => Ok(Stage::Begun),
        Err(error) => {
            server.journal.storage.discard_text();
            Err(Unreplaced::Refused(error))
        }
    }
}

/// Goes on with what was begun. After an error, the zone file and the journal are as they were, unless the journal has failed.
pub(crate) fn continue_compaction<R: AllocGlobal + RandomSource, S: TextFile>(
    rt: &R,
    server: &mut DurableServer<S>,
) -> Result<Stage, Unreplaced> {
    let outcome = next_step(rt, server);
    if outcome.is_err() {
        server.draft = Progress::Idle;
        server.journal.storage.discard_text();
    }
    outcome
}

/// Writes more of the text, or lets it take the place of the zone file once it is written.
fn next_step<R: AllocGlobal + RandomSource, S: TextFile>(
    rt: &R,
    server: &mut DurableServer<S>,
) -> Result<Stage, Unreplaced> {
    if server.journal.position.state != State::Ready {
        return Err(Unreplaced::Refused(CompactError::Journal(AppendError::NotReady)));
    }
    match server.draft {
        Progress::GivenUp(DraftFault::Memory) => {
            // Memory for the text was refused.
            return Err(Unreplaced::Refused(CompactError::Memory));
        }
        Progress::GivenUp(_) => return at_once(rt, server),
        _ => {}
    }
    server.write_draft(RECORDS);
    if !write_piece(server)? {
        return Ok(Stage::Begun);
    }
    let storage = &mut server.journal.storage;
    if storage.finish_text().is_err() {
        return Err(unwritten(storage));
    }
    unedited_text(&mut server.journal)?;
    let key = match draw_key(rt) {
        Ok(key) => key,
        Err(error) => return Err(Unreplaced::Unwritten(error)),
    };
    let Some(rewritten) = server.take_text() else {
        return Ok(Stage::Begun);
    };
    match server.replace(rt.alloc(), key, rewritten) {
        Ok(()) => Ok(Stage::Done),
        Err(error) => Err(Unreplaced::Refused(error)),
    }
}

/// Replaces the zone file without a break: data has to be read again from the text, or updates arrive too fast.
fn at_once<R: AllocGlobal + RandomSource, S: TextFile>(
    rt: &R,
    server: &mut DurableServer<S>,
) -> Result<Stage, Unreplaced> {
    server.draft = Progress::Idle;
    server.journal.storage.discard_text();
    replace_text(rt, server)?;
    Ok(Stage::Done)
}

/// Writes a piece of the text to its file, if there is enough of it. Returns `true` once the whole text is there.
fn write_piece<S: TextFile>(server: &mut DurableServer<S>) -> Result<bool, Unreplaced> {
    let DurableServer { journal, draft, .. } = server;
    let Progress::Writing(draft) = draft else {
        return Ok(false);
    };
    let text = draft.text().as_bytes();
    let storage = &mut journal.storage;
    let start = storage.written_len().min(text.len());
    let end = text.len().min(start.saturating_add(PIECE_LEN));
    if start < end && (draft.is_whole() || end - start == PIECE_LEN) {
        if storage.extend_text(&text[start..end]).is_err() {
            return Err(unwritten(storage));
        }
        return Ok(draft.is_whole() && end == text.len());
    }
    Ok(draft.is_whole() && start == text.len())
}
