//! Updates that arrive together are appended to a journal as one entry.

ghost use Rattle.std.specs.Prelude.{List, ℕ};
ghost use Rattle.dns_journal.specs.Storage.{Performs};
ghost use Rattle.dns_durable.specs.Storing.{Asks};

use crate::recovery::append_update;
use dns_journal::{Journal, State, Storage};
use std::alloc::Global;

/// The greatest length of the frames of an entry.
const MAX_FRAMES_LEN: usize = 4_294_967_294;

/// Appends the frames of updates to a journal, and returns whether they are on the disk. Nothing is asked of the storage if there are
/// none, or if the journal is not ready.
pub(crate) fn store<S: Storage>(journal: &mut Journal<S>, alloc: Global, frames: &[u8]) -> bool
    ensures { Performs S.performs journal.old.storage journal.new.storage
        (Asks frames.now result journal.old.position journal.new.position) }
{
    if frames.is_empty() {
        return true;
    }
    if journal.position.state != State::Ready || frames.len() > MAX_FRAMES_LEN {
        return false;
    }
    append_update(journal, alloc, frames).is_ok()
}
