//! Updates are appended to a journal that is open.

ghost use Rattle.std.specs.Prelude.{◌≡◌, List, ℕ, is_ok, IfErr, IsOk};
ghost use Rattle.dns_journal.specs.Appending.{IsRefusal};
ghost use Rattle.dns_journal.specs.Storage.{Disk, Performs};
ghost use Rattle.dns_journal.specs.declared.journal.State.TheVariants as states;
ghost use Rattle.dns_durable.specs.recovery.Updating.{AppendsUpdate, IsOpen, update_payload};

use crate::recovery::beginning::payload_of;
use dns_journal::{AppendError, Journal, Storage};
use std::alloc::Global;

/// Appends the bytes of updates, and returns once they are on the disk.
///
/// # Errors
///
/// [`AppendError`], as for [`Journal::append`].
pub fn append_update<S: Storage>(
    journal: &mut Journal<S>,
    alloc: Global,
    update: &[u8],
) -> Result<(), AppendError>
    ensures ready { IsOk result → journal.old.position.state ≡ states.Ready }
    ensures refused { IfErr result
        (IsRefusal journal.old.position (update_payload update.now) journal.new.position) }
    ensures performs { Performs S.performs journal.old.storage journal.new.storage (λ es.
        (text : List ℕ) (updates : List (List ℕ)) (d : Disk)
        → IsOpen text updates journal.old.position d
        → AppendsUpdate journal.old.position journal.new.position update.now (is_ok result)
        text updates d es) }
{
    let payload = match payload_of(alloc, update) {
        Ok(payload) => payload,
        // Memory for the payload was refused.
        Err(_) => return Err(AppendError::Memory),
    };
    journal.append(alloc, payload.as_slice())
}
