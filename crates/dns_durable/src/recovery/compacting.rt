//! A text and its journal are replaced.

ghost use Rattle.std.specs.Prelude.{◌≡◌, ◌<◌, ◌+◌, ◌^◌, length, is_ok, IfErr, IfOk, IsOk};
ghost use Rattle.sha2.specs.Sha256.{sha256};
ghost use Rattle.dns_journal.specs.Appending.{IsRefusal};
ghost use Rattle.dns_journal.specs.Storage.{Performs};
ghost use Rattle.dns_journal.specs.declared.journal.State.TheVariants as states;
ghost use Rattle.dns_durable.specs.recovery.Beginning.{IsFirst, new_journal};
ghost use Rattle.dns_durable.specs.recovery.Compacting.{mark, AsksToCompact, IsReplaced};

use crate::recovery::beginning::{NewJournal, new_journal};
use dns_journal::format::laws::{a_header_is_a_journal, an_appended_entry_is_read};
use dns_journal::{AppendError, Journal, Position, State, Storage};
use std::alloc::{AllocError, Global};

/// The first byte of a payload of updates.
pub const UPDATE_TAG: u8 = 0;

/// The first byte of the mark of a compaction.
pub const MARK_TAG: u8 = 1;

/// The greatest length of the bytes of updates that a new journal begins with: a mark with them is as long as a payload may be.
pub const MAX_CARRIED_LEN: usize = 8_388_574;

/// The text that takes the place of another one.
#[derive(Clone, Copy)]
pub struct NewText<'a> {
    /// The text.
    pub text: &'a [u8],
    /// Its SHA-256 digest.
    pub digest: [u8; 32],
    /// The bytes of the updates that it lacks. They have the form of an entry.
    pub carried: &'a [u8],
}

/// What a compaction writes.
#[derive(Drop)]
struct Replacement {
    mark: Vec<u8>,
    journal: NewJournal,
}

/// Replaces the text of a journal by one that has all of its updates but those that it is said to lack, and begins a new journal with
/// these, and with this key, which has to be drawn at random.
///
/// # Errors
///
/// [`AppendError`], as for [`Journal::append`] of the mark. If the storage fails, the journal is not ready and has to be opened again.
pub fn compact<S: Storage>(
    journal: &mut Journal<S>,
    alloc: Global,
    new: NewText<'_>,
    key: [u8; 16],
) -> Result<(), AppendError>
    requires { new.digest ≡ sha256 new.text.now }
    ensures ready { IsOk result → journal.old.position.state ≡ states.Ready }
    ensures refused { IfErr result
        (IsRefusal journal.old.position (mark new.entry.text.now new.entry.carried.now) journal.new.position) }
    ensures key { IsOk result → journal.new.position.key ≡ key }
    ensures performs { Performs S.performs journal.old.storage journal.new.storage (AsksToCompact
        new.entry.text.now new.entry.carried.now (is_ok result) journal.old.position journal.new.position) }
{
    a_header_is_a_journal();
    an_appended_entry_is_read();
    if new.carried.len() > MAX_CARRIED_LEN {
        return Err(AppendError::Full);
    }
    let replacement = match replacement_of(alloc, new, key) {
        Ok(replacement) => replacement,
        // Memory for what is written was refused.
        Err(_) => return Err(AppendError::Memory),
    };
    match journal.append(alloc, replacement.mark.as_slice()) {
        Ok(()) => {}
        Err(error) => return Err(error),
    }
    match replace(
        &mut journal.storage,
        new.text,
        replacement.journal.bytes.as_slice(),
    ) {
        State::Ready => {
            journal.position = replacement.journal.position;
            Ok(())
        }
        State::Torn => {
            journal.position.state = State::Lost;
            Err(AppendError::Storage)
        }
        State::Lost => {
            journal.position.state = State::Lost;
            Err(AppendError::Storage)
        }
    }
}

/// Returns what a compaction to a text writes, with the key of the new journal.
fn replacement_of(alloc: Global, new: NewText<'_>, key: [u8; 16]) -> Result<Replacement, AllocError>
    requires digest { new.digest ≡ sha256 new.text.now }
    requires short { length new.carried.now + 1 < 2 ^ 23 }
    ensures mark { IfOk result (λ r. r.mark.items ≡ mark new.entry.text.now new.entry.carried.now) }
    ensures journal { IfOk result (λ r. r.journal.bytes.items
        ≡ new_journal (sha256 new.entry.text.now) key new.entry.carried.now) }
    ensures position { IfOk result (λ r.
        IsFirst (sha256 new.entry.text.now) key new.entry.carried.now r.journal.position) }
    ensures len { length key ≡ 16 }
{
    let mut mark = Vec::new(alloc);
    mark.push(MARK_TAG)?;
    mark.extend_from_slice(new.digest.as_slice())?;
    mark.extend_from_slice(new.carried)?;
    let journal = new_journal(alloc, new.digest, key, new.carried)?;
    Ok(Replacement { mark, journal })
}

/// Replaces a text and its journal, and returns the state that this leaves.
fn replace<S: Storage>(storage: &mut S, text: &[u8], journal: &[u8]) -> State
    ensures { Performs S.performs storage.old storage.new
        (IsReplaced text.now journal.now result) }
{
    match storage.replace_text(text) {
        Ok(()) => match storage.replace_journal(journal) {
            Ok(()) => State::Ready,
            Err(_) => State::Lost,
        },
        Err(_) => State::Torn,
    }
}
