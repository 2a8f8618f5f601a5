//! A journal to which payloads are appended.

ghost use Rattle.std.specs.Prelude.{◌≡◌, ◌≢◌, ◌<◌, ◌+◌, ◌^◌, List, ℕ, length, is_ok, IfOk, IfErr, IsOk};
ghost use Rattle.dns_journal.specs.format.Format.{entry, next, IsShort};
ghost use Rattle.dns_journal.specs.Appending.{Appends, AreCalls, IsPosition, IsRefusal, IsStored};
ghost use Rattle.dns_journal.specs.Storage.{Performs};
ghost use Rattle.dns_journal.specs.declared.error.AppendError.TheVariants as errors;
ghost use Rattle.dns_journal.specs.declared.journal.State.TheVariants as states;

use crate::error::AppendError;
use crate::format::laws::{a_torn_write_is_cut_off, an_appended_entry_is_read};
use crate::format::{Link, MAX_PAYLOAD_LEN, write_entry};
use crate::storage::Storage;
use std::alloc::Global;

/// Whether a journal takes entries.
#[derive(Clone, Copy, Debug, PartialEq, Eq)]
pub enum State {
    /// It does: what was appended is on the disk.
    Ready,
    /// An append failed. What it left is cut off when the journal is opened again.
    Torn,
    /// A call failed after which nothing is known of the disk. The journal has to be opened again.
    Lost,
}

/// The end of a journal.
#[derive(Clone, Copy, Debug, PartialEq, Eq)]
pub struct Position {
    /// The length of the journal, in bytes.
    pub end: usize,
    /// The digest of the text that it belongs to.
    pub digest: [u8; 32],
    /// The key that was drawn for it.
    pub key: [u8; 16],
    /// The link for the next entry.
    pub link: Link,
    /// Whether it takes entries.
    pub state: State,
}

/// A journal to which payloads are appended.
///
/// A payload is on the disk when its append returns. A crash before that leaves the payloads from before, with the new one or without
/// it, and never a part of it.
#[derive(Drop)]
pub struct Journal<S: Storage> {
    /// What keeps the journal.
    pub storage: S,
    /// The end of the journal.
    pub position: Position,
}

/// An entry to be appended, and the position after it.
#[derive(Drop)]
struct NextEntry {
    bytes: Vec<u8>,
    position: Position,
}

impl<S: Storage> Journal<S> {
    /// Appends a payload, and returns once it is on the disk.
    ///
    /// # Errors
    ///
    /// - [`AppendError::NotReady`] if an earlier call failed and the journal was not opened again;
    /// - [`AppendError::Full`] if the payload is longer than [`MAX_PAYLOAD_LEN`], or if the length of the journal or the number of its
    ///   entries would not fit in 64 bits;
    /// - [`AppendError::Storage`] if the storage fails: then the journal is not ready, and the entry may be on the disk or not;
    /// - [`AppendError::Memory`] if memory is refused, before anything is asked of the storage.
    pub fn append(&mut self, alloc: Global, payload: &[u8]) -> Result<(), AppendError>
        ensures ready { IsOk result → self.old.position.state ≡ states.Ready }
        ensures refused { IfErr result
            (IsRefusal self.old.position payload.now self.new.position) }
        ensures calls { Performs S.performs self.old.storage self.new.storage
            (AreCalls (entry self.old.position.key self.old.position.link payload.now) result
            self.new.position.state) }
        ensures performs { Performs S.performs self.old.storage self.new.storage
            (λ es. (text bytes digest : List ℕ) (payloads : List (List ℕ))
            → IsPosition self.old.position bytes digest payloads
            → Appends self.old.position self.new.position payload.now (is_ok result) text bytes digest payloads es) }
    {
        an_appended_entry_is_read();
        a_torn_write_is_cut_off();
        let next = match next_entry(alloc, self.position, payload) {
            Ok(next) => next,
            Err(error) => return Err(error),
        };
        match store(&mut self.storage, next.bytes.as_slice()) {
            State::Ready => {
                self.position = next.position;
                Ok(())
            }
            State::Torn => {
                self.position.state = State::Torn;
                Err(AppendError::Storage)
            }
            State::Lost => {
                self.position.state = State::Lost;
                Err(AppendError::Storage)
            }
        }
    }
}

/// Makes the entry with a payload at a position.
fn next_entry(alloc: Global, position: Position, payload: &[u8]) -> Result<NextEntry, AppendError>
    ensures bytes { IfOk result (λ next. next.bytes.items
        ≡ entry position.key position.link payload.now) }
    ensures end { IfOk result (λ next. next.position.end
        ≡ position.end + length (entry position.key position.link payload.now)) }
    ensures digest { IfOk result (λ next. next.position.digest ≡ position.digest) }
    ensures key { IfOk result (λ next. next.position.key ≡ position.key) }
    ensures link { IfOk result (λ after. after.position.link
        ≡ next position.key position.link payload.now) }
    ensures state { IfOk result (λ next. next.position.state ≡ states.Ready) }
    ensures short { IfOk result (λ _. IsShort payload.now) }
    ensures ready { IfOk result (λ _. position.state ≡ states.Ready) }
    ensures refused { IfErr result (λ error. IsRefusal position payload.now position error) }
    ensures unasked { IfErr result (λ error. error ≢ errors.Storage) }
{
    if position.state != State::Ready {
        return Err(AppendError::NotReady);
    }
    if payload.len() > MAX_PAYLOAD_LEN {
        return Err(AppendError::Full);
    }
    if position.link.number >= u64::MAX {
        return Err(AppendError::Full);
    }
    let mut bytes = Vec::new(alloc);
    let link = match write_entry(&mut bytes, position.key.as_slice(), position.link, payload) {
        Ok(link) => link,
        // Memory for the entry was refused.
        Err(_) => return Err(AppendError::Memory),
    };
    let Some(end) = position.end.checked_add(bytes.len()) else {
        return Err(AppendError::Full);
    };
    Ok(NextEntry {
        bytes,
        position: Position {
            end,
            digest: position.digest,
            key: position.key,
            link,
            state: State::Ready,
        },
    })
}

/// Appends bytes to the journal of a storage and synchronizes it, and returns the state that this leaves.
fn store<S: Storage>(storage: &mut S, bytes: &[u8]) -> State
    ensures { Performs S.performs storage.old storage.new (IsStored bytes.now result) }
{
    match storage.append(bytes) {
        Ok(()) => match storage.sync() {
            Ok(()) => State::Ready,
            Err(_) => State::Lost,
        },
        Err(_) => State::Torn,
    }
}
