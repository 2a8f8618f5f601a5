//! A journal that was read is opened: what follows its entries is cut off.

ghost use Rattle.std.specs.Prelude.{◌≡◌, ◌+◌, List, ℕ, length, is_ok, IfOk};
ghost use Rattle.dns_journal.specs.format.Format.{digest_in, last_link, IsJournal};
ghost use Rattle.dns_journal.specs.Appending.{IsPosition};
ghost use Rattle.dns_journal.specs.Opening.{IsCutOff, Resumes, whole_front};
ghost use Rattle.dns_journal.specs.Storage.{Performs};

use crate::error::StorageError;
use crate::format::JournalContent;
use crate::format::laws::{a_journal_without_its_end_is_whole, an_end_may_be_cut_short};
use crate::journal::{Position, State};
use crate::storage::Storage;

/// Cuts off what follows the entries of a journal that was read, synchronizes the journal, and returns its position. Nothing is asked
/// of the storage if nothing follows the entries.
///
/// # Errors
///
/// [`StorageError`] if the storage fails. The same entries are in the journal.
pub fn resume<S: Storage>(
    storage: &mut S,
    content: &JournalContent<'_>,
) -> Result<Position, StorageError>
    requires { length content.now.head.now ≡ 48 }
    ensures resumes { Performs S.performs storage.old storage.new
        (λ es. (text bytes head : List ℕ) (payloads : List (List ℕ))
        → IsJournal bytes head payloads content.now.end.now
        → content.now.len + length content.now.end.now ≡ length bytes
        → Resumes content.now.end.now (is_ok result) text bytes head payloads es) }
    ensures position { IfOk result (λ position. (bytes head : List ℕ) (payloads : List (List ℕ))
        → IsJournal bytes head payloads content.now.end.now
        → content.now.len + length content.now.end.now ≡ length bytes
        → content.now.head.now ≡ head → content.now.link ≡ last_link head payloads
        → IsPosition position (whole_front bytes content.now.end.now) (digest_in head) payloads) }
{
    an_end_may_be_cut_short();
    a_journal_without_its_end_is_whole();
    let position = Position {
        end: content.len,
        digest: digest_array(&content.head[0..32]),
        key: key_array(&content.head[32..]),
        link: content.link,
        state: State::Ready,
    };
    if content.end.is_empty() {
        return Ok(position);
    }
    match cut_off(storage, content.len) {
        State::Ready => Ok(position),
        State::Torn => Err(StorageError::Failed),
        State::Lost => Err(StorageError::Failed),
    }
}

/// Cuts a journal to a length and synchronizes it, and returns the state that this leaves.
fn cut_off<S: Storage>(storage: &mut S, len: usize) -> State
    ensures { Performs S.performs storage.old storage.new (IsCutOff len result) }
{
    match storage.cut(len) {
        Ok(()) => match storage.sync() {
            Ok(()) => State::Ready,
            Err(_) => State::Lost,
        },
        Err(_) => State::Torn,
    }
}

/// Returns a digest as an array.
fn digest_array(digest: &[u8]) -> [u8; 32]
    requires { length digest.now ≡ 32 }
    ensures { result ≡ digest.now }
{
    let mut array = [0u8; 32];
    array.copy_from_slice(digest);
    array
}

/// Returns a key as an array.
fn key_array(key: &[u8]) -> [u8; 16]
    requires { length key.now ≡ 16 }
    ensures { result ≡ key.now }
{
    let mut array = [0u8; 16];
    array.copy_from_slice(key);
    array
}
