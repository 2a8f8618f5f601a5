//! A journal that was read is opened.

ghost use Rattle.std.specs.Prelude.{◌≡◌, ◌≢◌, ◌<◌, ◌+◌, ◌^◌, ◌++◌, ◌∷◌, ◌↔◌, ◌⊎◌, List, ℕ, length, map, option_map, None, IfOk, IfErr, IfSome, IsTrue};
ghost use Rattle.sha2.specs.Sha256.{sha256};
ghost use Rattle.dns_journal.specs.Storage.{Performs};
ghost use Rattle.dns_durable.specs.recovery.Compacting.{entries_of, last_payload, updates_in, updates_of};
ghost use Rattle.dns_durable.specs.recovery.Opening.{Begins, IsOfText, IsRefusal, Opens, ResumesUpdates, StandFor, files_read};

use crate::recovery::beginning::{NewJournal, new_journal};
use crate::recovery::compacting::{MARK_TAG, UPDATE_TAG};
use crate::recovery::error::OpenError;
use dns_journal::format::laws::{
    a_header_is_a_journal, an_appended_entry_is_read, journals_read_unambiguously,
};
use dns_journal::format::{JournalContent, ReadError, digest_of, read_journal};
use dns_journal::{Position, Storage, StoredFiles, resume};
use std::alloc::{AllocError, Global};

/// A journal that is open.
#[derive(Drop)]
pub struct Opened<'a> {
    /// The bytes of its updates, in order.
    pub updates: Vec<&'a [u8]>,
    /// Its end.
    pub position: Position,
}

/// Opens the journal of files that were read: returns its updates and its position. A journal that is empty is begun, and so is one
/// that ends with the mark of the text, with the updates that the text lacks, both with this key, which has to be drawn at random. What
/// follows the entries of another one is cut off, if the journal belongs to the text.
///
/// # Errors
///
/// - [`OpenError::Journal`] if the bytes are not a journal, with the place of the damage;
/// - [`OpenError::OtherText`] if the journal belongs to another text;
/// - [`OpenError::Storage`] if the storage fails;
/// - [`OpenError::Memory`] if memory is refused.
///
/// Nothing is asked of the storage before the digest of the journal was compared with that of the text.
pub fn open_journal<'a, S: Storage>(
    storage: &mut S,
    alloc: Global,
    files: &'a StoredFiles,
    key: [u8; 16],
) -> Result<Opened<'a>, OpenError>
    ensures ok { IfOk result (λ opened. StandFor (files_read files.now)
        (map (λ u. u.now) opened.updates.items)) }
    ensures key { IfOk result (λ opened. (opened.position.key ≡ key)
        ⊎ IsOfText (files_read files.now)) }
    ensures refused { IfErr result (IsRefusal (files_read files.now)) }
    ensures performs { Performs S.performs storage.old storage.new
        (Opens (files_read files.now) result) }
{
    journals_read_unambiguously();
    a_header_is_a_journal();
    an_appended_entry_is_read();
    if files.journal.is_empty() {
        return begin(storage, alloc, files.text.as_slice(), key, &[]);
    }
    let content = match read_journal(alloc, files.journal.as_slice()) {
        Ok(content) => content,
        // Memory for the list of payloads was refused.
        Err(ReadError::Memory) => return Err(OpenError::Memory),
        Err(error) => return Err(OpenError::Journal(error)),
    };
    let digest = digest_of(files.text.as_slice());
    if is_same(&content.head[0..32], digest.as_slice()) {
        return resume_updates(storage, alloc, &content);
    }
    match carried_by(last_payload(content.payloads.as_slice()), digest.as_slice()) {
        Some(carried) => begin(storage, alloc, files.text.as_slice(), key, carried),
        None => Err(OpenError::OtherText),
    }
}

/// Begins a journal for a text, with the updates that this lacks and a key.
fn begin<'a, S: Storage>(
    storage: &mut S,
    alloc: Global,
    text: &[u8],
    key: [u8; 16],
    carried: &'a [u8],
) -> Result<Opened<'a>, OpenError>
    requires { length carried.now + 1 < 2 ^ 23 }
    ensures updates { IfOk result (λ opened. map (λ u. u.now) opened.updates.items
        ≡ entries_of carried.now) }
    ensures key { IfOk result (λ opened. opened.position.key ≡ key) }
    ensures len { length key ≡ 16 }
    ensures performs { Performs S.performs storage.old storage.new
        (Begins text.now key carried.now result) }
{
    let updates = match entries_of(alloc, carried) {
        Ok(updates) => updates,
        // Memory for the list of updates was refused.
        Err(_) => return Err(OpenError::Memory),
    };
    let NewJournal { bytes, position } = match new_journal(alloc, digest_of(text), key, carried) {
        Ok(new) => new,
        // Memory for the journal was refused.
        Err(_) => return Err(OpenError::Memory),
    };
    match storage.replace_journal(bytes.as_slice()) {
        Ok(()) => Ok(Opened { updates, position }),
        Err(error) => Err(OpenError::Storage(error)),
    }
}

/// Returns the entry for bytes of updates, if there are any.
fn entries_of<'a>(alloc: Global, updates: &'a [u8]) -> Result<Vec<&'a [u8]>, AllocError>
    ensures { IfOk result (λ entries. map (λ u. u.now) entries.items ≡ entries_of updates.now) }
{
    let mut entries = Vec::new(alloc);
    if !updates.is_empty() {
        entries.push(updates)?;
    }
    Ok(entries)
}

/// Returns the updates of a journal that was read, and cuts off what follows its entries.
fn resume_updates<'a, S: Storage>(
    storage: &mut S,
    alloc: Global,
    content: &JournalContent<'a>,
) -> Result<Opened<'a>, OpenError>
    requires { length content.now.head.now ≡ 48 }
    ensures updates { IfOk result (λ opened. map (λ u. u.now) opened.updates.items
        ≡ updates_in (map (λ p. p.now) content.now.payloads.items)) }
    ensures performs { Performs S.performs storage.old storage.new
        (ResumesUpdates content.now result) }
{
    let updates = match updates_of(alloc, content.payloads.as_slice()) {
        Ok(updates) => updates,
        // Memory for the list of updates was refused.
        Err(_) => return Err(OpenError::Memory),
    };
    match resume(storage, content) {
        Ok(position) => Ok(Opened { updates, position }),
        Err(error) => Err(OpenError::Storage(error)),
    }
}

/// Returns the updates of payloads.
fn updates_of<'a>(alloc: Global, payloads: &[&'a [u8]]) -> Result<Vec<&'a [u8]>, AllocError>
    ensures { IfOk result (λ updates. map (λ u. u.now) updates.items
        ≡ updates_in (map (λ p. p.now) payloads.now)) }
{
    let mut updates = Vec::new(alloc);
    let mut rest = payloads;
    while let [payload, more @ ..] = rest {
        push_update(&mut updates, payload)?;
        rest = more;
    }
    Ok(updates)
}

/// Appends the updates of a payload to a list.
fn push_update<'a>(updates: &mut Vec<&'a [u8]>, payload: &'a [u8]) -> Result<(), AllocError>
    ensures { IfOk result (λ _. map (λ u. u.now) updates.new.items
        ≡ map (λ u. u.now) updates.old.items ++ updates_of payload.now) }
{
    match payload {
        [tag, update @ ..] if *tag == UPDATE_TAG => updates.push(update)?,
        _ => {}
    }
    Ok(())
}

/// Returns the last payload, which is empty if there is none.
fn last_payload<'a>(payloads: &[&'a [u8]]) -> &'a [u8]
    ensures { result.now ≡ last_payload (map (λ p. p.now) payloads.now) }
{
    let mut last: &[u8] = &[];
    let mut rest = payloads;
    while let [payload, more @ ..] = rest {
        last = payload;
        rest = more;
    }
    last
}

/// Returns the bytes of the updates that a text with this digest lacks, if a payload is its mark.
fn carried_by<'a>(payload: &'a [u8], digest: &[u8]) -> Option<&'a [u8]>
    requires { length digest.now ≡ 32 }
    ensures found { IfSome result (λ carried. payload.now ≡ 1 ∷ (digest.now ++ carried.now)) }
    ensures none { result ≡ None → (carried : List ℕ) → payload.now ≢ 1 ∷ (digest.now ++ carried) }
{
    match payload {
        [tag, rest @ ..] => {
            if *tag == MARK_TAG {
                behind(rest, digest)
            } else {
                None
            }
        }
        [] => None,
    }
}

/// Returns what follows the first 32 bytes, if these are a digest.
fn behind<'a>(bytes: &'a [u8], digest: &[u8]) -> Option<&'a [u8]>
    requires { length digest.now ≡ 32 }
    ensures found { IfSome result (λ rest. bytes.now ≡ digest.now ++ rest.now) }
    ensures none { result ≡ None → (rest : List ℕ) → bytes.now ≢ digest.now ++ rest }
{
    if bytes.len() < 32 {
        return None;
    }
    if is_same(&bytes[..32], digest) {
        Some(&bytes[32..])
    } else {
        None
    }
}

/// Returns `true` if bytes are equal.
fn is_same(bytes: &[u8], other: &[u8]) -> bool
    ensures { IsTrue result ↔ (bytes.now ≡ other.now) }
{
    bytes == other
}
