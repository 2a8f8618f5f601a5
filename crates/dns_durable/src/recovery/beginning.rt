//! A journal that begins with the updates that its text lacks, if there are any.

ghost use Rattle.std.specs.Prelude.{◌≡◌, ◌<◌, ◌+◌, ◌^◌, ◌++◌, length, IfOk};
ghost use Rattle.dns_journal.specs.format.Format.{entries, link_after};
ghost use Rattle.dns_durable.specs.recovery.Beginning.{IsFirst, new_journal};
ghost use Rattle.dns_durable.specs.recovery.Payloads.{payloads_of, update_payload};

use crate::recovery::compacting::UPDATE_TAG;
use dns_journal::format::{Link, write_entry, write_header};
use dns_journal::{Position, State};
use std::alloc::{AllocError, Global};

/// The bytes of a new journal, and its end.
#[derive(Drop)]
pub(crate) struct NewJournal {
    pub(crate) bytes: Vec<u8>,
    pub(crate) position: Position,
}

/// Returns a journal with a key, that belongs to the text with a digest, and has the updates that this text lacks, if there are any.
pub(crate) fn new_journal(
    alloc: Global,
    digest: [u8; 32],
    key: [u8; 16],
    carried: &[u8],
) -> Result<NewJournal, AllocError>
    requires { length carried.now + 1 < 2 ^ 23 }
    ensures bytes { IfOk result (λ new. new.bytes.items ≡ new_journal digest key carried.now) }
    ensures position { IfOk result (λ new. IsFirst digest key carried.now new.position) }
    ensures len { length key ≡ 16 }
{
    let mut head = Vec::new(alloc);
    head.extend_from_slice(digest.as_slice())?;
    head.extend_from_slice(key.as_slice())?;
    let mut bytes = Vec::new(alloc);
    let link = write_header(&mut bytes, head.as_slice())?;
    let link = write_updates(&mut bytes, alloc, key, link, carried)?;
    let end = bytes.len();
    Ok(NewJournal {
        bytes,
        position: Position {
            end,
            digest,
            key,
            link,
            state: State::Ready,
        },
    })
}

/// Appends the entry of updates to a journal with a key, after a link, if there are any, and returns the link for the next entry.
fn write_updates(
    out: &mut Vec<u8>,
    alloc: Global,
    key: [u8; 16],
    link: Link,
    updates: &[u8],
) -> Result<Link, AllocError>
    requires number { link.number + 1 < 2 ^ 64 }
    requires short { length updates.now + 1 < 2 ^ 23 }
    ensures ok { IfOk result (λ _. out.new.items
        ≡ out.old.items ++ entries key link (payloads_of updates.now)) }
    ensures link { IfOk result (λ after. after ≡ link_after key link (payloads_of updates.now)) }
{
    if updates.is_empty() {
        return Ok(link);
    }
    let payload = payload_of(alloc, updates)?;
    let after = write_entry(out, key.as_slice(), link, payload.as_slice())?;
    Ok(after)
}

/// Returns the payload of updates.
pub(crate) fn payload_of(alloc: Global, update: &[u8]) -> Result<Vec<u8>, AllocError>
    ensures payload { IfOk result (λ payload. payload.items ≡ update_payload update.now) }
{
    let mut payload = Vec::new(alloc);
    payload.push(UPDATE_TAG)?;
    payload.extend_from_slice(update)?;
    Ok(payload)
}
