//! The updates that a text lacks, because they were made while it was written.

ghost use Rattle.std.specs.Prelude.{List, IfSome, OnOk};
ghost use Rattle.dns_zone.specs.Rows.{ZoneContent};
ghost use Rattle.dns_durable.specs.Draft.{HaveOneMark, IsBehind};
ghost use Rattle.dns_durable.specs.internal.Drafting.{Carries, CarriesOn, IsJoined, Notes};

use crate::draft::{Draft, DraftFault, Progress};
use crate::durable_server::Replies;
use crate::recovery::MAX_CARRIED_LEN;
use std::alloc::AllocError;

/// Adds the entry of updates that are on the disk and were served to those that a text lacks, if one is being written. It is given up
/// if that fails, and if memory was refused while the updates were served.
pub(crate) fn note_outcome(
    progress: &mut Progress,
    outcome: &Result<Replies, AllocError>,
    entry: &[u8],
)
    ensures { Notes outcome.now entry.now progress.old progress.new }
{
    match outcome {
        Ok(replies) => {
            if replies.is_stored {
                carry_updates(progress, entry);
            }
        }
        Err(_) => give_up(progress),
    }
}

/// Adds an entry to those that a text lacks.
fn carry_updates(progress: &mut Progress, entry: &[u8])
    ensures { Carries entry.now progress.old progress.new }
{
    if let Progress::Writing(draft) = progress {
        if let Err(fault) = draft.carry(entry) {
            *progress = Progress::GivenUp(fault);
        }
    }
}

/// Gives a text up for want of memory.
fn give_up(progress: &mut Progress)
    ensures { (base : ZoneContent) (zones : List ZoneContent) → IsBehind base zones progress.new }
{
    if let Progress::Writing(_) = progress {
        // The caller was refused memory.
        *progress = Progress::GivenUp(DraftFault::Memory);
    }
}

impl Draft {
    /// Adds an entry to the one of the updates that the text lacks.
    fn carry(&mut self, entry: &[u8]) -> Result<(), DraftFault>
        ensures { OnOk result (CarriesOn entry.now self.old self.new) }
    {
        join(&mut self.carried, entry)
    }
}

/// Adds an entry to another one, behind the mark of its rule.
fn join(carried: &mut Vec<u8>, entry: &[u8]) -> Result<(), DraftFault>
    ensures { OnOk result (IsJoined carried.old.items entry.now carried.new.items) }
{
    if entry.is_empty() {
        return Ok(());
    }
    let more = if carried.is_empty() {
        entry
    } else {
        match behind_mark(carried.as_slice(), entry) {
            Some(more) => more,
            None => return Err(DraftFault::Overrun),
        }
    };
    if carried.len().saturating_add(more.len()) > MAX_CARRIED_LEN {
        return Err(DraftFault::Overrun);
    }
    carried.extend_from_slice(more)?;
    Ok(())
}

/// Returns what an entry has behind its mark, if an earlier one has the same mark.
fn behind_mark<'a>(earlier: &[u8], entry: &'a [u8]) -> Option<&'a [u8]>
    ensures { IfSome result (λ more. HaveOneMark earlier.now entry.now more.now) }
{
    match earlier {
        [a, b, c, ..] => match entry {
            [d, e, f, more @ ..] => (*a == *d && *b == *e && *c == *f).then_some(more),
            _ => None,
        },
        _ => None,
    }
}
