//! The text of a zone, which is written in steps while updates change the zone.

ghost use Rattle.std.specs.Prelude.{◌≡◌, ◌++◌, [], false, None, IfOk, OnOk, string_bytes};
ghost use Rattle.sha2.specs.Sha256.{sha256};
ghost use Rattle.dns_zone.specs.Printed.{owner_lines};
ghost use Rattle.dns_zone.specs.Rows.{ZoneContent};
ghost use Rattle.dns_durable.specs.Draft.{IsDraftOf};
ghost use Rattle.dns_durable.specs.internal.Drafting.{IsBegun, Passes, Writes};
ghost use Rattle.dns_durable.specs.zone_texts.Stated.{with_origin};

mod carrying;
mod hashed_text;
mod settling;

use crate::compaction::{Rewritten, with_origin};
use crate::draft::hashed_text::HashedText;
use crate::zone_texts::is_stated_set;
pub(crate) use carrying::note_outcome;
use dns_names::Name;
use dns_records::{Record, RecordSet};
use dns_updates::{SetKey, set_key};
use dns_zone::{RecordLines, Zone};
pub(crate) use settling::settle_updates;
use std::alloc::{AllocError, AllocFailed, Global};
use std::collections::BTreeSet;

/// Why a text is given up.
#[derive(Clone, Copy, Debug, PartialEq, Eq)]
pub enum DraftFault {
    /// A zone file can't state data of the zone.
    Unstated,
    /// Updates were made meanwhile that one entry can't have: too many, or by different rules.
    Overrun,
    /// Memory was refused.
    Memory,
}

/// How far the text is that is about to take the place of a journal.
#[derive(Drop)]
pub enum Progress {
    /// No text is being written.
    Idle,
    /// A text is being written.
    Writing(Draft),
    /// A text was given up.
    GivenUp(DraftFault),
}

/// The text of a zone as it was when the text was begun. It is written set by set, in the order of the sets, while updates change
/// the zone: a set is written ahead of its turn when an update is about to change it.
#[derive(Drop)]
pub struct Draft {
    alloc: Global,
    /// What is written of the text.
    text: HashedText,
    /// The key of the last set that had its turn.
    place: SetKey,
    /// Whether each set had its turn.
    is_whole: bool,
    /// The keys that updates named ahead of their turn: their sets are written, if there are any.
    ahead: BTreeSet<SetKey>,
    /// The entry of the updates that were made since the text was begun.
    carried: Vec<u8>,
}

impl Draft {
    /// Begins the text of a zone, for which a number of bytes are reserved.
    pub(crate) fn begin(alloc: Global, zone: &Zone, capacity: usize) -> Result<Draft, DraftFault>
        ensures begun { IfOk result (IsDraftOf zone.now zone.now) }
        ensures carried { IfOk result (λ draft. draft.carried.items ≡ []) }
    {
        let mut sets = zone.sets();
        match sets.next() {
            Some(start) => Draft::begin_with(alloc, zone.origin(), start, capacity),
            // A zone has a set: that of its SOA record.
            None => unreachable!(),
        }
    }

    /// Begins a text with the line of an origin and the set of its SOA record.
    fn begin_with(
        alloc: Global,
        origin: &Name,
        start: &RecordSet,
        capacity: usize,
    ) -> Result<Draft, DraftFault>
        ensures { IfOk result (IsBegun origin.now start.now) }
    {
        if !is_stated_set(start) {
            return Err(DraftFault::Unstated);
        }
        let mut text = HashedText::with_capacity(alloc, capacity)?;
        push_origin(&mut text, alloc, origin)?;
        push_lines(&mut text, alloc, origin, start.as_slice())?;
        Ok(Draft {
            alloc,
            text,
            place: set_key(start.name(), start.record_type()),
            is_whole: false,
            ahead: BTreeSet::new(alloc),
            carried: Vec::new(alloc),
        })
    }

    /// Returns the whole text, its digest, and the entry of the updates that it lacks.
    pub(crate) fn into_rewritten(self) -> Rewritten
        ensures text { string_bytes result.text ≡ string_bytes self.text.text }
        ensures digest { result.digest ≡ sha256 (string_bytes result.text) }
        ensures carried { result.carried ≡ self.carried }
        ensures zone { result.zone ≡ None }
    {
        let Draft {
            alloc: _alloc,
            text,
            place,
            is_whole: _is_whole,
            ahead,
            carried,
        } = self;
        drop(place);
        drop(ahead);
        let (text, digest) = text.finish();
        Rewritten {
            text,
            digest,
            carried,
            zone: None,
        }
    }

    /// Returns what is written of the text.
    pub fn text(&self) -> &str
        ensures { result.now ≡ string_bytes self.now.text.text }
    {
        self.text.as_str()
    }

    /// Returns `true` if the whole text is written.
    pub fn is_whole(&self) -> bool
        ensures { result ≡ self.now.is_whole }
    {
        self.is_whole
    }

    /// Writes the sets whose turn comes next, until a number of records is written or looked at.
    pub(crate) fn write_on(&mut self, zone: &Zone, count: usize) -> Result<(), DraftFault>
        ensures draft { OnOk result ((base : ZoneContent)
            → IsDraftOf base zone.now self.old → IsDraftOf base zone.now self.new) }
        ensures carried { OnOk result (self.new.carried ≡ self.old.carried) }
    {
        let mut left = count;
        while left > 0 && !self.is_whole {
            let written = self.write_next(zone)?;
            left = left.saturating_sub(written.saturating_add(1));
        }
        Ok(())
    }

    /// Writes the set whose turn comes next, unless it was written ahead, and returns how many records it has.
    fn write_next(&mut self, zone: &Zone) -> Result<usize, DraftFault>
        requires unfinished { self.old.is_whole ≡ false }
        ensures draft { OnOk result ((base : ZoneContent)
            → IsDraftOf base zone.now self.old → IsDraftOf base zone.now self.new) }
        ensures carried { OnOk result (self.new.carried ≡ self.old.carried) }
    {
        let mut sets = zone.sets_after(&self.place);
        match sets.next() {
            Some((_, set)) => self.pass(set),
            None => {
                self.is_whole = true;
                Ok(0)
            }
        }
    }

    /// Writes a set, unless it was written ahead of its turn, and returns how many records it has.
    fn pass(&mut self, set: &RecordSet) -> Result<usize, DraftFault>
        ensures { OnOk result (Passes set.now self.old self.new) }
    {
        let key = set_key(set.name(), set.record_type());
        if !self.ahead.contains(&key) {
            self.write_set(set)?;
        }
        self.place = key;
        Ok(set.records_count())
    }

    /// Appends the lines of a set.
    fn write_set(&mut self, set: &RecordSet) -> Result<(), DraftFault>
        ensures { OnOk result (Writes set.now self.old self.new) }
    {
        if !is_stated_set(set) {
            return Err(DraftFault::Unstated);
        }
        push_lines(&mut self.text, self.alloc, set.name(), set.as_slice())?;
        Ok(())
    }
}

/// Appends the line that states an origin.
fn push_origin(text: &mut HashedText, alloc: Global, origin: &Name) -> Result<(), AllocError>
    ensures { OnOk result (string_bytes text.new.text
        ≡ string_bytes text.old.text ++ with_origin origin.now []) }
{
    let line = with_origin(alloc, origin, "")?;
    text.push_str(line.as_str())
}

/// Appends the lines of records with an owner.
fn push_lines(
    text: &mut HashedText,
    alloc: Global,
    owner: &Name,
    records: &[Record],
) -> Result<(), AllocError>
    ensures { OnOk result (string_bytes text.new.text
        ≡ string_bytes text.old.text ++ owner_lines owner.now records.now) }
{
    let lines = RecordLines { owner, records };
    let lines = format!(in alloc; "{lines}")?;
    text.push_str(lines.as_str())
}

impl From<AllocError> for DraftFault {
    ghost use Rattle.std.specs.Prelude.{◌≡◌};
    ghost use Rattle.dns_durable.specs.declared.draft.DraftFault.TheVariants.{Memory};

    ghost from_gives = { λ _ e. e ≡ Memory };

    fn from(_e: AllocError) -> DraftFault {
        DraftFault::Memory
    }
}

impl<T: Drop> From<AllocFailed<T>> for DraftFault {
    ghost use Rattle.std.specs.Prelude.{◌≡◌};
    ghost use Rattle.dns_durable.specs.declared.draft.DraftFault.TheVariants.{Memory};

    ghost from_gives = { λ _ e. e ≡ Memory };

    fn from(_e: AllocFailed<T>) -> DraftFault {
        DraftFault::Memory
    }
}
