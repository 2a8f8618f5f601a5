//! The last differences of zones, as requests change them.

ghost use Rattle.std.specs.Prelude.{◌≡◌, true, false, List, Some, IfOk, OnOk, OnErr};
ghost use Rattle.dns_server.specs.Maintaining.{IsRecordableOf};
ghost use Rattle.dns_zone.specs.Rows.{ZoneContent};
ghost use Rattle.dns_transfers.specs.replies.Recording.{AreForgotten, AreHistoriesOf, AreNewIf, AreNewOf, AreRecorded, IsNewOf};

use crate::replies::zone_history::ZoneHistory;
use dns_differences::{History, Limits};
use dns_server::ZoneChange;
use dns_zone::Zone;
use std::alloc::{AllocError, Global};

/// What keeps the last differences of zones, none left out, for incremental transfers (RFC 1995 section 5).
#[derive(Drop)]
pub struct Recorder {
    histories: Vec<ZoneHistory>,
}

impl Recorder {
    /// Creates a recorder for zones. It keeps differences of each within limits, if there are any.
    pub fn new(
        alloc: Global,
        zones: &[Zone],
        limits: Option<Limits>,
    ) -> Result<Recorder, AllocError>
        ensures histories { IfOk result (λ made. AreNewIf limits zones.now made.histories.items) }
        ensures known { IfOk result (λ made. AreHistoriesOf zones.now made.histories.items) }
    {
        let histories = match limits {
            Some(limits) => new_histories(alloc, zones, limits)?,
            None => Vec::new(alloc),
        };
        Ok(Recorder { histories })
    }

    /// Returns the histories, in the order of the zones, or none if no differences are kept.
    pub fn histories(&self) -> &[ZoneHistory]
        ensures { result.now ≡ self.now.histories.items }
    {
        self.histories.as_slice()
    }

    /// Records the change that a request has made. An error is want of memory: the history of the zone begins again, so that none of
    /// its differences is left out.
    pub fn record(&mut self, change: ZoneChange) -> Result<(), AllocError>
        ensures ok { OnOk result (AreRecorded true change.place change.difference
            self.old.histories.items self.new.histories.items) }
        ensures err { OnErr result (AreRecorded false change.place change.difference
            self.old.histories.items self.new.histories.items) }
        ensures known { (zones after : List ZoneContent)
            → IsRecordableOf zones (Some change) after
            → AreHistoriesOf zones self.old.histories.items
            → AreHistoriesOf after self.new.histories.items }
    {
        let ZoneChange { place, difference } = change;
        if place >= self.histories.len() {
            return Ok(());
        }
        let known = &mut self.histories[place];
        known.history.record(difference)
    }

    /// Drops all differences, since the zones may have changed in a way that is not known.
    pub fn forget(&mut self)
        ensures { AreForgotten self.old.histories.items self.new.histories.items }
    {
        forget_all(self.histories.as_mut_slice());
    }
}

/// Drops all differences of histories.
fn forget_all(histories: &mut [ZoneHistory])
    ensures { AreForgotten histories.old histories.new }
{
    for place in 0..histories.len() {
        let known = &mut histories[place];
        known.history.clear();
    }
}

/// Creates histories without differences of zones, in their order.
fn new_histories(
    alloc: Global,
    zones: &[Zone],
    limits: Limits,
) -> Result<Vec<ZoneHistory>, AllocError>
    ensures { IfOk result (λ made. AreNewOf limits zones.now made.items) }
{
    let mut histories = Vec::new(alloc);
    for zone in zones {
        histories.push(new_history(alloc, zone, limits)?)?;
    }
    Ok(histories)
}

/// Creates a history without differences of a zone.
fn new_history(alloc: Global, zone: &Zone, limits: Limits) -> Result<ZoneHistory, AllocError>
    ensures { IfOk result (IsNewOf limits zone.now) }
{
    let origin = zone.origin().clone()?;
    Ok(ZoneHistory {
        origin,
        history: History::new(alloc, limits),
    })
}
