//! The text that is about to take the place of a journal is written in steps, between which updates are served.

ghost use Rattle.std.specs.Prelude.{◌≡◌, ◌≢◌, length, true, None, string_bytes, IfErr, IfOk, IfSome, IsOk};
ghost use Rattle.sha2.specs.Sha256.{sha256};
ghost use Rattle.dns_zone.specs.Rows.{ZoneContent};
ghost use Rattle.dns_durable.specs.Compaction.{IsSuccessor};
ghost use Rattle.dns_durable.specs.Draft.{Begins, IsBehind, IsWhole};
ghost use Rattle.dns_durable.specs.declared.draft.Progress.TheVariants.{Idle, Writing};

use crate::compaction::Rewritten;
use crate::draft::{Draft, Progress};
use crate::durable_server::DurableServer;
use crate::error::CompactError;
use dns_journal::Storage;
use dns_server::Server;
use dns_zone::Zone;
use std::alloc::Global;
use std::mem;

impl<S: Storage> DurableServer<S> {
    /// Begins to write the text of the zone for its file, for which a number of bytes are reserved, in the place of a text that was
    /// begun before. From then on, [`respond_all`](DurableServer::respond_all) lets the text keep the sets that updates are about to
    /// change, and carry these updates.
    ///
    /// # Errors
    ///
    /// [`CompactError::Zones`] if there is not exactly one zone.
    pub fn begin_draft(&mut self, alloc: Global, capacity: usize) -> Result<(), CompactError>
        ensures begun { IsOk result → Begins self.old.server self.new.draft }
        ensures refused { IfErr result (λ error.
            (error ≡ CompactError.Zones) × (length self.old.server ≢ 1)) }
        ensures server { self.new.server ≡ self.old.server }
        ensures journal { self.new.journal ≡ self.old.journal }
    {
        self.draft = begun(alloc, &self.server, capacity)?;
        Ok(())
    }

    /// Writes the next sets of a text that was begun, until a number of records is written or looked at. The text is given up if memory is
    /// refused, or if a zone file can't state data of a set.
    pub fn write_draft(&mut self, count: usize)
        ensures behind { (base : ZoneContent) → IsBehind base self.old.server self.old.draft
            → IsBehind base self.new.server self.new.draft }
        ensures server { self.new.server ≡ self.old.server }
        ensures journal { self.new.journal ≡ self.old.journal }
    {
        write_on(&mut self.draft, &self.server, count);
    }

    /// Returns the text that was begun, once it is whole, and the entry of the updates that it lacks: for
    /// [`replace`](DurableServer::replace), before another update is served.
    pub fn take_text(&mut self) -> Option<Rewritten>
        ensures successor { IfSome result (λ rewritten. (base : ZoneContent)
            → IsBehind base self.old.server self.old.draft
            → IsSuccessor self.old.server (string_bytes rewritten.text) rewritten.carried.items
            rewritten.zone) }
        ensures digest { IfSome result (λ rewritten.
            rewritten.digest ≡ sha256 (string_bytes rewritten.text)) }
        ensures whole { IfSome result (λ rewritten.
            IsWhole self.old.draft × (self.new.draft ≡ Idle)) }
        ensures unfinished { result ≡ None → self.new.draft ≡ self.old.draft }
        ensures server { self.new.server ≡ self.old.server }
        ensures journal { self.new.journal ≡ self.old.journal }
    {
        match take_whole(&mut self.draft) {
            Some(draft) => Some(draft.into_rewritten()),
            None => None,
        }
    }
}

/// Begins the text of the only zone of a server.
fn begun(alloc: Global, server: &Server, capacity: usize) -> Result<Progress, CompactError>
    ensures begun { IfOk result (Begins server.now) }
    ensures refused { IfErr result (λ error.
        (error ≡ CompactError.Zones) × (length server.now ≢ 1)) }
{
    let [zone] = server.zones() else {
        return Err(CompactError::Zones);
    };
    match Draft::begin(alloc, zone, capacity) {
        Ok(draft) => Ok(Progress::Writing(draft)),
        Err(fault) => Ok(Progress::GivenUp(fault)),
    }
}

/// Writes the next sets of a text, if one is being written.
fn write_on(progress: &mut Progress, server: &Server, count: usize)
    ensures { (base : ZoneContent) → IsBehind base server.now progress.old
        → IsBehind base server.now progress.new }
{
    if let Progress::Writing(draft) = progress {
        match server.zones() {
            [zone] => {
                if let Err(fault) = draft.write_on(zone, count) {
                    *progress = Progress::GivenUp(fault);
                }
            }
            // The text is that of the only zone.
            _ => *progress = Progress::Idle,
        }
    }
}

/// Takes a text that is whole.
fn take_whole(progress: &mut Progress) -> Option<Draft>
    ensures whole { IfSome result (λ draft. (progress.old ≡ Writing draft)
        × ((draft.is_whole ≡ true) × (progress.new ≡ Idle))) }
    ensures unfinished { result ≡ None → progress.new ≡ progress.old }
{
    match mem::replace(progress, Progress::Idle) {
        Progress::Writing(draft) => {
            if draft.is_whole() {
                return Some(draft);
            }
            *progress = Progress::Writing(draft);
            None
        }
        other => {
            *progress = other;
            None
        }
    }
}
