//! The journal is looked after between requests.

ghost use Rattle.std.specs.Prelude.{◌≡◌, not, false, true};
ghost use Rattle.nameserver_handlers.specs.ByRules.{IsTended};
ghost use Rattle.nameserver_handlers.specs.Compaction.{is_idle, is_lasting};
ghost use Rattle.nameserver_handlers.specs.Handling.{IsSettled, keeping};

use crate::compaction::{Stage, begin_compaction, continue_compaction};
use crate::handler::RequestHandler;
use crate::host::Host;
use crate::replacement::Unreplaced;
use crate::text_file::TextFile;
use dns_durable::{CompactError, Progress};
use dns_journal::State;
use std::io::Write;

/// When the journal is begun anew, and what was told of it.
#[derive(Clone, Copy, Debug, PartialEq, Eq)]
pub struct Upkeep {
    /// The length of the journal from which on it is begun anew.
    pub journal_limit: usize,
    /// The length of the journal from which on that is tried again, after a failure.
    pub retry_limit: usize,
    /// Whether the journal was looked after since the last request.
    pub is_tended: bool,
    /// Whether a failure of the journal was told.
    pub has_failed: bool,
}

impl Upkeep {
    /// Creates the state of a journal that is begun anew from this length on, in bytes.
    pub fn new(journal_limit: usize) -> Upkeep
        ensures { result ≡ record {
          journal_limit = journal_limit;
          retry_limit = 0;
          is_tended = true;
          has_failed = false;
        } }
    {
        Upkeep {
            journal_limit,
            retry_limit: 0,
            is_tended: true,
            has_failed: false,
        }
    }
}

impl<R: Host, S: TextFile, W: Write> RequestHandler<'_, R, S, W> {
    /// Lets the zone file take the place of a journal that is long, and tells the first failure on standard error.
    pub(crate) fn tend_journal(&mut self)
        ensures { IsTended S.performs (keeping self.old) (keeping self.new) }
    {
        if self.settings.has_journal {
            match self.compact() {
                Ok(Stage::Done) => self.upkeep.retry_limit = 0,
                Ok(Stage::Begun) => {}
                Err(reason) => self.note_refusal(&reason),
            }
        }
        self.tell_failure();
    }

    /// Returns `true` while a compaction is under way.
    pub(crate) fn is_compacting(&self) -> bool
        ensures { result ≡ not (is_idle self.now.server.draft) }
    {
        !matches!(self.server.draft, Progress::Idle)
    }

    /// Goes on with a compaction that was begun, or begins one if the journal is long.
    fn compact(&mut self) -> Result<Stage, Unreplaced>
        requires { self.old.settings.has_journal ≡ true }
        ensures { IsTended S.performs (keeping self.old) (keeping self.new) }
    {
        if self.is_compacting() {
            return continue_compaction(self.rt, &mut self.server);
        }
        let limit = self.upkeep.journal_limit.max(self.upkeep.retry_limit);
        if self.server.journal.storage.has_files() && self.server.is_due(limit) {
            return begin_compaction(self.rt, &mut self.server);
        }
        Ok(Stage::Begun)
    }

    /// Says on standard error why the journal goes on. It goes on for ever if the zone file was edited since it was read, or the zone
    /// has no text that is read as it is, and until it has grown by as much again if the new text could not be written.
    fn note_refusal(&mut self, reason: &Unreplaced)
        ensures { IsTended S.performs (keeping self.old) (keeping self.new) }
    {
        // A failure to write to standard error can't be reported.
        match reason {
            Unreplaced::Edited(reason) => {
                self.upkeep.journal_limit = usize::MAX;
                let _written = eprintln!(self.rt; "nameserver: the journal goes on: {reason}");
            }
            Unreplaced::Refused(error) if is_lasting(error) => {
                self.upkeep.journal_limit = usize::MAX;
                let _written = eprintln!(self.rt; "nameserver: the journal goes on: {error}");
            }
            Unreplaced::Unwritten(error) => {
                let end = self.server.journal.position.end;
                self.upkeep.retry_limit = end.saturating_add(self.upkeep.journal_limit);
                let _written = eprintln!(self.rt;
                    "nameserver: the journal goes on: the zone file can't be replaced: {error}"
                );
            }
            // The state of the journal says so, or the next update tries again.
            Unreplaced::Refused(_) => {}
        }
    }

    /// Tells the first failure of the journal on standard error.
    pub(crate) fn tell_failure(&mut self)
        ensures { IsSettled S.performs false (keeping self.old) (keeping self.new) }
    {
        let journal = &mut self.server.journal;
        if journal.position.state == State::Ready || self.upkeep.has_failed {
            return;
        }
        self.upkeep.has_failed = true;
        // A failure to write to standard error can't be reported.
        let _written = match journal.storage.take_error() {
            Some(error) => eprintln!(self.rt;
                "nameserver: journal: {error}; updates are refused until a restart"
            ),
            None => eprintln!(self.rt;
                "nameserver: journal: out of memory; updates are refused until a restart"
            ),
        };
    }
}

/// Returns `true` for a refusal that comes again.
fn is_lasting(error: &CompactError) -> bool
    ensures { result ≡ is_lasting error.now }
{
    match error {
        CompactError::Zones | CompactError::Text => true,
        CompactError::Journal(_) | CompactError::Memory => false,
    }
}
