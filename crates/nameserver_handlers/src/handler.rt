//! What the program does with requests.

ghost use Rattle.std.specs.Prelude.{◌≡◌, IfOk, OnErr, map};
ghost use Rattle.dns_sockets.specs.Handler.{Handled, deliveries_if, request_content};
ghost use Rattle.nameserver_handlers.specs.ByRules.{AnswersEach, LeavesEach, Steps};
ghost use Rattle.nameserver_handlers.specs.Handling.{keeping};

use crate::host::Host;
use crate::notices::Notices;
use crate::request_log::RequestLog;
use crate::settings::Settings;
use crate::text_file::TextFile;
use crate::transfers::Sources;
use crate::upkeep::Upkeep;
use dns_durable::{DurableServer, is_update};
use dns_faults::Delivery;
use dns_faults::rules::FaultTable;
use dns_nameserver::FormerZones;
use dns_sockets::{Handler, Milliseconds, Notice, Request};
use dns_transfers::replies::Recorder;
use std::alloc::AllocError;
use std::io::Write;

/// Answers requests by a server whose updates may outlast a crash, with faults on demand, and logs them.
#[derive(Drop)]
pub struct RequestHandler<'a, R, S: TextFile, W> {
    /// The system.
    pub rt: &'a R,
    /// The zones, and the journal of their updates.
    pub server: DurableServer<S>,
    /// The zones from before the last update that changed records, if a rule may ask for them.
    pub former: Option<FormerZones>,
    /// The faults.
    pub faults: FaultTable,
    /// How requests are answered, and what their requestors may do.
    pub settings: Settings,
    /// What keeps the last differences of each zone.
    pub recorder: Recorder,
    /// The notifications of secondaries.
    pub notices: Notices,
    /// The log, if there is one.
    pub log: Option<RequestLog<W>>,
    /// When the journal is looked after.
    pub upkeep: Upkeep,
}

impl<R: Host, S: TextFile, W: Write> Handler for RequestHandler<'_, R, S, W> {
    ghost use Rattle.std.specs.Prelude.{◌&&◌, ◌==◌, length};
    ghost use Rattle.dns_durable.specs.Incoming.{is_update_header};
    ghost use Rattle.dns_messages.specs.Header.{peeked_metadata};
    ghost use Rattle.nameserver_handlers.specs.ByRules.{Steps};
    ghost use Rattle.nameserver_handlers.specs.Handling.{keeping};

    ghost gathers_after = { λ handler bytes.
        (length handler.faults == 0) && is_update_header (peeked_metadata bytes) };

    ghost steps = { λ old event new. Steps S.performs (keeping old) event (keeping new) };

    /// Updates that wait one after another are written to the disk together, unless faults are made, which may close a connection.
    fn gathers(&self, bytes: &[u8]) -> bool {
        self.faults.is_empty() && is_update(bytes)
    }

    fn handle(&mut self, requests: &[Request<'_>]) -> Result<Vec<Delivery>, AllocError> {
        self.handle_all(requests)
    }

    fn transfer(
        &mut self,
        request: &Request<'_>,
        is_busy: bool,
    ) -> Result<Option<Vec<Vec<u8>>>, AllocError> {
        if self.is_stopped(request)? {
            return Ok(None);
        }
        let sources = Sources {
            zones: self.server.server.zones(),
            histories: self.recorder.histories(),
            keys: self.settings.policy.keys.as_slice(),
        };
        self.settings
            .transfers
            .over_stream(self.rt, sources, request, is_busy, &mut self.log)
    }

    fn take_response(&mut self, response: &Request<'_>) -> bool {
        // Without memory, it counts as none that was expected.
        matches!(self.notices.take_response(response), Ok(true))
    }

    /// While a compaction is under way, there is always more to do.
    fn next_moment(&self) -> Option<Milliseconds> {
        if self.is_compacting() {
            return Some(0);
        }
        self.notices.next_moment()
    }

    /// Once all replies and notifications are sent, the journal is looked after, and a compaction goes on by a step.
    fn next_notice(&mut self, now: Milliseconds) -> Option<Notice> {
        // Without memory, a notification is lost.
        let notice = self
            .notices
            .next_notice(self.rt.alloc(), now)
            .unwrap_or(None);
        if notice.is_none() && (!self.upkeep.is_tended || self.is_compacting()) {
            self.upkeep.is_tended = true;
            self.tend_journal();
        }
        notice
    }
}

impl<R: Host, S: TextFile, W: Write> RequestHandler<'_, R, S, W> {
    /// Handles requests that arrived together: returns what is sent for them.
    fn handle_all(&mut self, requests: &[Request<'_>]) -> Result<Vec<Delivery>, AllocError>
        ensures { Steps S.performs (keeping self.old)
            (Handled (map request_content requests.now) (deliveries_if result)) (keeping self.new) }
    {
        if self.faults.is_empty() {
            return self.handle_together(requests);
        }
        self.handle_each(requests)
    }

    /// Handles requests one after another, each by the rule that decides for it.
    fn handle_each(&mut self, requests: &[Request<'_>]) -> Result<Vec<Delivery>, AllocError>
        ensures ok { IfOk result (λ deliveries. AnswersEach S.performs (keeping self.old)
            (map request_content requests.now) deliveries.items (keeping self.new)) }
        ensures err { OnErr result (LeavesEach S.performs (keeping self.old)
            (map request_content requests.now) (keeping self.new)) }
    {
        let mut deliveries = Vec::new(self.rt.alloc());
        for request in requests {
            deliveries.push(self.handle_one(request)?)?;
        }
        Ok(deliveries)
    }
}
