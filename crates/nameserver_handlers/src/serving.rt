//! Requests that arrive together are served, and answered without a fault.

ghost use Rattle.std.specs.Prelude.{◌≡◌, [], ◌∷◌, IfOk, OnErr, OnOk, List, None, Some, length, map, option_map};
ghost use Rattle.dns_durable.specs.Changes.{reply_bytes, reply_change};
ghost use Rattle.dns_nameserver.specs.Answered.{reply_transport};
ghost use Rattle.dns_nameserver.specs.Former.{has_changed};
ghost use Rattle.dns_sockets.specs.Handler.{message_bytes, request_content};
ghost use Rattle.nameserver_handlers.specs.Handling.{AnswersTogether, AreDelivered, AreIncoming, AreTerms, Follows, FollowsIf, FollowsOne, FollowsUpdate, RecordsAll, RecordsOne, first_bytes, others_of, IsDelivered, IsSettled, IsTerms, LeavesTogether, Responded, Serves, ServesWith, keeping, kept_content, one_if, or_else, position_again, recorded_bytes, recorded_if};
ghost use Rattle.nameserver_handlers.specs.RequestLog.{LogsIf};
ghost use Rattle.nameserver_handlers.specs.Transferring.{TransferByDatagram};

use crate::handler::RequestHandler;
use crate::host::Host;
use crate::text_file::TextFile;
use crate::transfers::Sources;
use dns_durable::{Incoming, Reply, Terms};
use dns_faults::Delivery;
use dns_journal::State;
use dns_messages::Message;
use dns_messages::laws::decoded_messages_are_sound;
use dns_nameserver::{Answered, FormerZones, has_changed, reply_transport, updates_of};
use dns_server::ZoneChange;
use dns_sockets::{Milliseconds, Request};
use dns_transfers::replies::Recorder;
use std::alloc::{AllocError, Global};
use std::io::Write;

/// The reply to a request, once its change is recorded.
#[derive(Drop)]
pub(crate) struct Recorded {
    /// The bytes of the reply, if there is one.
    pub(crate) reply: Option<Vec<u8>>,
    /// Whether the request was an update that changed records.
    pub(crate) has_updated: bool,
}

impl<R: Host, S: TextFile, W: Write> RequestHandler<'_, R, S, W> {
    /// Handles requests that arrived together, without a fault: returns what is sent for them.
    pub(crate) fn handle_together(
        &mut self,
        requests: &[Request<'_>],
    ) -> Result<Vec<Delivery>, AllocError>
        ensures ok { IfOk result (λ deliveries. AnswersTogether S.performs (keeping self.old)
            (map request_content requests.now) deliveries.items (keeping self.new)) }
        ensures err { OnErr result (LeavesTogether S.performs (keeping self.old)
            (map request_content requests.now) (keeping self.new)) }
    {
        match requests {
            [request] => self.handle_single(request),
            _ => self.handle_several(requests),
        }
    }

    /// Handles a request, without a fault: returns what is sent for it, as the only element.
    fn handle_single(&mut self, request: &Request<'_>) -> Result<Vec<Delivery>, AllocError>
        ensures ok { IfOk result (λ deliveries. AnswersTogether S.performs (keeping self.old)
            (request_content request.now ∷ []) deliveries.items (keeping self.new)) }
        ensures err { OnErr result (LeavesTogether S.performs (keeping self.old)
            (request_content request.now ∷ []) (keeping self.new)) }
    {
        let delivery = self.handle_alone(request)?;
        let mut deliveries = Vec::new(self.rt.alloc());
        deliveries.push(delivery)?;
        Ok(deliveries)
    }

    /// Handles a request, without a fault: returns what is sent for it.
    pub(crate) fn handle_alone(&mut self, request: &Request<'_>) -> Result<Delivery, AllocError>
        ensures ok { IfOk result (λ delivery. AnswersTogether S.performs (keeping self.old)
            (request_content request.now ∷ []) (delivery ∷ []) (keeping self.new)) }
        ensures err { OnErr result (LeavesTogether S.performs (keeping self.old)
            (request_content request.now ∷ []) (keeping self.new)) }
    {
        let terms = self.terms(request);
        let recorded = self.serve_one(request, &terms)?;
        self.notify(recorded.has_updated, request.moment);
        self.logged(request, recorded)
    }

    /// Handles requests that arrived together, without a fault: returns what is sent for them.
    fn handle_several(&mut self, requests: &[Request<'_>]) -> Result<Vec<Delivery>, AllocError>
        ensures ok { IfOk result (λ deliveries. AnswersTogether S.performs (keeping self.old)
            (map request_content requests.now) deliveries.items (keeping self.new)) }
        ensures err { OnErr result (LeavesTogether S.performs (keeping self.old)
            (map request_content requests.now) (keeping self.new)) }
    {
        let replies = self.serve(requests)?;
        self.deliver(requests, replies)
    }

    /// Returns the replies to requests that arrived together, and records what these have changed.
    fn serve(&mut self, requests: &[Request<'_>]) -> Result<Vec<Recorded>, AllocError>
        ensures ok { IfOk result (λ recorded. Serves S.performs (keeping self.old)
            (map request_content requests.now) (Some (map recorded_bytes recorded.items))
            (keeping self.new)) }
        ensures err { OnErr result (LeavesTogether S.performs (keeping self.old)
            (map request_content requests.now) (keeping self.new)) }
    {
        let terms = self.terms_of(requests)?;
        let replies = self.respond(requests, terms.as_slice());
        self.settle(replies.is_err());
        replies
    }

    /// Returns the reply to a request with its terms, and records what it has changed.
    pub(crate) fn serve_one(
        &mut self,
        request: &Request<'_>,
        terms: &Terms,
    ) -> Result<Recorded, AllocError>
        requires { IsTerms self.old.settings (request_content request.now) terms.now }
        ensures ok { IfOk result (λ recorded. ServesWith S.performs (keeping self.old)
            (request_content request.now ∷ []) (terms.now ∷ []) (Some (recorded_bytes recorded ∷ []))
            (keeping self.new)) }
        ensures err { OnErr result (LeavesTogether S.performs (keeping self.old)
            (request_content request.now ∷ []) (keeping self.new)) }
    {
        let outcome = self.respond_one(request, terms);
        self.settle(outcome.is_err());
        outcome
    }

    /// Returns the reply to a request with its terms, and records what it has changed.
    fn respond_one(&mut self, request: &Request<'_>, terms: &Terms) -> Result<Recorded, AllocError>
        ensures { Responded S.performs (keeping self.old) (request_content request.now ∷ [])
            (terms.now ∷ []) (one_if result) (keeping self.new) }
    {
        let incoming = Incoming {
            bytes: request.bytes,
            terms,
        };
        let responded = self
            .server
            .respond_all(self.rt.alloc(), &self.settings.policy, &[incoming])?;
        let mut replies = responded.replies;
        match replies.pop() {
            Some(reply) => Ok(self.record(request.bytes, reply)),
            None => unreachable!(),
        }
    }

    /// Tells a failure of the journal, and has it looked after once all replies are sent. Where memory was refused, neither differences nor
    /// the zones from before the last update are known any more, and a server without a journal takes updates again.
    fn settle(&mut self, is_refused: bool)
        ensures { IsSettled S.performs is_refused (keeping self.old) (keeping self.new) }
    {
        if is_refused {
            // Updates may have been made whose changes are not known.
            self.recorder.forget();
            self.former = None;
            self.take_updates_again();
        }
        self.tell_failure();
        self.upkeep.is_tended = false;
    }

    /// Lets a server without a journal take updates again: nothing is on a disk that its zones may lack.
    fn take_updates_again(&mut self)
        ensures { keeping self.new ≡ record (keeping self.old) {
          position = position_again self.old.settings.has_journal
              self.old.server.journal.position;
        } }
    {
        if !self.settings.has_journal {
            self.server.journal.position.state = State::Ready;
        }
    }

    /// Returns the replies to requests with their terms, and records what these have changed.
    fn respond(
        &mut self,
        requests: &[Request<'_>],
        terms: &[Terms],
    ) -> Result<Vec<Recorded>, AllocError>
        requires { length terms.now ≡ length requests.now }
        ensures { Responded S.performs (keeping self.old) (map request_content requests.now)
            terms.now (recorded_if result) (keeping self.new) }
    {
        let incoming = incoming_of(self.rt.alloc(), requests, terms)?;
        let responded = self.server.respond_all(
            self.rt.alloc(),
            &self.settings.policy,
            incoming.as_slice(),
        )?;
        self.record_all(requests, responded.replies)
    }

    /// Records what the requests of replies have changed.
    fn record_all(
        &mut self,
        requests: &[Request<'_>],
        replies: Vec<Reply>,
    ) -> Result<Vec<Recorded>, AllocError>
        ensures bytes { IfOk result (λ recorded.
            map recorded_bytes recorded.items ≡ map reply_bytes replies.items) }
        ensures recorded { OnOk result (RecordsAll (map reply_change replies.items)
            self.old.recorder.histories.items self.new.recorder.histories.items) }
        ensures former { IfOk result (λ recorded. Follows self.old.former
            (map request_content requests.now)
            (map (λ reply. has_changed (reply_change reply)) replies.items) self.new.former) }
        ensures server { self.new.server ≡ self.old.server }
        ensures settings { self.new.settings ≡ self.old.settings }
        ensures faults { self.new.faults ≡ self.old.faults }
    {
        let mut recorded = Vec::new(self.rt.alloc());
        let mut rest = requests;
        for reply in replies {
            recorded.push(self.record(first_bytes(rest), reply))?;
            rest = others_of(rest);
        }
        Ok(recorded)
    }

    /// Records what the request of a reply has changed.
    fn record(&mut self, request: &[u8], reply: Reply) -> Recorded
        ensures bytes { recorded_bytes result ≡ reply_bytes reply }
        ensures updated { result.has_updated ≡ has_changed reply.change }
        ensures recorded { RecordsOne reply.change self.old.recorder.histories.items
            self.new.recorder.histories.items }
        ensures former { FollowsIf (has_changed reply.change) self.old.former request.now
            self.new.former }
        ensures server { self.new.server ≡ self.old.server }
        ensures settings { self.new.settings ≡ self.old.settings }
        ensures faults { self.new.faults ≡ self.old.faults }
    {
        let Reply { bytes, change } = reply;
        let has_updated = has_changed(&change);
        record_change(&mut self.recorder, change);
        if has_updated {
            // Without memory for the update, these zones are not known any more.
            let _followed = follow(self.rt.alloc(), &mut self.former, request);
        }
        Recorded {
            reply: bytes,
            has_updated,
        }
    }

    /// Returns what decides on the replies to requests, beside their bytes.
    fn terms_of(&self, requests: &[Request<'_>]) -> Result<Vec<Terms>, AllocError>
        ensures { IfOk result (λ terms. AreTerms self.now.settings
            (map request_content requests.now) terms.items) }
    {
        let mut terms = Vec::new(self.rt.alloc());
        for request in requests {
            terms.push(self.terms(request))?;
        }
        Ok(terms)
    }

    /// Returns what decides on the reply to a request, beside its bytes.
    pub(crate) fn terms(&self, request: &Request<'_>) -> Terms
        ensures { IsTerms self.now.settings
            (request_content request.now) result }
    {
        let settings = &self.settings;
        Terms {
            transport: reply_transport(request.transport, settings.limit),
            local: updates_of(settings.updaters.contains(request.peer.ip())),
            time: settings.transfers.clock.seconds(self.rt, request.moment),
        }
    }

    /// Notifies secondaries if a request has changed records, logs requests with their replies, and returns what is sent.
    fn deliver(
        &mut self,
        requests: &[Request<'_>],
        replies: Vec<Recorded>,
    ) -> Result<Vec<Delivery>, AllocError>
        ensures delivered { IfOk result (λ deliveries. AreDelivered
            (kept_content (keeping self.old)) self.old.settings.transfers self.old.settings.limit (map request_content requests.now)
            (map recorded_bytes replies.items) deliveries.items) }
        ensures kept { keeping self.new ≡ keeping self.old }
    {
        let has_updated = replies.iter().any(|recorded| recorded.has_updated);
        if let Some(last) = requests.last() {
            self.notify(has_updated, last.moment);
        }
        self.deliver_all(requests, replies)
    }

    /// Notifies secondaries if records have changed.
    pub(crate) fn notify(&mut self, has_updated: bool, now: Milliseconds)
        ensures { keeping self.new ≡ keeping self.old }
    {
        if has_updated {
            // Without memory or random bytes, the next update notifies them.
            let _are_all = self
                .notices
                .follow(self.rt, self.server.server.zones(), now);
        }
    }

    /// Logs requests with their replies, and returns what is sent.
    fn deliver_all(
        &mut self,
        requests: &[Request<'_>],
        replies: Vec<Recorded>,
    ) -> Result<Vec<Delivery>, AllocError>
        ensures delivered { IfOk result (λ deliveries. AreDelivered
            (kept_content (keeping self.old)) self.old.settings.transfers self.old.settings.limit (map request_content requests.now)
            (map recorded_bytes replies.items) deliveries.items) }
        ensures kept { keeping self.new ≡ keeping self.old }
    {
        let mut deliveries = Vec::new(self.rt.alloc());
        let mut rest = requests;
        for recorded in replies {
            let [request, others @ ..] = rest else {
                return Ok(deliveries);
            };
            deliveries.push(self.logged(request, recorded)?)?;
            rest = others;
        }
        Ok(deliveries)
    }

    /// Logs a request with its reply, and returns what is sent.
    pub(crate) fn logged(
        &mut self,
        request: &Request<'_>,
        recorded: Recorded,
    ) -> Result<Delivery, AllocError>
        ensures delivered { IfOk result (λ delivery. IsDelivered (kept_content (keeping self.old))
            self.old.settings.transfers self.old.settings.limit (request_content request.now)
            (recorded_bytes recorded) delivery) }
        ensures log { IfOk result (λ delivery. LogsIf W.contents self.old.log
            (request_content request.now) (record {
              delivery = delivery;
              line = None;
              has_updated = recorded.has_updated;
            }) self.new.log) }
        ensures kept { keeping self.new ≡ keeping self.old }
    {
        let Recorded { reply, has_updated } = recorded;
        let reply = first_of(self.transferred(request)?, reply);
        let answered = Answered {
            delivery: Delivery::plain(reply),
            line: None,
            has_updated,
        };
        self.append_log(request, &answered);
        Ok(answered.delivery)
    }

    /// Appends what a request led to to the log.
    pub(crate) fn append_log(&mut self, request: &Request<'_>, answered: &Answered)
        ensures log { LogsIf W.contents self.old.log (request_content request.now) answered.now
            self.new.log }
        ensures kept { keeping self.new ≡ keeping self.old }
    {
        if let Some(log) = &mut self.log {
            // Without memory for the line there is none.
            let _logged = log.append_request(self.rt, request, answered);
        }
    }

    /// Returns the reply to a request for an incremental transfer in a datagram.
    pub(crate) fn transferred(&self, request: &Request<'_>) -> Result<Option<Vec<u8>>, AllocError>
        ensures { IfOk result (λ found. TransferByDatagram (kept_content (keeping self.now))
            self.now.settings.transfers
            (reply_transport request.now.transport self.now.settings.limit)
            (request_content request.now) (option_map message_bytes found)) }
    {
        let sources = Sources {
            zones: self.server.server.zones(),
            histories: self.recorder.histories(),
            keys: self.settings.policy.keys.as_slice(),
        };
        let transport = reply_transport(request.transport, self.settings.limit);
        self.settings
            .transfers
            .by_datagram(self.rt, sources, request, transport)
    }
}

/// Returns the bytes of the first request.
fn first_bytes<'b>(requests: &[Request<'b>]) -> &'b [u8]
    ensures { result.now ≡ first_bytes (map request_content requests.now) }
{
    match requests {
        [request, ..] => request.bytes,
        [] => &[],
    }
}

/// Returns the requests behind the first one.
fn others_of<'g, 'b>(requests: &'g [Request<'b>]) -> &'g [Request<'b>]
    ensures { map request_content result.now ≡ others_of (map request_content requests.now) }
{
    match requests {
        [_request, others @ ..] => others,
        [] => &[],
    }
}

/// Records what a request has changed, if it has changed a zone.
fn record_change(recorder: &mut Recorder, change: Option<ZoneChange>)
    ensures { RecordsOne change recorder.old.histories.items recorder.new.histories.items }
{
    let Some(change) = change else {
        return;
    };
    // Without memory for the difference, the history of the zone begins again.
    let _recorded = recorder.record(change);
}

/// Lets the zones from before the last update follow one that has changed records. Without memory they are given up.
fn follow(alloc: Global, former: &mut Option<FormerZones>, update: &[u8]) -> Result<(), AllocError>
    ensures ok { OnOk result (FollowsUpdate former.old update.now former.new) }
    ensures err { OnErr result (former.new ≡ None) }
    ensures either { FollowsOne former.old update.now former.new }
{
    decoded_messages_are_sound();
    let followed = match former {
        None => return Ok(()),
        Some(former) => match Message::from_vec(alloc, update) {
            Ok(update) => former.follow(alloc, &update),
            // Memory for the update was refused: it was decoded before.
            Err(_) => Err(AllocError),
        },
    };
    if followed.is_err() {
        *former = None;
    }
    followed
}

/// Returns the reply to a request for an incremental transfer in a datagram, or else another one.
fn first_of(transferred: Option<Vec<u8>>, reply: Option<Vec<u8>>) -> Option<Vec<u8>>
    ensures { option_map message_bytes result
        ≡ or_else (option_map message_bytes transferred) (option_map message_bytes reply) }
{
    match transferred {
        Some(transferred) => Some(transferred),
        None => reply,
    }
}

/// Returns requests with what else decides on their replies.
fn incoming_of<'g>(
    alloc: Global,
    requests: &'g [Request<'_>],
    terms: &'g [Terms],
) -> Result<Vec<Incoming<'g>>, AllocError>
    requires { length terms.now ≡ length requests.now }
    ensures { IfOk result (λ incoming. AreIncoming (map request_content requests.now) terms.now
        incoming.items) }
{
    let mut incoming = Vec::new(alloc);
    for (index, request) in requests.iter().enumerate() {
        incoming.push(Incoming {
            bytes: request.bytes,
            terms: &terms[index],
        })?;
    }
    Ok(incoming)
}
