//! Requests are answered by the rules of the fault table.

ghost use Rattle.std.specs.Prelude.{◌≡◌, [], ◌∷◌, IfOk, None, OnErr, Some, option_map};
ghost use Rattle.dns_faults.specs.Decided.{Decides, IsDecided};
ghost use Rattle.dns_messages.specs.Sound.{IsSound};
ghost use Rattle.dns_sockets.specs.Handler.{message_bytes, request_content};
ghost use Rattle.nameserver_handlers.specs.ByRules.{AnswersAs, AnswersBy, AnswersByRule, AnswersOne, ByCode, ByFormer, ByService, HasOneQuestion, IsChecked, IsCut, IsCutIf, IsEditedBy, IsSignedFor, IsStopped, TransferredUnless, asks_former, stops};
ghost use Rattle.nameserver_handlers.specs.Handling.{IsTerms, LeavesTogether, keeping, recorded_bytes};

use crate::handler::RequestHandler;
use crate::host::Host;
use crate::serving::Recorded;
use crate::text_file::TextFile;
use dns_durable::{Policy, Terms, sign, sign_within};
use dns_faults::rules::Service;
use dns_faults::{Decided, Delivery, coded_reply, decision_for, edited_reply, truncated_reply};
use dns_messages::laws::decoded_messages_are_sound;
use dns_messages::{Message, OpCode};
use dns_nameserver::Answered;
use dns_sockets::Request;
use dns_tsig::{Checked, Verdict, verify_request};
use std::alloc::AllocError;
use std::io::Write;

impl<R: Host, S: TextFile, W: Write> RequestHandler<'_, R, S, W> {
    /// Handles a request by the rule that decides for it, if there is one: returns what is sent. A request for an incremental transfer in a
    /// datagram is handled without a fault, unless a rule drops it or answers it with a code.
    pub(crate) fn handle_one(&mut self, request: &Request<'_>) -> Result<Delivery, AllocError>
        ensures ok { IfOk result (λ delivery. AnswersOne S.performs (keeping self.old)
            (request_content request.now) delivery (keeping self.new)) }
        ensures err { OnErr result (LeavesTogether S.performs (keeping self.old)
            (request_content request.now ∷ []) (keeping self.new)) }
    {
        let alloc = self.rt.alloc();
        let decided = decision_for(alloc, &self.faults, request.bytes, request.transport)?;
        self.handle_as(request, &decided)
    }

    /// Handles a request by what the fault table decides for it.
    fn handle_as(
        &mut self,
        request: &Request<'_>,
        decided: &Option<Decided>,
    ) -> Result<Delivery, AllocError>
        requires { Decides self.old.faults request.now.bytes.now request.now.transport decided.now }
        ensures ok { IfOk result (λ delivery. AnswersAs S.performs decided.now (keeping self.old)
            (request_content request.now) delivery (keeping self.new)) }
        ensures err { OnErr result (LeavesTogether S.performs (keeping self.old)
            (request_content request.now ∷ []) (keeping self.new)) }
    {
        if let Some(reply) = self.transferred_unless(stops(decided), request)? {
            let answered = Answered {
                delivery: Delivery::plain(Some(reply)),
                line: None,
                has_updated: false,
            };
            self.append_log(request, &answered);
            return Ok(answered.delivery);
        }
        self.handle_decided(request, decided)
    }

    /// Handles a request that is for no transfer, or for one that a rule stops.
    fn handle_decided(
        &mut self,
        request: &Request<'_>,
        decided: &Option<Decided>,
    ) -> Result<Delivery, AllocError>
        requires { Decides self.old.faults request.now.bytes.now request.now.transport decided.now }
        ensures ok { IfOk result (λ delivery. AnswersBy S.performs decided.now (keeping self.old)
            (request_content request.now) delivery (keeping self.new)) }
        ensures err { OnErr result (LeavesTogether S.performs (keeping self.old)
            (request_content request.now ∷ []) (keeping self.new)) }
    {
        match decided {
            Some(decided) => self.handle_by_rule(request, decided),
            None => self.handle_alone(request),
        }
    }

    /// Returns `true` if a rule stops the transfer that a request asks for.
    pub(crate) fn is_stopped(&self, request: &Request<'_>) -> Result<bool, AllocError>
        ensures { IfOk result (IsStopped self.now.faults (request_content request.now)) }
    {
        if self.faults.is_empty() {
            return Ok(false);
        }
        let alloc = self.rt.alloc();
        let decided = decision_for(alloc, &self.faults, request.bytes, request.transport)?;
        Ok(stops(&decided))
    }

    /// Returns the reply to a request for an incremental transfer in a datagram, unless a rule stops it.
    fn transferred_unless(
        &self,
        is_stopped: bool,
        request: &Request<'_>,
    ) -> Result<Option<Vec<u8>>, AllocError>
        ensures { IfOk result (λ found. TransferredUnless is_stopped (keeping self.now)
            (request_content request.now) (option_map message_bytes found)) }
    {
        if is_stopped {
            return Ok(None);
        }
        self.transferred(request)
    }

    /// Handles a request by the rule that decides for it.
    fn handle_by_rule(
        &mut self,
        request: &Request<'_>,
        decided: &Decided,
    ) -> Result<Delivery, AllocError>
        requires { IsDecided self.old.faults request.now.bytes.now request.now.transport
            decided.now }
        ensures ok { IfOk result (λ delivery. AnswersByRule S.performs (keeping self.old)
            (request_content request.now) decided.now delivery (keeping self.new)) }
        ensures err { OnErr result (LeavesTogether S.performs (keeping self.old)
            (request_content request.now ∷ []) (keeping self.new)) }
    {
        let terms = self.terms(request);
        let Recorded { reply, has_updated } = self.serve_by(request, &terms, decided)?;
        self.notify(has_updated, request.moment);
        let fault = &decided.decision.fault;
        let reply = self.edited(request, terms.time, decided, reply)?;
        decided.count(&mut self.faults, request.transport);
        let answered = Answered {
            delivery: Delivery::by_fault(fault, reply),
            line: Some(decided.decision.line),
            has_updated,
        };
        self.append_log(request, &answered);
        Ok(answered.delivery)
    }

    /// Returns the reply to a request before it is edited, by the service of the rule that decides.
    fn serve_by(
        &mut self,
        request: &Request<'_>,
        terms: &Terms,
        decided: &Decided,
    ) -> Result<Recorded, AllocError>
        requires decided { IsDecided self.old.faults request.now.bytes.now request.now.transport
            decided.now }
        requires terms { IsTerms self.old.settings (request_content request.now) terms.now }
        ensures ok { IfOk result (λ recorded. ByService S.performs
            decided.now.decision.fault.service (keeping self.old) (request_content request.now)
            terms.now decided.now.request (recorded_bytes recorded) (keeping self.new)) }
        ensures err { OnErr result (LeavesTogether S.performs (keeping self.old)
            (request_content request.now ∷ []) (keeping self.new)) }
    {
        decoded_messages_are_sound();
        let message = &decided.request;
        match decided.decision.fault.service {
            Service::Plain => self.serve_one(request, terms),
            Service::Stale => self.serve_by_former(request, terms, message),
            Service::Code(number) => {
                Ok(unchanging(self.coded(request, terms.time, message, number)?))
            }
            Service::Drop => Ok(unchanging(None)),
        }
    }

    /// Returns the reply with a response code alone.
    fn coded(
        &self,
        request: &Request<'_>,
        time: u64,
        message: &Message,
        number: u16,
    ) -> Result<Option<Vec<u8>>, AllocError>
        requires { HasOneQuestion message.now }
        ensures { IfOk result (λ reply. ByCode (keeping self.now) (request_content request.now) time
            message.now number (option_map message_bytes reply) (keeping self.now)) }
    {
        let [query] = message.queries.as_slice() else {
            unreachable!();
        };
        let plain = coded_reply(self.rt.alloc(), message, query, number)?;
        Ok(Some(self.signed(request, time, plain)?))
    }

    /// Returns the reply by the zones from before the last update. An update, a request that is not authentic, and any one if these zones
    /// are not known is served by the current ones.
    fn serve_by_former(
        &mut self,
        request: &Request<'_>,
        terms: &Terms,
        message: &Message,
    ) -> Result<Recorded, AllocError>
        requires sound { IsSound message.now }
        requires terms { IsTerms self.old.settings (request_content request.now) terms.now }
        ensures ok { IfOk result (λ recorded. ByFormer S.performs (keeping self.old)
            (request_content request.now) terms.now message.now (recorded_bytes recorded)
            (keeping self.new)) }
        ensures err { OnErr result (LeavesTogether S.performs (keeping self.old)
            (request_content request.now ∷ []) (keeping self.new)) }
    {
        let alloc = self.rt.alloc();
        let checked = self.checked(request, terms.time)?;
        if !asks_former(message.metadata.op_code, checked.verdict) {
            return self.serve_one(request, terms);
        }
        let Some(former) = &mut self.former else {
            return self.serve_one(request, terms);
        };
        let Policy {
            keys,
            answering,
            ..
        } = &self.settings.policy;
        let plain = former.serve(alloc, *answering, message, terms.transport())?;
        let reply = sign_within(alloc, keys.as_slice(), &checked, message, terms, plain)?;
        Ok(unchanging(Some(reply)))
    }

    /// Returns a reply as the fault of the rule that decides edits it.
    fn edited(
        &self,
        request: &Request<'_>,
        time: u64,
        decided: &Decided,
        reply: Option<Vec<u8>>,
    ) -> Result<Option<Vec<u8>>, AllocError>
        ensures { IfOk result (λ edited. IsEditedBy decided.now.decision.fault
            self.now.settings.policy.keys.items request.now.bytes.now time
            decided.now.request.metadata.id (option_map message_bytes reply)
            (option_map message_bytes edited)) }
    {
        let Some(reply) = reply else {
            return Ok(None);
        };
        let fault = &decided.decision.fault;
        let id = decided.request.metadata.id;
        let reply = self.cut_if(fault.truncate, request, time, reply)?;
        Ok(Some(edited_reply(self.rt.alloc(), fault, id, reply)?))
    }

    /// Returns a reply, without its records if that is wanted.
    fn cut_if(
        &self,
        is_wanted: bool,
        request: &Request<'_>,
        time: u64,
        reply: Vec<u8>,
    ) -> Result<Vec<u8>, AllocError>
        ensures { IfOk result (λ bytes. IsCutIf is_wanted self.now.settings.policy.keys.items
            request.now.bytes.now time (Some reply.items) (Some bytes.items)) }
    {
        if is_wanted {
            return self.cut(request, time, reply);
        }
        Ok(reply)
    }

    /// Returns a reply without its records, signed again.
    fn cut(&self, request: &Request<'_>, time: u64, reply: Vec<u8>) -> Result<Vec<u8>, AllocError>
        ensures { IfOk result (λ bytes. IsCut self.now.settings.policy.keys.items
            request.now.bytes.now time reply.items bytes.items) }
    {
        let middle = truncated_reply(self.rt.alloc(), reply)?;
        self.signed(request, time, middle)
    }

    /// Returns a reply to a request, signed as the request is.
    fn signed(
        &self,
        request: &Request<'_>,
        time: u64,
        reply: Vec<u8>,
    ) -> Result<Vec<u8>, AllocError>
        ensures { IfOk result (λ signed. IsSignedFor self.now.settings.policy.keys.items
            request.now.bytes.now time reply.items signed.items) }
    {
        let checked = self.checked(request, time)?;
        let keys = self.settings.policy.keys.as_slice();
        sign(self.rt.alloc(), keys, &checked, time, reply)
    }

    /// Returns by whom a request was signed, at a time.
    fn checked<'m>(&self, request: &Request<'m>, time: u64) -> Result<Checked<'m>, AllocError>
        ensures { IfOk result (IsChecked self.now.settings.policy.keys.items request.now.bytes.now
            time) }
    {
        let keys = self.settings.policy.keys.as_slice();
        verify_request(self.rt.alloc(), keys, request.bytes, time)
    }
}

/// Returns the reply to a request that changes nothing.
fn unchanging(reply: Option<Vec<u8>>) -> Recorded
    ensures { recorded_bytes result ≡ option_map message_bytes reply }
{
    Recorded {
        reply,
        has_updated: false,
    }
}

/// Returns `true` if a rule stops a transfer: it drops the request, or answers it with a response code alone.
fn stops(decided: &Option<Decided>) -> bool
    ensures { result ≡ stops decided.now }
{
    match decided {
        Some(decided) => {
            matches!(
                decided.decision.fault.service,
                Service::Drop | Service::Code(_)
            )
        }
        None => false,
    }
}

/// Returns `true` if a request with an opcode is served by the zones from before the last update, by whom it was signed.
fn asks_former(op_code: OpCode, verdict: Verdict) -> bool
    ensures { result ≡ asks_former op_code verdict }
{
    match op_code {
        OpCode::Update => false,
        _ => matches!(verdict, Verdict::Unsigned | Verdict::Verified(_)),
    }
}
