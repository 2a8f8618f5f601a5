//! A handle that asks questions, and sends updates, over a link.

ghost use Rattle.std.specs.Prelude.{◌≡◌, ◌+◌, ◌-◌, ◌≤◌, ◌∷◌, ◌++◌, ◌⊎◌, [], length, IsOk, OnOk, OnErr, Err, None, vec_len, vec_capacity};
ghost use Rattle.std.specs.Option.{option_copied};
ghost use Rattle.dns_messages.specs.declared.message.Message.{Message};
ghost use Rattle.dns_messages.specs.declared.query.Query.{Query};
ghost use Rattle.stub_lookup.specs.declared.error.NetError.TheVariants.{Memory};
ghost use Rattle.stub_link.specs.Ask.{IsAsked, IsSent, IsSupported, IsUnsupported, faults_after, questions_after};
ghost use Rattle.stub_link.specs.Link.{Encodes, calls_of, wire};
ghost use Rattle.stub_link.specs.Request.{IsQuestion, IsUpdate};
ghost use Rattle.stub_link.specs.Update.{IsUpdateSent, code_of};
ghost use Rattle.stub_link.specs.WireHandle.{FailsByLink, SendsUpdate, asker_of, is_truncated, with_link};

mod reply;
mod request;
mod stream;

use crate::link::{Link, LinkError};
use crate::update_event::UpdateEvent;
use dns_messages::{DnsResponse, Message, Query, ResponseCode};
use reply::wait;
pub use reply::{is_reply_code, reply_in};
pub use request::{question_of, request_bytes};
use std::alloc::{AllocError, Global};
use stream::ask_again;
use stub_client::{DnsHandle, DnsRequest};
use stub_lookup::{LinkFault, Moment, NetError};

/// Asks questions over a link, each under the next id of a list, and sends updates under their own ids.
#[derive(Drop)]
pub struct WireHandle<L> {
    alloc: Global,
    link: L,
    ids: Vec<u16>,
    sent: Vec<(u16, Query)>,
    dropped: u64,
    faults: u64,
    questions: u64,
}

/// What a handle counts.
#[derive(Clone, Copy, Debug, PartialEq, Eq)]
pub struct AskCounts {
    /// The number of questions and updates that ended in a fault, `F1` to `F9`.
    pub faults: u64,
    /// The number of datagrams with a question that were sent.
    pub questions: u64,
}

impl<L: Link> WireHandle<L> {
    ghost use Rattle.std.specs.Borrow.{sem, Lends};
    ghost use Rattle.stub_link.specs.contracts.wire_handle.WireHandle.{the_row as handle_row};

    /// Creates a handle over a link. It draws the ids in order, one for each question; when none is left, a question fails with
    /// [`LinkFault::NoId`]. Over a network they must be unpredictable (RFC 5452 section 9.2).
    pub fn new(alloc: Global, link: L, ids: Vec<u16>) -> Self
        ensures { asker_of result ≡ record {
          link = link;
          ids = ids.items;
          sent = [];
          dropped = 0;
          faults = 0;
          questions = 0;
        } }
    {
        WireHandle {
            alloc,
            link,
            ids,
            sent: Vec::new(alloc),
            dropped: 0,
            faults: 0,
            questions: 0,
        }
    }

    /// Returns the link.
    pub fn link(&self) -> &L
        ensures { result.now ≡ self.now.link }
    {
        &self.link
    }

    /// Returns a mutable reference to the link.
    pub fn link_mut(&mut self) -> &mut L
        ensures* lends { sem 𝓛 (Lends (handle_row L.row) L.row self.entry result
            (with_link self.old)) }
        ensures link { result.now ≡ self.old.link }
    {
        &mut self.link
    }

    /// Returns the number of datagrams that were received and are not the reply to the open request, which stays at
    /// `u64::MAX` once it is there.
    pub fn dropped(&self) -> u64
        ensures { result ≡ self.now.dropped }
    {
        self.dropped
    }

    /// Returns the ids that were drawn, in order, each with its question.
    pub fn sent(&self) -> &[(u16, Query)]
        ensures { result.now ≡ self.now.sent.items }
    {
        self.sent.as_slice()
    }

    /// Returns the number of ids that are left.
    pub fn ids_left(&self) -> usize
        ensures { result ≡ length self.now.ids.items - length self.now.sent.items }
    {
        self.ids.len().saturating_sub(self.sent.len())
    }

    /// Reserves capacity for `additional` more ids that are drawn. If there is enough, no memory is taken.
    pub fn reserve(&mut self, additional: usize) -> Result<(), AllocError>
        ensures room { OnOk result (
            vec_len self.new.sent + additional ≤ vec_capacity self.new.sent) }
        ensures sent { self.new.sent.items ≡ self.old.sent.items }
        ensures rest { self.new ≡ record self.old { sent = self.new.sent } }
        ensures decided { vec_len self.old.sent + additional ≤ vec_capacity self.old.sent
            → IsOk result }
    {
        self.sent.reserve(additional)
    }

    /// Returns the counts since the handle was created, or since they were last reset. A count stays at `u64::MAX` once it
    /// is there.
    pub fn counts(&self) -> AskCounts
        ensures { result ≡ record { faults = self.now.faults; questions = self.now.questions } }
    {
        AskCounts {
            faults: self.faults,
            questions: self.questions,
        }
    }

    /// Resets the counts.
    pub fn reset_counts(&mut self)
        ensures { self.new ≡ record self.old { faults = 0; questions = 0 } }
    {
        self.faults = 0;
        self.questions = 0;
    }

    /// Sends an update under its own id, and returns the response code of its reply, which may be truncated (RFC 2136 section
    /// 2).
    ///
    /// The error is a [`LinkFault`]: `NotSent` or `NotReceived` if the link failed; `Quiet` if no further datagram was
    /// received; `NoMatch` if none of sixteen datagrams is the reply.
    pub fn send_update(&mut self, update: &UpdateEvent) -> Result<ResponseCode, NetError>
        ensures { SendsUpdate L.sends L.receives L.streams L.failure_count self.old update.now
            result self.new }
    {
        let reply = self.exchange_update(update.message());
        self.count_fault(&reply);
        reply
    }

    /// Sends an update without counting its fault.
    fn exchange_update(&mut self, update: &Message) -> Result<ResponseCode, NetError>
        requires { IsUpdate update.now }
        ensures sent { ((result ≡ Err Memory) × (asker_of self.new ≡ asker_of self.old))
            ⊎ IsUpdateSent wire (calls_of L.sends L.receives L.streams) update.now (asker_of self.old) result
            (asker_of self.new) }
        ensures failed { FailsByLink result (L.failure_count self.old.link)
            (L.failure_count self.new.link) }
    {
        match request_bytes(self.alloc, update) {
            Ok(bytes) => code_of(self.exchange(update.metadata.id, None, bytes.as_slice())),
            // There was no memory for the datagram.
            Err(_) => Err(NetError::Memory),
        }
    }

    /// Asks the question of a request under the next id, without counting its fault.
    fn ask(&mut self, request: &mut Message) -> Result<DnsResponse, NetError>
        ensures asked { IsUnsupported request.old (asker_of self.old) result (asker_of self.new)
            ⊎ IsSupported wire (calls_of L.sends L.receives L.streams) request.old (asker_of self.old) result
            (asker_of self.new) }
        ensures failed { FailsByLink result (L.failure_count self.old.link)
            (L.failure_count self.new.link) }
    {
        let Some(query) = question_of(request) else {
            return Err(NetError::Unsupported);
        };
        let drawn = self.sent.len();
        if drawn >= self.ids.len() {
            return Err(NetError::Link(LinkFault::NoId));
        }
        let id = self.ids[drawn];
        match remember(&mut self.sent, id, query) {
            // There was no memory for the question.
            Err(_) => Err(NetError::Memory),
            Ok(()) => {
                request.metadata.id = id;
                self.ask_under_id(request)
            }
        }
    }

    /// Asks a question by a datagram, and again over a stream if the reply is truncated.
    fn ask_under_id(&mut self, request: &Message) -> Result<DnsResponse, NetError>
        requires { (q : Query) × IsQuestion request.now q }
        ensures asked { (q : Query) → IsQuestion request.now q
            → ((result ≡ Err Memory) × (asker_of self.new ≡ asker_of self.old))
            ⊎ IsAsked wire (calls_of L.sends L.receives L.streams) request.now q (asker_of self.old) result
            (asker_of self.new) }
        ensures failed { FailsByLink result (L.failure_count self.old.link)
            (L.failure_count self.new.link) }
    {
        let [query] = request.queries.as_slice() else {
            unreachable!();
        };
        let Ok(bytes) = request_bytes(self.alloc, request) else {
            // There was no memory for the datagram.
            return Err(NetError::Memory);
        };
        let id = request.metadata.id;
        let reply = self.exchange(id, Some(query), bytes.as_slice());
        if is_truncated(&reply) {
            ask_again(self.alloc, &mut self.link, id, query, bytes.as_slice())
        } else {
            reply
        }
    }

    /// Sends the datagram of a request, and waits for its reply.
    fn exchange(
        &mut self,
        id: u16,
        question: Option<&Query>,
        bytes: &[u8],
    ) -> Result<DnsResponse, NetError>
        ensures sent { (m : Message) → Encodes m bytes.now → m.metadata.id ≡ id
            → IsSent wire (calls_of L.sends L.receives L.streams) m (option_copied question.entry) bytes.now
            (asker_of self.old) result (asker_of self.new) }
        ensures kept { L.failure_count self.old.link ≤ L.failure_count self.new.link }
        ensures failed { FailsByLink result (L.failure_count self.old.link)
            (L.failure_count self.new.link) }
    {
        match self.link.send_datagram(bytes) {
            Err(LinkError::Failed) => return Err(NetError::Link(LinkFault::NotSent)),
            // The link ran out of memory.
            Err(LinkError::Memory) => return Err(NetError::Memory),
            Ok(()) => {}
        }
        self.questions = questions_after(question, self.questions);
        wait(self.alloc, &mut self.link, id, question, &mut self.dropped)
    }

    /// Counts the fault of an outcome, if it is one.
    fn count_fault<T>(&mut self, outcome: &Result<T, NetError>)
        ensures { self.new ≡ record self.old {
          faults = faults_after outcome.now self.old.faults;
        } }
    {
        if matches!(outcome, Err(NetError::Link(_))) {
            self.faults = self.faults.saturating_add(1);
        }
    }
}

/// Returns the number of questions after a request is sent. Updates are not counted.
fn questions_after(question: Option<&Query>, count: u64) -> u64
    ensures { result ≡ questions_after (option_copied question.entry) count }
{
    match question {
        Some(_) => count.saturating_add(1),
        None => count,
    }
}

/// Returns `true` if an outcome is a truncated reply.
fn is_truncated(outcome: &Result<DnsResponse, NetError>) -> bool
    ensures { result ≡ is_truncated outcome.now }
{
    match outcome {
        Ok(response) => response.message().metadata.truncation,
        Err(_) => false,
    }
}

/// Returns the response code of a reply.
fn code_of(outcome: Result<DnsResponse, NetError>) -> Result<ResponseCode, NetError>
    ensures { result ≡ code_of outcome }
{
    match outcome {
        Ok(response) => Ok(response.message().metadata.response_code),
        Err(error) => Err(error),
    }
}

/// Appends an id that is drawn, with a copy of its question.
fn remember(sent: &mut Vec<(u16, Query)>, id: u16, query: &Query) -> Result<(), AllocError>
    ensures ok { OnOk result (sent.new.items ≡ sent.old.items ++ (id, query.now) ∷ []) }
    ensures err { OnErr result (sent.new.items ≡ sent.old.items) }
{
    let question = query.clone()?;
    sent.push((id, question))?;
    Ok(())
}

impl<L: Link + Drop> WireHandle<L> {
    /// Returns the ids that were drawn, in order, each with its question.
    pub fn into_sent(self) -> Vec<(u16, Query)>
        ensures { result ≡ self.sent }
    {
        self.sent
    }
}

impl<L: Link> DnsHandle for WireHandle<L> {
    ghost use Rattle.stub_link.specs.WireHandle.{Asks};

    ghost gives = { Asks L.sends L.receives L.streams L.failure_count };

    /// Asks the question of a request under the next id, and returns the response to it, whatever its code.
    ///
    /// If the reply is truncated, the request is sent again over a stream (RFC 7766 section 5).
    ///
    /// The error is [`NetError::Unsupported`] if the request is not a sound query with one question, or has more than
    /// 65,535 bytes without compression. Otherwise it is a [`LinkFault`]: `NoId` if no id is left; `NotSent` or
    /// `NotReceived` if the link failed; `Quiet` if no further datagram was received; `NoMatch` if none of sixteen datagrams
    /// is the reply. Of a stream it is `StreamFailed` if the stream failed, `StreamUnreadable` if its message cannot be
    /// decoded, `StreamMismatch` if that is not the reply, and `Truncated` if it is truncated, too.
    fn send(&mut self, request: DnsRequest, _now: Moment) -> Result<DnsResponse, NetError> {
        let (mut message, _options) = request.into_parts();
        let outcome = self.ask(&mut message);
        self.count_fault(&outcome);
        outcome
    }
}
