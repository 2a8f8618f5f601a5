//! A handle that asks the servers of a list.

ghost use Rattle.std.specs.Prelude.{◌≡◌, Err};
ghost use Rattle.dns_messages.specs.declared.query.Query.{Query};
ghost use Rattle.stub_link.specs.Request.{IsQuestion, IsWhole};
ghost use Rattle.stub_net.specs.Exchange.{Exchanges, Runs, RunsRound, TriesPlace, no_try, rounds};
ghost use Rattle.stub_net.specs.Network.{network_calls};
ghost use Rattle.stub_net.specs.Pool.{Asks, IsFirstPool, Updates, streams_alone, with_timeout};

mod verdict;

use crate::ids::IdSource;
use crate::network::Network;
use crate::requester::{NetCounts, Requester};
use dns_messages::{DnsResponse, Message, ResponseCode};
use std::alloc::Global;
use std::ops::ControlFlow;
use stub_client::{DnsHandle, DnsRequest};
use stub_config::ResolverOpts;
use stub_link::{UpdateEvent, question_of, request_bytes};
use stub_lookup::{LinkFault, Moment, NetError};
use stub_servers::{Server, ServerList};
use verdict::{Verdict, verdict_on};

/// Asks the servers of a list over a network, one after another, each question under an id of its own.
#[derive(Drop)]
pub struct NameServerPool<N, I> {
    alloc: Global,
    requester: Requester<N>,
    ids: I,
    servers: ServerList,
    attempts: usize,
}

impl<N: Network, I: IdSource> NameServerPool<N, I> {
    /// Creates a handle that asks servers over a network.
    ///
    /// Of the options, `timeout` is how long it waits for the reply of a server, in seconds, and `attempts` how many
    /// rounds it makes through the servers, at least one.
    pub fn new(
        alloc: Global,
        network: N,
        ids: I,
        servers: ServerList,
        options: &ResolverOpts,
    ) -> Self
        ensures { IsFirstPool network ids servers options.now.timeout options.now.attempts result }
    {
        NameServerPool {
            alloc,
            requester: Requester::new(alloc, network, options.timeout.saturating_mul(1_000)),
            ids,
            servers,
            attempts: options.attempts.max(1),
        }
    }

    /// Asks servers over streams alone from now on (RFC 7766 section 5). A server without an address for streams is not
    /// asked.
    pub fn use_streams_alone(&mut self)
        ensures { self.new ≡ streams_alone self.old }
    {
        self.requester.streams_alone = true;
    }

    /// Sets how long to wait for the reply of a server, in milliseconds, in place of the time-out of the options.
    pub fn set_timeout(&mut self, milliseconds: u64)
        ensures { self.new ≡ with_timeout milliseconds self.old }
    {
        self.requester.timeout = milliseconds;
    }

    /// Returns the network.
    pub fn network(&self) -> &N
        ensures { result.now ≡ self.now.requester.network }
    {
        &self.requester.network
    }

    /// Returns the servers.
    pub fn servers(&self) -> &ServerList
        ensures { result.now ≡ self.now.servers }
    {
        &self.servers
    }

    /// Returns the counts since the handle was created.
    pub fn counts(&self) -> NetCounts
        ensures { result ≡ self.now.requester.counts }
    {
        self.requester.counts
    }

    /// Sends an update under its own id, and returns the response code of its reply, which may be truncated (RFC 2136
    /// section 2).
    ///
    /// The servers are asked as for a question. The errors are those of a question, without `NoId`, `Truncated` and
    /// [`NetError::Unsupported`], which do not occur.
    pub fn send_update(&mut self, update: &UpdateEvent) -> Result<ResponseCode, NetError>
        ensures { Updates (network_calls N.sends N.receives N.streams N.reads_clock) self.old
            update.now result self.new }
    {
        let outcome = self.exchange(update.message());
        self.requester.count_fault(&outcome);
        code_of(outcome)
    }

    /// Asks the question of a request under an id that is drawn for it, without counting its fault.
    fn ask(&mut self, request: &mut Message) -> Result<DnsResponse, NetError>
        ensures { Asks (network_calls N.sends N.receives N.streams N.reads_clock) I.draws
            self.old request.old result self.new }
    {
        let Some(_query) = question_of(request) else {
            return Err(NetError::Unsupported);
        };
        match self.ids.draw() {
            Some(id) => {
                request.metadata.id = id;
                self.exchange(request)
            }
            None => Err(NetError::Link(LinkFault::NoId)),
        }
    }

    /// Sends a request to the servers, in as many rounds as are configured.
    fn exchange(&mut self, message: &Message) -> Result<DnsResponse, NetError>
        requires { IsWhole message.now }
        ensures { Exchanges (network_calls N.sends N.receives N.streams N.reads_clock) message.now
            self.old result self.new }
    {
        let Ok(bytes) = request_bytes(self.alloc, message) else {
            // There was no memory for the datagram.
            return Err(NetError::Memory);
        };
        let start = self.requester.network.now();
        let Ok(order) = self.servers.order(self.alloc, start) else {
            // There was no memory for the order.
            return Err(NetError::Memory);
        };
        self.run(message, bytes.as_slice(), order.as_slice())
    }

    /// Tries the servers at the places of an order, in as many rounds as are configured. The outcome is that of the
    /// last try.
    fn run(
        &mut self,
        message: &Message,
        bytes: &[u8],
        order: &[usize],
    ) -> Result<DnsResponse, NetError>
        ensures { Runs (network_calls N.sends N.receives N.streams N.reads_clock) message.now
            bytes.now (rounds self.old.attempts order.now) no_try self.old result self.new }
    {
        let mut last = Err(NetError::Link(LinkFault::NotSent));
        for _round in 0..self.attempts {
            match self.run_round(message, bytes, order, last) {
                ControlFlow::Break(outcome) => return outcome,
                ControlFlow::Continue(outcome) => last = outcome,
            }
        }
        last
    }

    /// Tries the servers at the places of an order once, until one of them ends the exchange. The outcome is that of
    /// the last try, or of the last one before.
    fn run_round(
        &mut self,
        message: &Message,
        bytes: &[u8],
        order: &[usize],
        before: Result<DnsResponse, NetError>,
    ) -> ControlFlow<Result<DnsResponse, NetError>, Result<DnsResponse, NetError>>
        ensures { RunsRound (network_calls N.sends N.receives N.streams N.reads_clock) message.now
            bytes.now order.now before self.old result self.new }
    {
        let mut last = before;
        for place in order {
            match self.try_place(message, bytes, *place) {
                ControlFlow::Break(outcome) => return ControlFlow::Break(outcome),
                ControlFlow::Continue(outcome) => last = outcome,
            }
        }
        ControlFlow::Continue(last)
    }

    /// Tries the server at a place, and remembers whether it failed. Its outcome ends the exchange or not.
    fn try_place(
        &mut self,
        message: &Message,
        bytes: &[u8],
        place: usize,
    ) -> ControlFlow<Result<DnsResponse, NetError>, Result<DnsResponse, NetError>>
        ensures { TriesPlace (network_calls N.sends N.receives N.streams N.reads_clock) message.now
            bytes.now place self.old result self.new }
    {
        let server = self.servers.get(place).unwrap_or(Server::none());
        let outcome = self.requester.try_server(message, bytes, server);
        match verdict_on(message, server.trust_negative_responses, &outcome) {
            Verdict::Accepted => {
                self.servers.record_answer(place);
                ControlFlow::Break(outcome)
            }
            Verdict::Declined => {
                let now = self.requester.network.now();
                self.servers.record_failure(place, now);
                ControlFlow::Continue(outcome)
            }
            Verdict::OutOfMemory => ControlFlow::Break(outcome),
        }
    }
}

ghost use Rattle.stub_link.specs.Update.{code_of};

/// Returns the response code of a reply.
fn code_of(outcome: Result<DnsResponse, NetError>) -> Result<ResponseCode, NetError>
    ensures { result ≡ code_of outcome }
{
    match outcome {
        Ok(response) => Ok(response.message().metadata.response_code),
        Err(error) => Err(error),
    }
}

impl<N: Network, I: IdSource> DnsHandle for NameServerPool<N, I> {
    ghost use Rattle.stub_net.specs.Pool.{Gives};

    ghost gives = { λ old request now outcome new.
        Gives (network_calls N.sends N.receives N.streams N.reads_clock) I.draws old request.message
        outcome new };

    /// Asks the question of a request under an id that is drawn for it, and returns the first reply that is accepted.
    ///
    /// The servers are tried in their order, in as many rounds as are configured. A reply is accepted unless its
    /// response code is `ServFail`, `Refused` or `NotImp`, or it is negative and the server is not trusted with such
    /// replies. When all tries are made, the outcome is that of the last one.
    ///
    /// The error is [`NetError::Unsupported`] if the request is not a sound query with one question, or has more than
    /// 65,535 bytes without compression. Otherwise it is a [`LinkFault`]: `NoId` if there is no id; and of the last try
    /// `NotSent` if the network could not send, or there is no server; `NotReceived` if it could not receive; `Quiet`
    /// if the time-out passed; `NoMatch` if none of 2^64 - 1 datagrams is the reply; `Truncated` if the reply is
    /// truncated, and so is that over a stream, or the server has no address for streams; `StreamFailed` if the stream
    /// failed; `StreamMismatch` if its message is not the reply, or cannot be decoded.
    fn send(&mut self, request: DnsRequest, _now: Moment) -> Result<DnsResponse, NetError> {
        let (mut message, _options) = request.into_parts();
        let outcome = self.ask(&mut message);
        self.requester.count_fault(&outcome);
        outcome
    }
}
