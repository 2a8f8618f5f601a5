//! The resolver.

ghost use Rattle.std.specs.Prelude.{◌≡◌, ◌/◌, IfOk, OnErr};
ghost use Rattle.api_resolver.specs.Lookup.{Follows, Goes, IsFresh, KeepsSettings, Opens, OpensFrom, Receives, Takes, TakesEvent, course_of, ended_for_memory, failure_of, lookup_settings_of};
ghost use Rattle.api_resolver.specs.known.Progress.{ComesTo};

use crate::event::{Arrival, Event};
use crate::exchange::{
    Continuation, Exchange, ExchangeSettings, ExchangeStep, Start, run_exchange,
};
use crate::known::{AnsweredHandle, KnownReply, Progress, known_outcome, look_up};
use crate::lookup::{Course, LookupState, OpenLookup};
use dns_messages::{DnsResponse, Query, Sequence};
use dns_names::Name;
use dns_wire::RecordType;
use std::alloc::{AllocError, Global};
use std::mem;
use std::net::SocketAddr;
use stub_client::CachingClient;
use stub_config::{DnsRequestOptions, ResolverConfig, ResolverOpts};
use stub_lookup::{LinkFault, NetError};
use stub_servers::ServerList;

/// A resolver for callers with sockets and a clock of their own. Its lookups share a cache.
#[derive(Drop)]
pub struct StepResolver {
    alloc: Global,
    client: CachingClient<AnsweredHandle>,
    servers: ServerList,
    settings: ExchangeSettings,
}

impl StepResolver {
    /// Creates a resolver with an empty cache, which asks the servers of a configuration.
    ///
    /// Of the options, `attempts`, `cache_size`, `edns0`, `edns_payload_len`, `preserve_intermediates`, `recursion_desired` and
    /// `server_ordering_strategy` take effect. `timeout` is how long to wait for a reply, in milliseconds.
    pub fn new(
        alloc: Global,
        config: &ResolverConfig,
        options: ResolverOpts,
        timeout: u64,
    ) -> Result<StepResolver, AllocError>
        ensures { IfOk result (IsFresh config.now options timeout) }
    {
        let servers = ServerList::from_config(alloc, config, &options)?;
        let request = DnsRequestOptions {
            use_edns: options.edns0,
            edns_payload_len: options.edns_payload_len,
            edns_set_dnssec_ok: false,
            recursion_desired: options.recursion_desired,
        };
        let client = CachingClient::new(
            alloc,
            options.cache_size,
            AnsweredHandle::new(alloc),
            options.preserve_intermediates,
        );
        Ok(StepResolver {
            alloc,
            client,
            servers,
            settings: ExchangeSettings {
                options,
                request,
                timeout,
            },
        })
    }

    /// Begins a lookup of the records of a name and a type, at a moment in milliseconds of the caller's clock.
    ///
    /// `ids` are the ids of the messages to come, one for each question that the lookup asks, of which there are at most eight. They
    /// must be unpredictable (RFC 5452 section 9.2).
    pub fn begin(
        &mut self,
        name: Name,
        record_type: RecordType,
        ids: Vec<u16>,
        clock: u64,
    ) -> OpenLookup
        ensures { Goes self.old (course_of name record_type ids.items clock) clock result.state
            result.course self.new }
    {
        let mut course = Course {
            question: Query::query(name, record_type),
            begun: clock,
            ids: Sequence::from_vec(ids),
            known: Sequence::new(self.alloc),
        };
        let state = self.go_on(&mut course, clock);
        OpenLookup { course, state }
    }

    /// Tells a lookup that a message was received from a server: a datagram, or the reply over a stream. A message from another
    /// server than the one that it awaits is dropped.
    pub fn received(
        &mut self,
        lookup: &mut OpenLookup,
        bytes: Vec<u8>,
        from: SocketAddr,
        clock: u64,
    )
        ensures { Receives self.old lookup.old bytes.items from clock lookup.new self.new }
    {
        let Some(awaited) = lookup.awaited() else {
            return;
        };
        if awaited.outgoing.server != from {
            return;
        }
        self.take(lookup, Arrival::Message(Sequence::from_vec(bytes)), clock);
    }

    /// Tells a lookup that the deadline of its wait has passed.
    pub fn timed_out(&mut self, lookup: &mut OpenLookup, clock: u64)
        ensures { TakesEvent self.old lookup.old (record {
          moment = clock;
          arrival = Arrival.TimedOut;
        }) lookup.new self.new }
    {
        self.take(lookup, Arrival::TimedOut, clock);
    }

    /// Tells a lookup that its message could not be sent, or that no reply can be received: that the socket failed.
    pub fn failed(&mut self, lookup: &mut OpenLookup, clock: u64)
        ensures { TakesEvent self.old lookup.old (record {
          moment = clock;
          arrival = Arrival.Failed;
        }) lookup.new self.new }
    {
        self.take(lookup, Arrival::Failed, clock);
    }

    /// Tells a lookup what came of its wait. One that has ended does not change.
    fn take(&mut self, lookup: &mut OpenLookup, arrival: Arrival, clock: u64)
        ensures { TakesEvent self.old lookup.old (record { moment = clock; arrival = arrival })
            lookup.new self.new }
    {
        // Want of memory ends the lookup, unless a state takes its place.
        let state = mem::replace(&mut lookup.state, LookupState::Ended(Err(NetError::Memory)));
        let event = Event {
            moment: clock,
            arrival,
        };
        lookup.state = match state {
            LookupState::Waits(exchange) => self.after_event(&mut lookup.course, exchange, event),
            LookupState::Ended(reply) => LookupState::Ended(reply),
        };
    }

    /// Returns the state of a lookup after what came of the wait of its exchange.
    fn after_event(&mut self, course: &mut Course, exchange: Exchange, event: Event) -> LookupState
        ensures { Takes self.old course.old exchange event result course.new self.new }
    {
        let clock = event.moment;
        let Ok(question) = exchange.start.question.clone() else {
            // There was no memory for the question.
            return out_of_memory();
        };
        match exchange.step(self.alloc, &self.settings, event) {
            Ok(Continuation::Waits(exchange)) => LookupState::Waits(exchange),
            Ok(Continuation::Ends(outcome, servers)) => {
                self.servers = servers;
                self.after_outcome(course, question, outcome, clock)
            }
            // There was no memory for the step of the exchange.
            Err(_) => out_of_memory(),
        }
    }

    /// Returns the state of a lookup after the outcome of the exchange for a question.
    fn after_outcome(
        &mut self,
        course: &mut Course,
        question: Query,
        outcome: Result<DnsResponse, NetError>,
        clock: u64,
    ) -> LookupState
        ensures { Follows self.old course.old question outcome clock result course.new self.new }
    {
        let Some(outcome) = known_outcome(outcome) else {
            // Memory ran out during the exchange.
            return out_of_memory();
        };
        match course.known.push(KnownReply { question, outcome }) {
            Ok(()) => self.go_on(course, clock),
            // There was no memory for the reply.
            Err(_) => out_of_memory(),
        }
    }

    /// Looks up the question over the replies that are known, and begins the exchange for the first question without one.
    fn go_on(&mut self, course: &mut Course, clock: u64) -> LookupState
        ensures { Goes self.old course.old clock result course.new self.new }
    {
        match self.progress(course) {
            Ok(Progress::Ends(reply)) => LookupState::Ended(reply),
            Ok(Progress::Asks(question)) => self.open(course, question, clock),
            // There was no memory for the question.
            Err(_) => out_of_memory(),
        }
    }

    /// Looks up the question over the replies that are known.
    fn progress(&mut self, course: &mut Course) -> Result<Progress, AllocError>
        ensures comes { IfOk result (λ progress. ComesTo (lookup_settings_of self.old)
            (course.old.begun / 1000) course.old.known self.old.client.cache course.old.question
            progress self.new.client.cache) }
        ensures refused { OnErr result (self.new ≡ self.old) }
        ensures course { course.new ≡ course.old }
        ensures settings { KeepsSettings self.old self.new }
    {
        let question = course.question.clone()?;
        let known = course.known.take();
        let now = course.moment();
        drop(self.client.handle_mut().replace_known(known.into_vec()));
        let progress = look_up(&mut self.client, question, self.settings.request, now);
        let known = self.client.handle_mut().replace_known(Vec::new(self.alloc));
        course.known = Sequence::from_vec(known);
        Ok(progress)
    }

    /// Begins the exchange for a question, and returns the state of its lookup.
    fn open(&self, course: &mut Course, question: Query, clock: u64) -> LookupState
        ensures { Opens self.now course.old question clock result course.new }
    {
        let Ok(servers) = self.servers.clone() else {
            // There was no memory for the servers.
            return out_of_memory();
        };
        let Some(id) = course.draw_id() else {
            return LookupState::Ended(Err(NetError::Link(LinkFault::NoId)));
        };
        let start = Start {
            question,
            id,
            moment: clock,
            servers,
        };
        self.open_from(start)
    }

    /// Begins an exchange, and returns the state of its lookup.
    fn open_from(&self, start: Start) -> LookupState
        ensures { OpensFrom self.now start result }
    {
        let events = Sequence::new(self.alloc);
        match run_exchange(self.alloc, &self.settings, &start, &events) {
            Ok(ExchangeStep::Waits(awaited)) => LookupState::Waits(Exchange {
                start,
                events,
                awaited,
            }),
            Ok(ExchangeStep::Ends(outcome, _servers)) => {
                LookupState::Ended(Err(failure_of(outcome)))
            }
            // There was no memory for the exchange.
            Err(_) => out_of_memory(),
        }
    }
}

/// Returns the state of a lookup that ended for want of memory.
fn out_of_memory() -> LookupState
    ensures { result ≡ ended_for_memory }
{
    // Its callers have no memory.
    LookupState::Ended(Err(NetError::Memory))
}

/// Returns why an exchange ended before anything came. It can't have a reply.
fn failure_of(outcome: Result<DnsResponse, NetError>) -> NetError
    ensures { result ≡ failure_of outcome }
{
    match outcome {
        Ok(_) => NetError::Unsupported,
        Err(error) => error,
    }
}
