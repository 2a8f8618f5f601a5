//! The exchange for one question.

ghost use Rattle.std.specs.Prelude.{◌≡◌, IfOk};
ghost use Rattle.api_resolver.specs.Exchange.{Asks, ComesTo, IsPool, Steps, after_message, after_step, awaited_of, with_event};

use crate::event::{Event, Outgoing};
use crate::replayed::ReplayedNetwork;
use dns_messages::{DnsResponse, Query, Sequence};
use std::alloc::{AllocError, Global};
use stub_client::{DnsHandle, DnsRequest};
use stub_config::{DnsRequestOptions, ResolverOpts};
use stub_lookup::NetError;
use stub_net::scrub::Scrubber;
use stub_net::{ListedIds, NameServerPool};
use stub_servers::ServerList;

/// What each exchange of a resolver is told.
#[derive(Drop)]
pub struct ExchangeSettings {
    /// The options of the resolver: `attempts` is how many rounds are made through the servers.
    pub options: ResolverOpts,
    /// The options of its requests.
    pub request: DnsRequestOptions,
    /// How long to wait for a reply, in milliseconds.
    pub timeout: u64,
}

/// How an exchange began.
pub struct Start {
    /// The question.
    pub question: Query,
    /// The id of its messages.
    pub id: u16,
    /// When it began, in milliseconds of the caller's clock.
    pub moment: u64,
    /// The servers, as they were then.
    pub servers: ServerList,
}

impl Drop for Start {
    fn drop(self) {
        let Start {
            question,
            id: _id,
            moment: _moment,
            servers,
        } = self;
        drop(question);
        drop(servers);
    }
}

/// A message to send, and the wait for its reply.
pub struct Awaited {
    /// The message. It is sent once.
    pub outgoing: Outgoing,
    /// How many messages the exchange has sent, with this one.
    pub number: u64,
    /// When the wait ends, in milliseconds of the caller's clock.
    pub deadline: u64,
}

impl Drop for Awaited {
    fn drop(self) {
        let Awaited {
            outgoing,
            number: _number,
            deadline: _deadline,
        } = self;
        drop(outgoing);
    }
}

/// An exchange that waits for a reply.
pub struct Exchange {
    /// How it began.
    pub start: Start,
    /// What has come so far, without the datagrams that were dropped.
    pub events: Sequence<Event>,
    /// The message that was sent last.
    pub awaited: Awaited,
}

impl Drop for Exchange {
    fn drop(self) {
        let Exchange {
            start,
            events,
            awaited,
        } = self;
        drop(start);
        drop(events);
        drop(awaited);
    }
}

impl Exchange {
    /// Tells the exchange what came of its wait.
    ///
    /// A message after which it still waits for the reply to the message that was sent last is dropped (RFC 5452 section 9.1).
    pub fn step(
        self,
        alloc: Global,
        settings: &ExchangeSettings,
        event: Event,
    ) -> Result<Continuation, AllocError>
        ensures { IfOk result (λ next. Steps settings.now self event next) }
    {
        let more = self.with_event(event)?;
        let step = run_exchange(alloc, settings, &self.start, &more)?;
        Ok(self.after_step(step, more))
    }

    /// Returns what has come, with one more event.
    fn with_event(&self, event: Event) -> Result<Sequence<Event>, AllocError>
        ensures { IfOk result (λ more. more ≡ with_event self.now event) }
    {
        let mut more = self.events.clone()?;
        more.push(event)?;
        Ok(more)
    }

    /// Returns what the exchange goes on with, if with one more event it comes to a step.
    fn after_step(self, step: ExchangeStep, more: Sequence<Event>) -> Continuation
        ensures { result ≡ after_step self step more }
    {
        match step {
            ExchangeStep::Ends(outcome, servers) => Continuation::Ends(outcome, servers),
            ExchangeStep::Waits(next) => Continuation::Waits(self.after_message(next, more)),
        }
    }

    /// Returns the exchange, if with one more event it awaits the reply to a message.
    fn after_message(self, next: Awaited, more: Sequence<Event>) -> Exchange
        ensures { result ≡ after_message self next more }
    {
        if next.number == self.awaited.number {
            return self;
        }
        let Exchange {
            start,
            events: _events,
            awaited: _awaited,
        } = self;
        Exchange {
            start,
            events: more,
            awaited: next,
        }
    }
}

/// What an exchange goes on with, after one more event.
#[derive(Drop)]
pub enum Continuation {
    /// It waits for a reply.
    Waits(Exchange),
    /// It ends, and leaves the servers so.
    Ends(Result<DnsResponse, NetError>, ServerList),
}

/// What an exchange comes to, after what has come so far.
#[derive(Drop)]
pub enum ExchangeStep {
    /// A reply is awaited.
    Waits(Awaited),
    /// It ends, and leaves the servers so.
    Ends(Result<DnsResponse, NetError>, ServerList),
}

/// Runs an exchange over the events that have come so far.
///
/// It fails if there was no memory to begin the exchange, or for what it came to.
pub fn run_exchange(
    alloc: Global,
    settings: &ExchangeSettings,
    start: &Start,
    events: &Sequence<Event>,
) -> Result<ExchangeStep, AllocError>
    ensures { IfOk result (λ step. ComesTo settings.now start.now events.now step) }
{
    let Asked { outcome, pool } = ask(alloc, settings, start, events)?;
    match awaited_of(pool.network())? {
        Some(awaited) => {
            drop(outcome);
            Ok(ExchangeStep::Waits(awaited))
        }
        None => Ok(ExchangeStep::Ends(outcome, pool.servers().clone()?)),
    }
}

/// What a pool was asked, and what it is afterwards.
#[derive(Drop)]
struct Asked {
    outcome: Result<DnsResponse, NetError>,
    pool: NameServerPool<ReplayedNetwork, ListedIds>,
}

/// Asks the pool of an exchange its question, over the events that have come so far. Of its reply remains what the question leads to.
fn ask(
    alloc: Global,
    settings: &ExchangeSettings,
    start: &Start,
    events: &Sequence<Event>,
) -> Result<Asked, AllocError>
    ensures { IfOk result (λ asked.
        Asks settings.now start.now events.now asked.outcome asked.pool) }
{
    let pool = pool_over(alloc, settings, start, events.clone()?)?;
    let mut handle = Scrubber::new(alloc, pool);
    let request = DnsRequest::from_query(alloc, start.question.clone()?, settings.request)?;
    let outcome = handle.send(request, 0);
    let pool = handle.into_handle();
    Ok(Asked { outcome, pool })
}

/// Returns the pool of an exchange before it is asked, over a network of events.
fn pool_over(
    alloc: Global,
    settings: &ExchangeSettings,
    start: &Start,
    events: Sequence<Event>,
) -> Result<NameServerPool<ReplayedNetwork, ListedIds>, AllocError>
    ensures { IfOk result (λ pool. IsPool settings.now start.now events pool) }
{
    let mut ids = Vec::new(alloc);
    ids.push(start.id)?;
    let network = ReplayedNetwork::new(alloc, start.moment, events.into_vec());
    let mut pool = NameServerPool::new(
        alloc,
        network,
        ListedIds::new(ids),
        start.servers.clone()?,
        &settings.options,
    );
    pool.set_timeout(settings.timeout);
    Ok(pool)
}

/// Returns the message whose reply a network awaits, if there was no event for a wait.
fn awaited_of(network: &ReplayedNetwork) -> Result<Option<Awaited>, AllocError>
    ensures { IfOk result (λ awaited. awaited ≡ awaited_of network.now) }
{
    match (network.outgoing(), network.deadline()) {
        (Some(outgoing), Some(deadline)) => Ok(Some(Awaited {
            outgoing: outgoing.clone()?,
            number: network.count(),
            deadline,
        })),
        _ => Ok(None),
    }
}
