//! Lookups over a resolver.

ghost use Rattle.std.specs.Prelude.{◌≡◌, ◌≢◌, ◌/◌, ◌≤◌, ◌^◌, min, string_bytes, true, IfErr, IfOk, IsErr, Result};
ghost use Rattle.dns_messages.specs.declared.response_code.ResponseCode.{ResponseCode};
ghost use Rattle.dns_names.specs.Parse.{name_of_text};
ghost use Rattle.dns_text.specs.Address.{IsTextOf};
ghost use Rattle.lookup_cli.specs.Session.{IsNewSession, IsPool, LooksUpItem, pool_gives, request_count, update_result};
ghost use Rattle.stub_core.specs.Resolver.{ResolvesHost};
ghost use Rattle.stub_core.specs.ResolverBuilder.{is_unsupported};
ghost use Rattle.stub_lookup.specs.declared.error.NetError.{NetError};
ghost use Rattle.stub_net.specs.Network.{network_calls};
ghost use Rattle.stub_net.specs.Pool.{Updates};

use crate::answers::{Item, Question};
use dns_messages::ResponseCode;
use std::alloc::Global;
use stub_config::{ResolverConfig, ResolverOpts};
use stub_core::Resolver;
use stub_hosts::Hosts;
use stub_link::UpdateEvent;
use stub_lookup::{Lookup, LookupIp, Moment, NetError};
use stub_net::scrub::Scrubber;
use stub_net::signed::UpdateError;
use stub_net::{IdSource, NameServerPool, Network};
use stub_servers::ServerList;

/// The greatest moment of a resolver, in seconds: 2^62.
const MAX_MOMENT: Moment = 4_611_686_018_427_387_904;

/// Returns the moment of a clock that counts milliseconds.
pub fn moment_of(milliseconds: u64) -> Moment
    ensures moment { result ≡ min (milliseconds / 1000) (2 ^ 62) }
    ensures bound { result ≤ 2 ^ 62 }
{
    (milliseconds / 1_000).min(MAX_MOMENT)
}

/// A resolver over a network, and its cache. Of each reply it takes what the question leads to.
#[derive(Drop)]
pub struct Session<N, I> {
    resolver: Resolver<Scrubber<NameServerPool<N, I>>>,
}

impl<N: Network + Drop, I: IdSource + Drop> Session<N, I> {
    /// Creates a session with an empty cache. A time-out in milliseconds takes the place of that of the options.
    ///
    /// The error is [`NetError::Unsupported`] if no resolver has these options, or [`NetError::Memory`].
    pub fn new(
        alloc: Global,
        network: N,
        ids: I,
        config: ResolverConfig,
        options: ResolverOpts,
        timeout: u64,
        streams_alone: bool,
        hosts: Hosts,
    ) -> Result<Session<N, I>, NetError>
        ensures refused { is_unsupported options ≡ true → IsErr result }
        ensures faults { IfErr result (λ error. error ≢ NetError.Memory
            → (error ≡ NetError.Unsupported) × (is_unsupported options ≡ true)) }
        ensures session { IfOk result
            (IsNewSession network ids config options timeout streams_alone hosts) }
    {
        let servers = ServerList::from_config(alloc, &config, &options)?;
        let pool = pool_of(
            alloc,
            network,
            ids,
            servers,
            &options,
            timeout,
            streams_alone,
        );
        let handle = Scrubber::new(alloc, pool);
        let builder = Resolver::builder_with_config(alloc, config, handle)
            .with_options(options)
            .with_hosts(hosts);
        match builder.build() {
            Ok(resolver) => Ok(Session { resolver }),
            Err(error) => Err(error),
        }
    }

    /// Looks up what an item asks, at a moment.
    pub fn look_up(&mut self, item: &Item, now: Moment) -> Result<Lookup, NetError>
        requires { now ≤ 2 ^ 62 }
        ensures { LooksUpItem
            (pool_gives (network_calls N.sends N.receives N.streams N.reads_clock) I.draws) now
            (IsTextOf (string_bytes item.now.name)) (name_of_text (string_bytes item.now.name))
            item.now.question
            self.old.resolver result self.new.resolver }
    {
        let name = item.name.as_str();
        match item.question {
            Question::Addresses => self.look_up_addresses(name, now),
            Question::Records(record_type) => self.resolver.lookup(name, record_type, now),
            Question::Unknown => Err(NetError::Unsupported),
        }
    }

    /// Looks up the addresses of a host.
    fn look_up_addresses(&mut self, host: &str, now: Moment) -> Result<Lookup, NetError>
        requires { now ≤ 2 ^ 62 }
        ensures { ResolvesHost
            (pool_gives (network_calls N.sends N.receives N.streams N.reads_clock) I.draws) now
            (IsTextOf host.now) (name_of_text host.now) self.old.resolver result self.new.resolver }
    {
        lookup_of(self.resolver.lookup_ip(host, now))
    }

    /// Sends an update without a signature, and returns the response code of its reply, which anyone may have sent.
    pub fn send_update(&mut self, update: &UpdateEvent) -> Result<ResponseCode, UpdateError>
        ensures { (reply : Result ResponseCode NetError)
            × Updates (network_calls N.sends N.receives N.streams N.reads_clock)
            self.old.resolver.client.handle.handle update.now reply
            self.new.resolver.client.handle.handle
            × (result ≡ update_result reply) }
    {
        match self.resolver.handle_mut().handle.send_update(update) {
            Ok(code) => Ok(code),
            Err(error) => Err(UpdateError::Net(error)),
        }
    }

    /// Returns the number of requests that were sent to servers, or were to be.
    pub fn questions(&self) -> u64
        ensures { result ≡ request_count self.now.resolver.client.handle.handle.requester.counts }
    {
        let counts = self.resolver.handle().handle.counts();
        counts.datagrams.saturating_add(counts.streams)
    }
}

/// Returns the records of the addresses that were looked up.
fn lookup_of(addresses: Result<LookupIp, NetError>) -> Result<Lookup, NetError>
    ensures { result ≡ addresses }
{
    match addresses {
        Ok(addresses) => Ok(Lookup::from(addresses)),
        Err(error) => Err(error),
    }
}

/// Creates a pool over a network, with a time-out in milliseconds in place of that of the options.
pub(crate) fn pool_of<N: Network, I: IdSource>(
    alloc: Global,
    network: N,
    ids: I,
    servers: ServerList,
    options: &ResolverOpts,
    timeout: u64,
    streams_alone: bool,
) -> NameServerPool<N, I>
    ensures { IsPool network ids servers options.now timeout streams_alone result }
{
    let mut pool = NameServerPool::new(alloc, network, ids, servers, options);
    pool.set_timeout(timeout);
    if streams_alone {
        pool.use_streams_alone();
    }
    pool
}
