//! The servers of a configuration, and their order at a moment.

ghost use Rattle.std.specs.Prelude.{◌≡◌, ◌==◌, ◌++◌, None, Some, IfOk, OnOk, OnErr, filter_map, length, slice_get, slice_set, slice_index};
ghost use Rattle.std.specs.List.{range_with_len};
ghost use Rattle.stub_servers.specs.Server.{server_of};
ghost use Rattle.stub_servers.specs.ServerList.{is_fresh, is_round_robin, next_turn, order_at, servers_from, with_failure};

use crate::server::Server;
use std::alloc::{AllocError, Global};
use std::marker::Model;
use stub_config::{NameServerConfig, ResolverConfig, ResolverOpts, ServerOrderingStrategy};

/// How long a server that failed is asked only after the others, in milliseconds.
pub const RETRY_INTERVAL: u64 = 30_000;

/// The servers of a configuration, in its order, and when each of them last failed.
#[derive(Drop)]
pub struct ServerList {
    servers: Vec<Server>,
    failures: Vec<Option<u64>>,
    turn: usize,
    rotates: bool,
}

impl Model for ServerList {
    ghost use Rattle.std.specs.Prelude.{◌≡◌, ◌≤◌, length};
    ghost use Rattle.stub_servers.specs.Servers.{Servers};

    ghost Value = { Servers };

    ghost view = { λ list. record {
      servers = list.servers.items;
      failed = list.failures.items;
      turn = list.turn;
      rotates = list.rotates;
    } };

    ghost invariant = { λ list. (length list.failures.items ≡ length list.servers.items)
        × (list.turn ≤ length list.servers.items) };
}

impl ServerList {
    /// Creates the list of the servers of a configuration that can be asked over UDP or TCP. None of them has failed.
    ///
    /// With [`ServerOrderingStrategy::RoundRobin`] each order begins one server after the last, and otherwise with the
    /// first server of the configuration.
    pub fn from_config(
        alloc: Global,
        config: &ResolverConfig,
        options: &ResolverOpts,
    ) -> Result<ServerList, AllocError>
        ensures { IfOk result (λ list. list ≡ servers_from
            (filter_map server_of config.now.name_servers)
            (is_round_robin options.now.server_ordering_strategy)) }
    {
        let servers = servers_of(alloc, config.name_servers())?;
        let rotates = is_round_robin(options.server_ordering_strategy);
        ServerList::from_servers(alloc, servers, rotates)
    }

    /// Creates a list of servers of which none has failed.
    fn from_servers(
        alloc: Global,
        servers: Vec<Server>,
        rotates: bool,
    ) -> Result<ServerList, AllocError>
        ensures { IfOk result (λ list. list ≡ servers_from servers.items rotates) }
    {
        let failures = vec![in alloc; None; servers.len()]?;
        Ok(ServerList {
            servers,
            failures,
            turn: 0,
            rotates,
        })
    }

    /// Copies the list, with the failures and the place of the next order.
    pub fn clone(&self) -> Result<ServerList, AllocError>
        ensures { IfOk result (λ copy. copy ≡ self.now) }
    {
        let alloc = *self.servers.allocator();
        Ok(ServerList {
            servers: Vec::from_slice(alloc, self.servers.as_slice())?,
            failures: Vec::from_slice(alloc, self.failures.as_slice())?,
            turn: self.turn,
            rotates: self.rotates,
        })
    }

    /// Returns the number of servers.
    pub fn len(&self) -> usize
        ensures { result ≡ length self.now.servers }
    {
        self.servers.len()
    }

    /// Returns `true` if there are no servers.
    pub fn is_empty(&self) -> bool
        ensures { result ≡ (length self.now.servers == 0) }
    {
        self.servers.is_empty()
    }

    /// Returns the server at a place.
    pub fn get(&self, place: usize) -> Option<Server>
        ensures { result ≡ slice_get self.now.servers place }
    {
        self.servers.get(place).copied()
    }

    /// Returns the places of all servers in the order in which they are asked at a moment, in milliseconds.
    ///
    /// The servers that failed within the last [`RETRY_INTERVAL`] come after all others.
    pub fn order(&mut self, alloc: Global, now: u64) -> Result<Vec<usize>, AllocError>
        ensures order { IfOk result (λ order. order.items ≡ order_at now self.old) }
        ensures ok { OnOk result (self.new ≡ next_turn self.old) }
        ensures err { OnErr result (self.new ≡ self.old) }
    {
        let order = self.order_at(alloc, now)?;
        self.take_turn();
        Ok(order)
    }

    /// Remembers that a server failed at a moment, in milliseconds.
    pub fn record_failure(&mut self, place: usize, now: u64)
        ensures { self.new ≡ with_failure place (Some now) self.old }
    {
        if let Some(failure) = self.failures.get_mut(place) {
            *failure = Some(now);
        }
    }

    /// Forgets the failure of a server, which has answered.
    pub fn record_answer(&mut self, place: usize)
        ensures { self.new ≡ with_failure place None self.old }
    {
        if let Some(failure) = self.failures.get_mut(place) {
            *failure = None;
        }
    }

    /// Returns the places of all servers in the order in which they are asked at a moment.
    fn order_at(&self, alloc: Global, now: u64) -> Result<Vec<usize>, AllocError>
        ensures { IfOk result (λ order. order.items ≡ order_at now self.now) }
    {
        let end = self.servers.len();
        let failures = self.failures.as_slice();
        let fresh = (self.turn..end)
            .chain(0..self.turn)
            .filter(|&place| is_fresh(now, failures, place));
        let failed = (self.turn..end)
            .chain(0..self.turn)
            .filter(|&place| !is_fresh(now, failures, place));
        fresh.chain(failed).collect(alloc)
    }

    /// Begins the next order one server later, if orders rotate.
    fn take_turn(&mut self)
        ensures { self.new ≡ next_turn self.old }
    {
        if self.rotates {
            let next = self.turn + 1;
            self.turn = if next < self.servers.len() { next } else { 0 };
        }
    }
}

/// Returns the servers that can be asked.
fn servers_of(alloc: Global, configs: &[NameServerConfig]) -> Result<Vec<Server>, AllocError>
    ensures { IfOk result (λ servers. servers.items ≡ filter_map server_of configs.now) }
{
    configs
        .iter()
        .filter_map(Server::from_config)
        .collect(alloc)
}

/// Returns `true` if a strategy asks the servers in turn.
fn is_round_robin(strategy: ServerOrderingStrategy) -> bool
    ensures { result ≡ is_round_robin strategy }
{
    match strategy {
        ServerOrderingStrategy::RoundRobin => true,
        ServerOrderingStrategy::QueryStatistics | ServerOrderingStrategy::UserProvidedOrder => {
            false
        }
    }
}

/// Returns `true` if the server at a place has not failed within the last [`RETRY_INTERVAL`].
fn is_fresh(now: u64, failures: &[Option<u64>], place: usize) -> bool
    ensures { result ≡ is_fresh now (slice_get failures.now place) }
{
    match failures.get(place) {
        Some(Some(moment)) => now.saturating_sub(*moment) >= RETRY_INTERVAL,
        Some(None) | None => true,
    }
}
