//! A resolver: lookups of names and hosts over a handle and a cache, by a configuration, options and hosts.

ghost use Rattle.std.specs.Prelude.{◌≡◌, ◌≤◌, ◌^◌};

mod builder;
mod cache;
mod literal;
mod lookup_ip;
mod settings;
mod typed;

use crate::attempts::lookup_names_with_hosts;
pub use builder::ResolverBuilder;
use dns_names::Name;
use dns_text::IntoName;
use dns_wire::RecordType;
use settings::Settings;
use std::alloc::Global;
use stub_client::{CachingClient, DnsHandle};
use stub_config::{ResolverConfig, ResolverOpts};
use stub_hosts::Hosts;
use stub_lookup::{Lookup, Moment, NetError};

/// The maximum number of questions that a lookup asks for a name: eight for each of two types of addresses.
const MAX_QUESTIONS_OF_NAME: usize = 16;

/// A resolver over a handle, with a cache.
///
/// A question is answered by the hosts where a lookup asks them, or else as one for a special-use name (RFC 6761), or from
/// the cache, or by the handle. Responses and negative answers of the handle are stored; other errors are not.
#[derive(Drop)]
pub struct Resolver<H> {
    settings: Settings,
    client: CachingClient<H>,
    alloc: Global,
}

impl<H> Resolver<H> {
    ghost use Rattle.std.specs.Borrow.{sem, Lends};
    ghost use Rattle.std.specs.Prelude.{◌-◌, min};
    ghost use Rattle.stub_core.specs.Resolver.{max_questions, with_handle};
    ghost use Rattle.stub_core.specs.ResolverBuilder.{default_settings};
    ghost use Rattle.stub_core.specs.contracts.resolver.Resolver.{the_row as resolver_row};

    /// Creates a builder of a resolver over a handle, with the default options and no hosts.
    pub fn builder_with_config(
        alloc: Global,
        config: ResolverConfig,
        handle: H,
    ) -> ResolverBuilder<H>
        ensures settings { result.settings ≡ default_settings config }
        ensures handle { result.handle ≡ handle }
    {
        ResolverBuilder::new(alloc, config, handle)
    }

    /// Returns the options.
    pub fn options(&self) -> &ResolverOpts
        ensures { result.now ≡ self.now.settings.options }
    {
        &self.settings.options
    }

    /// Sets the hosts, whatever the options say of them.
    pub fn set_hosts(&mut self, hosts: Hosts)
        ensures { self.new ≡ record self.old {
          settings = record self.old.settings { hosts = hosts };
        } }
    {
        self.settings.hosts = hosts;
    }

    /// Returns the handle.
    pub fn handle(&self) -> &H
        ensures { result.now ≡ self.now.client.handle }
    {
        self.client.handle()
    }

    /// Returns a mutable reference to the handle.
    pub fn handle_mut(&mut self) -> &mut H
        ensures value { result.now ≡ self.old.client.handle }
        ensures* lends { sem 𝓛 (Lends (resolver_row H.row) H.row self.entry result
            (with_handle self.old)) }
    {
        self.client.handle_mut()
    }

    /// Returns the handle, and drops the rest of the resolver.
    pub fn into_handle(self) -> H
        ensures { result ≡ self.client.handle }
    {
        self.client.into_handle()
    }

    /// Returns the maximum number of questions that a lookup asks the handle, which is at most `usize::MAX`.
    ///
    /// It attempts at most one name for each name of the search list and for the domain, and the name itself.
    pub fn max_questions(&self) -> usize
        ensures { result ≡ min (max_questions self.now.settings) (2 ^ 64 - 1) }
    {
        let max_names = self.settings.config.search().len().saturating_add(2);
        max_names.saturating_mul(MAX_QUESTIONS_OF_NAME)
    }
}

impl<H: DnsHandle> Resolver<H> {
    ghost use Rattle.std.specs.Prelude.{Ok};
    ghost use Rattle.stub_core.specs.Attempts.{UnlessMemory};
    ghost use Rattle.stub_core.specs.Resolver.{AnswersName, ResolvesName, asks_of};

    /// Looks up records of a type for a name, as it is or completed with the domain and the search list.
    ///
    /// The hosts are asked for the first of the names alone. A type is taken by its number. If a text is not a name, the error
    /// is [`NetError::Proto`].
    pub fn lookup<N: IntoName>(
        &mut self,
        name: N,
        record_type: RecordType,
        now: Moment,
    ) -> Result<Lookup, NetError>
        requires { now ≤ 2 ^ 62 }
        ensures { ResolvesName H.gives now (N.name name) record_type self.old result self.new }
    {
        let name = name.into_name(self.alloc)?;
        self.lookup_name(&name, record_type.canonical(), now)
    }

    /// Looks up records of a type, which is used as it is, for a name.
    fn lookup_name(
        &mut self,
        name: &Name,
        record_type: RecordType,
        now: Moment,
    ) -> Result<Lookup, NetError>
        requires { now ≤ 2 ^ 62 }
        ensures lookup { UnlessMemory (AnswersName self.old.settings now
            (asks_of H.gives now self.old) (Ok name.now) record_type self.old.client
            result self.new.client) self.old.client result self.new.client }
        ensures settings { self.new.settings ≡ self.old.settings }
    {
        let names = self.settings.names_for(self.alloc, name)?;
        let options = self.settings.request_options();
        lookup_names_with_hosts(
            names,
            record_type,
            options,
            &mut self.client,
            &self.settings.hosts,
            now,
        )
    }
}
