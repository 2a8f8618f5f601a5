//! What builds a resolver.

ghost use Rattle.std.specs.Prelude.{◌≡◌, true, false, IsErrOf, IsOkAnd};

use super::Resolver;
use super::settings::Settings;
use std::alloc::Global;
use stub_cache::ResponseCache;
use stub_client::{CachingClient, DnsHandle};
use stub_config::{ResolverConfig, ResolverOpts};
use stub_hosts::Hosts;
use stub_lookup::NetError;

/// Builds a [`Resolver`] over a handle from a configuration, options and hosts.
#[derive(Drop)]
pub struct ResolverBuilder<H> {
    pub(crate) settings: Settings,
    pub(crate) handle: H,
    alloc: Global,
}

impl<H> ResolverBuilder<H> {
    ghost use Rattle.std.specs.Borrow.{sem, Lends};
    ghost use Rattle.stub_config.specs.contracts.options.ResolverOpts.{the_row as options_row};
    ghost use Rattle.stub_core.specs.ResolverBuilder.{default_settings, with_options};
    ghost use Rattle.stub_core.specs.contracts.resolver.builder.ResolverBuilder.{the_row as builder_row};

    /// Creates a builder with the default options and no hosts.
    pub(crate) fn new(alloc: Global, config: ResolverConfig, handle: H) -> ResolverBuilder<H>
        ensures settings { result.settings ≡ default_settings config }
        ensures handle { result.handle ≡ handle }
    {
        ResolverBuilder {
            settings: Settings::new(alloc, config),
            handle,
            alloc,
        }
    }

    /// Sets all options.
    pub fn with_options(mut self, options: ResolverOpts) -> ResolverBuilder<H>
        ensures { result ≡ record self {
          settings = record self.settings { options = options };
        } }
    {
        self.settings.options = options;
        self
    }

    /// Returns a mutable reference to the options.
    pub fn options_mut(&mut self) -> &mut ResolverOpts
        ensures value { result.now ≡ self.old.settings.options }
        ensures* lends { sem 𝓛 (Lends (builder_row H.row) options_row self.entry result
            (with_options self.old)) }
    {
        let settings = &mut self.settings;
        &mut settings.options
    }

    /// Sets the hosts.
    pub fn with_hosts(mut self, hosts: Hosts) -> ResolverBuilder<H>
        ensures { result ≡ record self {
          settings = record self.settings { hosts = hosts };
        } }
    {
        self.settings.hosts = hosts;
        self
    }
}

impl<H: DnsHandle + Drop> ResolverBuilder<H> {
    ghost use Rattle.stub_core.specs.ResolverBuilder.{Builds, is_unsupported};

    /// Builds the resolver. Its cache is empty. If the options say that hosts are never looked up, it has none.
    ///
    /// The error is [`NetError::Unsupported`] if `deny_answers` is not empty, `case_randomization` is set, `trust_anchor`
    /// is given, or a minimum TTL is above its maximum. There is no other error.
    pub fn build(self) -> Result<Resolver<H>, NetError>
        ensures unsupported { is_unsupported self.settings.options ≡ true
            → IsErrOf result NetError.Unsupported }
        ensures supported { is_unsupported self.settings.options ≡ false
            → IsOkAnd result (λ resolver. Builds self resolver) }
    {
        let alloc = self.alloc;
        let ttl_config = self.settings.ttl_config(alloc)?;
        let cache_size = self.settings.options.cache_size;
        let preserve_intermediates = self.settings.options.preserve_intermediates;
        let cache = ResponseCache::new(alloc, cache_size, ttl_config);
        Ok(Resolver {
            settings: self.settings.with_used_hosts(alloc),
            client: CachingClient::with_cache(alloc, cache, self.handle, preserve_intermediates),
            alloc,
        })
    }
}
