//! The settings of a resolver.

ghost use Rattle.std.specs.Prelude.{◌≡◌, IfOk};

use crate::attempted_names::names_to_attempt;
use dns_names::Name;
use std::alloc::{AllocError, Global};
use stub_cache::{TtlBoundsError, TtlConfig};
use stub_config::{DnsRequestOptions, ResolveHosts, ResolverConfig, ResolverOpts};
use stub_hosts::Hosts;
use stub_lookup::NetError;

/// The greatest `ndots` with which a literal address is not looked up as a name: an IPv4 address has four labels.
const MAX_NDOTS_OF_LITERALS: usize = 4;

/// The configuration, the options and the hosts of a resolver.
#[derive(Drop)]
pub(crate) struct Settings {
    pub(crate) config: ResolverConfig,
    pub(crate) options: ResolverOpts,
    pub(crate) hosts: Hosts,
}

impl Settings {
    ghost use Rattle.stub_core.specs.Resolver.{names_for, request_options, tries_literals};
    ghost use Rattle.stub_core.specs.ResolverBuilder.{default_settings, sets_unsupported, supported_config, with_used_hosts};

    /// Creates settings with the default options and no hosts.
    pub(crate) fn new(alloc: Global, config: ResolverConfig) -> Settings
        ensures { result ≡ default_settings config }
    {
        Settings {
            config,
            options: ResolverOpts::default(alloc),
            hosts: Hosts::default(alloc),
        }
    }

    /// Returns the bounds of TTLs that the options set, or [`NetError::Unsupported`] if no resolver has such options.
    pub(crate) fn ttl_config(&self, alloc: Global) -> Result<TtlConfig, NetError>
        ensures { result ≡ supported_config self.now.options }
    {
        if self.sets_unsupported() {
            return Err(NetError::Unsupported);
        }
        match TtlConfig::from_opts(alloc, &self.options) {
            Ok(config) => Ok(config),
            Err(TtlBoundsError::MinimumAboveMaximum) => Err(NetError::Unsupported),
        }
    }

    /// Returns `true` if an option is set that no resolver supports.
    fn sets_unsupported(&self) -> bool
        ensures { result ≡ sets_unsupported self.now.options }
    {
        !self.options.deny_answers.is_empty()
            || self.options.case_randomization
            || self.options.trust_anchor.is_some()
    }

    /// Leaves the hosts out if the options say that they are never looked up.
    pub(crate) fn with_used_hosts(self, alloc: Global) -> Settings
        ensures { result ≡ with_used_hosts self }
    {
        match self.options.use_hosts_file {
            ResolveHosts::Never => Settings {
                hosts: Hosts::default(alloc),
                ..self
            },
            _ => self,
        }
    }

    /// Returns the names that a lookup of a name attempts, in order.
    pub(crate) fn names_for(&self, alloc: Global, name: &Name) -> Result<Vec<Name>, AllocError>
        ensures { IfOk result (λ names. names.items ≡ names_for self.now name.now) }
    {
        names_to_attempt(
            alloc,
            name,
            self.options.ndots,
            self.config.domain(),
            self.config.search(),
        )
    }

    /// Returns the options of the resolver's requests.
    pub(crate) fn request_options(&self) -> DnsRequestOptions
        ensures { result ≡ request_options self.now.options }
    {
        DnsRequestOptions {
            use_edns: self.options.edns0,
            edns_payload_len: self.options.edns_payload_len,
            edns_set_dnssec_ok: false,
            recursion_desired: self.options.recursion_desired,
        }
    }

    /// Returns `true` if a literal address that is also a name is looked up as one.
    pub(crate) fn tries_literals(&self) -> bool
        ensures { result ≡ tries_literals self.now }
    {
        self.options.ndots > MAX_NDOTS_OF_LITERALS
    }
}
