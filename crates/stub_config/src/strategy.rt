//! Choices between ways to look up.

/// Which types of addresses a lookup of addresses asks for, and in which order.
#[derive(Clone, Copy, Debug, PartialEq, Eq)]
pub enum LookupIpStrategy {
    /// `A` records only.
    Ipv4Only,
    /// `AAAA` records only.
    Ipv6Only,
    /// Both, with `A` records first.
    Ipv4AndIpv6,
    /// Both, with `AAAA` records first.
    Ipv6AndIpv4,
    /// `AAAA` records, or `A` records if there are none.
    Ipv6thenIpv4,
    /// `A` records, or `AAAA` records if there are none.
    Ipv4thenIpv6,
}

impl Default for LookupIpStrategy {
    ghost use Rattle.std.specs.Prelude.{◌≡◌};
    ghost use Rattle.stub_config.specs.declared.strategy.LookupIpStrategy.TheVariants.{Ipv6AndIpv4};

    ghost is_default = { λ strategy. strategy ≡ Ipv6AndIpv4 };

    fn default() -> LookupIpStrategy {
        LookupIpStrategy::Ipv6AndIpv4
    }
}

/// The order in which name servers are asked.
#[derive(Clone, Copy, Debug, PartialEq, Eq)]
pub enum ServerOrderingStrategy {
    /// The fastest first. No response times are measured here, so this is the order of the configuration.
    QueryStatistics,
    /// The order of the configuration.
    UserProvidedOrder,
    /// In turn.
    RoundRobin,
}

impl Default for ServerOrderingStrategy {
    ghost use Rattle.std.specs.Prelude.{◌≡◌};
    ghost use Rattle.stub_config.specs.declared.strategy.ServerOrderingStrategy.TheVariants.{QueryStatistics};

    ghost is_default = { λ strategy. strategy ≡ QueryStatistics };

    fn default() -> ServerOrderingStrategy {
        ServerOrderingStrategy::QueryStatistics
    }
}

/// Whether hosts are looked up before servers are asked.
#[derive(Clone, Copy, Debug, PartialEq, Eq)]
pub enum ResolveHosts {
    /// Always.
    Always,
    /// Never.
    Never,
    /// As the resolver decides, which looks them up.
    Auto,
}

impl Default for ResolveHosts {
    ghost use Rattle.std.specs.Prelude.{◌≡◌};
    ghost use Rattle.stub_config.specs.declared.strategy.ResolveHosts.TheVariants.{Auto};

    ghost is_default = { λ choice. choice ≡ Auto };

    fn default() -> ResolveHosts {
        ResolveHosts::Auto
    }
}
