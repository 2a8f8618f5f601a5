//! The configuration of a text.

ghost use Rattle.std.specs.Prelude.{◌≡◌, IfOk, map};
ghost use Rattle.stub_config.specs.config.{server_of};
ghost use Rattle.stub_servers.specs.resolv_conf.Conf.{conf_of, config_of, connections_of, ordering_of, resolver_options, servers_or_localhost, IsConfOf};

use crate::resolv_conf::options::ConfOptions;
use crate::resolv_conf::settings::Settings;
use std::alloc::{AllocError, Global};
use std::net::{IpAddr, Ipv4Addr};
use stub_config::{NameServerConfig, ResolverConfig, ResolverOpts, ServerOrderingStrategy};

/// The configuration of the system's resolver, and its options.
#[derive(Drop)]
pub struct SystemConf {
    /// The search list and the name servers.
    pub config: ResolverConfig,
    /// The options.
    pub options: ResolverOpts,
}

/// Parses the text of a resolv.conf(5) file, whose keywords the crate's documentation lists. Every text has a configuration, so the
/// only error is want of memory.
///
/// This is how a [`ResolverConfig`] is made from such a file: the type is in a crate below, so that it has no method for it.
///
/// - Each name server is asked over UDP and then over TCP, with `use-vc` over TCP alone, on port 53. If there is none, the server
///   at 127.0.0.1 is asked.
/// - The last line with `domain` or `search` sets the search list. Its names are fully qualified. The field `domain` of the
///   configuration is `None`, so that no name is completed with the same name twice. Without such a line the list is empty: the
///   domain of the host's name is not known here.
/// - The options are those of [`ResolverOpts::default`], except for those of the text, for `edns0`, which is `false` unless the text
///   has it, and for the order of the servers, which is that of their lines unless the text has `rotate`.
///
/// The variables `LOCALDOMAIN` and `RES_OPTIONS` of the environment have no effect.
pub fn parse_resolv_conf(alloc: Global, text: &[u8]) -> Result<SystemConf, AllocError>
    ensures { IfOk result (IsConfOf text.now) }
{
    let mut settings = Settings::new(alloc);
    settings.set_all(alloc, text)?;
    conf_of(alloc, settings)
}

/// Returns the configuration of settings.
fn conf_of(alloc: Global, settings: Settings) -> Result<SystemConf, AllocError>
    ensures { IfOk result (λ conf. conf ≡ conf_of settings) }
{
    let options = settings.options;
    let servers = servers_of(alloc, settings.servers.as_slice(), options.use_vc)?;
    Ok(SystemConf {
        config: ResolverConfig::from_parts(None, settings.search.into_vec(), servers),
        options: resolver_options(alloc, options),
    })
}

/// Returns the name servers at addresses, or that of the local host without any.
fn servers_of(
    alloc: Global,
    addresses: &[IpAddr],
    use_vc: bool,
) -> Result<Vec<NameServerConfig>, AllocError>
    ensures { IfOk result (λ servers. servers.items
        ≡ map (server_of (connections_of use_vc)) (servers_or_localhost addresses.now)) }
{
    match addresses {
        [] => servers_at(alloc, &[IpAddr::V4(Ipv4Addr::LOCALHOST)], use_vc),
        addresses => servers_at(alloc, addresses, use_vc),
    }
}

/// Returns the name servers at addresses.
fn servers_at(
    alloc: Global,
    addresses: &[IpAddr],
    use_vc: bool,
) -> Result<Vec<NameServerConfig>, AllocError>
    ensures { IfOk result (λ servers. servers.items
        ≡ map (server_of (connections_of use_vc)) addresses.now) }
{
    let mut servers = Vec::new(alloc);
    for address in addresses {
        servers.push(server_at(alloc, *address, use_vc)?)?;
    }
    Ok(servers)
}

/// Returns the name server at an address.
fn server_at(alloc: Global, address: IpAddr, use_vc: bool) -> Result<NameServerConfig, AllocError>
    ensures { IfOk result (λ server. server ≡ server_of (connections_of use_vc) address) }
{
    if use_vc {
        NameServerConfig::tcp(alloc, address)
    } else {
        NameServerConfig::udp_and_tcp(alloc, address)
    }
}

/// Returns the options of a resolver.
fn resolver_options(alloc: Global, options: ConfOptions) -> ResolverOpts
    ensures { result ≡ resolver_options options }
{
    let mut resolver_options = ResolverOpts::default(alloc);
    resolver_options.ndots = options.ndots;
    resolver_options.timeout = options.timeout as u64;
    resolver_options.attempts = options.attempts;
    resolver_options.edns0 = options.edns0;
    resolver_options.server_ordering_strategy = ordering_of(options.rotate);
    resolver_options
}

/// Returns the order in which servers are asked.
fn ordering_of(rotate: bool) -> ServerOrderingStrategy
    ensures { result ≡ ordering_of rotate }
{
    if rotate {
        ServerOrderingStrategy::RoundRobin
    } else {
        ServerOrderingStrategy::UserProvidedOrder
    }
}
