//! The configuration and the options of the resolver.

ghost use Rattle.std.specs.Prelude.{◌≡◌, IfOk, map};
ghost use Rattle.std.specs.Option.{option_copied};
ghost use Rattle.stub_servers.specs.resolv_conf.Conf.{IsConfOf};
ghost use Rattle.stub_servers.specs.declared.resolv_conf.conf.SystemConf.{SystemConf};
ghost use Rattle.lookup_cli.specs.Settings.{at_port, conf_path, config_by, options_by, server_at, with_search, with_servers};

use crate::arguments::Arguments;
use std::alloc::{AllocError, Global};
use std::net::SocketAddr;
use stub_config::{
    ConnectionConfig, NameServerConfig, ResolverConfig, ResolverOpts, ServerOrderingStrategy,
};
use stub_servers::resolv_conf::{SystemConf, parse_resolv_conf};

/// The path of the configuration of the system.
const SYSTEM_CONF: &str = "/etc/resolv.conf";

/// Returns the path of the configuration that is read if the arguments name none. With a server among the arguments it is none.
pub fn default_conf_path(arguments: &Arguments) -> Option<&'static str>
    ensures { option_copied result ≡ conf_path arguments.now }
{
    if arguments.servers.is_empty() {
        Some(SYSTEM_CONF)
    } else {
        None
    }
}

/// Returns the configuration and the options of the resolver: those of the text of a configuration, with what the arguments say
/// in place of what it says.
///
/// Requests have an OPT record unless the arguments forbid it, whatever the text says.
pub fn settings_of(
    alloc: Global,
    arguments: &Arguments,
    text: &[u8],
) -> Result<SystemConf, AllocError>
    ensures { IfOk result (λ conf. (read : SystemConf) × IsConfOf text.now read
        × (conf.options ≡ options_by arguments.now read.options)
        × (conf.config ≡ config_by arguments.now read.config)) }
{
    let SystemConf {
        config,
        mut options,
    } = parse_resolv_conf(alloc, text)?;
    set_options(arguments, &mut options);
    Ok(SystemConf {
        config: config_of(alloc, arguments, config)?,
        options,
    })
}

/// Sets the options that the arguments give. Aliases are left out of answers.
fn set_options(arguments: &Arguments, options: &mut ResolverOpts)
    ensures { options.new ≡ options_by arguments.now options.old }
{
    options.ndots = arguments.ndots.unwrap_or(options.ndots);
    options.attempts = arguments.attempts.unwrap_or(options.attempts);
    options.ip_strategy = arguments.strategy.unwrap_or(options.ip_strategy);
    options.edns0 = arguments.edns;
    options.preserve_intermediates = false;
    if arguments.rotate {
        options.server_ordering_strategy = ServerOrderingStrategy::RoundRobin;
    }
    if !arguments.cache {
        options.cache_size = 0;
    }
}

/// Returns a configuration with the servers and the search list of the arguments, if they have any.
fn config_of(
    alloc: Global,
    arguments: &Arguments,
    config: ResolverConfig,
) -> Result<ResolverConfig, AllocError>
    ensures { IfOk result (λ other. other ≡ config_by arguments.now config) }
{
    with_search(arguments, with_servers(alloc, arguments, config)?)
}

/// Returns a configuration with the servers of the arguments in place of its own, if there are any.
fn with_servers(
    alloc: Global,
    arguments: &Arguments,
    config: ResolverConfig,
) -> Result<ResolverConfig, AllocError>
    ensures { IfOk result (λ other. other ≡ with_servers arguments.now config) }
{
    if arguments.servers.is_empty() {
        return Ok(config);
    }
    let servers = servers_at(alloc, arguments.servers.as_slice())?;
    let (domain, search, _servers) = config.into_parts();
    Ok(ResolverConfig::from_parts(domain, search, servers))
}

/// Returns a configuration with the search list of the arguments in place of its own and of its domain, if they have one.
fn with_search(arguments: &Arguments, config: ResolverConfig) -> Result<ResolverConfig, AllocError>
    ensures { IfOk result (λ other. other ≡ with_search arguments.now config) }
{
    if arguments.search.is_empty() {
        return Ok(config);
    }
    let search = arguments.search.clone()?;
    let (_domain, _search, servers) = config.into_parts();
    Ok(ResolverConfig::from_parts(None, search, servers))
}

/// Returns the servers at addresses.
fn servers_at(alloc: Global, addresses: &[SocketAddr]) -> Result<Vec<NameServerConfig>, AllocError>
    ensures { IfOk result (λ servers. servers.items ≡ map server_at addresses.now) }
{
    let mut servers = Vec::new(alloc);
    for address in addresses {
        servers.push(server_at(alloc, *address)?)?;
    }
    Ok(servers)
}

/// Returns the server at an address, which is asked over UDP and then over TCP.
fn server_at(alloc: Global, address: SocketAddr) -> Result<NameServerConfig, AllocError>
    ensures { IfOk result (λ server. server ≡ server_at address) }
{
    let mut connections = Vec::with_capacity(alloc, 2)?;
    connections.push(at_port(address.port(), ConnectionConfig::udp()))?;
    connections.push(at_port(address.port(), ConnectionConfig::tcp()))?;
    Ok(NameServerConfig::new(address.ip(), true, connections))
}

/// Returns a connection to another port.
fn at_port(port: u16, connection: ConnectionConfig) -> ConnectionConfig
    ensures { result ≡ at_port port connection }
{
    ConnectionConfig { port, ..connection }
}
