//! The servers of a resolver, and what it is told of them.

ghost use Rattle.std.specs.Prelude.{◌≡◌, IfErr, IfOk};
ghost use Rattle.api.specs.lookups.Servers.{AreNoServers, AreServers, options_of, server_of};

use crate::lookups::endpoint::{ENDPOINT_LEN, endpoint_of};
use crate::lookups::refusal::LookupRefusal;
use std::alloc::{AllocError, Global};
use std::net::SocketAddr;
use stub_config::{ConnectionConfig, NameServerConfig, ResolverConfig, ResolverOpts};

/// Returns the configuration of the servers at addresses with ports, each of [`ENDPOINT_LEN`] bytes.
///
/// # Errors
///
/// - [`LookupRefusal::Endpoint`] if the number of bytes is not a multiple of that;
/// - [`LookupRefusal::Memory`] if memory is refused.
pub(crate) fn config_of(alloc: Global, servers: &[u8]) -> Result<ResolverConfig, LookupRefusal>
    ensures servers { IfOk result (AreServers servers.now) }
    ensures refused { IfErr result (AreNoServers servers.now) }
{
    if servers.len() % ENDPOINT_LEN != 0 {
        return Err(LookupRefusal::Endpoint);
    }
    let mut found = Vec::new(alloc);
    for place in 0..servers.len() / ENDPOINT_LEN {
        let start = place * ENDPOINT_LEN;
        let address = endpoint_of(&servers[start..start + ENDPOINT_LEN]);
        found.push(server_at(alloc, address)?)?;
    }
    Ok(ResolverConfig::from_name_servers(alloc, found))
}

/// Returns the server at an address and a port, which is asked over UDP and then over TCP.
fn server_at(alloc: Global, address: SocketAddr) -> Result<NameServerConfig, AllocError>
    ensures { IfOk result (λ server. server ≡ server_of address) }
{
    let (mut udp, mut tcp) = (ConnectionConfig::udp(), ConnectionConfig::tcp());
    udp.port = address.port();
    tcp.port = address.port();
    let mut connections = Vec::new(alloc);
    connections.push(udp)?;
    connections.push(tcp)?;
    Ok(NameServerConfig::new(address.ip(), true, connections))
}

/// Returns the options of a resolver that makes so many rounds through its servers, and caches so many responses.
pub(crate) fn options_of(alloc: Global, attempts: u32, cache_size: u32) -> ResolverOpts
    ensures { result ≡ options_of attempts cache_size }
{
    let mut options = ResolverOpts::default(alloc);
    options.attempts = attempts as usize;
    options.cache_size = u64::from(cache_size);
    options
}
