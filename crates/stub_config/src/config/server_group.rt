//! Groups of name servers, and iterators over them.

ghost use Rattle.std.specs.Prelude.{◌≡◌, map};
ghost use Rattle.std.specs.Iterator.{item_count};
ghost use Rattle.stub_config.specs.config.{both_connections, server_of, tcp_connection, udp_connection};

use super::name_server::NameServerConfig;
use std::alloc::{AllocError, Global};
use std::marker::Model;
use std::net::IpAddr;

/// The name servers of one provider.
#[derive(Clone, Copy)]
pub struct ServerGroup<'a> {
    /// The addresses.
    pub ips: &'a [IpAddr],
    /// The name of the servers.
    pub server_name: &'a str,
    /// The path of requests over HTTPS, which no function here makes.
    pub path: &'a str,
}

/// The protocols that servers are asked over.
#[derive(Clone, Copy, Debug, PartialEq, Eq)]
enum Protocols {
    Udp,
    Tcp,
    UdpAndTcp,
}

/// An iterator over the servers of a group, in the order of their addresses.
///
/// An item is an error if memory runs out for that server. The next item is then the next server.
#[derive(Drop)]
pub struct ServerIter<'a> {
    ips: &'a [IpAddr],
    protocols: Protocols,
    alloc: Global,
}

impl<'a> Model for ServerIter<'a> {
    ghost use Rattle.std.specs.Prelude.{List, map};
    ghost use Rattle.stub_config.specs.declared.config.name_server.NameServerConfig.{NameServerConfig};

    ghost Value = { List NameServerConfig };

    ghost use Rattle.stub_config.specs.config.{server_of};
    ghost use Rattle.stub_config.specs.config.ServerGroup.{connections_of};

    ghost view = { λ it. map (server_of (connections_of it.protocols)) it.ips.now };
}

impl<'a> ServerGroup<'a> {
    /// Returns the servers, each asked over UDP.
    pub fn udp(&self, alloc: Global) -> ServerIter<'a>
        ensures { result ≡ map (server_of udp_connection) self.now.ips.now }
    {
        ServerIter {
            ips: self.ips,
            protocols: Protocols::Udp,
            alloc,
        }
    }

    /// Returns the servers, each asked over TCP.
    pub fn tcp(&self, alloc: Global) -> ServerIter<'a>
        ensures { result ≡ map (server_of tcp_connection) self.now.ips.now }
    {
        ServerIter {
            ips: self.ips,
            protocols: Protocols::Tcp,
            alloc,
        }
    }

    /// Returns the servers, each asked over UDP first and then over TCP.
    pub fn udp_and_tcp(&self, alloc: Global) -> ServerIter<'a>
        ensures { result ≡ map (server_of both_connections) self.now.ips.now }
    {
        ServerIter {
            ips: self.ips,
            protocols: Protocols::UdpAndTcp,
            alloc,
        }
    }
}

impl<'a> Iterator for ServerIter<'a> {
    // The error is want of memory for that server.
    type Item = Result<NameServerConfig, AllocError>;

    ghost use Rattle.stub_config.specs.config.ServerGroup.{GivesServer};

    ghost next_gives = { GivesServer };

    ghost remaining = { item_count (λ rest. rest) };

    fn next(&mut self) -> Option<Result<NameServerConfig, AllocError>> {
        let (ip, others) = self.ips.split_first()?;
        self.ips = others;
        Some(server_over(self.alloc, self.protocols, *ip))
    }
}

ghost use Rattle.std.specs.Prelude.{IfOk};
ghost use Rattle.stub_config.specs.config.ServerGroup.{connections_of};

/// Creates a name server that is asked over these protocols.
fn server_over(
    alloc: Global,
    protocols: Protocols,
    ip: IpAddr,
) -> Result<NameServerConfig, AllocError>
    ensures { IfOk result (λ server. server ≡ server_of (connections_of protocols) ip) }
{
    match protocols {
        Protocols::Udp => NameServerConfig::udp(alloc, ip),
        Protocols::Tcp => NameServerConfig::tcp(alloc, ip),
        Protocols::UdpAndTcp => NameServerConfig::udp_and_tcp(alloc, ip),
    }
}
