//! Servers, as a configuration has them.

ghost use Rattle.std.specs.Prelude.{◌≡◌};
ghost use Rattle.stub_servers.specs.Server.{address_over, is_over, no_server, same_protocol, server_of, socket_addr};

use std::net::{IpAddr, SocketAddr};
use stub_config::{ConnectionConfig, NameServerConfig, Protocol};

/// A name server, and the addresses at which it is asked.
#[derive(Clone, Copy, Debug, PartialEq, Eq)]
pub struct Server {
    /// The address for datagrams, if the server is asked over UDP (RFC 1035 section 4.2.1).
    pub udp: Option<SocketAddr>,
    /// The address for streams, if the server is asked over TCP (RFC 1035 section 4.2.2).
    pub tcp: Option<SocketAddr>,
    /// Whether the resolver believes the server that a name does not exist, or has no records of a type.
    pub trust_negative_responses: bool,
}

impl Server {
    /// Returns a server without an address, which cannot be asked.
    pub fn none() -> Server
        ensures { result ≡ no_server }
    {
        Server {
            udp: None,
            tcp: None,
            trust_negative_responses: true,
        }
    }

    /// Returns the server of a configuration, at the address and port of its first connection of each protocol, or
    /// `None` if it has no connection.
    pub fn from_config(config: &NameServerConfig) -> Option<Server>
        ensures { result ≡ server_of config.now }
    {
        let udp = address_over(Protocol::Udp, config);
        let tcp = address_over(Protocol::Tcp, config);
        if udp.is_none() && tcp.is_none() {
            return None;
        }
        Some(Server {
            udp,
            tcp,
            trust_negative_responses: config.trust_negative_responses,
        })
    }
}

/// Returns the address and port of the first connection of a protocol.
fn address_over(protocol: Protocol, config: &NameServerConfig) -> Option<SocketAddr>
    ensures { result ≡ address_over protocol config.now }
{
    match config
        .connections
        .as_slice()
        .iter()
        .find(|c| is_over(protocol, c))
    {
        Some(connection) => Some(socket_addr(config.ip, connection.port)),
        None => None,
    }
}

/// Returns `true` if a connection is of a protocol.
fn is_over(protocol: Protocol, connection: &ConnectionConfig) -> bool
    ensures { result ≡ is_over protocol connection.now }
{
    same_protocol(connection.protocol.to_protocol(), protocol)
}

/// Returns `true` if protocols are the same.
fn same_protocol(one: Protocol, other: Protocol) -> bool
    ensures { result ≡ same_protocol one other }
{
    match (one, other) {
        (Protocol::Udp, Protocol::Udp) | (Protocol::Tcp, Protocol::Tcp) => true,
        (Protocol::Udp, Protocol::Tcp) | (Protocol::Tcp, Protocol::Udp) => false,
    }
}

/// Returns the socket address of an address and a port.
fn socket_addr(ip: IpAddr, port: u16) -> SocketAddr
    ensures { result ≡ socket_addr ip port }
{
    SocketAddr::new(ip, port)
}
