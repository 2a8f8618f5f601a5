//! Name servers.

ghost use Rattle.std.specs.Prelude.{◌≡◌, ◌∷◌, [], IfOk};
ghost use Rattle.stub_config.specs.config.{both_connections, server_of, tcp_connection, udp_connection};

use super::connection::ConnectionConfig;
use dns_records::Sequence;
use std::alloc::{AllocError, Global};
use std::net::IpAddr;

/// A name server, and how it is reached.
#[derive(Drop)]
pub struct NameServerConfig {
    /// The address of the server.
    pub ip: IpAddr,
    /// Whether the resolver believes the server that a name does not exist, or has no records of a type.
    pub trust_negative_responses: bool,
    /// The connections, in the order in which they are tried.
    pub connections: Sequence<ConnectionConfig>,
}

impl NameServerConfig {
    /// Creates a name server with connections.
    pub fn new(
        ip: IpAddr,
        trust_negative_responses: bool,
        connections: Vec<ConnectionConfig>,
    ) -> NameServerConfig
        ensures { result ≡ record {
          ip = ip;
          trust_negative_responses = trust_negative_responses;
          connections = connections.items;
        } }
    {
        NameServerConfig {
            ip,
            trust_negative_responses,
            connections: Sequence::from_vec(connections),
        }
    }

    /// Creates a name server that is asked over UDP, and whose negative responses are trusted.
    pub fn udp(alloc: Global, ip: IpAddr) -> Result<NameServerConfig, AllocError>
        ensures { IfOk result (λ server. server ≡ server_of udp_connection ip) }
    {
        let mut connections = Sequence::new(alloc);
        connections.push(ConnectionConfig::udp())?;
        Ok(NameServerConfig::trusted(ip, connections))
    }

    /// Creates a name server that is asked over TCP, and whose negative responses are trusted.
    pub fn tcp(alloc: Global, ip: IpAddr) -> Result<NameServerConfig, AllocError>
        ensures { IfOk result (λ server. server ≡ server_of tcp_connection ip) }
    {
        let mut connections = Sequence::new(alloc);
        connections.push(ConnectionConfig::tcp())?;
        Ok(NameServerConfig::trusted(ip, connections))
    }

    /// Creates a name server that is asked over UDP first and then over TCP, and whose negative responses are trusted.
    pub fn udp_and_tcp(alloc: Global, ip: IpAddr) -> Result<NameServerConfig, AllocError>
        ensures { IfOk result (λ server. server ≡ server_of both_connections ip) }
    {
        let mut connections = Sequence::new(alloc);
        connections.push(ConnectionConfig::udp())?;
        connections.push(ConnectionConfig::tcp())?;
        Ok(NameServerConfig::trusted(ip, connections))
    }

    /// Creates a name server whose negative responses are trusted.
    fn trusted(ip: IpAddr, connections: Sequence<ConnectionConfig>) -> NameServerConfig
        ensures { result ≡ server_of connections ip }
    {
        NameServerConfig {
            ip,
            trust_negative_responses: true,
            connections,
        }
    }
}
