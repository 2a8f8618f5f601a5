//! How a name server is reached.

ghost use Rattle.std.specs.Prelude.{◌≡◌};
ghost use Rattle.stub_config.specs.config.Connection.{connection_of, port_of, protocol_of};

use std::net::SocketAddr;

/// A protocol that carries messages.
#[derive(Clone, Copy, Debug, PartialEq, Eq)]
pub enum Protocol {
    /// Datagrams (RFC 1035 section 4.2.1).
    Udp,
    /// A stream (RFC 1035 section 4.2.2, RFC 7766).
    Tcp,
}

/// The protocol of a connection, with what it needs.
#[derive(Clone, Copy, Debug, PartialEq, Eq)]
pub enum ProtocolConfig {
    /// Datagrams (RFC 1035 section 4.2.1).
    Udp,
    /// A stream (RFC 1035 section 4.2.2, RFC 7766).
    Tcp,
}

impl Default for ProtocolConfig {
    ghost use Rattle.std.specs.Prelude.{◌≡◌};
    ghost use Rattle.stub_config.specs.declared.config.connection.ProtocolConfig.TheVariants.{Udp};

    ghost is_default = { λ protocol. protocol ≡ Udp };

    fn default() -> ProtocolConfig {
        ProtocolConfig::Udp
    }
}

impl ProtocolConfig {
    /// Returns the protocol.
    pub fn to_protocol(&self) -> Protocol
        ensures { result ≡ protocol_of self.now }
    {
        match self {
            ProtocolConfig::Udp => Protocol::Udp,
            ProtocolConfig::Tcp => Protocol::Tcp,
        }
    }

    /// Returns the port that servers listen on by default: 53 for both protocols (RFC 1035 section 4.2).
    pub fn default_port(&self) -> u16
        ensures { result ≡ port_of self.now }
    {
        match self {
            ProtocolConfig::Udp => 53,
            ProtocolConfig::Tcp => 53,
        }
    }
}

/// A connection to a name server.
#[derive(Clone, Copy, Debug, PartialEq, Eq)]
pub struct ConnectionConfig {
    /// The port of the server.
    pub port: u16,
    /// The protocol.
    pub protocol: ProtocolConfig,
    /// The local address to connect from, or `None` to leave it to the system. No function here uses it.
    pub bind_addr: Option<SocketAddr>,
}

impl ConnectionConfig {
    ghost use Rattle.stub_config.specs.declared.config.connection.ProtocolConfig.TheVariants as protocols;

    /// Creates a connection to the default port of a protocol.
    pub fn new(protocol: ProtocolConfig) -> ConnectionConfig
        ensures { result ≡ connection_of protocol }
    {
        ConnectionConfig {
            port: protocol.default_port(),
            protocol,
            bind_addr: None,
        }
    }

    /// Creates a connection over UDP.
    pub fn udp() -> ConnectionConfig
        ensures { result ≡ connection_of protocols.Udp }
    {
        ConnectionConfig::new(ProtocolConfig::Udp)
    }

    /// Creates a connection over TCP.
    pub fn tcp() -> ConnectionConfig
        ensures { result ≡ connection_of protocols.Tcp }
    {
        ConnectionConfig::new(ProtocolConfig::Tcp)
    }
}
