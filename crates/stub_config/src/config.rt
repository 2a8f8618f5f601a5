//! Configuration of a resolver: its domain, its search list and its name servers.

ghost use Rattle.std.specs.Prelude.{◌≡◌, ◌++◌, ◌∷◌, [], map, IfOk, IsOk, OnOk, OnErr, Some, None, option_copied};

mod connection;
mod name_server;
mod public_servers;
mod server_group;

pub use connection::{ConnectionConfig, Protocol, ProtocolConfig};
use dns_names::Name;
use dns_records::Sequence;
pub use name_server::NameServerConfig;
pub use public_servers::{PublicServers, cloudflare, google, quad9};
pub use server_group::{ServerGroup, ServerIter};
use std::alloc::{AllocError, Global};

/// The configuration of a resolver.
#[derive(Drop)]
pub struct ResolverConfig {
    /// The domain that a relative name is completed with first.
    pub domain: Option<Name>,
    /// The names that a relative name is completed with after the domain.
    pub search: Sequence<Name>,
    /// The name servers.
    pub name_servers: Sequence<NameServerConfig>,
}

impl ResolverConfig {
    ghost use Rattle.stub_config.specs.config.{config_of_servers, server_of, both_connections};

    /// Creates a configuration without domain, search list and name servers.
    pub fn default(alloc: Global) -> ResolverConfig
        ensures { result ≡ config_of_servers [] }
    {
        ResolverConfig {
            domain: None,
            search: Sequence::new(alloc),
            name_servers: Sequence::new(alloc),
        }
    }

    /// Creates a configuration with the servers of a group, each asked over UDP and TCP. A group without addresses takes
    /// no memory.
    pub fn udp_and_tcp(
        alloc: Global,
        config: &ServerGroup<'_>,
    ) -> Result<ResolverConfig, AllocError>
        ensures made { IfOk result (λ made.
            made ≡ config_of_servers (map (server_of both_connections) config.now.ips.now)) }
        ensures decided { config.now.ips.now ≡ [] → IsOk result }
    {
        let mut servers = Vec::new(alloc);
        for ip in config.ips {
            servers.push(NameServerConfig::udp_and_tcp(alloc, *ip)?)?;
        }
        Ok(ResolverConfig::from_name_servers(alloc, servers))
    }

    /// Creates a configuration from its parts.
    pub fn from_parts(
        domain: Option<Name>,
        search: Vec<Name>,
        name_servers: Vec<NameServerConfig>,
    ) -> ResolverConfig
        ensures { result ≡ record {
          domain = domain;
          search = search.items;
          name_servers = name_servers.items;
        } }
    {
        ResolverConfig {
            domain,
            search: Sequence::from_vec(search),
            name_servers: Sequence::from_vec(name_servers),
        }
    }

    /// Creates a configuration with name servers, without domain and search list.
    pub fn from_name_servers(alloc: Global, name_servers: Vec<NameServerConfig>) -> ResolverConfig
        ensures { result ≡ config_of_servers name_servers.items }
    {
        ResolverConfig::from_parts(None, Vec::new(alloc), name_servers)
    }

    /// Returns the domain, the search list and the name servers.
    pub fn into_parts(self) -> (Option<Name>, Vec<Name>, Vec<NameServerConfig>)
        ensures domain { result.0 ≡ self.domain }
        ensures search { result.1.items ≡ self.search }
        ensures name_servers { result.2.items ≡ self.name_servers }
    {
        (
            self.domain,
            self.search.into_vec(),
            self.name_servers.into_vec(),
        )
    }

    /// Returns the domain.
    pub fn domain(&self) -> Option<&Name>
        ensures { option_copied result ≡ self.now.domain }
    {
        self.domain.as_ref()
    }

    /// Sets the domain, which also becomes the only name of the search list.
    pub fn set_domain(&mut self, domain: Name) -> Result<(), AllocError>
        ensures ok { OnOk result (self.new ≡ record self.old {
          domain = Some domain;
          search = domain ∷ [];
        }) }
        ensures err { OnErr result (self.new ≡ self.old) }
    {
        only_name(&mut self.search, &domain)?;
        self.domain = Some(domain);
        Ok(())
    }

    /// Returns the search list.
    pub fn search(&self) -> &[Name]
        ensures { result.now ≡ self.now.search }
    {
        self.search.as_slice()
    }

    /// Adds a name to the search list.
    pub fn add_search(&mut self, search: Name) -> Result<(), AllocError>
        ensures ok { OnOk result (self.new ≡ record self.old {
          search = self.old.search ++ search ∷ [];
        }) }
        ensures err { OnErr result (self.new ≡ self.old) }
    {
        self.search.push(search)
    }

    /// Adds a name server.
    pub fn add_name_server(&mut self, name_server: NameServerConfig) -> Result<(), AllocError>
        ensures ok { OnOk result (self.new ≡ record self.old {
          name_servers = self.old.name_servers ++ name_server ∷ [];
        }) }
        ensures err { OnErr result (self.new ≡ self.old) }
    {
        self.name_servers.push(name_server)
    }

    /// Returns the name servers.
    pub fn name_servers(&self) -> &[NameServerConfig]
        ensures { result.now ≡ self.now.name_servers }
    {
        self.name_servers.as_slice()
    }
}

/// Replaces all names of a list by a copy of one.
fn only_name(names: &mut Sequence<Name>, name: &Name) -> Result<(), AllocError>
    ensures ok { OnOk result (names.new ≡ name.now ∷ []) }
    ensures err { OnErr result (names.new ≡ names.old) }
{
    let copy = name.clone()?;
    let old = names.take();
    if names.push(copy).is_err() {
        *names = old;
        // The list had no memory for the name.
        return Err(AllocError);
    }
    Ok(())
}
