//! Lookups of the addresses of hosts.

ghost use Rattle.std.specs.Prelude.{◌≡◌, ◌≤◌, ◌^◌};

use super::Resolver;
use super::literal::{address_data, literal_lookup, lookup_without_name};
use crate::strategies::lookup_ip_names;
use dns_data::RData;
use dns_names::Name;
use dns_text::IntoName;
use std::net::IpAddr;
use stub_client::DnsHandle;
use stub_lookup::{LookupIp, Moment, NetError};

impl<H: DnsHandle> Resolver<H> {
    ghost use Rattle.std.specs.Prelude.{Ok, Some};
    ghost use Rattle.stub_core.specs.Attempts.{UnlessMemory};
    ghost use Rattle.stub_core.specs.Resolver.{LooksUpHost, LooksUpName, ResolvesHost, asks_of};

    /// Looks up the addresses of a host, by the strategy of the options. The hosts are asked for each name and type.
    ///
    /// A literal address is returned at once, with a TTL of [`MAX_TTL`](stub_lookup::MAX_TTL). But an IPv4 address is a name of
    /// four labels, too: if `ndots` is above 4, it is looked up as one, and the address itself is returned if none is found.
    /// If a text is neither an address nor a name, the error is [`NetError::Proto`].
    pub fn lookup_ip<N: IntoName>(&mut self, host: N, now: Moment) -> Result<LookupIp, NetError>
        requires { now ≤ 2 ^ 62 }
        ensures { ResolvesHost H.gives now (N.is_ip host) (N.name host) self.old
            result self.new }
    {
        let address = host.to_ip();
        match host.into_name(self.alloc) {
            Ok(name) => self.lookup_host(name, address, now),
            Err(error) => lookup_without_name(self.alloc, error, address, now),
        }
    }

    /// Looks up the addresses of a name, which may also be a literal address.
    fn lookup_host(
        &mut self,
        name: Name,
        address: Option<IpAddr>,
        now: Moment,
    ) -> Result<LookupIp, NetError>
        requires { now ≤ 2 ^ 62 }
        ensures lookup { LooksUpHost self.old.settings now (asks_of H.gives now self.old) address
            (Ok name) self.old.client result self.new.client }
        ensures settings { self.new.settings ≡ self.old.settings }
    {
        match address {
            Some(address) => self.lookup_literal(name, address, now),
            None => self.lookup_addresses(&name, None, now),
        }
    }

    /// Looks up the addresses of a name that is a literal address.
    fn lookup_literal(
        &mut self,
        name: Name,
        address: IpAddr,
        now: Moment,
    ) -> Result<LookupIp, NetError>
        requires { now ≤ 2 ^ 62 }
        ensures lookup { LooksUpHost self.old.settings now (asks_of H.gives now self.old)
            (Some address) (Ok name) self.old.client result
            self.new.client }
        ensures settings { self.new.settings ≡ self.old.settings }
    {
        if self.settings.tries_literals() {
            return self.lookup_addresses(&name, Some(address_data(address)), now);
        }
        let lookup = literal_lookup(self.alloc, name, address, now)?;
        Ok(LookupIp::from(lookup))
    }

    /// Looks up the addresses of a name, with an address that is returned where there are none.
    fn lookup_addresses(
        &mut self,
        name: &Name,
        finally_ip_addr: Option<RData>,
        now: Moment,
    ) -> Result<LookupIp, NetError>
        requires { now ≤ 2 ^ 62 }
        ensures lookup { UnlessMemory (LooksUpName self.old.settings now
            (asks_of H.gives now self.old) finally_ip_addr (Ok name.now) self.old.client
            result self.new.client) self.old.client result
            self.new.client }
        ensures settings { self.new.settings ≡ self.old.settings }
    {
        let names = self.settings.names_for(self.alloc, name)?;
        let options = self.settings.request_options();
        lookup_ip_names(
            self.alloc,
            names,
            self.settings.options.ip_strategy,
            &mut self.client,
            options,
            &self.settings.hosts,
            finally_ip_addr,
            now,
        )
    }
}
