//! Lookups of records of one type.

ghost use Rattle.std.specs.Prelude.{◌≡◌, ◌≤◌, ◌^◌};

use super::Resolver;
use dns_names::Name;
use dns_text::IntoName;
use dns_wire::RecordType;
use std::net::IpAddr;
use stub_client::DnsHandle;
use stub_lookup::{Lookup, Moment, NetError};

/// Each is [`Resolver::lookup`] with its type.
impl<H: DnsHandle> Resolver<H> {
    ghost use Rattle.std.specs.Prelude.{Ok};
    ghost use Rattle.dns_names.specs.Reverse.{reverse_name};
    ghost use Rattle.stub_core.specs.Resolver.{ResolvesName};

    /// Looks up the names of an address: the `PTR` records of its reverse name (RFC 1035 section 3.5, RFC 3596 section
    /// 2.5).
    pub fn reverse_lookup(&mut self, address: IpAddr, now: Moment) -> Result<Lookup, NetError>
        requires { now ≤ 2 ^ 62 }
        ensures { ResolvesName H.gives now (Ok (reverse_name address)) RecordType.PTR self.old
            result self.new }
    {
        let name = Name::from(self.alloc, address)?;
        self.lookup(name, RecordType::PTR, now)
    }

    /// Looks up `A` records: IPv4 addresses (RFC 1035 section 3.4.1).
    pub fn ipv4_lookup<N: IntoName>(&mut self, name: N, now: Moment) -> Result<Lookup, NetError>
        requires { now ≤ 2 ^ 62 }
        ensures { ResolvesName H.gives now (N.name name) RecordType.A self.old result self.new }
    {
        self.lookup(name, RecordType::A, now)
    }

    /// Looks up `AAAA` records: IPv6 addresses (RFC 3596 section 2.2).
    pub fn ipv6_lookup<N: IntoName>(&mut self, name: N, now: Moment) -> Result<Lookup, NetError>
        requires { now ≤ 2 ^ 62 }
        ensures { ResolvesName H.gives now (N.name name) RecordType.AAAA self.old result self.new }
    {
        self.lookup(name, RecordType::AAAA, now)
    }

    /// Looks up `MX` records: mail exchanges (RFC 1035 section 3.3.9).
    pub fn mx_lookup<N: IntoName>(&mut self, name: N, now: Moment) -> Result<Lookup, NetError>
        requires { now ≤ 2 ^ 62 }
        ensures { ResolvesName H.gives now (N.name name) RecordType.MX self.old result self.new }
    {
        self.lookup(name, RecordType::MX, now)
    }

    /// Looks up `NS` records: name servers (RFC 1035 section 3.3.11).
    pub fn ns_lookup<N: IntoName>(&mut self, name: N, now: Moment) -> Result<Lookup, NetError>
        requires { now ≤ 2 ^ 62 }
        ensures { ResolvesName H.gives now (N.name name) RecordType.NS self.old result self.new }
    {
        self.lookup(name, RecordType::NS, now)
    }

    /// Looks up `SMIMEA` records: certificates for mail (RFC 8162 section 2).
    pub fn smimea_lookup<N: IntoName>(&mut self, name: N, now: Moment) -> Result<Lookup, NetError>
        requires { now ≤ 2 ^ 62 }
        ensures { ResolvesName H.gives now (N.name name) RecordType.SMIMEA self.old result
            self.new }
    {
        self.lookup(name, RecordType::SMIMEA, now)
    }

    /// Looks up `SOA` records: starts of authority (RFC 1035 section 3.3.13).
    pub fn soa_lookup<N: IntoName>(&mut self, name: N, now: Moment) -> Result<Lookup, NetError>
        requires { now ≤ 2 ^ 62 }
        ensures { ResolvesName H.gives now (N.name name) RecordType.SOA self.old result self.new }
    {
        self.lookup(name, RecordType::SOA, now)
    }

    /// Looks up `SRV` records: locations of services (RFC 2782).
    pub fn srv_lookup<N: IntoName>(&mut self, name: N, now: Moment) -> Result<Lookup, NetError>
        requires { now ≤ 2 ^ 62 }
        ensures { ResolvesName H.gives now (N.name name) RecordType.SRV self.old result self.new }
    {
        self.lookup(name, RecordType::SRV, now)
    }

    /// Looks up `TLSA` records: certificates of TLS servers (RFC 6698 section 2.1).
    pub fn tlsa_lookup<N: IntoName>(&mut self, name: N, now: Moment) -> Result<Lookup, NetError>
        requires { now ≤ 2 ^ 62 }
        ensures { ResolvesName H.gives now (N.name name) RecordType.TLSA self.old result self.new }
    {
        self.lookup(name, RecordType::TLSA, now)
    }

    /// Looks up `TXT` records: texts (RFC 1035 section 3.3.14).
    pub fn txt_lookup<N: IntoName>(&mut self, name: N, now: Moment) -> Result<Lookup, NetError>
        requires { now ≤ 2 ^ 62 }
        ensures { ResolvesName H.gives now (N.name name) RecordType.TXT self.old result self.new }
    {
        self.lookup(name, RecordType::TXT, now)
    }

    /// Looks up `CERT` records: certificates (RFC 4398 section 2).
    pub fn cert_lookup<N: IntoName>(&mut self, name: N, now: Moment) -> Result<Lookup, NetError>
        requires { now ≤ 2 ^ 62 }
        ensures { ResolvesName H.gives now (N.name name) RecordType.CERT self.old result self.new }
    {
        self.lookup(name, RecordType::CERT, now)
    }
}
