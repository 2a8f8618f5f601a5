//! The name servers of public providers.

ghost use Rattle.std.specs.Prelude.{◌≡◌, ◌∷◌, [], codes, map};
ghost use Rattle.stub_config.specs.config.PublicServers.{address_numbers};

use super::server_group::ServerGroup;
use std::net::{IpAddr, Ipv4Addr, Ipv6Addr};

/// The path of requests over HTTPS (RFC 8484 section 4.1).
const QUERY_PATH: &str = "/dns-query";

/// The name servers of a public provider, with their addresses.
#[derive(Clone, Copy)]
pub struct PublicServers {
    /// The addresses.
    pub ips: [IpAddr; 4],
    /// The name of the servers.
    pub server_name: &'static str,
    /// The path of requests over HTTPS, which no function here makes.
    pub path: &'static str,
}

impl PublicServers {
    /// Returns the servers as a group.
    pub fn as_group(&self) -> ServerGroup<'_>
        ensures ips { result.ips.now ≡ self.now.ips }
        ensures server_name { result.server_name.now ≡ self.now.server_name.now }
        ensures path { result.path.now ≡ self.now.path.now }
    {
        ServerGroup {
            ips: &self.ips,
            server_name: self.server_name,
            path: self.path,
        }
    }
}

/// Returns the name servers of Google.
pub fn google() -> PublicServers
    ensures ips { map address_numbers result.ips ≡
        (8 ∷ 8 ∷ 8 ∷ 8 ∷ [])
        ∷ (8 ∷ 8 ∷ 4 ∷ 4 ∷ [])
        ∷ (0x2001 ∷ 0x4860 ∷ 0x4860 ∷ 0 ∷ 0 ∷ 0 ∷ 0 ∷ 0x8888 ∷ [])
        ∷ (0x2001 ∷ 0x4860 ∷ 0x4860 ∷ 0 ∷ 0 ∷ 0 ∷ 0 ∷ 0x8844 ∷ []) ∷ [] }
    ensures server_name { result.server_name.now ≡ codes "dns.google" }
    ensures path { result.path.now ≡ codes "/dns-query" }
{
    PublicServers {
        ips: [
            IpAddr::V4(Ipv4Addr::new(8, 8, 8, 8)),
            IpAddr::V4(Ipv4Addr::new(8, 8, 4, 4)),
            IpAddr::V6(Ipv6Addr::new(0x2001, 0x4860, 0x4860, 0, 0, 0, 0, 0x8888)),
            IpAddr::V6(Ipv6Addr::new(0x2001, 0x4860, 0x4860, 0, 0, 0, 0, 0x8844)),
        ],
        server_name: "dns.google",
        path: QUERY_PATH,
    }
}

/// Returns the name servers of Cloudflare.
pub fn cloudflare() -> PublicServers
    ensures ips { map address_numbers result.ips ≡
        (1 ∷ 1 ∷ 1 ∷ 1 ∷ [])
        ∷ (1 ∷ 0 ∷ 0 ∷ 1 ∷ [])
        ∷ (0x2606 ∷ 0x4700 ∷ 0x4700 ∷ 0 ∷ 0 ∷ 0 ∷ 0 ∷ 0x1111 ∷ [])
        ∷ (0x2606 ∷ 0x4700 ∷ 0x4700 ∷ 0 ∷ 0 ∷ 0 ∷ 0 ∷ 0x1001 ∷ []) ∷ [] }
    ensures server_name { result.server_name.now ≡ codes "cloudflare-dns.com" }
    ensures path { result.path.now ≡ codes "/dns-query" }
{
    PublicServers {
        ips: [
            IpAddr::V4(Ipv4Addr::new(1, 1, 1, 1)),
            IpAddr::V4(Ipv4Addr::new(1, 0, 0, 1)),
            IpAddr::V6(Ipv6Addr::new(0x2606, 0x4700, 0x4700, 0, 0, 0, 0, 0x1111)),
            IpAddr::V6(Ipv6Addr::new(0x2606, 0x4700, 0x4700, 0, 0, 0, 0, 0x1001)),
        ],
        server_name: "cloudflare-dns.com",
        path: QUERY_PATH,
    }
}

/// Returns the name servers of Quad9.
pub fn quad9() -> PublicServers
    ensures ips { map address_numbers result.ips ≡
        (9 ∷ 9 ∷ 9 ∷ 9 ∷ [])
        ∷ (149 ∷ 112 ∷ 112 ∷ 112 ∷ [])
        ∷ (0x2620 ∷ 0xfe ∷ 0 ∷ 0 ∷ 0 ∷ 0 ∷ 0 ∷ 0xfe ∷ [])
        ∷ (0x2620 ∷ 0xfe ∷ 0 ∷ 0 ∷ 0 ∷ 0 ∷ 0 ∷ 9 ∷ []) ∷ [] }
    ensures server_name { result.server_name.now ≡ codes "dns.quad9.net" }
    ensures path { result.path.now ≡ codes "/dns-query" }
{
    PublicServers {
        ips: [
            IpAddr::V4(Ipv4Addr::new(9, 9, 9, 9)),
            IpAddr::V4(Ipv4Addr::new(149, 112, 112, 112)),
            IpAddr::V6(Ipv6Addr::new(0x2620, 0xfe, 0, 0, 0, 0, 0, 0xfe)),
            IpAddr::V6(Ipv6Addr::new(0x2620, 0xfe, 0, 0, 0, 0, 0, 9)),
        ],
        server_name: "dns.quad9.net",
        path: QUERY_PATH,
    }
}
