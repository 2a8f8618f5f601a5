//! Addresses in text (RFC 4291 section 2.2, RFC 5952 section 4).

ghost use Rattle.std.specs.Prelude.{◌≡◌, IfOk, string_bytes};
ghost use Rattle.dns_text.specs.Address.{IsTextOf, IsTextOfIpv4, IsTextOfIpv6, ip_text};

use std::alloc::{AllocError, Global};
use std::net::{IpAddr, Ipv4Addr, Ipv6Addr};

/// Parses an address: four decimal numbers up to 255 without leading zeros, or the eight hexadecimal groups of RFC 4291
/// section 2.2, at most once with `::` for one or more groups of zeros, and with an IPv4 address for the last two if need
/// be.
pub fn parse_ip(text: &[u8]) -> Option<IpAddr>
    ensures { IsTextOf text.now result }
{
    IpAddr::parse_ascii(text).ok()
}

/// Parses an IPv4 address: four decimal numbers up to 255, without leading zeros.
pub fn parse_ipv4(text: &[u8]) -> Option<Ipv4Addr>
    ensures { IsTextOfIpv4 text.now result }
{
    Ipv4Addr::parse_ascii(text).ok()
}

/// Parses an IPv6 address, as RFC 4291 section 2.2 defines its text.
pub fn parse_ipv6(text: &[u8]) -> Option<Ipv6Addr>
    ensures { IsTextOfIpv6 text.now result }
{
    Ipv6Addr::parse_ascii(text).ok()
}

/// Returns the text of an address, which `parse_ip` parses back to this address. That of an IPv6 address is in the form
/// of RFC 5952 section 4; an IPv4-mapped address has no dots.
pub fn write_ip(alloc: Global, address: IpAddr) -> Result<String, AllocError>
    ensures { IfOk result (λ text. string_bytes text ≡ ip_text address) }
{
    match address {
        IpAddr::V4(address) => format!(in alloc; "{address}"),
        IpAddr::V6(address) => {
            let groups = address.hex_groups();
            format!(in alloc; "{groups}")
        }
    }
}
