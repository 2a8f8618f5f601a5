//! Addresses and ports as bytes: sixteen of an IPv6 address, and two of a port, in network byte order. An IPv4 address is mapped to an
//! IPv6 address (RFC 4291 section 2.5.5.2).

ghost use Rattle.std.specs.Prelude.{◌≡◌, ◌≢◌, IfNone, IfSome, length};
ghost use Rattle.api.specs.lookups.Endpoint.{IsEndpoint, endpoint_bytes, endpoint_len, mapped_octets};

use std::net::{IpAddr, Ipv6Addr, SocketAddr};

/// How many bytes an address with its port has.
pub const ENDPOINT_LEN: usize = 18;

/// How many of them are the address.
const ADDRESS_LEN: usize = 16;

/// Returns the address and the port that bytes are, or none if there are not [`ENDPOINT_LEN`].
pub fn endpoint_in(bytes: &[u8]) -> Option<SocketAddr>
    ensures endpoint { IfSome result (IsEndpoint bytes.now) }
    ensures none { IfNone result (length bytes.now ≢ endpoint_len) }
{
    if bytes.len() != ENDPOINT_LEN {
        return None;
    }
    Some(endpoint_of(bytes))
}

/// Returns the address and the port that [`ENDPOINT_LEN`] bytes are.
pub(crate) fn endpoint_of(bytes: &[u8]) -> SocketAddr
    requires { length bytes.now ≡ endpoint_len }
    ensures { IsEndpoint bytes.now result }
{
    let mut octets = [0; ADDRESS_LEN];
    octets.copy_from_slice(&bytes[..ADDRESS_LEN]);
    let mut port = [0; 2];
    port.copy_from_slice(&bytes[ADDRESS_LEN..]);
    let ip = Ipv6Addr::from_octets(octets).to_canonical();
    SocketAddr::new(ip, u16::from_be_bytes(port))
}

/// Returns the bytes of an address and a port.
pub fn endpoint_bytes(address: SocketAddr) -> [u8; ENDPOINT_LEN]
    ensures { result ≡ endpoint_bytes address }
{
    let [a, b, c, d, e, f, g, h, i, j, k, l, m, n, o, p] = mapped_octets(address.ip());
    let port = address.port();
    let (high, low) = ((port / 256) as u8, (port % 256) as u8);
    [a, b, c, d, e, f, g, h, i, j, k, l, m, n, o, p, high, low]
}

/// Returns the octets of an address, where IPv4 addresses are mapped.
fn mapped_octets(ip: IpAddr) -> [u8; ADDRESS_LEN]
    ensures octets { result ≡ mapped_octets ip }
    ensures len { length result ≡ 16 }
{
    match ip {
        IpAddr::V4(address) => {
            let [a, b, c, d] = address.octets();
            [0, 0, 0, 0, 0, 0, 0, 0, 0, 0, 255, 255, a, b, c, d]
        }
        IpAddr::V6(address) => address.octets(),
    }
}
