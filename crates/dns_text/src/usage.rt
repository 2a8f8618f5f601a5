//! Special-use names (RFC 6761).

ghost use Rattle.std.specs.Prelude.{◌≡◌, ◌+◌, ◌≤◌, ◌++◌, ◌∷◌, [], length, IsOk, IfOk};
ghost use Rattle.dns_wire.specs.Name.{IsLabel, name_len, max_name_len};
ghost use Rattle.dns_names.specs.Compare.{at_or_below};
ghost use Rattle.dns_names.specs.Name.{IsInline};
ghost use Rattle.dns_text.specs.Usage.{is_loopback, is_nonexistent, zone_name, resolver_usage, localhost_zone, in_addr_arpa_127_zone, ip6_arpa_1_zone, local_zone, invalid_zone, onion_zone, root_zone};

use dns_names::Name;
use std::alloc::{AllocError, Global};
use std::net::{IpAddr, Ipv6Addr};

/// How a resolver treats the names of a zone (RFC 6761 section 5).
#[derive(Clone, Copy, Debug, PartialEq, Eq)]
pub enum ResolverUsage {
    /// It queries them as any other name.
    Normal,
    /// They denote the local host.
    Loopback,
    /// They belong to the local link.
    LinkLocal,
    /// They do not exist.
    NxDomain,
}

/// A zone of special-use names.
#[derive(Drop)]
pub struct ZoneUsage {
    name: Name,
    resolver: ResolverUsage,
}

impl ZoneUsage {
    /// Returns the zone's name.
    pub fn name(&self) -> &Name
        ensures { result.now ≡ zone_name self.now }
    {
        &self.name
    }

    /// Returns `true` if a name is at or below the zone.
    pub fn zone_of(&self, name: &Name) -> bool
        ensures { result ≡ at_or_below (zone_name self.now).labels name.now.labels }
    {
        self.name.zone_of(name)
    }

    /// Returns how a resolver treats the zone's names.
    pub fn resolver(&self) -> ResolverUsage
        ensures { result ≡ resolver_usage self.now }
    {
        self.resolver
    }
}

/// Returns the zone `localhost.`, whose names denote the local host (RFC 6761 section 6.3). No memory is taken.
pub fn localhost(alloc: Global) -> Result<ZoneUsage, AllocError>
    ensures ok { IfOk result (λ usage. usage ≡ localhost_zone) }
    ensures inline { IsOk result }
{
    Ok(ZoneUsage {
        name: with_label(Name::root(alloc), b"localhost")?,
        resolver: ResolverUsage::Loopback,
    })
}

/// Returns the zone `127.in-addr.arpa.`, whose names are those of the loopback addresses (RFC 6303 section 4.2). No memory is
/// taken.
pub fn in_addr_arpa_127(alloc: Global) -> Result<ZoneUsage, AllocError>
    ensures ok { IfOk result (λ usage. usage ≡ in_addr_arpa_127_zone) }
    ensures inline { IsOk result }
{
    let name = with_label(Name::root(alloc), b"127")?;
    let name = with_label(name, b"in-addr")?;
    Ok(ZoneUsage {
        name: with_label(name, b"arpa")?,
        resolver: ResolverUsage::Loopback,
    })
}

/// Returns the zone at the name of `::1`, the loopback address (RFC 6303 section 4.3).
pub fn ip6_arpa_1(alloc: Global) -> Result<ZoneUsage, AllocError>
    ensures { IfOk result (λ usage. usage ≡ ip6_arpa_1_zone) }
{
    Ok(ZoneUsage {
        name: Name::from(alloc, IpAddr::V6(Ipv6Addr::new(0, 0, 0, 0, 0, 0, 0, 1)))?,
        resolver: ResolverUsage::Loopback,
    })
}

/// Returns the zone `local.`, whose names belong to the local link (RFC 6762 section 3). No memory is taken.
pub fn local(alloc: Global) -> Result<ZoneUsage, AllocError>
    ensures ok { IfOk result (λ usage. usage ≡ local_zone) }
    ensures inline { IsOk result }
{
    Ok(ZoneUsage {
        name: with_label(Name::root(alloc), b"local")?,
        resolver: ResolverUsage::LinkLocal,
    })
}

/// Returns the zone `invalid.`, whose names do not exist (RFC 6761 section 6.4). No memory is taken.
pub fn invalid(alloc: Global) -> Result<ZoneUsage, AllocError>
    ensures ok { IfOk result (λ usage. usage ≡ invalid_zone) }
    ensures inline { IsOk result }
{
    Ok(ZoneUsage {
        name: with_label(Name::root(alloc), b"invalid")?,
        resolver: ResolverUsage::NxDomain,
    })
}

/// Returns the zone `onion.`, whose names do not exist in the DNS (RFC 7686 section 2). No memory is taken.
pub fn onion(alloc: Global) -> Result<ZoneUsage, AllocError>
    ensures ok { IfOk result (λ usage. usage ≡ onion_zone) }
    ensures inline { IsOk result }
{
    Ok(ZoneUsage {
        name: with_label(Name::root(alloc), b"onion")?,
        resolver: ResolverUsage::NxDomain,
    })
}

/// Returns the usage of any other name: the zone is the root, whose names a resolver queries normally.
pub fn default(alloc: Global) -> ZoneUsage
    ensures { result ≡ root_zone }
{
    ZoneUsage {
        name: Name::root(alloc),
        resolver: ResolverUsage::Normal,
    }
}

/// Appends a label that fits, so the only possible error is that of memory.
fn with_label(name: Name, label: &[u8]) -> Result<Name, AllocError>
    requires is_label { IsLabel label.now }
    requires fits { name_len (name.labels ++ label.now ∷ []) ≤ max_name_len }
    ensures ok { IfOk result (λ made. made
        ≡ record name { labels = name.labels ++ label.now ∷ [] }) }
    ensures inline { length label.now ≤ 24 → IsInline (name.labels ++ label.now ∷ [])
        → IsOk result }
{
    match name.append_label(label) {
        Ok(made) => Ok(made),
        // The label is valid and fits, so the only error left is that of memory.
        Err(_) => Err(AllocError),
    }
}

/// The labels of the reverse name of `::1` (RFC 3596 section 2.5).
const IP6_ARPA_1: [&[u8]; 34] = [
    b"1", b"0", b"0", b"0", b"0", b"0", b"0", b"0", b"0", b"0", b"0", b"0", b"0", b"0", b"0", b"0",
    b"0", b"0", b"0", b"0", b"0", b"0", b"0", b"0", b"0", b"0", b"0", b"0", b"0", b"0", b"0", b"0",
    b"ip6", b"arpa",
];

/// Returns `true` for a name of the local host, at or below `localhost.`, and for the reverse name of a loopback address, at
/// or below `127.in-addr.arpa.` or that of `::1` (RFC 6761 section 6.3, RFC 6303 sections 4.2 and 4.3). No memory is taken.
pub fn is_loopback(name: &Name) -> bool
    ensures { result ≡ is_loopback name.now }
{
    name.ends_with(&[b"localhost"])
        || name.ends_with(&[b"127", b"in-addr", b"arpa"])
        || name.ends_with(&IP6_ARPA_1)
}

/// Returns `true` for a name that does not exist in the DNS, at or below `invalid.` or `onion.` (RFC 6761 section 6.4, RFC
/// 7686 section 2). No memory is taken.
pub fn is_nonexistent(name: &Name) -> bool
    ensures { result ≡ is_nonexistent name.now }
{
    name.ends_with(&[b"invalid"]) || name.ends_with(&[b"onion"])
}
