//! Lists of address prefixes (RFC 4632 section 3.1, RFC 4291 section 2.3).

ghost use Rattle.std.specs.Prelude.{◌≡◌, ◌≤◌, ◌<◌, ◌++◌, [], ◌∷◌, length, position, IfOk, IfSome, OnOk, OnErr};
ghost use Rattle.std.specs.Option.{option_copied};
ghost use Rattle.dns_wire.specs.codes.Decimal.{decimal_up_to};
ghost use Rattle.std.specs.declared.net.ip_addr.IpAddr.TheVariants.{V4, V6};
ghost use Rattle.std.specs.Net.Addr.{ipv4_octets, ipv6_octets, ipv6_segments, low_octets, IsIpv4Mapped};
ghost use Rattle.dns_names.specs.Reverse.{addr_prefix};
ghost use Rattle.dns_server.specs.AddressList.{ReadsParts, ReadsPrefix, covers, is_covered, is_slash, IsLoopbackList, prefix_from, prefix_with, same_bits, same_front, width_of};

use dns_names::AddrPrefix;
use dns_text::parse_ip;
use dns_wire::codes::parse_decimal;
use std::alloc::{AllocError, Global};
use std::marker::Model;
use std::net::{IpAddr, Ipv4Addr, Ipv6Addr};
use thiserror::Error;

/// Why a text is not an address prefix.
#[derive(Clone, Copy, Debug, PartialEq, Eq, Drop, Error)]
pub enum PrefixError {
    /// There is no address in front of the end or the first `/`.
    #[error("not an IP address")]
    Address,
    /// What follows the `/` is not a decimal number, or the address has fewer bits.
    #[error("not a length of at most 32 bits for IPv4 and 128 for IPv6")]
    Length,
}

/// A list of address prefixes, and so of the addresses that they cover.
#[derive(Drop)]
pub struct AddressList {
    prefixes: Vec<AddrPrefix>,
}

impl Model for AddressList {
    ghost use Rattle.std.specs.Prelude.{List};
    ghost use Rattle.dns_names.specs.declared.reverse.AddrPrefix.{AddrPrefix};

    ghost Value = { List AddrPrefix };

    ghost view = { λ list. list.prefixes.items };
}

impl AddressList {
    /// Creates an empty list.
    pub fn new(alloc: Global) -> AddressList
        ensures { result ≡ [] }
    {
        AddressList {
            prefixes: Vec::new(alloc),
        }
    }

    /// Creates the list of the loopback addresses: 127.0.0.0/8 (RFC 1122 section 3.2.1.3) and ::1 (RFC 4291 section 2.5.3).
    pub fn loopback(alloc: Global) -> Result<AddressList, AllocError>
        ensures { IfOk result IsLoopbackList }
    {
        let mut list = AddressList::new(alloc);
        list.add(prefix_of(IpAddr::V4(Ipv4Addr::new(127, 0, 0, 0)), 8))?;
        list.add(prefix_of(IpAddr::V6(Ipv6Addr::LOCALHOST), 128))?;
        Ok(list)
    }

    /// Adds a prefix. An error leaves the list unchanged.
    pub fn add(&mut self, prefix: AddrPrefix) -> Result<(), AllocError>
        ensures ok { OnOk result (self.new ≡ self.old ++ prefix ∷ []) }
        ensures err { OnErr result (self.new ≡ self.old) }
    {
        self.prefixes.push(prefix)?;
        Ok(())
    }

    /// Returns `true` if a prefix covers the address. An IPv4-mapped IPv6 address counts as its IPv4 address (RFC 4291 section
    /// 2.5.5.2), so no IPv6 prefix covers it.
    pub fn contains(&self, address: IpAddr) -> bool
        ensures v4 { (a : _) → address ≡ V4 a → result ≡ is_covered self.now (ipv4_octets a) }
        ensures mapped { (a : _) → address ≡ V6 a → IsIpv4Mapped (ipv6_segments a)
            → result ≡ is_covered self.now (low_octets a) }
        ensures v6 { (a : _) → address ≡ V6 a → ¬ (IsIpv4Mapped (ipv6_segments a))
            → result ≡ is_covered self.now (ipv6_octets a) }
    {
        match address {
            IpAddr::V4(address) => self.covers(&address.octets()),
            IpAddr::V6(address) => match address.to_ipv4_mapped() {
                Some(address) => self.covers(&address.octets()),
                None => self.covers(&address.octets()),
            },
        }
    }

    /// Returns `true` if a prefix covers the address with these octets.
    fn covers(&self, octets: &[u8]) -> bool
        ensures { result ≡ is_covered self.now octets.now }
    {
        self.prefixes.iter().any(|prefix| covers(prefix, octets))
    }
}

/// Parses an address prefix: an address, or an address, a `/` and a length in decimal.
pub fn parse_prefix(text: &[u8]) -> Result<AddrPrefix, PrefixError>
    ensures { ReadsPrefix text.now result }
{
    match slash_place(text) {
        Some(place) => parse_parts(&text[..place], Some(&text[place + 1..])),
        None => parse_parts(text, None),
    }
}

/// Returns the place of the first `/`.
fn slash_place(text: &[u8]) -> Option<usize>
    ensures place { result ≡ position is_slash text.now }
    ensures within { IfSome result (λ place. place < length text.now) }
{
    text.iter().position(|byte| *byte == b'/')
}

/// Parses the address of a prefix, and its length, if there is one.
fn parse_parts(address: &[u8], len: Option<&[u8]>) -> Result<AddrPrefix, PrefixError>
    ensures { ReadsParts address.now (option_copied len.entry) result }
{
    prefix_from(parse_ip(address), len)
}

/// Returns the prefix of an address, if there is one, with the length that a text has, or else with all its bits.
fn prefix_from(address: Option<IpAddr>, len: Option<&[u8]>) -> Result<AddrPrefix, PrefixError>
    ensures { result ≡ prefix_from address (option_copied len.entry) }
{
    let Some(address) = address else {
        return Err(PrefixError::Address);
    };
    match len {
        None => Ok(prefix_of(address, width_of(address))),
        Some(len) => prefix_with(address, len),
    }
}

/// Returns the prefix of an address with the length that a text has.
fn prefix_with(address: IpAddr, text: &[u8]) -> Result<AddrPrefix, PrefixError>
    ensures { result ≡ prefix_with address (decimal_up_to (width_of address) text.now) }
{
    match parse_decimal(text, u64::from(width_of(address))) {
        Some(len) => Ok(prefix_of(address, len as u8)),
        None => Err(PrefixError::Length),
    }
}

/// Returns the prefix of an address with a length of at most all its bits.
fn prefix_of(address: IpAddr, len: u8) -> AddrPrefix
    requires { len ≤ width_of address }
    ensures { result ≡ addr_prefix address len }
{
    match AddrPrefix::new(address, len) {
        Some(prefix) => prefix,
        None => unreachable!(),
    }
}

/// Returns how many bits an address has.
fn width_of(address: IpAddr) -> u8
    ensures { result ≡ width_of address }
{
    match address {
        IpAddr::V4(_) => 32,
        IpAddr::V6(_) => 128,
    }
}

/// Returns `true` if a prefix covers the address with these octets.
fn covers(prefix: &AddrPrefix, octets: &[u8]) -> bool
    ensures { result ≡ covers octets.now prefix.now }
{
    match prefix.addr() {
        IpAddr::V4(address) => same_bits(prefix.prefix_len(), &address.octets(), octets),
        IpAddr::V6(address) => same_bits(prefix.prefix_len(), &address.octets(), octets),
    }
}

/// Returns `true` if as many octets begin with the same bits.
fn same_bits(bits: u8, one: &[u8], other: &[u8]) -> bool
    ensures { result ≡ same_bits bits one.now other.now }
{
    if one.len() != other.len() {
        return false;
    }
    let mut left = bits;
    for index in 0..one.len() {
        if !same_front(left, one[index], other[index]) {
            return false;
        }
        left = left.saturating_sub(8);
    }
    true
}

/// Returns `true` if two octets begin with the same bits: so many of them, or all eight.
fn same_front(bits: u8, one: u8, other: u8) -> bool
    ensures { result ≡ same_front bits one other }
{
    let shift = u32::from(8u8.saturating_sub(bits));
    u16::from(one) >> shift == u16::from(other) >> shift
}
