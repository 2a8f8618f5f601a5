//! Names of addresses (RFC 1035 section 3.5, RFC 3596 section 2.5).

ghost use Rattle.std.specs.Prelude.{◌≡◌, ◌+◌, ◌<◌, ◌≤◌, ◌++◌, ◌∷◌, [], Some, None, if◌then◌else◌, nat_le, length, IsOk, IfOk, OnOk, false, true, option_map, codes, slice_index, ℕ, IfErr, IfSome};
ghost use Rattle.std.specs.declared.net.ip_addr.IpAddr.TheVariants.{V4, V6};
ghost use Rattle.dns_wire.specs.Name.{IsLabel, name_len, max_name_len};
ghost use Rattle.dns_names.specs.Reverse.{addr_prefix, addr_of, prefix_len_of, reverse_name, decimal_label, hex_label, segment_labels, number, numbers, nibble, labels_below_zone, is_below_zone, arpa_prefix, v4_prefix, v6_prefix, segment_at, pad_with_zeros};
ghost use Rattle.dns_names.specs.Compare.{same_labels};

use crate::error::ParseError;
use crate::name::Name;
use dns_wire::codes::parse_decimal;
use std::alloc::{AllocError, Global};
use std::net::{IpAddr, Ipv4Addr, Ipv6Addr};

/// An IP address with a prefix length.
#[derive(Clone, Copy, Debug, PartialEq, Eq)]
pub struct AddrPrefix {
    pub(crate) addr: IpAddr,
    pub(crate) prefix_len: u8,
}

impl AddrPrefix {
    /// Returns the prefix, or `None` if it is longer than the address, which has 32 or 128 bits.
    pub fn new(addr: IpAddr, prefix_len: u8) -> Option<AddrPrefix>
        ensures v4 { (a : _) → addr ≡ V4 a
            → result ≡ (if nat_le prefix_len 32 then Some (addr_prefix addr prefix_len) else None) }
        ensures v6 { (a : _) → addr ≡ V6 a
            → result ≡ (if nat_le prefix_len 128 then Some (addr_prefix addr prefix_len)
            else None) }
    {
        let most = match addr {
            IpAddr::V4(_) => 32,
            IpAddr::V6(_) => 128,
        };
        if prefix_len <= most {
            Some(AddrPrefix { addr, prefix_len })
        } else {
            None
        }
    }

    /// Returns the address.
    pub fn addr(&self) -> IpAddr
        ensures { result ≡ addr_of self.now }
    {
        self.addr
    }

    /// Returns the prefix length in bits.
    pub fn prefix_len(&self) -> u8
        ensures { result ≡ prefix_len_of self.now }
    {
        self.prefix_len
    }
}

impl Name {
    /// Returns the reverse name of an address (RFC 1035 section 3.5, RFC 3596 section 2.5). That of an IPv4 address takes
    /// no memory.
    pub fn from(alloc: Global, address: IpAddr) -> Result<Name, AllocError>
        ensures ok { IfOk result (λ name. name ≡ reverse_name address) }
        ensures inline { (a : _) → address ≡ V4 a → IsOk result }
    {
        match address {
            IpAddr::V4(address) => Name::from_v4(alloc, address),
            IpAddr::V6(address) => Name::from_v6(alloc, address),
        }
    }

    /// Returns the reverse name of an IPv4 address.
    fn from_v4(alloc: Global, address: Ipv4Addr) -> Result<Name, AllocError>
        ensures ok { IfOk result (λ name. name ≡ reverse_name (V4 address)) }
        ensures inline { IsOk result }
    {
        let octets = address.octets();
        let mut name = Name::root(alloc);
        for index in 0..4 {
            name.push_decimal(octets[3 - index])?;
        }
        name.push_short(b"in-addr")?;
        name.push_short(b"arpa")?;
        Ok(name)
    }

    /// Returns the reverse name of an IPv6 address.
    fn from_v6(alloc: Global, address: Ipv6Addr) -> Result<Name, AllocError>
        ensures { IfOk result (λ name. name ≡ reverse_name (V6 address)) }
    {
        let segments = address.segments();
        let mut name = Name::root(alloc);
        for index in 0..8 {
            name.push_segment(segments[7 - index])?;
        }
        name.push_short(b"ip6")?;
        name.push_short(b"arpa")?;
        Ok(name)
    }

    /// Appends a label.
    fn push_short(&mut self, label: &[u8]) -> Result<(), AllocError>
        requires is_label { IsLabel label.now }
        requires fits { name_len self.old.labels + (length label.now + 1) ≤ max_name_len }
        ensures ok { OnOk result (self.new
            ≡ record self.old { labels = self.old.labels ++ label.now ∷ [] }) }
        ensures len { OnOk result (name_len self.new.labels
            ≡ name_len self.old.labels + (length label.now + 1)) }
        ensures count { OnOk result (length self.new.labels ≡ length self.old.labels + 1) }
        ensures inline { length self.old.labels < 24
            → name_len self.old.labels + length label.now ≤ length self.old.labels + 33
            → IsOk result }
    {
        self.push(label)?;
        Ok(())
    }

    /// Appends the decimal label of an octet.
    fn push_decimal(&mut self, octet: u8) -> Result<(), AllocError>
        requires { name_len self.old.labels + 4 ≤ max_name_len }
        ensures ok { OnOk result (self.new
            ≡ record self.old { labels = self.old.labels ++ decimal_label octet ∷ [] }) }
        ensures len { OnOk result (name_len self.new.labels ≤ name_len self.old.labels + 4) }
        ensures count { OnOk result (length self.new.labels ≡ length self.old.labels + 1) }
        ensures inline { length self.old.labels < 24
            → name_len self.old.labels + 3 ≤ length self.old.labels + 33 → IsOk result }
    {
        if octet < 10 {
            self.push_short(&[b'0' + octet])
        } else if octet < 100 {
            self.push_short(&[b'0' + octet / 10, b'0' + octet % 10])
        } else {
            self.push_short(&[
                b'0' + octet / 100,
                b'0' + octet / 10 % 10,
                b'0' + octet % 10,
            ])
        }
    }

    /// Appends the labels of a segment's four hexadecimal digits, the last digit first.
    fn push_segment(&mut self, segment: u16) -> Result<(), AllocError>
        requires { name_len self.old.labels + 8 ≤ max_name_len }
        ensures ok { OnOk result (self.new
            ≡ record self.old { labels = self.old.labels ++ segment_labels segment }) }
        ensures len { OnOk result (name_len self.new.labels ≡ name_len self.old.labels + 8) }
    {
        self.push_short(&[hex_digit((segment % 16) as u8)])?;
        self.push_short(&[hex_digit((segment / 16 % 16) as u8)])?;
        self.push_short(&[hex_digit((segment / 256 % 16) as u8)])?;
        self.push_short(&[hex_digit((segment / 4096) as u8)])
    }
}

/// Returns a hexadecimal digit in lower case.
fn hex_digit(number: u8) -> u8
    requires { number < 16 }
    ensures { result ∷ [] ≡ hex_label number }
{
    if number < 10 {
        b'0' + number
    } else {
        b'a' + (number - 10)
    }
}

impl Name {
    /// Parses a reverse name: one to four decimal labels below `in-addr.arpa.`, or one to 32 hexadecimal digits below
    /// `ip6.arpa.` (RFC 1035 section 3.5, RFC 3596 section 2.5). Fewer labels are a prefix of the address. The error for
    /// any other name is `Text(0)`.
    pub fn parse_arpa_name(&self) -> Result<AddrPrefix, ParseError>
        ensures ok { IfOk result (λ prefix. arpa_prefix self.now ≡ Some prefix) }
        ensures refused { IfErr result (λ error. (error ≡ ParseError.Text 0)
            × (arpa_prefix self.now ≡ None)) }
    {
        let found = if !self.is_fqdn() {
            None
        } else if self.is_below_zone(b"in-addr", 4) {
            self.v4_prefix()
        } else if self.is_below_zone(b"ip6", 32) {
            self.v6_prefix()
        } else {
            None
        };
        match found {
            Some(prefix) => Ok(prefix),
            None => Err(ParseError::Text(0)),
        }
    }

    /// Returns `true` if the name has one to `most` labels below the zone of an address family.
    fn is_below_zone(&self, family: &[u8], most: usize) -> bool
        requires { most < 100 }
        ensures { result ≡ is_below_zone (family.now ∷ codes "arpa" ∷ []) most self.now.labels }
    {
        let count = self.label_count();
        if count <= 2 || count > most + 2 {
            return false;
        }
        is_zone(family, self.label(count - 2), self.label(count - 1))
    }

    /// Returns the IPv4 prefix that the labels below the zone spell.
    fn v4_prefix(&self) -> Option<AddrPrefix>
        requires some { 2 < length self.now.labels }
        requires most { length self.now.labels ≤ 6 }
        ensures { result ≡ option_map v4_prefix
            (numbers false (labels_below_zone self.now.labels)) }
    {
        let octets = self.numbers(false)?;
        Some(AddrPrefix {
            addr: IpAddr::V4(Ipv4Addr::new(octets[0], octets[1], octets[2], octets[3])),
            prefix_len: 8 * (self.label_count() - 2) as u8,
        })
    }

    /// Returns the IPv6 prefix that the labels below the zone spell.
    fn v6_prefix(&self) -> Option<AddrPrefix>
        requires some { 2 < length self.now.labels }
        requires most { length self.now.labels ≤ 34 }
        ensures { result ≡ option_map v6_prefix (numbers true (labels_below_zone self.now.labels)) }
    {
        let digits = self.numbers(true)?;
        Some(AddrPrefix {
            addr: IpAddr::V6(Ipv6Addr::new(
                segment(&digits, 0),
                segment(&digits, 4),
                segment(&digits, 8),
                segment(&digits, 12),
                segment(&digits, 16),
                segment(&digits, 20),
                segment(&digits, 24),
                segment(&digits, 28),
            )),
            prefix_len: 4 * (self.label_count() - 2) as u8,
        })
    }

    /// Returns the numbers of the labels below the zone, the last label first, padded with zeros.
    fn numbers(&self, is_hex: bool) -> Option<[u8; 32]>
        requires some { 2 < length self.now.labels }
        requires most { length self.now.labels ≤ 34 }
        ensures value { result ≡ option_map pad_with_zeros
            (numbers is_hex (labels_below_zone self.now.labels)) }
        ensures small { is_hex ≡ true → IfSome result (λ all. (k : ℕ) → slice_index all k < 16) }
    {
        let count = self.label_count() - 2;
        let mut all = [0; 32];
        for index in 0..count {
            all[index] = read_number(is_hex, self.label(count - 1 - index))?;
        }
        Some(all)
    }
}

/// Returns `true` if two labels are those of the zone of an address family.
fn is_zone(family: &[u8], first: &[u8], last: &[u8]) -> bool
    ensures { result ≡ same_labels (family.now ∷ codes "arpa" ∷ []) (first.now ∷ last.now ∷ []) }
{
    if !family.eq_ignore_ascii_case(first) {
        return false;
    }
    b"arpa".eq_ignore_ascii_case(last)
}

/// Parses a label as a hexadecimal digit, or as a decimal number up to 255.
fn read_number(is_hex: bool, label: &[u8]) -> Option<u8>
    ensures value { result ≡ number is_hex label.now }
    ensures small { is_hex ≡ true → IfSome result (λ n. n < 16) }
{
    if is_hex {
        return read_nibble(label);
    }
    Some(parse_decimal(label, 255)? as u8)
}

/// Parses a label of one hexadecimal digit.
fn read_nibble(label: &[u8]) -> Option<u8>
    ensures value { result ≡ nibble label.now }
    ensures small { IfSome result (λ n. n < 16) }
{
    if label.len() != 1 {
        return None;
    }
    match label[0] {
        c @ b'0'..=b'9' => Some(c - b'0'),
        c @ b'a'..=b'f' => Some(c - b'a' + 10),
        c @ b'A'..=b'F' => Some(c - b'A' + 10),
        _ => None,
    }
}

/// Returns the segment of the four digits at a place.
fn segment(digits: &[u8; 32], place: usize) -> u16
    requires within { place ≤ 28 }
    requires small { (k : ℕ) → slice_index digits.now k < 16 }
    ensures { result ≡ segment_at digits.now place }
{
    4_096 * digits[place] as u16
        + 256 * digits[place + 1] as u16
        + 16 * digits[place + 2] as u16
        + digits[place + 3] as u16
}
