//! Lists in the text of one value (RFC 9460 appendix A.1).

ghost use Rattle.std.specs.Prelude.{◌≡◌, ◌≢◌, ◌≤◌, ◌++◌, ℕ, List, [], ◌∷◌, false, length, Ok, Err, IfOk, IfErr, option_map};
ghost use Rattle.dns_fields.specs.service.Key.{key_of};
ghost use Rattle.dns_fields.specs.service.Address.{ipv4_bytes, ipv6_bytes};
ghost use Rattle.dns_fields.specs.service.List.{Leaves, key_place, with_key, with_address, with_item, list_bytes, inserted};

use crate::service::address::{ipv4_bytes, ipv6_bytes};
use crate::service::fault::ServiceFault;
use crate::service::key::key_of;
use std::alloc::{AllocError, Global};

/// A kind of items.
#[derive(Clone, Copy, Debug, PartialEq, Eq)]
pub(crate) enum Item {
    /// The key of a parameter.
    Key,
    /// The identifier of a protocol.
    Protocol,
    /// An IPv4 address.
    Address4,
    /// An IPv6 address.
    Address6,
}

/// Returns the bytes of a list, which commas separate. A backslash makes a comma or a backslash part of an item.
pub(crate) fn list_bytes(alloc: Global, kind: Item, octets: &[u8]) -> Result<Vec<u8>, ServiceFault>
    ensures ok { IfOk result (λ bytes. list_bytes kind [] [] false octets.now ≡ Ok bytes.items) }
    ensures refused { IfErr result (λ fault. fault ≢ ServiceFault.Memory
        → list_bytes kind [] [] false octets.now ≡ Err fault) }
{
    let mut bytes = Vec::new(alloc);
    let mut item = Vec::new(alloc);
    let mut is_escaped = false;
    for octet in octets {
        is_escaped = take_octet(alloc, kind, *octet, is_escaped, &mut item, &mut bytes)?;
    }
    if is_escaped {
        return Err(ServiceFault::InvalidEscape);
    }
    push_item(alloc, kind, item.as_slice(), &mut bytes)?;
    Ok(bytes)
}

/// Adds an octet to an item, or the item to the bytes of a list, and returns whether the next octet is escaped.
fn take_octet(
    alloc: Global,
    kind: Item,
    octet: u8,
    is_escaped: bool,
    item: &mut Vec<u8>,
    out: &mut Vec<u8>,
) -> Result<bool, ServiceFault>
    ensures ok { (rest : List ℕ) → IfOk result (λ next.
        list_bytes kind out.old.items item.old.items is_escaped (octet ∷ rest)
        ≡ list_bytes kind out.new.items item.new.items next rest) }
    ensures refused { (rest : List ℕ) → IfErr result (λ fault. fault ≢ ServiceFault.Memory
        → list_bytes kind out.old.items item.old.items is_escaped (octet ∷ rest) ≡ Err fault) }
{
    if !is_escaped && octet == b',' {
        push_item(alloc, kind, item.as_slice(), out)?;
        item.clear();
        return Ok(false);
    }
    if !is_escaped && octet == b'\\' {
        return Ok(true);
    }
    if is_escaped && octet != b',' && octet != b'\\' {
        return Err(ServiceFault::InvalidEscape);
    }
    item.push(octet)?;
    Ok(false)
}

/// Adds an item to the bytes of a list.
fn push_item(alloc: Global, kind: Item, item: &[u8], out: &mut Vec<u8>) -> Result<(), ServiceFault>
    ensures { Leaves ServiceFault.Memory (with_item kind out.old.items item.now)
        result out.new.items }
{
    match kind {
        Item::Key => push_key(alloc, item, out),
        Item::Protocol => push_protocol(item, out),
        Item::Address4 => push_address(ipv4_bytes(alloc, item)?, out),
        Item::Address6 => push_address(ipv6_bytes(alloc, item)?, out),
    }
}

/// Adds the key that a text names, before those that are greater.
fn push_key(alloc: Global, item: &[u8], out: &mut Vec<u8>) -> Result<(), ServiceFault>
    ensures { Leaves ServiceFault.Memory (with_key out.old.items (key_of item.now))
        result out.new.items }
{
    let Some(key) = key_of(item) else {
        return Err(ServiceFault::UnknownKey);
    };
    let place = key_place(out.as_slice(), key);
    *out = inserted(alloc, place, &key.to_be_bytes(), out.as_slice())?;
    Ok(())
}

/// Appends an identifier after its length.
fn push_protocol(item: &[u8], out: &mut Vec<u8>) -> Result<(), ServiceFault>
    ensures { Leaves ServiceFault.Memory (with_item Item.Protocol out.old.items item.now)
        result out.new.items }
{
    if item.is_empty() || item.len() > 255 {
        return Err(ServiceFault::InvalidValue);
    }
    out.push(item.len() as u8)?;
    out.extend_from_slice(item)?;
    Ok(())
}

/// Appends the bytes of an address.
fn push_address(address: Option<Vec<u8>>, out: &mut Vec<u8>) -> Result<(), ServiceFault>
    ensures { Leaves ServiceFault.Memory
        (with_address out.old.items (option_map (λ bytes. bytes.items) address))
        result out.new.items }
{
    let Some(bytes) = address else {
        return Err(ServiceFault::InvalidValue);
    };
    out.extend_from_slice(bytes.as_slice())?;
    Ok(())
}

/// Returns how many bytes the keys before a key have.
fn key_place(keys: &[u8], key: u16) -> usize
    ensures value { result ≡ key_place key keys.now }
    ensures within { result ≤ length keys.now }
{
    let mut left = keys;
    while left.len() >= 2 && 256 * u32::from(left[0]) + u32::from(left[1]) < u32::from(key) {
        left = &left[2..];
    }
    keys.len() - left.len()
}

/// Returns bytes with more at a place.
pub(crate) fn inserted(
    alloc: Global,
    place: usize,
    more: &[u8],
    bytes: &[u8],
) -> Result<Vec<u8>, AllocError>
    requires { place ≤ length bytes.now }
    ensures { IfOk result (λ whole. whole.items ≡ inserted place more.now bytes.now) }
{
    let mut whole = Vec::new(alloc);
    whole.extend_from_slice(&bytes[..place])?;
    whole.extend_from_slice(more)?;
    whole.extend_from_slice(&bytes[place..])?;
    Ok(whole)
}
