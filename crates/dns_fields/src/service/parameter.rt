//! A parameter beside those before it (RFC 9460 sections 2.1, 7 and 8).

ghost use Rattle.std.specs.Prelude.{◌≡◌, ◌≢◌, ◌<◌, ◌≤◌, ◌++◌, length, Ok, Err, IfOk, IfErr, OnOk};
ghost use Rattle.base64.specs.Engines.{standard};
ghost use Rattle.base64.specs.GeneralPurpose.{decode_of};
ghost use Rattle.dns_fields.specs.service.Parameter.{port_bytes, base64_bytes, value_bytes, named_bytes, form, with_value, with_parameter};
ghost use Rattle.dns_wire.specs.codes.Decimal.{decimal_up_to};

use crate::service::fault::ServiceFault;
use crate::service::key::{is_numbered, key_of};
use crate::service::list::{Item, inserted, list_bytes};
use crate::service::wire::{has_key, place_of};
use base64::DecodeAllocError;
use base64::engine::general_purpose::STANDARD;
use dns_wire::codes::parse_decimal;
use std::alloc::{AllocError, Global};

/// Returns parameters with one more, in the order of their keys, from the name of its key and the octets of its value: those
/// of its text without the escapes of a character string (RFC 9460 section 2.1), and none if it has no value.
///
/// The keys that have forms are read by them, if they are named; any other value, and that of `key` and a number, is opaque,
/// and its octets are those of the parameter. Whether all parameters belong together is for
/// `are_parameters` to say.
pub fn with_parameter(
    alloc: Global,
    bytes: &[u8],
    name: &[u8],
    octets: &[u8],
) -> Result<Vec<u8>, ServiceFault>
    ensures ok { IfOk result (λ all.
        with_parameter bytes.now name.now octets.now ≡ Ok all.items) }
    ensures refused { IfErr result (λ fault. fault ≢ ServiceFault.Memory
        → with_parameter bytes.now name.now octets.now ≡ Err fault) }
{
    let Some(key) = key_of(name) else {
        return Err(ServiceFault::UnknownKey);
    };
    if has_key(bytes, usize::from(key)) {
        return Err(ServiceFault::Repeated);
    }
    let value = named_bytes(alloc, name, key, octets)?;
    with_value(alloc, key, value.as_slice(), bytes)
}

/// Returns the bytes of the value of a key, from its name and the octets of its text.
fn named_bytes(alloc: Global, name: &[u8], key: u16, octets: &[u8]) -> Result<Vec<u8>, ServiceFault>
    ensures ok { IfOk result (λ bytes. named_bytes name.now key octets.now ≡ Ok bytes.items) }
    ensures refused { IfErr result (λ fault. fault ≢ ServiceFault.Memory
        → named_bytes name.now key octets.now ≡ Err fault) }
{
    if is_numbered(name) {
        return Ok(Vec::from_slice(alloc, octets)?);
    }
    value_bytes(alloc, key, octets)
}

/// Returns parameters with one more.
fn with_value(alloc: Global, key: u16, value: &[u8], bytes: &[u8]) -> Result<Vec<u8>, ServiceFault>
    ensures ok { IfOk result (λ all. with_value key bytes.now (Ok value.now) ≡ Ok all.items) }
    ensures refused { IfErr result (λ fault. fault ≢ ServiceFault.Memory
        → with_value key bytes.now (Ok value.now) ≡ Err fault) }
{
    if value.len() > 65_535 {
        return Err(ServiceFault::InvalidValue);
    }
    let whole = form(alloc, key, value)?;
    let place = place_of(bytes, usize::from(key));
    Ok(inserted(alloc, place, whole.as_slice(), bytes)?)
}

/// Returns a parameter: its key, the length of its value, and its value.
fn form(alloc: Global, key: u16, value: &[u8]) -> Result<Vec<u8>, AllocError>
    requires { length value.now < 65536 }
    ensures { IfOk result (λ whole. whole.items ≡ form key value.now) }
{
    let mut whole = Vec::new(alloc);
    whole.extend_from_slice(&key.to_be_bytes())?;
    whole.extend_from_slice(&(value.len() as u16).to_be_bytes())?;
    whole.extend_from_slice(value)?;
    Ok(whole)
}

/// Returns the bytes of the value of a key, from the octets of its text.
fn value_bytes(alloc: Global, key: u16, octets: &[u8]) -> Result<Vec<u8>, ServiceFault>
    ensures ok { IfOk result (λ bytes. value_bytes key octets.now ≡ Ok bytes.items) }
    ensures refused { IfErr result (λ fault. fault ≢ ServiceFault.Memory
        → value_bytes key octets.now ≡ Err fault) }
{
    match key {
        0 => list_bytes(alloc, Item::Key, octets),
        1 => list_bytes(alloc, Item::Protocol, octets),
        3 => port_bytes(alloc, octets),
        4 => list_bytes(alloc, Item::Address4, octets),
        5 => base64_bytes(alloc, octets),
        6 => list_bytes(alloc, Item::Address6, octets),
        _ => Ok(Vec::from_slice(alloc, octets)?),
    }
}

/// Returns the bytes of a port.
fn port_bytes(alloc: Global, octets: &[u8]) -> Result<Vec<u8>, ServiceFault>
    ensures ok { IfOk result (λ bytes.
        port_bytes (decimal_up_to 65535 octets.now) ≡ Ok bytes.items) }
    ensures refused { IfErr result (λ fault. fault ≢ ServiceFault.Memory
        → port_bytes (decimal_up_to 65535 octets.now) ≡ Err fault) }
{
    match parse_decimal(octets, 65_535) {
        Some(number) => Ok(Vec::from_slice(alloc, &(number as u16).to_be_bytes())?),
        None => Err(ServiceFault::InvalidValue),
    }
}

/// Returns the bytes of base64.
fn base64_bytes(alloc: Global, octets: &[u8]) -> Result<Vec<u8>, ServiceFault>
    ensures ok { IfOk result (λ bytes.
        base64_bytes (decode_of standard octets.now) ≡ Ok bytes.items) }
    ensures refused { IfErr result (λ fault. fault ≢ ServiceFault.Memory
        → base64_bytes (decode_of standard octets.now) ≡ Err fault) }
{
    match STANDARD.decode(alloc, octets) {
        Ok(bytes) => Ok(bytes),
        // The decoder had no memory for the bytes.
        Err(DecodeAllocError::OutOfMemory) => Err(ServiceFault::Memory),
        Err(_) => Err(ServiceFault::InvalidValue),
    }
}
