//! The fields of record data on the wire (RFC 1035 section 3.3).

ghost use Rattle.std.specs.Prelude.{◌≡◌, ◌≢◌, ◌+◌, ◌<◌, ◌≤◌, ℕ, List, length, drop, flat_map, IfOk, IfErr, Err};
ghost use Rattle.std.specs.Net.Addr.{ipv6_octets};
ghost use Rattle.dns_wire.specs.Encoder.{state_of, IsAtEnd};
ghost use Rattle.dns_wire.specs.Encodable.{Piece, Emits, BytesAt};
ghost use Rattle.dns_data.specs.Field.{Address4, Address6, string_pieces, option_pieces};
ghost use Rattle.dns_data.specs.Wire.{StringAt, OptionAt, ItemsUpTo, RefusesItems, NoneAt, ValueAt, IsShort};

use crate::octets::{CharacterString, Octets, TooLong};
use crate::rdata::EdnsOption;
use dns_wire::{BinDecoder, BinEncodable, BinEncoder, DecodeError, EncodeError};
use std::alloc::Global;
use std::net::{Ipv4Addr, Ipv6Addr};

// ---- addresses

/// Reads an IPv4 address.
pub(crate) fn read_ipv4(decoder: &mut BinDecoder<'_>) -> Result<Ipv4Addr, DecodeError>
    ensures read { IfOk result (λ address. (data_end : ℕ) → ValueAt decoder.old.bytes data_end
        Address4 decoder.old.index address decoder.new.index) }
    ensures refused { IfErr result
        (λ error. IsShort decoder.old.bytes decoder.old.index 4 error) }
    ensures bytes { decoder.new.bytes ≡ decoder.old.bytes }
{
    let bits = decoder.read_u32()?;
    Ok(Ipv4Addr::from_bits(bits))
}

/// Reads an IPv6 address.
pub(crate) fn read_ipv6(decoder: &mut BinDecoder<'_>) -> Result<Ipv6Addr, DecodeError>
    ensures read { IfOk result (λ address. (data_end : ℕ) → ValueAt decoder.old.bytes data_end
        Address6 decoder.old.index address decoder.new.index) }
    ensures refused { IfErr result
        (λ error. IsShort decoder.old.bytes decoder.old.index 16 error) }
    ensures bytes { decoder.new.bytes ≡ decoder.old.bytes }
{
    let mut octets = [0; 16];
    octets.copy_from_slice(decoder.read_slice(16)?);
    Ok(ipv6_from_octets(octets))
}

/// Creates an IPv6 address from its octets.
fn ipv6_from_octets(octets: [u8; 16]) -> Ipv6Addr
    ensures octets { ipv6_octets result ≡ octets }
    ensures len { length octets ≡ 16 }
{
    Ipv6Addr::from_octets(octets)
}

// ---- bytes

/// Reads `len` bytes, at most `MAX`.
pub(crate) fn read_octets<const MAX: usize>(
    alloc: Global,
    decoder: &mut BinDecoder<'_>,
    len: usize,
) -> Result<Octets<MAX>, DecodeError>
    requires most { len ≤ MAX }
    requires within { decoder.old.index ≤ length decoder.old.bytes }
    ensures read { IfOk result
        (λ octets. BytesAt decoder.old.bytes decoder.old.index octets decoder.new.index) }
    ensures len { IfOk result (λ octets. length octets ≡ len) }
    ensures refused { IfErr result (λ error. error ≢ DecodeError.Memory
        → IsShort decoder.old.bytes decoder.old.index len error) }
    ensures short { length (drop decoder.old.index decoder.old.bytes) < len
        → result ≡ Err DecodeError.InsufficientBytes }
    ensures bytes { decoder.new.bytes ≡ decoder.old.bytes }
{
    let bytes = decoder.read_vec(alloc, len)?;
    match Octets::new(bytes) {
        Ok(octets) => Ok(octets),
        Err(TooLong) => unreachable!(),
    }
}

// ---- items

/// An item of data whose items extend to its end.
pub(crate) trait Item: Drop {
    /// The bytes from a place up to an end decode to the item.
    ghost ItemAt: { List ℕ → ℕ → Self → ℕ → Type 0 };

    /// The pieces that are written for it.
    ghost item_pieces: { Self → List Piece };

    /// Reads an item.
    fn read_item(alloc: Global, decoder: &mut BinDecoder<'_>) -> Result<Self, DecodeError>
        ensures read { IfOk result (λ item.
            ItemAt decoder.old.bytes decoder.old.index item decoder.new.index) }
        ensures onward { IfOk result (λ _. decoder.old.index < decoder.new.index) }
        ensures refused { IfErr result (λ error. error ≢ DecodeError.Memory
            → (error ≡ DecodeError.InsufficientBytes)
            × NoneAt (ItemAt decoder.old.bytes) decoder.old.index) }
        ensures bytes { decoder.new.bytes ≡ decoder.old.bytes };

    /// Writes the item.
    fn emit_item(&self, encoder: &mut BinEncoder<'_>) -> Result<(), EncodeError>
        requires { IsAtEnd (state_of encoder.old) }
        ensures { Emits (state_of encoder.old) (item_pieces self.now) result
            (state_of encoder.new) };
}

/// Reads items up to the end of data of `len` bytes. The last may extend past it.
pub(crate) fn read_items<T: Item>(
    alloc: Global,
    decoder: &mut BinDecoder<'_>,
    len: usize,
) -> Result<Vec<T>, DecodeError>
    ensures read { IfOk result (λ items. ItemsUpTo (T.ItemAt decoder.old.bytes)
        (decoder.old.index + len) decoder.old.index items.items decoder.new.index) }
    ensures refused { IfErr result (λ error. error ≢ DecodeError.Memory
        → (error ≡ DecodeError.InsufficientBytes)
        × RefusesItems (T.ItemAt decoder.old.bytes) (decoder.old.index + len) decoder.old.index) }
    ensures bytes { decoder.new.bytes ≡ decoder.old.bytes }
{
    let start = decoder.index();
    let mut items = Vec::new(alloc);
    while decoder.index() - start < len {
        let item = T::read_item(alloc, decoder)?;
        items.push(item)?;
    }
    Ok(items)
}

/// Writes items.
pub(crate) fn emit_items<T: Item>(
    items: &[T],
    encoder: &mut BinEncoder<'_>,
) -> Result<(), EncodeError>
    requires { IsAtEnd (state_of encoder.old) }
    ensures { Emits (state_of encoder.old) (flat_map T.item_pieces items.now) result
        (state_of encoder.new) }
{
    for item in items {
        item.emit_item(encoder)?;
    }
    Ok(())
}

impl Item for CharacterString {
    ghost ItemAt = { StringAt };

    ghost item_pieces = { string_pieces };

    fn read_item(
        alloc: Global,
        decoder: &mut BinDecoder<'_>,
    ) -> Result<CharacterString, DecodeError> {
        let len = decoder.read_u8()?;
        read_octets(alloc, decoder, usize::from(len))
    }

    fn emit_item(&self, encoder: &mut BinEncoder<'_>) -> Result<(), EncodeError> {
        encoder.emit_character_data_unrestricted(self.as_slice())
    }
}

impl Item for EdnsOption {
    ghost ItemAt = { OptionAt };

    ghost item_pieces = { option_pieces };

    fn read_item(alloc: Global, decoder: &mut BinDecoder<'_>) -> Result<EdnsOption, DecodeError> {
        let code = decoder.read_u16()?;
        let len = decoder.read_u16()?;
        let octets = read_octets(alloc, decoder, usize::from(len))?;
        Ok(EdnsOption::new(code, octets))
    }

    fn emit_item(&self, encoder: &mut BinEncoder<'_>) -> Result<(), EncodeError> {
        self.emit(encoder)
    }
}
