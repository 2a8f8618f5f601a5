//! The data of records in zone files: of the types with fields alone, or of all types and in the generic form (RFC 3597
//! section 5).

ghost use Rattle.std.specs.Prelude.{◌≡◌, ◌<◌, ◌^◌, map, length, Ok, Err, Some, IfOk, IfErr, option_map};
ghost use Rattle.dns_wire.specs.codes.RecordType.{type_number};
ghost use Rattle.dns_text.specs.Token.{lexeme};
ghost use Rattle.dns_data.specs.rdata.{data_type, IsParsedData};
ghost use Rattle.dns_zone_file.specs.Data.{is_meta_type, has_bytes, bytes_of, plain_fields, is_plain, IsDataOf, RefusesBytes, IsAnyData, RefusesAny, ReadsIn, RefusesIn, RefusesValues};
ghost use Rattle.dns_zone_file.specs.RecordSets.{IsNamedType};
ghost use Rattle.dns_zone_file.specs.internal.Data.{IsFormatFault};
ghost use Rattle.dns_zone_file.specs.internal.Error.{IsFault};

use crate::error::{EntryError, EntryFault};
use crate::types::Types;
use dns_data::{RData, RDataParseError};
use dns_formats::{Field, FormatFault, fits, format_of, is_generic, read_data};
use dns_names::Name;
use dns_text::Token;
use dns_wire::laws::type_number_round_trips;
use dns_wire::{BinDecoder, DecodeError, RecordType};
use std::alloc::Global;

/// Parses the data of a record from its tokens, exactly as the parser of zone files does. The origin completes relative names.
pub fn parse_rdata(
    alloc: Global,
    types: Types,
    record_type: RecordType,
    tokens: &[Token<'_>],
    origin: &Name,
) -> Result<RData, EntryError>
    ensures parsed { IfOk result
        (ReadsIn types origin.now record_type (map lexeme tokens.now)) }
    ensures named { IfOk result (λ d. IsNamedType (data_type d)) }
    ensures refused { IfErr result (IsFault
        (RefusesIn types origin.now record_type (map lexeme tokens.now))) }
{
    match types {
        Types::Nine => parse_values(alloc, record_type, tokens, origin),
        Types::All => parse_any(alloc, record_type, tokens, origin),
    }
}

/// Parses the data of a record of a type with fields.
fn parse_values(
    alloc: Global,
    record_type: RecordType,
    tokens: &[Token<'_>],
    origin: &Name,
) -> Result<RData, EntryError>
    ensures parsed { IfOk result (IsParsedData (Some origin.now) record_type
        (map lexeme tokens.now)) }
    ensures named { IfOk result (λ d. IsNamedType (data_type d)) }
    ensures refused { IfErr result (IsFault
        (RefusesValues origin.now record_type (map lexeme tokens.now))) }
{
    type_number_round_trips();
    match RData::parse(alloc, record_type, tokens, Some(origin)) {
        Ok(rdata) => Ok(rdata),
        // Memory for the data was refused.
        Err(RDataParseError::Memory) => Err(EntryError::Memory),
        Err(error) => Err(EntryError::Fault(EntryFault::InvalidData(error))),
    }
}

/// Parses the data of a record of any type, or in the generic form.
fn parse_any(
    alloc: Global,
    record_type: RecordType,
    tokens: &[Token<'_>],
    origin: &Name,
) -> Result<RData, EntryError>
    ensures parsed { IfOk result (IsAnyData origin.now record_type (map lexeme tokens.now)) }
    ensures named { IfOk result (λ d. IsNamedType (data_type d)) }
    ensures refused { IfErr result (IsFault
        (RefusesAny origin.now record_type (map lexeme tokens.now))) }
{
    if !has_bytes(record_type, tokens) {
        return parse_values(alloc, record_type, tokens, origin);
    }
    let bytes = read_bytes(alloc, record_type, tokens, origin)?;
    data_of(alloc, record_type, bytes.as_slice())
}

/// Returns `true` if the tokens of data are read as bytes: in the generic form, or by the fields of the type.
fn has_bytes(record_type: RecordType, tokens: &[Token<'_>]) -> bool
    ensures { result ≡ has_bytes (type_number record_type) (map lexeme tokens.now) }
{
    !is_meta_type(u16::from(record_type))
        && (is_generic(tokens) || format_of(record_type).is_some())
}

/// Returns `true` for the number of a type that no record of a zone has (RFC 6891 section 6.1.1, RFC 6895 section 3.1).
fn is_meta_type(number: u16) -> bool
    ensures { result ≡ is_meta_type number }
{
    matches!(number, 0 | 41 | 128..=255)
}

/// Reads the bytes of data.
fn read_bytes(
    alloc: Global,
    record_type: RecordType,
    tokens: &[Token<'_>],
    origin: &Name,
) -> Result<Vec<u8>, EntryError>
    ensures ok { IfOk result (λ bytes.
        bytes_of origin.now record_type (map lexeme tokens.now) ≡ Ok bytes.items) }
    ensures fits { IfOk result (λ bytes. length bytes.items < 2 ^ 16) }
    ensures refused { IfErr result (IsFault (IsFormatFault (λ fault.
        bytes_of origin.now record_type (map lexeme tokens.now) ≡ Err fault))) }
{
    match read_data(alloc, record_type, tokens, Some(origin)) {
        Ok(bytes) => Ok(bytes),
        // Memory for the bytes was refused.
        Err(FormatFault::Memory) => Err(EntryError::Memory),
        Err(fault) => Err(EntryError::Fault(EntryFault::InvalidFormat(fault))),
    }
}

/// Returns the data of a type that bytes are.
fn data_of(alloc: Global, record_type: RecordType, bytes: &[u8]) -> Result<RData, EntryError>
    requires { length bytes.now < 2 ^ 16 }
    ensures ok { IfOk result (IsDataOf record_type bytes.now) }
    ensures named { IfOk result (λ d. IsNamedType (data_type d)) }
    ensures refused { IfErr result (IsFault (RefusesBytes record_type bytes.now)) }
{
    if bytes.is_empty() {
        return Err(EntryError::Fault(EntryFault::NoData));
    }
    if !is_plain(u16::from(record_type), bytes) {
        return Err(EntryError::Fault(EntryFault::InvalidFormat(FormatFault::NotOfType)));
    }
    let mut decoder = BinDecoder::new(bytes);
    match RData::read(alloc, &mut decoder, record_type, bytes.len() as u16) {
        Ok(rdata) => Ok(rdata),
        // Memory for the data was refused.
        Err(DecodeError::Memory) => Err(EntryError::Memory),
        Err(_) => Err(EntryError::Fault(EntryFault::InvalidFormat(FormatFault::NotOfType))),
    }
}

/// Returns `true` if no name in the bytes of data is compressed.
fn is_plain(number: u16, bytes: &[u8]) -> bool
    ensures { result ≡ is_plain number bytes.now }
{
    match plain_fields(number) {
        Some(fields) => fits(fields, bytes),
        None => true,
    }
}

/// Returns the fields of the type with a number, if messages compress its names (RFC 3597 section 4).
fn plain_fields(number: u16) -> Option<&'static [Field]>
    ensures { option_map (λ fields. fields.now) result ≡ plain_fields number }
{
    match number {
        2 | 5 | 12 => Some(&[Field::Name]),
        6 => Some(&[
            Field::Name,
            Field::Name,
            Field::Number32,
            Field::Number32,
            Field::Number32,
            Field::Number32,
            Field::Number32,
        ]),
        15 => Some(&[Field::Number16, Field::Name]),
        33 => Some(&[
            Field::Number16,
            Field::Number16,
            Field::Number16,
            Field::Name,
        ]),
        _ => None,
    }
}
