//! The tokens of record data, read as its bytes.

ghost use Rattle.std.specs.Prelude.{◌≡◌, ◌≢◌, ◌≤◌, ◌<◌, ◌+◌, length, drop, map, None, false, Ok, Err, IfOk, IfErr, option_map};
ghost use Rattle.dns_text.specs.Token.{lexeme};
ghost use Rattle.dns_wire.specs.codes.RecordType.{type_number};
ghost use Rattle.dns_formats.specs.Data.{is_generic, generic_bytes, of_type, short_data, data_bytes};
ghost use Rattle.dns_formats.specs.Field.{fields_of};
ghost use Rattle.dns_formats.specs.Value.{Appends};
ghost use Rattle.dns_formats.specs.Read.{is_missing, fields_bytes, located, field_bytes, taken};

use crate::fault::FormatFault;
use crate::field::{Field, format_of};
use crate::generic::{is_generic, read_generic};
use crate::rest::push_rest;
use crate::value::push_value;
use crate::wire::fits;
use dns_names::Name;
use dns_text::Token;
use dns_wire::codes::RecordType;
use std::alloc::Global;

/// Reads the data of a record of a type from its tokens: the fields of the type, or the generic form. The origin completes
/// relative names.
///
/// The bytes are the data with uncompressed names (RFC 3597 section 4). The generic form is read for each type; if the type
/// has fields, the bytes must be their values (RFC 3597 section 5). A type without fields has no other form.
pub fn read_data(
    alloc: Global,
    record_type: RecordType,
    tokens: &[Token<'_>],
    origin: Option<&Name>,
) -> Result<Vec<u8>, FormatFault>
    ensures ok { IfOk result (λ bytes. data_bytes (option_map (λ o. o.now) origin.entry)
        (fields_of (type_number record_type)) (map lexeme tokens.now) ≡ Ok bytes.items) }
    ensures refused { IfErr result (λ fault. fault ≢ FormatFault.Memory
        → data_bytes (option_map (λ o. o.now) origin.entry)
        (fields_of (type_number record_type)) (map lexeme tokens.now) ≡ Err fault) }
    ensures decided { fields_of (type_number record_type) ≡ None
        → is_generic (map lexeme tokens.now) ≡ false → result ≡ Err FormatFault.NoFormat }
{
    let fields = format_of(record_type);
    if is_generic(tokens) {
        return read_generic_of(alloc, fields, &tokens[1..]);
    }
    match fields {
        Some(fields) => read_fields(alloc, fields, tokens, origin),
        None => Err(FormatFault::NoFormat),
    }
}

/// Reads the generic form of data, from the tokens after `\#`.
fn read_generic_of(
    alloc: Global,
    fields: Option<&[Field]>,
    tokens: &[Token<'_>],
) -> Result<Vec<u8>, FormatFault>
    ensures ok { IfOk result (λ bytes. of_type (option_map (λ fields. fields.now) fields.entry)
        (generic_bytes (map lexeme tokens.now)) ≡ Ok bytes.items) }
    ensures refused { IfErr result (λ fault. fault ≢ FormatFault.Memory
        → of_type (option_map (λ fields. fields.now) fields.entry)
        (generic_bytes (map lexeme tokens.now)) ≡ Err fault) }
{
    let bytes = read_generic(alloc, tokens)?;
    match fields {
        Some(fields) if !fits(fields, bytes.as_slice()) => Err(FormatFault::NotOfType),
        _ => Ok(bytes),
    }
}

/// Reads fields from their tokens.
fn read_fields(
    alloc: Global,
    fields: &[Field],
    tokens: &[Token<'_>],
    origin: Option<&Name>,
) -> Result<Vec<u8>, FormatFault>
    ensures ok { IfOk result (λ bytes. short_data (fields_bytes
        (option_map (λ o. o.now) origin.entry) fields.now 0 (map lexeme tokens.now))
        ≡ Ok bytes.items) }
    ensures refused { IfErr result (λ fault. fault ≢ FormatFault.Memory → short_data (fields_bytes
        (option_map (λ o. o.now) origin.entry) fields.now 0 (map lexeme tokens.now))
        ≡ Err fault) }
{
    let mut bytes = Vec::new(alloc);
    push_fields(alloc, fields, tokens, origin, &mut bytes)?;
    if bytes.len() > 65_535 {
        return Err(FormatFault::TooLong);
    }
    Ok(bytes)
}

/// Appends the bytes of fields.
fn push_fields(
    alloc: Global,
    fields: &[Field],
    tokens: &[Token<'_>],
    origin: Option<&Name>,
    out: &mut Vec<u8>,
) -> Result<(), FormatFault>
    ensures { Appends FormatFault.Memory
        (fields_bytes (option_map (λ o. o.now) origin.entry) fields.now 0 (map lexeme tokens.now))
        out.old.items result out.new.items }
{
    let mut place = 0;
    for field in fields {
        if is_missing(*field, place, tokens) {
            return Err(FormatFault::MissingToken(place));
        }
        place = push_field(alloc, *field, place, tokens, origin, out)?;
    }
    if place < tokens.len() {
        return Err(FormatFault::UnexpectedToken(place));
    }
    Ok(())
}

/// Returns `true` if there is no token from a place on for a field that needs one.
fn is_missing(field: Field, place: usize, tokens: &[Token<'_>]) -> bool
    requires { place ≤ length tokens.now }
    ensures { result ≡ is_missing field (map lexeme (drop place tokens.now)) }
{
    if place < tokens.len() {
        return false;
    }
    !field.may_be_empty()
}

/// Appends the bytes of the field whose first token is at a place, and returns the place of the next token.
fn push_field(
    alloc: Global,
    field: Field,
    place: usize,
    tokens: &[Token<'_>],
    origin: Option<&Name>,
    out: &mut Vec<u8>,
) -> Result<usize, FormatFault>
    requires within { place ≤ length tokens.now }
    requires present { is_missing field (map lexeme (drop place tokens.now)) ≡ false }
    ensures bytes { Appends FormatFault.Memory
        (located place (field_bytes (option_map (λ o. o.now) origin.entry) field
        (map lexeme (drop place tokens.now))))
        out.old.items result out.new.items }
    ensures next { IfOk result
        (λ next. next ≡ place + taken field (map lexeme (drop place tokens.now))) }
    ensures within { IfOk result (λ next. next ≤ length tokens.now) }
{
    if field.takes_rest() {
        return match push_rest(alloc, field, &tokens[place..], out) {
            Ok(()) => Ok(tokens.len()),
            Err(fault) => Err(fault.at(place)),
        };
    }
    match push_value(alloc, field, tokens[place], origin, out) {
        Ok(()) => Ok(place + 1),
        Err(fault) => Err(fault.at(place)),
    }
}
