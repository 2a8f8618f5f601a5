//! The faults of entries.

ghost use Rattle.std.specs.Prelude.{◌≡◌, IfOk, map, option_map, string_bytes};
ghost use Rattle.dns_text.specs.Token.{lexeme};
ghost use Rattle.zone_lines.specs.Reading.{IsFaultLine, fault_at, include_fault, meant_apex, owner_or_origin, stated_origin, type_of_entry};
ghost use Rattle.zone_lines.specs.Word.{HasFaultyToken};

use crate::record_line::{FaultLine, Position};
use crate::word::{faulty_token, names_start};
use dns_names::Name;
use dns_text::Token;
use dns_wire::RecordType;
use dns_zone_file::{Context, EntryError, EntryFault, Types, ZoneFileError, parse_fields};
use std::alloc::{AllocError, Global};

/// Returns the fault of an entry with its tokens.
pub(crate) fn fault_line(
    alloc: Global,
    context: &Context,
    at: Position,
    tokens: &[Token<'_>],
    fault: EntryFault,
) -> Result<FaultLine, AllocError>
    ensures { IfOk result (λ found. IsFaultLine context.now at
        (map lexeme tokens.now) fault found) }
{
    Ok(FaultLine {
        source: at.source,
        error: ZoneFileError::Entry(at.line, fault),
        word: word_of(alloc, context, tokens)?,
        record_type: type_of(context.types, tokens),
        may_be_start: names_start(tokens),
        apex: meant_apex(alloc, context, tokens)?,
    })
}

/// Returns the text of the token at fault in an entry, if there is one.
pub(crate) fn word_of(
    alloc: Global,
    context: &Context,
    tokens: &[Token<'_>],
) -> Result<Option<String>, AllocError>
    ensures { IfOk result (λ word. HasFaultyToken context.now
        (map lexeme tokens.now) (option_map string_bytes word)) }
{
    match faulty_token(alloc, context, tokens)? {
        Some(word) => Ok(Some(String::from_str(alloc, word)?)),
        None => Ok(None),
    }
}

/// Returns the type that an entry states, if it can be read.
pub(crate) fn type_of(types: Types, tokens: &[Token<'_>]) -> Option<RecordType>
    ensures { result ≡ type_of_entry types (map lexeme tokens.now) }
{
    let [_, fields @ ..] = tokens else {
        return None;
    };
    match parse_fields(types, fields) {
        Ok(fields) => Some(fields.record_type),
        Err(_) => None,
    }
}

/// Returns the origin of the zone, if an entry with a fault is meant as an SOA record: its owner, if that can be read, or else
/// the origin.
pub(crate) fn meant_apex(
    alloc: Global,
    context: &Context,
    tokens: &[Token<'_>],
) -> Result<Option<Name>, AllocError>
    ensures { IfOk result (λ apex. apex ≡ meant_apex context.now (map lexeme tokens.now)) }
{
    match type_of(context.types, tokens) {
        Some(RecordType::SOA) => owner_or_origin(alloc, context, tokens),
        _ => Ok(None),
    }
}

/// Returns the owner of an entry, if it can be read, or else the origin, unless that is the root.
fn owner_or_origin(
    alloc: Global,
    context: &Context,
    tokens: &[Token<'_>],
) -> Result<Option<Name>, AllocError>
    ensures { IfOk result (λ apex. apex ≡ owner_or_origin context.now (map lexeme tokens.now)) }
{
    match context.parse_owner(alloc, tokens) {
        Ok(owner) => Ok(Some(owner)),
        Err(EntryError::Fault(_)) => stated_origin(context),
        // Memory was refused while the owner was parsed.
        Err(EntryError::Memory) => Err(AllocError),
    }
}

/// Returns the origin that completes names, unless it is the root.
pub(crate) fn stated_origin(context: &Context) -> Result<Option<Name>, AllocError>
    ensures { IfOk result (λ origin. origin ≡ stated_origin context.now) }
{
    if context.origin.iter().len() == 0 {
        return Ok(None);
    }
    Ok(Some(context.origin.clone()?))
}

/// Returns the fault of an entry at a place, of whose tokens nothing is known.
pub(crate) fn fault_at(at: Position, fault: EntryFault) -> FaultLine
    ensures { result ≡ fault_at at fault }
{
    include_fault(at.source, ZoneFileError::Entry(at.line, fault))
}

/// Returns the fault of an entry that includes a text, or of one of whose tokens nothing is known.
pub(crate) fn include_fault(source: usize, error: ZoneFileError) -> FaultLine
    ensures { result ≡ include_fault source error }
{
    FaultLine {
        source,
        error,
        word: None,
        record_type: None,
        may_be_start: false,
        apex: None,
    }
}
