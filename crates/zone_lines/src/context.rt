//! What an entry adds to the context of those after it, and what one with a fault leaves (RFC 1035 section 5.1). A fault does
//! not end the file here.

ghost use Rattle.std.specs.Prelude.{◌≡◌, ◌<◌, map, length, Ok, Err, Some, None, IfOk, IfErr, OnOk, true, false};
ghost use Rattle.dns_text.specs.Token.{lexeme};
ghost use Rattle.dns_data.specs.rdata.{data_type};
ghost use Rattle.dns_zone_file.specs.Context.{RefusesRecord, after_record};
ghost use Rattle.dns_zone_file.specs.Entry.{entry_of, record_entry};
ghost use Rattle.dns_zone_file.specs.RecordSets.{IsNamedType, has_other_class, inserted_in};
ghost use Rattle.dns_zone_file.specs.internal.Error.{IsFault};
ghost use Rattle.zone_lines.specs.Dotless.{has_dotless_name};
ghost use Rattle.zone_lines.specs.Reading.{AddsLine, RefusesAlone, after_fault, count_of, earlier_of, has_other_ttl, record_on, ttl_after};
ghost use Rattle.zone_lines.specs.internal.Context.{EffectIs};

use crate::dotless::has_dotless_name;
use crate::generate::add_generated;
use crate::record_line::{Earlier, EntryLine, Position, RecordLine};
use dns_records::Record;
use dns_text::Token;
use dns_zone_file::{
    Context, Entry, EntryError, EntryFault, Inclusion, ParsedRecord, RecordSets, entry_of,
    generate_arguments, parse_default_ttl, parse_fields, parse_generation, parse_inclusion,
    parse_origin,
};
use std::alloc::{AllocError, Global};

/// What an entry without a fault is.
#[derive(Drop)]
pub(crate) enum Effect<'a> {
    /// Nothing, or a directive.
    Applied,
    Record(RecordLine),
    /// The records of a `$GENERATE`, and perhaps its fault.
    Generated(Vec<EntryLine>),
    Includes(Inclusion<'a>),
}

/// Applies an entry, and returns what it is. A fault, and a text to include, leave the context unchanged.
pub(crate) fn apply<'a>(
    alloc: Global,
    context: &mut Context,
    at: Position,
    tokens: &[Token<'a>],
) -> Result<Effect<'a>, EntryError>
    ensures ok { IfOk result (λ effect. EffectIs context.old at
        (map lexeme tokens.now) effect context.new) }
    ensures refused { IfErr result (IsFault (λ fault.
        RefusesAlone context.old (map lexeme tokens.now) fault × (context.new ≡ context.old))) }
{
    match entry_of(tokens) {
        Entry::Nothing => Ok(Effect::Applied),
        Entry::Origin(arguments) => {
            let origin = parse_origin(alloc, arguments, &context.origin)?;
            context.origin = origin;
            Ok(Effect::Applied)
        }
        Entry::Ttl(arguments) => {
            let ttl = parse_default_ttl(arguments)?;
            context.default_ttl = Some(ttl);
            Ok(Effect::Applied)
        }
        Entry::Include(arguments) => {
            let inclusion = parse_inclusion(alloc, arguments, &context.origin)?;
            Ok(Effect::Includes(inclusion))
        }
        Entry::Record => add_records(alloc, context, at, tokens),
    }
}

/// Adds the record of an entry, or those of a `$GENERATE`. A fault leaves the context unchanged.
fn add_records<'a>(
    alloc: Global,
    context: &mut Context,
    at: Position,
    tokens: &[Token<'a>],
) -> Result<Effect<'a>, EntryError>
    ensures ok { IfOk result (λ effect. entry_of (map lexeme tokens.now) ≡ record_entry
        → EffectIs context.old at (map lexeme tokens.now) effect context.new) }
    ensures refused { IfErr result (IsFault (λ fault.
        entry_of (map lexeme tokens.now) ≡ record_entry
        → RefusesAlone context.old (map lexeme tokens.now) fault × (context.new ≡ context.old))) }
{
    match generate_arguments(context.types, tokens) {
        Some(arguments) => {
            let generation = parse_generation(alloc, arguments)?;
            Ok(Effect::Generated(add_generated(alloc, context, at, &generation)?))
        }
        None => Ok(Effect::Record(add_record(alloc, context, at, tokens)?)),
    }
}

/// Parses the entry of a record, and adds the record. A fault leaves the context unchanged.
pub(crate) fn add_record(
    alloc: Global,
    context: &mut Context,
    at: Position,
    tokens: &[Token<'_>],
) -> Result<RecordLine, EntryError>
    ensures ok { IfOk result (λ found. AddsLine context.old at
        (map lexeme tokens.now) found context.new) }
    ensures refused { IfErr result (IsFault (λ fault.
        RefusesRecord context.old (map lexeme tokens.now) fault × (context.new ≡ context.old))) }
{
    let added = context.parse_record(alloc, tokens)?;
    insert_record(context, at, tokens, added)
}

/// Adds the record of an entry, of the class of the others of its set. A fault leaves the context unchanged.
fn insert_record(
    context: &mut Context,
    at: Position,
    tokens: &[Token<'_>],
    added: ParsedRecord,
) -> Result<RecordLine, EntryError>
    requires { IsNamedType (data_type added.parsed.rdata) }
    ensures fits { OnOk result (has_other_class context.old.sets added.parsed ≡ false) }
    ensures found { IfOk result (λ found. found ≡ record_on at context.old.sets
        (has_dotless_name context.old.types (map lexeme tokens.now)) added.parsed) }
    ensures ok { OnOk result (context.new ≡ after_record context.old added.stated added.parsed) }
    ensures refused { IfErr result (IsFault (λ fault. (fault ≡ EntryFault.ClassMismatch)
        × (has_other_class context.old.sets added.parsed ≡ true)
        × (context.new ≡ context.old))) }
{
    if context.sets.has_other_class(&added.parsed) {
        return Err(EntryError::Fault(EntryFault::ClassMismatch));
    }
    let has_dotless_name = has_dotless_name(context.types, tokens);
    context.note_record(added.stated, &added.parsed)?;
    let earlier = insert_copy(context, &added.parsed)?;
    let parts = added.parsed.into_parts();
    Ok(RecordLine {
        at,
        owner: parts.name,
        ttl: parts.ttl,
        dns_class: parts.dns_class,
        rdata: parts.rdata,
        has_dotless_name,
        earlier,
    })
}

/// Inserts a copy of a record in its set, and returns what the set was to it.
fn insert_copy(context: &mut Context, parsed: &Record) -> Result<Earlier, AllocError>
    requires { IsNamedType (data_type parsed.now.rdata) }
    ensures earlier { IfOk result (λ earlier. earlier ≡ earlier_of context.old.sets parsed.now) }
    ensures ok { OnOk result (context.new ≡ record context.old {
      sets = inserted_in context.old.sets parsed.now;
    }) }
{
    let before = count_of(&context.sets, parsed);
    let has_other_ttl = has_other_ttl(&context.sets, parsed);
    let copy = parsed.clone()?;
    context.sets.insert(copy)?;
    Ok(Earlier {
        exists: before.is_some(),
        has_other_ttl,
        is_no_more: count_of(&context.sets, parsed) == before,
    })
}

/// Returns the number of records in the set of a record's owner and type, if there is one.
fn count_of(sets: &RecordSets, parsed: &Record) -> Option<usize>
    ensures { result ≡ count_of sets.now parsed.now }
{
    match sets.get(&parsed.name, parsed.record_type()) {
        Some(set) => Some(set.records_count()),
        None => None,
    }
}

/// Returns `true` if the set of a record's owner and type has another TTL.
fn has_other_ttl(sets: &RecordSets, parsed: &Record) -> bool
    ensures { result ≡ has_other_ttl sets.now parsed.now }
{
    match sets.get(&parsed.name, parsed.record_type()) {
        Some(set) => set.ttl() != parsed.ttl,
        None => false,
    }
}

/// Keeps what an entry with a fault determines for the next ones: its owner and its TTL, if they can be read. A missing TTL is
/// taken as 0, so that it is missing only once.
pub(crate) fn recover(
    alloc: Global,
    context: &mut Context,
    tokens: &[Token<'_>],
    fault: &EntryFault,
) -> Result<(), AllocError>
    ensures { OnOk result (context.new
        ≡ after_fault context.old (map lexeme tokens.now) fault.now) }
{
    if !matches!(entry_of(tokens), Entry::Record) {
        return Ok(());
    }
    recover_ttl(context, tokens, fault);
    match context.parse_owner(alloc, tokens) {
        Ok(owner) => context.owner = Some(owner),
        Err(EntryError::Fault(_)) => {}
        // Memory was refused while the owner was parsed.
        Err(EntryError::Memory) => return Err(AllocError),
    }
    Ok(())
}

/// Keeps the TTL that an entry with a fault states, if it can be read.
fn recover_ttl(context: &mut Context, tokens: &[Token<'_>], fault: &EntryFault)
    requires { 0 < length tokens.now }
    ensures { context.new ≡ record context.old {
      last_ttl = ttl_after context.old (map lexeme tokens.now) fault.now;
    } }
{
    if matches!(fault, EntryFault::NoTtl) {
        context.last_ttl = Some(0);
        return;
    }
    if let Ok(fields) = parse_fields(context.types, &tokens[1..]) {
        context.last_ttl = fields.ttl.or(context.last_ttl);
    }
}
