//! The records of a `$GENERATE`, one after another (an extension of BIND). A fault of one of its lines ends the directive.

ghost use Rattle.std.specs.Prelude.{◌≡◌, ◌+◌, ◌-◌, ◌*◌, ◌<◌, ◌≤◌, ◌^◌, IfOk, map};
ghost use Rattle.dns_text.specs.Token.{lexeme};
ghost use Rattle.dns_zone_file.specs.internal.Generate.{generation_view};
ghost use Rattle.dns_zone_file.specs.templates.Range.{greatest};
ghost use Rattle.zone_lines.specs.Reading.{AddsEntry, AddsNumber, AddsText, GeneratesLines, fault_at};

use crate::context::add_record;
use crate::fault::{fault_at, fault_line};
use crate::record_line::{EntryLine, Position};
use dns_text::{Lexer, Token};
use dns_zone_file::templates::{GenerateFault, expand};
use dns_zone_file::{
    Context, EntryError, EntryFault, Generation, ZoneFileError, line_text, next_entry,
};
use std::alloc::{AllocError, Global};

/// Adds the records of a `$GENERATE`, and returns them. A fault comes after those before it.
pub(crate) fn add_generated(
    alloc: Global,
    context: &mut Context,
    at: Position,
    generation: &Generation,
) -> Result<Vec<EntryLine>, AllocError>
    requires { generation.now.numbers.start
        + (generation.now.numbers.count - 1) * generation.now.numbers.step ≤ greatest }
    ensures { IfOk result (λ found. GeneratesLines at (generation_view generation.now)
        context.old found.items context.new) }
{
    let mut found = Vec::new(alloc);
    for place in 0..generation.numbers.count {
        let number = generation.numbers.number(place);
        let template = generation.template.as_slice();
        match add_number(alloc, context, at, template, number)? {
            EntryLine::Record(added) => found.push(EntryLine::Record(added))?,
            EntryLine::Fault(fault) => {
                found.push(EntryLine::Fault(fault))?;
                return Ok(found);
            }
        }
    }
    Ok(found)
}

/// Adds the record of a number of a `$GENERATE`, and returns it, or its fault.
fn add_number(
    alloc: Global,
    context: &mut Context,
    at: Position,
    template: &[u8],
    number: u32,
) -> Result<EntryLine, AllocError>
    requires { number < 2 ^ 31 }
    ensures { IfOk result (λ found. AddsNumber at template.now number
        context.old found context.new) }
{
    match expand(alloc, template, number) {
        Ok(line) => add_text(alloc, context, at, line.as_slice()),
        // Memory for the text was refused.
        Err(GenerateFault::Memory) => Err(AllocError),
        Err(fault) => {
            let fault = EntryFault::InvalidGenerate(fault);
            Ok(EntryLine::Fault(fault_at(at, fault)))
        }
    }
}

/// Adds the record of a text that a `$GENERATE` makes, and returns it, or its fault.
fn add_text(
    alloc: Global,
    context: &mut Context,
    at: Position,
    line: &[u8],
) -> Result<EntryLine, AllocError>
    ensures { IfOk result (λ found. AddsText at line.now context.old found context.new) }
{
    let text = match line_text(line) {
        Ok(text) => text,
        Err(_) => return Ok(no_entry(at)),
    };
    let mut lexer = Lexer::with_quotes(text, context.types.quotes());
    match next_entry(alloc, &mut lexer) {
        Ok(Some(tokens)) => add_entry(alloc, context, at, tokens.as_slice()),
        Ok(None) => Ok(no_entry(at)),
        Err(ZoneFileError::Lexer(_)) => Ok(no_entry(at)),
        // Memory was refused while the text was read.
        Err(_) => Err(AllocError),
    }
}

/// Returns the fault of a `$GENERATE` that makes a text without an entry.
fn no_entry(at: Position) -> EntryLine
    ensures { result ≡ EntryLine.Fault (fault_at at EntryFault.InvalidDirective) }
{
    EntryLine::Fault(fault_at(at, EntryFault::InvalidDirective))
}

/// Adds the record of an entry, and returns it, or its fault.
fn add_entry(
    alloc: Global,
    context: &mut Context,
    at: Position,
    tokens: &[Token<'_>],
) -> Result<EntryLine, AllocError>
    ensures { IfOk result (λ found. AddsEntry at (map lexeme tokens.now)
        context.old found context.new) }
{
    match add_record(alloc, context, at, tokens) {
        Ok(found) => Ok(EntryLine::Record(found)),
        Err(EntryError::Fault(fault)) => {
            Ok(EntryLine::Fault(fault_line(alloc, context, at, tokens, fault)?))
        }
        // Memory was refused while the record was added.
        Err(EntryError::Memory) => Err(AllocError),
    }
}
