//! The entries of a zone file, in order: its records and its faults (RFC 1035 section 5.1).

ghost use Rattle.std.specs.Prelude.{◌≡◌, ◌+◌, IfOk, map, option_copied};
ghost use Rattle.dns_text.specs.Token.{lexeme};
ghost use Rattle.dns_zone_file.specs.Parsing.{start_in, start_origin};
ghost use Rattle.dns_zone_file.specs.internal.Entry.{inclusion_view};
ghost use Rattle.dns_zone_file.specs.internal.Parsing.{includes_view};
ghost use Rattle.zone_lines.specs.Source.{text_view};
ghost use Rattle.zone_lines.specs.Reading.{Reads, ReadsFile, moved, stated_origin, text_fault};
ghost use Rattle.zone_lines.specs.internal.Reading.{EntryStep, IncludeStep, TakesStep};

use crate::context::{Effect, apply, recover};
use crate::fault::{include_fault, meant_apex, stated_origin, type_of, word_of};
use crate::record_line::{EntryLine, FaultLine, Position};
use crate::skip::{Section, add_lines, section_after};
use crate::source::{ZoneText, find_source};
use crate::word::names_start;
use dns_names::Name;
use dns_text::{Lexer, LexerError, Token};
use dns_zone_file::{
    Context, EntryError, EntryFault, Inclusion, MAX_INCLUDES, ZoneFileError, next_entry,
};
use std::alloc::{AllocError, Global};

/// What the next entry of a text is.
#[derive(Drop)]
enum Step<'a> {
    /// There is no further entry.
    Ended,
    /// It is nothing, or a directive.
    Applied,
    Found(EntryLine),
    /// It is a `$GENERATE`, with its records and perhaps its fault.
    Generated(Vec<EntryLine>),
    /// It includes the whole of a text, at the start of which an origin applies.
    Includes(Section<'a>, Name),
    /// It includes a text, which would be nested too deep.
    Closes(FaultLine),
    /// The text has a fault in the entry that begins on a line.
    Breaks(usize, LexerError),
}

/// Returns the records and the faults of a zone file and of those that it includes, in order. A fault ends its entry, and not
/// the file. After a text that would be nested too deep no further ones are included, so that texts that include each other end.
/// The origin completes relative names; it is the root if there is none.
pub fn read_lines(
    alloc: Global,
    file: &ZoneText<'_>,
    origin: Option<&Name>,
) -> Result<Vec<EntryLine>, AllocError>
    ensures { IfOk result (λ found.
        ReadsFile (text_view file.entry.now) (option_copied origin.entry) found.items) }
{
    let mut context = Context::new(alloc, file.types, start_origin(alloc, origin)?);
    let section = Section {
        source: 0,
        base: 0,
        text: file.text,
    };
    let mut is_closed = false;
    read_text(
        alloc,
        file.includes,
        0,
        section,
        &mut is_closed,
        &mut context,
    )
}

/// Reads the entries of a text, which is nested in `depth` others. No further texts are included if they are closed.
fn read_text(
    alloc: Global,
    includes: &[(String, String)],
    depth: usize,
    section: Section<'_>,
    is_closed: &mut bool,
    context: &mut Context,
) -> Result<Vec<EntryLine>, AllocError>
    ensures { IfOk result (λ found. Reads (includes_view includes.now) depth section.entry.source
        section.entry.base section.entry.text.now is_closed.old context.old
        (start_in context.old.types section.entry.text.now) found.items
        is_closed.new context.new) }
{
    let mut rest = section;
    let mut lexer = Lexer::with_quotes(rest.text, context.types.quotes());
    let mut found = Vec::new(alloc);
    'entries: loop {
        match take_step(
            alloc, includes, depth, rest, *is_closed, &mut lexer, context,
        )? {
            Step::Ended => return Ok(found),
            Step::Applied => continue,
            Step::Found(entry) => found.push(entry)?,
            Step::Generated(mut entries) => found.append(&mut entries)?,
            Step::Includes(included, origin) => {
                let saved = context.enter(origin)?;
                let mut entries = read_text(
                    alloc,
                    includes,
                    depth + 1,
                    included,
                    is_closed,
                    context,
                )?;
                context.resume(saved);
                found.append(&mut entries)?;
            }
            Step::Closes(fault) => {
                *is_closed = true;
                found.push(EntryLine::Fault(fault))?;
            }
            Step::Breaks(entry, error) => {
                let line = error.line();
                let fault = text_fault(rest.source, rest.base, context, error)?;
                found.push(EntryLine::Fault(fault))?;
                rest = section_after(rest, entry, line)?;
                lexer = Lexer::with_quotes(rest.text, context.types.quotes());
            }
        }
    }
}

/// Reads the next entry of a section, and applies it.
fn take_step<'a>(
    alloc: Global,
    includes: &'a [(String, String)],
    depth: usize,
    section: Section<'_>,
    is_closed: bool,
    lexer: &mut Lexer<'_>,
    context: &mut Context,
) -> Result<Step<'a>, AllocError>
    ensures { IfOk result (TakesStep (includes_view includes.now) depth section.entry.source
        section.entry.base is_closed lexer.old context.old lexer.new context.new) }
{
    let entry = lexer.entry_line();
    let tokens = match next_entry(alloc, lexer) {
        Ok(Some(tokens)) => tokens,
        Ok(None) => return Ok(Step::Ended),
        Err(ZoneFileError::Lexer(error)) => return Ok(Step::Breaks(entry, error)),
        // Memory was refused while the entry was read.
        Err(_) => return Err(AllocError),
    };
    let at = Position {
        source: section.source,
        line: add_lines(section.base, entry)?,
    };
    take_entry(
        alloc,
        includes,
        depth,
        at,
        is_closed,
        context,
        tokens.as_slice(),
    )
}

/// Applies an entry, and returns what it is.
fn take_entry<'a>(
    alloc: Global,
    includes: &'a [(String, String)],
    depth: usize,
    at: Position,
    is_closed: bool,
    context: &mut Context,
    tokens: &[Token<'_>],
) -> Result<Step<'a>, AllocError>
    ensures { IfOk result (λ step. EntryStep (includes_view includes.now) depth is_closed at
        (map lexeme tokens.now) step context.old context.new) }
{
    match apply(alloc, context, at, tokens) {
        Ok(Effect::Applied) => Ok(Step::Applied),
        Ok(Effect::Record(found)) => Ok(Step::Found(EntryLine::Record(found))),
        Ok(Effect::Generated(found)) => Ok(Step::Generated(found)),
        Ok(Effect::Includes(inclusion)) => Ok(include(includes, depth, at, is_closed, inclusion)),
        Err(EntryError::Fault(fault)) => {
            let word = word_of(alloc, context, tokens)?;
            let record_type = type_of(context.types, tokens);
            let apex = meant_apex(alloc, context, tokens)?;
            recover(alloc, context, tokens, &fault)?;
            Ok(Step::Found(EntryLine::Fault(FaultLine {
                source: at.source,
                error: ZoneFileError::Entry(at.line, fault),
                word,
                record_type,
                may_be_start: names_start(tokens),
                apex,
            })))
        }
        // Memory was refused while the entry was applied.
        Err(EntryError::Memory) => Err(AllocError),
    }
}

/// Returns what an entry is that includes a text.
fn include<'a>(
    includes: &'a [(String, String)],
    depth: usize,
    at: Position,
    is_closed: bool,
    inclusion: Inclusion<'_>,
) -> Step<'a>
    ensures { IncludeStep (includes_view includes.now) depth is_closed at
        (inclusion_view inclusion.entry) result }
{
    if depth >= MAX_INCLUDES {
        let error = ZoneFileError::Entry(at.line, EntryFault::TooManyIncludes);
        return Step::Closes(include_fault(at.source, error));
    }
    if is_closed {
        return Step::Applied;
    }
    match find_source(includes, inclusion.name) {
        Some(section) => Step::Includes(section, inclusion.origin),
        None => {
            let error = ZoneFileError::IncludeNotFound(at.line);
            Step::Found(EntryLine::Fault(include_fault(at.source, error)))
        }
    }
}

/// Returns the fault of a text with so many lines before it.
fn text_fault(
    source: usize,
    base: usize,
    context: &Context,
    error: LexerError,
) -> Result<FaultLine, AllocError>
    ensures { IfOk result (λ fault.
        fault ≡ text_fault source base (stated_origin context.now) error) }
{
    Ok(FaultLine {
        source,
        error: ZoneFileError::Lexer(moved(base, error)?),
        word: None,
        record_type: None,
        may_be_start: true,
        apex: stated_origin(context)?,
    })
}

/// Returns the fault of a text with the number of its line moved.
fn moved(base: usize, error: LexerError) -> Result<LexerError, AllocError>
    ensures { IfOk result (λ fault. fault ≡ moved base error) }
{
    let line = add_lines(base, error.line())?;
    Ok(match error {
        LexerError::UnclosedQuotedString(_) => LexerError::UnclosedQuotedString(line),
        LexerError::UnclosedList(_) => LexerError::UnclosedList(line),
        LexerError::NestedList(_) => LexerError::NestedList(line),
        LexerError::UnopenedList(_) => LexerError::UnopenedList(line),
        LexerError::LoneBackslash(_) => LexerError::LoneBackslash(line),
    })
}

/// Returns the origin at the start of a file: the one that is given, fully qualified, or the root.
fn start_origin(alloc: Global, origin: Option<&Name>) -> Result<Name, AllocError>
    ensures { IfOk result (λ name. name ≡ start_origin (option_copied origin.entry)) }
{
    match origin {
        Some(origin) => {
            let mut origin = origin.clone()?;
            origin.set_fqdn(true);
            Ok(origin)
        }
        None => Ok(Name::root(alloc)),
    }
}
