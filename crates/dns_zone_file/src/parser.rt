//! The parser of zone files (RFC 1035 section 5.1).

ghost use Rattle.std.specs.Prelude.{◌≡◌, ◌≢◌, ◌<◌, option_map, Ok, Err, Some, None, IfOk, IfErr, IsOk, OnOk};
ghost use Rattle.dns_text.specs.Lexer.{LexerState, NextToken};
ghost use Rattle.dns_zone_file.specs.Parsing.{Parses, max_includes, start_in, start_origin, text_of, zone_records};
ghost use Rattle.dns_zone_file.specs.internal.Parsing.{includes_view, TakesStep, Ends, RefusesInclude, HasNoToken};

use crate::context::{Context, StartOfAuthority};
use crate::entry::{Inclusion, next_entry};
use crate::error::{EntryFault, ZoneFileError};
use crate::record_sets::RecordSets;
use crate::types::Types;
use dns_names::Name;
use dns_text::{Lexer, LexerError};
use std::alloc::Global;
use std::marker::Model;

/// How deep texts may be nested.
pub const MAX_INCLUDES: usize = 16;

/// What a zone file contains.
#[derive(Drop)]
pub struct ZoneRecords {
    /// The origin at the end of the text.
    pub origin: Name,
    /// The records.
    pub sets: RecordSets,
    /// The owner of the first SOA record in the order of the text, if there is one.
    pub soa_owner: Option<Name>,
}

/// A parser of a zone file.
///
/// `$INCLUDE` opens no file: the texts to include are passed by name, and the first of a name counts.
#[derive(Drop)]
pub struct Parser<'a> {
    text: &'a str,
    includes: &'a [(String, String)],
    origin: Option<Name>,
    types: Types,
}

impl<'a> Model for Parser<'a> {
    ghost use Rattle.dns_zone_file.specs.Parsing.{ZoneFile};
    ghost use Rattle.dns_zone_file.specs.internal.Parsing.{includes_view};

    ghost Value = { ZoneFile };

    ghost view = { λ p. record {
      text = p.text.now;
      includes = includes_view p.includes.now;
      origin = p.origin;
      types = p.types;
    } };
}

/// What an entry of a text does.
#[derive(Drop)]
enum Step<'a> {
    /// There is no further entry.
    Ended,
    /// It changes the context.
    Applied,
    /// It includes a text, on this line.
    Includes(usize, Inclusion<'a>),
}

impl<'a> Parser<'a> {
    ghost use Rattle.dns_text.specs.declared.error.LexerError.{LexerError};
    ghost use Rattle.dns_zone_file.specs.Parsing.{ParsesIn, HasRecords};

    /// Creates a parser of a text of the types that have fields, [`Types::Nine`]. Each pair of `includes` is a name, as `$INCLUDE`
    /// states it, and the text that it stands for. The origin completes relative names; it is the root if there is none.
    pub fn new(text: &'a str, includes: &'a [(String, String)], origin: Option<Name>) -> Self
        ensures { result ≡ record {
          text = text.now;
          includes = includes_view includes.now;
          origin = origin;
          types = Types.Nine;
        } }
    {
        Parser::with_types(text, includes, origin, Types::Nine)
    }

    /// Creates a parser of a text, as [`new`](Parser::new) does, which may have the types that `types` says.
    pub fn with_types(
        text: &'a str,
        includes: &'a [(String, String)],
        origin: Option<Name>,
        types: Types,
    ) -> Self
        ensures { result ≡ record {
          text = text.now;
          includes = includes_view includes.now;
          origin = origin;
          types = types;
        } }
    {
        Parser {
            text,
            includes,
            origin,
            types,
        }
    }

    /// Parses the text, to its end or the first fault. The origin is taken as fully qualified. A text without tokens, and a
    /// fault of the first token, are found before memory is taken.
    pub fn parse(self, alloc: Global) -> Result<ZoneRecords, ZoneFileError>
        ensures ok { IfOk result (HasRecords self.entry) }
        ensures refused { IfErr result (λ error. error ≢ ZoneFileError.Memory
            → ParsesIn self.entry.types self.entry.includes self.entry.origin self.entry.text
            (Err error)) }
        ensures ended { (end : LexerState)
            → NextToken (start_in self.entry.types self.entry.text) (Ok None) end → IsOk result }
        ensures fault { (error : LexerError) (end : LexerState)
            → NextToken (start_in self.entry.types self.entry.text) (Err error) end
            → result ≡ Err (ZoneFileError.Lexer error) }
    {
        let is_empty = has_no_token(self.text, self.types)?;
        let origin = start_origin(alloc, self.origin);
        let mut context = Context::new(alloc, self.types, origin);
        if is_empty {
            return Ok(zone_records(context));
        }
        parse_text(alloc, self.text, self.includes, 0, &mut context)?;
        Ok(zone_records(context))
    }
}

/// Returns `true` if a text has no token, or else the fault of its first one, if that is one.
fn has_no_token(text: &str, types: Types) -> Result<bool, LexerError>
    ensures { HasNoToken (start_in types text.now) result }
{
    let mut lexer = Lexer::with_quotes(text, types.quotes());
    match lexer.next_token()? {
        Some(_token) => Ok(false),
        None => Ok(true),
    }
}

/// Returns the origin at the start of a file.
fn start_origin(alloc: Global, origin: Option<Name>) -> Name
    ensures { result ≡ start_origin origin }
{
    match origin {
        Some(mut origin) => {
            origin.set_fqdn(true);
            origin
        }
        None => Name::root(alloc),
    }
}

/// Returns the owner of an SOA record.
fn soa_owner(soa: Option<StartOfAuthority>) -> Option<Name>
    ensures { result ≡ option_map (λ s. s.owner) soa }
{
    match soa {
        Some(soa) => Some(soa.owner),
        None => None,
    }
}

/// Returns what a file contains by the context at its end.
fn zone_records(context: Context) -> ZoneRecords
    ensures { result ≡ zone_records context }
{
    ZoneRecords {
        origin: context.origin,
        sets: context.sets,
        soa_owner: soa_owner(context.first_soa),
    }
}

/// Returns the first text of a name.
fn find_text<'a>(includes: &'a [(String, String)], name: &[u8]) -> Option<&'a str>
    ensures { option_map (λ text. text.now) result ≡ text_of (includes_view includes.now) name.now }
{
    for (other, text) in includes {
        if other.as_bytes() == name {
            return Some(text.as_str());
        }
    }
    None
}

/// Returns the text that an entry on a line includes, in a text that is nested in `depth` others.
fn included_text<'a>(
    includes: &'a [(String, String)],
    name: &[u8],
    line: usize,
    depth: usize,
) -> Result<&'a str, ZoneFileError>
    ensures depth { IfOk result (λ _. depth < max_includes) }
    ensures ok { IfOk result (λ text.
        text_of (includes_view includes.now) name.now ≡ Some text.now) }
    ensures refused { IfErr result
        (RefusesInclude (includes_view includes.now) depth line name.now) }
{
    if depth >= MAX_INCLUDES {
        return Err(ZoneFileError::Entry(line, EntryFault::TooManyIncludes));
    }
    match find_text(includes, name) {
        Some(text) => Ok(text),
        None => Err(ZoneFileError::IncludeNotFound(line)),
    }
}

/// Reads and applies the next entry of a text.
fn take_step<'a>(
    alloc: Global,
    lexer: &mut Lexer<'a>,
    context: &mut Context,
) -> Result<Step<'a>, ZoneFileError>
    ensures ok { IfOk result (λ step.
        TakesStep step lexer.old context.old lexer.new context.new) }
    ensures refused { IfErr result (λ error. error ≢ ZoneFileError.Memory
        → Ends lexer.old context.old (Err error)) }
{
    let line = lexer.entry_line();
    let tokens = match next_entry(alloc, lexer)? {
        Some(tokens) => tokens,
        None => return Ok(Step::Ended),
    };
    match context.apply(alloc, tokens.as_slice()) {
        Ok(None) => Ok(Step::Applied),
        Ok(Some(inclusion)) => Ok(Step::Includes(line, inclusion)),
        Err(error) => Err(error.at_line(line)),
    }
}

/// Parses a text that is nested in `depth` others, and changes the context as its entries say. After an error the context is
/// not to be used.
fn parse_text(
    alloc: Global,
    text: &str,
    includes: &[(String, String)],
    depth: usize,
    context: &mut Context,
) -> Result<(), ZoneFileError>
    ensures ok { OnOk result
        (Parses (includes_view includes.now) depth context.old (start_in context.old.types text.now)
        (Ok context.new)) }
    ensures refused { IfErr result (λ error. error ≢ ZoneFileError.Memory
        → Parses (includes_view includes.now) depth context.old
        (start_in context.old.types text.now) (Err error)) }
{
    let mut lexer = Lexer::with_quotes(text, context.types.quotes());
    'entries: loop {
        match take_step(alloc, &mut lexer, context)? {
            Step::Ended => return Ok(()),
            Step::Applied => continue,
            Step::Includes(line, inclusion) => {
                let included = included_text(includes, inclusion.name, line, depth)?;
                let saved = context.enter(inclusion.origin)?;
                parse_text(alloc, included, includes, depth + 1, context)?;
                context.resume(saved);
            }
        }
    }
}
