//! The directive `$GENERATE`, an extension of BIND: `$GENERATE RANGE OWNER [TTL] [CLASS] TYPE DATA`.

ghost use Rattle.std.specs.Prelude.{◌≡◌, ◌+◌, ◌-◌, ◌*◌, ◌≤◌, map, option_map, IfOk, IfErr, MatchResult, Ok, Err};
ghost use Rattle.std.specs.Str.{IsUtf8};
ghost use Rattle.dns_zone_file.specs.templates.Range.{greatest};
ghost use Rattle.dns_text.specs.Token.{lexeme};
ghost use Rattle.dns_zone_file.specs.Generate.{argument_text, generate_of, generation_with, generation_of, has_line_feed, template_of};
ghost use Rattle.dns_zone_file.specs.internal.Error.{IsFault};
ghost use Rattle.dns_zone_file.specs.internal.Generate.{generation_view, LexesFirst, RefusesFirst};
ghost use Rattle.dns_zone_file.specs.Parsing.{start_in};

use crate::entry::next_entry;
use crate::error::{EntryError, EntryFault, ZoneFileError};
use crate::templates::{Range, parse_range};
use crate::types::Types;
use dns_text::{Lexer, Token};
use std::alloc::{AllocError, Global};

/// How many characters a template may have.
const MAX_TEMPLATE: usize = 1024;

/// What a `$GENERATE` says: its numbers, and the template of a record.
#[derive(Drop)]
pub struct Generation {
    /// The numbers.
    pub numbers: Range,
    /// The text of a record with the places of the number.
    pub template: Vec<u8>,
}

/// Returns the arguments of an entry that is a `$GENERATE`, which only a file of all types has.
pub fn generate_arguments<'t, 'a>(types: Types, tokens: &'t [Token<'a>]) -> Option<&'t [Token<'a>]>
    ensures { option_map (λ arguments. map lexeme arguments.now) result
        ≡ generate_of types (map lexeme tokens.now) }
{
    let [Token::CharData(word), arguments @ ..] = tokens else {
        return None;
    };
    match types {
        Types::All if *word == b"$GENERATE".as_slice() => Some(arguments),
        _ => None,
    }
}

/// Parses the arguments of a `$GENERATE`.
pub fn parse_generation(alloc: Global, arguments: &[Token<'_>]) -> Result<Generation, EntryError>
    ensures ok { IfOk result (λ g.
        generation_of (map lexeme arguments.now) ≡ Ok (generation_view g)) }
    ensures bound { IfOk result (λ g.
        g.numbers.start + (g.numbers.count - 1) * g.numbers.step ≤ greatest) }
    ensures refused { IfErr result (IsFault (λ fault.
        generation_of (map lexeme arguments.now) ≡ Err fault)) }
{
    let [Token::CharData(range), fields @ ..] = arguments else {
        return Err(EntryError::Fault(EntryFault::InvalidDirective));
    };
    match parse_range(range) {
        Ok(numbers) => Ok(generation_with(numbers, template_of(alloc, fields)?)?),
        Err(fault) => Err(EntryError::Fault(EntryFault::InvalidGenerate(fault))),
    }
}

/// Returns a directive, unless its template is too long or has a line feed.
fn generation_with(numbers: Range, template: Vec<u8>) -> Result<Generation, EntryFault>
    requires { numbers.start + (numbers.count - 1) * numbers.step ≤ greatest }
    ensures ok { IfOk result (λ g.
        generation_with (Ok numbers) template.items ≡ Ok (generation_view g)) }
    ensures bound { IfOk result (λ g.
        g.numbers.start + (g.numbers.count - 1) * g.numbers.step ≤ greatest) }
    ensures refused { IfErr result (λ fault.
        generation_with (Ok numbers) template.items ≡ Err fault) }
{
    if has_line_feed(template.as_slice()) || template.len() > MAX_TEMPLATE {
        return Err(EntryFault::InvalidDirective);
    }
    Ok(Generation { numbers, template })
}

/// Returns `true` if a text has a line feed.
fn has_line_feed(text: &[u8]) -> bool
    ensures { result ≡ has_line_feed text.now }
{
    text.iter().any(|c| *c == b'\n')
}

/// Returns the template of a record: the arguments with a blank after each.
fn template_of(alloc: Global, arguments: &[Token<'_>]) -> Result<Vec<u8>, AllocError>
    ensures { IfOk result (λ text. text.items ≡ template_of (map lexeme arguments.now)) }
{
    let mut text = Vec::new(alloc);
    for argument in arguments {
        text.extend_from_slice(argument_text(*argument))?;
        text.push(b' ')?;
    }
    Ok(text)
}

/// Returns the text of an argument: a word, or what is between quotes.
fn argument_text<'a>(argument: Token<'a>) -> &'a [u8]
    ensures { result.now ≡ argument_text (lexeme argument.entry) }
{
    match argument {
        Token::CharData(text) | Token::Quoted(text) => text,
        Token::At => b"@".as_slice(),
        _ => b"".as_slice(),
    }
}

/// Returns the text of a line.
pub fn line_text(line: &[u8]) -> Result<&str, EntryFault>
    ensures { MatchResult result (λ text. (text.now ≡ line.now) × IsUtf8 line.now)
        (λ fault. (fault ≡ EntryFault.InvalidDirective) × ¬ (IsUtf8 line.now)) }
{
    match str::from_utf8(line) {
        Ok(text) => Ok(text),
        Err(_) => Err(EntryFault::InvalidDirective),
    }
}

/// Reads the tokens of the first entry of a text.
pub fn line_tokens<'a>(
    alloc: Global,
    text: &'a str,
    types: Types,
) -> Result<Vec<Token<'a>>, EntryError>
    ensures ok { IfOk result (λ tokens.
        LexesFirst (start_in types text.now) (map lexeme tokens.items)) }
    ensures refused { IfErr result (IsFault (RefusesFirst (start_in types text.now))) }
{
    let mut lexer = Lexer::with_quotes(text, types.quotes());
    match next_entry(alloc, &mut lexer) {
        Ok(Some(tokens)) => Ok(tokens),
        Ok(None) => Err(EntryError::Fault(EntryFault::InvalidDirective)),
        // Memory for the tokens was refused.
        Err(ZoneFileError::Memory) => Err(EntryError::Memory),
        Err(_) => Err(EntryError::Fault(EntryFault::InvalidDirective)),
    }
}
