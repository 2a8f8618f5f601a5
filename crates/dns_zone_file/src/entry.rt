//! The entries of a zone file, and the arguments of directives (RFC 1035 section 5.1).

ghost use Rattle.std.specs.Prelude.{◌≡◌, ◌≢◌, ◌<◌, map, length, IfOk, IfErr, IfSome, Ok, Err, None, option_map};
ghost use Rattle.dns_text.specs.Lexer.{NextToken};
ghost use Rattle.dns_text.specs.Token.{lexeme};
ghost use Rattle.dns_zone_file.specs.Entry.{LexesEntry, entry_of, origin_of, ttl_of, ascii_text, text_name, inclusion_of};
ghost use Rattle.dns_zone_file.specs.internal.Entry.{entry_view, inclusion_view, IsTextFault};
ghost use Rattle.dns_zone_file.specs.internal.Error.{IsFault};

use crate::error::{EntryError, EntryFault, ZoneFileError};
use crate::fields::parse_name;
use dns_names::Name;
use dns_text::{Lexer, Token, parse_ttl_bytes};
use std::alloc::Global;

/// What an entry is. Directives have their arguments.
#[derive(Clone, Copy)]
pub enum Entry<'t, 'a> {
    /// No token, or only blanks.
    Nothing,
    /// `$ORIGIN`.
    Origin(&'t [Token<'a>]),
    /// `$TTL`.
    Ttl(&'t [Token<'a>]),
    /// `$INCLUDE`.
    Include(&'t [Token<'a>]),
    /// A record, or a `$GENERATE`.
    Record,
}

/// A text to include.
#[derive(Drop)]
pub struct Inclusion<'a> {
    /// Its name, as it is written.
    pub name: &'a [u8],
    /// The origin at the start of the text.
    pub origin: Name,
}

/// Reads the tokens of the next entry, or `None` at the end of the text.
pub fn next_entry<'a>(
    alloc: Global,
    lexer: &mut Lexer<'a>,
) -> Result<Option<Vec<Token<'a>>>, ZoneFileError>
    ensures entry { IfOk result (λ found. IfSome found (λ tokens.
        LexesEntry lexer.old (map lexeme tokens.items) lexer.new)) }
    ensures shorter { IfOk result (λ found. IfSome found (λ tokens.
        length lexer.new.text < length lexer.old.text)) }
    ensures end { result ≡ Ok None → NextToken lexer.old (Ok None) lexer.new }
    ensures refused { IfErr result (λ error. error ≢ ZoneFileError.Memory
        → IsTextFault lexer.old error) }
{
    let mut tokens = Vec::new(alloc);
    loop {
        match lexer.next_token()? {
            None if tokens.is_empty() => return Ok(None),
            None => return Ok(Some(tokens)),
            Some(token) => match token {
                Token::EOL => return Ok(Some(tokens)),
                _ => tokens.push(token)?,
            },
        }
    }
}

/// Returns what an entry is.
pub fn entry_of<'t, 'a>(tokens: &'t [Token<'a>]) -> Entry<'t, 'a>
    ensures { entry_view result ≡ entry_of (map lexeme tokens.now) }
{
    let [first, arguments @ ..] = tokens else {
        return Entry::Nothing;
    };
    match first {
        Token::Blank if arguments.is_empty() => Entry::Nothing,
        Token::Origin => Entry::Origin(arguments),
        Token::Ttl => Entry::Ttl(arguments),
        Token::Include => Entry::Include(arguments),
        _ => Entry::Record,
    }
}

/// Parses the argument of `$ORIGIN`.
pub fn parse_origin(
    alloc: Global,
    arguments: &[Token<'_>],
    origin: &Name,
) -> Result<Name, EntryError>
    ensures ok { IfOk result (λ name. origin_of origin.now (map lexeme arguments.now) ≡ Ok name) }
    ensures refused { IfErr result (IsFault (λ fault.
        origin_of origin.now (map lexeme arguments.now) ≡ Err fault)) }
{
    let [token] = arguments else {
        return Err(EntryError::Fault(EntryFault::InvalidDirective));
    };
    match parse_name(alloc, *token, origin)? {
        Some(name) => Ok(name),
        None => Err(EntryError::Fault(EntryFault::InvalidDirective)),
    }
}

/// Parses the argument of `$TTL`.
pub fn parse_default_ttl(arguments: &[Token<'_>]) -> Result<u32, EntryFault>
    ensures { result ≡ ttl_of (map lexeme arguments.now) }
{
    let [Token::CharData(text)] = arguments else {
        return Err(EntryFault::InvalidDirective);
    };
    match parse_ttl_bytes(text) {
        Ok(ttl) => Ok(ttl),
        Err(_) => Err(EntryFault::InvalidDirective),
    }
}

/// Returns the text, if it is ASCII.
fn ascii_text(text: &[u8]) -> Option<&[u8]>
    ensures { option_map (λ t. t.now) result ≡ ascii_text text.now }
{
    if text.is_ascii() { Some(text) } else { None }
}

/// Returns the name of a text to include, as it is written, if it is ASCII.
pub(crate) fn text_name<'a>(token: Token<'a>) -> Option<&'a [u8]>
    ensures { option_map (λ name. name.now) result ≡ text_name (lexeme token.entry) }
{
    match token {
        Token::CharData(text) | Token::Quoted(text) => ascii_text(text),
        Token::At => Some(b"@".as_slice()),
        _ => None,
    }
}

/// Parses the arguments of `$INCLUDE`.
pub fn parse_inclusion<'a>(
    alloc: Global,
    arguments: &[Token<'a>],
    origin: &Name,
) -> Result<Inclusion<'a>, EntryError>
    ensures ok { IfOk result (λ i.
        inclusion_of origin.now (map lexeme arguments.now) ≡ Ok (inclusion_view i)) }
    ensures refused { IfErr result (IsFault (λ fault.
        inclusion_of origin.now (map lexeme arguments.now) ≡ Err fault)) }
{
    let (token, name) = match arguments {
        [token] => (*token, None),
        [token, name] => (*token, Some(*name)),
        _ => return Err(EntryError::Fault(EntryFault::InvalidDirective)),
    };
    let Some(text) = text_name(token) else {
        return Err(EntryError::Fault(EntryFault::InvalidDirective));
    };
    let origin = match name {
        None => Some(origin.clone()?),
        Some(name) => parse_name(alloc, name, origin)?,
    };
    match origin {
        Some(origin) => Ok(Inclusion { name: text, origin }),
        None => Err(EntryError::Fault(EntryFault::InvalidDirective)),
    }
}
