//! The token at fault in an entry, which the faults of `dns_zone_file` do not have.

ghost use Rattle.std.specs.Prelude.{◌≡◌, ◌<◌, IfOk, length, map, option_copied};
ghost use Rattle.dns_text.specs.Token.{lexeme};
ghost use Rattle.zone_lines.specs.Word.{HasFaultyToken, IsRefused, IsTokenText, is_final, is_final_format, is_final_location, is_final_token, is_start_word, names_start};
ghost use Rattle.zone_lines.specs.internal.Word.{HasIndexAtFault, IsIndexAtFault, Stands, standing_of};

use dns_data::RDataParseError;
use dns_formats::{FormatFault, LocationFault, TokenFault};
use dns_text::Token;
use dns_zone_file::{Context, EntryError, EntryFault};
use std::alloc::{AllocError, Global};

/// Returns the token at fault in an entry, if there is one: the last of the fewest tokens that no further ones make a record.
/// It is as it is written, a string without its quotes; blanks have no text. Among *n* tokens at most log *n* entries are read.
pub(crate) fn faulty_token<'a>(
    alloc: Global,
    context: &Context,
    tokens: &[Token<'a>],
) -> Result<Option<&'a str>, AllocError>
    ensures { IfOk result (λ found. HasFaultyToken context.now
        (map lexeme tokens.now) (option_copied found)) }
{
    if tokens.is_empty() {
        return Ok(None);
    }
    match index_at_fault(alloc, context, tokens)? {
        Some(index) => Ok(text_of(tokens[index])),
        None => Ok(None),
    }
}

/// What tokens are as those of a record.
#[derive(Clone, Copy, Debug, PartialEq, Eq)]
pub(crate) enum Standing {
    /// They are a record, or further tokens may make them one.
    Begins,
    /// They are refused, whatever follows.
    Refused,
}

/// Returns the index of the token at fault in an entry, if there is one.
fn index_at_fault(
    alloc: Global,
    context: &Context,
    tokens: &[Token<'_>],
) -> Result<Option<usize>, AllocError>
    requires { 0 < length tokens.now }
    ensures { IfOk result (HasIndexAtFault context.now (map lexeme tokens.now)) }
{
    match judge(alloc, context, tokens)? {
        Standing::Begins => Ok(None),
        Standing::Refused => Ok(Some(last_of_refused(alloc, context, tokens)?)),
    }
}

/// Returns the index of the token at fault in an entry that is refused: the number of tokens that begin a record, where one
/// more is refused.
fn last_of_refused(
    alloc: Global,
    context: &Context,
    tokens: &[Token<'_>],
) -> Result<usize, AllocError>
    requires some { 0 < length tokens.now }
    requires refused { IsRefused context.now (map lexeme tokens.now) }
    ensures { IfOk result (IsIndexAtFault context.now (map lexeme tokens.now)) }
{
    let mut accepted = 0;
    let mut refused = tokens.len();
    while refused - accepted > 1 {
        let middle = accepted + (refused - accepted) / 2;
        match judge(alloc, context, &tokens[..middle])? {
            Standing::Begins => accepted = middle,
            Standing::Refused => refused = middle,
        }
    }
    Ok(accepted)
}

/// Returns what tokens are as those of a record.
fn judge(alloc: Global, context: &Context, tokens: &[Token<'_>]) -> Result<Standing, AllocError>
    ensures { IfOk result (Stands context.now (map lexeme tokens.now)) }
{
    match context.parse_record(alloc, tokens) {
        Ok(_) => Ok(Standing::Begins),
        Err(EntryError::Fault(fault)) => Ok(standing_of(&fault)),
        // Memory was refused while the record was parsed.
        Err(EntryError::Memory) => Err(AllocError),
    }
}

/// Returns what tokens with a fault are as those of a record.
fn standing_of(fault: &EntryFault) -> Standing
    ensures { result ≡ standing_of fault.now }
{
    if is_final(fault) {
        Standing::Refused
    } else {
        Standing::Begins
    }
}

/// Returns `true` if further tokens do not mend a fault.
fn is_final(fault: &EntryFault) -> bool
    ensures { result ≡ is_final fault.now }
{
    match fault {
        EntryFault::MissingType | EntryFault::NoTtl | EntryFault::ClassMismatch => false,
        EntryFault::InvalidData(RDataParseError::MissingToken) => false,
        EntryFault::InvalidFormat(fault) => is_final_format(fault),
        _ => true,
    }
}

/// Returns `true` if further tokens do not mend a fault of data that is read as bytes.
fn is_final_format(fault: &FormatFault) -> bool
    ensures { result ≡ is_final_format fault.now }
{
    match fault {
        FormatFault::MissingToken(_) | FormatFault::WrongLength => false,
        FormatFault::InvalidToken(_, fault) => is_final_token(*fault),
        _ => true,
    }
}

/// Returns `true` if further tokens do not mend a field.
fn is_final_token(fault: TokenFault) -> bool
    ensures { result ≡ is_final_token fault }
{
    match fault {
        TokenFault::NotHex | TokenFault::NotBase64 | TokenFault::NotParameters => false,
        TokenFault::Location(fault) => is_final_location(fault),
        _ => true,
    }
}

/// Returns `true` if further tokens do not mend a location.
fn is_final_location(fault: LocationFault) -> bool
    ensures { result ≡ is_final_location fault }
{
    !matches!(
        fault,
        LocationFault::InvalidLatitude
            | LocationFault::InvalidLongitude
            | LocationFault::InvalidAltitude
    )
}

/// Returns `true` if a token is the word `SOA`.
pub(crate) fn names_start(tokens: &[Token<'_>]) -> bool
    ensures { result ≡ names_start (map lexeme tokens.now) }
{
    tokens.iter().any(|token| is_start_word(*token))
}

/// Returns `true` for the word `SOA`, in any case.
fn is_start_word(token: Token<'_>) -> bool
    ensures { result ≡ is_start_word (lexeme token.entry) }
{
    match token {
        Token::CharData(text) => text.eq_ignore_ascii_case(b"SOA".as_slice()),
        _ => false,
    }
}

/// Returns the text of a token.
fn text_of(token: Token<'_>) -> Option<&str>
    ensures { IsTokenText (lexeme token.entry) (option_copied result) }
{
    match token {
        Token::CharData(text) | Token::Quoted(text) => str::from_utf8(text).ok(),
        Token::At => Some("@"),
        Token::Include => Some("$INCLUDE"),
        Token::Origin => Some("$ORIGIN"),
        Token::Ttl => Some("$TTL"),
        Token::Blank | Token::EOL => None,
    }
}
