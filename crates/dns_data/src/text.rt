//! The tokens of record data in zone files (RFC 1035 section 5.1).

ghost use Rattle.std.specs.Prelude.{◌≡◌, ◌≢◌, [], ◌∷◌, map, Option, option_map, IfOk, IfErr, Err};
ghost use Rattle.dns_names.specs.Name.{DomainName};
ghost use Rattle.dns_wire.specs.Error.{IsUnless};
ghost use Rattle.dns_text.specs.Lexer.{CharData, At};
ghost use Rattle.dns_text.specs.Token.{lexeme};
ghost use Rattle.dns_data.specs.Field.{Number16, Number32, Seconds, Address4, Address6, CompressibleName, Strings};
ghost use Rattle.dns_data.specs.Text.{name_of_token, string_of_text, string_of_token, Takes, RefusesToken};
ghost use Rattle.dns_data.specs.internal.Text.{HasNoWord};

use crate::error::RDataParseError;
use crate::octets::CharacterString;
use dns_names::Name;
use dns_text::{Token, parse_ipv4, parse_ipv6, parse_ttl_bytes, unescape};
use dns_wire::codes::parse_decimal;
use std::alloc::Global;
use std::marker::Model;
use std::net::{Ipv4Addr, Ipv6Addr};

/// The tokens of record data that are not parsed yet.
#[derive(Drop)]
pub(crate) struct DataTokens<'t, 'a> {
    tokens: &'t [Token<'a>],
}

impl<'t, 'a> Model for DataTokens<'t, 'a> {
    ghost use Rattle.std.specs.Prelude.{List, map};
    ghost use Rattle.dns_text.specs.Lexer.{Lexeme};
    ghost use Rattle.dns_text.specs.Token.{lexeme};

    ghost Value = { List Lexeme };

    ghost view = { λ d. map lexeme d.tokens.now };
}

impl<'t, 'a> DataTokens<'t, 'a> {
    /// Begins with all tokens of the data.
    pub(crate) fn new(tokens: &'t [Token<'a>]) -> Self
        ensures { result ≡ map lexeme tokens.now }
    {
        DataTokens { tokens }
    }

    /// Parses a number of 16 bits.
    pub(crate) fn number16(&mut self) -> Result<u16, RDataParseError>
        ensures ok { (o : Option DomainName)
            → IfOk result (λ v. Takes o Number16 self.old v self.new) }
        ensures refused { (o : Option DomainName)
            → IfErr result (λ error. RefusesToken o Number16 self.old error) }
    {
        let text = self.word()?;
        match parse_decimal(text, 65_535) {
            Some(number) => Ok(number as u16),
            None => Err(RDataParseError::InvalidToken),
        }
    }

    /// Parses a number of 32 bits.
    pub(crate) fn number32(&mut self) -> Result<u32, RDataParseError>
        ensures ok { (o : Option DomainName)
            → IfOk result (λ v. Takes o Number32 self.old v self.new) }
        ensures refused { (o : Option DomainName)
            → IfErr result (λ error. RefusesToken o Number32 self.old error) }
    {
        let text = self.word()?;
        match parse_decimal(text, 4_294_967_295) {
            Some(number) => Ok(number as u32),
            None => Err(RDataParseError::InvalidToken),
        }
    }

    /// Parses a time in seconds, perhaps with units.
    pub(crate) fn seconds(&mut self) -> Result<u32, RDataParseError>
        ensures ok { (o : Option DomainName)
            → IfOk result (λ v. Takes o Seconds self.old v self.new) }
        ensures refused { (o : Option DomainName)
            → IfErr result (λ error. RefusesToken o Seconds self.old error) }
    {
        let text = self.word()?;
        match parse_ttl_bytes(text) {
            Ok(seconds) => Ok(seconds),
            Err(_) => Err(RDataParseError::InvalidToken),
        }
    }

    /// Parses an IPv4 address.
    pub(crate) fn ipv4(&mut self) -> Result<Ipv4Addr, RDataParseError>
        ensures ok { (o : Option DomainName)
            → IfOk result (λ v. Takes o Address4 self.old v self.new) }
        ensures refused { (o : Option DomainName)
            → IfErr result (λ error. RefusesToken o Address4 self.old error) }
    {
        let text = self.word()?;
        match parse_ipv4(text) {
            Some(address) => Ok(address),
            None => Err(RDataParseError::InvalidToken),
        }
    }

    /// Parses an IPv6 address.
    pub(crate) fn ipv6(&mut self) -> Result<Ipv6Addr, RDataParseError>
        ensures ok { (o : Option DomainName)
            → IfOk result (λ v. Takes o Address6 self.old v self.new) }
        ensures refused { (o : Option DomainName)
            → IfErr result (λ error. RefusesToken o Address6 self.old error) }
    {
        let text = self.word()?;
        match parse_ipv6(text) {
            Some(address) => Ok(address),
            None => Err(RDataParseError::InvalidToken),
        }
    }

    /// Parses a name, which the origin completes if it is relative. `@` is the origin.
    pub(crate) fn name(
        &mut self,
        alloc: Global,
        origin: Option<&Name>,
    ) -> Result<Name, RDataParseError>
        ensures ok { IfOk result (λ v. Takes (option_map (λ o. o.now) origin.entry)
            CompressibleName self.old v self.new) }
        ensures refused { IfErr result (λ error. error ≢ RDataParseError.Memory
            → RefusesToken (option_map (λ o. o.now) origin.entry)
            CompressibleName self.old error) }
        ensures missing { self.old ≡ [] → result ≡ Err RDataParseError.MissingToken }
    {
        let token = self.token()?;
        name_of_token(alloc, token, origin)
    }

    /// Parses all tokens that are left as character strings.
    pub(crate) fn strings(&mut self, alloc: Global) -> Result<Vec<CharacterString>, RDataParseError>
        ensures ok { (o : Option DomainName)
            → IfOk result (λ v. Takes o Strings self.old v.items self.new) }
        ensures refused { (o : Option DomainName) → IfErr result (λ error.
            error ≢ RDataParseError.Memory → RefusesToken o Strings self.old error) }
        ensures missing { self.old ≡ [] → result ≡ Err RDataParseError.MissingToken }
    {
        let tokens = self.tokens;
        if tokens.is_empty() {
            return Err(RDataParseError::MissingToken);
        }
        let mut strings = Vec::new(alloc);
        for token in tokens {
            strings.push(string_of_token(alloc, *token)?)?;
        }
        self.tokens = &tokens[tokens.len()..];
        Ok(strings)
    }

    /// Checks that no token is left.
    pub(crate) fn finish(&self) -> Result<(), RDataParseError>
        ensures ok { IfOk result (λ _. self.now ≡ []) }
        ensures refused { IfErr result (λ error.
            (self.now ≢ []) × (error ≡ RDataParseError.UnexpectedToken)) }
    {
        if self.tokens.is_empty() {
            Ok(())
        } else {
            Err(RDataParseError::UnexpectedToken)
        }
    }

    /// Consumes the next token.
    fn token(&mut self) -> Result<Token<'a>, RDataParseError>
        ensures ok { IfOk result (λ token. self.old ≡ lexeme token ∷ self.new) }
        ensures none { IfErr result (λ error.
            (self.old ≡ []) × (error ≡ RDataParseError.MissingToken)) }
    {
        if self.tokens.is_empty() {
            return Err(RDataParseError::MissingToken);
        }
        let token = self.tokens[0];
        self.tokens = &self.tokens[1..];
        Ok(token)
    }

    /// Consumes the next token, which must be a word.
    fn word(&mut self) -> Result<&'a [u8], RDataParseError>
        ensures ok { IfOk result (λ text. self.old ≡ CharData text.now ∷ self.new) }
        ensures none { IfErr result (λ error. HasNoWord self.old error) }
    {
        match self.token()? {
            Token::CharData(text) => Ok(text),
            _ => Err(RDataParseError::InvalidToken),
        }
    }
}

/// Parses a token as a name.
fn name_of_token(
    alloc: Global,
    token: Token<'_>,
    origin: Option<&Name>,
) -> Result<Name, RDataParseError>
    ensures { IsUnless RDataParseError.Memory
        (name_of_token (option_map (λ o. o.now) origin.entry) (lexeme token.entry)) result }
{
    match token {
        Token::CharData(text) => Ok(Name::parse_bytes(alloc, text, origin)?),
        Token::At => name_of_origin(alloc, origin),
        _ => Err(RDataParseError::InvalidToken),
    }
}

/// Returns the origin, fully qualified.
fn name_of_origin(alloc: Global, origin: Option<&Name>) -> Result<Name, RDataParseError>
    ensures { IsUnless RDataParseError.Memory
        (name_of_token (option_map (λ o. o.now) origin.entry) At) result }
{
    match origin {
        Some(origin) => Ok(Name::new(alloc).append_domain(origin)?),
        None => Err(RDataParseError::InvalidToken),
    }
}

/// Parses a token as a character string.
fn string_of_token(alloc: Global, token: Token<'_>) -> Result<CharacterString, RDataParseError>
    ensures { IsUnless RDataParseError.Memory (string_of_token (lexeme token.entry)) result }
{
    match token {
        Token::CharData(text) | Token::Quoted(text) => string_of_text(alloc, text),
        Token::At => string_of_text(alloc, b"@".as_slice()),
        _ => Err(RDataParseError::InvalidToken),
    }
}

/// Parses the text of a character string, without its quotes.
fn string_of_text(alloc: Global, text: &[u8]) -> Result<CharacterString, RDataParseError>
    ensures { IsUnless RDataParseError.Memory (string_of_text text.now) result }
{
    let Some(octets) = unescape(alloc, text)? else {
        return Err(RDataParseError::InvalidToken);
    };
    match CharacterString::new(octets) {
        Ok(string) => Ok(string),
        Err(_) => Err(RDataParseError::CharacterDataTooLong),
    }
}
