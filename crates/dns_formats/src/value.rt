//! A token as the bytes of one field (RFC 1035 section 5.1).

ghost use Rattle.std.specs.Prelude.{◌≡◌, ◌<◌, ◌≤◌, [], ◌∷◌, ◌++◌, length, Ok, IfOk, IfErr, OnOk, option_map, ◌≢◌, Err};
ghost use Rattle.std.specs.Int.{w16, w32, to_be_bytes};
ghost use Rattle.dns_wire.specs.Name.{AreLabels};
ghost use Rattle.dns_wire.specs.Writing.{labels_form};
ghost use Rattle.dns_text.specs.CharacterString.{unescaped};
ghost use Rattle.dns_text.specs.Lexer.{At};
ghost use Rattle.dns_text.specs.Token.{lexeme};
ghost use Rattle.dns_formats.specs.Value.{Appends, number_of, bytes_of_number, bytes_of_name, name_bytes, text_bytes, octets_or_fault, counted, is_tag_octet, are_tag_octets, is_tag, tag_bytes, value_bytes};

use crate::dnssec::{push_salt, push_time, push_type};
use crate::fault::TokenFault;
use crate::field::Field;
use crate::mnemonic::{push_algorithm, push_certificate_type};
use crate::types::push_hash;
use dns_names::Name;
use dns_text::{Token, unescape};
use dns_wire::codes::parse_decimal;
use std::alloc::{AllocError, Global};

/// Appends the bytes of the value of a field that a token denotes.
pub(crate) fn push_value(
    alloc: Global,
    field: Field,
    token: Token<'_>,
    origin: Option<&Name>,
    out: &mut Vec<u8>,
) -> Result<(), TokenFault>
    ensures { Appends TokenFault.Memory
        (value_bytes (option_map (λ o. o.now) origin.entry) field (lexeme token.entry))
        out.old.items result out.new.items }
{
    match field {
        Field::Number8 => push_number8(token, out),
        Field::Number16 => push_number16(token, out),
        Field::Number32 => push_number32(token, out),
        Field::Name => push_name(alloc, token, origin, out),
        Field::CharacterString => push_string(alloc, token, out),
        Field::Tag => push_tag(token, out),
        Field::Text => push_text(alloc, token, out),
        Field::RecordType => push_type(token, out),
        Field::Time => push_time(token, out),
        Field::Salt => push_salt(alloc, token, out),
        Field::Algorithm => push_algorithm(token, out),
        Field::CertificateType => push_certificate_type(token, out),
        Field::Hash => push_hash(alloc, token, out),
        Field::Hex | Field::Base64 | Field::Types | Field::Parameters | Field::Location => {
            Err(TokenFault::NotAWord)
        }
    }
}

// ---- numbers

/// Parses a decimal number.
pub(crate) fn number_of(token: Token<'_>, greatest: u64) -> Result<u64, TokenFault>
    ensures value { result ≡ number_of greatest (lexeme token.entry) }
    ensures bound { IfOk result (λ number. number ≤ greatest) }
{
    let Token::CharData(text) = token else {
        return Err(TokenFault::NotAWord);
    };
    match parse_decimal(text, greatest) {
        Some(number) => Ok(number),
        None => Err(TokenFault::NotANumber),
    }
}

/// Appends a number of 8 bits.
fn push_number8(token: Token<'_>, out: &mut Vec<u8>) -> Result<(), TokenFault>
    ensures { Appends TokenFault.Memory
        (bytes_of_number (λ number. number ∷ []) (number_of 255 (lexeme token.entry)))
        out.old.items result out.new.items }
{
    let number = number_of(token, 255)?;
    out.push(number as u8)?;
    Ok(())
}

/// Appends a number of 16 bits.
fn push_number16(token: Token<'_>, out: &mut Vec<u8>) -> Result<(), TokenFault>
    ensures { Appends TokenFault.Memory
        (bytes_of_number (to_be_bytes w16) (number_of 65535 (lexeme token.entry)))
        out.old.items result out.new.items }
{
    let number = number_of(token, 65_535)?;
    out.extend_from_slice(&(number as u16).to_be_bytes())?;
    Ok(())
}

/// Appends a number of 32 bits.
fn push_number32(token: Token<'_>, out: &mut Vec<u8>) -> Result<(), TokenFault>
    ensures { Appends TokenFault.Memory
        (bytes_of_number (to_be_bytes w32) (number_of 4294967295 (lexeme token.entry)))
        out.old.items result out.new.items }
{
    let number = number_of(token, 4_294_967_295)?;
    out.extend_from_slice(&(number as u32).to_be_bytes())?;
    Ok(())
}

// ---- names

/// Appends a name, which the origin completes if it is relative.
fn push_name(
    alloc: Global,
    token: Token<'_>,
    origin: Option<&Name>,
    out: &mut Vec<u8>,
) -> Result<(), TokenFault>
    ensures { Appends TokenFault.Memory
        (name_bytes (option_map (λ o. o.now) origin.entry) (lexeme token.entry))
        out.old.items result out.new.items }
{
    match token {
        Token::CharData(text) => {
            let name = Name::parse_bytes(alloc, text, origin)?;
            push_absolute(&name, out)
        }
        Token::At => push_origin(alloc, origin, out),
        _ => Err(TokenFault::NotAWord),
    }
}

/// Appends the origin.
fn push_origin(alloc: Global, origin: Option<&Name>, out: &mut Vec<u8>) -> Result<(), TokenFault>
    ensures { Appends TokenFault.Memory
        (name_bytes (option_map (λ o. o.now) origin.entry) At)
        out.old.items result out.new.items }
{
    let Some(origin) = origin else {
        return Err(TokenFault::RelativeName);
    };
    let name = Name::new(alloc).append_domain(origin)?;
    push_absolute(&name, out)
}

/// Appends a name, which must be fully qualified.
fn push_absolute(name: &Name, out: &mut Vec<u8>) -> Result<(), TokenFault>
    ensures { Appends TokenFault.Memory (bytes_of_name (Ok name.now))
        out.old.items result out.new.items }
{
    if !name.is_fqdn() {
        return Err(TokenFault::RelativeName);
    }
    out.reserve(name.encoded_len())?;
    push_labels(name, out)?;
    out.push(0)?;
    Ok(())
}

/// Appends the labels of a name, each after its length.
fn push_labels(name: &Name, out: &mut Vec<u8>) -> Result<(), AllocError>
    requires { AreLabels name.now.labels }
    ensures { OnOk result (out.new.items ≡ out.old.items ++ labels_form name.now.labels) }
{
    for label in name.iter() {
        push_counted(label, out)?;
    }
    Ok(())
}

/// Appends bytes after their number, which 8 bits must hold.
pub(crate) fn push_counted(octets: &[u8], out: &mut Vec<u8>) -> Result<(), AllocError>
    requires { length octets.now < 256 }
    ensures { OnOk result (out.new.items ≡ out.old.items ++ length octets.now ∷ octets.now) }
{
    out.push(octets.len() as u8)?;
    out.extend_from_slice(octets)
}

// ---- strings and tags

/// Returns the octets of a word or a quoted string.
fn octets_of(alloc: Global, token: Token<'_>) -> Result<Vec<u8>, TokenFault>
    ensures ok { IfOk result (λ octets. text_bytes (lexeme token.entry) ≡ Ok octets.items) }
    ensures refused { IfErr result (λ fault. fault ≢ TokenFault.Memory
        → text_bytes (lexeme token.entry) ≡ Err fault) }
{
    match token {
        Token::CharData(text) | Token::Quoted(text) => octets_of_text(alloc, text),
        Token::At => Ok(Vec::from_slice(alloc, b"@")?),
        _ => Err(TokenFault::NotAWord),
    }
}

/// Returns the octets of a text, without its escapes.
fn octets_of_text(alloc: Global, text: &[u8]) -> Result<Vec<u8>, TokenFault>
    ensures ok { IfOk result (λ octets. octets_or_fault (unescaped text.now) ≡ Ok octets.items) }
    ensures refused { IfErr result (λ fault. fault ≢ TokenFault.Memory
        → octets_or_fault (unescaped text.now) ≡ Err fault) }
{
    match unescape(alloc, text)? {
        Some(octets) => Ok(octets),
        None => Err(TokenFault::InvalidEscape),
    }
}

/// Appends a character string, after its length.
fn push_string(alloc: Global, token: Token<'_>, out: &mut Vec<u8>) -> Result<(), TokenFault>
    ensures { Appends TokenFault.Memory (counted (text_bytes (lexeme token.entry)))
        out.old.items result out.new.items }
{
    let octets = octets_of(alloc, token)?;
    if octets.len() > 255 {
        return Err(TokenFault::StringTooLong);
    }
    push_counted(octets.as_slice(), out)?;
    Ok(())
}

/// Appends a text without its length.
fn push_text(alloc: Global, token: Token<'_>, out: &mut Vec<u8>) -> Result<(), TokenFault>
    ensures { Appends TokenFault.Memory (text_bytes (lexeme token.entry))
        out.old.items result out.new.items }
{
    let octets = octets_of(alloc, token)?;
    out.extend_from_slice(octets.as_slice())?;
    Ok(())
}

/// Appends a tag, after its length.
fn push_tag(token: Token<'_>, out: &mut Vec<u8>) -> Result<(), TokenFault>
    ensures { Appends TokenFault.Memory (tag_bytes (lexeme token.entry))
        out.old.items result out.new.items }
{
    let Token::CharData(text) = token else {
        return Err(TokenFault::NotAWord);
    };
    if !is_tag(text) {
        return Err(TokenFault::NotATag);
    }
    push_counted(text, out)?;
    Ok(())
}

/// Returns `true` if a text is a tag.
pub(crate) fn is_tag(text: &[u8]) -> bool
    ensures { result ≡ is_tag text.now }
{
    !text.is_empty() && text.len() < 256 && are_tag_octets(text)
}

/// Returns `true` if octets are letters and digits.
fn are_tag_octets(octets: &[u8]) -> bool
    ensures { result ≡ are_tag_octets octets.now }
{
    for octet in octets {
        if !is_tag_octet(*octet) {
            return false;
        }
    }
    true
}

/// Returns `true` if an octet is a letter or a digit.
fn is_tag_octet(octet: u8) -> bool
    ensures { result ≡ is_tag_octet octet }
{
    matches!(octet, b'0'..=b'9' | b'A'..=b'Z' | b'a'..=b'z')
}
