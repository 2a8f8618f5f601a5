//! The parameters of service bindings, from their tokens (RFC 9460 section 2.1).

ghost use Rattle.std.specs.Prelude.{◌≡◌, ◌≢◌, ◌≤◌, ◌<◌, ◌==◌, ◌+◌, [], length, drop, take, map, Ok, Err, IfOk, IfErr, IfSome, option_map};
ghost use Rattle.std.specs.List.{position};
ghost use Rattle.dns_text.specs.Token.{lexeme};
ghost use Rattle.dns_text.specs.CharacterString.{unescaped};
ghost use Rattle.dns_formats.specs.Value.{Appends};
ghost use Rattle.dns_formats.specs.Service.{key_end, quoted_value, value_text, more_tokens, with_octets, in_order, parameters_bytes};

use crate::fault::TokenFault;
use dns_fields::service::{ServiceFault, are_parameters, with_parameter};
use dns_text::{Token, unescape};
use std::alloc::Global;

/// Appends the bytes of the parameters that tokens denote, in any order.
///
/// A parameter is a key, or a key, `=` and a value; a quoted value is a token of its own, after the word that ends with `=`.
pub(crate) fn push_parameters(
    alloc: Global,
    tokens: &[Token<'_>],
    out: &mut Vec<u8>,
) -> Result<(), TokenFault>
    ensures { Appends TokenFault.Memory (parameters_bytes (map lexeme tokens.now))
        out.old.items result out.new.items }
{
    let bytes = in_order(alloc, tokens)?;
    if !are_parameters(bytes.as_slice()) {
        return Err(TokenFault::NotParameters);
    }
    out.extend_from_slice(bytes.as_slice())?;
    Ok(())
}

/// Returns the bytes of the parameters that tokens denote, in the order of their keys.
fn in_order(alloc: Global, tokens: &[Token<'_>]) -> Result<Vec<u8>, TokenFault>
    ensures ok { IfOk result (λ bytes. in_order 0 [] (map lexeme tokens.now) ≡ Ok bytes.items) }
    ensures refused { IfErr result (λ fault. fault ≢ TokenFault.Memory
        → in_order 0 [] (map lexeme tokens.now) ≡ Err fault) }
{
    let mut bytes = Vec::new(alloc);
    let mut left = tokens;
    while !left.is_empty() {
        let Token::CharData(text) = left[0] else {
            return Err(TokenFault::NotAWord);
        };
        let rest = skip(left, 1);
        bytes = with_word(alloc, bytes.as_slice(), text, rest)?;
        left = skip(rest, more_tokens(text, rest));
    }
    Ok(bytes)
}

/// Returns tokens without the first ones.
fn skip<'a, 't>(tokens: &'t [Token<'a>], count: usize) -> &'t [Token<'a>]
    ensures { result.now ≡ drop count tokens.now }
{
    &tokens[tokens.len().min(count)..]
}

/// Returns how many of the tokens after a word belong to its parameter.
fn more_tokens(text: &[u8], tokens: &[Token<'_>]) -> usize
    ensures { result ≡ more_tokens (quoted_value text.now (map lexeme tokens.now)) }
{
    match quoted_value(text, tokens) {
        Some(_) => 1,
        None => 0,
    }
}

/// Returns parameters with one more, from its word and the tokens after it.
fn with_word(
    alloc: Global,
    bytes: &[u8],
    text: &[u8],
    tokens: &[Token<'_>],
) -> Result<Vec<u8>, TokenFault>
    ensures ok { IfOk result (λ all.
        with_octets bytes.now (take (key_end text.now) text.now)
        (unescaped (value_text text.now (map lexeme tokens.now))) ≡ Ok all.items) }
    ensures refused { IfErr result (λ fault. fault ≢ TokenFault.Memory
        → with_octets bytes.now (take (key_end text.now) text.now)
        (unescaped (value_text text.now (map lexeme tokens.now))) ≡ Err fault) }
{
    with_text(alloc, bytes, word_key(text), value_text(text, tokens))
}

/// Returns the text of the value of a parameter.
fn value_text<'a>(text: &'a [u8], tokens: &[Token<'a>]) -> &'a [u8]
    ensures { result.now ≡ value_text text.now (map lexeme tokens.now) }
{
    match quoted_value(text, tokens) {
        Some(quoted) => quoted,
        None => word_value(text),
    }
}

/// Returns the key of a parameter, before the first `=`.
fn word_key(text: &[u8]) -> &[u8]
    ensures { result.now ≡ take (key_end text.now) text.now }
{
    &text[..key_end(text)]
}

/// Returns where the key of a parameter ends: at the first `=`, or with the text.
fn key_end(text: &[u8]) -> usize
    ensures value { result ≡ key_end text.now }
    ensures within { result ≤ length text.now }
{
    match sign_place(text) {
        Some(place) => place,
        None => text.len(),
    }
}

/// Returns the place of the first `=`.
fn sign_place(text: &[u8]) -> Option<usize>
    ensures place { result ≡ position (λ c. c == 61) text.now }
    ensures within { IfSome result (λ place. place < length text.now) }
{
    text.iter().position(|c| *c == b'=')
}

/// Returns the value that follows the first `=`, or none.
fn word_value(text: &[u8]) -> &[u8]
    ensures { result.now ≡ drop (key_end text.now + 1) text.now }
{
    let end = key_end(text);
    if end < text.len() {
        &text[end + 1..]
    } else {
        &text[end..]
    }
}

/// Returns the quoted value that the first token is, if the text ends with its first `=`.
fn quoted_value<'a>(text: &[u8], tokens: &[Token<'a>]) -> Option<&'a [u8]>
    ensures { option_map (λ quoted. quoted.now) result
        ≡ quoted_value text.now (map lexeme tokens.now) }
{
    if tokens.is_empty() || key_end(text) + 1 != text.len() {
        return None;
    }
    match tokens[0] {
        Token::Quoted(quoted) => Some(quoted),
        _ => None,
    }
}

/// Returns parameters with one more, from its key and the text of its value.
fn with_text(alloc: Global, bytes: &[u8], name: &[u8], value: &[u8]) -> Result<Vec<u8>, TokenFault>
    ensures ok { IfOk result (λ all.
        with_octets bytes.now name.now (unescaped value.now) ≡ Ok all.items) }
    ensures refused { IfErr result (λ fault. fault ≢ TokenFault.Memory
        → with_octets bytes.now name.now (unescaped value.now) ≡ Err fault) }
{
    let Some(octets) = unescape(alloc, value)? else {
        return Err(TokenFault::InvalidEscape);
    };
    match with_parameter(alloc, bytes, name, octets.as_slice()) {
        Ok(all) => Ok(all),
        // The parameter could not be added for want of memory.
        Err(ServiceFault::Memory) => Err(TokenFault::Memory),
        Err(fault) => Err(TokenFault::Parameter(fault)),
    }
}
