//! All tokens that are left, as the bytes of one field.

ghost use Rattle.std.specs.Prelude.{◌≡◌, ◌≢◌, ◌++◌, [], Ok, Err, Some, IfOk, IfErr, map};
ghost use Rattle.base64.specs.Engines.{standard};
ghost use Rattle.base64.specs.GeneralPurpose.{decode_of};
ghost use Rattle.hex.specs.Hex as hex_text;
ghost use Rattle.dns_text.specs.Token.{lexeme};
ghost use Rattle.dns_formats.specs.Value.{Appends};
ghost use Rattle.dns_formats.specs.Rest.{joined, hex_outcome, base64_outcome, hex_words, base64_words, rest_bytes};

use crate::fault::TokenFault;
use crate::field::Field;
use crate::location::push_location;
use crate::service::push_parameters;
use crate::types::push_types;
use base64::DecodeAllocError;
use base64::engine::general_purpose::STANDARD;
use dns_text::Token;
use hex::FromHexError;
use std::alloc::Global;

/// Appends the bytes of a field that takes all tokens that are left.
pub(crate) fn push_rest(
    alloc: Global,
    field: Field,
    tokens: &[Token<'_>],
    out: &mut Vec<u8>,
) -> Result<(), TokenFault>
    ensures { Appends TokenFault.Memory (rest_bytes field (map lexeme tokens.now))
        out.old.items result out.new.items }
{
    match field {
        Field::Hex => push_hex_words(alloc, tokens, out),
        Field::Base64 => push_base64_words(alloc, tokens, out),
        Field::Types => push_types(alloc, tokens, out),
        Field::Parameters => push_parameters(alloc, tokens, out),
        Field::Location => push_location(alloc, tokens, out),
        _ => Err(TokenFault::NotAWord),
    }
}

/// Appends bytes from hexadecimal digits in any number of words.
fn push_hex_words(alloc: Global, tokens: &[Token<'_>], out: &mut Vec<u8>) -> Result<(), TokenFault>
    ensures { Appends TokenFault.Memory (hex_words (joined (map lexeme tokens.now)))
        out.old.items result out.new.items }
{
    let words = join_words(alloc, tokens)?;
    push_hex(alloc, words.as_slice(), out)
}

/// Appends bytes from base64 in any number of words.
fn push_base64_words(
    alloc: Global,
    tokens: &[Token<'_>],
    out: &mut Vec<u8>,
) -> Result<(), TokenFault>
    ensures { Appends TokenFault.Memory (base64_words (joined (map lexeme tokens.now)))
        out.old.items result out.new.items }
{
    let words = join_words(alloc, tokens)?;
    push_base64(alloc, words.as_slice(), out)
}

/// Joins words.
pub(crate) fn join_words(alloc: Global, tokens: &[Token<'_>]) -> Result<Vec<u8>, TokenFault>
    ensures ok { IfOk result (λ words. joined (map lexeme tokens.now) ≡ Some words.items) }
    ensures refused { IfErr result (λ fault. fault ≢ TokenFault.Memory
        → (joined (map lexeme tokens.now) ≡ None) × (fault ≡ TokenFault.NotAWord)) }
{
    let mut words = Vec::new(alloc);
    for token in tokens {
        let Token::CharData(text) = *token else {
            return Err(TokenFault::NotAWord);
        };
        words.extend_from_slice(text)?;
    }
    Ok(words)
}

/// Appends bytes from hexadecimal digits.
pub(crate) fn push_hex(alloc: Global, digits: &[u8], out: &mut Vec<u8>) -> Result<(), TokenFault>
    ensures { Appends TokenFault.Memory (hex_outcome (hex_text.decode_of digits.now))
        out.old.items result out.new.items }
{
    match hex::decode(alloc, digits) {
        Ok(bytes) if bytes.is_empty() => Err(TokenFault::NotHex),
        Ok(bytes) => Ok(out.extend_from_slice(bytes.as_slice())?),
        // The decoder had no memory for the bytes.
        Err(FromHexError::OutOfMemory) => Err(TokenFault::Memory),
        Err(_) => Err(TokenFault::NotHex),
    }
}

/// Appends bytes from base64.
fn push_base64(alloc: Global, digits: &[u8], out: &mut Vec<u8>) -> Result<(), TokenFault>
    ensures { Appends TokenFault.Memory (base64_outcome (decode_of standard digits.now))
        out.old.items result out.new.items }
{
    match STANDARD.decode(alloc, digits) {
        Ok(bytes) if bytes.is_empty() => Err(TokenFault::NotBase64),
        Ok(bytes) => Ok(out.extend_from_slice(bytes.as_slice())?),
        // The decoder had no memory for the bytes.
        Err(DecodeAllocError::OutOfMemory) => Err(TokenFault::Memory),
        Err(_) => Err(TokenFault::NotBase64),
    }
}
