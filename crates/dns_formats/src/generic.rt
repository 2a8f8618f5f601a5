//! Record data of any type in the generic form (RFC 3597 section 5).

ghost use Rattle.std.specs.Prelude.{◌≡◌, ◌≢◌, Ok, Err, IfOk, IfErr, map};
ghost use Rattle.hex.specs.Hex.{decode_of};
ghost use Rattle.dns_text.specs.Token.{lexeme};
ghost use Rattle.dns_formats.specs.Rest.{joined};
ghost use Rattle.dns_formats.specs.Read.{located};
ghost use Rattle.dns_formats.specs.Data.{is_generic, digits_outcome, digits_bytes, generic_bytes};

use crate::fault::{FormatFault, TokenFault};
use crate::rest::join_words;
use crate::value::number_of;
use dns_text::Token;
use hex::FromHexError;
use std::alloc::Global;

/// Returns `true` if the tokens of record data are the generic form: if `\#` is the first.
pub fn is_generic(tokens: &[Token<'_>]) -> bool
    ensures { result ≡ is_generic (map lexeme tokens.now) }
{
    if tokens.is_empty() {
        return false;
    }
    match tokens[0] {
        Token::CharData(text) => text == b"\\#".as_slice(),
        _ => false,
    }
}

/// Returns the bytes of the generic form, from the tokens after `\#`.
pub(crate) fn read_generic(alloc: Global, tokens: &[Token<'_>]) -> Result<Vec<u8>, FormatFault>
    ensures ok { IfOk result (λ bytes. generic_bytes (map lexeme tokens.now) ≡ Ok bytes.items) }
    ensures refused { IfErr result (λ fault. fault ≢ FormatFault.Memory
        → generic_bytes (map lexeme tokens.now) ≡ Err fault) }
{
    if tokens.is_empty() {
        return Err(FormatFault::MissingToken(1));
    }
    let len = match number_of(tokens[0], 65_535) {
        Ok(len) => len,
        Err(fault) => return Err(fault.at(1)),
    };
    let bytes = read_located(alloc, &tokens[1..])?;
    if bytes.len() as u64 == len {
        Ok(bytes)
    } else {
        Err(FormatFault::WrongLength)
    }
}

/// Returns the bytes of hexadecimal digits in any number of words, the first of which is the third token.
fn read_located(alloc: Global, tokens: &[Token<'_>]) -> Result<Vec<u8>, FormatFault>
    ensures ok { IfOk result (λ bytes.
        located 2 (digits_bytes (joined (map lexeme tokens.now))) ≡ Ok bytes.items) }
    ensures refused { IfErr result (λ fault. fault ≢ FormatFault.Memory
        → located 2 (digits_bytes (joined (map lexeme tokens.now))) ≡ Err fault) }
{
    match read_digits(alloc, tokens) {
        Ok(bytes) => Ok(bytes),
        Err(fault) => Err(fault.at(2)),
    }
}

/// Returns the bytes of hexadecimal digits in any number of words.
fn read_digits(alloc: Global, tokens: &[Token<'_>]) -> Result<Vec<u8>, TokenFault>
    ensures ok { IfOk result (λ bytes.
        digits_bytes (joined (map lexeme tokens.now)) ≡ Ok bytes.items) }
    ensures refused { IfErr result (λ fault. fault ≢ TokenFault.Memory
        → digits_bytes (joined (map lexeme tokens.now)) ≡ Err fault) }
{
    let words = join_words(alloc, tokens)?;
    decode_digits(alloc, words.as_slice())
}

/// Returns the bytes of hexadecimal digits.
fn decode_digits(alloc: Global, digits: &[u8]) -> Result<Vec<u8>, TokenFault>
    ensures ok { IfOk result (λ bytes. digits_outcome (decode_of digits.now) ≡ Ok bytes.items) }
    ensures refused { IfErr result (λ fault. fault ≢ TokenFault.Memory
        → digits_outcome (decode_of digits.now) ≡ Err fault) }
{
    match hex::decode(alloc, digits) {
        Ok(bytes) => Ok(bytes),
        // The decoder had no memory for the bytes.
        Err(FromHexError::OutOfMemory) => Err(TokenFault::Memory),
        Err(_) => Err(TokenFault::NotHex),
    }
}
