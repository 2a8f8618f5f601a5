//! Sets of record types as one field, and hashes in base32hex.

ghost use Rattle.std.specs.Prelude.{◌≡◌, ◌≢◌, Ok, Err, IfOk, IfErr, map};
ghost use Rattle.dns_text.specs.Token.{lexeme};
ghost use Rattle.dns_formats.specs.Value.{Appends};
ghost use Rattle.dns_formats.specs.Types.{type_number_of, type_numbers, types_bytes, hash_bytes};

use crate::fault::TokenFault;
use crate::value::push_counted;
use dns_fields::bitmaps::{decode_base32, push_bitmap, type_of_word};
use dns_text::Token;
use std::alloc::Global;

/// Appends the bitmap of the types that the tokens name, in any order.
pub(crate) fn push_types(
    alloc: Global,
    tokens: &[Token<'_>],
    out: &mut Vec<u8>,
) -> Result<(), TokenFault>
    ensures { Appends TokenFault.Memory (types_bytes (map lexeme tokens.now))
        out.old.items result out.new.items }
{
    let numbers = type_numbers(alloc, tokens)?;
    push_bitmap(numbers.as_slice(), out)?;
    Ok(())
}

/// Returns the numbers of the types that tokens name.
fn type_numbers(alloc: Global, tokens: &[Token<'_>]) -> Result<Vec<u16>, TokenFault>
    ensures ok { IfOk result (λ numbers. type_numbers (map lexeme tokens.now) ≡ Ok numbers.items) }
    ensures refused { IfErr result (λ fault. fault ≢ TokenFault.Memory
        → type_numbers (map lexeme tokens.now) ≡ Err fault) }
{
    let mut numbers = Vec::new(alloc);
    for token in tokens {
        let number = type_number_of(*token)?;
        numbers.push(number)?;
    }
    Ok(numbers)
}

/// Returns the number of the type that a token names.
fn type_number_of(token: Token<'_>) -> Result<u16, TokenFault>
    ensures { result ≡ type_number_of (lexeme token.entry) }
{
    let Token::CharData(text) = token else {
        return Err(TokenFault::NotAWord);
    };
    match type_of_word(text) {
        Some(record_type) => Ok(u16::from(record_type)),
        None => Err(TokenFault::NotAType),
    }
}

/// Appends a hash, after its length.
pub(crate) fn push_hash(
    alloc: Global,
    token: Token<'_>,
    out: &mut Vec<u8>,
) -> Result<(), TokenFault>
    ensures { Appends TokenFault.Memory (hash_bytes (lexeme token.entry))
        out.old.items result out.new.items }
{
    let Token::CharData(text) = token else {
        return Err(TokenFault::NotAWord);
    };
    let Some(hash) = decode_base32(alloc, text)? else {
        return Err(TokenFault::NotBase32);
    };
    if hash.is_empty() {
        return Err(TokenFault::NotBase32);
    }
    if hash.len() > 255 {
        return Err(TokenFault::StringTooLong);
    }
    push_counted(hash.as_slice(), out)?;
    Ok(())
}
