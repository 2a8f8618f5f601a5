//! The tokens of a text (RFC 1035 section 5.1).

ghost use Rattle.std.specs.Prelude.{◌≡◌, IfErr, IfOk, map};
ghost use Rattle.dns_text.specs.Token.{lexeme};
ghost use Rattle.api.specs.messages.Tokens.{AreTokensOf};
ghost use Rattle.api.specs.messages.Data.{IsUnlexed};

use crate::buffer::Refusal;
use dns_text::{Lexer, Token};
use std::alloc::Global;

/// Returns the tokens of a text.
///
/// # Errors
///
/// - [`Refusal::Data`] if the text cannot be lexed, as one with a quote that is not closed;
/// - [`Refusal::Memory`] if memory is refused.
pub(crate) fn tokens_of<'a>(alloc: Global, text: &'a str) -> Result<Vec<Token<'a>>, Refusal>
    ensures tokens { IfOk result (λ tokens. AreTokensOf text.now (map lexeme tokens.items)) }
    ensures refused { IfErr result (IsUnlexed text.now) }
{
    let mut lexer = Lexer::new(text);
    let mut tokens = Vec::new(alloc);
    loop {
        match lexer.next_token() {
            Ok(Some(token)) => tokens.push(token)?,
            Ok(None) => return Ok(tokens),
            Err(_) => return Err(Refusal::Data),
        }
    }
}
