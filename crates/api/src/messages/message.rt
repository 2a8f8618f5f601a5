//! Messages as text, and encoded again.

ghost use Rattle.std.specs.Prelude.{◌≡◌, IfErr, IfOk};
ghost use Rattle.dns_messages.specs.Grammar.{ReadsMessage};
ghost use Rattle.api.specs.messages.Messages.{IsEncodedAgain, IsNotEncodedAgain, IsTextOf, IsUndecoded};

use crate::buffer::Refusal;
use crate::messages::encoding::encode;
use dns_messages::Message;
use dns_wire::DecodeError;
use std::alloc::Global;

/// Returns a message in the layout of dig.
///
/// # Errors
///
/// - [`Refusal::Message`] if the bytes are no message;
/// - [`Refusal::Memory`] if memory is refused.
pub fn message_text(alloc: Global, bytes: &[u8]) -> Result<Vec<u8>, Refusal>
    ensures text { IfOk result (λ text. IsTextOf bytes.now text.items) }
    ensures refused { IfErr result (IsUndecoded bytes.now) }
{
    let message = decode(alloc, bytes)?;
    let text = format!(in alloc; "{message}")?;
    Ok(text.into_bytes())
}

/// Decodes a message and encodes it again, under 65,535 bytes.
///
/// # Errors
///
/// - [`Refusal::Message`] if the bytes are no message;
/// - [`Refusal::TooLong`] if its questions pass 65,535 bytes;
/// - [`Refusal::Memory`] if memory is refused.
pub fn encode_again(alloc: Global, bytes: &[u8]) -> Result<Vec<u8>, Refusal>
    ensures bytes { IfOk result (λ again. IsEncodedAgain bytes.now again.items) }
    ensures refused { IfErr result (IsNotEncodedAgain bytes.now) }
{
    let message = decode(alloc, bytes)?;
    encode(alloc, &message)
}

/// Decodes a message.
fn decode(alloc: Global, bytes: &[u8]) -> Result<Message, Refusal>
    ensures read { IfOk result (λ message. ReadsMessage bytes.now message) }
    ensures refused { IfErr result (IsUndecoded bytes.now) }
{
    match Message::from_vec(alloc, bytes) {
        Ok(message) => Ok(message),
        // Memory was refused for the message.
        Err(DecodeError::Memory) => Err(Refusal::Memory),
        Err(_) => Err(Refusal::Message),
    }
}
