//! Names and texts that a caller passes as bytes.

ghost use Rattle.std.specs.Prelude.{◌≡◌, MatchResult};
ghost use Rattle.std.specs.Str.{IsUtf8};
ghost use Rattle.dns_wire.specs.Error.{IsUnless};
ghost use Rattle.api.specs.buffer.Arguments.{name_in, origin_in};

use crate::buffer::refusal::Refusal;
use dns_names::{Name, ParseError};
use std::alloc::Global;

/// Returns the text that bytes are.
///
/// The error is [`Refusal::Encoding`] if they are not UTF-8.
pub fn text_in(bytes: &[u8]) -> Result<&str, Refusal>
    ensures { MatchResult result (λ text. (text.now ≡ bytes.now) × IsUtf8 bytes.now)
        (λ error. (error ≡ Refusal.Encoding) × ¬ (IsUtf8 bytes.now)) }
{
    match str::from_utf8(bytes) {
        Ok(text) => Ok(text),
        Err(_) => Err(Refusal::Encoding),
    }
}

/// Returns the fully qualified name that a text is, with or without its last dot (RFC 1035 section 5.1).
///
/// # Errors
///
/// - [`Refusal::Name`] if it is no name;
/// - [`Refusal::Memory`] if memory is refused.
pub fn name_in(alloc: Global, text: &[u8]) -> Result<Name, Refusal>
    ensures { IsUnless Refusal.Memory (name_in text.now) result }
{
    match Name::from_ascii_bytes(alloc, text) {
        Ok(name) => {
            let mut name = name;
            name.set_fqdn(true);
            Ok(name)
        }
        // Memory was refused for the name.
        Err(ParseError::Memory) => Err(Refusal::Memory),
        Err(_) => Err(Refusal::Name),
    }
}

/// Returns the origin that a text is, or none if the text is empty.
///
/// # Errors
///
/// - [`Refusal::Name`] if it is no name;
/// - [`Refusal::Memory`] if memory is refused.
pub fn origin_in(alloc: Global, text: &[u8]) -> Result<Option<Name>, Refusal>
    ensures { IsUnless Refusal.Memory (origin_in text.now) result }
{
    if text.is_empty() {
        return Ok(None);
    }
    match name_in(alloc, text) {
        Ok(name) => Ok(Some(name)),
        Err(error) => Err(error),
    }
}
