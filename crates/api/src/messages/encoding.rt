//! The bytes of a message (RFC 1035 section 4.1).

ghost use Rattle.std.specs.Prelude.{IfErr, IfOk};
ghost use Rattle.dns_messages.specs.Encoding.{Encodes};
ghost use Rattle.api.specs.messages.Messages.{IsTooLongToEncode, max_len};

use crate::buffer::Refusal;
use dns_messages::Message;
use dns_wire::EncodeError;
use std::alloc::Global;

/// Returns the bytes of a message, without those of its records that would pass 65,535 bytes.
///
/// # Errors
///
/// - [`Refusal::TooLong`] if its questions pass 65,535 bytes;
/// - [`Refusal::Memory`] if memory is refused.
pub(crate) fn encode(alloc: Global, message: &Message) -> Result<Vec<u8>, Refusal>
    ensures bytes { IfOk result (λ bytes. Encodes max_len message.now bytes.items) }
    ensures refused { IfErr result (IsTooLongToEncode message.now) }
{
    match message.to_vec(alloc) {
        Ok(bytes) => Ok(bytes),
        // Memory was refused for the bytes.
        Err(EncodeError::Memory) => Err(Refusal::Memory),
        Err(EncodeError::MaxBufferSizeExceeded) => Err(Refusal::TooLong),
    }
}
