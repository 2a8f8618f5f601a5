//! Truncated replies (RFC 2181 section 9).

ghost use Rattle.std.specs.Prelude.{◌≡◌, IfOk};
ghost use Rattle.dns_faults.specs.Truncated.{IsTruncated};

use dns_messages::Message;
use dns_messages::laws::decoded_messages_are_sound;
use dns_wire::{DecodeError, EncodeError};
use std::alloc::{AllocError, Global};

/// Returns a reply with TC set and without records, except its OPT record. The question is kept.
///
/// Bytes that do not decode, and questions that do not fit in a message, stay as they are.
pub fn truncated_reply(alloc: Global, reply: Vec<u8>) -> Result<Vec<u8>, AllocError>
    ensures { IfOk result (λ bytes. IsTruncated reply.items bytes.items) }
{
    let message = match Message::from_vec(alloc, reply.as_slice()) {
        Ok(message) => message,
        Err(error) => match error {
            // The memory for the message was refused.
            DecodeError::Memory => return Err(AllocError),
            _ => return Ok(reply),
        },
    };
    let truncated = message.truncate(alloc)?;
    match truncated.to_vec(alloc) {
        Ok(bytes) => Ok(bytes),
        Err(error) => match error {
            // The memory for the reply's bytes was refused.
            EncodeError::Memory => Err(AllocError),
            EncodeError::MaxBufferSizeExceeded => Ok(reply),
        },
    }
}
