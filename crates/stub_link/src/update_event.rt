//! Updates to send (RFC 2136 section 2).

ghost use Rattle.std.specs.Prelude.{◌≡◌, ◌<◌, IfOk, IfErr, Err};
ghost use Rattle.dns_messages.specs.Cut.{uncompressed_len};
ghost use Rattle.stub_link.specs.Request.{IsSoundUpdate, IsUpdate};

use dns_message_bytes::soundness::{fits_uncompressed, is_sound};
use dns_messages::{Message, MessageType, OpCode};
use std::marker::Model;
use thiserror::Error;

/// The maximum size of a message, in bytes (RFC 1035 section 4.2.2).
const MAX_MESSAGE_LEN: u16 = 65_535;

/// Why a message is not an update that can be sent.
#[derive(Clone, Copy, Debug, PartialEq, Eq, Drop, Error)]
pub enum UpdateError {
    /// The message is not a sound request to update a zone.
    #[error("message is not an update")]
    NotAnUpdate,
    /// The message has more than 65,535 bytes without compression (RFC 1035 section 4.2.2).
    #[error("update of more than 65,535 bytes")]
    TooLong,
}

/// An update that can be sent: a sound request of opcode Update (RFC 2136 section 2), which is sent whole.
#[derive(Drop)]
pub struct UpdateEvent {
    message: Message,
}

impl Model for UpdateEvent {
    ghost use Rattle.dns_messages.specs.declared.message.Message.{Message};
    ghost use Rattle.stub_link.specs.Request.{IsUpdate};

    ghost Value = { Message };

    ghost view = { λ update. update.message };

    ghost invariant = { λ update. IsUpdate update.message };
}

impl UpdateEvent {
    /// Creates an update of a message.
    ///
    /// The error is [`UpdateError::NotAnUpdate`] if the message is not sound, not a request, or not of opcode Update.
    /// Otherwise it is [`UpdateError::TooLong`] if the message has more than 65,535 bytes without compression.
    pub fn new(message: Message) -> Result<UpdateEvent, UpdateError>
        ensures ok { IfOk result (λ update. (update ≡ message) × IsUpdate message) }
        ensures other { result ≡ Err UpdateError.NotAnUpdate → ¬ IsSoundUpdate message }
        ensures long { result ≡ Err UpdateError.TooLong
            → IsSoundUpdate message × (65535 < uncompressed_len message) }
    {
        let is_update = message.metadata.message_type == MessageType::Query
            && message.metadata.op_code == OpCode::Update;
        if !is_update || !is_sound(&message) {
            return Err(UpdateError::NotAnUpdate);
        }
        if !fits_uncompressed(&message, MAX_MESSAGE_LEN) {
            return Err(UpdateError::TooLong);
        }
        Ok(UpdateEvent { message })
    }

    /// Returns the message.
    pub fn message(&self) -> &Message
        ensures message { result.now ≡ self.now }
        ensures update { IsUpdate self.now }
    {
        &self.message
    }
}
