//! Theorems about the definitions of this crate, as functions with empty bodies.

ghost use Rattle.std.specs.Prelude.{◌≡◌, List, ℕ};
ghost use Rattle.dns_wire.specs.Encoder.{max_message_len};
ghost use Rattle.dns_messages.specs.declared.message.Message.{Message};
ghost use Rattle.dns_messages.specs.Encoding.{Encodes};
ghost use Rattle.dns_messages.specs.Grammar.{ReadsMessage};
ghost use Rattle.dns_messages.specs.Message.{truncated};
ghost use Rattle.dns_faults.specs.Truncated.{HasNoRecords};

use dns_messages::laws::decoded_messages_are_sound;

/// A truncated reply decodes to a message with TC, with the questions of the reply, and without records in its sections.
pub fn truncated_replies_have_no_records()
    ensures { (m : Message) (reply bytes : List ℕ) → ReadsMessage reply m
        → Encodes max_message_len (truncated m) bytes
        → (t : Message) × ReadsMessage bytes t × HasNoRecords m t }
{
    decoded_messages_are_sound();
}
