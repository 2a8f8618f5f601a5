//! Theorems about decoding.

ghost use Rattle.std.specs.Prelude.{◌≡◌, List, ℕ};
ghost use Rattle.dns_wire.specs.declared.error.DecodeError.{DecodeError};
ghost use Rattle.dns_messages.specs.declared.message.Message.{Message};
ghost use Rattle.dns_messages.specs.Grammar.{ReadsMessage, RefusesMessage};
ghost use Rattle.dns_messages.specs.Sound.{IsSound};

use dns_wire::laws::class_number_round_trips;

/// Bytes decode to at most one message, and bytes that decode to one are not refused. Bytes that are refused are refused
/// with one error.
pub fn messages_decode_unambiguously()
    ensures same { (bytes : List ℕ) (a b : Message)
        → ReadsMessage bytes a → ReadsMessage bytes b → a ≡ b }
    ensures not_refused { (bytes : List ℕ) (message : Message) (error : DecodeError)
        → ReadsMessage bytes message → RefusesMessage bytes error → ⊥ }
    ensures one_error { (bytes : List ℕ) (error other : DecodeError)
        → RefusesMessage bytes error → RefusesMessage bytes other → error ≡ other }
{}

/// A message that is decoded can be encoded, and decodes again.
pub fn decoded_messages_are_sound()
    ensures { (bytes : List ℕ) (message : Message) → ReadsMessage bytes message → IsSound message }
{
    class_number_round_trips();
}
