//! Theorems about the definitions of this crate, as functions with empty bodies.

ghost use Rattle.std.specs.Prelude.{◌≡◌, List, ℕ};
ghost use Rattle.dns_messages.specs.declared.message.Message.{Message};
ghost use Rattle.dns_messages.specs.Grammar.{ReadsMessage};
ghost use Rattle.dns_message_bytes.specs.view.Request.{ReadsRequest};
ghost use Rattle.dns_message_bytes.specs.view.MessageView.{RawMessage, ReadsRawMessage, RefusesRawMessage, DecodesRawMessage};
ghost use Rattle.dns_wire.specs.declared.error.DecodeError.{DecodeError};

/// A request that is read in place is the message that its bytes decode to.
pub fn requests_are_messages()
    ensures { (bytes : List ℕ) (m : Message) → ReadsRequest bytes m → ReadsMessage bytes m }
{}

/// Whatever `Message::from_vec` decodes has a structure that [`MessageView::of`](crate::view::MessageView::of) reads: the same
/// header, questions, owners, types, classes and TTLs, and the bytes from which the data is decoded. Bytes have at most one
/// structure, and are not refused if they have one.
pub fn messages_have_one_structure()
    ensures decoded { (bytes : List ℕ) (m : Message) → ReadsMessage bytes m → (raw : RawMessage)
        × (ReadsRawMessage bytes raw × DecodesRawMessage bytes raw m) }
    ensures unambiguous { (bytes : List ℕ) (a b : RawMessage) → ReadsRawMessage bytes a
        → ReadsRawMessage bytes b → a ≡ b }
    ensures not_refused { (bytes : List ℕ) (raw : RawMessage) (error : DecodeError)
        → ReadsRawMessage bytes raw → RefusesRawMessage bytes error → ⊥ }
{}
