//! Theorems about the definitions of this crate, as functions with empty bodies.

ghost use Rattle.std.specs.Prelude.{◌≡◌, false, ℕ, List, flat_map};
ghost use Rattle.std.specs.List.{AllByRecursion};
ghost use Rattle.dns_messages.specs.Sound.{IsSound, IsSoundIn};
ghost use Rattle.dns_messages.specs.declared.message.Message.{Message};
ghost use Rattle.dns_records.specs.Record.{Record};
ghost use Rattle.dns_transfers.specs.Sending.{start, AreRead, SendsAll};

/// The messages of a transfer decode, and the records of their answer sections, one after another, are those of the source.
#[tactic(auto, using(crate::proofs::SendingLaws::all_arrive))]
pub fn messages_have_all_records()
    ensures { (request : Message) (records : List Record) (messages : List (List ℕ))
        → IsSound request → AllByRecursion (IsSoundIn false) records
        → SendsAll (start request records) messages
        → (decoded : List Message) × (AreRead messages decoded
        × (flat_map (λ m. m.answers) decoded ≡ records)) }
{}
