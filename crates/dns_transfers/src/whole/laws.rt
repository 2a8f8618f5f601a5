//! Theorems about the definitions of this crate, as functions with empty bodies.

ghost use Rattle.std.specs.Prelude.{◌≡◌, false, List, ℕ, flat_map};
ghost use Rattle.std.specs.List.{AllByRecursion};
ghost use Rattle.dns_messages.specs.Sound.{IsSound, IsSoundIn};
ghost use Rattle.dns_messages.specs.declared.message.Message.{Message};
ghost use Rattle.dns_records.specs.RecordSet.{RecordSetValue};
ghost use Rattle.dns_transfers.specs.Sending.{AreRead};
ghost use Rattle.dns_zone.specs.Lookup.{AreSetsOf};
ghost use Rattle.dns_zone.specs.Rows.{ZoneContent};
ghost use Rattle.dns_transfers.specs.whole.Reply.{IsTransfer};
ghost use Rattle.dns_transfers.specs.whole.ZoneRecords.{transfer_records};

/// Each record of a transfer can be encoded in a message, and decoded again.
#[tactic(auto, using(crate::proofs::ZoneRecordLaws::all_sound))]
pub fn transferred_records_are_sound()
    ensures { (zone : ZoneContent) (sets : List RecordSetValue) → AreSetsOf zone sets
        → AllByRecursion (IsSoundIn false) (transfer_records zone.origin sets) }
{}

/// The messages of a transfer decode. The records of their answer sections, one after another, are the SOA record of the zone,
/// those of its other sets, each once, and the SOA record again (RFC 5936 section 2.2).
pub fn transfers_have_all_records()
    ensures { (zone : ZoneContent) (request : Message) (messages : List (List ℕ))
        → IsSound request → IsTransfer zone request messages
        → (sets : List RecordSetValue) × (AreSetsOf zone sets × ((decoded : List Message)
        × (AreRead messages decoded
        × (flat_map (λ m. m.answers) decoded ≡ transfer_records zone.origin sets)))) }
{}
