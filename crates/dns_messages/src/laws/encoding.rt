//! Theorems about encoding under a limit.

ghost use Rattle.std.specs.Prelude.{◌≡◌, ◌≤◌, ℕ};
ghost use Rattle.dns_messages.specs.Cut.{cut, uncompressed_len, written_edns};
ghost use Rattle.dns_messages.specs.Sound.{IsSound};
ghost use Rattle.dns_messages.specs.declared.message.Message.{Message};

/// Nothing of a sound message is dropped under a limit that it does not pass with its names uncompressed (RFC 1035
/// section 4.1).
#[tactic(auto, using(crate::proofs::FitLaws::uncut))]
pub fn messages_within_the_limit_are_not_cut()
    ensures { (limit : ℕ) (m : Message)
        → IsSound m → uncompressed_len m ≤ limit → cut limit m ≡ m }
{}

/// The OPT record of a sound message is written as it is: it has the upper eight bits of the response code (RFC 6891
/// section 6.1.3).
#[tactic(auto, using(crate::proofs::DecodeLaws::written_edns_sound))]
pub fn sound_messages_keep_their_edns()
    ensures { (m : Message) → IsSound m → written_edns m ≡ m.edns }
{}
