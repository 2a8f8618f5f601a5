//! Theorems about the definitions of this crate, as functions with empty bodies.

ghost use Rattle.std.specs.Prelude.{◌≡◌, ◌↔◌, List, ℕ, Some};
ghost use Rattle.stub_script.specs.ScriptFields.{SpellsHost, host_of};

/// A word of a script is a host exactly if it spells an address (RFC 4291 section 2.2) or a name (RFC 1035 section 5.1).
#[tactic(auto, using(crate::proofs::HostLaws::host_spells))]
pub fn hosts_are_addresses_and_names()
    ensures { (text : List ℕ) → (host_of text ≡ Some text) ↔ SpellsHost text }
{}
