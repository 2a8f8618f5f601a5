//! Theorems about the definitions of this crate, as functions with empty bodies.

ghost use Rattle.std.specs.Prelude.{◌≡◌, ◌≢◌, ◌<◌, ◌∷◌, ℕ, List, take};
ghost use Rattle.std.specs.Char.{to_ascii_lowercase};
ghost use Rattle.dns_faults.specs.rules.Edits.{other_octet, with_wrong_id};

/// The id of a reply with the wrong id is another one than before.
pub fn wrong_ids_differ()
    ensures { (high low : ℕ) (bytes : List ℕ) → high < 256 → low < 256
        → take 2 (with_wrong_id (high ∷ low ∷ bytes)) ≢ take 2 (high ∷ low ∷ bytes) }
{}

/// The octet that begins the name of a wrong question differs from the one before, also ignoring ASCII case.
pub fn wrong_octets_differ()
    ensures { (octet : ℕ) → to_ascii_lowercase (other_octet octet) ≢ to_ascii_lowercase octet }
{}
