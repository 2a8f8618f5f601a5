//! Theorems about the definitions of this crate, as functions with empty bodies.

ghost use Rattle.std.specs.Prelude.{◌≡◌, ◌<◌, ◌==◌, [], ℕ, List, true, Some, Ok, length, if◌then◌else◌};
ghost use Rattle.dns_names.specs.Print.{AreOctets};
ghost use Rattle.dns_text.specs.CharacterString.{unescaped};
ghost use Rattle.dns_text.specs.Front.{Bare};
ghost use Rattle.dns_text.specs.Tokens.{IsRun};
ghost use Rattle.dns_fields.specs.service.Key.{key_of};
ghost use Rattle.dns_fields.specs.service.Wire.{is_value};
ghost use Rattle.dns_fields.specs.service.Parameter.{named_bytes};
ghost use Rattle.dns_fields.specs.service.Text.{word_text, key_name, value_octets};

/// The text of a parameter is read back: its name denotes the key, its value is a word of a zone file, whose octets denote
/// the bytes of the value (RFC 9460 section 2.1).
pub fn parameters_are_read_back()
    ensures key { (key : ℕ) → key < 65536 → key_of (key_name key) ≡ Some key }
    ensures word { (octets : List ℕ) → AreOctets octets → IsRun Bare (word_text octets) }
    ensures octets { (octets : List ℕ) → AreOctets octets
        → unescaped (word_text octets) ≡ Some octets }
    ensures value { (all : List ℕ) (key : ℕ) (value : List ℕ) → AreOctets value
        → is_value all key value ≡ true
        → named_bytes (key_name key) key (if length value == 0 then [] else value_octets key value)
        ≡ Ok value }
{}
