//! Theorems about the definitions of this crate, as functions with empty bodies.

ghost use Rattle.std.specs.Prelude.{◌≡◌, ℕ, List};
ghost use Rattle.dns_keys.specs.File.{IsKeyFile, IsRefused, KeyValue};
ghost use Rattle.dns_keys.specs.declared.error.KeyFileError.{KeyFileError};

/// A text has one list of keys at most.
pub fn a_text_has_one_list_of_keys()
    ensures { (text : List ℕ) (keys others : List KeyValue) → IsKeyFile text keys
        → IsKeyFile text others → keys ≡ others }
{}

/// A text that has a list of keys has no fault.
pub fn a_key_file_has_no_fault()
    ensures { (text : List ℕ) (keys : List KeyValue) (error : KeyFileError)
        → IsKeyFile text keys → ¬ (IsRefused text error) }
{}
