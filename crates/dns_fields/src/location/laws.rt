//! Theorems about the definitions of this crate, as functions with empty bodies.

ghost use Rattle.std.specs.Prelude.{◌≡◌, ℕ, List, true, Ok, map};
ghost use Rattle.dns_names.specs.Print.{AreOctets};
ghost use Rattle.dns_text.specs.Lexer.{Lexeme, CharData};
ghost use Rattle.dns_fields.specs.location.Wire.{is_location};
ghost use Rattle.dns_fields.specs.location.Text.{location_words};
ghost use Rattle.dns_fields.specs.location.Location.{location_bytes};

/// The words of a location are read as its bytes (RFC 1876 sections 2 and 3).
pub fn location_is_read_back()
    ensures { (bytes : List ℕ) → AreOctets bytes → is_location bytes ≡ true
        → location_bytes (map (λ word. CharData word) (location_words bytes)) ≡ Ok bytes }
{}
