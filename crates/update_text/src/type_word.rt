//! The types that words name.

ghost use Rattle.std.specs.Prelude.{◌≡◌};
ghost use Rattle.update_text.specs.TypeWord.{type_named};

use dns_formats::type_of_word;
use dns_wire::RecordType;
use dns_zone_file::Types;

/// Returns the type that a word names, in any case: a type of `RecordType` by its name, any other by `TYPE` and its number (RFC 3597
/// section 5), and with [`Types::All`] also by its name in the registry, as `URI`.
pub fn parse_type(word: &[u8], types: Types) -> Option<RecordType>
    ensures { result ≡ type_named types word.now }
{
    match types {
        Types::Nine => RecordType::from_ascii_bytes(word),
        Types::All => type_of_word(word),
    }
}
