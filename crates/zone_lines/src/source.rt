//! The texts of a zone file.

ghost use Rattle.std.specs.Prelude.{◌≡◌, IfSome, option_map};
ghost use Rattle.dns_zone_file.specs.internal.Parsing.{includes_view};
ghost use Rattle.zone_lines.specs.Source.{source_from};
ghost use Rattle.zone_lines.specs.internal.Source.{source_view};

use crate::skip::Section;
use dns_zone_file::Types;

/// A zone file: its text, those that it includes, and the types that it may have.
#[derive(Clone, Copy)]
pub struct ZoneText<'a> {
    pub text: &'a str,
    /// The texts to include, each after the name that `$INCLUDE` states. The first of a name counts.
    pub includes: &'a [(String, String)],
    pub types: Types,
}

/// Returns the whole of the first text of a name.
pub(crate) fn find_source<'a>(includes: &'a [(String, String)], name: &[u8]) -> Option<Section<'a>>
    ensures source { option_map source_view result
        ≡ source_from 1 (includes_view includes.now) name.now }
    ensures whole { IfSome result (λ section. section.base ≡ 0) }
{
    for (place, (other, text)) in includes.iter().enumerate() {
        if other.as_bytes() == name {
            return Some(Section {
                source: place + 1,
                base: 0,
                text: text.as_str(),
            });
        }
    }
    None
}
