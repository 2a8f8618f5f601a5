//! The names of included files that are to be read.

ghost use Rattle.std.specs.Prelude.{◌≡◌, IfOk, is_some, map, option_map};
ghost use Rattle.dns_zone_file.specs.Parsing.{text_of};
ghost use Rattle.dns_zone_file.specs.internal.Parsing.{includes_view};
ghost use Rattle.dns_zone_file.specs.includes.Missing.{FindsMissing, first_missing};

use crate::{Types, included_names};
use std::alloc::{AllocError, Global};

/// Returns the first name that a text includes and that none of the texts has, which were read so far. Each of these may include
/// others.
pub fn missing_name<'a>(
    alloc: Global,
    text: &'a str,
    types: Types,
    includes: &[(String, String)],
) -> Result<Option<&'a [u8]>, AllocError>
    ensures { IfOk result (λ found. FindsMissing types text.now (includes_view includes.now)
        (option_map (λ name. name.now) found)) }
{
    let names = included_names(alloc, text, types)?;
    Ok(first_missing(names.as_slice(), includes))
}

/// Returns the first name that none of the texts has.
fn first_missing<'a>(names: &[&'a [u8]], includes: &[(String, String)]) -> Option<&'a [u8]>
    ensures { option_map (λ name. name.now) result
        ≡ first_missing (includes_view includes.now) (map (λ name. name.now) names.now) }
{
    for name in names {
        if !has_text(includes, name) {
            return Some(*name);
        }
    }
    None
}

/// Returns `true` if one of the texts has a name.
fn has_text(includes: &[(String, String)], name: &[u8]) -> bool
    ensures { result ≡ is_some (text_of (includes_view includes.now) name.now) }
{
    for (other, _) in includes {
        if other.as_bytes() == name {
            return true;
        }
    }
    false
}
