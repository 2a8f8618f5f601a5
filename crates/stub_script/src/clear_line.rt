//! Lines that remove entries from the cache: `<at> clear <name> <type>` and `<at> clearall`.

ghost use Rattle.std.specs.Prelude.{◌≡◌, IfOk, map, option_map};
ghost use Rattle.stub_script.specs.ClearLine.{clear_all_of, clear_of};
ghost use Rattle.stub_script.specs.EventContent.{action_content};

use crate::script_fields::parse_question;
use dns_zone_file::Types;
use std::alloc::{AllocError, Global};
use stub_run::Action;

/// Reads the removal of the entries of a name and a type, from the words after the keyword.
pub(crate) fn read_clear(
    alloc: Global,
    arguments: &[Vec<u8>],
    types: Types,
) -> Result<Option<Action>, AllocError>
    ensures { IfOk result (λ found. option_map action_content found
        ≡ clear_of types (map (λ word. word.items) arguments.now)) }
{
    let [name, rtype] = arguments else {
        return Ok(None);
    };
    match parse_question(alloc, name, rtype, types)? {
        Some((name, rtype)) => Ok(Some(Action::Clear { name, rtype })),
        None => Ok(None),
    }
}

/// Reads the removal of all entries, whose keyword no word follows.
pub(crate) fn read_clear_all(arguments: &[Vec<u8>]) -> Option<Action>
    ensures { option_map action_content result
        ≡ clear_all_of (map (λ word. word.items) arguments.now) }
{
    if arguments.is_empty() {
        Some(Action::ClearAll)
    } else {
        None
    }
}
