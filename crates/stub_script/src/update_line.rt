//! Lines of updates (RFC 2136 section 2): `<at> update <action> <name> ..`.

ghost use Rattle.std.specs.Prelude.{IfOk, map, option_map};
ghost use Rattle.stub_script.specs.EventContent.{action_content};
ghost use Rattle.stub_script.specs.UpdateLine.{IsUpdateLine};

use dns_names::Name;
use dns_zone_file::Types;
use std::alloc::{AllocError, Global};
use stub_run::Action;

/// Reads an update of the zone with an origin, from the words after the keyword. The update has this id.
pub(crate) fn read_update(
    alloc: Global,
    arguments: &[Vec<u8>],
    origin: &Name,
    id: u16,
    types: Types,
) -> Result<Option<Action>, AllocError>
    ensures { IfOk result (λ found. IsUpdateLine types origin.now id
        (map (λ word. word.items) arguments.now) (option_map action_content found)) }
{
    match update_text::read_update(alloc, arguments, origin, id, types)? {
        Some(update) => Ok(Some(Action::Update(Box::new(alloc, update)?))),
        None => Ok(None),
    }
}
