//! Wildcards (RFC 4592).

ghost use Rattle.std.specs.Prelude.{◌≡◌, ◌<◌, ◌+◌, IfOk, IfSome, length, drop, option_map};
ghost use Rattle.dns_authority.specs.steps.Wildcard.{closest_encloser, source_of_synthesis, suffix, wildcard_below};

use crate::steps::barriers::label_count;
use dns_names::Name;
use dns_zone::Zone;
use std::alloc::AllocError;

/// Returns the source of synthesis of a name that does not exist: `*` below the longest name above it that exists (RFC 4592
/// section 3.3.1).
///
/// Where the name directly above does not exist, the longest is found from the root down, so that the time does not grow with the
/// labels of the name that do not exist.
pub fn source_of_synthesis(zone: &Zone, name: &Name) -> Result<Option<Name>, AllocError>
    ensures { IfOk result (λ found.
        found ≡ source_of_synthesis zone.now.rows name.now.labels) }
{
    let count = label_count(name);
    if count == 0 {
        return Ok(None);
    }
    let above = name.trim_to(count - 1)?;
    if zone.has_row_below(&above) {
        return Ok(Some(wildcard_beside(name, 0)?));
    }
    match encloser_count(zone, name)? {
        Some(kept) => Ok(Some(wildcard_beside(name, count - kept - 1)?)),
        None => Ok(None),
    }
}

/// Returns the number of labels of the longest name above a name that exists.
fn encloser_count(zone: &Zone, name: &Name) -> Result<Option<usize>, AllocError>
    ensures encloser { IfOk result (λ found. option_map (suffix name.now.labels) found
        ≡ closest_encloser zone.now.rows name.now.labels) }
    ensures within { IfOk result (λ found. IfSome found (λ kept. kept < length name.now.labels)) }
{
    let mut found = None;
    for kept in 0..label_count(name) {
        let above = name.trim_to(kept)?;
        if !zone.has_row_below(&above) {
            return Ok(found);
        }
        found = Some(kept);
    }
    Ok(found)
}

/// Returns a name without so many of its first labels, with `*` in place of the next.
fn wildcard_beside(name: &Name, past: usize) -> Result<Name, AllocError>
    requires { past < length name.now.labels }
    ensures { IfOk result (λ made. made ≡ wildcard_below (drop (past + 1) name.now.labels)) }
{
    let count = label_count(name);
    name.trim_to(count - past)?.into_wildcard()
}
