//! The files that a zone file includes (RFC 1035 section 5.1).

use crate::ending::Ending;
use dns_zone_file::Types;
use dns_zone_file::includes::{Reach, included_path, missing_name};
use std::alloc::{AllocError, Global};

/// Refuses the text of the zone file at a path if it includes files: a journal belongs to the text of one file.
pub fn refuse_includes(alloc: Global, path: &str, text: &str) -> Result<(), Ending> {
    match missing_in(alloc, text, &[])? {
        Some(name) => Err(Ending::Refused(format!(in alloc;
            "{path}: `$INCLUDE {name}`: the zone of a journal is in one file\n"
        )?)),
        None => Ok(()),
    }
}

/// Returns the first name that a text or one of the included texts includes, and that none of these has.
pub fn next_inclusion(
    alloc: Global,
    text: &str,
    includes: &[(String, String)],
) -> Result<Option<String>, AllocError> {
    if let Some(name) = missing_in(alloc, text, includes)? {
        return Ok(Some(name));
    }
    for (_, included) in includes {
        if let Some(name) = missing_in(alloc, included.as_str(), includes)? {
            return Ok(Some(name));
        }
    }
    Ok(None)
}

/// Returns the first name that a text includes, and that none of the included texts has.
fn missing_in(
    alloc: Global,
    text: &str,
    includes: &[(String, String)],
) -> Result<Option<String>, AllocError> {
    match missing_name(alloc, text, Types::All, includes)? {
        // An included name is ASCII.
        Some(name) => Ok(String::from_utf8(Vec::from_slice(alloc, name)?).ok()),
        None => Ok(None),
    }
}

/// Returns the path of the file that the zone file at a path includes by a name, or says that the zone file may not include it.
pub fn included_path_of(
    alloc: Global,
    path: &str,
    name: &str,
    reach: Reach,
) -> Result<String, Ending> {
    let Some(place) = included_path(alloc, path.as_bytes(), name.as_bytes(), reach)? else {
        let report = format!(in alloc;
            "{path}: `$INCLUDE {name}` leads out of the folder of the zone file; --include-anywhere allows it\n"
        )?;
        return Err(Ending::Refused(report));
    };
    match String::from_utf8(place) {
        Ok(place) => Ok(place),
        Err(_) => Err(Ending::NotUtf8),
    }
}
