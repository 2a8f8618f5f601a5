//! The origin that the name of a zone file states.

use crate::ending::Ending;
use dns_names::{Name, ParseError};
use std::alloc::Global;

/// Returns the origin in the path of a zone file: the last part of the path without `db.` at its start, or else without `.zone` or `.db` at
/// its end, as `mail.example.` of `zones/mail.example.zone`.
pub(crate) fn origin_in_path(alloc: Global, path: &str) -> Result<Name, Ending> {
    let text = origin_text(path);
    match Name::from_ascii(alloc, text) {
        Ok(mut origin) if !text.is_empty() && text != "-" => {
            origin.set_fqdn(true);
            Ok(origin)
        }
        // Memory for the name was refused.
        Err(ParseError::Memory) => Err(Ending::Memory),
        _ => Err(Ending::invalid_file(alloc, path)),
    }
}

/// Returns the part of a path that is an origin.
fn origin_text(path: &str) -> &str {
    let file = match path.rsplit_once('/') {
        Some((_folder, file)) => file,
        None => path,
    };
    if let Some(origin) = file.strip_prefix("db.") {
        return origin;
    }
    for end in [".zone", ".db"] {
        if let Some(origin) = file.strip_suffix(end) {
            return origin;
        }
    }
    file
}
