//! The files that a zone file includes (RFC 1035 section 5.1).

use crate::files::read_text;
use dns_zone_file::includes::Reach;
use nameserver_cli::{Ending, included_path_of, next_inclusion};

/// The most files that a zone file may include.
const MAX_FILES: usize = 1000;

/// Reads the files that the text of a zone file includes, and those that they include: their names, and their texts.
pub(crate) fn read_includes(
    rt: &HostRuntime,
    path: &str,
    text: &str,
    reach: Reach,
) -> Result<Vec<(String, String)>, Ending> {
    let mut includes = Vec::new(rt.alloc());
    for _ in 0..MAX_FILES {
        let Some(name) = next_inclusion(rt.alloc(), text, includes.as_slice())? else {
            return Ok(includes);
        };
        let included = read_included(rt, path, name.as_str(), reach)?;
        includes.push((name, included))?;
    }
    let report = format!(in rt.alloc(); "{path}: more than {MAX_FILES} files are included\n")?;
    Err(Ending::Refused(report))
}

/// Reads an included file.
fn read_included(rt: &HostRuntime, path: &str, name: &str, reach: Reach) -> Result<String, Ending> {
    let place = included_path_of(rt.alloc(), path, name, reach)?;
    read_text(rt, place.as_str())
}
