//! The files that a zone file includes (RFC 1035 section 5.1).

use crate::arguments::Arguments;
use crate::ending::Ending;
use crate::read_text;
use dns_zone_file::included_names;
use dns_zone_file::includes::included_path;
use std::alloc::{AllocError, Global};
use std::{fs, io};

/// The most files that a zone file may include.
const MAX_FILES: usize = 1000;

/// The files that a zone file includes, and those that they include.
#[derive(Drop)]
pub(crate) struct Includes {
    /// The names of those that were read, as `$INCLUDE` states them, and their texts.
    pub(crate) texts: Vec<(String, String)>,
    /// The paths of those that were read.
    pub(crate) paths: Vec<String>,
    /// The names of those that were not read.
    unread: Vec<String>,
}

impl Includes {
    /// Returns `true` if a name is that of a file that was read or could not be.
    fn is_known(&self, name: &str) -> bool {
        self.texts.iter().any(|(other, _)| other.as_str() == name)
            || self.unread.iter().any(|other| other.as_str() == name)
    }

    /// Adds a file that was read.
    fn add(
        &mut self,
        alloc: Global,
        name: &str,
        path: String,
        text: String,
    ) -> Result<(), AllocError> {
        self.texts.push((String::from_str(alloc, name)?, text))?;
        self.paths.push(path)?;
        Ok(())
    }

    /// Adds the name of a file that was not read.
    fn leave_out(&mut self, alloc: Global, name: &str) -> Result<(), AllocError> {
        self.unread.push(String::from_str(alloc, name)?)?;
        Ok(())
    }
}

/// Reads the files that the text of a zone file includes, and those that they include. Those that cannot be read are left out.
pub(crate) fn read_includes(
    rt: &HostRuntime,
    path: &str,
    text: &str,
    arguments: &Arguments,
) -> Result<Includes, Ending> {
    let mut includes = Includes {
        texts: Vec::new(rt.alloc()),
        paths: Vec::new(rt.alloc()),
        unread: Vec::new(rt.alloc()),
    };
    if !arguments.reads_all_types() {
        return Ok(includes);
    }
    read_named(rt, path, text, arguments, &mut includes)?;
    for place in 0..MAX_FILES {
        let included = match includes.texts.get(place) {
            Some((_, text)) => String::from_str(rt.alloc(), text.as_str())?,
            None => return Ok(includes),
        };
        read_named(rt, path, included.as_str(), arguments, &mut includes)?;
    }
    Ok(includes)
}

/// Reads the files that a text includes and that were not read before.
fn read_named(
    rt: &HostRuntime,
    path: &str,
    text: &str,
    arguments: &Arguments,
    includes: &mut Includes,
) -> Result<(), Ending> {
    for name in included_names(rt.alloc(), text, arguments.types)?.as_slice() {
        // An included name is ASCII.
        if let Ok(name) = str::from_utf8(name)
            && !includes.is_known(name)
        {
            read_file(rt, path, name, arguments, includes)?;
        }
    }
    Ok(())
}

/// Reads the file of a name, if it may be included and can be read.
fn read_file(
    rt: &HostRuntime,
    path: &str,
    name: &str,
    arguments: &Arguments,
    includes: &mut Includes,
) -> Result<(), Ending> {
    let place = match place_of(rt, path, name, arguments)? {
        Some(place) if includes.texts.len() < MAX_FILES => place,
        _ => return Ok(includes.leave_out(rt.alloc(), name)?),
    };
    if !is_there(rt, place.as_str())? {
        return Ok(includes.leave_out(rt.alloc(), name)?);
    }
    match read_text(rt, place.as_str(), arguments)? {
        Some(text) => Ok(includes.add(rt.alloc(), name, place, text)?),
        None => Ok(includes.leave_out(rt.alloc(), name)?),
    }
}

/// Returns the path of the file of a name, if it may be included.
fn place_of(
    rt: &HostRuntime,
    path: &str,
    name: &str,
    arguments: &Arguments,
) -> Result<Option<String>, AllocError> {
    match included_path(
        rt.alloc(),
        path.as_bytes(),
        name.as_bytes(),
        arguments.reach,
    )? {
        // A path before an ASCII name is UTF-8.
        Some(place) => Ok(String::from_utf8(place).ok()),
        None => Ok(None),
    }
}

/// Returns `true` if a file can be read. Without memory that cannot be told.
fn is_there(rt: &HostRuntime, path: &str) -> Result<bool, Ending> {
    match fs::read(rt, path) {
        Ok(_) => Ok(true),
        Err(error) if error.kind() == io::ErrorKind::OutOfMemory => {
            // Reading the file was refused memory.
            Err(Ending::Memory)
        }
        Err(_) => Ok(false),
    }
}
