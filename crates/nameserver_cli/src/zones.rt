//! The zones of zone files.

use crate::ending::Ending;
use dns_names::Name;
use dns_server::{AddZoneError, Server};
use dns_zone::{Zone, ZoneFault};
use dns_zone_file::Types;
use std::alloc::{AllocError, Global};
use std::fmt::{self, Write};
use zone_check::{ReportFormat, ZoneText, check_zone, zone_report};

/// Returns the zone of the text of the zone file at a path, or what is wrong in it. `includes` has the names and the texts of the files
/// that it includes, and `origin` the name that its relative names are completed with before its first `$ORIGIN`.
pub fn zone_of(
    alloc: Global,
    path: &str,
    text: &str,
    includes: &[(String, String)],
    origin: Option<&Name>,
) -> Result<Zone, Ending> {
    match Zone::from_text_with(alloc, text, includes, origin, Types::All) {
        Ok(zone) => Ok(zone),
        // Memory was refused while the zone was read.
        Err(ZoneFault::Memory) => Err(Ending::Memory),
        Err(_) => Err(Ending::Refused(refusal(alloc, path, text, includes, origin)?)),
    }
}

/// Returns what is wrong in a zone file, as `zonecheck` explains it. Included files have the names that `$INCLUDE` states.
fn refusal(
    alloc: Global,
    path: &str,
    text: &str,
    includes: &[(String, String)],
    origin: Option<&Name>,
) -> Result<String, AllocError> {
    let file = ZoneText {
        text,
        includes,
        types: Types::All,
    };
    let mut names = Vec::new(alloc);
    names.push(path)?;
    for (name, _) in includes {
        names.push(name.as_str())?;
    }
    let check = check_zone(alloc, &file, origin, None)?;
    zone_report(alloc, ReportFormat::Text, names.as_slice(), &file, &check)
}

/// Adds the zone of the zone file at a path to a server. There may be no other with its origin.
pub fn add_zone(alloc: Global, server: &mut Server, path: &str, zone: Zone) -> Result<(), Ending> {
    match server.add_zone(zone) {
        Ok(()) => Ok(()),
        Err(AddZoneError::Duplicate) => {
            let report = format!(in alloc; "{path}: another zone file has the same origin\n")?;
            Err(Ending::Refused(report))
        }
        // Memory for the zone's place was refused.
        Err(AddZoneError::Memory) => Err(Ending::Memory),
    }
}

/// Counts the lines that are written to it.
#[derive(Drop)]
struct LineCounter {
    count: u64,
}

impl fmt::Write for LineCounter {
    fn write_str(&mut self, text: &str) -> fmt::Result {
        for byte in text.as_bytes() {
            if *byte == b'\n' {
                self.count = self.count.saturating_add(1);
            }
        }
        Ok(())
    }
}

/// Returns the number of records of a zone, each of which is a line of its zone file.
pub fn count_records(zone: &Zone) -> u64 {
    let mut counter = LineCounter { count: 0 };
    match write!(counter, "{zone}") {
        Ok(()) => counter.count,
        // A counter takes any text.
        Err(_) => counter.count,
    }
}
