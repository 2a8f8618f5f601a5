//! The zones of zone files.

use crate::files::read_text;
use crate::includes::read_includes;
use dns_server::Server;
use dns_zone::Zone;
use nameserver_cli::{Arguments, Ending, add_zone, count_records, zone_of};
use std::io;
use std::time::Instant;
use zone_check::without_mark;

/// The text of a zone file, and those of the files that it includes.
#[derive(Drop)]
struct ZoneSource {
    text: String,
    includes: Vec<(String, String)>,
}

/// Reads the zone files, and returns a server of their zones. Standard error has a line for each.
pub(crate) fn read_zones(rt: &HostRuntime, arguments: &Arguments) -> Result<Server, Ending> {
    let mut server = Server::new(rt.alloc());
    for path in arguments.files.as_slice() {
        let _source = add_file(rt, &mut server, path.as_str(), arguments)?;
    }
    Ok(server)
}

/// Reads the zone files once, and returns two servers of the same zones. Standard error has a line for each file.
pub(crate) fn read_zones_twice(
    rt: &HostRuntime,
    arguments: &Arguments,
) -> Result<(Server, Server), Ending> {
    let mut server = Server::new(rt.alloc());
    let mut copy = Server::new(rt.alloc());
    for path in arguments.files.as_slice() {
        let path = path.as_str();
        let source = add_file(rt, &mut server, path, arguments)?;
        add_zone(
            rt.alloc(),
            &mut copy,
            path,
            source.zone(rt, path, arguments)?,
        )?;
    }
    Ok((server, copy))
}

/// Reads a zone file, adds its zone to a server, and returns its text. Standard error has a line for it.
fn add_file(
    rt: &HostRuntime,
    server: &mut Server,
    path: &str,
    arguments: &Arguments,
) -> Result<ZoneSource, Ending> {
    let start = Instant::now(rt);
    let source = read_source(rt, path, arguments)?;
    let zone = source.zone(rt, path, arguments)?;
    tell(rt, path, &zone, milliseconds_since(rt, start));
    add_zone(rt.alloc(), server, path, zone)?;
    Ok(source)
}

/// Returns how many milliseconds have passed, or 0 if the clock fails.
pub(crate) fn milliseconds_since(rt: &HostRuntime, start: io::Result<Instant>) -> u128 {
    match start {
        Ok(start) => start.elapsed(rt).map_or(0, |elapsed| elapsed.as_millis()),
        Err(_) => 0,
    }
}

/// Says on standard error which zone a file has.
pub(crate) fn tell(rt: &HostRuntime, path: &str, zone: &Zone, milliseconds: u128) {
    let name = zone.origin();
    let count = count_records(zone);
    // A failure to write to standard error can't be reported.
    let _written = eprintln!(rt;
        "{path}: zone {name}, {count} records, loaded in {milliseconds} ms"
    );
}

/// Reads a zone file, with the files that it includes.
fn read_source(rt: &HostRuntime, path: &str, arguments: &Arguments) -> Result<ZoneSource, Ending> {
    let text = read_text(rt, path)?;
    let includes = read_includes(rt, path, without_mark(text.as_str()), arguments.reach)?;
    Ok(ZoneSource { text, includes })
}

impl ZoneSource {
    /// Returns the zone of the text, or what is wrong in it.
    fn zone(&self, rt: &HostRuntime, path: &str, arguments: &Arguments) -> Result<Zone, Ending> {
        zone_of(
            rt.alloc(),
            path,
            self.text.as_str(),
            self.includes.as_slice(),
            arguments.origin.as_ref(),
        )
    }
}
