//! A zone that is printed as a zone file.

use dns_zone::{Zone, ZoneFault};
use std::alloc::Global;
use std::fmt::Write;
use std::test::Fail;

/// Returns the zone of a zone file as a zone file in which each record states its owner, TTL and class.
fn printed(alloc: Global, text: &str) -> Result<String, ZoneFault> {
    let zone = Zone::from_text(alloc, text, &[], None)?;
    Ok(zone.to_text()?)
}

/// Returns what `{}` writes for the zone of a zone file.
fn displayed(alloc: Global, text: &str) -> Result<String, ZoneFault> {
    let zone = Zone::from_text(alloc, text, &[], None)?;
    let mut lines = String::new(alloc);
    write!(lines, "{zone}")?;
    Ok(lines)
}

const FILE: &str = "$ORIGIN t.\n\
                    $TTL 60\n\
                    a A 10.0.0.1\n\
                    @ SOA ns h 1 3600 600 86400 30\n\
                    a 30 A 10.0.0.2\n";

const LINES: &str = "t. 60 IN SOA ns.t. h.t. 1 3600 600 86400 30\n\
                     a.t. 60 IN A 10.0.0.1\n\
                     a.t. 30 IN A 10.0.0.2\n";

#[test]
fn a_zone_prints_as_a_zone_file(rt: HostRuntime) -> Result<(), Fail> {
    let text = printed(rt.alloc(), FILE)?;
    assert_eq!(rt; text.as_str(), LINES);
    let text = displayed(rt.alloc(), FILE)?;
    assert_eq!(rt; text.as_str(), LINES);
    Ok(())
}

#[test]
fn a_printed_zone_parses_back(rt: HostRuntime) -> Result<(), Fail> {
    let text = printed(rt.alloc(), LINES)?;
    assert_eq!(rt; text.as_str(), LINES);
    Ok(())
}
