//! The warnings of a zone file.

use std::alloc::{AllocError, Global};
use stub_play::PlayInput;
use zone_check::{ReportFormat, ZoneText, check_zone, drop_server_warnings, zone_report};

/// Prints on standard error what is accepted in the zone file and hardly meant, as `zonecheck` does. The clock is not read, so no
/// signature has expired. That the zone has no name servers is not said: the run needs none.
pub(crate) fn print_warnings(
    rt: &HostRuntime,
    path: &str,
    input: &PlayInput,
) -> Result<(), AllocError> {
    let report = warning_report(rt.alloc(), path, input)?;
    // A failure to write to standard error can't be reported.
    let _ = rt.eprint(&report);
    Ok(())
}

/// Returns the warnings of a zone file. One that has a fault has none: the run reports the fault.
fn warning_report(alloc: Global, path: &str, input: &PlayInput) -> Result<String, AllocError> {
    let file = ZoneText {
        text: input.zone.as_str(),
        includes: &[],
        types: input.types,
    };
    let mut check = check_zone(alloc, &file, input.origin.as_ref(), None)?;
    if check.outcome.is_err() {
        return Ok(String::new(alloc));
    }
    drop_server_warnings(&mut check.warnings);
    zone_report(alloc, ReportFormat::Text, &[path], &file, &check)
}
