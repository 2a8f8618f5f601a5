//! The check of a script.

use crate::arguments::Arguments;
use crate::ending::Ending;
use crate::{Verdict, read_text, write_report};
use dns_names::Name;
use dns_zone_file::Types;
use std::alloc::Global;
use stub_script::{ScriptFault, ScriptText, read_replies, read_script, without_replies};
use zone_check::{moment_report, script_report};

/// The greatest moment of an event.
const MAX_MOMENT: u64 = 1 << 62;

/// Says what is wrong in a script. The origin completes the names of its updates.
pub(crate) fn check_script(
    rt: &HostRuntime,
    path: &str,
    arguments: &Arguments,
    origin: &Name,
) -> Result<Verdict, Ending> {
    let alloc = rt.alloc();
    let Some(text) = read_text(rt, path, arguments)? else {
        return Ok(Verdict::Refused);
    };
    let report = match read_whole(alloc, text.as_str(), origin) {
        Ok(script) => match line_out_of_order(&script) {
            Some(line) => moment_report(alloc, arguments.format, path, text.as_str(), line)?,
            None => return Ok(Verdict::Accepted),
        },
        Err(ScriptFault::Line(line)) => script_report(
            alloc,
            arguments.format,
            path,
            text.as_str(),
            line,
        )?,
        // Memory was refused while the script was read.
        Err(ScriptFault::Memory) => return Err(Ending::Memory),
    };
    write_report(rt, report.as_str(), arguments)?;
    Ok(Verdict::Refused)
}

/// Reads the replies of a script, and then its events.
fn read_whole(alloc: Global, text: &str, origin: &Name) -> Result<ScriptText, ScriptFault> {
    read_replies(alloc, text, Types::Nine)?;
    let events = without_replies(alloc, text)?;
    read_script(alloc, events.as_str(), origin, Types::Nine)
}

/// Returns the line of the first event whose moment is before an earlier one, or above 2^62.
fn line_out_of_order(script: &ScriptText) -> Option<usize> {
    let mut latest = 0;
    for (event, line) in script.events.iter().zip(script.lines.iter()) {
        if event.at < latest || event.at > MAX_MOMENT {
            return Some(*line);
        }
        latest = event.at;
    }
    None
}
