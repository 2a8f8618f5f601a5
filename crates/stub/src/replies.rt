//! The replies that a script gives in the place of the server's.

ghost use Rattle.std.specs.Prelude.{◌≡◌};

use crate::stop::Stop;
use std::alloc::Global;
use std::mem;
use stub_play::{Ending, PlayFault, PlayInput};
use stub_script::{GivenReply, ScriptFault, read_replies, without_replies};

/// What a script has besides its events.
#[derive(Drop)]
pub(crate) struct GivenScript {
    /// The replies that it gives.
    pub(crate) replies: Vec<GivenReply>,
    /// The whole text, if it gives any. The script of the input is then without them.
    pub(crate) whole: Option<String>,
}

/// Takes the replies out of the script of an input. Over sockets there can be none: the error is then that the first one is at fault.
pub(crate) fn take_replies(alloc: Global, input: &mut PlayInput) -> Result<GivenScript, Stop>
    ensures limit { input.new.limit ≡ input.old.limit }
    ensures udp { input.new.udp ≡ input.old.udp }
{
    let replies = match read_replies(alloc, input.script.as_str(), input.types) {
        Ok(replies) => replies,
        Err(ScriptFault::Line(line)) => return Err(fault_of(line)),
        // Memory for the replies was refused.
        Err(ScriptFault::Memory) => return Err(Stop::Ending(Ending::Memory)),
    };
    let Some(first) = replies.first() else {
        let whole = None;
        return Ok(GivenScript { replies, whole });
    };
    if input.udp {
        return Err(fault_of(first.line));
    }
    let events = without_replies(alloc, input.script.as_str())?;
    let whole = Some(mem::replace(&mut input.script, events));
    Ok(GivenScript { replies, whole })
}

/// Returns that a line of the script is at fault.
fn fault_of(line: usize) -> Stop {
    Stop::Ending(Ending::Fault(PlayFault::Script(line)))
}
