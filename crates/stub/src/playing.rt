//! The run of a script, with or without a trace.

ghost use Rattle.std.specs.Prelude.{◌≡◌, ◌≤◌, true};

use std::io::{self, BufWriter};
use stub_play::{Ending, PlayInput, play, play_given, play_given_traced, play_traced};
use stub_script::GivenReply;

/// Plays a script, and writes what each event led to. A trace goes to standard error. The replies are those that the script gives, if
/// it gives any.
pub(crate) fn play_script<W: io::Write>(
    rt: &HostRuntime,
    input: &PlayInput,
    replies: Vec<GivenReply>,
    is_traced: bool,
    writer: &mut W,
) -> Result<(), Ending>
    requires limit { 512 ≤ input.now.limit }
    requires udp { input.now.udp ≡ true → input.now.limit ≤ 65507 }
{
    if !is_traced {
        return play_silently(rt, input, replies, writer);
    }
    let Ok(trace) = BufWriter::new(rt.alloc(), rt.stderr()) else {
        // Want of memory is the only error of making a buffer.
        return Err(Ending::Memory);
    };
    if replies.is_empty() {
        play_traced(rt, rt.alloc(), input, writer, trace)?;
    } else {
        play_given_traced(rt.alloc(), input, replies, writer, trace)?;
    }
    Ok(())
}

/// Plays a script without a trace.
fn play_silently<W: io::Write>(
    rt: &HostRuntime,
    input: &PlayInput,
    replies: Vec<GivenReply>,
    writer: &mut W,
) -> Result<(), Ending>
    requires limit { 512 ≤ input.now.limit }
    requires udp { input.now.udp ≡ true → input.now.limit ≤ 65507 }
{
    if replies.is_empty() {
        play(rt, rt.alloc(), input, writer)?;
    } else {
        play_given(rt.alloc(), input, replies, writer)?;
    }
    Ok(())
}
