//! A whole run with replies that the script gives.

ghost use Rattle.std.specs.Prelude.{◌≡◌, ◌≤◌, IfOk};
ghost use Rattle.stub_play.specs.Given.{IsGivenLink, TellsGiven};
ghost use Rattle.stub_play.specs.Plays.{IsLoaded, IsPlayed};

use crate::plays::events::play_over_link;
use crate::plays::trace::TraceWriter;
use crate::plays::watcher::Unwatched;
use crate::plays::{Loaded, PlayFault, PlayInput, load, scripted_link};
use dns_zone::Zone;
use std::alloc::{AllocError, Global};
use std::io;
use stub_link::ScriptedLink;
use stub_link::trace::TracedLink;
use stub_run::laws::traced_resolvers_run_as_others;
use stub_script::{GivenLink, GivenReply, ScriptText};

/// Does what [`play_in_memory`](crate::play_in_memory) does, while the replies that the script gives answer the questions below their
/// lines in the place of the server.
///
/// The script of the input is that without the lines of replies, as [`without_replies`](stub_script::without_replies) returns it, and
/// the replies are those that [`read_replies`](stub_script::read_replies) returns. What such replies say is not true of the zone, so
/// nothing is claimed of the records that are found but that the resolver found them so.
pub fn play_given<W: io::Write>(
    alloc: Global,
    input: &PlayInput,
    replies: Vec<GivenReply>,
    writer: &mut W,
) -> Result<(), PlayFault>
    requires { 512 ≤ input.now.limit }
    ensures { IsPlayed (TellsGiven input.now replies.items) input.now (writer.new ≡ writer.old)
        (W.contents writer.old) (W.contents writer.new) result }
{
    let loaded = load(alloc, input)?;
    play_loaded_given(alloc, input, loaded, replies, writer)
}

/// Does what [`play_given`] does, and writes to `trace` what [`play_traced`](crate::play_traced) does.
pub fn play_given_traced<W: io::Write, T: io::Write + Drop>(
    alloc: Global,
    input: &PlayInput,
    replies: Vec<GivenReply>,
    writer: &mut W,
    trace: T,
) -> Result<(), PlayFault>
    requires { 512 ≤ input.now.limit }
    ensures { IsPlayed (TellsGiven input.now replies.items) input.now (writer.new ≡ writer.old)
        (W.contents writer.old) (W.contents writer.new) result }
{
    let loaded = load(alloc, input)?;
    let watcher = TraceWriter::new(alloc, input, trace);
    trace_loaded_given(alloc, input, loaded, replies, writer, watcher)
}

/// Runs the events of a script with its replies, and writes each result as it happens.
fn play_loaded_given<W: io::Write>(
    alloc: Global,
    input: &PlayInput,
    loaded: Loaded,
    replies: Vec<GivenReply>,
    writer: &mut W,
) -> Result<(), PlayFault>
    requires limit { 512 ≤ input.now.limit }
    requires loaded { IsLoaded input.now loaded }
    ensures { IsPlayed (TellsGiven input.now replies.items) input.now (writer.new ≡ writer.old)
        (W.contents writer.old) (W.contents writer.new) result }
{
    let Loaded {
        zone,
        script,
        hosts,
    } = loaded;
    let link = given_link(alloc, input, zone, &script, replies)?;
    play_over_link(alloc, input, link, hosts, &script, writer, &mut Unwatched)
}

/// Runs the events of a script with its replies, and writes each result and the trace as it happens.
fn trace_loaded_given<W: io::Write, T: io::Write + Drop>(
    alloc: Global,
    input: &PlayInput,
    loaded: Loaded,
    replies: Vec<GivenReply>,
    writer: &mut W,
    mut watcher: TraceWriter<T>,
) -> Result<(), PlayFault>
    requires limit { 512 ≤ input.now.limit }
    requires loaded { IsLoaded input.now loaded }
    ensures { IsPlayed (TellsGiven input.now replies.items) input.now (writer.new ≡ writer.old)
        (W.contents writer.old) (W.contents writer.new) result }
{
    let Loaded {
        zone,
        script,
        hosts,
    } = loaded;
    traced_resolvers_run_as_others::<GivenLink<ScriptedLink>>();
    let inner = given_link(alloc, input, zone, &script, replies)?;
    let link = TracedLink::new(alloc, inner);
    play_over_link(alloc, input, link, hosts, &script, writer, &mut watcher)
}

/// Creates a link to a server of the zone in memory, before which the replies come that the script gives.
fn given_link(
    alloc: Global,
    input: &PlayInput,
    zone: Zone,
    script: &ScriptText,
    replies: Vec<GivenReply>,
) -> Result<GivenLink<ScriptedLink>, AllocError>
    requires { 512 ≤ input.now.limit }
    ensures { IfOk result (IsGivenLink zone input.now.limit script.now.lines.items replies.items) }
{
    let lines = Vec::from_slice(alloc, script.lines.as_slice())?;
    let link = scripted_link(alloc, input, zone);
    Ok(GivenLink::new(alloc, link, replies, lines))
}
