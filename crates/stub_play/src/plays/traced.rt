//! A whole run over a link that notes its calls.

ghost use Rattle.std.specs.Prelude.{◌≡◌, ◌≤◌, false, true};
ghost use Rattle.stub_play.specs.Plays.{IsLoaded, IsPlayed, Tells, TellsOver};

use crate::plays::events::play_over_link;
use crate::plays::sockets::open_link;
use crate::plays::trace::TraceWriter;
use crate::plays::{Loaded, PlayFault, PlayInput, limit_of, load, scripted_link};
use crate::sockets::SocketLink;
use std::alloc::Global;
use std::io;
use std::net::{Net, TcpListener, TcpStream};
use stub_link::ScriptedLink;
use stub_link::trace::TracedLink;
use stub_run::know_names;
use stub_run::laws::{
    distinct_ids_are_not_reused, ids_are_drawn_in_order, resolvers_run_in_states,
    runs_have_one_history, traced_resolvers_run_as_others,
};

/// Does what [`play`](crate::play) does, and writes to `trace` what was sent and received during each event, and where its result
/// comes from. What goes wrong there is not reported, and changes nothing else.
pub fn play_traced<
    R: Net<Listener = TcpListener, Stream = TcpStream> + Drop,
    W: io::Write,
    T: io::Write + Drop,
>(net: R, alloc: Global, input: &PlayInput, writer: &mut W, trace: T) -> Result<(), PlayFault>
    requires limit { 512 ≤ input.now.limit }
    requires udp { input.now.udp ≡ true → input.now.limit ≤ 65507 }
    ensures memory { input.now.udp ≡ false → IsPlayed (Tells input.now) input.now
        (writer.new ≡ writer.old) (W.contents writer.old) (W.contents writer.new) result }
    ensures sockets { input.now.udp ≡ true → IsPlayed (TellsOver R input.now) input.now
        (writer.new ≡ writer.old) (W.contents writer.old) (W.contents writer.new) result }
{
    if input.udp {
        let loaded = load(alloc, input)?;
        let watcher = TraceWriter::new(alloc, input, trace);
        trace_over_sockets(net, alloc, input, loaded, writer, watcher)
    } else {
        play_traced_in_memory(alloc, input, writer, trace)
    }
}

/// Does what [`play_traced`] does without sockets.
pub fn play_traced_in_memory<W: io::Write, T: io::Write + Drop>(
    alloc: Global,
    input: &PlayInput,
    writer: &mut W,
    trace: T,
) -> Result<(), PlayFault>
    requires { 512 ≤ input.now.limit }
    ensures { IsPlayed (Tells input.now) input.now (writer.new ≡ writer.old)
        (W.contents writer.old) (W.contents writer.new) result }
{
    let loaded = load(alloc, input)?;
    let watcher = TraceWriter::new(alloc, input, trace);
    trace_loaded(alloc, input, loaded, writer, watcher)
}

/// Runs the events of a script over a link to a server in memory, and writes each result and the trace as it happens.
fn trace_loaded<W: io::Write, T: io::Write + Drop>(
    alloc: Global,
    input: &PlayInput,
    loaded: Loaded,
    writer: &mut W,
    mut watcher: TraceWriter<T>,
) -> Result<(), PlayFault>
    requires limit { 512 ≤ input.now.limit }
    requires loaded { IsLoaded input.now loaded }
    ensures { IsPlayed (Tells input.now) input.now (writer.new ≡ writer.old)
        (W.contents writer.old) (W.contents writer.new) result }
{
    let Loaded {
        zone,
        script,
        hosts,
    } = loaded;
    // Tells the prover that the zone is well formed, and what holds of every run.
    let _origin = zone.origin();
    runs_have_one_history();
    ids_are_drawn_in_order();
    distinct_ids_are_not_reused();
    resolvers_run_in_states();
    traced_resolvers_run_as_others::<ScriptedLink>();
    know_names(script.events.as_slice());
    let _limit = limit_of(input);
    let inner = scripted_link(alloc, input, zone);
    let link = TracedLink::new(alloc, inner);
    play_over_link(alloc, input, link, hosts, &script, writer, &mut watcher)
}

/// Runs the events of a script over sockets, and writes each result and the trace as it happens.
fn trace_over_sockets<
    R: Net<Listener = TcpListener, Stream = TcpStream> + Drop,
    W: io::Write,
    T: io::Write + Drop,
>(
    net: R,
    alloc: Global,
    input: &PlayInput,
    loaded: Loaded,
    writer: &mut W,
    mut watcher: TraceWriter<T>,
) -> Result<(), PlayFault>
    requires limit { 512 ≤ input.now.limit }
    requires datagram { input.now.limit ≤ 65507 }
    requires udp { input.now.udp ≡ true }
    requires loaded { IsLoaded input.now loaded }
    ensures { IsPlayed (TellsOver R input.now) input.now (writer.new ≡ writer.old)
        (W.contents writer.old) (W.contents writer.new) result }
{
    let Loaded {
        zone,
        script,
        hosts,
    } = loaded;
    traced_resolvers_run_as_others::<SocketLink<R>>();
    let inner = open_link(net, alloc, input, zone)?;
    let link = TracedLink::new(alloc, inner);
    play_over_link(alloc, input, link, hosts, &script, writer, &mut watcher)
}
