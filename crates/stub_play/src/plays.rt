//! A whole run: from the texts of the files to the text that is printed.

ghost use Rattle.std.specs.Prelude.{◌≡◌, ◌≢◌, ◌↔◌, ◌≤◌, ◌⊎◌, ◌+◌, ◌<◌, ◌^◌, List, ℕ, EachIndex, IfOk, IfErr, IfSome, OnOk, None, Ok, Err, length, slice_index, true, false};
ghost use Rattle.std.specs.Io.KnownBytes.{Appends};
ghost use Rattle.stub_play.specs.Plays.{Faults, HostsAre, IsBeforeRun, IsFirstListed, IsFirstOfPlay, IsFirstOutOfOrder, IsLineListed, IsLineOutOfOrder, IsLoaded, IsPlayed, IsRead, IsUnwritten, IsUsable, Tells, TellsAll, TellsAllBy, TellsFirst, TellsFirstBy, TellsOver, ZoneIs, numbered, play_options};
ghost use Rattle.stub_link.specs.LinkState.{first_link_state};
ghost use Rattle.stub_link.specs.ScriptedLink.{IsAt};
ghost use Rattle.stub_link.specs.declared.link.script.Script.TheVariants.{Honest};
ghost use Rattle.stub_run.specs.Event.{AreHonest};
ghost use Rattle.stub_run.specs.Run.{InOrder};

mod events;
mod fault;
mod given;
mod input;
mod sockets;
mod source;
mod trace;
mod traced;
mod watcher;

use dns_zone::{DatagramLimit, Zone, ZoneFault};
use events::play_over_link;
pub use fault::PlayFault;
pub use given::{play_given, play_given_traced};
pub use input::PlayInput;
use sockets::play_over_sockets;
use std::alloc::{AllocError, Global};
use std::io;
use std::net::{Net, TcpListener, TcpStream};
use stub_config::{ResolverConfig, ResolverOpts};
use stub_core::Resolver;
use stub_hosts::{Hosts, HostsFault};
use stub_link::{Link, ScriptedLink, WireHandle};
use stub_run::laws::{
    distinct_ids_are_not_reused, ids_are_drawn_in_order, resolvers_run_in_states,
    runs_have_one_history,
};
use stub_run::{Event, Script, know_names, resolver_over};
use stub_script::{ScriptText, read_script};
pub use traced::{play_traced, play_traced_in_memory};
use watcher::Unwatched;

/// Does what the program does after it has read its files: runs the script against a server for the zone, over sockets of the
/// loopback interface or in memory as the input says, and writes each result. `net` is the runtime, or a reference to it.
///
/// The zone, the script and the hosts are read in this order, before anything is written; then the sockets are opened. If the
/// run ends early for want of memory, what was reported before is written first.
pub fn play<R: Net<Listener = TcpListener, Stream = TcpStream> + Drop, W: io::Write>(
    net: R,
    alloc: Global,
    input: &PlayInput,
    writer: &mut W,
) -> Result<(), PlayFault>
    requires limit { 512 ≤ input.now.limit }
    requires udp { input.now.udp ≡ true → input.now.limit ≤ 65507 }
    ensures read { OnOk result (IsRead input.now) }
    ensures fault { IfErr result (Faults input.now) }
    ensures silent { IfErr result (λ fault. IsBeforeRun fault → writer.new ≡ writer.old) }
    ensures told { OnOk result (input.now.udp ≡ false → (text : List ℕ)
        × TellsAll input.now text
        × Appends (W.contents writer.old) (W.contents writer.new) text) }
    ensures told_over { OnOk result (input.now.udp ≡ true → (text : List ℕ)
        × TellsAllBy (TellsOver R input.now) input.now text
        × Appends (W.contents writer.old) (W.contents writer.new) text) }
    ensures stopped { IfErr result (λ fault. fault ≡ PlayFault.Memory → input.now.udp ≡ false
        → (writer.new ≡ writer.old) ⊎ ((text : List ℕ) × TellsFirst input.now text
        × Appends (W.contents writer.old) (W.contents writer.new) text)) }
    ensures stopped_over { IfErr result (λ fault. fault ≡ PlayFault.Memory
        → input.now.udp ≡ true → (writer.new ≡ writer.old)
        ⊎ ((text : List ℕ) × TellsFirstBy (TellsOver R input.now) input.now text
        × Appends (W.contents writer.old) (W.contents writer.new) text)) }
{
    if input.udp {
        let loaded = load(alloc, input)?;
        play_over_sockets(net, alloc, input, loaded, writer)
    } else {
        play_in_memory(alloc, input, writer)
    }
}

/// Runs the script against a server for the zone, in memory, and writes each result. It does what [`play`] does without
/// sockets.
pub fn play_in_memory<W: io::Write>(
    alloc: Global,
    input: &PlayInput,
    writer: &mut W,
) -> Result<(), PlayFault>
    requires { 512 ≤ input.now.limit }
    ensures read { OnOk result (IsRead input.now) }
    ensures fault { IfErr result (Faults input.now) }
    ensures silent { IfErr result (λ fault. IsBeforeRun fault → writer.new ≡ writer.old) }
    ensures told { OnOk result ((text : List ℕ) × TellsAll input.now text
        × Appends (W.contents writer.old) (W.contents writer.new) text) }
    ensures stopped { IfErr result (λ fault. fault ≡ PlayFault.Memory → (writer.new ≡ writer.old)
        ⊎ ((text : List ℕ) × TellsFirst input.now text
        × Appends (W.contents writer.old) (W.contents writer.new) text)) }
{
    let loaded = load(alloc, input)?;
    play_loaded(alloc, input, loaded, writer)
}

/// The zone, the script and the hosts that the files have.
struct Loaded {
    zone: Zone,
    script: ScriptText,
    hosts: Hosts,
}

/// Reads the zone, the script and the hosts, up to the first fault.
fn load(alloc: Global, input: &PlayInput) -> Result<Loaded, PlayFault>
    ensures ok { IfOk result (λ loaded. IsLoaded input.now loaded) }
    ensures fault { IfErr result (λ fault. IsUnwritten fault × Faults input.now fault) }
{
    let zone = read_zone(alloc, input)?;
    let script = read_script(alloc, input.script.as_str(), zone.origin(), input.types)?;
    refuse_link_words(input, &script)?;
    let hosts = read_hosts(alloc, input.hosts.as_slice())?;
    Ok(Loaded {
        zone,
        script,
        hosts,
    })
}

/// Reads the zone.
fn read_zone(alloc: Global, input: &PlayInput) -> Result<Zone, ZoneFault>
    ensures ok { IfOk result (λ zone. ZoneIs input.now (Ok zone)) }
    ensures refused { IfErr result (λ fault. fault ≢ ZoneFault.Memory
        → ZoneIs input.now (Err fault)) }
{
    Zone::from_text_with(
        alloc,
        input.zone.as_str(),
        &[],
        input.origin.as_ref(),
        input.types,
    )
}

/// Refuses a script with link words other than `honest`, if it is run over sockets.
fn refuse_link_words(input: &PlayInput, script: &ScriptText) -> Result<(), PlayFault>
    requires { length script.now.lines.items ≡ length script.now.events.items }
    ensures usable { OnOk result (IsUsable input.now (numbered script.now)) }
    ensures fault { IfErr result (λ fault. (line : ℕ) × (fault ≡ PlayFault.Script line)
        × (input.now.udp ≡ true) × IsLineListed (numbered script.now) line) }
{
    if !input.udp {
        return Ok(());
    }
    match first_listed(script.events.as_slice()) {
        Some(place) => Err(PlayFault::Script(script.lines[place])),
        None => Ok(()),
    }
}

/// Returns the index of the first event during which the link follows a script.
fn first_listed(events: &[Event]) -> Option<usize>
    ensures none { result ≡ None → AreHonest events.now }
    ensures first { IfSome result (IsFirstListed events.now) }
{
    for (i, event) in events.iter().enumerate() {
        if is_listed(event) {
            return Some(i);
        }
    }
    None
}

/// Returns `true` if the link follows a script during an event.
fn is_listed(event: &Event) -> bool
    ensures { (result ≡ false) ↔ (event.now.script ≡ Honest) }
{
    match event.script {
        Script::Honest => false,
        Script::Listed(_) => true,
    }
}

/// Reads the hosts of a hosts file.
fn read_hosts(alloc: Global, src: &[u8]) -> Result<Hosts, HostsFault>
    ensures ok { IfOk result (λ hosts. HostsAre src.now (Ok hosts)) }
    ensures fault { IfErr result (λ fault. HostsAre src.now (Err fault)) }
{
    let mut hosts = Hosts::default(alloc);
    hosts.read_hosts_conf(src, 0)?;
    Ok(hosts)
}

/// Runs the events of a script over a link to a server in memory, and writes each result as it happens.
fn play_loaded<W: io::Write>(
    alloc: Global,
    input: &PlayInput,
    loaded: Loaded,
    writer: &mut W,
) -> Result<(), PlayFault>
    requires limit { 512 ≤ input.now.limit }
    requires loaded { IsLoaded input.now loaded }
    ensures { IsPlayed (Tells input.now) input.now (writer.new ≡ writer.old)
        (W.contents writer.old) (W.contents writer.new) result }
{
    let Loaded {
        zone,
        script,
        hosts,
    } = loaded;
    // Tells the prover that the zone is well formed, and what holds of every run.
    let _origin = zone.origin();
    runs_have_one_history();
    ids_are_drawn_in_order();
    distinct_ids_are_not_reused();
    resolvers_run_in_states();
    know_names(script.events.as_slice());
    let _limit = limit_of(input);
    let link = scripted_link(alloc, input, zone);
    play_over_link(alloc, input, link, hosts, &script, writer, &mut Unwatched)
}

/// Creates a link to a server of the zone in memory.
fn scripted_link(alloc: Global, input: &PlayInput, zone: Zone) -> ScriptedLink
    requires { 512 ≤ input.now.limit }
    ensures { IsAt result (first_link_state zone input.now.limit) }
{
    let limit = DatagramLimit::new(input.limit).unwrap();
    ScriptedLink::new(alloc, zone, limit)
}

/// Returns the ids of a run: 1 to 65,535, in order.
fn new_ids(alloc: Global) -> Result<Vec<u16>, AllocError>
    ensures counted { IfOk result (λ ids.
        EachIndex ids.items (λ k. slice_index ids.items k ≡ k + 1)) }
    ensures all { IfOk result (λ ids. length ids.items ≡ 65535) }
{
    (1..=u16::MAX).collect(alloc)
}

/// Returns the greatest UDP payload size.
fn limit_of(input: &PlayInput) -> u16
    ensures limit { result ≡ input.now.limit }
    ensures range { input.now.limit < 2 ^ 16 }
{
    input.limit
}

/// Creates the resolver of a run, which asks over a link.
fn new_resolver<L: Link + Drop>(
    alloc: Global,
    input: &PlayInput,
    link: L,
    hosts: Hosts,
) -> Result<Resolver<WireHandle<L>>, AllocError>
    ensures { IfOk result (IsFirstOfPlay input.now link hosts) }
{
    let ids = new_ids(alloc)?;
    let config = ResolverConfig::default(alloc);
    let options = play_options(alloc, input);
    match resolver_over(alloc, link, ids, config, options, hosts) {
        Ok(resolver) => Ok(resolver),
        Err(_) => unreachable!(),
    }
}

/// Returns the options of the resolver of a run.
fn play_options(alloc: Global, input: &PlayInput) -> ResolverOpts
    ensures { result ≡ play_options input.now }
{
    let mut options = ResolverOpts::default(alloc);
    options.preserve_intermediates = false;
    options.cache_size = u64::from(input.cache);
    options.positive_max_ttl = Some(input.max_ttl);
    options.edns_payload_len = input.limit;
    options
}

/// Returns the line of the first event whose moment is out of order.
fn line_out_of_order(script: &ScriptText) -> usize
    requires beside { length script.now.lines.items ≡ length script.now.events.items }
    requires late { ¬ InOrder 0 script.now.events.items }
    ensures { IsLineOutOfOrder (numbered script.now) result }
{
    script.lines[first_out_of_order(script.events.as_slice()).unwrap()]
}

/// Returns the index of the first event whose moment is before an earlier one, or after 2^62.
fn first_out_of_order(events: &[Event]) -> Option<usize>
    ensures none { (result ≡ None) ↔ InOrder 0 events.now }
    ensures first { IfSome result (IsFirstOutOfOrder events.now) }
{
    let mut last = 0;
    for (i, event) in events.iter().enumerate() {
        let now = event.at;
        if now < last || now > 1 << 62 {
            return Some(i);
        }
        last = now;
    }
    None
}
