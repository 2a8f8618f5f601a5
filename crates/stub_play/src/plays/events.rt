//! The events of a script, one after another.

ghost use Rattle.std.specs.Prelude.{◌≡◌, length, OnOk};
ghost use Rattle.std.specs.Io.KnownBytes.{Appends};
ghost use Rattle.stub_run.specs.RunOver.{rules_of};
ghost use Rattle.stub_play.specs.Plays.{AreTold, IsPlayedOver};
ghost use Rattle.stub_play.specs.report.Report.{told_text};

use crate::plays::watcher::Watcher;
use crate::plays::{PlayFault, PlayInput, line_out_of_order, new_resolver};
use crate::report::write_told;
use std::alloc::Global;
use std::io;
use stub_core::Resolver;
use stub_hosts::Hosts;
use stub_link::WireHandle;
use stub_run::{Event, EventLink, EventReport, happen, is_in_order, reserve_for};
use stub_script::ScriptText;

/// Lets the events of a script happen to a new resolver over a link, and writes each result as it happens.
pub(super) fn play_over_link<L: EventLink + Drop, W: io::Write, V: Watcher<L>>(
    alloc: Global,
    input: &PlayInput,
    link: L,
    hosts: Hosts,
    script: &ScriptText,
    writer: &mut W,
    watcher: &mut V,
) -> Result<(), PlayFault>
    requires { length script.now.lines.items ≡ length script.now.events.items }
    ensures { IsPlayedOver (rules_of L.begins L.ends L.is_out L.sends L.receives L.streams
        L.failure_count) input.now link hosts script.now (writer.new ≡ writer.old)
        (W.contents writer.old) (W.contents writer.new) result }
{
    let resolver = new_resolver(alloc, input, link, hosts)?;
    play_events(resolver, script, input, writer, watcher)
}

/// Lets the events of a script happen to a resolver, and writes each result as it happens: nothing is kept of it.
fn play_events<L: EventLink + Drop, W: io::Write, V: Watcher<L>>(
    mut resolver: Resolver<WireHandle<L>>,
    script: &ScriptText,
    input: &PlayInput,
    writer: &mut W,
    watcher: &mut V,
) -> Result<(), PlayFault>
    requires { length script.now.lines.items ≡ length script.now.events.items }
    ensures { AreTold (rules_of L.begins L.ends L.is_out L.sends L.receives L.streams
        L.failure_count) input.now script.now resolver (writer.new ≡ writer.old)
        (W.contents writer.old) (W.contents writer.new) result }
{
    let events = script.events.as_slice();
    if !is_in_order(events) {
        return Err(PlayFault::Script(line_out_of_order(script)));
    }
    if reserve_for(&mut resolver, events).is_err() {
        // There was no memory for the ids.
        return Err(PlayFault::Memory);
    }
    for event in events {
        match happen(&mut resolver, event) {
            // The link or its server ran out of memory.
            None => return Err(PlayFault::Memory),
            Some(told) => {
                watcher.watch(resolver.handle().link(), event, &told);
                print_told(event, &told, input, writer)?;
            }
        }
    }
    Ok(())
}

/// Writes the report of an event, and flushes the writer.
fn print_told<W: io::Write>(
    event: &Event,
    told: &EventReport,
    input: &PlayInput,
    writer: &mut W,
) -> io::Result<()>
    ensures { OnOk result (Appends (W.contents writer.old) (W.contents writer.new)
        (told_text input.now.types input.now.format event.now told.now)) }
{
    let types = input.types;
    let format = input.format;
    write_told(event, told, types, format, writer)?;
    writer.flush()
}
