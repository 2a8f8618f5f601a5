//! Laws of events that happen one by one.

ghost use Rattle.std.specs.Prelude.{List, ℕ};
ghost use Rattle.dns_zone.specs.Rows.{ZoneContent};
ghost use Rattle.stub_config.specs.declared.config.ResolverConfig.{ResolverConfig};
ghost use Rattle.stub_config.specs.declared.options.ResolverOpts.{ResolverOpts};
ghost use Rattle.stub_hosts.specs.Hosts.{HostsContent};
ghost use Rattle.stub_core.specs.declared.resolver.Resolver.{Resolver};
ghost use Rattle.stub_link.specs.LinkState.{first_link_state};
ghost use Rattle.stub_link.specs.ScriptedLink.{IsAt};
ghost use Rattle.stub_link.specs.declared.link.scripted.ScriptedLink.{ScriptedLink};
ghost use Rattle.stub_link.specs.declared.wire_handle.WireHandle.{WireHandle};
ghost use Rattle.stub_run.specs.Run.{RunState};
ghost use Rattle.stub_run.specs.RunOver.{rules_of};
ghost use Rattle.stub_run.specs.Stepping.{RunsAs, RunsFrom};
ghost use Rattle.stub_run.specs.Traced.{traced_rules};
ghost use Rattle.stub_run.specs.World.{IsFirst, IsFirstOver};
ghost use Rattle.stub_link.specs.declared.trace.traced_link.TracedLink.{TracedLink};

use crate::event_link::EventLink;
use stub_link::laws::{
    handles_over_the_scripted_link_ask_the_zone, handles_over_the_scripted_link_update_the_zone,
};
use stub_link::trace::laws::traced_handles_ask_as_others;

/// A resolver that begins over a scripted link at its first state runs in the states without bytes: a report of events that happen to
/// it, one by one, is that of a run from the first state. So is that of the events before one at which memory ran out.
pub fn resolvers_run_in_states()
    ensures { (zone : ZoneContent) (limit : ℕ) (ids : List ℕ) (config : ResolverConfig)
        (options : ResolverOpts) (hosts : HostsContent) (link : ScriptedLink)
        (resolver : Resolver (WireHandle ScriptedLink)) → IsAt link (first_link_state zone limit)
        → IsFirstOver link ids config options hosts resolver
        → (state : RunState) × IsFirst zone limit ids config options hosts state
        × RunsFrom resolver state }
{
    handles_over_the_scripted_link_ask_the_zone();
    handles_over_the_scripted_link_update_the_zone();
}

/// A resolver that begins over a link that notes its calls runs as one that begins over the other link: a report of events that happen
/// to the first is one of events that happen to the second. The notes change nothing.
pub fn traced_resolvers_run_as_others<L: EventLink>()
    ensures { (link : TracedLink L) (ids : List ℕ) (config : ResolverConfig)
        (options : ResolverOpts) (hosts : HostsContent)
        (resolver : Resolver (WireHandle (TracedLink L)))
        → IsFirstOver link ids config options hosts resolver
        → (other : Resolver (WireHandle L))
        × IsFirstOver link.link ids config options hosts other
        × RunsAs (traced_rules L.begins L.ends L.is_out L.sends L.receives L.streams
        L.failure_count) (rules_of L.begins L.ends L.is_out L.sends L.receives L.streams
        L.failure_count) resolver other }
{
    traced_handles_ask_as_others::<L>();
}
