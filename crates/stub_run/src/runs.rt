//! Runs: events one after another, in a world, and for a resolver over any link.

ghost use Rattle.std.specs.Prelude.{◌≡◌, ◌≤◌, ◌<◌, ◌+◌, ◌++◌, ◌∷◌, ◌↔◌, ◌^◌, ◌*◌, ◌-◌, min, IfOk, IsOk, OnOk, OnErr, IfSome, IsTrue, true, false, [], length, take, vec_len, vec_capacity, Err, None};
ghost use Rattle.stub_core.specs.Resolver.{max_questions};
ghost use Rattle.stub_link.specs.WireHandle.{Asks, SendsUpdate};
ghost use Rattle.stub_run.specs.Event.{TakesMemory};
ghost use Rattle.stub_run.specs.Counts.{HasFew};
ghost use Rattle.stub_run.specs.Headline.{IsMadeOf, WorldContent, report_in, reported, settings_of};
ghost use Rattle.stub_run.specs.OneHistory.{HasOneHistory};
ghost use Rattle.stub_run.specs.Questions.{AreAskable};
ghost use Rattle.stub_run.specs.Run.{InOrder, IsReportBefore, IsReportOf, Replies, RunState, memory_report};
ghost use Rattle.stub_run.specs.RunOver.{BeginsOver, EndsOver, IsReportBeforeOver, IsReportOver, RunsOutOver, StepOver, rules_of, with_sent};
ghost use Rattle.stub_run.specs.World.{BeginsWith};

use crate::event::{Action, Event};
use crate::event_link::EventLink;
use crate::laws::runs_have_one_history;
use crate::report::{EventReply, EventReport, Report, Stopped};
use crate::world::World;
use std::alloc::{AllocError, Global};
use stub_core::Resolver;
use stub_link::laws::{
    handles_over_the_scripted_link_ask_the_zone, handles_over_the_scripted_link_update_the_zone,
};
use stub_link::{Link, WireHandle};

/// The last moment at which an event may happen.
const MAX_MOMENT: u64 = 1 << 62;

/// Runs the events in a world, in order.
///
/// Memory for all reports, and for the ids that the events draw, is taken before the first event; without events, none is
/// taken. The error is [`Stopped::Moments`] if a moment is before an earlier one or after 2^62; then nothing happens. It is
/// [`Stopped::Memory`] if there is no memory for the reports and the ids, or if the link or its server runs out of memory;
/// it has the report of the events before. If memory runs out elsewhere, the reply to the event is
/// [`NetError::Memory`](stub_lookup::NetError::Memory), and the run goes on.
///
/// The report has one history (`history`), of the states of the run and of the versions of the zone, over which all of this holds.
/// If no id serves two equal questions and the minimum TTL of positive answers is 0, whatever the link loses, repeats, delays or
/// reorders, every record of a plain type (any type of data but CNAME, SOA, SIG, SRV and OPT) that was asked for stood in the
/// zone, was reached by aliases that stood there, and its TTL counts from such a moment (`fresh`). Excepted are records of the hosts
/// file, loopback records and literal addresses. If aliases are left out, the TTLs of these aliases bound it, too, where no chain of
/// aliases passed seven links by then (`chain_bound`). What a lookup returns of any type for a name is a whole set that stood, with
/// TTLs that count from one moment, or a negative answer that stood, no longer ago than its negative TTL and the maximum time for which
/// one is kept allow (`whole`). Every answer, of whatever type and by whatever bounds of TTLs, was a row of the zone, or is of the local
/// host (`sources`). Where nothing was updated since the last full clear, or the start, what is returned is of the zone as it is
/// (`steady`). And where also the link met no fault in an event, its lookup of a plain type, or of a host, returns exactly what a walk
/// over the zone comes to, whatever was cached and however large datagrams may be (`walked`). The versions of the zone are those up to
/// the end of each event, and for `sources`, `fresh_at_replies`, `chain_bound_at_replies` and `whole_at_replies` those up to the reply.
/// All of this also holds of the report of a run that stopped for memory.
///
/// An event asks at most eight questions for each name that its lookup attempts and each type of records, and drops at most
/// sixteen datagrams for each; an update drops at most sixteen (`few`).
pub fn run(world: World, events: &[Event]) -> Result<Report, Stopped>
    ensures moments { (result ≡ Err Stopped.Moments) ↔ ¬ InOrder 0 events.now }
    ensures run { IfOk result (λ report. (state : RunState) → BeginsWith world state
        → IsReportOf state events.now report) }
    ensures stopped { IfSome (memory_report result) (λ report. (state : RunState)
        → BeginsWith world state → IsReportBefore state events.now report) }
    ensures history { IfSome (report_in result) (λ report. (content : WorldContent)
        → (made : IsMadeOf world content)
        → HasOneHistory content made.state (reported events.now report) report) }
    ensures few { IfSome (report_in result) (λ report. (content : WorldContent)
        → IsMadeOf world content
        → HasFew (settings_of content) 0 (reported events.now report) report) }
    ensures decided { events.now ≡ [] → IsOk result }
{
    runs_have_one_history();
    know_names(events);
    run_world(world, events)
}

/// Does nothing. It tells the prover that no event names a name that is too long (RFC 1035 section 2.3.4), a premise of
/// [`unchanged_zones_are_walked`].
pub fn know_names(events: &[Event])
    ensures { AreAskable events.now }
{
    for event in events {
        event.action.know_name();
    }
}

/// Runs the events in a world, in order.
fn run_world(world: World, events: &[Event]) -> Result<Report, Stopped>
    ensures moments { (result ≡ Err Stopped.Moments) ↔ ¬ InOrder 0 events.now }
    ensures run { IfOk result (λ report. (state : RunState) → BeginsWith world state
        → IsReportOf state events.now report) }
    ensures stopped { IfSome (memory_report result) (λ report. (state : RunState)
        → BeginsWith world state → IsReportBefore state events.now report) }
    ensures order { IfSome (report_in result) (λ report. InOrder 0 events.now) }
    ensures few { IfSome (report_in result) (λ report. HasFew world.resolver.settings
        world.resolver.client.handle.dropped (reported events.now report) report) }
    ensures decided { events.now ≡ [] → IsOk result }
{
    handles_over_the_scripted_link_ask_the_zone();
    handles_over_the_scripted_link_update_the_zone();
    let World { alloc, resolver } = world;
    run_events(alloc, resolver, events)
}

/// Runs the events for a resolver over any link, in order.
///
/// The errors are those of [`run`]. What the link does is not known here, so the report is described by the link's own relations:
/// each reply is the resolver's, by what its questions and updates over the link came to (`run`).
pub fn run_events<L: EventLink + Drop>(
    alloc: Global,
    mut resolver: Resolver<WireHandle<L>>,
    events: &[Event],
) -> Result<Report, Stopped>
    ensures moments { (result ≡ Err Stopped.Moments) ↔ ¬ InOrder 0 events.now }
    ensures run { IfOk result (λ report. IsReportOver (rules_of L.begins L.ends L.is_out L.sends
        L.receives L.streams L.failure_count) resolver events.now report) }
    ensures stopped { IfSome (memory_report result) (λ report. IsReportBeforeOver (rules_of
        L.begins L.ends L.is_out L.sends L.receives L.streams L.failure_count) resolver events.now
        report) }
    ensures order { IfSome (report_in result) (λ report. InOrder 0 events.now) }
    ensures decided { events.now ≡ [] → IsOk result }
{
    if !is_in_order(events) {
        return Err(Stopped::Moments);
    }
    let max_questions = resolver.max_questions();
    let mut reports = Vec::new(alloc);
    if reports.reserve(events.len()).is_err()
        || reserve_ids(&mut resolver, max_questions, events.len()).is_err()
    {
        // There was no memory for the reports or the ids.
        return Err(Stopped::Memory(report_of(resolver, reports)));
    }
    for event in events {
        let progress = progress_of(&resolver);
        match happen(&mut resolver, event) {
            // The link or its server ran out of memory.
            None => return Err(Stopped::Memory(report_at(progress, resolver, reports))),
            Some(report) => push_report(&mut reports, report),
        }
    }
    Ok(report_of(resolver, reports))
}

/// Returns `true` if the moments do not go back, and none is after 2^62.
pub fn is_in_order(events: &[Event]) -> bool
    ensures { IsTrue result ↔ InOrder 0 events.now }
{
    let mut last = 0;
    for event in events {
        let now = event.at;
        if now < last || now > MAX_MOMENT {
            return false;
        }
        last = now;
    }
    true
}

/// Reserves capacity for the ids that events draw, as far as ids are left. Without events, no memory is taken.
pub fn reserve_for<L: Link>(
    resolver: &mut Resolver<WireHandle<L>>,
    events: &[Event],
) -> Result<(), AllocError>
    ensures rest { resolver.new ≡ with_sent resolver.old resolver.new.client.handle.sent }
    ensures ids { resolver.new.client.handle.sent.items ≡ resolver.old.client.handle.sent.items }
    ensures room { OnOk result (vec_len resolver.new.client.handle.sent
        + min (length events.now * min (max_questions resolver.old.settings) (2 ^ 64 - 1))
        (length resolver.old.client.handle.ids.items
        - length resolver.old.client.handle.sent.items)
        ≤ vec_capacity resolver.new.client.handle.sent) }
    ensures decided { events.now ≡ [] → IsOk result }
{
    let max_questions = resolver.max_questions();
    reserve_ids(resolver, max_questions, events.len())
}

/// Reserves capacity for the ids that events draw, as far as ids are left.
fn reserve_ids<L: Link>(
    resolver: &mut Resolver<WireHandle<L>>,
    max_questions: usize,
    event_count: usize,
) -> Result<(), AllocError>
    ensures rest { resolver.new ≡ with_sent resolver.old resolver.new.client.handle.sent }
    ensures ids { resolver.new.client.handle.sent.items ≡ resolver.old.client.handle.sent.items }
    ensures room { OnOk result (vec_len resolver.new.client.handle.sent
        + min (event_count * max_questions) (length resolver.old.client.handle.ids.items
        - length resolver.old.client.handle.sent.items)
        ≤ vec_capacity resolver.new.client.handle.sent) }
    ensures decided { event_count ≡ 0 → IsOk result }
{
    let questions = event_count.saturating_mul(max_questions);
    let handle = resolver.handle_mut();
    let left = handle.ids_left();
    handle.reserve(questions.min(left))
}

/// What a run has reached: the number of ids that were drawn, and of datagrams that were dropped.
#[derive(Clone, Copy)]
struct Progress {
    drawn: usize,
    dropped: u64,
}

/// Returns what a run has reached.
fn progress_of<L: Link>(resolver: &Resolver<WireHandle<L>>) -> Progress
    ensures { result ≡ record {
      drawn = length resolver.now.client.handle.sent.items;
      dropped = resolver.now.client.handle.dropped;
    } }
{
    let handle = resolver.handle();
    Progress {
        drawn: handle.sent().len(),
        dropped: handle.dropped(),
    }
}

/// Lets an event happen, as [`run_events`] does one after another. Returns its report, or `None` if the link or its server runs
/// out of memory.
///
/// The moments of the events must be [in order](is_in_order); [`reserve_for`] takes memory for the ids that they draw.
pub fn happen<L: EventLink>(
    resolver: &mut Resolver<WireHandle<L>>,
    event: &Event,
) -> Option<EventReport>
    requires { event.now.at ≤ 2 ^ 62 }
    ensures step { IfSome result (λ report. StepOver (rules_of L.begins L.ends L.is_out L.sends
        L.receives L.streams L.failure_count) resolver.old event.now report resolver.new) }
    ensures stop { result ≡ None → RunsOutOver (rules_of L.begins L.ends L.is_out L.sends
        L.receives L.streams L.failure_count) resolver.old event.now }
    ensures front { take (length resolver.old.client.handle.sent.items)
        resolver.new.client.handle.sent.items ≡ resolver.old.client.handle.sent.items }
{
    if begin(resolver, event).is_err() {
        // There was no memory for the script or the place of the update.
        return None;
    }
    let reply = reply_to(resolver, event);
    if end(resolver).is_err() {
        // There was no memory for what was left to deliver.
        return None;
    }
    event_report(resolver, reply)
}

/// Begins an event: nothing is counted yet, and the link begins it.
fn begin<L: EventLink>(
    resolver: &mut Resolver<WireHandle<L>>,
    event: &Event,
) -> Result<(), AllocError>
    ensures begins { OnOk result (BeginsOver (rules_of L.begins L.ends L.is_out L.sends L.receives
        L.streams L.failure_count) resolver.old event.now resolver.new) }
    ensures refused { OnErr result (TakesMemory event.now) }
    ensures sent { resolver.new.client.handle.sent.items ≡ resolver.old.client.handle.sent.items }
{
    let handle = resolver.handle_mut();
    handle.reset_counts();
    handle.link_mut().begin(event)
}

/// Ends an event. The error is that of the link.
fn end<L: EventLink>(resolver: &mut Resolver<WireHandle<L>>) -> Result<(), AllocError>
    ensures ends { EndsOver (rules_of L.begins L.ends L.is_out L.sends L.receives L.streams
        L.failure_count) resolver.old result resolver.new }
    ensures sent { resolver.new.client.handle.sent.items ≡ resolver.old.client.handle.sent.items }
{
    resolver.handle_mut().link_mut().end()
}

/// Returns the report of an event with a reply, or `None` if the link or its server ran out of memory.
fn event_report<L: EventLink>(
    resolver: &Resolver<WireHandle<L>>,
    reply: EventReply,
) -> Option<EventReport>
    ensures report { IfSome result (λ report. (report ≡ record {
      reply = reply;
      faults = resolver.now.client.handle.faults;
      questions = resolver.now.client.handle.questions;
    }) × (L.is_out resolver.now.client.handle.link ≡ false)) }
    ensures none { result ≡ None → L.is_out resolver.now.client.handle.link ≡ true }
{
    let handle = resolver.handle();
    if handle.link().has_run_out() {
        return None;
    }
    let counts = handle.counts();
    Some(EventReport {
        reply,
        faults: counts.faults,
        questions: counts.questions,
    })
}

/// Returns the reply of a resolver to an event.
fn reply_to<L: Link>(resolver: &mut Resolver<WireHandle<L>>, event: &Event) -> EventReply
    requires { event.now.at ≤ 2 ^ 62 }
    ensures { Replies (Asks L.sends L.receives L.streams L.failure_count)
        (SendsUpdate L.sends L.receives L.streams L.failure_count) resolver.old event.now.at
        event.now.action result resolver.new }
{
    match &event.action {
        Action::Lookup { name, rtype } => {
            EventReply::Lookup(resolver.lookup(name, *rtype, event.at))
        }
        Action::LookupIp { host } => {
            EventReply::LookupIp(resolver.lookup_ip(host.as_str(), event.at))
        }
        Action::Clear { name, rtype } => {
            EventReply::Cleared(resolver.clear_lookup_cache(name, *rtype))
        }
        Action::ClearAll => {
            resolver.clear_cache();
            EventReply::Cleared(Ok(()))
        }
        Action::Update(update) => {
            // Tells the prover that the message is an update.
            let _message = update.message();
            EventReply::Update(resolver.handle_mut().send_update(&**update))
        }
    }
}

/// Returns the report of a run so far.
fn report_of<L: Link + Drop>(resolver: Resolver<WireHandle<L>>, events: Vec<EventReport>) -> Report
    ensures events { result.events ≡ events }
    ensures sent { result.sent ≡ resolver.client.handle.sent }
    ensures dropped { result.dropped ≡ resolver.client.handle.dropped }
{
    let handle = resolver.into_handle();
    Report {
        events,
        dropped: handle.dropped(),
        sent: handle.into_sent(),
    }
}

/// Returns the report of a run when it had reached an earlier point.
fn report_at<L: Link + Drop>(
    progress: Progress,
    resolver: Resolver<WireHandle<L>>,
    events: Vec<EventReport>,
) -> Report
    ensures events { result.events ≡ events }
    ensures sent { result.sent.items ≡ take progress.drawn resolver.client.handle.sent.items }
    ensures dropped { result.dropped ≡ progress.dropped }
{
    let mut sent = resolver.into_handle().into_sent();
    sent.truncate(progress.drawn);
    Report {
        events,
        sent,
        dropped: progress.dropped,
    }
}

/// Appends a report, for which there is capacity.
fn push_report(reports: &mut Vec<EventReport>, report: EventReport)
    requires { vec_len reports.old < vec_capacity reports.old }
    ensures items { reports.new.items ≡ reports.old.items ++ report ∷ [] }
    ensures len { vec_len reports.new ≡ vec_len reports.old + 1 }
    ensures capacity { vec_capacity reports.old ≤ vec_capacity reports.new }
{
    match reports.push(report) {
        Ok(()) => {}
        Err(_) => unreachable!(),
    }
}
