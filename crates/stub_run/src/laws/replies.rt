//! What runs promise of each reply as it is given.

ghost use Rattle.std.specs.Prelude.{◌≡◌, false, List};
ghost use Rattle.dns_zone.specs.Rows.{IsZone};
ghost use Rattle.stub_laws.specs.history.Faithful.{HasNoReuse};
ghost use Rattle.stub_run.specs.AtReplies.{AreFreshAtReplies, AreWholeAtReplies, HaveChainBoundsAtReplies, HaveSourcesAtReplies};
ghost use Rattle.stub_run.specs.Headline.{HasNoLeastTtl, WorldContent};
ghost use Rattle.stub_run.specs.Run.{InOrder, RunState, Runs, asks_of};
ghost use Rattle.stub_run.specs.World.{IsFirst};
ghost use Rattle.stub_run.specs.declared.event.Event.{Event};
ghost use Rattle.stub_run.specs.declared.report.EventReport.{EventReport};

use dns_wire::codes::laws::type_number_round_trips;
use dns_zone::laws::{answers_are_alias_chains, updates_keep_zones_well_formed};

/// As [`every_record_stood`](super::every_record_stood), by the versions of the zone up to each reply: what an event delivers after the
/// reply to its lookup explains no record of it.
pub fn records_stood_at_replies()
    ensures fresh { (content : WorldContent) (first last : RunState) (events : List Event)
        (reports : List EventReport) (states : List RunState)
        → IsZone content.zone
        → IsFirst content.zone content.limit content.ids content.config content.options
        content.hosts first
        → InOrder 0 events → (runs : Runs first events reports states last)
        → HasNoReuse (asks_of last).sent → HasNoLeastTtl content
        → AreFreshAtReplies content first events reports states last runs }
    ensures chain_bound { (content : WorldContent) (first last : RunState) (events : List Event)
        (reports : List EventReport) (states : List RunState)
        → IsZone content.zone
        → IsFirst content.zone content.limit content.ids content.config content.options
        content.hosts first
        → InOrder 0 events → (runs : Runs first events reports states last)
        → HasNoReuse (asks_of last).sent → HasNoLeastTtl content
        → content.options.preserve_intermediates ≡ false
        → HaveChainBoundsAtReplies content first events reports states last runs }
{
    type_number_round_trips();
    answers_are_alias_chains();
    updates_keep_zones_well_formed();
}

/// As [`every_answer_stood`](super::every_answer_stood), by the versions of the zone up to each reply, and by the questions that its
/// lookup asked: a fault of the link is a reason for an error only where the question that it leads to is one of those that the lookup
/// asked in this event, and that failed by a fault.
pub fn answers_stood_at_replies()
    ensures { (content : WorldContent) (first last : RunState) (events : List Event)
        (reports : List EventReport) (states : List RunState)
        → IsZone content.zone
        → IsFirst content.zone content.limit content.ids content.config content.options
        content.hosts first
        → InOrder 0 events → (runs : Runs first events reports states last)
        → HasNoReuse (asks_of last).sent
        → AreWholeAtReplies content first events reports states last runs }
{
    type_number_round_trips();
    answers_are_alias_chains();
    updates_keep_zones_well_formed();
}

/// Every answer that a lookup of a run returns, of whatever type, was a row of the zone by the time of the reply, or is of the local
/// host; its TTL is at most that of the row, within the bounds of the type, and at most what was left of it if the least TTL of positive
/// answers is 0. So were the aliases that are returned where intermediate aliases are preserved.
///
/// No id serves two equal questions.
pub fn answers_have_sources()
    ensures { (content : WorldContent) (first last : RunState) (events : List Event)
        (reports : List EventReport) (states : List RunState)
        → IsZone content.zone
        → IsFirst content.zone content.limit content.ids content.config content.options
        content.hosts first
        → InOrder 0 events → (runs : Runs first events reports states last)
        → HasNoReuse (asks_of last).sent
        → HaveSourcesAtReplies content first events reports states last runs }
{
    answers_are_alias_chains();
    updates_keep_zones_well_formed();
}
