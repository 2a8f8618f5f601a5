//! What runs promise of the records that their lookups return.

ghost use Rattle.std.specs.Prelude.{◌≡◌, ◌+◌, ◌<◌, ◌^◌, false, true, Contains, EachIndex, Err, List, ℕ, length, map, slice_index, take};
ghost use Rattle.std.specs.List.{AllByRecursion};
ghost use Rattle.dns_wire.specs.declared.codes.record_type.RecordType.{RecordType};
ghost use Rattle.dns_names.specs.Name.{DomainName};
ghost use Rattle.dns_messages.specs.declared.query.Query.{Query};
ghost use Rattle.dns_zone.specs.Rows.{IsZone, ZoneContent};
ghost use Rattle.dns_messages.specs.declared.response_code.ResponseCode.{ResponseCode};
ghost use Rattle.stub_lookup.specs.declared.error.DnsError.{DnsError};
ghost use Rattle.stub_lookup.specs.declared.error.LinkFault.{LinkFault};
ghost use Rattle.stub_lookup.specs.declared.error.NetError.{NetError};
ghost use Rattle.stub_hosts.specs.Hosts.{question};
ghost use Rattle.stub_cache.specs.Ttl.{TtlConfigContent};
ghost use Rattle.stub_client.specs.Looks.{Reply};
ghost use Rattle.stub_core.specs.Resolver.{known_type, names_for};
ghost use Rattle.stub_core.specs.declared.resolver.settings.Settings.{Settings};
ghost use Rattle.stub_link.specs.History.{Occasion, first_past};
ghost use Rattle.stub_laws.specs.walk.Agreement.{Agree};
ghost use Rattle.stub_laws.specs.walk.Walk.{walks_everywhere};
ghost use Rattle.stub_link.specs.LinkState.{Version};
ghost use Rattle.stub_laws.specs.history.Faithful.{HasNoReuse};
ghost use Rattle.stub_laws.specs.answers.Failing.{IsRefused};
ghost use Rattle.stub_run.specs.Headline.{AreFresh, HasNoLeastTtl, HaveChainBounds, WorldContent, settings_of};
ghost use Rattle.stub_run.specs.Ids.{AreDistinct};
ghost use Rattle.stub_run.specs.Questions.{AreAskable};
ghost use Rattle.stub_run.specs.History.{AreOccasions, MakePasts};
ghost use Rattle.stub_run.specs.OneHistory.{HasOneHistory};
ghost use Rattle.stub_run.specs.Run.{InOrder, IsReportOf, RunState, Runs, asks_of};
ghost use Rattle.stub_run.specs.Steady.{AreSteady};
ghost use Rattle.stub_run.specs.Walked.{AreAgreed, AreWalked, HasSentUpdate, IsWalkedReply, with_cache_size, with_sizes};
ghost use Rattle.stub_run.specs.Whole.{AreWhole, IsStandingReply};
ghost use Rattle.stub_run.specs.World.{IsFirst};
ghost use Rattle.stub_run.specs.declared.event.Action.{Action};
ghost use Rattle.stub_run.specs.declared.event.Event.{Event};
ghost use Rattle.stub_run.specs.declared.report.EventReply.{EventReply};
ghost use Rattle.stub_run.specs.declared.report.EventReport.{EventReport};
ghost use Rattle.stub_run.specs.declared.report.Report.{Report};

use crate::laws::events_decide_the_history;
use crate::laws::replies::{
    answers_have_sources, answers_stood_at_replies, records_stood_at_replies,
};
use dns_names::laws::parsing_follows_the_grammar;
use dns_wire::codes::laws::type_number_round_trips;
use dns_zone::laws::{answers_are_alias_chains, updates_keep_zones_well_formed};

/// Every record of a plain type that a lookup of a run returns stood in the zone, was reached by aliases that stood there, and its TTL
/// counts from such a moment. If aliases are left out, the TTLs of these aliases bound it too.
///
/// No id serves two equal questions, and the least TTL of positive answers is 0.
pub fn every_record_stood()
    ensures fresh { (content : WorldContent) (first last : RunState) (events : List Event)
        (reports : List EventReport) (states : List RunState) (occasions : List Occasion)
        → IsZone content.zone
        → IsFirst content.zone content.limit content.ids content.config content.options
        content.hosts first
        → InOrder 0 events → Runs first events reports states last
        → MakePasts (first_past content.zone) states occasions
        → HasNoReuse (asks_of last).sent → HasNoLeastTtl content
        → AreFresh content events reports occasions }
    ensures chain_bound { (content : WorldContent) (first last : RunState) (events : List Event)
        (reports : List EventReport) (states : List RunState) (occasions : List Occasion)
        → IsZone content.zone
        → IsFirst content.zone content.limit content.ids content.config content.options
        content.hosts first
        → InOrder 0 events → Runs first events reports states last
        → MakePasts (first_past content.zone) states occasions
        → HasNoReuse (asks_of last).sent → HasNoLeastTtl content
        → content.options.preserve_intermediates ≡ false
        → HaveChainBounds content events reports occasions }
{
    type_number_round_trips();
    answers_are_alias_chains();
    updates_keep_zones_well_formed();
}

/// Each reply to a lookup of a run stood in the zone, for each name that it attempted and each type of addresses: the records of the
/// type are a whole set of one version of the zone, and no TTL is more than what is left of its own since a moment at which this
/// version stood; a negative answer is what the zone answered at such a moment, no longer ago than its negative TTL, nor than negative
/// answers are kept; and another error has a reason.
///
/// No id serves two equal questions. The least TTL of positive answers is 0, or nothing is said of sets; and that of negative
/// answers is 0, or nothing is said of their own TTLs.
pub fn every_answer_stood()
    ensures { (content : WorldContent) (first last : RunState) (events : List Event)
        (reports : List EventReport) (states : List RunState) (occasions : List Occasion)
        → IsZone content.zone
        → IsFirst content.zone content.limit content.ids content.config content.options
        content.hosts first
        → InOrder 0 events → Runs first events reports states last
        → MakePasts (first_past content.zone) states occasions
        → HasNoReuse (asks_of last).sent
        → AreWhole content events reports occasions }
{
    type_number_round_trips();
    answers_are_alias_chains();
    updates_keep_zones_well_formed();
}

/// A lookup of a name fails for a reason: by a fault of the link only in an event that counts a fault, and by a response code only where
/// the zone refuses a question, with this code, to which the question for an attempted name leads.
pub fn lookups_fail_for_reasons()
    ensures link { (ttls : TtlConfigContent) (origin : DomainName) (history : List Version)
        (settings : Settings) (at : ℕ) (name : DomainName) (kind : RecordType) (fault : LinkFault)
        → ¬ IsStandingReply ttls origin history settings 0 at (Action.Lookup name kind)
        (EventReply.Lookup (Err (NetError.Link fault))) }
    ensures code { (ttls : TtlConfigContent) (origin : DomainName) (history : List Version)
        (settings : Settings) (faults at : ℕ) (name : DomainName) (kind : RecordType)
        (code : ResponseCode)
        → IsStandingReply ttls origin history settings faults at (Action.Lookup name kind)
        (EventReply.Lookup (Err (NetError.Dns (DnsError.ResponseCode code))))
        → (attempted : DomainName) × Contains (names_for settings name) attempted
        × IsRefused settings.options.preserve_intermediates origin history at
        (question attempted (known_type kind)) code }
{}

/// Where nothing was updated since the last full clear, or the start, the reply to each lookup stood in the zone as it is: of any type, along
/// aliases of any number, and also where the link met faults.
///
/// No id serves two equal questions.
pub fn unchanged_zones_are_steady()
    ensures { (content : WorldContent) (first last : RunState) (events : List Event)
        (reports : List EventReport) (states : List RunState) (occasions : List Occasion)
        → IsZone content.zone
        → IsFirst content.zone content.limit content.ids content.config content.options
        content.hosts first
        → InOrder 0 events → Runs first events reports states last
        → MakePasts (first_past content.zone) states occasions
        → HasNoReuse (asks_of last).sent
        → AreSteady content events reports occasions }
{
    type_number_round_trips();
    answers_are_alias_chains();
    updates_keep_zones_well_formed();
}

/// Where nothing was updated since the last full clear, or the start, and the link met no fault in an event, its lookup of a plain type, of
/// aliases or of a host is one in which each question is walked over the zone, and so is one of SOA or SRV records where it goes along
/// aliases alone: whatever was kept, however large datagrams may be, and whatever the link loses, repeats, delays or reorders in between.
///
/// No id serves two equal questions, aliases are left out, and no chain of aliases through a name that the lookup attempts passes seven
/// links. Memory may run out for a lookup.
pub fn unchanged_zones_are_walked()
    ensures { (content : WorldContent) (first last : RunState) (events : List Event)
        (reports : List EventReport) (states : List RunState) (occasions : List Occasion)
        → IsZone content.zone
        → IsFirst content.zone content.limit content.ids content.config content.options
        content.hosts first
        → InOrder 0 events → Runs first events reports states last
        → MakePasts (first_past content.zone) states occasions
        → HasNoReuse (asks_of last).sent
        → content.options.preserve_intermediates ≡ false
        → content.options.edns_payload_len < 2 ^ 16 → AreAskable events
        → AreWalked content events reports occasions }
{
    type_number_round_trips();
    parsing_follows_the_grammar();
    updates_keep_zones_well_formed();
}

/// The headline: a report has one history, of states, of what the link sees of the events and of versions of the zone, and over it
/// every record that a lookup returns stood, has the chain bound, is of a whole set, is of the zone as it is, and is walked, each under its
/// premises.
pub fn runs_have_one_history()
    ensures { (content : WorldContent) (first : RunState) (events : List Event)
        (report : Report) → IsZone content.zone
        → IsFirst content.zone content.limit content.ids content.config content.options
        content.hosts first
        → content.options.edns_payload_len < 2 ^ 16 → InOrder 0 events → AreAskable events
        → IsReportOf first events report → HasOneHistory content first events report }
{
    every_record_stood();
    every_answer_stood();
    records_stood_at_replies();
    answers_stood_at_replies();
    answers_have_sources();
    unchanged_zones_are_steady();
    unchanged_zones_are_walked();
    events_decide_the_history();
}

/// Two walked lookups of the same host, or of the same name and the same type, a plain one or that of aliases, agree: they
/// have the same records or the same failure, TTLs aside, unless memory runs out. So a lookup that is repeated returns the
/// same; and so do two runs over the same zone that differ in the size of the cache, the limit of datagrams or the ids.
pub fn walked_replies_agree()
    ensures name { (zone : ZoneContent) (settings : Settings) (size at later : ℕ)
        (name : DomainName) (kind : RecordType) (one two : Reply)
        → IsWalkedReply zone settings at (Action.Lookup name kind) (EventReply.Lookup one)
        → IsWalkedReply zone (with_cache_size size settings) later (Action.Lookup name kind)
        (EventReply.Lookup two)
        → walks_everywhere (known_type kind) ≡ true → Agree one two }
    ensures host { (zone : ZoneContent) (settings : Settings) (size at later : ℕ) (host : _)
        (one two : Reply)
        → IsWalkedReply zone settings at (Action.LookupIp host) (EventReply.LookupIp one)
        → IsWalkedReply zone (with_cache_size size settings) later (Action.LookupIp host)
        (EventReply.LookupIp two)
        → Agree one two }
    ensures settings { (content : WorldContent) (size limit : ℕ) (ids : List ℕ)
        → settings_of (with_sizes size limit ids content)
        ≡ with_cache_size size (settings_of content) }
{}

/// So the replies of two runs of the same events over the same zone agree, event by event, where the premises hold of both: they may
/// differ in the size of the cache, the limit of datagrams, the ids, and in what memory is refused to them, but not to an update.
pub fn walked_runs_agree()
    ensures { (content : WorldContent) (size limit : ℕ) (ids : List ℕ) (events : List Event)
        (reports others : List EventReport) (occasions more : List Occasion)
        → AreOccasions events reports occasions → AreOccasions events others more
        → AreWalked content events reports occasions
        → AreWalked (with_sizes size limit ids content) events others more
        → AllByRecursion HasSentUpdate reports → AllByRecursion HasSentUpdate others
        → AreAgreed content events reports others occasions }
{}

/// Distinct ids serve no two questions: if no id occurs twice in the list, no id that was drawn serves two equal questions. Ids
/// that count up from a number are distinct.
pub fn distinct_ids_are_not_reused()
    ensures drawn { (ids : List ℕ) (sent : List (ℕ × Query)) → AreDistinct ids
        → map (λ draw. draw.0) sent ≡ take (length sent) ids → HasNoReuse sent }
    ensures counted { (n : ℕ) (ids : List ℕ) → EachIndex ids (λ k. slice_index ids k ≡ k + n)
        → AreDistinct ids }
{}
