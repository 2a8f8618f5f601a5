//! Laws of runs.
//!
//! The laws are functions with an empty body. Their contracts state what holds of every question to the zone's server, of every
//! lookup, and of every run, by the relation that is the contract of [`run`](crate::run).

ghost use Rattle.std.specs.Prelude.{◌≡◌, ◌≤◌, ◌+◌, ◌*◌, ◌++◌, ◌∷◌, [], false, length, List, ℕ, Option, Result, Err};
ghost use Rattle.std.specs.declared.net.ip_addr.IpAddr.{IpAddr};
ghost use Rattle.dns_wire.specs.declared.codes.record_type.RecordType.{RecordType};
ghost use Rattle.dns_names.specs.Name.{DomainName};
ghost use Rattle.dns_names.specs.declared.error.ParseError.{ParseError};
ghost use Rattle.dns_messages.specs.declared.message.Message.{Message};
ghost use Rattle.dns_messages.specs.declared.query.Query.{Query};
ghost use Rattle.dns_messages.specs.declared.response_code.ResponseCode.{ResponseCode};
ghost use Rattle.dns_zone.specs.Rows.{ZoneContent};
ghost use Rattle.stub_config.specs.declared.request_options.DnsRequestOptions.{DnsRequestOptions};
ghost use Rattle.stub_lookup.specs.declared.error.LinkFault.{LinkFault};
ghost use Rattle.stub_lookup.specs.declared.error.NetError.{NetError};
ghost use Rattle.stub_client.specs.Handle.{Ask, Outcome};
ghost use Rattle.stub_client.specs.Looks.{Answers, Reply};
ghost use Rattle.stub_client.specs.declared.caching_client.CachingClient.{CachingClient};
ghost use Rattle.stub_client.specs.declared.request.DnsRequest.{DnsRequest};
ghost use Rattle.stub_core.specs.Origins.{names_of};
ghost use Rattle.stub_core.specs.Resolver.{LooksUpHost, ResolvesName};
ghost use Rattle.stub_core.specs.Resolver.{asks_of as asks_of_client};
ghost use Rattle.stub_core.specs.Strategies.{kinds_of};
ghost use Rattle.stub_core.specs.declared.resolver.Resolver.{Resolver};
ghost use Rattle.stub_link.specs.AskState.{AskState, AskZone, UpdateZone, first_asks};
ghost use Rattle.stub_link.specs.History.{Occasion, first_past, history_of};
ghost use Rattle.stub_link.specs.WireHandle.{Asks, SendsUpdate, asker_of};
ghost use Rattle.stub_link.specs.declared.wire_handle.WireHandle.{WireHandle};
ghost use Rattle.stub_run.specs.Counts.{AreFew, HasDrawn, HasFew};
ghost use Rattle.stub_run.specs.History.{AreOccasions, MakePasts};
ghost use Rattle.stub_run.specs.Run.{RunState, Runs, asks_of};
ghost use Rattle.stub_run.specs.RunOver.{IsReportOver, rules_of};
ghost use Rattle.stub_run.specs.declared.event.Event.{Event};
ghost use Rattle.stub_run.specs.declared.report.EventReport.{EventReport};
ghost use Rattle.stub_run.specs.declared.report.Report.{Report};

mod headline;
mod questions;
mod replies;
mod stepping;

use crate::event_link::EventLink;
pub use headline::{
    distinct_ids_are_not_reused, every_answer_stood, every_record_stood, lookups_fail_for_reasons,
    runs_have_one_history, unchanged_zones_are_steady, unchanged_zones_are_walked,
    walked_replies_agree, walked_runs_agree,
};
pub use questions::{
    questions_without_faults_are_answered, resolvers_ask_sound_questions,
    resolvers_ask_the_zone_sound_questions,
};
pub use replies::{answers_have_sources, answers_stood_at_replies, records_stood_at_replies};
pub use stepping::{resolvers_run_in_states, traced_resolvers_run_as_others};
use stub_client::laws::every_failure_is_returned;
use stub_link::Link;

/// A question sends at most one datagram and drops at most sixteen. A lookup of one name and type asks at most eight questions,
/// so it sends at most eight and drops at most 128. An update sends no question, and drops at most sixteen datagrams.
pub fn questions_are_few()
    ensures question { (old new : AskState) (request : DnsRequest) (now : ℕ) (outcome : Outcome)
        → AskZone old request now outcome new → new.link.out_of_memory ≡ false → AreFew 1 old new }
    ensures lookup { (options : DnsRequestOptions) (now : ℕ) (old new : CachingClient AskState)
        (q : Query) (reply : Reply)
        → Answers (λ asks request now outcome after. AskZone asks request now outcome after)
        options now old q reply new
        → new.handle.link.out_of_memory ≡ false → AreFew 8 old.handle new.handle }
    ensures update { (old new : AskState) (update : Message) (reply : Result ResponseCode NetError)
        → UpdateZone old update reply new → new.link.out_of_memory ≡ false
        → (new.questions ≤ old.questions) × (new.dropped ≤ old.dropped + 16) }
{}

/// The same over any link, whatever memory there is, and of lookups of a resolver: at most eight questions for each name that is
/// attempted and each type that is asked for, each of which drops at most sixteen datagrams.
pub fn handles_ask_few_questions<L: Link>()
    ensures question { (old new : WireHandle L) (request : DnsRequest) (now : ℕ)
        (outcome : Outcome)
        → Asks L.sends L.receives L.streams L.failure_count old request now outcome new
        → AreFew 1 (asker_of old) (asker_of new) }
    ensures lookup { (options : DnsRequestOptions) (now : ℕ)
        (old new : CachingClient (WireHandle L)) (q : Query) (reply : Reply)
        → Answers (Asks L.sends L.receives L.streams L.failure_count)
        options now old q reply new
        → AreFew 8 (asker_of old.handle) (asker_of new.handle) }
    ensures name { (now : ℕ) (name : Result DomainName ParseError) (kind : RecordType)
        (old new : Resolver (WireHandle L)) (reply : Reply)
        → ResolvesName (Asks L.sends L.receives L.streams L.failure_count) now name kind old reply
        new
        → AreFew (8 * length (names_of old.settings name)) (asker_of old.client.handle)
        (asker_of new.client.handle) }
    ensures host { (now : ℕ) (address : Option IpAddr) (name : Result DomainName ParseError)
        (old new : Resolver (WireHandle L)) (reply : Reply)
        → LooksUpHost old.settings now
        (asks_of_client (Asks L.sends L.receives L.streams L.failure_count) now old) address name
        old.client reply new.client
        → AreFew (8 * (length (names_of old.settings name)
        * length (kinds_of old.settings.options.ip_strategy))) (asker_of old.client.handle)
        (asker_of new.client.handle) }
    ensures update { (old new : WireHandle L) (update : Message)
        (reply : Result ResponseCode NetError)
        → SendsUpdate L.sends L.receives L.streams L.failure_count old update reply new
        → (new.questions ≤ old.questions) × (new.dropped ≤ old.dropped + 16) }
{}

/// [`handles_ask_few_questions`] for each event of a run over any link: its report says how many questions it asked, and that
/// of the run how many datagrams were dropped.
pub fn runs_ask_few_questions<L: EventLink>()
    ensures { (resolver : Resolver (WireHandle L)) (events : List Event) (report : Report)
        → IsReportOver (rules_of L.begins L.ends L.is_out L.sends L.receives L.streams
        L.failure_count) resolver events report
        → HasFew resolver.settings resolver.client.handle.dropped events report }
{}

/// A fault of the link ends a lookup, which returns it and leaves the cache as it was before the question.
pub fn faults_leave_the_cache()
    ensures { (options : DnsRequestOptions) (now : ℕ) (old new : CachingClient AskState)
        (q : Query) (reply : Reply)
        → (answers : Answers (λ asks request now outcome after. AskZone asks request now outcome after)
        options now old q reply new)
        → (earlier : List Ask) (last : Ask) (fault : LinkFault) → answers.asks ≡ earlier ++ last ∷ []
        → last.outcome ≡ Err (NetError.Link fault)
        → (reply ≡ Err (NetError.Link fault)) × (new.cache ≡ old.cache) }
{
    every_failure_is_returned();
}

/// In a run, the ids of the list are drawn in order, one for each question.
pub fn ids_are_drawn_in_order()
    ensures { (ids : List ℕ) (first last : RunState) (events : List Event)
        (reports : List EventReport) (states : List RunState) → HasDrawn ids (asks_of first)
        → Runs first events reports states last → HasDrawn ids (asks_of last) }
{}

/// The versions of a zone after each event of a run are decided by the events alone, but for the updates that found no memory.
pub fn events_decide_the_history()
    ensures { (zone : ZoneContent) (limit : ℕ) (ids : List ℕ) (first last : RunState)
        (events : List Event) (reports : List EventReport) (states : List RunState)
        → asks_of first ≡ first_asks zone limit ids → Runs first events reports states last
        → (occasions : List Occasion) × AreOccasions events reports occasions
        × MakePasts (first_past zone) states occasions
        × ((asks_of last).link.history ≡ history_of zone occasions) }
{}
