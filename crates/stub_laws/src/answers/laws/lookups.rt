//! What lookups keep of whole answers.

ghost use Rattle.std.specs.Prelude.{◌≡◌, ◌≤◌, ℕ, Bool, List, [], All, Option, Result, Ok};
ghost use Rattle.std.specs.declared.net.ip_addr.IpAddr.{IpAddr};
ghost use Rattle.dns_wire.specs.declared.codes.record_type.RecordType.{RecordType};
ghost use Rattle.dns_names.specs.Name.{DomainName};
ghost use Rattle.dns_names.specs.declared.error.ParseError.{ParseError};
ghost use Rattle.stub_cache.specs.Cache.{CacheContent};
ghost use Rattle.stub_cache.specs.Ttl.{TtlConfigContent};
ghost use Rattle.dns_messages.specs.declared.query.Query.{Query};
ghost use Rattle.stub_config.specs.declared.request_options.DnsRequestOptions.{DnsRequestOptions};
ghost use Rattle.stub_client.specs.Handle.{Ask};
ghost use Rattle.stub_client.specs.Laws.{EveryLookup};
ghost use Rattle.stub_client.specs.Looks.{Reply};
ghost use Rattle.stub_client.specs.declared.caching_client.step.LookupSettings.{LookupSettings};
ghost use Rattle.stub_core.specs.Origins.{HasNoMinima};
ghost use Rattle.stub_core.specs.Resolver.{LooksUp, LooksUpHost, asks_of, cleared_lookup, known_type, names_for};
ghost use Rattle.stub_core.specs.declared.resolver.Resolver.{Resolver};
ghost use Rattle.stub_core.specs.declared.resolver.settings.Settings.{Settings};
ghost use Rattle.stub_link.specs.LinkState.{Version};
ghost use Rattle.stub_laws.specs.history.Answered.{AreZones, IsAnsweredBy};
ghost use Rattle.stub_laws.specs.answers.Claims.{AbsencesOutlast, AnswersOutlast, BearOut, HasNoNegativeMinima, HoldOfCache, HoldOfReply, HoldOfSpecialNames, longest_of};
ghost use Rattle.stub_laws.specs.answers.Ends.{NameEnds};
ghost use Rattle.stub_laws.specs.answers.Failing.{FailsIndeed, HasReason};
ghost use Rattle.stub_laws.specs.answers.Lookups.{ByClaims, CacheStands, GoesOn, Stands};
ghost use Rattle.stub_laws.specs.answers.Standing.{FindsWhole, IsDeep, LacksIndeed, MissesIndeed};

use dns_wire::codes::laws::type_number_round_trips;
use dns_zone::laws::answers_are_alias_chains;
use stub_client::DnsHandle;

/// Claims about all answers that are returned for a question at a moment, about its negative answers, as they are stored and as they
/// are returned, and about the other errors with which it ends.
pub trait WholeClaim {
    ghost use Rattle.std.specs.Prelude.{ℕ, List};
    ghost use Rattle.dns_records.specs.Record.{Record};
    ghost use Rattle.dns_messages.specs.declared.query.Query.{Query};
    ghost use Rattle.stub_lookup.specs.declared.error.NetError.{NetError};
    ghost use Rattle.stub_lookup.specs.declared.error.NoRecords.{NoRecords};

    /// These answers may be returned for a question at a moment.
    ghost finds: { Query → ℕ → List Record → Type 0 };

    /// This negative answer may be stored for a question at a moment.
    ghost misses: { Query → ℕ → NoRecords → Type 0 };

    /// This negative answer may be returned for a question at a moment.
    ghost lacks: { Query → ℕ → NoRecords → Type 0 };

    /// A question may end in this error at a moment: no negative answer, and not for want of memory.
    ghost fails: { Query → ℕ → NetError → Type 0 };

    /// A lookup that has followed aliases so many times may ask this question.
    ghost deep: { ℕ → Query → Type 0 };
}

/// Every lookup of a client keeps claims about whole answers that outlast the cache and that the outcomes bear out.
///
/// The claims then hold of what the cache has, and of the reply.
pub fn every_lookup_keeps_whole_answers<C: WholeClaim>()
    ensures { (config : TtlConfigContent) → AnswersOutlast (HasNoMinima config) C.finds
        → AbsencesOutlast (HasNoNegativeMinima config) (longest_of config) C.misses C.lacks
        → HoldOfSpecialNames C.finds C.lacks → ((q : Query) → C.deep 0 q)
        → EveryLookup (λ settings now old q asks reply new. old.config ≡ config
        → HoldOfCache (HasNoMinima config) (HasNoNegativeMinima config) (longest_of config) C.finds
        C.misses now old
        → All (BearOut C.finds C.misses C.lacks C.fails C.deep settings config now) asks
        → HoldOfCache (HasNoMinima config) (HasNoNegativeMinima config) (longest_of config) C.finds
        C.misses now new
        × HoldOfReply C.finds C.lacks C.fails q now reply) }
{}

/// The outcome of a question that is answered by rows that stand, or fails for a reason, bears out that answers are whole sets that
/// stood, that negative answers stood, too, and that other errors have a reason.
pub fn answers_that_stood_bear_out()
    ensures { (origin : DomainName) (options : DnsRequestOptions) (history : List Version)
        (failed : List Query) (config : TtlConfigContent) (settings : LookupSettings) (now : ℕ)
        (ask : Ask) → AreZones origin history
        → IsAnsweredBy origin history (record { moment = now; ask = ask })
        → HasReason options failed ask.question ask.outcome
        → BearOut
        (λ q at records. FindsWhole config settings.preserve_intermediates history q at records)
        (λ q at answer. MissesIndeed config settings.preserve_intermediates origin history q at
        answer)
        (λ q at answer. LacksIndeed config settings.preserve_intermediates origin history q at
        answer)
        (λ q at error. FailsIndeed settings.preserve_intermediates origin options history failed q
        at error)
        (λ depth q. IsDeep settings.preserve_intermediates history now depth q) settings config now
        ask }
{
    answers_are_alias_chains();
}

/// Where the outcomes of a lookup of a resolver bear it out, each question has a reply that stood, or an error for a reason, and what is
/// kept stood, too.
pub fn every_resolver_lookup_stands<H: DnsHandle>()
    ensures name { (origin : DomainName) (history : List Version) (now : ℕ)
        (name : Result DomainName ParseError) (kind : RecordType) (old new : Resolver H)
        (reply : Reply)
        → LooksUp old.settings now (asks_of H.gives now old) name kind old.client reply new.client
        → Stands origin history H.gives now old new
        (λ asks. LooksUp old.settings now asks name kind tt reply tt) }
    ensures host { (origin : DomainName) (history : List Version) (now : ℕ)
        (address : Option IpAddr) (name : Result DomainName ParseError) (old new : Resolver H)
        (reply : Reply)
        → LooksUpHost old.settings now (asks_of H.gives now old) address name old.client reply
        new.client
        → Stands origin history H.gives now old new
        (λ asks. LooksUpHost old.settings now asks address name tt reply tt) }
{
    type_number_round_trips();
}

/// A lookup of a name in which claims hold of the reply to each question ends with the reply to the question for a name that it
/// attempts, with what the hosts have for the first of these names, or for want of memory or of names.
///
/// So by [`every_resolver_lookup_stands`] what is found for a name is a whole set that stood, for one of the attempted names, and
/// where nothing is found, one of them has a negative answer that stood.
pub fn names_end_at_a_question<C: WholeClaim>()
    ensures { (settings : Settings) (now : ℕ) (name : DomainName) (kind : RecordType)
        (reply : Reply)
        → LooksUp settings now (ByClaims C.finds C.lacks C.fails now) (Ok name) kind tt reply tt
        → NameEnds C.finds C.lacks C.fails settings now (names_for settings name) (known_type kind)
        reply }
{}

/// What a cache has and what stood, still stood at later moments, in a history that goes on, and after entries are removed.
pub fn caches_keep_what_stood()
    ensures later { (config : TtlConfigContent) (preserves : Bool) (origin : DomainName)
        (history : List Version) (now later : ℕ) (cache : CacheContent) → now ≤ later
        → CacheStands config preserves origin history now cache
        → CacheStands config preserves origin history later cache }
    ensures on { (config : TtlConfigContent) (preserves : Bool) (origin : DomainName)
        (history other : List Version) (now : ℕ) (cache : CacheContent) → GoesOn now history other
        → CacheStands config preserves origin history now cache
        → CacheStands config preserves origin other now cache }
    ensures cleared { (config : TtlConfigContent) (preserves : Bool) (origin : DomainName)
        (history : List Version) (now : ℕ) (cache : CacheContent) (settings : Settings)
        (name : Result DomainName ParseError) (kind : RecordType)
        → CacheStands config preserves origin history now cache
        → CacheStands config preserves origin history now
        (record cache { entries = cleared_lookup settings name kind cache.entries }) }
    ensures empty { (config : TtlConfigContent) (preserves : Bool) (origin : DomainName)
        (history : List Version) (now : ℕ) (cache : CacheContent)
        → CacheStands config preserves origin history now (record cache { entries = [] }) }
{}
