//! Where the records that a lookup returns come from.

ghost use Rattle.std.specs.Prelude.{◌≡◌, ◌≤◌, false, List, [], ℕ};
ghost use Rattle.dns_records.specs.Record.{Record};
ghost use Rattle.dns_messages.specs.declared.query.Query.{Query};
ghost use Rattle.stub_cache.specs.Cache.{CacheContent};
ghost use Rattle.stub_cache.specs.Ttl.{TtlConfigContent};
ghost use Rattle.stub_client.specs.AnswerTypes.{CacheHasAskedTypes, HasAskedTypes, ReplyHasAskedTypes};
ghost use Rattle.stub_client.specs.Laws.{EachReply, EveryLookup, HasNoMinimum};
ghost use Rattle.stub_client.specs.Origins.{Asked, CacheIsBrought, CacheIsBroughtClosely, IsBrought, IsBroughtClosely, IsPartOf, ReplyIsBrought, ReplyIsBroughtClosely, asked_at};
ghost use Rattle.stub_client.specs.SpecialNames.{special_answer};
ghost use Rattle.stub_client.specs.declared.special_names.SpecialAnswer.TheVariants.{Loopback};

use dns_wire::codes::laws::type_number_round_trips;

/// Every record of the requested type that a lookup returns or stores comes from a response to one of the questions asked so
/// far, or is that of the local host.
///
/// Its origin names the response, the moment at which it came, and the responses whose aliases led there. The history may
/// be that of any lookups up to this one.
pub fn every_record_is_brought()
    ensures { (history : List Asked) → EveryLookup (λ settings now old q asks reply new.
        HasNoMinimum old.config q.query_type → IsPartOf (asked_at now asks) history
        → CacheIsBrought old.config history now old
        → CacheIsBrought old.config history now new
        × ReplyIsBrought old.config history q now reply) }
{}

/// If aliases are not preserved, the TTL of a record is also bounded by those of the aliases in the response that brought it.
pub fn every_record_is_brought_closely()
    ensures { (history : List Asked) → EveryLookup (λ settings now old q asks reply new.
        settings.preserve_intermediates ≡ false
        → HasNoMinimum old.config q.query_type → IsPartOf (asked_at now asks) history
        → CacheIsBroughtClosely old.config history now old
        → CacheIsBroughtClosely old.config history now new
        × ReplyIsBroughtClosely old.config history q now reply) }
{}

/// The origin of a record remains valid after further questions, and those of a cache at every later moment.
pub fn later_questions_keep()
    ensures records { (config : TtlConfigContent) (history all : List Asked) (q : Query) (now : ℕ)
        (r : Record) → IsPartOf history all
        → IsBrought config history q now r → IsBrought config all q now r }
    ensures caches { (config : TtlConfigContent) (history all : List Asked) (now later : ℕ)
        (cache : CacheContent) → IsPartOf history all → now ≤ later
        → CacheIsBrought config history now cache
        → CacheIsBrought config all later cache }
{}

/// [`later_questions_keep`] for origins with the least TTL of the aliases.
pub fn later_questions_keep_closely()
    ensures records { (config : TtlConfigContent) (history all : List Asked) (q : Query) (now : ℕ)
        (r : Record) → IsPartOf history all
        → IsBroughtClosely config history q now r → IsBroughtClosely config all q now r }
    ensures caches { (config : TtlConfigContent) (history all : List Asked) (now later : ℕ)
        (cache : CacheContent) → IsPartOf history all → now ≤ later
        → CacheIsBroughtClosely config history now cache
        → CacheIsBroughtClosely config all later cache }
{}

/// If nothing was asked, only records of the local host have an origin, with no more than their own TTL.
pub fn nothing_is_brought_without_questions()
    ensures { (config : TtlConfigContent) (q : Query) (now : ℕ) (r : Record)
        → IsBrought config [] q now r
        → (p : Query) × (first : Record) × (special_answer p ≡ Loopback first)
        × (r ≡ record first { ttl = r.ttl }) × (r.ttl ≤ first.ttl) }
{}

/// If every response has only answers of the requested type and aliases, so have the reply and the cache.
pub fn every_answer_has_an_asked_type()
    ensures { EveryLookup (λ settings now old q asks reply new.
        CacheHasAskedTypes old → EachReply HasAskedTypes asks
        → CacheHasAskedTypes new × ReplyHasAskedTypes q reply) }
{
    type_number_round_trips();
}
