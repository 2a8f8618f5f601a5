//! What lookups make of the outcomes of what they ask.

ghost use Rattle.std.specs.Prelude.{◌≡◌, ◌≢◌, ◌++◌, false, List, [], ◌∷◌, ℕ, Ok, Err};
ghost use Rattle.dns_messages.specs.declared.query.Query.{Query};
ghost use Rattle.dns_messages.specs.declared.response.DnsResponse.{DnsResponse};
ghost use Rattle.stub_lookup.specs.declared.error.NetError.{NetError};
ghost use Rattle.stub_lookup.specs.declared.error.NetError.TheVariants.{Memory};
ghost use Rattle.stub_cache.specs.Cache.{CacheContent};
ghost use Rattle.stub_client.specs.Handle.{Ask, Outcome};
ghost use Rattle.stub_client.specs.Laws.{EveryLookup, IsFailure};
ghost use Rattle.stub_client.specs.Looks.{Looks, Reply, out_of_memory};
ghost use Rattle.stub_client.specs.Outcomes.{AnswersAtOnce, AreAmong, AreFirst, ChainsEnd, ComesTo, EndsInError, Leads};
ghost use Rattle.stub_client.specs.Conclusions.{CacheComesTo, Conclusion, ReplyComesTo};
ghost use Rattle.stub_client.specs.Step.{meaning};
ghost use Rattle.stub_client.specs.declared.caching_client.step.LookupSettings.{LookupSettings};

/// Where aliases are not preserved, a lookup keeps and returns what its question comes to without a cache.
///
/// The outcomes are those of any asks that include those of the lookup and explain what the cache has, such as those
/// of the lookup and of all earlier ones. No chain of aliases in those of the lookup may be longer than is followed.
pub fn every_lookup_comes_to_its_outcomes()
    ensures among { (all : List Ask) → EveryLookup (λ settings now old q asks reply new.
        settings.preserve_intermediates ≡ false → ChainsEnd settings asks → AreAmong asks all
        → CacheComesTo (ComesTo settings all) old
        → CacheComesTo (ComesTo settings all) new × ReplyComesTo (ComesTo settings all) q reply) }
    ensures added { (earlier : List Ask) → EveryLookup (λ settings now old q asks reply new.
        settings.preserve_intermediates ≡ false → ChainsEnd settings asks
        → CacheComesTo (ComesTo settings earlier) old
        → CacheComesTo (ComesTo settings (asks ++ earlier)) new
        × ReplyComesTo (ComesTo settings (asks ++ earlier)) q reply) }
{}

/// With more asks, questions come to what they came to before, and so does what a cache has.
pub fn outcomes_are_only_added()
    ensures question { (settings : LookupSettings) (asks more : List Ask) (q : Query)
        (conclusion : Conclusion) → AreAmong asks more → ComesTo settings asks q conclusion
        → ComesTo settings more q conclusion }
    ensures cache { (settings : LookupSettings) (asks more : List Ask) (cache : CacheContent)
        → AreAmong asks more → CacheComesTo (ComesTo settings asks) cache
        → CacheComesTo (ComesTo settings more) cache }
    ensures chain { (settings : LookupSettings) (asks more : List Ask) (first last : Query)
        (links : ℕ) → AreAmong asks more → Leads settings asks first links last
        → Leads settings more first links last }
{}

/// An error that a lookup returns, other than a negative answer or want of memory, is what its last outcome means.
pub fn every_error_is_an_outcome()
    ensures { EveryLookup (λ settings now old q asks reply new.
        (error : NetError) → reply ≡ Err error → IsFailure error → error ≢ Memory
        → EndsInError asks error) }
{}

/// Lookups of a question with the same cache, settings and moment agree if they draw on the same list of outcomes.
///
/// They ask the same questions, and have the same reply and the same cache, unless one of them runs out of memory.
pub fn lookups_agree()
    ensures { (settings : LookupSettings) (now : ℕ) (old : CacheContent) (q : Query)
        (outcomes : List Outcome) (asks others : List Ask) (reply answer : Reply)
        (new next : CacheContent)
        → Looks settings now 0 [] old q asks reply new
        → Looks settings now 0 [] old q others answer next
        → AreFirst outcomes asks → AreFirst outcomes others
        → reply ≢ out_of_memory → answer ≢ out_of_memory
        → (asks ≡ others) × (reply ≡ answer) × (new ≡ next) }
{}

/// A lookup whose first reply holds a record for the question, at the end of the aliases, asks no other question.
pub fn one_question_is_enough()
    ensures { EveryLookup (λ settings now old q asks reply new.
        (first : Ask) (others : List Ask) (response : DnsResponse) → asks ≡ first ∷ others
        → meaning first.outcome ≡ Ok response → AnswersAtOnce q response.message
        → others ≡ []) }
{}
