//! What every lookup of a client keeps, over any handle.
//!
//! The laws are functions with an empty body. Their contracts state what holds of any lookup, by the relation that is the
//! contract of [`CachingClient::lookup`](crate::CachingClient::lookup), and of any claim about what is returned.

mod origins;
mod outcomes;

ghost use Rattle.std.specs.Prelude.{◌≡◌, ◌≤◌, ◌++◌, false, List, [], ◌∷◌, length, ℕ, Err};
ghost use Rattle.stub_lookup.specs.declared.error.NetError.{NetError};
ghost use Rattle.stub_cache.specs.Cache.{CacheContent};
ghost use Rattle.stub_client.specs.Handle.{Ask};
ghost use Rattle.stub_client.specs.Laws.{BearsOut, BearsOutClosely, EachReply, EveryLookup, HasNoMinimum, HoldsOfCache, HoldsOfLoopback, HoldsOfReply, IsFailure, Outlasts};
ghost use Rattle.stub_client.specs.Conclusions.{AsksComeTo, CacheComesTo, HasSpecialNames, ReplyComesTo, Respells};
ghost use Rattle.stub_client.specs.Step.{meaning};

pub use origins::{
    every_answer_has_an_asked_type, every_record_is_brought, every_record_is_brought_closely,
    later_questions_keep, later_questions_keep_closely, nothing_is_brought_without_questions,
};
pub use outcomes::{
    every_error_is_an_outcome, every_lookup_comes_to_its_outcomes, lookups_agree,
    one_question_is_enough, outcomes_are_only_added,
};

/// A claim about the records that are returned for a question at a moment.
pub trait Claim {
    ghost use Rattle.std.specs.Prelude.{ℕ};
    ghost use Rattle.dns_records.specs.Record.{Record};
    ghost use Rattle.dns_messages.specs.declared.query.Query.{Query};

    /// A record may be returned for a question at a moment.
    ghost holds: { Query → ℕ → Record → Type 0 };
}

/// A claim about what questions come to.
pub trait Conclusions {
    ghost use Rattle.std.specs.Prelude.{ℕ};
    ghost use Rattle.dns_messages.specs.declared.query.Query.{Query};
    ghost use Rattle.stub_client.specs.Conclusions.{Conclusion};

    /// A question may come to this conclusion.
    ghost comes_to: { Query → Conclusion → Type 0 };

    /// From a depth of aliases, those that lead on from a question end in time.
    ghost within: { ℕ → Query → Type 0 };
}

/// Every lookup keeps a claim that outlasts the cache and that the replies bear out.
///
/// The claim then holds of what the cache has, and of each answer of the type that was asked for.
pub fn every_lookup_keeps<C: Claim>()
    ensures { Outlasts C.holds → HoldsOfLoopback C.holds
        → EveryLookup (λ settings now old q asks reply new.
        HasNoMinimum old.config q.query_type → HoldsOfCache C.holds now old
        → EachReply (BearsOut C.holds old.config now) asks
        → HoldsOfCache C.holds now new × HoldsOfReply C.holds q now reply) }
{}

/// Where aliases are not preserved, every lookup keeps a claim that the replies bear out for what is returned alone.
pub fn every_lookup_keeps_closely<C: Claim>()
    ensures { Outlasts C.holds → HoldsOfLoopback C.holds
        → EveryLookup (λ settings now old q asks reply new.
        settings.preserve_intermediates ≡ false
        → HasNoMinimum old.config q.query_type → HoldsOfCache C.holds now old
        → EachReply (BearsOutClosely C.holds settings old.config now) asks
        → HoldsOfCache C.holds now new × HoldsOfReply C.holds q now reply) }
{}

/// A claim that holds of what a cache has at a moment holds of it at every later moment, so lookups one after another keep it.
pub fn every_later_moment_keeps<C: Claim>()
    ensures { (now later : ℕ) (cache : CacheContent) → now ≤ later
        → HoldsOfCache C.holds now cache → HoldsOfCache C.holds later cache }
{}

/// Where aliases are not preserved, every lookup comes to what the steps bear out, TTLs aside.
pub fn every_lookup_walks<R: Conclusions>()
    ensures { Respells R.comes_to → HasSpecialNames R.comes_to
        → EveryLookup (λ settings now old q asks reply new.
        settings.preserve_intermediates ≡ false
        → R.within 0 q → CacheComesTo R.comes_to old
        → AsksComeTo R.comes_to R.within settings asks
        → CacheComesTo R.comes_to new × ReplyComesTo R.comes_to q reply) }
{}

/// A lookup asks at most eight questions.
pub fn every_lookup_ends()
    ensures { EveryLookup (λ settings now old q asks reply new. length asks ≤ 8) }
{}

/// A lookup changes neither the capacity of the cache nor its bounds of TTLs.
pub fn every_lookup_keeps_the_bounds()
    ensures { EveryLookup (λ settings now old q asks reply new.
        (new.capacity ≡ old.capacity) × (new.config ≡ old.config)) }
{}

/// If the last reply is an error other than a negative answer, the lookup returns it and leaves the cache as it was.
pub fn every_failure_is_returned()
    ensures { EveryLookup (λ settings now old q asks reply new.
        (earlier : List Ask) (last : Ask) (error : NetError) → asks ≡ earlier ++ last ∷ []
        → meaning last.outcome ≡ Err error → IsFailure error
        → (reply ≡ Err error) × (new ≡ old)) }
{}
