//! Answers that stood: what is returned of them is fresh, and what led to it.

ghost use Rattle.std.specs.Prelude.{◌≡◌, ◌≤◌, ◌++◌, ℕ, List, All, Ok, true};
ghost use Rattle.dns_names.specs.Name.{DomainName};
ghost use Rattle.dns_records.specs.Record.{Record};
ghost use Rattle.dns_records.specs.Rows.{Rows};
ghost use Rattle.dns_messages.specs.declared.query.Query.{Query};
ghost use Rattle.dns_messages.specs.declared.response.DnsResponse.{DnsResponse};
ghost use Rattle.stub_cache.specs.Ttl.{TtlConfigContent};
ghost use Rattle.stub_client.specs.AnswerTypes.{HasAskedTypes};
ghost use Rattle.stub_client.specs.Laws.{HasNoMinimum};
ghost use Rattle.stub_client.specs.Origins.{Asked, IsBrought, IsBroughtClosely};
ghost use Rattle.stub_client.specs.Step.{meaning};
ghost use Rattle.stub_link.specs.LinkState.{LinkState, Version};
ghost use Rattle.stub_laws.specs.history.Answered.{AreOrdinary, AreZones, IsAnsweredBy, greatest_ttl, is_plain};
ghost use Rattle.stub_laws.specs.history.Faithful.{KeepsStanding};
ghost use Rattle.stub_laws.specs.history.Stands.{BeginsNotBefore, HasChainFor, HasShortChains, IsFreshFor, StandAt};

use dns_zone::laws::answers_are_alias_chains;

/// Every record of a plain type with an origin among answers of a zone is fresh, and its owner is reached; or it is a record of
/// the local host, at a special-use name that is reached.
pub fn answers_that_stood_are_fresh()
    ensures { (origin : DomainName) (history : List Version) (asked : List Asked)
        (config : TtlConfigContent) (q : Query) (now : ℕ) (r : Record)
        → AreZones origin history → All (IsAnsweredBy origin history) asked
        → is_plain q.query_type ≡ true → HasNoMinimum config q.query_type
        → IsBrought config asked q now r
        → IsFreshFor history (greatest_ttl config q.query_type) now q.name r }
{
    answers_are_alias_chains();
}

/// Where aliases are left out and no chain in any rows of the history passes seven links, every such record has the chain bound:
/// it stood in the same rows as the aliases that lead to it, and no TTL of theirs is exceeded. Or it is a record of the local host.
///
/// No question for a special-use name was sent.
pub fn answers_that_stood_have_the_chain_bound()
    ensures { (origin : DomainName) (history : List Version) (asked : List Asked)
        (config : TtlConfigContent) (q : Query) (now : ℕ) (r : Record)
        → AreZones origin history → HasShortChains history
        → All (IsAnsweredBy origin history) asked → AreOrdinary asked
        → is_plain q.query_type ≡ true → HasNoMinimum config q.query_type
        → IsBroughtClosely config asked q now r
        → HasChainFor history (greatest_ttl config q.query_type) now q.name r }
{
    answers_are_alias_chains();
}

/// Answers that stood have only records of the type that was asked for, and aliases.
pub fn answers_that_stood_have_asked_types()
    ensures { (origin : DomainName) (history : List Version) (asked : List Asked)
        → AreZones origin history → All (IsAnsweredBy origin history) asked
        → All (λ a. (response : DnsResponse) → meaning a.ask.outcome ≡ Ok response
        → HasAskedTypes a.ask.question response.message) asked }
{
    answers_are_alias_chains();
}

/// What stood at a moment still stands when later versions are added, and so outcomes still hold answers that stood.
pub fn later_versions_keep_what_stood()
    ensures rows { (history more : List Version) (moment : ℕ) (rows : Rows)
        → StandAt history moment rows → BeginsNotBefore moment more
        → StandAt (history ++ more) moment rows }
    ensures outcomes { (origin : DomainName) (old new : LinkState) (asked : Asked)
        → asked.moment ≤ old.moment → KeepsStanding old new
        → IsAnsweredBy origin old.history asked → IsAnsweredBy origin new.history asked }
{}
