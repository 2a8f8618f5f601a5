//! What every answer of a lookup comes from, of whatever type it is.

ghost use Rattle.std.specs.Prelude.{◌≡◌, ◌≤◌, ℕ, Bool, List, [], All, Option, Result};
ghost use Rattle.std.specs.declared.net.ip_addr.IpAddr.{IpAddr};
ghost use Rattle.dns_wire.specs.declared.codes.record_type.RecordType.{RecordType};
ghost use Rattle.dns_names.specs.Name.{DomainName};
ghost use Rattle.dns_names.specs.declared.error.ParseError.{ParseError};
ghost use Rattle.stub_cache.specs.Cache.{CacheContent};
ghost use Rattle.stub_cache.specs.Ttl.{TtlConfigContent};
ghost use Rattle.stub_client.specs.Handle.{Ask};
ghost use Rattle.stub_client.specs.Laws.{EveryLookup};
ghost use Rattle.stub_client.specs.Looks.{Reply};
ghost use Rattle.stub_core.specs.Origins.{EachAnswer};
ghost use Rattle.stub_core.specs.Resolver.{LooksUp, LooksUpHost, asks_of, cleared_lookup};
ghost use Rattle.stub_core.specs.declared.resolver.Resolver.{Resolver};
ghost use Rattle.stub_core.specs.declared.resolver.settings.Settings.{Settings};
ghost use Rattle.stub_link.specs.LinkState.{Version};
ghost use Rattle.stub_laws.specs.history.Answered.{AreZones, IsAnsweredBy};
ghost use Rattle.stub_laws.specs.answers.Lookups.{GoesOn};
ghost use Rattle.stub_laws.specs.answers.Sources.{CacheHasSources, EachReceived, EntryHasSources, HasSource, IsRowNow, KeepsSources};

use dns_zone::laws::answers_are_alias_chains;
use stub_client::DnsHandle;

/// Every lookup of a client keeps sources: where each record that it receives is a row, each answer of what it keeps and returns was one,
/// or is of the local host, whatever its type, the bounds of TTLs, and whether aliases are left out or preserved.
pub fn every_lookup_keeps_sources()
    ensures { (config : TtlConfigContent) (history : List Version)
        → EveryLookup (λ settings now old q asks reply new.
        old.config ≡ config → EachReceived (IsRowNow history now) asks
        → All (EntryHasSources config history now) old.entries
        → All (EntryHasSources config history now) new.entries
        × EachAnswer (HasSource config history now) reply) }
{}

/// Where each response of a lookup of a resolver holds what the zone answers by rows that stand, each of its answers was a row, or is of
/// the local host: of any type, by any bounds of TTLs, and whether aliases are left out or preserved. Those of a plain type that was asked
/// for are recent.
pub fn every_answer_has_a_source<H: DnsHandle>()
    ensures name { (origin : DomainName) (history : List Version) (now : ℕ)
        (name : Result DomainName ParseError) (kind : RecordType) (old new : Resolver H)
        (reply : Reply)
        → LooksUp old.settings now (asks_of H.gives now old) name kind old.client reply new.client
        → KeepsSources origin history H.gives now old new
        (λ asks. LooksUp old.settings now asks name kind tt reply tt) }
    ensures host { (origin : DomainName) (history : List Version) (now : ℕ)
        (address : Option IpAddr) (name : Result DomainName ParseError) (old new : Resolver H)
        (reply : Reply)
        → LooksUpHost old.settings now (asks_of H.gives now old) address name old.client reply
        new.client
        → KeepsSources origin history H.gives now old new
        (λ asks. LooksUpHost old.settings now asks address name tt reply tt) }
{
    answers_are_alias_chains();
}

/// Each record of a response that holds what the zone answers by rows that stand is one of these rows.
pub fn answers_that_stood_are_rows()
    ensures { (origin : DomainName) (history : List Version) (now : ℕ) (asks : List Ask)
        → AreZones origin history
        → All (λ ask. IsAnsweredBy origin history (record { moment = now; ask = ask })) asks
        → EachReceived (IsRowNow history now) asks }
{
    answers_are_alias_chains();
}

/// What a cache has still has its sources at later moments, in a history that goes on, and after entries are removed.
pub fn caches_keep_sources()
    ensures later { (config : TtlConfigContent) (preserves : Bool) (history : List Version)
        (now later : ℕ) (cache : CacheContent) → now ≤ later
        → CacheHasSources config preserves history now cache
        → CacheHasSources config preserves history later cache }
    ensures on { (config : TtlConfigContent) (preserves : Bool) (history other : List Version)
        (now : ℕ) (cache : CacheContent) → GoesOn now history other
        → CacheHasSources config preserves history now cache
        → CacheHasSources config preserves other now cache }
    ensures cleared { (config : TtlConfigContent) (preserves : Bool) (history : List Version)
        (now : ℕ) (cache : CacheContent) (settings : Settings)
        (name : Result DomainName ParseError) (kind : RecordType)
        → CacheHasSources config preserves history now cache
        → CacheHasSources config preserves history now
        (record cache { entries = cleared_lookup settings name kind cache.entries }) }
    ensures empty { (config : TtlConfigContent) (preserves : Bool) (history : List Version)
        (now : ℕ) (cache : CacheContent)
        → CacheHasSources config preserves history now (record cache { entries = [] }) }
{}
