//! Lookups over a zone that does not change agree with walks, whatever is cached.

ghost use Rattle.std.specs.Prelude.{◌≡◌, false, All, [], ℕ, Option, Result};
ghost use Rattle.std.specs.declared.net.ip_addr.IpAddr.{IpAddr};
ghost use Rattle.dns_wire.specs.codes.DNSClass.{class_number};
ghost use Rattle.dns_wire.specs.codes.RecordType.{type_number};
ghost use Rattle.dns_wire.specs.declared.codes.record_type.RecordType.{RecordType};
ghost use Rattle.dns_names.specs.Name.{DomainName};
ghost use Rattle.dns_names.specs.declared.error.ParseError.{ParseError};
ghost use Rattle.dns_zone.specs.Answer.{is_no_row_type};
ghost use Rattle.dns_zone.specs.Rows.{IsZone, ZoneContent};
ghost use Rattle.stub_cache.specs.Cache.{CacheContent};
ghost use Rattle.stub_client.specs.Laws.{EveryLookup};
ghost use Rattle.stub_client.specs.Looks.{Reply};
ghost use Rattle.stub_core.specs.Origins.{names_of};
ghost use Rattle.stub_core.specs.Resolver.{LooksUp, LooksUpHost, asks_of, cleared_lookup};
ghost use Rattle.stub_core.specs.declared.resolver.Resolver.{Resolver};
ghost use Rattle.stub_core.specs.declared.resolver.settings.Settings.{Settings};
ghost use Rattle.stub_laws.specs.walk.Answered.{ComesToWalk, HasShortAliases, HaveNoFault, IsAsked, IsWalkedLookup};
ghost use Rattle.stub_laws.specs.walk.Walk.{AreShortAt, ByWalk, CacheAgrees, HasShortAliasesAt, HasShortAliasesIn, IsDirect, IsWalked};

use stub_client::DnsHandle;

/// Where a zone answers the questions of a lookup of a client, what is kept still agrees with walks over the zone. If the link met
/// no fault, the reply to a question of a type that rows may have is what its walk comes to, if a lookup of this type walks from the name
/// and no chain of aliases through the name passes seven links.
pub fn every_lookup_agrees_with_walks()
    ensures { (zone : ZoneContent) → IsZone zone
        → EveryLookup (λ settings now old q asks reply new.
        settings.preserve_intermediates ≡ false → All (IsAsked zone) asks
        → CacheAgrees zone old → CacheAgrees zone new
        × (HaveNoFault asks → is_no_row_type (type_number q.query_type) ≡ false
        → class_number q.query_class ≡ 1 → IsDirect zone q.query_type q.name
        → HasShortAliasesIn zone q.query_type q.name → IsWalked zone q reply)) }
{}

/// Where a zone answers the questions of a lookup of a resolver, and the link met no fault, the lookup comes to what walks over the
/// zone come to, if no chain of aliases through an attempted name passes seven links: for each attempted name, and for each type of
/// addresses. What is kept does not matter, as long as it agrees with walks, too.
pub fn every_resolver_lookup_comes_to_walks<H: DnsHandle>()
    ensures name { (zone : ZoneContent) → IsZone zone → (now : ℕ)
        (name : Result DomainName ParseError) (kind : RecordType) (old new : Resolver H)
        (reply : Reply) → old.client.preserve_intermediates ≡ false
        → LooksUp old.settings now (asks_of H.gives now old) name kind old.client reply new.client
        → ComesToWalk zone H.gives now old new
        (AreShortAt zone (names_of old.settings name)
        → IsWalkedLookup zone old.settings now name kind reply) }
    ensures host { (zone : ZoneContent) → IsZone zone → (now : ℕ)
        (address : Option IpAddr) (name : Result DomainName ParseError) (old new : Resolver H)
        (reply : Reply) → old.client.preserve_intermediates ≡ false
        → LooksUpHost old.settings now (asks_of H.gives now old) address name old.client
        reply new.client
        → ComesToWalk zone H.gives now old new
        (AreShortAt zone (names_of old.settings name)
        → LooksUpHost old.settings now (ByWalk zone) address name tt reply tt) }
{}

/// If no chain of aliases in a zone passes seven links, none through any name does.
pub fn short_aliases_are_short_at_each_name()
    ensures { (zone : ZoneContent) → HasShortAliases zone → (name : DomainName)
        → HasShortAliasesAt zone name }
{}

/// What is left of a cache after its entries for a lookup, or all of them, are removed agrees with walks if it did before. An empty
/// cache does.
pub fn clears_keep_agreement()
    ensures name { (zone : ZoneContent) (cache : CacheContent) (settings : Settings)
        (name : Result DomainName ParseError) (kind : RecordType) → CacheAgrees zone cache
        → CacheAgrees zone
        (record cache { entries = cleared_lookup settings name kind cache.entries }) }
    ensures all { (zone : ZoneContent) (cache : CacheContent)
        → CacheAgrees zone (record cache { entries = [] }) }
{}
