//! Where the records that a resolver returns come from.

ghost use Rattle.std.specs.Prelude.{◌≡◌, ◌≤◌, false, List, [], ℕ, Option, Result};
ghost use Rattle.std.specs.declared.net.ip_addr.IpAddr.{IpAddr};
ghost use Rattle.dns_wire.specs.declared.codes.record_type.RecordType.{RecordType};
ghost use Rattle.dns_names.specs.Name.{DomainName};
ghost use Rattle.dns_names.specs.declared.error.ParseError.{ParseError};
ghost use Rattle.stub_cache.specs.Cache.{CacheContent};
ghost use Rattle.stub_cache.specs.Ttl.{TtlConfigContent};
ghost use Rattle.stub_client.specs.Looks.{Reply};
ghost use Rattle.stub_client.specs.Origins.{Asked, IsBrought, IsBroughtClosely, IsPartOf};
ghost use Rattle.stub_core.specs.Origins.{AreTyped, CacheIsFrom, ComesFrom, HasNoMinima, HostIsFrom, NameIsFrom};
ghost use Rattle.stub_core.specs.Resolver.{LooksUpHost, ResolvesName, asks_of, cleared_lookup};
ghost use Rattle.stub_core.specs.declared.resolver.Resolver.{Resolver};
ghost use Rattle.stub_core.specs.declared.resolver.settings.Settings.{Settings};

use dns_wire::codes::laws::type_number_round_trips;
use stub_client::DnsHandle;

/// Every answer of the requested type of a lookup of a name has an origin among the questions asked, or comes from the hosts.
///
/// If aliases are not preserved, its TTL is also bounded by those of the aliases in the response that brought it.
pub fn every_answer_has_an_origin<H: DnsHandle>()
    ensures any { (now : ℕ) (name : Result DomainName ParseError) (kind : RecordType)
        (old new : Resolver H) (reply : Reply) → HasNoMinima old.client.cache.config
        → ResolvesName H.gives now name kind old reply new
        → ComesFrom (IsBrought old.client.cache.config) H.gives now old new (λ history.
        NameIsFrom (IsBrought old.client.cache.config history) old.settings now name kind reply) }
    ensures close { (now : ℕ) (name : Result DomainName ParseError) (kind : RecordType)
        (old new : Resolver H) (reply : Reply) → HasNoMinima old.client.cache.config
        → old.client.preserve_intermediates ≡ false
        → ResolvesName H.gives now name kind old reply new
        → ComesFrom (IsBroughtClosely old.client.cache.config) H.gives now old new (λ history.
        NameIsFrom (IsBroughtClosely old.client.cache.config history) old.settings now name
        kind reply) }
{
    type_number_round_trips();
}

/// Every address that a lookup of a host returns has an origin among the questions asked, comes from the hosts, or is a
/// literal address, provided that every response has only answers of the requested type and aliases.
///
/// If aliases are not preserved, its TTL is also bounded by those of the aliases in the response that brought it.
pub fn every_address_has_an_origin<H: DnsHandle>()
    ensures any { (now : ℕ) (address : Option IpAddr) (name : Result DomainName ParseError)
        (old new : Resolver H) (reply : Reply) → HasNoMinima old.client.cache.config
        → LooksUpHost old.settings now (asks_of H.gives now old) address name old.client reply
        new.client
        → ComesFrom (IsBrought old.client.cache.config) H.gives now old new (λ history.
        AreTyped history → HostIsFrom (IsBrought old.client.cache.config history) old.settings
        now address name reply) }
    ensures close { (now : ℕ) (address : Option IpAddr) (name : Result DomainName ParseError)
        (old new : Resolver H) (reply : Reply) → HasNoMinima old.client.cache.config
        → old.client.preserve_intermediates ≡ false
        → LooksUpHost old.settings now (asks_of H.gives now old) address name old.client reply
        new.client
        → ComesFrom (IsBroughtClosely old.client.cache.config) H.gives now old new (λ history.
        AreTyped history → HostIsFrom (IsBroughtClosely old.client.cache.config history)
        old.settings now address name reply) }
{
    type_number_round_trips();
}

/// The origins of what a cache has remain valid after further questions and at every later moment.
pub fn later_events_keep_origins()
    ensures any { (config : TtlConfigContent) (history all : List Asked) (now later : ℕ)
        (cache : CacheContent) → IsPartOf history all → now ≤ later
        → CacheIsFrom (IsBrought config) history now cache
        → CacheIsFrom (IsBrought config) all later cache }
    ensures close { (config : TtlConfigContent) (history all : List Asked) (now later : ℕ)
        (cache : CacheContent) → IsPartOf history all → now ≤ later
        → CacheIsFrom (IsBroughtClosely config) history now cache
        → CacheIsFrom (IsBroughtClosely config) all later cache }
{}

/// What is left of a cache after its entries for a lookup, or all of them, are removed has the same origins.
pub fn clears_keep_origins()
    ensures any { (config : TtlConfigContent) (history : List Asked) (now : ℕ)
        (cache : CacheContent) (settings : Settings) (name : Result DomainName ParseError)
        (kind : RecordType) → CacheIsFrom (IsBrought config) history now cache
        → CacheIsFrom (IsBrought config) history now (record cache {
          entries = cleared_lookup settings name kind cache.entries;
        }) }
    ensures close { (config : TtlConfigContent) (history : List Asked) (now : ℕ)
        (cache : CacheContent) (settings : Settings) (name : Result DomainName ParseError)
        (kind : RecordType) → CacheIsFrom (IsBroughtClosely config) history now cache
        → CacheIsFrom (IsBroughtClosely config) history now (record cache {
          entries = cleared_lookup settings name kind cache.entries;
        }) }
    ensures empty { (config : TtlConfigContent) (history : List Asked) (now : ℕ)
        (cache : CacheContent)
        → CacheIsFrom (IsBrought config) history now (record cache { entries = [] }) }
    ensures empty_close { (config : TtlConfigContent) (history : List Asked) (now : ℕ)
        (cache : CacheContent)
        → CacheIsFrom (IsBroughtClosely config) history now (record cache { entries = [] }) }
{}
