//! What lookups of a resolver come to where the outcomes are those of a list of asks.

ghost use Rattle.std.specs.Prelude.{◌≡◌, false, List, ℕ, Option, Result};
ghost use Rattle.std.specs.declared.net.ip_addr.IpAddr.{IpAddr};
ghost use Rattle.dns_wire.specs.declared.codes.record_type.RecordType.{RecordType};
ghost use Rattle.dns_names.specs.Name.{DomainName};
ghost use Rattle.dns_names.specs.declared.error.ParseError.{ParseError};
ghost use Rattle.stub_cache.specs.Cache.{CacheContent};
ghost use Rattle.stub_client.specs.Handle.{Ask};
ghost use Rattle.stub_client.specs.Looks.{Reply};
ghost use Rattle.stub_client.specs.Outcomes.{ComesTo};
ghost use Rattle.stub_client.specs.Conclusions.{CacheComesTo};
ghost use Rattle.stub_client.specs.declared.caching_client.step.LookupSettings.{LookupSettings};
ghost use Rattle.stub_core.specs.Outcomes.{ComesToOutcomes};
ghost use Rattle.stub_core.specs.Resolver.{LooksUp, LooksUpHost, asks_of, cleared_lookup};
ghost use Rattle.stub_core.specs.declared.resolver.Resolver.{Resolver};
ghost use Rattle.stub_core.specs.declared.resolver.settings.Settings.{Settings};

use stub_client::DnsHandle;

/// Where aliases are not preserved, a lookup comes to what its questions come to without a cache.
pub fn every_lookup_comes_to_its_outcomes<H: DnsHandle>()
    ensures name { (now : ℕ) (name : Result DomainName ParseError) (kind : RecordType)
        (old new : Resolver H) (reply : Reply) → old.client.preserve_intermediates ≡ false
        → LooksUp old.settings now (asks_of H.gives now old) name kind old.client reply new.client
        → ComesToOutcomes H.gives now old new
        (λ asks. LooksUp old.settings now asks name kind tt reply tt) }
    ensures host { (now : ℕ) (address : Option IpAddr) (name : Result DomainName ParseError)
        (old new : Resolver H) (reply : Reply) → old.client.preserve_intermediates ≡ false
        → LooksUpHost old.settings now (asks_of H.gives now old) address name old.client
        reply new.client
        → ComesToOutcomes H.gives now old new
        (λ asks. LooksUpHost old.settings now asks address name tt reply tt) }
{}

/// What explains a cache also explains what is left of it after the entries for a lookup are removed.
pub fn every_clear_keeps_outcomes()
    ensures { (settings : Settings) (told : LookupSettings) (asks : List Ask)
        (name : Result DomainName ParseError) (kind : RecordType) (cache : CacheContent)
        → CacheComesTo (ComesTo told asks) cache
        → CacheComesTo (ComesTo told asks)
        (record cache { entries = cleared_lookup settings name kind cache.entries }) }
{}
