//! Lookups that are walks over the same zone agree with each other.

ghost use Rattle.std.specs.Prelude.{ℕ, Option, Result};
ghost use Rattle.std.specs.declared.net.ip_addr.IpAddr.{IpAddr};
ghost use Rattle.dns_wire.specs.declared.codes.record_type.RecordType.{RecordType};
ghost use Rattle.dns_names.specs.Name.{DomainName};
ghost use Rattle.dns_names.specs.declared.error.ParseError.{ParseError};
ghost use Rattle.dns_zone.specs.Rows.{ZoneContent};
ghost use Rattle.stub_client.specs.Looks.{Reply};
ghost use Rattle.stub_core.specs.Resolver.{LooksUp, LooksUpHost};
ghost use Rattle.stub_core.specs.declared.resolver.settings.Settings.{Settings};
ghost use Rattle.stub_laws.specs.walk.Agreement.{Agree};
ghost use Rattle.stub_laws.specs.walk.Walk.{ByWalk};

/// Two lookups of the same name, or of the same host, over the same zone have the same records or the same failure, TTLs aside,
/// unless memory runs out. Their moments do not matter, and nothing else does: neither caches, nor datagrams, nor ids.
pub fn walked_lookups_agree()
    ensures name { (zone : ZoneContent) (settings : Settings) (now later : ℕ)
        (name : Result DomainName ParseError) (kind : RecordType) (one other : Reply)
        → LooksUp settings now (ByWalk zone) name kind tt one tt
        → LooksUp settings later (ByWalk zone) name kind tt other tt → Agree one other }
    ensures host { (zone : ZoneContent) (settings : Settings) (now later : ℕ)
        (address : Option IpAddr) (name : Result DomainName ParseError) (one other : Reply)
        → LooksUpHost settings now (ByWalk zone) address name tt one tt
        → LooksUpHost settings later (ByWalk zone) address name tt other tt → Agree one other }
{}
