//! Walks are functions of a zone, a name and a type.

ghost use Rattle.std.specs.Prelude.{◌≡◌, true, ℕ};
ghost use Rattle.dns_wire.specs.codes.RecordType.{type_number};
ghost use Rattle.dns_wire.specs.declared.codes.record_type.RecordType.{RecordType};
ghost use Rattle.dns_names.specs.Compare.{same_name};
ghost use Rattle.dns_names.specs.Name.{DomainName};
ghost use Rattle.dns_zone.specs.Rows.{IsZone, ZoneContent};
ghost use Rattle.stub_client.specs.Conclusions.{Conclusion};
ghost use Rattle.stub_laws.specs.walk.Walk.{IsDirect, Walk, walks_everywhere};

/// Each name of a zone comes to exactly one conclusion.
pub fn walks_are_functions()
    ensures same { (zone : ZoneContent) (kind : RecordType) (budget : ℕ) (name : DomainName)
        (one other : Conclusion) → Walk zone kind budget name one
        → Walk zone kind budget name other → one ≡ other }
    ensures exists { (zone : ZoneContent) (kind : RecordType) (budget : ℕ) (name : DomainName)
        → IsZone zone → (conclusion : Conclusion) × Walk zone kind budget name conclusion }
{}

/// Names that differ in ASCII case alone come to the same, and so do types of the same number.
pub fn walks_ignore_spelling()
    ensures { (zone : ZoneContent) (one other : RecordType) (budget : ℕ) (from to : DomainName)
        (conclusion : Conclusion) → type_number one ≡ type_number other
        → same_name from to ≡ true → Walk zone one budget from conclusion
        → Walk zone other budget to conclusion }
{}

/// A lookup of a plain type, or of aliases, walks from every name.
pub fn other_lookups_walk_everywhere()
    ensures { (zone : ZoneContent) (kind : RecordType) (name : DomainName)
        → walks_everywhere kind ≡ true → IsDirect zone kind name }
{}
