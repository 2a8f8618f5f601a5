//! Theorems about the definitions of this crate, as functions with empty bodies.

ghost use Rattle.std.specs.Prelude.{◌≡◌, ◌≢◌, ◌≤◌, ◌↔◌, ℕ, true, false, length};
ghost use Rattle.dns_wire.specs.codes.RecordType.{type_number};
ghost use Rattle.dns_wire.specs.declared.codes.record_type.RecordType.{RecordType};
ghost use Rattle.dns_messages.specs.declared.message.Message.{Message};
ghost use Rattle.dns_messages.specs.declared.query.Query.{Query};
ghost use Rattle.stub_cache.specs.Cache.{CacheContent, Kept, storing};
ghost use Rattle.stub_cache.specs.Ttl.{TtlConfigContent, TtlRange, bounds_of, clamp, clamped, config_with, is_reversed};
ghost use Rattle.stub_cache.specs.TtlEquality.{same_config};
ghost use Rattle.stub_cache.specs.declared.ttl.TtlBounds.{TtlBounds};

/// A TTL is brought between the minimum and the maximum, if these are in order. One that is between them is not changed.
pub fn ttls_are_within_bounds()
    ensures minimum { (range : TtlRange) (ttl : ℕ)
        → is_reversed range ≡ false → range.least ≤ clamp range ttl }
    ensures maximum { (range : TtlRange) (ttl : ℕ) → clamp range ttl ≤ range.greatest }
    ensures unchanged { (range : TtlRange) (ttl : ℕ)
        → range.least ≤ ttl → ttl ≤ range.greatest → clamp range ttl ≡ ttl }
{}

/// Setting the bounds of a type changes those of no type with another number.
pub fn bounds_are_set_by_type()
    ensures own { (config : TtlConfigContent) (kind : RecordType) (bounds : TtlBounds)
        → bounds_of (config_with config kind bounds) kind ≡ bounds }
    ensures others { (config : TtlConfigContent) (kind other : RecordType) (bounds : TtlBounds)
        → type_number other ≢ type_number kind
        → bounds_of (config_with config kind bounds) other ≡ bounds_of config other }
{}

/// Bringing the TTLs of a message within their bounds a second time changes nothing.
pub fn clamping_is_idempotent()
    ensures { (config : TtlConfigContent) (m : Message)
        → clamped config (clamped config m) ≡ clamped config m }
{}

/// Configurations compare equal exactly if they have the same default bounds, and the same bounds for the same types.
pub fn equal_configs_have_the_same_bounds()
    ensures { (config other : TtlConfigContent)
        → (same_config config other ≡ true) ↔ (config ≡ other) }
{}

/// A cache that has as many entries as its capacity at the most still does after an insertion.
pub fn capacity_is_never_exceeded()
    ensures { (cache : CacheContent) (q : Query) (kept : Kept) (now : ℕ)
        → length cache.entries ≤ cache.capacity
        → length (storing cache q kept now).entries ≤ cache.capacity }
{}
