//! Bounds of TTLs.

ghost use Rattle.std.specs.Prelude.{◌≡◌, IsOk, IsSome, OnOk, OnErr};

use dns_wire::RecordType;
use std::alloc::{AllocError, Global};
use std::collections::BTreeMap;
use std::marker::Model;
use std::ops::RangeInclusive;
use stub_config::ResolverOpts;
use stub_lookup::MAX_TTL;
use thiserror::Error;

/// Why bounds of TTLs are refused.
#[derive(Clone, Copy, Debug, PartialEq, Eq, Drop, Error)]
pub enum TtlBoundsError {
    /// A minimum is above its maximum, after a minimum that is not set is taken as 0 and a maximum as one day.
    #[error("minimum TTL is above the maximum TTL")]
    MinimumAboveMaximum,
}

/// The minimum and maximum TTLs of answers and of negative answers, in seconds (RFC 2181 section 8, RFC 2308 section 5).
///
/// A minimum that is not set is 0, and a maximum that is not set is [`MAX_TTL`].
#[derive(Clone, Copy, Debug, PartialEq, Eq)]
pub struct TtlBounds {
    positive_min: Option<u32>,
    negative_min: Option<u32>,
    positive_max: Option<u32>,
    negative_max: Option<u32>,
}

impl Default for TtlBounds {
    ghost use Rattle.std.specs.Prelude.{◌≡◌};
    ghost use Rattle.stub_cache.specs.Ttl.{default_bounds};

    ghost is_default = { λ bounds. bounds ≡ default_bounds };

    fn default() -> TtlBounds {
        TtlBounds {
            positive_min: None,
            negative_min: None,
            positive_max: None,
            negative_max: None,
        }
    }
}

impl TtlBounds {
    ghost use Rattle.stub_cache.specs.Ttl.{are_reversed, checked_bounds, closed_range, negative_range, positive_range};

    /// Creates bounds, in seconds. Fails if a minimum is above its maximum.
    pub fn new(
        positive_min: Option<u32>,
        negative_min: Option<u32>,
        positive_max: Option<u32>,
        negative_max: Option<u32>,
    ) -> Result<TtlBounds, TtlBoundsError>
        ensures { result ≡ checked_bounds (record {
          positive_min = positive_min;
          negative_min = negative_min;
          positive_max = positive_max;
          negative_max = negative_max;
        }) }
    {
        let bounds = TtlBounds {
            positive_min,
            negative_min,
            positive_max,
            negative_max,
        };
        if bounds.are_reversed() {
            return Err(TtlBoundsError::MinimumAboveMaximum);
        }
        Ok(bounds)
    }

    /// Returns whether a minimum is above its maximum.
    fn are_reversed(&self) -> bool
        ensures { result ≡ are_reversed self.now }
    {
        self.positive_range().is_empty() || self.negative_range().is_empty()
    }

    /// Returns the range of the TTLs of records.
    fn positive_range(&self) -> RangeInclusive<u32>
        ensures { result ≡ closed_range (positive_range self.now) }
    {
        self.positive_min.unwrap_or(0)..=self.positive_max.unwrap_or(MAX_TTL)
    }

    /// Returns the range of the seconds for which negative answers are stored.
    fn negative_range(&self) -> RangeInclusive<u32>
        ensures { result ≡ closed_range (negative_range self.now) }
    {
        self.negative_min.unwrap_or(0)..=self.negative_max.unwrap_or(MAX_TTL)
    }
}

/// The bounds of TTLs in a cache: default ones, and others for some types.
#[derive(Debug, Drop)]
pub struct TtlConfig {
    default: TtlBounds,
    by_query_type: BTreeMap<u16, TtlBounds>,
}

impl Model for TtlConfig {
    ghost use Rattle.stub_cache.specs.Ttl.{TtlConfigContent};

    ghost Value = { TtlConfigContent };

    ghost view = { λ c. record { default = c.default; by_query_type = c.by_query_type.entries } };
}

impl TtlConfig {
    ghost use Rattle.stub_cache.specs.Ttl.{bounds_of, checked_config, closed_range, config_with, default_bounds, negative_range, own_bounds, plain_config, positive_range};

    /// Creates bounds that are the same for all types.
    pub fn from(alloc: Global, default: TtlBounds) -> TtlConfig
        ensures { result ≡ plain_config default }
    {
        TtlConfig {
            default,
            by_query_type: BTreeMap::new(alloc),
        }
    }

    /// Creates the default bounds: from 0 seconds to [`MAX_TTL`].
    pub fn default(alloc: Global) -> TtlConfig
        ensures { result ≡ plain_config default_bounds }
    {
        TtlConfig::from(alloc, TtlBounds::default())
    }

    /// Creates the bounds that the options of a resolver set. Fails if a minimum is above its maximum.
    pub fn from_opts(alloc: Global, opts: &ResolverOpts) -> Result<TtlConfig, TtlBoundsError>
        ensures { result ≡ checked_config opts.now }
    {
        let bounds = TtlBounds::new(
            opts.positive_min_ttl,
            opts.negative_min_ttl,
            opts.positive_max_ttl,
            opts.negative_max_ttl,
        )?;
        Ok(TtlConfig::from(alloc, bounds))
    }

    /// Sets the bounds of a type, which is taken by its number. If memory runs out, the bounds stay as they were. A type
    /// that has bounds already takes no memory.
    pub fn with_query_type_ttl_bounds(
        &mut self,
        query_type: RecordType,
        bounds: TtlBounds,
    ) -> Result<(), AllocError>
        ensures set { OnOk result (self.new ≡ config_with self.old query_type bounds) }
        ensures memory { OnErr result (self.new ≡ self.old) }
        ensures decided { IsSome (own_bounds self.old query_type) → IsOk result }
    {
        self.by_query_type.insert(u16::from(query_type), bounds)?;
        Ok(())
    }

    /// Returns the range of the TTLs of records of a type, in seconds.
    pub fn positive_response_ttl_bounds(&self, query_type: RecordType) -> RangeInclusive<u32>
        ensures { result ≡ closed_range (positive_range (bounds_of self.now query_type)) }
    {
        self.bounds_of(query_type).positive_range()
    }

    /// Returns the range of the seconds for which negative answers to questions of a type are stored.
    pub fn negative_response_ttl_bounds(&self, query_type: RecordType) -> RangeInclusive<u32>
        ensures { result ≡ closed_range (negative_range (bounds_of self.now query_type)) }
    {
        self.bounds_of(query_type).negative_range()
    }

    /// Returns the bounds of a type: those that were set for it, or the default ones.
    fn bounds_of(&self, query_type: RecordType) -> TtlBounds
        ensures { result ≡ bounds_of self.now query_type }
    {
        match self.by_query_type.get(&u16::from(query_type)) {
            Some(bounds) => *bounds,
            None => self.default,
        }
    }
}

impl PartialEq for TtlConfig {
    ghost use Rattle.std.specs.Cmp.{partial_equiv_from_equiv};
    ghost use Rattle.stub_cache.specs.TtlEquality.{same_config};
    ghost use Rattle.stub_cache.specs.internal.TtlEquality.{same_config-equivalence};

    ghost eq = { same_config };

    ghost laws = { partial_equiv_from_equiv same_config-equivalence };

    /// Returns `true` if the default bounds are equal, and those that were set for types.
    fn eq(&self, other: &TtlConfig) -> bool {
        self.default == other.default && self.by_query_type == other.by_query_type
    }
}

impl Eq for TtlConfig {
    ghost use Rattle.stub_cache.specs.internal.TtlEquality.{same_config-equivalence};

    ghost laws = { same_config-equivalence };
}
