//! Zones (RFC 1034 section 4.2).

ghost use Rattle.std.specs.Prelude.{◌≡◌};
ghost use Rattle.dns_zone.specs.Rows.{IsZone};

mod answer;
mod chain;
mod difference;
mod display;
mod load;
mod lookup;
mod node;
mod reply;
mod rise;
mod rising;
mod row_refs;
mod section;
mod serial;
mod serials;
mod serve;
mod update;

use crate::sets::ZoneSets;
pub use answer::Answer;
pub use display::RecordLines;
use dns_names::Name;
use dns_zone_file::ZoneFileError;
pub use node::Node;
pub use serial::{first_serial, zone_serial};
pub use serials::Serials;
pub use serve::{
    Served, bare_reply_bytes, decode_request, repeated_queries, reply_limit, truncated_reply_bytes,
};
use std::alloc::{AllocError, AllocFailed, Global};
use std::marker::Model;
use thiserror::Error;
pub use update::Applied;

/// The error for a text that is not the zone file of a zone.
#[derive(Debug, Drop, Error)]
pub enum ZoneFault {
    /// The text cannot be parsed. The error is not `Memory`.
    #[error("{0}")]
    Parse(ZoneFileError),
    /// A record has another class than `IN`.
    #[error("a record's class isn't IN")]
    NotInternet,
    /// An owner is not at or below the origin.
    #[error("an owner lies outside the origin")]
    OutsideOrigin,
    /// There is no SOA record at the origin.
    #[error("no start of authority")]
    NoSoa,
    /// There is an SOA record elsewhere than at the origin.
    #[error("a start of authority elsewhere than at the origin")]
    SoaElsewhere,
    /// Data has more than 65,535 bytes without compression (RFC 1035 section 3.2.1).
    #[error("data of more than 65,535 bytes")]
    DataTooLong,
    /// Memory was refused.
    #[error("out of memory")]
    Memory,
}

/// A zone: its origin, and its record sets.
#[derive(Drop)]
pub struct Zone {
    origin: Name,
    sets: ZoneSets,
    alloc: Global,
}

impl Model for Zone {
    ghost use Rattle.std.specs.FinMap as rows_map;
    ghost use Rattle.std.specs.Prelude.{◌≡◌, true};
    ghost use Rattle.dns_zone.specs.Rows.{ZoneContent, rows_of_sets, AreSoundSets};
    ghost use Rattle.dns_zone.specs.Printed.{AreZoneSets};

    ghost Value = { ZoneContent };

    ghost use Rattle.std.specs.Coded.{codes};

    ghost coded = { Prim.hlevel (codes, rows_map.code) };

    ghost view = { λ z. record { origin = z.origin; rows = rows_of_sets z.sets } };

    ghost invariant = { λ z. (z.origin.is_fqdn ≡ true) × AreSoundSets z.sets
        × AreZoneSets z.origin z.sets };
}

impl Zone {
    /// Returns the origin, spelled as in the zone file.
    pub fn origin(&self) -> &Name
        ensures origin { result.now ≡ self.now.origin }
        ensures well_formed { IsZone self.now }
    {
        &self.origin
    }

    /// Proves that the zone is well formed; nothing is computed.
    fn well_formed(&self)
        ensures { IsZone self.now }
    {
        let _origin = self.origin();
    }
}

impl From<AllocError> for ZoneFault {
    ghost use Rattle.std.specs.Prelude.{◌≡◌};
    ghost use Rattle.dns_zone.specs.declared.zone.ZoneFault.TheVariants.{Memory};

    ghost from_gives = { λ _ e. e ≡ Memory };

    fn from(_e: AllocError) -> ZoneFault {
        ZoneFault::Memory
    }
}

impl<T: Drop> From<AllocFailed<T>> for ZoneFault {
    ghost use Rattle.std.specs.Prelude.{◌≡◌};
    ghost use Rattle.dns_zone.specs.declared.zone.ZoneFault.TheVariants.{Memory};

    ghost from_gives = { λ _ e. e ≡ Memory };

    fn from(_e: AllocFailed<T>) -> ZoneFault {
        ZoneFault::Memory
    }
}
