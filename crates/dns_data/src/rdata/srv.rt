//! Locations of services (RFC 2782).

ghost use Rattle.std.specs.Prelude.{◌≡◌, IfOk, IsOk};
ghost use Rattle.dns_data.specs.rdata.SRV.{srv_kinds, srv_values};

use crate::fields::{FixedData, Whole, WholeRef, WriteFields};
use dns_names::Name;
use dns_wire::{BinEncodable, BinEncoder, EncodeError};
use std::alloc::AllocError;
use std::fmt;

/// The location of a service (RFC 2782).
#[derive(Debug, Drop, PartialEq, Eq, PartialOrd, Ord)]
pub struct SRV {
    /// The priority; lower values are preferred.
    pub priority: u16,
    /// The relative weight among targets of the same priority.
    pub weight: u16,
    pub port: u16,
    /// The host that provides the service, which is never compressed.
    pub target: Name,
}

impl FixedData<(u16, (u16, (u16, (Whole, ()))))> for SRV {
    ghost fields = { λ s. (s.priority, (s.weight, (s.port, (record { 0 = s.target }, tt)))) };

    fn from_fields(given: (u16, (u16, (u16, (Whole, ()))))) -> SRV {
        let (priority, (weight, (port, (target, _)))) = given;
        SRV {
            priority,
            weight,
            port,
            target: target.0,
        }
    }
}

impl SRV {
    ghost use Rattle.dns_data.specs.Field.{values_len};
    ghost use Rattle.dns_data.specs.Memory.{AreInlineValues};
    ghost use Rattle.dns_data.specs.declared.rdata.srv.SRV.{SRV};

    /// Clones the data. A short name takes no memory.
    pub fn clone(&self) -> Result<SRV, AllocError>
        ensures ok { IfOk result (λ copy. copy ≡ self.now) }
        ensures inline { AreInlineValues srv_kinds (srv_values self.now) → IsOk result }
    {
        Ok(SRV {
            priority: self.priority,
            weight: self.weight,
            port: self.port,
            target: self.target.clone()?,
        })
    }

    /// Returns the length of the data's uncompressed encoding.
    pub fn encoded_len(&self) -> u128
        ensures { result ≡ values_len srv_kinds (srv_values self.now) }
    {
        (
            self.priority,
            (self.weight, (self.port, (WholeRef(&self.target), ()))),
        )
            .fields_len()
    }
}

impl Clone for SRV {
    ghost is_clone = { λ srv copy. copy ≡ srv };

    fn clone(&self) -> Result<SRV, AllocError> {
        SRV::clone(self)
    }
}

impl BinEncodable for SRV {
    ghost use Rattle.dns_data.specs.Field.{values_pieces};

    ghost pieces = { λ srv s. values_pieces s.canonical srv_kinds (srv_values srv) };

    fn emit(&self, encoder: &mut BinEncoder<'_>) -> Result<(), EncodeError> {
        (
            self.priority,
            (self.weight, (self.port, (WholeRef(&self.target), ()))),
        )
            .emit_fields(encoder)
    }
}

impl fmt::Display for SRV {
    ghost use Rattle.std.specs.Prelude.{Some};
    ghost use Rattle.dns_data.specs.Text.{values_text};

    ghost output = { λ s. Some (values_text srv_kinds (srv_values s)) };

    fn fmt<W: fmt::Write>(&self, f: &mut fmt::Formatter<W>) -> fmt::Result {
        let (priority, weight) = (self.priority, self.weight);
        let (port, target) = (self.port, &self.target);
        write!(f, "{priority} {weight} {port} {target}")
    }
}
