//! Name servers (RFC 1035 section 3.3.11).

ghost use Rattle.std.specs.Prelude.{◌≡◌, IfOk, IsOk};
ghost use Rattle.dns_data.specs.rdata.NS.{ns_kinds, ns_values};

use crate::fields::{FixedData, WriteFields};
use dns_names::Name;
use dns_wire::{BinEncodable, BinEncoder, EncodeError};
use std::alloc::AllocError;
use std::fmt;

/// A name server of a zone (RFC 1035 section 3.3.11).
#[derive(Debug, Drop, PartialEq, Eq, PartialOrd, Ord)]
pub struct NS(pub Name);

impl FixedData<(Name, ())> for NS {
    ghost fields = { ns_values };

    fn from_fields(given: (Name, ())) -> NS {
        NS(given.0)
    }
}

impl NS {
    ghost use Rattle.dns_data.specs.Field.{values_len};
    ghost use Rattle.dns_data.specs.Memory.{AreInlineValues};
    ghost use Rattle.dns_data.specs.declared.rdata.ns.NS.{NS};

    /// Clones the data. A short name takes no memory.
    pub fn clone(&self) -> Result<NS, AllocError>
        ensures ok { IfOk result (λ copy. copy ≡ self.now) }
        ensures inline { AreInlineValues ns_kinds (ns_values self.now) → IsOk result }
    {
        Ok(NS(self.0.clone()?))
    }

    /// Returns the length of the data's uncompressed encoding.
    pub fn encoded_len(&self) -> u128
        ensures { result ≡ values_len ns_kinds (ns_values self.now) }
    {
        (&self.0, ()).fields_len()
    }
}

impl Clone for NS {
    ghost is_clone = { λ ns copy. copy ≡ ns };

    fn clone(&self) -> Result<NS, AllocError> {
        NS::clone(self)
    }
}

impl BinEncodable for NS {
    ghost use Rattle.dns_data.specs.Field.{values_pieces};

    ghost pieces = { λ n s. values_pieces s.canonical ns_kinds (ns_values n) };

    fn emit(&self, encoder: &mut BinEncoder<'_>) -> Result<(), EncodeError> {
        (&self.0, ()).emit_fields(encoder)
    }
}

impl fmt::Display for NS {
    ghost use Rattle.std.specs.Prelude.{Some};
    ghost use Rattle.dns_data.specs.Text.{values_text};

    ghost output = { λ n. Some (values_text ns_kinds (ns_values n)) };

    fn fmt<W: fmt::Write>(&self, f: &mut fmt::Formatter<W>) -> fmt::Result {
        self.0.fmt(f)
    }
}
