//! Pointers to names (RFC 1035 section 3.3.12).

ghost use Rattle.std.specs.Prelude.{◌≡◌, IfOk, IsOk};
ghost use Rattle.dns_data.specs.rdata.PTR.{ptr_kinds, ptr_values};

use crate::fields::{FixedData, WriteFields};
use dns_names::Name;
use dns_wire::{BinEncodable, BinEncoder, EncodeError};
use std::alloc::AllocError;
use std::fmt;

/// A pointer to a name (RFC 1035 section 3.3.12).
#[derive(Debug, Drop, PartialEq, Eq, PartialOrd, Ord)]
pub struct PTR(pub Name);

impl FixedData<(Name, ())> for PTR {
    ghost fields = { ptr_values };

    fn from_fields(given: (Name, ())) -> PTR {
        PTR(given.0)
    }
}

impl PTR {
    ghost use Rattle.dns_data.specs.Field.{values_len};
    ghost use Rattle.dns_data.specs.Memory.{AreInlineValues};
    ghost use Rattle.dns_data.specs.declared.rdata.ptr.PTR.{PTR};

    /// Clones the data. A short name takes no memory.
    pub fn clone(&self) -> Result<PTR, AllocError>
        ensures ok { IfOk result (λ copy. copy ≡ self.now) }
        ensures inline { AreInlineValues ptr_kinds (ptr_values self.now) → IsOk result }
    {
        Ok(PTR(self.0.clone()?))
    }

    /// Returns the length of the data's uncompressed encoding.
    pub fn encoded_len(&self) -> u128
        ensures { result ≡ values_len ptr_kinds (ptr_values self.now) }
    {
        (&self.0, ()).fields_len()
    }
}

impl Clone for PTR {
    ghost is_clone = { λ ptr copy. copy ≡ ptr };

    fn clone(&self) -> Result<PTR, AllocError> {
        PTR::clone(self)
    }
}

impl BinEncodable for PTR {
    ghost use Rattle.dns_data.specs.Field.{values_pieces};

    ghost pieces = { λ p s. values_pieces s.canonical ptr_kinds (ptr_values p) };

    fn emit(&self, encoder: &mut BinEncoder<'_>) -> Result<(), EncodeError> {
        (&self.0, ()).emit_fields(encoder)
    }
}

impl fmt::Display for PTR {
    ghost use Rattle.std.specs.Prelude.{Some};
    ghost use Rattle.dns_data.specs.Text.{values_text};

    ghost output = { λ p. Some (values_text ptr_kinds (ptr_values p)) };

    fn fmt<W: fmt::Write>(&self, f: &mut fmt::Formatter<W>) -> fmt::Result {
        self.0.fmt(f)
    }
}
