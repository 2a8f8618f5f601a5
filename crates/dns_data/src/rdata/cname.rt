//! Canonical names of aliases (RFC 1035 section 3.3.1).

ghost use Rattle.std.specs.Prelude.{◌≡◌, IfOk, IsOk};
ghost use Rattle.dns_data.specs.rdata.CNAME.{cname_kinds, cname_values};

use crate::fields::{FixedData, WriteFields};
use dns_names::Name;
use dns_wire::{BinEncodable, BinEncoder, EncodeError};
use std::alloc::AllocError;
use std::fmt;

/// The canonical name of an alias (RFC 1035 section 3.3.1).
#[derive(Debug, Drop, PartialEq, Eq, PartialOrd, Ord)]
pub struct CNAME(pub Name);

impl FixedData<(Name, ())> for CNAME {
    ghost fields = { cname_values };

    fn from_fields(given: (Name, ())) -> CNAME {
        CNAME(given.0)
    }
}

impl CNAME {
    ghost use Rattle.dns_data.specs.Field.{values_len};
    ghost use Rattle.dns_data.specs.Memory.{AreInlineValues};
    ghost use Rattle.dns_data.specs.declared.rdata.cname.CNAME.{CNAME};

    /// Clones the data. A short name takes no memory.
    pub fn clone(&self) -> Result<CNAME, AllocError>
        ensures ok { IfOk result (λ copy. copy ≡ self.now) }
        ensures inline { AreInlineValues cname_kinds (cname_values self.now) → IsOk result }
    {
        Ok(CNAME(self.0.clone()?))
    }

    /// Returns the length of the data's uncompressed encoding.
    pub fn encoded_len(&self) -> u128
        ensures { result ≡ values_len cname_kinds (cname_values self.now) }
    {
        (&self.0, ()).fields_len()
    }
}

impl Clone for CNAME {
    ghost is_clone = { λ cname copy. copy ≡ cname };

    fn clone(&self) -> Result<CNAME, AllocError> {
        CNAME::clone(self)
    }
}

impl BinEncodable for CNAME {
    ghost use Rattle.dns_data.specs.Field.{values_pieces};

    ghost pieces = { λ c s. values_pieces s.canonical cname_kinds (cname_values c) };

    fn emit(&self, encoder: &mut BinEncoder<'_>) -> Result<(), EncodeError> {
        (&self.0, ()).emit_fields(encoder)
    }
}

impl fmt::Display for CNAME {
    ghost use Rattle.std.specs.Prelude.{Some};
    ghost use Rattle.dns_data.specs.Text.{values_text};

    ghost output = { λ c. Some (values_text cname_kinds (cname_values c)) };

    fn fmt<W: fmt::Write>(&self, f: &mut fmt::Formatter<W>) -> fmt::Result {
        self.0.fmt(f)
    }
}
