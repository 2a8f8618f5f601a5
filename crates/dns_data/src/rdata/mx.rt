//! Mail exchanges (RFC 1035 section 3.3.9).

ghost use Rattle.std.specs.Prelude.{◌≡◌, IfOk, IsOk};
ghost use Rattle.dns_data.specs.rdata.MX.{mx_kinds, mx_values};

use crate::fields::{FixedData, WriteFields};
use dns_names::Name;
use dns_wire::{BinEncodable, BinEncoder, EncodeError};
use std::alloc::AllocError;
use std::fmt;

/// A mail exchange (RFC 1035 section 3.3.9).
#[derive(Debug, Drop, PartialEq, Eq, PartialOrd, Ord)]
pub struct MX {
    /// The preference; lower values are preferred.
    pub preference: u16,
    /// The host that receives mail.
    pub exchange: Name,
}

impl FixedData<(u16, (Name, ()))> for MX {
    ghost fields = { mx_values };

    fn from_fields(given: (u16, (Name, ()))) -> MX {
        let (preference, (exchange, _)) = given;
        MX {
            preference,
            exchange,
        }
    }
}

impl MX {
    ghost use Rattle.dns_data.specs.Field.{values_len};
    ghost use Rattle.dns_data.specs.Memory.{AreInlineValues};
    ghost use Rattle.dns_data.specs.declared.rdata.mx.MX.{MX};

    /// Clones the data. A short name takes no memory.
    pub fn clone(&self) -> Result<MX, AllocError>
        ensures ok { IfOk result (λ copy. copy ≡ self.now) }
        ensures inline { AreInlineValues mx_kinds (mx_values self.now) → IsOk result }
    {
        Ok(MX {
            preference: self.preference,
            exchange: self.exchange.clone()?,
        })
    }

    /// Returns the length of the data's uncompressed encoding.
    pub fn encoded_len(&self) -> u128
        ensures { result ≡ values_len mx_kinds (mx_values self.now) }
    {
        (self.preference, (&self.exchange, ())).fields_len()
    }
}

impl Clone for MX {
    ghost is_clone = { λ mx copy. copy ≡ mx };

    fn clone(&self) -> Result<MX, AllocError> {
        MX::clone(self)
    }
}

impl BinEncodable for MX {
    ghost use Rattle.dns_data.specs.Field.{values_pieces};

    ghost pieces = { λ mx s. values_pieces s.canonical mx_kinds (mx_values mx) };

    fn emit(&self, encoder: &mut BinEncoder<'_>) -> Result<(), EncodeError> {
        (self.preference, (&self.exchange, ())).emit_fields(encoder)
    }
}

impl fmt::Display for MX {
    ghost use Rattle.std.specs.Prelude.{Some};
    ghost use Rattle.dns_data.specs.Text.{values_text};

    ghost output = { λ m. Some (values_text mx_kinds (mx_values m)) };

    fn fmt<W: fmt::Write>(&self, f: &mut fmt::Formatter<W>) -> fmt::Result {
        let (preference, exchange) = (self.preference, &self.exchange);
        write!(f, "{preference} {exchange}")
    }
}
