//! IPv4 addresses (RFC 1035 section 3.4.1).

ghost use Rattle.std.specs.Prelude.{◌≡◌};
ghost use Rattle.dns_data.specs.rdata.A.{a_kinds, a_values};

use crate::fields::{FixedData, WriteFields};
use dns_wire::{BinEncodable, BinEncoder, EncodeError};
use std::fmt;
use std::net::Ipv4Addr;

/// An IPv4 address (RFC 1035 section 3.4.1).
#[derive(Clone, Copy, Debug, PartialEq, Eq, PartialOrd, Ord)]
pub struct A(pub Ipv4Addr);

impl FixedData<(Ipv4Addr, ())> for A {
    ghost fields = { a_values };

    fn from_fields(given: (Ipv4Addr, ())) -> A {
        A(given.0)
    }
}

impl BinEncodable for A {
    ghost use Rattle.dns_data.specs.Field.{values_pieces};

    ghost pieces = { λ a s. values_pieces s.canonical a_kinds (a_values a) };

    fn emit(&self, encoder: &mut BinEncoder<'_>) -> Result<(), EncodeError> {
        (self.0, ()).emit_fields(encoder)
    }
}

impl A {
    ghost use Rattle.dns_data.specs.Field.{values_len};

    /// Returns the length of the data's uncompressed encoding.
    pub fn encoded_len(&self) -> u128
        ensures { result ≡ values_len a_kinds (a_values self.now) }
    {
        (self.0, ()).fields_len()
    }
}

impl fmt::Display for A {
    ghost use Rattle.std.specs.Prelude.{Some};
    ghost use Rattle.dns_data.specs.Text.{values_text};

    ghost output = { λ a. Some (values_text a_kinds (a_values a)) };

    fn fmt<W: fmt::Write>(&self, f: &mut fmt::Formatter<W>) -> fmt::Result {
        let address = self.0;
        write!(f, "{address}")
    }
}
