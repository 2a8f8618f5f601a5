//! IPv6 addresses (RFC 3596 section 2.2).

ghost use Rattle.std.specs.Prelude.{◌≡◌};
ghost use Rattle.dns_data.specs.rdata.AAAA.{aaaa_kinds, aaaa_values};

use crate::fields::{FixedData, WriteFields};
use dns_wire::{BinEncodable, BinEncoder, EncodeError};
use std::fmt;
use std::net::Ipv6Addr;

/// An IPv6 address (RFC 3596 section 2.2).
#[derive(Clone, Copy, Debug, PartialEq, Eq, PartialOrd, Ord)]
pub struct AAAA(pub Ipv6Addr);

impl FixedData<(Ipv6Addr, ())> for AAAA {
    ghost fields = { aaaa_values };

    fn from_fields(given: (Ipv6Addr, ())) -> AAAA {
        AAAA(given.0)
    }
}

impl BinEncodable for AAAA {
    ghost use Rattle.dns_data.specs.Field.{values_pieces};

    ghost pieces = { λ a s. values_pieces s.canonical aaaa_kinds (aaaa_values a) };

    fn emit(&self, encoder: &mut BinEncoder<'_>) -> Result<(), EncodeError> {
        (self.0, ()).emit_fields(encoder)
    }
}

impl AAAA {
    ghost use Rattle.dns_data.specs.Field.{values_len};

    /// Returns the length of the data's uncompressed encoding.
    pub fn encoded_len(&self) -> u128
        ensures { result ≡ values_len aaaa_kinds (aaaa_values self.now) }
    {
        (self.0, ()).fields_len()
    }
}

impl fmt::Display for AAAA {
    ghost use Rattle.std.specs.Prelude.{Some};
    ghost use Rattle.dns_data.specs.Text.{values_text};

    ghost output = { λ a. Some (values_text aaaa_kinds (aaaa_values a)) };

    /// Writes the groups in hexadecimal digits, also those of an IPv4-mapped address.
    fn fmt<W: fmt::Write>(&self, f: &mut fmt::Formatter<W>) -> fmt::Result {
        let groups = self.0.hex_groups();
        write!(f, "{groups}")
    }
}
