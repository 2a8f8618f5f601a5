//! Encoding of the OPT record of a message (RFC 6891 section 6.1.2).

ghost use Rattle.std.specs.Prelude.{◌≡◌};
ghost use Rattle.dns_messages.specs.Cut.{with_code};
ghost use Rattle.dns_messages.specs.Edns.{edns_pieces};
ghost use Rattle.dns_messages.specs.Emit.{extended_edns};

use crate::edns::Edns;
use crate::response_code::ResponseCode;
use dns_wire::{BinEncodable, BinEncoder, EncodeError};

/// A borrowed OPT record, with other upper bits of the response code.
#[derive(Clone, Copy, Drop)]
pub(crate) struct ExtendedEdns<'a> {
    edns: &'a Edns,
    rcode_high: u8,
}

impl<'a> ExtendedEdns<'a> {
    /// Returns the OPT record with the upper eight bits of a response code (RFC 6891 section 6.1.3).
    pub(crate) fn new(edns: &'a Edns, code: ResponseCode) -> ExtendedEdns<'a>
        ensures { extended_edns result ≡ with_code code edns.now }
    {
        ExtendedEdns {
            edns,
            rcode_high: (u16::from(code) / 16 % 256) as u8,
        }
    }
}

impl BinEncodable for ExtendedEdns<'_> {
    ghost pieces = { λ e s. edns_pieces s (extended_edns e) };

    fn emit(&self, encoder: &mut BinEncoder<'_>) -> Result<(), EncodeError> {
        self.edns.emit_with_code(self.rcode_high, encoder)
    }
}
