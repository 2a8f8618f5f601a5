//! A location, from its tokens (RFC 1876 section 3).

ghost use Rattle.std.specs.Prelude.{◌≡◌, map};
ghost use Rattle.dns_text.specs.Token.{lexeme};
ghost use Rattle.dns_formats.specs.Value.{Appends};
ghost use Rattle.dns_formats.specs.Location.{token_bytes};

use crate::fault::TokenFault;
use dns_fields::location::{LocationFault, location_bytes};
use dns_text::Token;
use std::alloc::Global;

/// Appends the bytes of the location that tokens denote.
pub(crate) fn push_location(
    alloc: Global,
    tokens: &[Token<'_>],
    out: &mut Vec<u8>,
) -> Result<(), TokenFault>
    ensures { Appends TokenFault.Memory (token_bytes (map lexeme tokens.now))
        out.old.items result out.new.items }
{
    match location_bytes(alloc, tokens) {
        Ok(bytes) => {
            out.extend_from_slice(bytes.as_slice())?;
            Ok(())
        }
        // The bytes could not be made for want of memory.
        Err(LocationFault::Memory) => Err(TokenFault::Memory),
        Err(fault) => Err(TokenFault::Location(fault)),
    }
}
