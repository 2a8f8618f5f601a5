//! The time of signatures (RFC 4034 section 3).

ghost use Rattle.std.specs.Prelude.{◌≡◌};
ghost use Rattle.zone_lines.specs.warnings.Signature.{has_expired, is_past, is_signature, is_signer};

use dns_data::RData;

/// The number of the type RRSIG (RFC 4034 section 3).
const RRSIG: u16 = 46;

/// The number of the type DS (RFC 4034 section 5).
const DS: u16 = 43;

/// Returns `true` if data is that of a signature.
pub(crate) fn is_signature(rdata: &RData) -> bool
    ensures { result ≡ is_signature rdata.now }
{
    match rdata {
        RData::Unknown { code, rdata: _ } => u16::from(*code) == RRSIG,
        _ => false,
    }
}

/// Returns `true` if data is that of a signature that has expired at a time, in seconds since 1970.
pub(crate) fn has_expired(now: u32, rdata: &RData) -> bool
    ensures { result ≡ has_expired now rdata.now }
{
    match rdata {
        RData::Unknown { code, rdata } if u16::from(*code) == RRSIG => {
            is_past(now, rdata.as_slice())
        }
        _ => false,
    }
}

/// Returns `true` if the data of a signature says that it has expired: by the arithmetic of serial numbers (RFC 4034 section
/// 3.1.5).
fn is_past(now: u32, bytes: &[u8]) -> bool
    ensures { result ≡ is_past now bytes.now }
{
    match bytes {
        [_, _, _, _, _, _, _, _, a, b, c, d, ..] => {
            let age = now.wrapping_sub(u32::from_be_bytes([*a, *b, *c, *d]));
            age != 0 && age < 1 << 31
        }
        _ => false,
    }
}

/// Returns `true` if data is that of a DS record, which refers to a key of a delegation.
pub(crate) fn is_signer(rdata: &RData) -> bool
    ensures { result ≡ is_signer rdata.now }
{
    match rdata {
        RData::Unknown { code, rdata: _ } => u16::from(*code) == DS,
        _ => false,
    }
}
