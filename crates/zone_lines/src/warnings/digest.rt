//! The lengths of digests, by their kinds.

ghost use Rattle.std.specs.Prelude.{◌≡◌};
ghost use Rattle.zone_lines.specs.warnings.Digest.{digest_length, digest_start, fingerprint_length, lengths_in, match_length, signer_length, wrong_digest, zone_length};

use dns_data::RData;

/// The length of a digest, in bytes, and the one that its kind has.
#[derive(Clone, Copy, Debug, PartialEq, Eq)]
pub struct DigestLengths {
    pub found: usize,
    pub wanted: usize,
}

/// Returns the length of the digest in data, if it is not that of its kind. A digest of a kind that is not known here may have any
/// length.
pub fn wrong_digest(rdata: &RData) -> Option<DigestLengths>
    ensures { result ≡ wrong_digest rdata.now }
{
    match rdata {
        RData::Unknown { code, rdata } => match lengths_in(u16::from(*code), rdata.as_slice()) {
            Some(lengths) if lengths.found != lengths.wanted => Some(lengths),
            _ => None,
        },
        _ => None,
    }
}

/// Returns the length of the digest in data of a type, and the one that its kind has, if that is known.
fn lengths_in(number: u16, bytes: &[u8]) -> Option<DigestLengths>
    ensures { result ≡ lengths_in number bytes.now }
{
    let start = digest_start(number)?;
    let kind = bytes.get(start - 1)?;
    let wanted = digest_length(number, *kind)?;
    Some(DigestLengths {
        found: bytes.len() - start,
        wanted,
    })
}

/// Returns where the digest begins in data of a type, after the byte that says of which kind it is.
fn digest_start(number: u16) -> Option<usize>
    ensures { result ≡ digest_start number }
{
    match number {
        43 | 59 => Some(4),
        44 => Some(2),
        52 | 53 => Some(3),
        63 => Some(6),
        _ => None,
    }
}

/// Returns the length of a kind of digest in data of a type, in bytes, if it is known.
fn digest_length(number: u16, kind: u8) -> Option<usize>
    ensures { result ≡ digest_length number kind }
{
    match number {
        43 | 59 => signer_length(kind),
        44 => fingerprint_length(kind),
        52 | 53 => match_length(kind),
        63 => zone_length(kind),
        _ => None,
    }
}

/// Returns the length of a digest of a key: of SHA-1, SHA-256 and SHA-384 (RFC 4034 section 5.1.4, RFC 4509, RFC 6605).
fn signer_length(kind: u8) -> Option<usize>
    ensures { result ≡ signer_length kind }
{
    match kind {
        1 => Some(20),
        2 => Some(32),
        4 => Some(48),
        _ => None,
    }
}

/// Returns the length of a fingerprint: of SHA-1 and SHA-256 (RFC 4255 section 3.1.2, RFC 6594).
fn fingerprint_length(kind: u8) -> Option<usize>
    ensures { result ≡ fingerprint_length kind }
{
    match kind {
        1 => Some(20),
        2 => Some(32),
        _ => None,
    }
}

/// Returns the length of a digest of a certificate or its key: of SHA-256 and SHA-512 (RFC 6698 section 2.1.3).
fn match_length(kind: u8) -> Option<usize>
    ensures { result ≡ match_length kind }
{
    match kind {
        1 => Some(32),
        2 => Some(64),
        _ => None,
    }
}

/// Returns the length of a digest of a zone: of SHA-384 and SHA-512 (RFC 8976 section 2.2.3).
fn zone_length(kind: u8) -> Option<usize>
    ensures { result ≡ zone_length kind }
{
    match kind {
        1 => Some(48),
        2 => Some(64),
        _ => None,
    }
}
