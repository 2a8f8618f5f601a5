//! Keys that are shared with other hosts, and the names of algorithms (RFC 8945 section 6).

ghost use Rattle.std.specs.Prelude.{◌≡◌};
ghost use Rattle.dns_tsig.specs.hmac.Algorithm.{code_len};
ghost use Rattle.dns_tsig.specs.Key.{algorithm_name};
ghost use Rattle.dns_tsig.specs.WireName.{canonical_name};

use crate::hmac::Algorithm;
use crate::wire_name::{WireName, canonical_name};
use dns_names::Name;

/// A key that is shared with another host.
#[derive(Drop)]
pub struct Key {
    /// The name of the key in canonical form.
    pub name: WireName,
    /// The hash function.
    pub algorithm: Algorithm,
    /// The secret.
    pub secret: Vec<u8>,
    /// The least number of bytes that a code must have, whatever the RFC allows: less is BADTRUNC.
    pub least_mac: usize,
}

impl Key {
    /// Creates a key whose codes must not be truncated.
    pub fn new(name: &Name, algorithm: Algorithm, secret: Vec<u8>) -> Key
        ensures name { result.name.items ≡ canonical_name name.now.labels }
        ensures algorithm { result.algorithm ≡ algorithm }
        ensures secret { result.secret ≡ secret }
        ensures least { result.least_mac ≡ code_len algorithm }
    {
        let least_mac = algorithm.code_len();
        Key {
            name: canonical_name(name),
            algorithm,
            secret,
            least_mac,
        }
    }
}

/// Returns the name of an algorithm in canonical form.
pub fn algorithm_name(algorithm: Algorithm) -> &'static [u8]
    ensures { result.now ≡ algorithm_name algorithm }
{
    match algorithm {
        Algorithm::Md5 => b"\x08hmac-md5\x07sig-alg\x03reg\x03int\x00",
        Algorithm::Sha1 => b"\x09hmac-sha1\x00",
        Algorithm::Sha224 => b"\x0bhmac-sha224\x00",
        Algorithm::Sha256 => b"\x0bhmac-sha256\x00",
        Algorithm::Sha384 => b"\x0bhmac-sha384\x00",
        Algorithm::Sha512 => b"\x0bhmac-sha512\x00",
    }
}
