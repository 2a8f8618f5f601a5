//! The hash functions.

ghost use Rattle.std.specs.Prelude.{◌≡◌};
ghost use Rattle.dns_tsig.specs.hmac.Algorithm.{block_len, code_len};

/// A hash function under HMAC.
#[derive(Clone, Copy, Debug, PartialEq, Eq)]
pub enum Algorithm {
    /// MD5 (RFC 1321)
    Md5,
    /// SHA-1 (FIPS 180-4)
    Sha1,
    /// SHA-224 (FIPS 180-4)
    Sha224,
    /// SHA-256 (FIPS 180-4)
    Sha256,
    /// SHA-384 (FIPS 180-4)
    Sha384,
    /// SHA-512 (FIPS 180-4)
    Sha512,
}

impl Algorithm {
    /// Returns the number of bytes in a code, which is that of the hash function's digest.
    pub fn code_len(self) -> usize
        ensures { result ≡ code_len self }
    {
        match self {
            Algorithm::Md5 => 16,
            Algorithm::Sha1 => 20,
            Algorithm::Sha224 => 28,
            Algorithm::Sha256 => 32,
            Algorithm::Sha384 => 48,
            Algorithm::Sha512 => 64,
        }
    }

    /// Returns the number of bytes in a block of the hash function.
    pub(crate) fn block_len(self) -> usize
        ensures { result ≡ block_len self }
    {
        match self {
            Algorithm::Md5 | Algorithm::Sha1 | Algorithm::Sha224 | Algorithm::Sha256 => 64,
            Algorithm::Sha384 | Algorithm::Sha512 => 128,
        }
    }
}
