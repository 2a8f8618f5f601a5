//! The state of a hash function.

ghost use Rattle.std.specs.Prelude.{◌≡◌, ◌≤◌, ℕ, List, [], ◌++◌, length};
ghost use Rattle.dns_tsig.specs.hmac.Algorithm.{code_len, hash};
ghost use Rattle.dns_tsig.specs.hmac.Hasher.{Holds, algorithm_of};

use crate::hmac::algorithm::Algorithm;
use arrayvec::ArrayVec;
use md5::{Digest as Md5Digest, Md5};
use sha1::Sha1;
use sha2::{Digest, Sha224, Sha256, Sha384, Sha512};

/// A digest, or a message authentication code. It takes no memory.
pub type Code = ArrayVec<u8, 64>;

/// The state of a hash function that takes a message piece by piece.
#[derive(Drop)]
pub enum Hasher {
    /// MD5
    Md5(Md5),
    /// SHA-1
    Sha1(Sha1),
    /// SHA-224
    Sha224(Sha224),
    /// SHA-256
    Sha256(Sha256),
    /// SHA-384
    Sha384(Sha384),
    /// SHA-512
    Sha512(Sha512),
}

impl Hasher {
    /// Creates the state of the empty message.
    pub fn new(algorithm: Algorithm) -> Hasher
        ensures of { algorithm_of result ≡ algorithm }
        ensures empty { Holds result [] }
    {
        match algorithm {
            Algorithm::Md5 => Hasher::Md5(Md5::new()),
            Algorithm::Sha1 => Hasher::Sha1(Sha1::new()),
            Algorithm::Sha224 => Hasher::Sha224(Sha224::new()),
            Algorithm::Sha256 => Hasher::Sha256(Sha256::new()),
            Algorithm::Sha384 => Hasher::Sha384(Sha384::new()),
            Algorithm::Sha512 => Hasher::Sha512(Sha512::new()),
        }
    }

    /// Adds bytes to the message.
    pub fn update(&mut self, bytes: &[u8])
        ensures of { algorithm_of self.new ≡ algorithm_of self.old }
        ensures more { (message : List ℕ) → Holds self.old message
            → Holds self.new (message ++ bytes.now) }
    {
        match self {
            Hasher::Md5(hasher) => hasher.update(bytes),
            Hasher::Sha1(hasher) => hasher.update(bytes),
            Hasher::Sha224(hasher) => hasher.update(bytes),
            Hasher::Sha256(hasher) => hasher.update(bytes),
            Hasher::Sha384(hasher) => hasher.update(bytes),
            Hasher::Sha512(hasher) => hasher.update(bytes),
        }
    }

    /// Returns the digest of the message.
    pub fn finalize(self) -> Code
        ensures digest { (message : List ℕ) → Holds self message
            → result.items ≡ hash (algorithm_of self) message }
        ensures len { length result.items ≡ code_len (algorithm_of self) }
    {
        match self {
            Hasher::Md5(hasher) => code_of(&hasher.finalize()),
            Hasher::Sha1(hasher) => code_of(&hasher.finalize()),
            Hasher::Sha224(hasher) => code_of(&hasher.finalize()),
            Hasher::Sha256(hasher) => code_of(&hasher.finalize()),
            Hasher::Sha384(hasher) => code_of(&hasher.finalize()),
            Hasher::Sha512(hasher) => code_of(&hasher.finalize()),
        }
    }
}

/// Returns a digest as a code.
fn code_of(digest: &[u8]) -> Code
    requires { length digest.now ≤ 64 }
    ensures { result.items ≡ digest.now }
{
    let mut code = ArrayVec::new();
    code.try_extend_from_slice(digest).unwrap();
    code
}
