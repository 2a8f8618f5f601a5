//! HMAC by its definition (RFC 2104 section 2).

ghost use Rattle.std.specs.Prelude.{◌≡◌, ◌≤◌, ℕ, List, [], ◌++◌, length, map, bit_xor, replicate};
ghost use Rattle.dns_tsig.specs.hmac.Algorithm.{block_len, code_len, hash};
ghost use Rattle.dns_tsig.specs.hmac.Hmac.{Keyed, hmac, key_block, masked, short_key};
ghost use Rattle.dns_tsig.specs.hmac.Hasher.{Holds, algorithm_of};

use crate::hmac::algorithm::Algorithm;
use crate::hmac::hasher::{Code, Hasher};
use arrayvec::ArrayVec;

/// The greatest number of bytes in a block of a hash function.
const MAX_BLOCK_LEN: usize = 128;

/// The byte `ipad`, which masks the key before the message.
const INNER: u8 = 0x36;

/// The byte `opad`, which masks the key before the inner digest.
const OUTER: u8 = 0x5c;

/// A block of a hash function.
type Block = ArrayVec<u8, MAX_BLOCK_LEN>;

/// A message that is authenticated piece by piece with a key.
#[derive(Drop)]
pub struct Hmac {
    inner: Hasher,
    outer: Hasher,
}

impl Hmac {
    /// Creates the state of the empty message. The key may have any length.
    pub fn new(algorithm: Algorithm, key: &[u8]) -> Hmac
        ensures { Keyed result algorithm key.now [] }
    {
        let block = key_block(algorithm, key);
        let inner = begun(algorithm, block.as_slice(), INNER);
        let outer = begun(algorithm, block.as_slice(), OUTER);
        Hmac { inner, outer }
    }

    /// Adds bytes to the message.
    pub fn update(&mut self, bytes: &[u8])
        ensures { (algorithm : Algorithm) (key message : List ℕ)
            → Keyed self.old algorithm key message
            → Keyed self.new algorithm key (message ++ bytes.now) }
    {
        self.inner.update(bytes);
    }

    /// Returns the code of the message.
    pub fn finalize(self) -> Code
        ensures code { (algorithm : Algorithm) (key message : List ℕ)
            → Keyed self algorithm key message → result.items ≡ hmac algorithm key message }
        ensures len { (algorithm : Algorithm) (key message : List ℕ)
            → Keyed self algorithm key message → length result.items ≡ code_len algorithm }
    {
        let Hmac { inner, mut outer } = self;
        let digest = inner.finalize();
        outer.update(digest.as_slice());
        outer.finalize()
    }
}

/// Returns the state of a message that begins with a block, each of whose bytes is masked.
fn begun(algorithm: Algorithm, block: &[u8], mask: u8) -> Hasher
    requires { length block.now ≤ MAX_BLOCK_LEN }
    ensures of { algorithm_of result ≡ algorithm }
    ensures holds { Holds result (masked mask block.now) }
{
    let masked = masked(block, mask);
    let mut hasher = Hasher::new(algorithm);
    hasher.update(masked.as_slice());
    hasher
}

/// Returns the bytes of a block, each masked.
fn masked(block: &[u8], mask: u8) -> Block
    requires { length block.now ≤ MAX_BLOCK_LEN }
    ensures { result.items ≡ masked mask block.now }
{
    let mut bytes = ArrayVec::new();
    for byte in block {
        bytes.push(*byte ^ mask);
    }
    bytes
}

/// Returns the key of one block: zeros follow the key, or the digest of a longer one.
fn key_block(algorithm: Algorithm, key: &[u8]) -> Block
    ensures { result.items ≡ key_block algorithm key.now }
{
    let mut block = short_key(algorithm, key);
    for _ in block.len()..algorithm.block_len() {
        block.push(0);
    }
    block
}

/// Returns the key, or its digest if it is longer than a block.
fn short_key(algorithm: Algorithm, key: &[u8]) -> Block
    ensures key { result.items ≡ short_key algorithm key.now }
    ensures short { length result.items ≤ block_len algorithm }
{
    if key.len() <= algorithm.block_len() {
        return block_of(key);
    }
    let mut hasher = Hasher::new(algorithm);
    hasher.update(key);
    block_of(hasher.finalize().as_slice())
}

/// Returns bytes as a block.
fn block_of(bytes: &[u8]) -> Block
    requires { length bytes.now ≤ MAX_BLOCK_LEN }
    ensures { result.items ≡ bytes.now }
{
    let mut block = ArrayVec::new();
    block.try_extend_from_slice(bytes).unwrap();
    block
}
