//! The names of algorithms in key files.

ghost use Rattle.std.specs.Prelude.{◌≡◌};
ghost use Rattle.dns_keys.specs.Algorithm.{algorithm_in, algorithm_text, is_same_text, longer_in};

use dns_tsig::hmac::Algorithm;

/// Returns the name of an algorithm.
pub fn algorithm_text(algorithm: Algorithm) -> &'static [u8]
    ensures { result.now ≡ algorithm_text algorithm }
{
    match algorithm {
        Algorithm::Md5 => b"hmac-md5",
        Algorithm::Sha1 => b"hmac-sha1",
        Algorithm::Sha224 => b"hmac-sha224",
        Algorithm::Sha256 => b"hmac-sha256",
        Algorithm::Sha384 => b"hmac-sha384",
        Algorithm::Sha512 => b"hmac-sha512",
    }
}

/// Parses the name of an algorithm, in any case.
pub fn parse_algorithm(word: &[u8]) -> Option<Algorithm>
    ensures { result ≡ algorithm_in word.now }
{
    if is_same_text(word, algorithm_text(Algorithm::Md5)) {
        return Some(Algorithm::Md5);
    }
    if is_same_text(word, algorithm_text(Algorithm::Sha1)) {
        return Some(Algorithm::Sha1);
    }
    if is_same_text(word, algorithm_text(Algorithm::Sha224)) {
        return Some(Algorithm::Sha224);
    }
    parse_longer(word)
}

/// Parses the name of an algorithm with a code of 32 bytes or more.
fn parse_longer(word: &[u8]) -> Option<Algorithm>
    ensures { result ≡ longer_in word.now }
{
    if is_same_text(word, algorithm_text(Algorithm::Sha256)) {
        return Some(Algorithm::Sha256);
    }
    if is_same_text(word, algorithm_text(Algorithm::Sha384)) {
        return Some(Algorithm::Sha384);
    }
    if is_same_text(word, algorithm_text(Algorithm::Sha512)) {
        return Some(Algorithm::Sha512);
    }
    None
}

/// Returns `true` if two words are equal but for case.
pub fn is_same_text(word: &[u8], other: &[u8]) -> bool
    ensures { result ≡ is_same_text word.now other.now }
{
    word.eq_ignore_ascii_case(other)
}
