//! Digests, checks and seals.

ghost use Rattle.std.specs.Prelude.{◌≡◌};
ghost use Rattle.sha2.specs.Sha256.{sha256};
ghost use Rattle.dns_journal.specs.format.Format.{check, head_seal, seal, word};

use sha2::{Digest, Sha256};
use std::hash::{DefaultHasher, Hasher};

/// Returns the SHA-256 digest of a text.
pub fn digest_of(text: &[u8]) -> [u8; 32]
    ensures { result ≡ sha256 text.now }
{
    Sha256::digest(text)
}

/// Returns the seal of the header with an identity.
#[tactic(auto, unfolding(crate::specs::format::Format::head_seal))]
pub(crate) fn head_seal(head: &[u8]) -> u64
    ensures { result ≡ head_seal head.now }
{
    let mut hasher = DefaultHasher::new();
    hasher.write(head);
    hasher.finish()
}

/// Returns the check of the front of an entry.
#[tactic(auto, unfolding(crate::specs::format::Format::check))]
pub(crate) fn check(key: &[u8], front: &[u8]) -> u64
    ensures { result ≡ check key.now front.now }
{
    let mut hasher = DefaultHasher::new();
    hasher.write(key);
    hasher.write(front);
    hasher.finish()
}

/// Returns the seal of the entry with a front and a payload.
#[tactic(auto, unfolding(crate::specs::format::Format::seal))]
pub(crate) fn seal(key: &[u8], front: &[u8], payload: &[u8]) -> u64
    ensures { result ≡ seal key.now front.now payload.now }
{
    let mut hasher = DefaultHasher::new();
    hasher.write(key);
    hasher.write(front);
    hasher.write(payload);
    hasher.finish()
}

/// Returns a number in eight bytes, most significant first.
#[tactic(auto, unfolding(crate::specs::format::Format::word))]
pub(crate) fn word(number: u64) -> [u8; 8]
    ensures { result ≡ word number }
{
    number.to_be_bytes()
}
