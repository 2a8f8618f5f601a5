//! Whether a TSIG record proves that its message comes from the holder of a key (RFC 8945 section 5.2).

ghost use Rattle.std.specs.Prelude.{◌≡◌, ◌≤◌, ◌<◌, length, take};
ghost use Rattle.dns_tsig.specs.hmac.Hmac.{hmac};
ghost use Rattle.dns_tsig.specs.Judge.{is_allowed_len, is_in_time, is_mac_of, judgement, received_text};

use crate::covered::{Coverage, Terms, add_message, begin, finish};
use crate::found::Signature;
use crate::hmac::{Algorithm, Code, is_same};
use crate::key::Key;

/// The judgement of a TSIG record by its key.
#[derive(Clone, Copy, Debug, PartialEq, Eq)]
pub enum Judgement {
    /// The code is longer than that of the algorithm, or shorter than both 10 bytes and half of it (section 5.2.2.1).
    FormErr,
    /// The code is not that of the message (section 5.2.2).
    BadSig,
    /// The clock of the verifier is not within the fudge of the time of signing (section 5.2.3).
    BadTime,
    /// The code is shorter than the key allows (section 5.2.4).
    BadTrunc,
    /// The message comes from a holder of the key.
    Verified,
}

/// Judges the TSIG record of a message, by the former code, which is empty for a request. The steps are in the order of the RFC: the code, the time, and the truncation.
pub fn judgement_of(
    key: &Key,
    prior: &[u8],
    message: &[u8],
    signature: &Signature<'_>,
    coverage: Coverage,
    now: u64,
) -> Judgement
    requires prior { length prior.now < 65536 }
    requires after_header { 12 ≤ signature.now.place }
    requires within { signature.now.place ≤ length message.now }
    ensures { result ≡ judgement key.now prior.now message.now signature.now.place
        signature.now.tsig coverage now }
{
    let mac = signature.tsig.mac();
    if !is_allowed_len(key.algorithm, mac.len()) {
        return Judgement::FormErr;
    }
    let code = received_code(key, prior, message, signature, coverage);
    if !begins_with(&code, mac) {
        return Judgement::BadSig;
    }
    if !is_in_time(signature.tsig.time(), signature.tsig.fudge(), now) {
        return Judgement::BadTime;
    }
    if mac.len() < key.least_mac {
        return Judgement::BadTrunc;
    }
    Judgement::Verified
}

/// Returns the code that a message should have.
fn received_code(
    key: &Key,
    prior: &[u8],
    message: &[u8],
    signature: &Signature<'_>,
    coverage: Coverage,
) -> Code
    requires prior { length prior.now < 65536 }
    requires after_header { 12 ≤ signature.now.place }
    requires within { signature.now.place ≤ length message.now }
    ensures { result.items ≡ hmac key.now.algorithm key.now.secret.items (received_text
        key.now prior.now message.now signature.now.place signature.now.tsig coverage) }
{
    let tsig = &signature.tsig;
    let terms = Terms {
        time: tsig.time(),
        fudge: tsig.fudge(),
        error: tsig.error(),
        other: tsig.other(),
    };
    let mut state = begin(key, prior);
    add_message(&mut state, message, signature.place, tsig.original_id());
    finish(state, key, &terms, coverage)
}

/// Returns `true` if a code begins with the bytes of a MAC, all of which are compared, whatever their values.
fn begins_with(code: &Code, mac: &[u8]) -> bool
    ensures { result ≡ is_mac_of code.now.items mac.now }
{
    is_same(front(code.as_slice(), mac.len()), mac)
}

/// Returns the first bytes, all if there are fewer.
fn front(bytes: &[u8], len: usize) -> &[u8]
    ensures { result.now ≡ take len bytes.now }
{
    if len < bytes.len() {
        &bytes[..len]
    } else {
        bytes
    }
}

/// Returns `true` if a code of an algorithm may have this length: that of the algorithm, or one to which it may be truncated.
fn is_allowed_len(algorithm: Algorithm, len: usize) -> bool
    ensures { result ≡ is_allowed_len algorithm len }
{
    let whole = algorithm.code_len();
    len <= whole && len >= 10 && len >= whole / 2
}

/// Returns `true` if a clock is within the fudge of a time.
fn is_in_time(time: u64, fudge: u16, now: u64) -> bool
    ensures { result ≡ is_in_time time fudge now }
{
    time.saturating_sub(now) <= u64::from(fudge) && now.saturating_sub(time) <= u64::from(fudge)
}
