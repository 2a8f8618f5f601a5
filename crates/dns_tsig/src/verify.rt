//! Requests, and by whom they were signed (RFC 8945 section 5.2).

ghost use Rattle.std.specs.Prelude.{◌≡◌, ◌≤◌, length, IfOk};
ghost use Rattle.dns_tsig.specs.Found.{Finds};
ghost use Rattle.dns_tsig.specs.Verify.{by_key, is_algorithm, is_key_of, verdict_from, verdict_of};

use crate::covered::Coverage;
use crate::found::{Found, Signature, find_tsig};
use crate::judge::{Judgement, judgement_of};
use crate::key::{Key, algorithm_name};
use std::alloc::{AllocError, Global};

/// By whom a request was signed. A key is given by its index among the keys.
#[derive(Clone, Copy, Debug, PartialEq, Eq)]
pub enum Verdict {
    /// The request has no TSIG record.
    Unsigned,
    /// The request is refused with FORMERR: its TSIG record cannot be read or is not its last record, or the length of its code
    /// is not allowed.
    FormErr,
    /// The request is refused with NOTAUTH and BADKEY: no key has this name and algorithm.
    BadKey,
    /// The request is refused with NOTAUTH and BADSIG: its code is wrong.
    BadSig(usize),
    /// The request is refused with NOTAUTH and BADTIME: it was signed too early or too late.
    BadTime(usize),
    /// The request is refused with NOTAUTH and BADTRUNC: its code is shorter than the key allows.
    BadTrunc(usize),
    /// A holder of the key signed the request.
    Verified(usize),
}

/// A request, and by whom it was signed.
#[derive(Drop)]
pub struct Checked<'m> {
    /// The TSIG record.
    pub found: Found<'m>,
    /// By whom the request was signed.
    pub verdict: Verdict,
}

/// Verifies a request, at a time in seconds since 1 January 1970 (UTC). The steps are in the order of the RFC: the key, the code,
/// the time, and the truncation.
pub fn verify_request<'m>(
    alloc: Global,
    keys: &[Key],
    request: &'m [u8],
    now: u64,
) -> Result<Checked<'m>, AllocError>
    ensures found { IfOk result (λ checked. Finds request.now checked.found) }
    ensures verdict { IfOk result (λ checked.
        checked.verdict ≡ verdict_of keys.now request.now checked.found now) }
{
    let found = find_tsig(alloc, request)?;
    let verdict = verdict_of(keys, request, &found, now);
    Ok(Checked { found, verdict })
}

/// Returns by whom a request was signed.
fn verdict_of(keys: &[Key], request: &[u8], found: &Found<'_>, now: u64) -> Verdict
    requires { Finds request.now found.now }
    ensures { result ≡ verdict_of keys.now request.now found.now now }
{
    match found {
        Found::Unsigned => Verdict::Unsigned,
        Found::Malformed => Verdict::FormErr,
        Found::Signed(signature) => verdict_by_keys(keys, request, signature, now),
    }
}

/// Returns by which of the keys a request was signed: the first with the name and the algorithm of its TSIG record.
fn verdict_by_keys(keys: &[Key], request: &[u8], signature: &Signature<'_>, now: u64) -> Verdict
    requires after_header { 12 ≤ signature.now.place }
    requires within { signature.now.place ≤ length request.now }
    ensures { result ≡ verdict_from 0 keys.now request.now signature.now now }
{
    let _count = keys.len();
    let mut index = 0_usize;
    let mut rest = keys;
    while let [key, more @ ..] = rest {
        if is_key_of(key, signature) {
            let judgement = judgement_of(key, &[], request, signature, Coverage::Variables, now);
            return by_key(index, judgement);
        }
        index += 1;
        rest = more;
    }
    Verdict::BadKey
}

/// Returns the verdict of a judgement by the key at an index.
fn by_key(index: usize, judgement: Judgement) -> Verdict
    ensures { result ≡ by_key index judgement }
{
    match judgement {
        Judgement::FormErr => Verdict::FormErr,
        Judgement::BadSig => Verdict::BadSig(index),
        Judgement::BadTime => Verdict::BadTime(index),
        Judgement::BadTrunc => Verdict::BadTrunc(index),
        Judgement::Verified => Verdict::Verified(index),
    }
}

/// Returns `true` if a TSIG record has the name and the algorithm of a key. Case does not matter.
pub fn is_key_of(key: &Key, signature: &Signature<'_>) -> bool
    ensures { result ≡ is_key_of key.now signature.now }
{
    key.name.as_slice() == signature.name.as_slice()
        && is_algorithm(algorithm_name(key.algorithm), signature.tsig.algorithm())
}

/// Returns `true` if two names of algorithms are equal but for case.
fn is_algorithm(name: &[u8], other: &[u8]) -> bool
    ensures { result ≡ is_algorithm name.now other.now }
{
    name.eq_ignore_ascii_case(other)
}
