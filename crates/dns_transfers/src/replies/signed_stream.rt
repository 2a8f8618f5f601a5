//! The messages of a reply over a stream, each signed (RFC 8945 section 5.3.1).

ghost use Rattle.std.specs.Prelude.{◌≡◌, ◌<◌, length, map, false, IfOk, IsTrue};
ghost use Rattle.dns_tsig.specs.declared.covered.Coverage.TheVariants as covers;
ghost use Rattle.dns_transfers.specs.replies.Signing.{GetsFull, SignsEach};

use crate::replies::signing::StreamSigner;
use dns_tsig::Key;
use std::alloc::{AllocError, Global};

/// Signs the messages of the reply to a request with a code, one after another. Returns `false` if one of them has no room for a
/// signature.
pub(crate) fn sign_each(
    alloc: Global,
    key: &Key,
    request_code: &[u8],
    time: u64,
    messages: &mut [Vec<u8>],
) -> Result<bool, AllocError>
    requires { length request_code.now < 65536 }
    ensures signed { IfOk result (λ have_room. IsTrue have_room → SignsEach key.now time
        request_code.now covers.Variables (map (λ bytes. bytes.items) messages.old)
        (map (λ bytes. bytes.items) messages.new)) }
    ensures full { IfOk result (λ have_room. have_room ≡ false → GetsFull key.now time
        request_code.now covers.Variables (map (λ bytes. bytes.items) messages.old)) }
{
    let mut signer = StreamSigner::new(alloc, key, request_code, time)?;
    for message in messages.iter_mut() {
        if !signer.sign_next(alloc, message)? {
            return Ok(false);
        }
    }
    Ok(true)
}
