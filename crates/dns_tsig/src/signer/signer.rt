//! A requestor with a key.

ghost use Rattle.std.specs.Prelude.{◌≡◌, ◌≢◌, ◌<◌, ◌≤◌, [], length, IfOk, IfErr, IsOk, OnErr, Some, None};
ghost use Rattle.dns_tsig.specs.Sign.{refusal_of};
ghost use Rattle.dns_tsig.specs.signer.Signer.{Checks, SignsRequest, accepted_bytes, checked_bytes};
ghost use Rattle.dns_tsig.specs.signer.Refusal.{error_of_code};
ghost use Rattle.dns_tsig.specs.signer.Plain.{plain_message};

use crate::hmac::Code;
use crate::signer::judged::refusal_of;
use crate::signer::plain::plain_message;
use crate::signer::refusal::{Refusal, TsigError};
use crate::{CheckedReply, Coverage, Found, Key, SignError, Signature, sign_request, verify_reply};
use std::alloc::{AllocError, Global};

/// A reply that a holder of the key signed for the last request.
#[derive(Drop)]
pub struct Accepted {
    /// The reply without its TSIG record.
    pub message: Vec<u8>,
    /// The error that the server reports of the signature of the request, whose response code is then NOTAUTH.
    pub error: Option<TsigError>,
}

/// Signs requests with a key, and accepts the replies to the last of them.
#[derive(Drop)]
pub struct Signer {
    key: Key,
    code: Code,
}

impl Signer {
    /// Creates a requestor with a key, which has signed nothing yet.
    pub fn new(key: Key) -> Signer
        ensures key { result.key ≡ key }
        ensures code { result.code.items ≡ [] }
    {
        Signer {
            key,
            code: Code::new(),
        }
    }

    /// Returns a request with a signature at a time, in seconds since 1 January 1970 (UTC). On an error, the last request stays the
    /// one that was signed before.
    ///
    /// # Errors
    ///
    /// - [`SignError::NoHeader`] if the request is shorter than a header;
    /// - [`SignError::Full`] if its ARCOUNT is 65,535;
    /// - [`SignError::Memory`] if memory is refused.
    pub fn sign(&mut self, alloc: Global, request: &[u8], now: u64) -> Result<Vec<u8>, SignError>
        ensures signed { IfOk result (λ signed. SignsRequest self.old.key request.now now
            self.new.code.items signed.items) }
        ensures refused { IfErr result (λ error. error ≢ SignError.Memory
            → refusal_of request.now ≡ Some error) }
        ensures allowed { IsOk result → refusal_of request.now ≡ None }
        ensures key { self.new.key ≡ self.old.key }
        ensures unchanged { OnErr result (self.new.code ≡ self.old.code) }
    {
        let mut signed = Vec::from_slice(alloc, request)?;
        self.code = sign_request(alloc, &self.key, &mut signed, now)?;
        Ok(signed)
    }

    /// Checks a reply at a time, in seconds since 1 January 1970 (UTC). It is accepted if a holder of the key signed it for the last
    /// request, within the fudge of this time; otherwise the result says why it is refused, and a wait for the reply goes on.
    pub fn check(
        &self,
        alloc: Global,
        reply: &[u8],
        now: u64,
    ) -> Result<Result<Accepted, Refusal>, AllocError>
        ensures { IfOk result (λ outcome. Checks self.now.key self.now.code.items reply.now now
            (checked_bytes outcome)) }
    {
        let coverage = Coverage::Variables;
        let CheckedReply { found, verdict } = verify_reply(
            alloc,
            &self.key,
            self.code.as_slice(),
            reply,
            coverage,
            now,
        )?;
        match &found {
            Found::Unsigned => Ok(Err(Refusal::Unsigned)),
            Found::Malformed => Ok(Err(Refusal::Unreadable)),
            Found::Signed(signature) => match refusal_of(verdict, signature) {
                Some(refusal) => Ok(Err(refusal)),
                None => Ok(Ok(accepted_reply(alloc, reply, signature)?)),
            },
        }
    }
}

/// Returns a reply without its signature.
fn accepted_reply(
    alloc: Global,
    reply: &[u8],
    signature: &Signature<'_>,
) -> Result<Accepted, AllocError>
    requires after_header { 12 ≤ signature.now.place }
    requires within { signature.now.place ≤ length reply.now }
    ensures message { IfOk result (λ accepted. accepted.message.items
        ≡ plain_message reply.now signature.now.place) }
    ensures error { IfOk result (λ accepted.
        accepted.error ≡ error_of_code signature.now.tsig.error) }
{
    let error = TsigError::of_code(signature.tsig.error());
    let message = plain_message(alloc, reply, signature.place)?;
    Ok(Accepted { message, error })
}
