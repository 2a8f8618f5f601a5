//! Messages that are signed one after another (RFC 8945 section 5.3.1).

ghost use Rattle.std.specs.Prelude.{◌≡◌, ◌<◌, length, false, IfOk, IsTrue};
ghost use Rattle.dns_tsig.specs.declared.covered.Coverage.TheVariants as covers;

use dns_tsig::{Coverage, Key, SignError, Terms, sign};
use std::alloc::{AllocError, Global};

/// The greatest length of a message over a stream, in bytes (RFC 1035 section 4.2.2).
const MAX_MESSAGE_LEN: usize = 65_535;

/// The fudge of signed messages, in seconds (RFC 8945 section 10).
const FUDGE: u16 = 300;

/// Signs the messages of a reply with a key, one after another: the first covers the code of the request, and each further one that of
/// the message before it, with the timers alone.
pub(crate) struct StreamSigner<'k> {
    key: &'k Key,
    /// The code of the request, or of the message before.
    prior: Vec<u8>,
    coverage: Coverage,
    /// The time of signing, in seconds since 1 January 1970 (UTC).
    time: u64,
    ghost short: { length prior.items < 65536 },
}

impl Drop for StreamSigner<'_> {
    fn drop(self) {
        let StreamSigner {
            key: _key,
            prior,
            coverage: _coverage,
            time: _time,
        } = self;
        drop(prior);
    }
}

impl<'k> StreamSigner<'k> {
    ghost use Rattle.dns_transfers.specs.replies.Signing.{IsFull, SignsNext};

    /// Creates a signer for the reply to a request with a code, which has signed nothing.
    pub(crate) fn new(
        alloc: Global,
        key: &'k Key,
        request_code: &[u8],
        time: u64,
    ) -> Result<StreamSigner<'k>, AllocError>
        requires { length request_code.now < 65536 }
        ensures prior { IfOk result (λ signer. signer.prior.items ≡ request_code.now) }
        ensures coverage { IfOk result (λ signer. signer.coverage ≡ covers.Variables) }
        ensures time { IfOk result (λ signer. signer.time ≡ time) }
        ensures key { IfOk result (λ signer. signer.key.now ≡ key.now) }
    {
        Ok(StreamSigner {
            key,
            prior: Vec::from_slice(alloc, request_code)?,
            coverage: Coverage::Variables,
            time,
        })
    }

    /// Signs the next message. Returns `false` if it has no room for a signature; then no further message may be signed.
    pub(crate) fn sign_next(
        &mut self,
        alloc: Global,
        message: &mut Vec<u8>,
    ) -> Result<bool, AllocError>
        ensures signed { IfOk result (λ has_room. IsTrue has_room
            → SignsNext self.old message.old.items self.new message.new.items) }
        ensures full { IfOk result (λ has_room. has_room ≡ false → IsFull self.old.key.now
            self.old.time self.old.prior.items self.old.coverage message.old.items) }
    {
        let terms = Terms {
            time: self.time,
            fudge: FUDGE,
            error: 0,
            other: &[],
        };
        let prior = self.prior.as_slice();
        match sign(alloc, self.key, prior, message, &terms, self.coverage) {
            Ok(code) => {
                self.prior = Vec::from_slice(alloc, code.as_slice())?;
                self.coverage = Coverage::Timers;
                Ok(message.len() <= MAX_MESSAGE_LEN)
            }
            // The memory for the record was refused.
            Err(SignError::Memory) => Err(AllocError),
            Err(SignError::NoHeader | SignError::Full | SignError::NoKey) => Ok(false),
        }
    }
}
