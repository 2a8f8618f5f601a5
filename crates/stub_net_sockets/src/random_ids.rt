//! Ids from random bytes.

ghost use Rattle.std.specs.Prelude.{◌≡◌, ◌<◌, ◌≤◌, None, IfSome, IsSome};
ghost use Rattle.stub_net_sockets.specs.RandomIds.{Takes};

use crate::entropy::Entropy;
use stub_net::IdSource;

/// How many random bytes are drawn at once: as many as the system gives in a call.
const BUFFER_LEN: usize = 256;

/// Draws ids at random (RFC 5452 section 9.2), from random bytes of which each is used once.
#[derive(Drop)]
pub struct RandomIds<E> {
    entropy: E,
    bytes: [u8; BUFFER_LEN],
    used: usize,
}

impl<E: Entropy> RandomIds<E> {
    /// Creates a source of ids, which has drawn no bytes.
    pub fn new(entropy: E) -> RandomIds<E>
        ensures entropy { result.entropy ≡ entropy }
        ensures used { result.used ≡ 256 }
    {
        RandomIds {
            entropy,
            bytes: [0u8; BUFFER_LEN],
            used: BUFFER_LEN,
        }
    }

    /// Takes two of the bytes that were drawn, if they are left.
    fn take(&mut self) -> Option<u16>
        ensures taken { IfSome result (λ id. Takes self.old id self.new) }
        ensures none { result ≡ None → 254 < self.old.used }
        ensures unchanged { result ≡ None → self.new ≡ self.old }
        ensures kept { self.old.used ≤ 254 → IsSome result }
    {
        let place = self.used;
        if place > BUFFER_LEN - 2 {
            return None;
        }
        self.used = place + 2;
        Some(256 * u16::from(self.bytes[place]) + u16::from(self.bytes[place + 1]))
    }

    /// Draws bytes.
    fn refill(&mut self) -> Option<()>
        ensures given { IsSome result → E.gives self.old.entropy self.new.bytes self.new.entropy }
        ensures used { IsSome result → self.new.used ≡ 0 }
        ensures kept { result ≡ None → self.new.used ≡ self.old.used }
    {
        self.entropy.fill(&mut self.bytes)?;
        self.used = 0;
        Some(())
    }
}

impl<E: Entropy> IdSource for RandomIds<E> {
    ghost use Rattle.stub_net_sockets.specs.RandomIds.{Draws};

    ghost draws = { λ old id new. Draws E.gives old id new };

    /// Draws an id, or `None` if there are no random bytes.
    fn draw(&mut self) -> Option<u16> {
        if let Some(id) = self.take() {
            return Some(id);
        }
        self.refill()?;
        self.take()
    }
}
