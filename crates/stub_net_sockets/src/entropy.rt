//! Sources of random bytes.

ghost use Rattle.std.specs.Prelude.{◌≡◌, ◌++◌};

use std::random::RandomSource;

/// Gives random bytes.
pub trait Entropy {
    ghost use Rattle.std.specs.Prelude.{IsSome, List, ℕ};

    /// From a state, these bytes may be given, leading to that state.
    ghost gives: { Self → List ℕ → Self → Type 0 };

    /// Fills a buffer with random bytes, or returns `None` if there are not enough.
    fn fill(&mut self, buffer: &mut [u8]) -> Option<()>
        ensures { IsSome result → gives self.old buffer.new self.new };
}

/// The system's entropy. No clause says which bytes it gives. `R` is the runtime, or a reference to it.
#[derive(Drop)]
pub struct SystemEntropy<R> {
    rt: R,
}

impl<R> SystemEntropy<R> {
    /// Creates a source of the system's entropy.
    pub fn new(rt: R) -> SystemEntropy<R>
        ensures { result.rt ≡ rt }
    {
        SystemEntropy { rt }
    }
}

impl<R: RandomSource> Entropy for SystemEntropy<R> {
    ghost gives = { λ _ _ _. Unit {0} };

    fn fill(&mut self, buffer: &mut [u8]) -> Option<()> {
        match self.rt.fill_bytes(buffer) {
            Ok(()) => Some(()),
            Err(_) => None,
        }
    }
}

/// Bytes of a list, which are given in order, each once.
#[derive(Drop)]
pub struct ListedEntropy<'a> {
    rest: &'a [u8],
}

impl<'a> ListedEntropy<'a> {
    /// Creates a source of the bytes of a list.
    pub fn new(bytes: &'a [u8]) -> ListedEntropy<'a>
        ensures { result.rest.now ≡ bytes.now }
    {
        ListedEntropy { rest: bytes }
    }
}

impl Entropy for ListedEntropy<'_> {
    ghost gives = { λ old bytes new. old.rest.now ≡ bytes ++ new.rest.now };

    fn fill(&mut self, buffer: &mut [u8]) -> Option<()> {
        let rest = self.rest;
        if rest.len() < buffer.len() {
            return None;
        }
        let (bytes, rest) = rest.split_at(buffer.len());
        buffer.copy_from_slice(bytes);
        self.rest = rest;
        Some(())
    }
}
