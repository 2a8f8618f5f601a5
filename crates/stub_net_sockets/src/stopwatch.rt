//! A clock that counts milliseconds.

ghost use Rattle.std.specs.Prelude.{◌≡◌, ◌≤◌, IfOk};

use std::io;
use std::time::{Clock, Instant};

/// A clock that counts milliseconds from a moment, and does not go back.
#[derive(Drop)]
pub struct Stopwatch<R> {
    rt: R,
    start: Instant,
    last: u64,
}

impl<R: Clock + Drop> Stopwatch<R> {
    /// Creates a clock that counts from now. `rt` is the runtime, or a reference to it.
    ///
    /// The error is that of the system's clock.
    pub fn start(rt: R) -> io::Result<Stopwatch<R>>
        ensures { IfOk result (λ clock. clock.last ≡ 0) }
    {
        let start = Instant::now(&rt)?;
        Ok(Stopwatch { rt, start, last: 0 })
    }
}

impl<R: Clock> Stopwatch<R> {
    /// Returns how many milliseconds have passed. If the system's clock fails, that is what was returned last.
    pub fn milliseconds(&mut self) -> u64
        ensures last { self.new.last ≡ result }
        ensures kept { self.old.last ≤ result }
    {
        if let Ok(elapsed) = self.start.elapsed(&self.rt) {
            self.last = self
                .last
                .max(u64::try_from(elapsed.as_millis()).unwrap_or(u64::MAX));
        }
        self.last
    }
}
