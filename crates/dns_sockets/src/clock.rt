//! The time of a service.

use std::io;
use std::time::{Clock, Instant};

/// A time in milliseconds since the service began.
pub type Milliseconds = u64;

/// A clock that begins at 0, and never goes back.
#[derive(Clone, Copy)]
pub(crate) struct ServiceClock {
    start: Instant,
}

impl ServiceClock {
    /// Starts a clock.
    pub(crate) fn start(clock: &impl Clock) -> io::Result<ServiceClock> {
        let start = Instant::now(clock)?;
        Ok(ServiceClock { start })
    }

    /// Returns the time.
    pub(crate) fn now(&self, clock: &impl Clock) -> io::Result<Milliseconds> {
        let elapsed = self.start.elapsed(clock)?;
        Ok(
            elapsed
                .as_secs()
                .saturating_mul(1_000)
                .saturating_add(u64::from(elapsed.subsec_millis())),
        )
    }
}
