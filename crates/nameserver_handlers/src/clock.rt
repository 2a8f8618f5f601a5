//! The time of day.

ghost use Rattle.nameserver_handlers.specs.Clock.{Shows};

use dns_sockets::Milliseconds;
use std::time::Clock;

/// The clock by which signatures are in time.
#[derive(Clone, Copy)]
pub enum WallClock {
    /// That of the system.
    System,
    /// One that shows these seconds since 1970 at moment 0, and goes on with the moments of requests.
    From(u64),
}

impl WallClock {
    /// Returns the seconds since 1970 at the moment of a request. Without a clock they are 0, so that no signature is in time.
    pub fn seconds<R: Clock>(self, rt: &R, moment: Milliseconds) -> u64
        ensures { Shows self moment result }
    {
        match self {
            WallClock::System => rt.since_1970().map_or(0, |time| time.as_secs()),
            WallClock::From(start) => start.saturating_add(moment / 1_000),
        }
    }
}
