//! How often a notification is repeated (RFC 1996 section 3.6).

ghost use Rattle.std.specs.Prelude.{◌≡◌};
ghost use Rattle.dns_notify.specs.Retries.{later, longer};

/// How many copies of a notification a secondary is sent if it does not respond, and after which intervals.
#[derive(Clone, Copy, Debug, PartialEq, Eq)]
pub struct Retries {
    /// The maximum number of copies.
    pub copies: u32,
    /// The interval after the first copy, in milliseconds. Each further one is twice as long.
    pub first_interval: u64,
    /// The maximum of the further intervals, in milliseconds.
    pub max_interval: u64,
}

impl Retries {
    /// Returns the interval that follows another, in milliseconds.
    pub(crate) fn longer(&self, interval: u64) -> u64
        ensures { result ≡ longer self.now interval }
    {
        interval.saturating_mul(2).min(self.max_interval)
    }
}

/// Returns the moment after an interval, in milliseconds. It is at most `u64::MAX`.
pub(crate) fn later(now: u64, interval: u64) -> u64
    ensures { result ≡ later now interval }
{
    now.saturating_add(interval)
}
