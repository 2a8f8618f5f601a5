//! Notifications of each new serial number of a zone.

ghost use Rattle.std.specs.Prelude.{◌≡◌, None, IfOk, OnErr};
ghost use Rattle.dns_notify.specs.notifier.Follower.{Follows, same_serial};

use crate::notifier::notifier::Notifier;
use dns_differences::serials::data_serial;
use dns_records::Record;
use std::alloc::AllocError;

/// The secondaries of a zone, which are notified of each new serial number of the zone.
pub struct Follower {
    /// The secondaries.
    pub notifier: Notifier,
    /// The serial number that was announced last.
    pub serial: Option<u32>,
}

impl Drop for Follower {
    fn drop(self) {
        let Follower {
            notifier,
            serial: _serial,
        } = self;
        drop(notifier);
    }
}

impl Follower {
    /// Creates a follower that has announced nothing.
    pub fn new(notifier: Notifier) -> Follower
        ensures notifier { result.notifier ≡ notifier }
        ensures serial { result.serial ≡ None }
    {
        Follower {
            notifier,
            serial: None,
        }
    }

    /// Takes the SOA record that a zone has at `now`. If its serial number is not the one that was announced last, it is announced
    /// with an id, which the caller draws at random, and the result is `true`. An error leaves the follower unchanged.
    pub fn follow(&mut self, id: u16, start: &Record, now: u64) -> Result<bool, AllocError>
        ensures ok { IfOk result (λ is_new. Follows id start.now now self.old is_new self.new) }
        ensures err { OnErr result (self.new ≡ self.old) }
    {
        let serial = data_serial(&start.rdata);
        if is_same(serial, self.serial) {
            return Ok(false);
        }
        self.notifier.announce(id, start, now)?;
        self.serial = serial;
        Ok(true)
    }
}

/// Returns `true` if two serial numbers are the same, or if there is none.
fn is_same(serial: Option<u32>, other: Option<u32>) -> bool
    ensures { result ≡ same_serial serial other }
{
    match (serial, other) {
        (Some(serial), Some(other)) => serial == other,
        (None, None) => true,
        _ => false,
    }
}
