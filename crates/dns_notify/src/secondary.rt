//! Secondaries, and the notifications that they have not responded to.

ghost use Rattle.std.specs.Prelude.{◌≡◌};
ghost use Rattle.dns_notify.specs.Notifications.{after_response};
ghost use Rattle.dns_notify.specs.Secondary.{after_pending, announcement, is_due, is_expected_from, moment_of, pending_if, same_address, same_ip, with_pending};

use crate::retries::{Retries, later};
use std::net::{IpAddr, SocketAddr};

/// A notification that a secondary has not responded to, and of which copies are left.
#[derive(Clone, Copy)]
pub(crate) struct Pending {
    /// How many copies are left.
    pub(crate) copies_left: u32,
    /// When the next copy is due, in milliseconds.
    pub(crate) moment: u64,
    /// How long after the next copy the one after it is due, in milliseconds.
    pub(crate) interval: u64,
}

/// A secondary, and the notification that it has not responded to.
#[derive(Clone, Copy)]
pub(crate) struct Secondary {
    pub(crate) address: SocketAddr,
    pub(crate) pending: Option<Pending>,
}

/// Returns a notification of which so many copies are left, or `None` if there are none.
fn pending_if(copies_left: u32, moment: u64, interval: u64) -> Option<Pending>
    ensures { result ≡ pending_if copies_left moment interval }
{
    if copies_left == 0 {
        return None;
    }
    Some(Pending {
        copies_left,
        moment,
        interval,
    })
}

impl Secondary {
    /// Makes the first copy of a notification due at once. It takes the place of an earlier notification.
    pub(crate) fn announce(&mut self, retries: &Retries, now: u64)
        ensures { self.new ≡ with_pending (announcement retries.now now) self.old }
    {
        self.pending = pending_if(retries.copies, now, retries.first_interval);
    }

    /// Returns `true` if the next copy is due at `now`, in milliseconds.
    pub(crate) fn is_due(&self, now: u64) -> bool
        ensures { result ≡ is_due now self.now }
    {
        match self.moment() {
            Some(moment) => moment <= now,
            None => false,
        }
    }

    /// Returns when the next copy is due, in milliseconds.
    pub(crate) fn moment(&self) -> Option<u64>
        ensures { result ≡ moment_of self.now }
    {
        match self.pending {
            Some(pending) => Some(pending.moment),
            None => None,
        }
    }

    /// Returns `true` if a response from an address is expected from the secondary.
    pub(crate) fn expects(&self, address: SocketAddr) -> bool
        ensures { result ≡ is_expected_from address self.now }
    {
        same_address(address, self.address) && self.pending.is_some()
    }

    /// Drops the notification if a response came from the secondary's address.
    pub(crate) fn receive_response(&mut self, address: SocketAddr)
        ensures { self.new ≡ after_response address self.old }
    {
        if same_address(address, self.address) {
            self.pending = None;
        }
    }

    /// Counts a copy that is sent at `now`, in milliseconds.
    pub(crate) fn count_copy(&mut self, retries: &Retries, now: u64)
        ensures { self.new
            ≡ with_pending (after_pending retries.now now self.old.pending) self.old }
    {
        if let Some(pending) = self.pending {
            self.pending = pending_if(
                pending.copies_left.saturating_sub(1),
                later(now, pending.interval),
                retries.longer(pending.interval),
            );
        }
    }
}

/// Returns `true` if addresses and ports are the same (RFC 1996 section 3.6).
fn same_address(one: SocketAddr, other: SocketAddr) -> bool
    ensures { result ≡ same_address one other }
{
    same_ip(one.ip(), other.ip()) && one.port() == other.port()
}

/// Returns `true` if addresses are of one family and have the same octets or segments.
fn same_ip(one: IpAddr, other: IpAddr) -> bool
    ensures { result ≡ same_ip one other }
{
    match (one, other) {
        (IpAddr::V4(one), IpAddr::V4(other)) => one.octets() == other.octets(),
        (IpAddr::V6(one), IpAddr::V6(other)) => one.segments() == other.segments(),
        _ => false,
    }
}
