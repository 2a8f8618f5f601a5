//! The secondaries of a zone.

ghost use Rattle.std.specs.Prelude.{◌≡◌, ◌++◌, [], ◌∷◌, ◌<◌, length, map, position, IfSome, OnOk, OnErr};
ghost use Rattle.dns_notify.specs.Notifications.{after_due, after_first_due, after_response, announced, announced_to, due_address, earlier, first_moment, is_expected, new_secondary, responded};
ghost use Rattle.dns_notify.specs.Secondary.{is_due};

use crate::retries::Retries;
use crate::secondary::Secondary;
use std::alloc::{AllocError, Global};
use std::marker::Model;
use std::net::SocketAddr;

/// The secondaries of a zone, and the notifications of a change that they have not responded to.
///
/// Moments are milliseconds from a start that the caller chooses.
#[derive(Drop)]
pub struct Notifications {
    retries: Retries,
    secondaries: Vec<Secondary>,
}

impl Model for Notifications {
    ghost use Rattle.dns_notify.specs.Notifications.{NotificationsContent};

    ghost Value = { NotificationsContent };

    ghost view = { λ n. record { retries = n.retries; secondaries = n.secondaries.items } };
}

impl Notifications {
    /// Creates a list without secondaries. No memory is taken.
    pub fn new(alloc: Global, retries: Retries) -> Notifications
        ensures { result ≡ record { retries = retries; secondaries = [] } }
    {
        Notifications {
            retries,
            secondaries: Vec::new(alloc),
        }
    }

    /// Adds a secondary, which no notification is sent to until the next change. An error leaves the list unchanged.
    pub fn add(&mut self, address: SocketAddr) -> Result<(), AllocError>
        ensures ok { OnOk result (self.new ≡ record self.old {
          secondaries = self.old.secondaries ++ new_secondary address ∷ [];
        }) }
        ensures err { OnErr result (self.new ≡ self.old) }
    {
        self.secondaries.push(Secondary {
            address,
            pending: None,
        })?;
        Ok(())
    }

    /// Announces a change: the first copy of a notification is due at `now` for each secondary. It takes the place of the
    /// notification of an earlier change.
    pub fn announce(&mut self, now: u64)
        ensures { self.new ≡ announced now self.old }
    {
        announce_to(self.secondaries.as_mut_slice(), &self.retries, now);
    }

    /// Returns the earliest moment at which a copy is due, or `None` if none will be.
    pub fn next_moment(&self) -> Option<u64>
        ensures { result ≡ first_moment self.now.secondaries }
    {
        first_moment(self.secondaries.as_slice())
    }

    /// Returns the address of the first secondary for which a copy is due, which the caller sends. The copy after it is due after
    /// the next interval, unless this was the last one.
    #[tactic(auto, using(crate::proofs::SecondaryLaws::none_due, crate::proofs::SecondaryLaws::none_left))]
    pub fn next_due(&mut self, now: u64) -> Option<SocketAddr>
        ensures address { result ≡ due_address now self.old.secondaries }
        ensures left { self.new ≡ after_due now self.old }
    {
        match due_place(self.secondaries.as_slice(), now) {
            Some(place) => Some(count_copy_at(
                self.secondaries.as_mut_slice(),
                place,
                &self.retries,
                now,
            )),
            None => None,
        }
    }

    /// Takes a response from an address, after which no further copies are due for the secondary at it. Returns `true` if there
    /// were any.
    pub fn receive_response(&mut self, address: SocketAddr) -> bool
        ensures expected { result ≡ is_expected address self.old.secondaries }
        ensures left { self.new ≡ responded address self.old }
    {
        let is_expected = self
            .secondaries
            .iter()
            .any(|secondary| secondary.expects(address));
        take_response(self.secondaries.as_mut_slice(), address);
        is_expected
    }
}

/// Makes the first copy of a notification due for each secondary.
fn announce_to(secondaries: &mut [Secondary], retries: &Retries, now: u64)
    ensures { secondaries.new ≡ announced_to retries.now now secondaries.old }
{
    for secondary in secondaries.iter_mut() {
        secondary.announce(retries, now);
    }
}

/// Returns the earliest moment at which a copy is due.
fn first_moment(secondaries: &[Secondary]) -> Option<u64>
    ensures { result ≡ first_moment secondaries.now }
{
    let mut first = None;
    for secondary in secondaries {
        first = earlier(first, secondary.moment());
    }
    first
}

/// Returns the earlier of two moments, if there are two.
fn earlier(moment: Option<u64>, other: Option<u64>) -> Option<u64>
    ensures { result ≡ earlier moment other }
{
    match (moment, other) {
        (Some(moment), Some(other)) => Some(moment.min(other)),
        (moment, None) => moment,
        (None, other) => other,
    }
}

/// Returns the place of the first secondary for which a copy is due.
fn due_place(secondaries: &[Secondary], now: u64) -> Option<usize>
    ensures place { result ≡ position (is_due now) secondaries.now }
    ensures within { IfSome result (λ place. place < length secondaries.now) }
{
    secondaries
        .iter()
        .position(|secondary| secondary.is_due(now))
}

/// Counts a copy for the secondary at a place, the first for which one is due, and returns its address.
fn count_copy_at(
    secondaries: &mut [Secondary],
    place: usize,
    retries: &Retries,
    now: u64,
) -> SocketAddr
    requires place { position (is_due now) secondaries.old ≡ Some place }
    requires within { place < length secondaries.old }
    ensures address { Some result ≡ due_address now secondaries.old }
    ensures left { secondaries.new ≡ after_first_due retries.now now secondaries.old }
{
    let secondary = &mut secondaries[place];
    secondary.count_copy(retries, now);
    secondary.address
}

/// Drops the notifications of the secondaries at an address.
fn take_response(secondaries: &mut [Secondary], address: SocketAddr)
    ensures { secondaries.new ≡ map (after_response address) secondaries.old }
{
    for secondary in secondaries.iter_mut() {
        secondary.receive_response(address);
    }
}
