//! The secondaries of a zone, and the messages that they are sent.

ghost use Rattle.std.specs.Prelude.{◌≡◌, ◌++◌, [], ◌∷◌, IfOk, OnOk, OnErr};
ghost use Rattle.dns_notify.specs.Notifications.{after_due, due_address, first_moment, new_secondary};
ghost use Rattle.dns_notify.specs.notifier.Notifier.{IsAnnounced, Receives, with_notifications};

use crate::notifier::notification::encoded_notification;
use crate::notifier::response::is_response;
use crate::{Notifications, Retries};
use dns_names::Name;
use dns_records::Record;
use std::alloc::{AllocError, Global};
use std::marker::Model;
use std::net::SocketAddr;

/// The secondaries of a zone, and the notification of its last change.
///
/// Moments are milliseconds from a start that the caller chooses.
pub struct Notifier {
    alloc: Global,
    origin: Name,
    /// The id of the notification.
    id: u16,
    /// The bytes of the notification.
    message: Vec<u8>,
    notifications: Notifications,
}

impl Drop for Notifier {
    fn drop(self) {
        let Notifier {
            alloc: _alloc,
            origin,
            id: _id,
            message,
            notifications,
        } = self;
        drop(origin);
        drop(message);
        drop(notifications);
    }
}

impl Model for Notifier {
    ghost use Rattle.dns_notify.specs.notifier.Notifier.{NotifierContent};

    ghost Value = { NotifierContent };

    ghost view = { λ n. record {
      origin = n.origin;
      id = n.id;
      message = n.message.items;
      notifications = n.notifications;
    } };
}

impl Notifier {
    /// Creates a notifier for the zone with an origin. It has no secondaries.
    pub fn new(alloc: Global, origin: Name, retries: Retries) -> Notifier
        ensures { result ≡ record {
          origin = origin;
          id = 0;
          message = [];
          notifications = record { retries = retries; secondaries = [] };
        } }
    {
        Notifier {
            alloc,
            origin,
            id: 0,
            message: Vec::new(alloc),
            notifications: Notifications::new(alloc, retries),
        }
    }

    /// Adds a secondary. An error leaves the notifier unchanged.
    pub fn add(&mut self, address: SocketAddr) -> Result<(), AllocError>
        ensures ok { OnOk result (self.new ≡ with_notifications self.old
            (record self.old.notifications {
              secondaries = self.old.notifications.secondaries ++ new_secondary address ∷ [];
            })) }
        ensures err { OnErr result (self.new ≡ self.old) }
    {
        self.notifications.add(address)
    }

    /// Announces a change at `now`, after which the zone has this SOA record: a message with an id, which the caller draws at
    /// random, is due for each secondary at once. An error leaves the notifier unchanged.
    pub fn announce(&mut self, id: u16, start: &Record, now: u64) -> Result<(), AllocError>
        ensures ok { OnOk result (IsAnnounced id start.now now self.old self.new) }
        ensures err { OnErr result (self.new ≡ self.old) }
    {
        self.message = encoded_notification(self.alloc, id, &self.origin, start)?;
        self.id = id;
        self.notifications.announce(now);
        Ok(())
    }

    /// Returns the bytes of the notification.
    pub fn message(&self) -> &[u8]
        ensures { result.now ≡ self.now.message }
    {
        self.message.as_slice()
    }

    /// Returns the earliest moment at which a copy is due, or `None` if none will be.
    pub fn next_moment(&self) -> Option<u64>
        ensures { result ≡ first_moment self.now.notifications.secondaries }
    {
        self.notifications.next_moment()
    }

    /// Returns the address of the first secondary for which a copy is due, which the caller sends.
    pub fn next_due(&mut self, now: u64) -> Option<SocketAddr>
        ensures address { result ≡ due_address now self.old.notifications.secondaries }
        ensures left { self.new
            ≡ with_notifications self.old (after_due now self.old.notifications) }
    {
        self.notifications.next_due(now)
    }

    /// Takes bytes from an address. Returns `true` if they are a response that was expected: no further copies are due for the
    /// secondary at the address. An error leaves the notifier unchanged.
    pub fn receive(&mut self, bytes: &[u8], from: SocketAddr) -> Result<bool, AllocError>
        ensures ok { IfOk result (λ was_expected.
            Receives from bytes.now self.old was_expected self.new) }
        ensures err { OnErr result (self.new ≡ self.old) }
    {
        if is_response(self.alloc, self.id, &self.origin, bytes)? {
            return Ok(self.notifications.receive_response(from));
        }
        Ok(false)
    }
}
