//! Items by their moment, and in the order of their insertion among those with the same one.

ghost use Rattle.std.specs.Prelude.{◌≡◌, ◌==◌, ◌↔◌, [], IfErr, OnOk, OnErr, true, false, length};
ghost use Rattle.dns_sockets.specs.schedule.Schedule.{due, first_moment, is_due, is_full, left_at, scheduled};

use std::alloc::{AllocFailed, Global};
use std::collections::BTreeMap;
use std::marker::Model;
use thiserror::Error;

/// Why a schedule does not take an item.
#[derive(Clone, Copy, Debug, PartialEq, Eq, Drop, Error)]
pub enum PushFault {
    /// As many items wait as the schedule may hold, or 2^64 - 1 were inserted.
    #[error("the schedule is full")]
    Full,
    /// Memory was refused.
    #[error("out of memory")]
    Memory,
}

/// An item that a schedule did not take, and why.
#[derive(Drop)]
pub struct PushError<T> {
    /// Why the item was not taken.
    pub fault: PushFault,
    /// The item.
    pub item: T,
}

/// Items that wait for their moment, at most as many as a capacity that is fixed at creation.
///
/// Moments are milliseconds from a start that the caller chooses. The item with the earliest moment comes first, and of those
/// with the same moment the one that was inserted first. An insertion and a removal take logarithmic time.
#[derive(Drop)]
pub struct Schedule<T> {
    waiting: BTreeMap<(u64, u64), T>,
    capacity: usize,
    pushed: u64,
}

impl<T> Model for Schedule<T> {
    ghost use Rattle.dns_sockets.specs.schedule.Schedule.{ScheduleContent};
    ghost use Rattle.dns_sockets.specs.schedule.internal.Store.{waiting_of, AreBelow};

    ghost Value = { ScheduleContent T };

    ghost view = { λ s. record {
      items = waiting_of s.waiting.entries;
      capacity = s.capacity;
      pushed = s.pushed;
    } };

    ghost invariant = { λ s. AreBelow s.pushed s.waiting.entries };
}

impl<T> Schedule<T> {
    /// Creates a schedule without items, which takes at most `capacity`. No memory is taken.
    pub fn new(alloc: Global, capacity: usize) -> Schedule<T>
        ensures { result ≡ record { items = []; capacity = capacity; pushed = 0 } }
    {
        Schedule {
            waiting: BTreeMap::new(alloc),
            capacity,
            pushed: 0,
        }
    }

    /// Returns the number of items that wait.
    pub fn len(&self) -> usize
        ensures { result ≡ length self.now.items }
    {
        self.waiting.len()
    }

    /// Returns `true` if no item waits.
    pub fn is_empty(&self) -> bool
        ensures { result ≡ (length self.now.items == 0) }
    {
        self.len() == 0
    }

    /// Returns `true` if no item can be inserted.
    pub fn is_full(&self) -> bool
        ensures { result ≡ is_full self.now }
    {
        self.capacity <= self.len() || self.pushed == u64::MAX
    }

    /// Returns the earliest moment at which an item is due, in milliseconds.
    pub fn next_moment(&self) -> Option<u64>
        ensures { result ≡ first_moment self.now.items }
    {
        match self.waiting.first_key_value() {
            Some(((moment, _), _)) => Some(*moment),
            None => None,
        }
    }

    /// Returns `true` if an item is due at `now`, in milliseconds.
    pub fn is_due(&self, now: u64) -> bool
        ensures { result ≡ is_due now self.now.items }
    {
        match self.next_moment() {
            Some(moment) => moment <= now,
            None => false,
        }
    }
}

impl<T: Drop> Schedule<T> {
    /// Inserts an item that is due at a moment, in milliseconds. An item that is not taken is handed back, and the schedule
    /// stays as it was.
    pub fn push(&mut self, moment: u64, item: T) -> Result<(), PushError<T>>
        ensures ok { OnOk result (self.new ≡ scheduled self.old moment item) }
        ensures room { OnOk result (is_full self.old ≡ false) }
        ensures item { IfErr result (λ error. error.item ≡ item) }
        ensures full { IfErr result (λ error. (error.fault ≡ PushFault.Full)
            ↔ (is_full self.old ≡ true)) }
        ensures err { OnErr result (self.new ≡ self.old) }
    {
        if self.is_full() {
            return Err(PushError {
                fault: PushFault::Full,
                item,
            });
        }
        match self.waiting.insert((moment, self.pushed), item) {
            Ok(_) => {
                self.pushed += 1;
                Ok(())
            }
            Err(refused) => Err(PushError {
                // The memory for the entry was refused.
                fault: PushFault::Memory,
                item: refused.value.1,
            }),
        }
    }

    /// Takes out the first item, if its moment is `now` or earlier, in milliseconds.
    pub fn pop_due(&mut self, now: u64) -> Option<T>
        ensures item { result ≡ due now self.old.items }
        ensures left { self.new ≡ record self.old { items = left_at now self.old.items } }
    {
        if !self.is_due(now) {
            return None;
        }
        match self.waiting.pop_first() {
            Some((_, item)) => Some(item),
            None => None,
        }
    }
}
