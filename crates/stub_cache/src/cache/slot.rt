//! Entries with their stamps, in memory of their own.

ghost use Rattle.std.specs.Prelude.{◌≡◌, IfOk};

use super::entry::Entry;
use std::alloc::{AllocError, Global};
use std::marker::Model;

/// An entry with its stamp. It is in memory of its own, so that a table that grows moves a pointer.
#[derive(Drop)]
pub struct Slot {
    /// The older of two entries has the lower stamp.
    stamp: u64,
    entry: Box<Entry>,
}

impl Model for Slot {
    ghost use Rattle.std.specs.Prelude.{ℕ};
    ghost use Rattle.stub_cache.specs.declared.cache.entry.Entry.{Entry};

    ghost Value = { ℕ × Entry };

    ghost view = { λ slot. (slot.stamp, slot.entry.value) };
}

impl Slot {
    /// Creates a slot with an entry and its stamp.
    pub fn new(alloc: Global, stamp: u64, entry: Entry) -> Result<Slot, AllocError>
        ensures { IfOk result (λ slot. slot ≡ (stamp, entry)) }
    {
        Ok(Slot {
            stamp,
            entry: Box::new(alloc, entry)?,
        })
    }

    /// Returns the stamp of the entry.
    pub fn stamp(&self) -> u64
        ensures { result ≡ self.now.0 }
    {
        self.stamp
    }

    /// Returns the entry.
    pub fn entry(&self) -> &Entry
        ensures { result.now ≡ self.now.1 }
    {
        &self.entry
    }
}
