//! Entries in slots, with an index of their questions and a timeline of their deadlines.

ghost use Rattle.std.specs.Prelude.{◌≡◌, ◌≢◌, ◌+◌, ◌<◌, ◌^◌, ◌++◌, [], ◌∷◌, ℕ, List, None, Some, IfOk, IfSome, IsSome, OnOk, OnErr, option_copied};
ghost use Rattle.std.specs.List.{find};
ghost use Rattle.dns_messages.specs.declared.query.Query.{Query};
ghost use Rattle.stub_cache.specs.Cache.{cleared_of, is_current, staying};
ghost use Rattle.stub_cache.specs.internal.Key.{key_of};
ghost use Rattle.stub_cache.specs.internal.Table.{IsIndexed, entries_of, entries_without, slot_at, slot_in, stamped, stored_at};

use super::entry::Entry;
use super::key::{QuestionKey, push_question};
use super::slot::Slot;
use dns_messages::Query;
use slab::Slab;
use std::alloc::{AllocError, Global};
use std::collections::{BTreeMap, BTreeSet, HashMap};
use stub_lookup::Moment;

/// Entries in slots, with an index and a timeline. A new entry has a greater stamp than all others.
#[derive(Drop)]
pub struct EntryTable {
    /// The entries, with their stamps. The next insertion takes a slot that is free.
    slots: Slab<Slot>,
    /// The slot of the entry for a question, by the question's key.
    index: HashMap<Vec<u8>, usize>,
    /// The deadline of each entry, with its stamp and its slot. The first entry leaves first.
    timeline: BTreeSet<(Moment, u64, usize)>,
    /// The stamp of the next entry.
    next_stamp: u64,
    /// The stamp at which the entries are renumbered.
    stamp_limit: u64,
    alloc: Global,
}

impl EntryTable {
    /// Creates an empty table, whose entries are renumbered when the next stamp has reached a limit.
    pub fn new(alloc: Global, stamp_limit: u64) -> EntryTable
        ensures entries { entries_of result ≡ [] }
        ensures indexed { IsIndexed None result }
        ensures next_stamp { result.next_stamp ≡ 0 }
    {
        EntryTable {
            slots: Slab::new(alloc),
            index: HashMap::new(alloc),
            timeline: BTreeSet::new(alloc),
            next_stamp: 0,
            stamp_limit,
            alloc,
        }
    }

    /// Returns the entry for a question, if there is one that is current at a moment.
    pub fn find_current(&self, query: &Query, now: Moment) -> Option<&Entry>
        requires { IsIndexed None self.now }
        ensures { option_copied result ≡ find (is_current query.now now) (entries_of self.now) }
    {
        let slot = self.find_slot(query)?;
        let stored = self.slots.get(slot)?;
        let entry = stored.entry();
        if now <= entry.deadline {
            Some(entry)
        } else {
            None
        }
    }

    /// Stores an entry in place of the one for the same question. If there is none and the number of entries has reached
    /// a capacity, the entry with the earliest deadline is removed, the oldest of these.
    pub fn insert(&mut self, capacity: u64, entry: Entry) -> Result<(), AllocError>
        requires { IsIndexed None self.old }
        ensures stored { OnOk result (entries_of self.new
            ≡ staying capacity entry.question (entries_of self.old) ++ entry ∷ []) }
        ensures memory { OnErr result (entries_of self.new ≡ entries_of self.old) }
        ensures indexed { IsIndexed None self.new }
    {
        self.reserve_stamp()?;
        let mut question = QuestionKey::new();
        push_question(&mut question, &entry.question);
        let leaving = self.find_leaving(capacity, question.as_slice());
        self.append(entry, question.as_slice())?;
        if let Some(slot) = leaving {
            self.remove(slot);
        }
        Ok(())
    }

    /// Removes all entries.
    pub fn clear(&mut self)
        requires { IsIndexed None self.old }
        ensures entries { entries_of self.new ≡ [] }
        ensures indexed { IsIndexed None self.new }
    {
        self.slots.clear();
        self.index.clear();
        self.timeline.clear();
    }

    /// Removes the entry for a question, if there is one.
    pub fn clear_query(&mut self, query: &Query)
        requires { IsIndexed None self.old }
        ensures entries { entries_of self.new ≡ cleared_of query.now (entries_of self.old) }
        ensures indexed { IsIndexed None self.new }
    {
        if let Some(found) = self.find_slot(query) {
            self.remove(found);
        }
    }

    /// Returns the slot of the entry for a question.
    fn find_slot(&self, query: &Query) -> Option<usize>
        ensures { result ≡ slot_at self.now (key_of query.now) }
    {
        let mut key = QuestionKey::new();
        push_question(&mut key, query);
        self.slot_of(key.as_slice())
    }

    /// Returns the slot to which a key leads.
    fn slot_of(&self, key: &[u8]) -> Option<usize>
        ensures { result ≡ slot_at self.now key.now }
    {
        self.index.get(key).copied()
    }

    /// Returns the slot of the entry that makes room for one for the question of a key, if any does.
    fn find_leaving(&self, capacity: u64, key: &[u8]) -> Option<usize>
        requires { IsIndexed None self.now }
        ensures entries { (q : Query) → key.now ≡ key_of q
            → entries_without result self.now ≡ staying capacity q (entries_of self.now) }
        ensures present { IfSome result (λ slot. IsSome (stored_at self.now slot)) }
        ensures known { IsSome (slot_at self.now key.now)
            → result ≡ slot_at self.now key.now }
    {
        if let Some(slot) = self.slot_of(key) {
            return Some(slot);
        }
        if (self.slots.len() as u64) < capacity {
            return None;
        }
        let (_, _, slot) = self.timeline.first()?;
        Some(*slot)
    }

    /// Appends an entry for the question of a key. One for the same question is no longer found by its key, and is to be
    /// removed.
    fn append(&mut self, entry: Entry, question: &[u8]) -> Result<(), AllocError>
        requires key { question.now ≡ key_of entry.question }
        requires indexed { IsIndexed None self.old }
        requires fits { self.old.next_stamp + 1 < 2 ^ 64 }
        ensures entries { OnOk result (stamped self.new
            ≡ stamped self.old ++ (self.old.next_stamp, entry) ∷ []) }
        ensures slots { OnOk result ((slot : ℕ) → IsSome (stored_at self.old slot)
            → stored_at self.new slot ≡ stored_at self.old slot) }
        ensures indexed { OnOk result
            (IsIndexed (slot_at self.old (key_of entry.question)) self.new) }
        ensures next_stamp { OnOk result (self.new.next_stamp ≡ self.old.next_stamp + 1) }
        ensures memory { OnErr result (entries_of self.new ≡ entries_of self.old) }
        ensures undone { OnErr result (IsIndexed None self.new) }
    {
        let stamp = self.next_stamp;
        let deadline = entry.deadline;
        let key = Vec::from_slice(self.alloc, question)?;
        let stored = Slot::new(self.alloc, stamp, entry)?;
        self.slots.reserve(1)?;
        let slot = self.slots.vacant_key();
        self.timeline.insert((deadline, stamp, slot))?;
        let Ok(_) = self.index.insert(key, slot) else {
            self.timeline.remove(&(deadline, stamp, slot));
            // The index had no memory for the key.
            return Err(AllocError);
        };
        self.slots.insert_reserved(stored);
        self.next_stamp = stamp + 1;
        Ok(())
    }

    /// Removes the entry in a slot, if there is one.
    fn remove(&mut self, slot: usize)
        requires { IsIndexed (Some slot) self.old }
        ensures entries { entries_of self.new ≡ entries_without (Some slot) self.old }
        ensures indexed { IsIndexed None self.new }
    {
        let Some(removed) = self.slots.try_remove(slot) else {
            return;
        };
        let stamp = removed.stamp();
        let entry = removed.entry();
        self.timeline.remove(&(entry.deadline, stamp, slot));
        let mut key = QuestionKey::new();
        push_question(&mut key, &entry.question);
        remove_key(&mut self.index, key.as_slice(), slot);
    }

    /// Renumbers the entries if the next stamp has reached the limit.
    fn reserve_stamp(&mut self) -> Result<(), AllocError>
        requires { IsIndexed None self.old }
        ensures entries { entries_of self.new ≡ entries_of self.old }
        ensures indexed { IsIndexed None self.new }
        ensures next_stamp { OnOk result (self.new.next_stamp + 1 < 2 ^ 64) }
    {
        if self.next_stamp < self.stamp_limit {
            return Ok(());
        }
        self.renumber()
    }

    /// Renumbers the entries from 0. The table is replaced by a copy.
    fn renumber(&mut self) -> Result<(), AllocError>
        requires { IsIndexed None self.old }
        ensures entries { entries_of self.new ≡ entries_of self.old }
        ensures indexed { IsIndexed None self.new }
        ensures next_stamp { OnOk result (self.new.next_stamp < 2 ^ 63) }
    {
        let copies = self.clone_entries()?;
        let mut renumbered = EntryTable::new(self.alloc, self.stamp_limit);
        for (_stamp, entry) in copies {
            let mut question = QuestionKey::new();
            push_question(&mut question, &entry.question);
            renumbered.append(entry, question.as_slice())?;
        }
        *self = renumbered;
        Ok(())
    }

    /// Clones the entries, by their stamps.
    fn clone_entries(&self) -> Result<BTreeMap<u64, Entry>, AllocError>
        ensures { IfOk result (λ copies. copies.entries ≡ stamped self.now) }
    {
        let mut copies = BTreeMap::new(self.alloc);
        for slot in (0..self.slots.capacity()).rev() {
            if let Some(stored) = self.slots.get(slot) {
                copies.insert(stored.stamp(), stored.entry().clone()?)?;
            }
        }
        Ok(copies)
    }
}

/// Removes a key from the index of questions, if it leads to a slot.
fn remove_key(index: &mut HashMap<Vec<u8>, usize>, key: &[u8], slot: usize)
    ensures key { slot_in index.new key.now ≢ Some slot }
    ensures others { (other : List ℕ) (found : ℕ) → found ≢ slot
        → slot_in index.old other ≡ Some found → slot_in index.new other ≡ Some found }
    ensures only { (other : List ℕ) (found : ℕ)
        → slot_in index.new other ≡ Some found → slot_in index.old other ≡ Some found }
{
    let Some(found) = index.get(key).copied() else {
        return;
    };
    if found == slot {
        index.remove(key);
    }
}
