//! The cache of responses.

ghost use Rattle.std.specs.Prelude.{◌≡◌, ◌⊎◌, ◌≤◌, ◌^◌, [], None, IfOk, IsOk, OnOk, OnErr, Ok, Err};

mod ageing;
mod clamping;
mod entry;
mod key;
mod slot;
mod table;

use crate::ttl::TtlConfig;
use clamping::{clamp_message, positive_lifetime};
use dns_messages::{Message, Query};
use dns_wire::RecordType;
use entry::Entry;
use std::alloc::{AllocError, Global};
use std::marker::Model;
use stub_lookup::{Moment, NetError, NoRecords};
use table::EntryTable;

/// A cache of responses and of negative answers (RFC 1034 section 5.3.3, RFC 2308 section 5).
///
/// Each entry has a deadline, after which it is not returned. What is returned has the TTLs that are left.
#[derive(Drop)]
pub struct ResponseCache {
    table: EntryTable,
    capacity: u64,
    config: TtlConfig,
}

impl Model for ResponseCache {
    ghost use Rattle.std.specs.Prelude.{None};
    ghost use Rattle.stub_cache.specs.Cache.{CacheContent};
    ghost use Rattle.stub_cache.specs.internal.Table.{IsIndexed, entries_of};

    ghost Value = { CacheContent };

    ghost view = { λ c. record { entries = entries_of c.table; capacity = c.capacity; config = c.config } };

    ghost invariant = { λ c. IsIndexed None c.table };
}

impl ResponseCache {
    ghost use Rattle.stub_cache.specs.Cache.{cleared_of, current, inserted, kept_of_result, storing, storing_any};
    ghost use Rattle.stub_cache.specs.Ttl.{clamped, positive_lifetime};

    /// Creates an empty cache with a capacity: the maximum number of its entries.
    pub fn new(alloc: Global, capacity: u64, ttl_config: TtlConfig) -> ResponseCache
        ensures { result ≡ record { entries = []; capacity = capacity; config = ttl_config } }
    {
        ResponseCache::with_stamp_limit(alloc, capacity, ttl_config, u64::MAX)
    }

    /// Creates an empty cache as [`new`](ResponseCache::new) does, with a limit of the stamps by which it keeps its
    /// entries in order. When it has given out this many, the next insertion renumbers the entries. The limit has no
    /// effect on what the cache stores or returns; a low one is for tests.
    pub fn with_stamp_limit(
        alloc: Global,
        capacity: u64,
        ttl_config: TtlConfig,
        stamp_limit: u64,
    ) -> ResponseCache
        ensures { result ≡ record { entries = []; capacity = capacity; config = ttl_config } }
    {
        ResponseCache {
            table: EntryTable::new(alloc, stamp_limit),
            capacity,
            config: ttl_config,
        }
    }

    /// Stores the response to a question, or a negative answer, at a moment.
    ///
    /// The TTLs of a response are brought within the bounds of their types. It is current for the least of the TTLs of
    /// the answers that have the type of the question or are aliases; for `NS`, of the NS records of the answer and
    /// authority sections. A negative answer is current for its `negative_ttl`, within the bounds of the type of the
    /// question (RFC 2308 section 5). An entry for the same question is replaced. If there is none and the cache is
    /// full, the entry with the earliest deadline is removed, the oldest of these. Other errors are not stored, nor is
    /// anything in a cache of capacity 0, and neither takes memory. If memory runs out, the cache is left as it was.
    pub fn insert(
        &mut self,
        query: Query,
        reply: Result<Message, NetError>,
        now: Moment,
    ) -> Result<(), AllocError>
        requires { now ≤ 2 ^ 62 }
        ensures stored { OnOk result
            (self.new ≡ storing_any self.old query (kept_of_result reply) now) }
        ensures memory { OnErr result (self.new ≡ self.old) }
        ensures decided { (self.old.capacity ≡ 0) ⊎ (kept_of_result reply ≡ None) → IsOk result }
    {
        match reply {
            Ok(message) => self.insert_message(query, message, now),
            Err(error) => match error.into_no_records() {
                Ok(answer) => self.insert_answer(query, answer, now),
                Err(_) => Ok(()),
            },
        }
    }

    /// Stores the response to a question at a moment, as [`insert`](ResponseCache::insert) does.
    pub fn insert_message(
        &mut self,
        query: Query,
        message: Message,
        now: Moment,
    ) -> Result<(), AllocError>
        requires { now ≤ 2 ^ 62 }
        ensures stored { OnOk result (self.new ≡ storing self.old query (Ok message) now) }
        ensures memory { OnErr result (self.new ≡ self.old) }
        ensures decided { self.old.capacity ≡ 0 → IsOk result }
    {
        let entry = Entry::positive(&self.config, query, message, now);
        self.store(entry)
    }

    /// Stores a negative answer to a question at a moment, as [`insert`](ResponseCache::insert) does (RFC 2308 section 5).
    pub fn insert_answer(
        &mut self,
        query: Query,
        answer: NoRecords,
        now: Moment,
    ) -> Result<(), AllocError>
        requires { now ≤ 2 ^ 62 }
        ensures stored { OnOk result (self.new ≡ storing self.old query (Err answer) now) }
        ensures memory { OnErr result (self.new ≡ self.old) }
        ensures decided { self.old.capacity ≡ 0 → IsOk result }
    {
        let entry = Entry::negative(&self.config, query, answer, now);
        self.store(entry)
    }

    /// Stores an entry in place of those for the same question, or of the one that is due first if the cache is full.
    fn store(&mut self, entry: Entry) -> Result<(), AllocError>
        ensures stored { OnOk result (self.new ≡ record self.old {
          entries = inserted self.old.capacity self.old.entries entry;
        }) }
        ensures memory { OnErr result (self.new ≡ self.old) }
        ensures decided { self.old.capacity ≡ 0 → IsOk result }
    {
        if self.capacity == 0 {
            return Ok(());
        }
        self.table.insert(self.capacity, entry)
    }

    /// Returns a copy of what is stored for a question, if it is current at a moment. Its TTLs are reduced by the seconds
    /// since it was stored, to 0 at the least. Where nothing current is stored, no memory is taken.
    pub fn get(
        &self,
        query: &Query,
        now: Moment,
    ) -> Result<Option<Result<Message, NoRecords>>, AllocError>
        ensures found { IfOk result (λ found. found ≡ current self.now.entries query.now now) }
        ensures decided { current self.now.entries query.now now ≡ None → result ≡ Ok None }
    {
        match self.table.find_current(query, now) {
            Some(entry) => entry.reply_at(now),
            None => Ok(None),
        }
    }

    /// Brings the TTLs of the records of a message within the bounds of their types, and returns for how long the
    /// message is stored as the response to a question of a type, in seconds.
    pub fn clamp_positive_ttls(&self, query_type: RecordType, message: &mut Message) -> u32
        ensures message { message.new ≡ clamped self.now.config message.old }
        ensures lifetime { result ≡ positive_lifetime self.now.config query_type message.new }
    {
        clamp_message(&self.config, message);
        positive_lifetime(&self.config, query_type, message)
    }

    /// Removes all entries.
    pub fn clear(&mut self)
        ensures { self.new ≡ record self.old { entries = [] } }
    {
        self.table.clear();
    }

    /// Removes the entry for a question, if there is one.
    pub fn clear_query(&mut self, query: &Query)
        ensures { self.new ≡ record self.old { entries = cleared_of query.now self.old.entries } }
    {
        self.table.clear_query(query);
    }
}
