//! A client: it answers questions for special-use names by itself, and others from its cache or by asking its handle.

ghost use Rattle.std.specs.Prelude.{◌≡◌, ◌≤◌, ◌⊎◌, ◌^◌, []};

mod answers;
mod chain;
mod local_reply;
mod step;
mod storing;

use crate::handle::DnsHandle;
use dns_messages::{Query, Record, Sequence};
use local_reply::{LocalReply, local_reply};
use std::alloc::{AllocError, Global};
use step::{LookupSettings, Step, step_of};
use storing::{store_answer, store_message, store_reply};
use stub_cache::{ResponseCache, TtlConfig};
use stub_config::DnsRequestOptions;
use stub_lookup::{Lookup, Moment, NetError, NoRecords};

/// A client of a handle, with a cache. It follows aliases.
#[derive(Drop)]
pub struct CachingClient<C> {
    pub(crate) handle: C,
    pub(crate) cache: ResponseCache,
    pub(crate) preserve_intermediates: bool,
    alloc: Global,
}

impl<C> CachingClient<C> {
    ghost use Rattle.std.specs.Borrow.{sem, Lends};
    ghost use Rattle.stub_client.specs.contracts.caching_client.CachingClient.{the_row as client_row};

    /// Returns the handle.
    pub fn handle(&self) -> &C
        ensures { result.now ≡ self.now.handle }
    {
        &self.handle
    }

    /// Returns a mutable reference to the handle.
    pub fn handle_mut(&mut self) -> &mut C
        ensures value { result.now ≡ self.old.handle }
        ensures* lends { sem 𝓛 (Lends (client_row C.row) C.row self.entry result
            (λ handle. record self.old { handle = handle })) }
    {
        &mut self.handle
    }

    /// Returns the handle, and drops the cache.
    pub fn into_handle(self) -> C
        ensures { result ≡ self.handle }
    {
        self.handle
    }
}

impl<C: DnsHandle> CachingClient<C> {
    ghost use Rattle.stub_cache.specs.Cache.{cleared_of};
    ghost use Rattle.stub_cache.specs.Ttl.{default_bounds, plain_config};
    ghost use Rattle.dns_messages.specs.declared.response_code.ResponseCode.{ResponseCode};
    ghost use Rattle.stub_lookup.specs.Error.{no_records};
    ghost use Rattle.stub_client.specs.Looks.{Answers, negative};
    ghost use Rattle.stub_client.specs.SpecialNames.{special_answer};
    ghost use Rattle.stub_client.specs.declared.special_names.SpecialAnswer.TheVariants as special;
    ghost use Rattle.stub_client.specs.Step.{max_depth};
    ghost use Rattle.stub_client.specs.internal.Looks.{LooksUp, Tries, IsAsked, IsNotAsked};

    /// Creates a client of a handle, with an empty cache of a capacity and default bounds of TTLs.
    ///
    /// `preserve_intermediates` tells whether answers have the aliases that lead to them.
    pub fn new(
        alloc: Global,
        max_size: u64,
        handle: C,
        preserve_intermediates: bool,
    ) -> CachingClient<C>
        ensures handle { result.handle ≡ handle }
        ensures cache { result.cache ≡ record {
          entries = [];
          capacity = max_size;
          config = plain_config default_bounds;
        } }
        ensures aliases { result.preserve_intermediates ≡ preserve_intermediates }
    {
        let cache = ResponseCache::new(alloc, max_size, TtlConfig::default(alloc));
        CachingClient::with_cache(alloc, cache, handle, preserve_intermediates)
    }

    /// Creates a client of a handle, with a cache.
    pub fn with_cache(
        alloc: Global,
        cache: ResponseCache,
        handle: C,
        preserve_intermediates: bool,
    ) -> CachingClient<C>
        ensures handle { result.handle ≡ handle }
        ensures cache { result.cache ≡ cache }
        ensures aliases { result.preserve_intermediates ≡ preserve_intermediates }
    {
        CachingClient {
            handle,
            cache,
            preserve_intermediates,
            alloc,
        }
    }

    /// Removes all entries of the cache.
    pub fn clear_cache(&mut self)
        ensures { self.new ≡ record self.old { cache = record self.old.cache { entries = [] } } }
    {
        self.cache.clear();
    }

    /// Removes the entry of the cache for a question, if there is one.
    pub fn clear_cache_query(&mut self, query: &Query)
        ensures { self.new ≡ record self.old {
          cache = record self.old.cache {
            entries = cleared_of query.now self.old.cache.entries;
          };
        } }
    {
        self.cache.clear_query(query);
    }

    /// Looks up a question at a moment: as a special-use name (RFC 6761), or in the cache, or else by asking the handle.
    ///
    /// A response that [`DnsError::from_response`] takes for an error is returned as this error; a negative answer is
    /// stored, and no other error is. In any other response, the aliases among the answers lead from the name of the
    /// question to another name, and so do SRV records, to their targets; a question for aliases, or for all types, follows
    /// none. The records of any section are found that have the type and the class of the question and are at either name.
    /// If there are some, the lookup has the response, which is stored; its TTLs are within the bounds of their types, and
    /// it is valid as long as it is stored. If the end of the aliases was found, the answers are what was found, with TTLs
    /// of at most those of the aliases, unless intermediates are preserved. If there are none, but the response has aliases
    /// and the SOA record of a negative answer, the question has this negative answer, which is stored (RFC 2308 section
    /// 2.1). Otherwise, the end of the aliases is looked up in the same way. What that returns is returned and stored for
    /// the question. At most eight questions are asked. If there is no record, the error is [`DnsError::NoRecordsFound`]. A
    /// special-use name that does not exist, or has no records of the type, is answered without memory.
    pub fn lookup(
        &mut self,
        query: Query,
        options: DnsRequestOptions,
        now: Moment,
    ) -> Result<Lookup, NetError>
        requires { now ≤ 2 ^ 62 }
        ensures lookup { Answers C.gives options now self.old query result self.new }
        ensures decided { (code : ResponseCode) → special_answer query ≡ special.Nothing code
            → result ≡ negative (no_records query code) }
    {
        let none = Sequence::new(self.alloc);
        self.look_up(query, none, 0, options, now)
    }

    /// Looks up a question at a depth of aliases, with those that are kept.
    fn look_up(
        &mut self,
        query: Query,
        kept: Sequence<Record>,
        depth: u8,
        options: DnsRequestOptions,
        now: Moment,
    ) -> Result<Lookup, NetError>
        requires moment { now ≤ 2 ^ 62 }
        requires depth { depth ≤ max_depth }
        ensures { LooksUp C.gives options now depth kept self.old query result self.new }
    {
        match local_reply(self.alloc, &self.cache, &query, now) {
            Ok(LocalReply::Complete(reply)) => return reply,
            Ok(LocalReply::Nothing(code)) => {
                return Err(NetError::from(NoRecords::new(query, code)));
            }
            Ok(LocalReply::Asks) => {}
            // There was no memory for the reply.
            Err(_) => return Err(NetError::Memory),
        }
        match self.next_step(&query, kept, depth, options, now) {
            Step::Gives(message) => store_message(&mut self.cache, query, message, now),
            Step::Misses(answer) => store_answer(&mut self.cache, query, answer, now),
            Step::Stops(error) => Err(error),
            Step::Follows(target, aliases) => {
                let reply = self.look_up(target, aliases, depth + 1, options, now);
                store_reply(self.alloc, &mut self.cache, query, reply, now)
            }
        }
    }

    /// Asks the handle a question, and returns the step that its outcome leads to.
    fn next_step(
        &mut self,
        query: &Query,
        kept: Sequence<Record>,
        depth: u8,
        options: DnsRequestOptions,
        now: Moment,
    ) -> Step
        ensures handle { IsNotAsked self.old result self.new
            ⊎ IsAsked C.gives options now depth kept self.old query.now result self.new }
        ensures rest { self.new ≡ record self.old { handle = self.new.handle } }
    {
        match self.ask(query, kept, depth, options, now) {
            Ok(step) => step,
            // There was no memory for the question, or for what its outcome means.
            Err(_) => Step::Stops(NetError::Memory),
        }
    }

    /// Asks the handle a question, and returns the step that its outcome leads to, if there is memory for them.
    fn ask(
        &mut self,
        query: &Query,
        kept: Sequence<Record>,
        depth: u8,
        options: DnsRequestOptions,
        now: Moment,
    ) -> Result<Step, AllocError>
        ensures handle { Tries C.gives options now depth kept self.old query.now result self.new }
        ensures rest { self.new ≡ record self.old { handle = self.new.handle } }
    {
        let question = query.clone()?;
        let outcome = self.handle.lookup(self.alloc, question, options, now);
        let settings = LookupSettings {
            preserve_intermediates: self.preserve_intermediates,
            dnssec_ok: options.edns_set_dnssec_ok,
        };
        step_of(self.alloc, settings, query, kept, depth, outcome)
    }
}
