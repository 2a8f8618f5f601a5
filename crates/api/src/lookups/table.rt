//! A resolver, and its lookups by number.

ghost use Rattle.std.specs.Prelude.{◌≡◌, IfErr, IfOk};
ghost use Rattle.api.specs.buffer.Arguments.{name_in};
ghost use Rattle.api.specs.declared.buffer.refusal.Refusal.TheVariants as buffer;
ghost use Rattle.api.specs.lookups.Answers.{found_as};
ghost use Rattle.api.specs.lookups.Table.{Answers, Awaits, Begins, Fails, IsFirstTable, IsUnnamed, Receives, Removes, StepsAt, StepsByMessage, TimesOut, lookup_at};
ghost use Rattle.api.specs.lookups.Servers.{AreNoServers};

use crate::buffer::{Refusal, name_in};
use crate::lookups::answer::answer_of;
use crate::lookups::endpoint::endpoint_in;
use crate::lookups::refusal::LookupRefusal;
use crate::lookups::servers::{config_of, options_of};
use api_resolver::{Awaited, OpenLookup, StepResolver};
use dns_names::Name;
use dns_wire::RecordType;
use std::alloc::Global;
use std::collections::BTreeMap;
use std::net::SocketAddr;

/// A resolver, and its lookups by number.
#[derive(Drop)]
pub struct LookupTable {
    resolver: StepResolver,
    lookups: BTreeMap<u64, OpenLookup>,
    next: u64,
}

impl LookupTable {
    /// Creates a resolver without lookups, and with an empty cache.
    ///
    /// `servers` are the addresses of its servers and their ports, each as for [`endpoint_in`]. `timeout` is how long to wait for a
    /// reply, in milliseconds, `attempts` how many rounds are made through the servers, and `cache_size` how many responses are
    /// cached.
    ///
    /// # Errors
    ///
    /// - [`LookupRefusal::Endpoint`] if the number of bytes is not a multiple of that of an address with its port;
    /// - [`LookupRefusal::Memory`] if memory is refused.
    pub fn new(
        alloc: Global,
        servers: &[u8],
        timeout: u32,
        attempts: u32,
        cache_size: u32,
    ) -> Result<LookupTable, LookupRefusal>
        ensures made { IfOk result (IsFirstTable servers.now timeout attempts cache_size) }
        ensures refused { IfErr result (AreNoServers servers.now) }
    {
        let config = config_of(alloc, servers)?;
        let options = options_of(alloc, attempts, cache_size);
        let resolver = StepResolver::new(alloc, &config, options, u64::from(timeout))?;
        Ok(LookupTable {
            resolver,
            lookups: BTreeMap::new(alloc),
            next: 1,
        })
    }

    /// Begins a lookup of the records of a name and a type, at a moment in milliseconds of the caller's clock, and returns its number,
    /// which is that of no other.
    ///
    /// `ids` are the ids of the messages to come, one for each question that the lookup asks, of which there are at most eight. They
    /// must be unpredictable (RFC 5452 section 9.2).
    ///
    /// # Errors
    ///
    /// - [`LookupRefusal::Name`] if the text is no name;
    /// - [`LookupRefusal::NoNumber`] if 2^64 - 2 lookups were begun;
    /// - [`LookupRefusal::Memory`] if memory is refused: the cache may have what the lookup found.
    pub fn begin(
        &mut self,
        alloc: Global,
        name: &[u8],
        record_type: u16,
        ids: &[u16],
        clock: u64,
    ) -> Result<u64, LookupRefusal>
        ensures { Begins self.old name.now record_type ids.now clock result self.new }
    {
        let name = named(alloc, name)?;
        let ids = Vec::from_slice(alloc, ids)?;
        let number = self.next;
        let Some(next) = number.checked_add(1) else {
            return Err(LookupRefusal::NoNumber);
        };
        let kind = RecordType::from(record_type);
        let lookup = self.resolver.begin(name, kind, ids, clock);
        match self.lookups.insert(number, lookup) {
            Ok(_) => {
                self.next = next;
                Ok(number)
            }
            // Memory was refused for the place of the lookup.
            Err(_) => Err(LookupRefusal::Memory),
        }
    }

    /// Returns the message whose reply a lookup awaits.
    ///
    /// # Errors
    ///
    /// - [`LookupRefusal::NoLookup`] if no lookup has the number;
    /// - [`LookupRefusal::Ended`] if the lookup has ended.
    pub fn awaited(&self, number: u64) -> Result<(usize, &Awaited), LookupRefusal>
        ensures { Awaits self.now number (found_as (λ found. (found.0, found.1.now)) result) }
    {
        match self.lookups.get(&number) {
            Some(lookup) => match lookup.awaited() {
                Some(awaited) => Ok((lookup.exchanges(), awaited)),
                None => Err(LookupRefusal::Ended),
            },
            None => Err(LookupRefusal::NoLookup),
        }
    }

    /// Tells a lookup that a message was received: a datagram, or the reply over a stream. A message from another server than the one
    /// that it awaits is dropped.
    ///
    /// # Errors
    ///
    /// - [`LookupRefusal::Endpoint`] if `from` is no address with its port;
    /// - [`LookupRefusal::NoLookup`] if no lookup has the number;
    /// - [`LookupRefusal::Memory`] if memory is refused for the message.
    pub fn received(
        &mut self,
        alloc: Global,
        number: u64,
        message: &[u8],
        from: &[u8],
        clock: u64,
    ) -> Result<(), LookupRefusal>
        ensures { Receives self.old number message.now from.now clock result self.new }
    {
        let Some(from) = endpoint_in(from) else {
            return Err(LookupRefusal::Endpoint);
        };
        let bytes = Vec::from_slice(alloc, message)?;
        self.receive(number, bytes, from, clock)
    }

    /// Tells a lookup that a message was received from a server.
    fn receive(
        &mut self,
        number: u64,
        message: Vec<u8>,
        from: SocketAddr,
        clock: u64,
    ) -> Result<(), LookupRefusal>
        ensures { StepsAt (StepsByMessage message.items from clock) number self.old
            (lookup_at self.old number) result self.new }
    {
        match self.lookups.get_mut(&number) {
            Some(lookup) => {
                self.resolver.received(lookup, message, from, clock);
                Ok(())
            }
            None => Err(LookupRefusal::NoLookup),
        }
    }

    /// Tells a lookup that the deadline of its wait has passed.
    ///
    /// The error is [`LookupRefusal::NoLookup`] if no lookup has the number.
    pub fn timed_out(&mut self, number: u64, clock: u64) -> Result<(), LookupRefusal>
        ensures { TimesOut self.old number clock result self.new }
    {
        match self.lookups.get_mut(&number) {
            Some(lookup) => {
                self.resolver.timed_out(lookup, clock);
                Ok(())
            }
            None => Err(LookupRefusal::NoLookup),
        }
    }

    /// Tells a lookup that its message could not be sent, or that no reply can be received.
    ///
    /// The error is [`LookupRefusal::NoLookup`] if no lookup has the number.
    pub fn failed(&mut self, number: u64, clock: u64) -> Result<(), LookupRefusal>
        ensures { Fails self.old number clock result self.new }
    {
        match self.lookups.get_mut(&number) {
            Some(lookup) => {
                self.resolver.failed(lookup, clock);
                Ok(())
            }
            None => Err(LookupRefusal::NoLookup),
        }
    }

    /// Returns the records that a lookup found, each on a line.
    ///
    /// # Errors
    ///
    /// - [`LookupRefusal::NoLookup`] if no lookup has the number;
    /// - [`LookupRefusal::Waiting`] if the lookup has not ended;
    /// - why it found nothing;
    /// - [`LookupRefusal::Memory`] if memory is refused.
    pub fn answer(&self, alloc: Global, number: u64) -> Result<Vec<u8>, LookupRefusal>
        ensures { Answers self.now number (found_as (λ bytes. bytes.items) result) }
    {
        match self.lookups.get(&number) {
            Some(lookup) => answer_of(alloc, lookup.state()),
            None => Err(LookupRefusal::NoLookup),
        }
    }

    /// Removes a lookup, whether it has ended or not.
    ///
    /// The error is [`LookupRefusal::NoLookup`] if no lookup has the number.
    pub fn discard(&mut self, number: u64) -> Result<(), LookupRefusal>
        ensures { Removes self.old number result self.new }
    {
        match self.lookups.remove(&number) {
            Some(lookup) => {
                drop(lookup);
                Ok(())
            }
            None => Err(LookupRefusal::NoLookup),
        }
    }
}

/// Returns the fully qualified name that a text is.
fn named(alloc: Global, text: &[u8]) -> Result<Name, LookupRefusal>
    ensures name { IfOk result (λ name. name_in text.now ≡ Ok name) }
    ensures refused { IfErr result (IsUnnamed text.now) }
{
    match name_in(alloc, text) {
        Ok(name) => Ok(name),
        Err(Refusal::Name) => Err(LookupRefusal::Name),
        // Memory was refused for the name.
        Err(_) => Err(LookupRefusal::Memory),
    }
}
