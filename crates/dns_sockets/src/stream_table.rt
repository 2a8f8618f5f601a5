//! The connections of a service.

ghost use Rattle.std.specs.Prelude.{◌≡◌, ◌≢◌, ◌⊎◌, ◌≤◌, ◌<◌, ◌+◌, ◌++◌, [], ◌∷◌, true, false, IfSome, None, Ok, OnOk, Some, length, map, slice_get, slice_set, ℕ};
ghost use Rattle.std.specs.List.{AllByRecursion};
ghost use Rattle.dns_sockets.specs.Events.{Performs};
ghost use Rattle.dns_sockets.specs.Deadlines.{earliest, slot_deadline};
ghost use Rattle.dns_sockets.specs.Connections.{AreFollowed, AreFollowedAside, AreKept};
ghost use Rattle.dns_sockets.specs.Moments.{IsTimed};
ghost use Rattle.dns_sockets.specs.Trace.{At, EndsWith, IsAside, IsAsideEvent, Traces, moved_in};
ghost use Rattle.dns_sockets.specs.World as events;
ghost use Rattle.dns_sockets.specs.Rotation.{HasGoneOn, HasShare, IsAsActive, IsIdleAt, first_after, next_place};
ghost use Rattle.dns_sockets.specs.StreamTable.{IsFull, IsLeastActive, KeepsTurns, Vacates, closed_at, free_place, has_transfer, is_less_active, noted_at, transfers, transfers as transfers_of};

use crate::clock::Milliseconds;
use crate::handler::Handler;
use crate::stream::Stream;
use crate::world::World;
use std::alloc::Global;
use std::io;

/// For how many milliseconds the connections go on before datagrams have their turn, but for what the last of them does.
const MAX_TURN: Milliseconds = 5;

/// How many connections may have a reply of several messages that waits.
const MAX_TRANSFERS: usize = 8;

/// The connections of a service, at most a fixed number of them. There are no more places than needed.
pub(crate) struct StreamTable {
    slots: Vec<Option<Stream>>,
    capacity: usize,
    /// The index of the connection whose turn comes first.
    first: usize,
}

impl Drop for StreamTable {
    fn drop(self) {
        let StreamTable {
            slots,
            capacity: _capacity,
            first: _first,
        } = self;
        drop(slots);
    }
}

impl StreamTable {
    /// Creates a table without connections, of which it takes `capacity`.
    pub(crate) fn new(alloc: Global, capacity: usize) -> StreamTable
        ensures { result.slots.items ≡ [] }
    {
        StreamTable {
            slots: Vec::new(alloc),
            capacity,
            first: 0,
        }
    }

    /// Returns an index at which there is no connection. If there is none, the connection that has been idle for the longest
    /// time is closed. Returns `None` if there is no memory for the first connection.
    pub(crate) fn vacate<W: World>(&mut self, world: &mut W) -> Option<usize>
        ensures events { Performs W.performs world.old world.new (λ es.
            AllByRecursion IsAsideEvent es
            × AreFollowedAside self.old.slots.items self.new.slots.items (map At es)) }
        ensures vacant { IfSome result (λ index.
            slice_get self.new.slots.items index ≡ Some None) }
        ensures vacates { Performs W.performs world.old world.new (λ es.
            Vacates self.old self.new es result) }
        ensures turns { KeepsTurns self.old self.new }
    {
        if let Some(slot) = self.free_slot() {
            return Some(slot);
        }
        let count = self.slots.len();
        if self.grow() {
            return Some(count);
        }
        if count == 0 {
            return None;
        }
        Some(self.close_oldest(world))
    }

    /// Adds an index at which there is no connection. Returns `false` if there are as many as possible, or there is no memory for
    /// another one.
    fn grow(&mut self) -> bool
        ensures grown { result ≡ true
            → self.new.slots.items ≡ self.old.slots.items ++ None ∷ [] }
        ensures full { result ≡ false → self.new.slots.items ≡ self.old.slots.items }
        ensures refused { result ≡ false → IsFull self.old }
        ensures turns { KeepsTurns self.old self.new }
    {
        self.slots.len() < self.capacity && self.slots.push(None).is_ok()
    }

    /// Returns the first index at which there is no connection.
    fn free_slot(&self) -> Option<usize>
        ensures free { IfSome result (λ index. slice_get self.now.slots.items index ≡ Some None) }
        ensures first { result ≡ free_place self.now.slots.items }
    {
        self.slots.as_slice().iter().position(|slot| slot.is_none())
    }

    /// Closes the connection that has been idle for the longest time, and returns its index, or 0 if there is none.
    pub(crate) fn close_oldest<W: World>(&mut self, world: &mut W) -> usize
        ensures world { W.performs world.old (events.Closed result) world.new }
        ensures oldest { IsLeastActive self.old.slots.items result }
        ensures closed { self.new.slots.items ≡ closed_at self.old.slots.items result }
        ensures turns { KeepsTurns self.old self.new }
    {
        let oldest = least_active(self.slots.as_slice());
        self.close(world, oldest);
        oldest
    }

    /// Puts a connection at an index. One that is there is closed.
    pub(crate) fn put(&mut self, index: usize, stream: Stream)
        ensures put { self.new.slots.items ≡ slice_set self.old.slots.items index (Some stream) }
        ensures turns { KeepsTurns self.old self.new }
    {
        if index < self.slots.len() {
            self.slots[index] = Some(stream);
        }
    }

    /// Closes the connection at an index, if there is one.
    fn close<W: World>(&mut self, world: &mut W, index: usize)
        ensures world { W.performs world.old (events.Closed index) world.new }
        ensures closed { self.new.slots.items ≡ closed_at self.old.slots.items index }
        ensures first { self.new.first ≡ self.old.first }
        ensures turns { KeepsTurns self.old self.new }
    {
        world.close(index);
        if index < self.slots.len() {
            self.slots[index] = None;
        }
    }

    /// Takes note of what the system says that a connection is ready for. There may be no such connection any more.
    pub(crate) fn note(&mut self, index: usize, is_readable: bool, is_writable: bool)
        ensures kept { AreKept self.old.slots.items self.new.slots.items }
        ensures noted { self.new.slots.items
            ≡ noted_at self.old.slots.items index is_readable is_writable }
        ensures turns { KeepsTurns self.old self.new }
    {
        if index < self.slots.len() {
            if let Some(stream) = &mut self.slots[index] {
                stream.note(is_readable, is_writable);
            }
        }
    }

    /// Lets the connections go on that have something to do, one after another, until some milliseconds have passed: then the
    /// others are the first the next time. Those that have ended or have been idle for too long are closed.
    pub(crate) fn go_on<W: World, H: Handler>(
        &mut self,
        world: &mut W,
        handler: &mut H,
        buffer: &mut [u8],
    ) -> io::Result<()>
        ensures acts { Traces W.performs H.steps world.old handler.old world.new handler.new
            (λ acts. AllByRecursion IsAside acts
            × AreFollowed self.old.slots.items self.new.slots.items acts × IsTimed acts) }
        ensures rotates { OnOk result ((turns : ℕ)
            × ((0 < length self.old.slots.items → 0 < turns)
            × (self.new.first ≡ first_after turns (length self.old.slots.items)
            self.old.first))) }
        ensures share { OnOk result ((turns : ℕ)
            × ((self.new.first ≡ first_after turns (length self.old.slots.items) self.old.first)
            × Traces W.performs H.steps world.old handler.old world.new handler.new
            (HasShare turns (length self.old.slots.items)))) }
        ensures capacity { self.new.capacity ≡ self.old.capacity }
    {
        let mut now = world.now()?;
        let end = now.saturating_add(MAX_TURN);
        let mut transfers = self.transfers();
        for _slot in 0..self.slots.len() {
            if self.go_on_until(world, handler, buffer, &mut now, end, &mut transfers)? {
                return Ok(());
            }
        }
        trim(&mut self.slots);
        Ok(())
    }

    /// Lets the connection go on whose turn comes next, where so many have a reply of several messages that waits. Returns `true` if it
    /// had something to do and the time is over.
    fn go_on_until<W: World, H: Handler>(
        &mut self,
        world: &mut W,
        handler: &mut H,
        buffer: &mut [u8],
        now: &mut Milliseconds,
        end: Milliseconds,
        transfers: &mut usize,
    ) -> io::Result<bool>
        ensures acts { Traces W.performs H.steps world.old handler.old world.new handler.new
            (λ acts. AllByRecursion IsAside acts
            × AreFollowed self.old.slots.items self.new.slots.items acts × IsTimed acts) }
        ensures first { self.new.first
            ≡ next_place (length self.old.slots.items) self.old.first + 1 }
        ensures count { length self.new.slots.items ≡ length self.old.slots.items }
        ensures over { result ≡ Ok true → (end ≤ now.new)
            × Traces W.performs H.steps world.old handler.old world.new handler.new
            (EndsWith (At (events.Clocked (Some now.new)))) }
        ensures goes_on { result ≡ Ok false
            → IsIdleAt now.old (slice_get self.old.slots.items
            (next_place (length self.old.slots.items) self.old.first)) ⊎ (now.new < end) }
        ensures others { (other : ℕ)
            → other ≢ next_place (length self.old.slots.items) self.old.first
            → slice_get self.new.slots.items other ≡ slice_get self.old.slots.items other }
        ensures transfers { result ≡ Ok true → transfers.new ≡ transfers_of self.new.slots.items }
        ensures capacity { self.new.capacity ≡ self.old.capacity }
    {
        let is_busy = *transfers >= MAX_TRANSFERS;
        if !self.go_on_next(world, handler, buffer, now, is_busy)? {
            return Ok(false);
        }
        *transfers = self.transfers();
        *now = world.now()?;
        Ok(*now >= end)
    }

    /// Lets the connection go on whose turn comes next, if it has something to do, and returns `true` if it had.
    fn go_on_next<W: World, H: Handler>(
        &mut self,
        world: &mut W,
        handler: &mut H,
        buffer: &mut [u8],
        now: &mut Milliseconds,
        is_busy: bool,
    ) -> io::Result<bool>
        ensures acts { Traces W.performs H.steps world.old handler.old world.new handler.new
            (λ acts. AllByRecursion IsAside acts
            × AreFollowed self.old.slots.items self.new.slots.items acts × IsTimed acts) }
        ensures first { self.new.first
            ≡ next_place (length self.old.slots.items) self.old.first + 1 }
        ensures count { length self.new.slots.items ≡ length self.old.slots.items }
        ensures idle { result ≡ Ok false → IsIdleAt now.old (slice_get self.old.slots.items
            (next_place (length self.old.slots.items) self.old.first)) }
        ensures gone_on { result ≡ Ok true → HasGoneOn now.new (slice_get self.new.slots.items
            (next_place (length self.old.slots.items) self.old.first)) }
        ensures active { IsAsActive (slice_get self.old.slots.items
            (next_place (length self.old.slots.items) self.old.first))
            (slice_get self.new.slots.items
            (next_place (length self.old.slots.items) self.old.first))
            ⊎ Traces W.performs H.steps world.old handler.old world.new handler.new
            (λ acts. 0 < moved_in acts) }
        ensures others { (other : ℕ)
            → other ≢ next_place (length self.old.slots.items) self.old.first
            → slice_get self.new.slots.items other ≡ slice_get self.old.slots.items other }
        ensures stays { result ≡ Ok false → self.new.slots.items ≡ self.old.slots.items }
        ensures still { result ≡ Ok false
            → (world.new ≡ world.old) × ((handler.new ≡ handler.old) × (now.new ≡ now.old)) }
        ensures capacity { self.new.capacity ≡ self.old.capacity }
    {
        if self.first >= self.slots.len() {
            self.first = 0;
        }
        let index = self.first;
        self.first = index.saturating_add(1);
        self.go_on_at(world, index, handler, buffer, now, is_busy)
    }

    /// Lets the connection at an index go on if it has something to do, and returns `true` if it had.
    fn go_on_at<W: World, H: Handler>(
        &mut self,
        world: &mut W,
        index: usize,
        handler: &mut H,
        buffer: &mut [u8],
        now: &mut Milliseconds,
        is_busy: bool,
    ) -> io::Result<bool>
        ensures acts { Traces W.performs H.steps world.old handler.old world.new handler.new
            (λ acts. AllByRecursion IsAside acts
            × AreFollowed self.old.slots.items self.new.slots.items acts × IsTimed acts) }
        ensures first { self.new.first ≡ self.old.first }
        ensures count { length self.new.slots.items ≡ length self.old.slots.items }
        ensures idle { result ≡ Ok false
            → IsIdleAt now.old (slice_get self.old.slots.items index) }
        ensures gone_on { result ≡ Ok true
            → HasGoneOn now.new (slice_get self.new.slots.items index) }
        ensures active { IsAsActive (slice_get self.old.slots.items index)
            (slice_get self.new.slots.items index)
            ⊎ Traces W.performs H.steps world.old handler.old world.new handler.new
            (λ acts. 0 < moved_in acts) }
        ensures others { (other : ℕ) → other ≢ index
            → slice_get self.new.slots.items other ≡ slice_get self.old.slots.items other }
        ensures stays { result ≡ Ok false → self.new.slots.items ≡ self.old.slots.items }
        ensures still { result ≡ Ok false
            → (world.new ≡ world.old) × ((handler.new ≡ handler.old) × (now.new ≡ now.old)) }
        ensures capacity { self.new.capacity ≡ self.old.capacity }
    {
        if index >= self.slots.len() {
            return Ok(false);
        }
        let closes = match &mut self.slots[index] {
            Some(stream) if stream.deadline() <= *now => {
                stream.go_on(world, index, handler, buffer, now, is_busy)?
            }
            Some(_) => return Ok(false),
            None => return Ok(false),
        };
        if closes {
            self.close(world, index);
        }
        Ok(true)
    }

    /// Returns the number of connections with a reply of several messages that waits.
    fn transfers(&self) -> usize
        ensures { result ≡ transfers self.now.slots.items }
    {
        count_transfers(self.slots.as_slice())
    }

    /// Returns when a connection next has something to do without its peer.
    pub(crate) fn deadline(&self) -> Milliseconds
        ensures { result ≡ earliest slot_deadline self.now.slots.items }
    {
        earliest_slot(self.slots.as_slice())
    }
}

/// Removes the places after the last connection.
fn trim(slots: &mut Vec<Option<Stream>>)
    ensures { AreKept slots.old.items slots.new.items }
{
    for _slot in 0..slots.len() {
        if !matches!(slots.as_slice().last(), Some(None)) {
            return;
        }
        let _none = slots.pop();
    }
}

/// Returns the earliest moment at which one of some connections has something to do without its peer.
fn earliest_slot(slots: &[Option<Stream>]) -> Milliseconds
    ensures { result ≡ earliest slot_deadline slots.now }
{
    let mut least = Milliseconds::MAX;
    for slot in slots {
        least = least.min(slot_deadline(slot));
    }
    least
}

/// Returns when a connection has something to do without its peer, if there is one.
fn slot_deadline(slot: &Option<Stream>) -> Milliseconds
    ensures { result ≡ slot_deadline slot.now }
{
    match slot {
        Some(stream) => stream.deadline(),
        None => Milliseconds::MAX,
    }
}

/// Returns the index of the connection that has been idle for the longest time, or 0 if there is none.
fn least_active(slots: &[Option<Stream>]) -> usize
    ensures { IsLeastActive slots.now result }
{
    let mut least = 0;
    for (index, slot) in slots.iter().enumerate() {
        if is_less_active(slot, &slots[least]) {
            least = index;
        }
    }
    least
}

/// Returns the number of connections with a reply of several messages that waits.
fn count_transfers(slots: &[Option<Stream>]) -> usize
    ensures { result ≡ transfers slots.now }
{
    let mut count = 0;
    for slot in slots {
        if has_transfer(slot) {
            count += 1;
        }
    }
    count
}

/// Returns `true` for a connection with a reply of several messages that waits.
fn has_transfer(slot: &Option<Stream>) -> bool
    ensures { result ≡ has_transfer slot.now }
{
    match slot {
        Some(stream) => stream.is_transferring(),
        None => false,
    }
}

/// Returns `true` for a connection beside none, or beside one that was active later.
fn is_less_active(slot: &Option<Stream>, other: &Option<Stream>) -> bool
    ensures { result ≡ is_less_active slot.now other.now }
{
    match (slot, other) {
        (Some(stream), Some(other)) => stream.last_activity() < other.last_activity(),
        (Some(_), None) => true,
        (None, _) => false,
    }
}
