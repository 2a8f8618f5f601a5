//! Listeners for connections.

ghost use Rattle.std.specs.List.{AllByRecursion};
ghost use Rattle.std.specs.Prelude.{◌≡◌, map};
ghost use Rattle.dns_sockets.specs.Connections.{AreFollowed, IsAdmitted};
ghost use Rattle.dns_sockets.specs.Deadlines.{earliest, listener_deadline};
ghost use Rattle.dns_sockets.specs.Events.{Performs};
ghost use Rattle.dns_sockets.specs.Listener.{Accepts, Admits, IsAttempt};
ghost use Rattle.dns_sockets.specs.StreamTable.{KeepsTurns};
ghost use Rattle.dns_sockets.specs.Trace.{At, IsAsideEvent};

use crate::clock::Milliseconds;
use crate::stream::Stream;
use crate::stream_table::StreamTable;
use crate::world::{Arrival, World};
use std::alloc::Global;
use std::net::SocketAddr;

/// How many connections of a listener are accepted before others have their turn.
const MAX_BATCH: usize = 64;

/// How long a listener waits after the system could not accept a connection, for want of descriptors, say.
const RETRY_INTERVAL: Milliseconds = 100;

/// A listener at an address of the service.
#[derive(Drop)]
pub(crate) struct Listener {
    /// When connections may wait to be accepted.
    ready_at: Milliseconds,
}

impl Listener {
    /// Creates the state of a listener that was opened.
    pub(crate) fn new() -> Listener
        ensures { result.ready_at ≡ 0 }
    {
        Listener { ready_at: 0 }
    }

    /// Takes note that connections wait to be accepted.
    pub(crate) fn note(&mut self)
        ensures { self.new.ready_at ≡ 0 }
    {
        self.ready_at = 0;
    }

    /// Returns when connections may wait to be accepted.
    pub(crate) fn deadline(&self) -> Milliseconds
        ensures { result ≡ listener_deadline self.now }
    {
        self.ready_at
    }

    /// Accepts connections that wait, at most 64 of them.
    pub(crate) fn accept<W: World>(
        &mut self,
        world: &mut W,
        alloc: Global,
        index: usize,
        streams: &mut StreamTable,
        now: Milliseconds,
    )
        ensures followed { Performs W.performs world.old world.new (λ es.
            AllByRecursion IsAsideEvent es
            × AreFollowed streams.old.slots.items streams.new.slots.items (map At es)) }
        ensures accepts { Performs W.performs world.old world.new (λ es.
            Accepts index now self.old streams.old es self.new streams.new) }
        ensures turns { KeepsTurns streams.old streams.new }
    {
        if now < self.ready_at {
            return;
        }
        for _connection in 0..MAX_BATCH {
            if !self.accept_one(world, alloc, index, streams, now) {
                return;
            }
        }
    }

    /// Accepts the next connection that waits. Returns `false` if none does.
    fn accept_one<W: World>(
        &mut self,
        world: &mut W,
        alloc: Global,
        index: usize,
        streams: &mut StreamTable,
        now: Milliseconds,
    ) -> bool
        ensures followed { Performs W.performs world.old world.new (λ es.
            AllByRecursion IsAsideEvent es
            × AreFollowed streams.old.slots.items streams.new.slots.items (map At es)) }
        ensures attempt { Performs W.performs world.old world.new (λ es.
            IsAttempt index now self.old streams.old es self.new streams.new result) }
        ensures turns { KeepsTurns streams.old streams.new }
    {
        match world.accept(index) {
            Arrival::Connection(peer) => {
                admit(world, alloc, streams, peer, now);
                true
            }
            Arrival::Interrupted => true,
            Arrival::Nothing => {
                self.ready_at = Milliseconds::MAX;
                false
            }
            Arrival::Failed => {
                // A closed connection gives its descriptor back.
                streams.close_oldest(world);
                self.ready_at = now.saturating_add(RETRY_INTERVAL);
                false
            }
        }
    }
}

/// Returns the earliest moment at which connections may wait at one of some listeners.
pub(crate) fn earliest_listener(listeners: &[Listener]) -> Milliseconds
    ensures { result ≡ earliest listener_deadline listeners.now }
{
    let mut least = Milliseconds::MAX;
    for listener in listeners {
        least = least.min(listener.deadline());
    }
    least
}

/// Admits a connection to the table. One for which the system has no room is closed.
fn admit<W: World>(
    world: &mut W,
    alloc: Global,
    streams: &mut StreamTable,
    peer: SocketAddr,
    now: Milliseconds,
)
    ensures followed { Performs W.performs world.old world.new (λ es.
        AllByRecursion IsAsideEvent es
        × IsAdmitted peer streams.old.slots.items streams.new.slots.items (map At es)) }
    ensures admits { Performs W.performs world.old world.new (λ es.
        Admits peer now streams.old streams.new es) }
    ensures turns { KeepsTurns streams.old streams.new }
{
    if let Some(index) = streams.vacate(world) {
        if world.admit(index) {
            streams.put(index, Stream::new(alloc, peer, now));
        }
    }
}
