//! The state of a service, and its loop.

ghost use Rattle.std.specs.List.{AllByRecursion};
ghost use Rattle.std.specs.Prelude.{◌≡◌, ◌<◌, ◌≤◌, [], true, IfOk, Ok, OnOk, length, map};
ghost use Rattle.dns_sockets.specs.Events.{Performs};
ghost use Rattle.dns_sockets.specs.Connections.{AreFollowed, AreKept};
ghost use Rattle.dns_sockets.specs.Deadlines.{EndsWithWait, WaitsUntil, service_deadline};
ghost use Rattle.dns_sockets.specs.Notices.{sooner};
ghost use Rattle.dns_sockets.specs.Listener.{AcceptsAll, AcceptsAt};
ghost use Rattle.dns_sockets.specs.Served.{IsServed};
ghost use Rattle.dns_sockets.specs.Service.{IsOver, Notes, StartsTurn, is_over, known_of, noted_by, over};
ghost use Rattle.dns_sockets.specs.StreamTable.{KeepsTurns};
ghost use Rattle.dns_sockets.specs.Trace.{At, EndsWith, IsAsideEvent, IsQuiet, Traces, waits_in};

use crate::clock::Milliseconds;
use crate::datagrams::{DatagramSocket, WaitingReply, earliest_socket, send_due};
use crate::handler::Handler;
use crate::listener::{Listener, earliest_listener};
use crate::notices::{send_notices, sooner};
use crate::schedule::Schedule;
use crate::stream_table::StreamTable;
use crate::world::{Wake, World};
use std::alloc::{AllocError, Global};
use std::io;

/// The maximum number of connections of a service.
pub const MAX_STREAMS: usize = 256;

/// The maximum number of replies in datagrams that wait for their moment.
const MAX_WAITING: usize = 4_096;

/// The size of the buffer for what is received, in bytes: as many as a message may have (RFC 1035 section 4.2.2).
const BUFFER_LEN: usize = 65_535;

/// What a service knows of its datagram sockets, listeners and connections, and the replies that wait.
#[derive(Drop)]
pub struct Service {
    alloc: Global,
    datagrams: Vec<DatagramSocket>,
    listeners: Vec<Listener>,
    streams: StreamTable,
    waiting: Schedule<WaitingReply>,
    buffer: Vec<u8>,
}

impl Service {
    /// Creates a service without addresses.
    ///
    /// # Errors
    ///
    /// Memory is refused.
    pub fn new(alloc: Global) -> Result<Service, AllocError>
        ensures waiting { IfOk result (λ service. service.waiting.items ≡ []) }
        ensures streams { IfOk result (λ service. service.streams.slots.items ≡ []) }
    {
        Ok(Service {
            alloc,
            datagrams: Vec::new(alloc),
            listeners: Vec::new(alloc),
            streams: StreamTable::new(alloc, MAX_STREAMS),
            waiting: Schedule::new(alloc, MAX_WAITING),
            buffer: vec![in alloc; 0u8; BUFFER_LEN]?,
        })
    }

    /// Adds the datagram socket and the listener of the next index.
    ///
    /// # Errors
    ///
    /// Memory is refused.
    pub fn add(&mut self) -> Result<(), AllocError>
        ensures waiting { self.new.waiting ≡ self.old.waiting }
        ensures streams { self.new.streams ≡ self.old.streams }
    {
        self.datagrams.push(DatagramSocket::new())?;
        self.listeners.push(Listener::new())?;
        Ok(())
    }

    /// Handles requests until the world ends the service.
    ///
    /// Each datagram that is sent is a reply to a request that arrived at the same socket from the same peer, and is sent no more
    /// often than the handler says, or is due without a request. On each connection, requests are handled in the order in which they
    /// arrived, one after another, and their replies are written in the same order; nothing more is handled while more than 65,537
    /// bytes wait to be written.
    ///
    /// # Errors
    ///
    /// An error of the clock or of the wait for events, which have none on a sound system.
    pub fn run<W: World, H: Handler>(&mut self, world: &mut W, handler: &mut H) -> io::Result<()>
        ensures served { Traces W.performs H.steps world.old handler.old world.new handler.new
            (IsServed self.old.waiting.items self.old.streams.slots.items
            self.new.waiting.items self.new.streams.slots.items) }
        ensures over { OnOk result (Traces W.performs H.steps world.old handler.old
            world.new handler.new IsOver) }
    {
        for _turn in 0..u64::MAX {
            if self.turn(world, handler)? {
                return Ok(());
            }
        }
        Ok(())
    }

    /// Waits until there is something to do, and does it. Returns `true` if the service is to end.
    fn turn<W: World, H: Handler>(&mut self, world: &mut W, handler: &mut H) -> io::Result<bool>
        ensures served { Traces W.performs H.steps world.old handler.old world.new handler.new
            (IsServed self.old.waiting.items self.old.streams.slots.items
            self.new.waiting.items self.new.streams.slots.items) }
        ensures over { result ≡ Ok true → Traces W.performs H.steps world.old handler.old
            world.new handler.new (EndsWith over) }
        ensures waits { OnOk result (Traces W.performs H.steps world.old handler.old
            world.new handler.new (λ acts. 1 ≤ waits_in acts)) }
        ensures starts { IfOk result (λ ends. Traces W.performs H.steps world.old handler.old
            world.new handler.new (StartsTurn ends (known_of self.old))) }
    {
        self.wait(world, handler.next_moment())?;
        if self.note_all(world) {
            return Ok(true);
        }
        self.serve(world, handler)?;
        Ok(false)
    }

    /// Waits until there is something to do: not at all if there is now, and without end if there will not be. At a moment, something
    /// is to be sent without a request.
    fn wait<W: World>(&self, world: &mut W, moment: Option<Milliseconds>) -> io::Result<()>
        ensures quiet { Performs W.performs world.old world.new (AllByRecursion IsQuiet) }
        ensures until { Performs W.performs world.old world.new
            (WaitsUntil (sooner (service_deadline self.now) moment)) }
        ensures waited { OnOk result (Performs W.performs world.old world.new EndsWithWait) }
    {
        let deadline = sooner(self.deadline(), moment);
        if deadline == Milliseconds::MAX {
            return world.wait(None);
        }
        let now = world.now()?;
        world.wait(Some(deadline.saturating_sub(now)))
    }

    /// Returns when there is something to do without an event.
    fn deadline(&self) -> Milliseconds
        ensures { result ≡ service_deadline self.now }
    {
        sooner(self.streams.deadline(), self.waiting.next_moment())
            .min(earliest_socket(self.datagrams.as_slice()))
            .min(earliest_listener(self.listeners.as_slice()))
    }

    /// Takes note of what ended a wait. Returns `true` if the service is to end.
    fn note_all<W: World>(&mut self, world: &mut W) -> bool
        ensures world { Performs W.performs world.old world.new (AllByRecursion IsQuiet) }
        ensures waiting { self.new.waiting ≡ self.old.waiting }
        ensures streams { AreKept self.old.streams.slots.items self.new.streams.slots.items }
        ensures notes { Performs W.performs world.old world.new (λ es.
            Notes result (known_of self.old) es (known_of self.new)) }
        ensures turns { KeepsTurns self.old.streams self.new.streams }
    {
        for _wake in 0..u64::MAX {
            let Some(wake) = world.next_wake() else {
                return false;
            };
            if self.note(wake) {
                return true;
            }
        }
        false
    }

    /// Takes note of what a socket may be ready for. Returns `true` if the service is to end.
    fn note(&mut self, wake: Wake) -> bool
        ensures over { result ≡ is_over wake }
        ensures waiting { self.new.waiting ≡ self.old.waiting }
        ensures streams { AreKept self.old.streams.slots.items self.new.streams.slots.items }
        ensures noted { known_of self.new ≡ noted_by wake (known_of self.old) }
        ensures turns { KeepsTurns self.old.streams self.new.streams }
    {
        match wake {
            Wake::Datagrams(index) => {
                if index < self.datagrams.len() {
                    self.datagrams[index].note();
                }
            }
            Wake::Listener(index) => {
                if index < self.listeners.len() {
                    self.listeners[index].note();
                }
            }
            Wake::Stream(index, is_readable, is_writable) => {
                self.streams.note(index, is_readable, is_writable);
            }
            Wake::End => return true,
        }
        false
    }

    /// Lets each socket do what it can without waiting, up to its share.
    fn serve<W: World, H: Handler>(&mut self, world: &mut W, handler: &mut H) -> io::Result<()>
        ensures { Traces W.performs H.steps world.old handler.old world.new handler.new
            (IsServed self.old.waiting.items self.old.streams.slots.items
            self.new.waiting.items self.new.streams.slots.items) }
    {
        let now = world.now()?;
        self.serve_datagrams(world, handler, now)?;
        self.accept(world, now);
        self.streams
            .go_on(world, handler, self.buffer.as_mut_slice())?;
        send_due(world, &mut self.waiting, now);
        send_notices(world, self.datagrams.len(), handler, now);
        Ok(())
    }

    /// Handles the datagrams that wait.
    fn serve_datagrams<W: World, H: Handler>(
        &mut self,
        world: &mut W,
        handler: &mut H,
        now: Milliseconds,
    ) -> io::Result<()>
        ensures { Traces W.performs H.steps world.old handler.old world.new handler.new
            (IsServed self.old.waiting.items self.old.streams.slots.items
            self.new.waiting.items self.new.streams.slots.items) }
    {
        for index in 0..self.datagrams.len() {
            self.serve_socket(world, handler, index, now)?;
        }
        Ok(())
    }

    /// Handles the datagrams that wait at the socket of an index.
    fn serve_socket<W: World, H: Handler>(
        &mut self,
        world: &mut W,
        handler: &mut H,
        index: usize,
        now: Milliseconds,
    ) -> io::Result<()>
        ensures { Traces W.performs H.steps world.old handler.old world.new handler.new
            (IsServed self.old.waiting.items self.old.streams.slots.items
            self.new.waiting.items self.new.streams.slots.items) }
    {
        let Some(socket) = self.datagrams.as_mut_slice().get_mut(index) else {
            return Ok(());
        };
        socket.serve(
            world,
            self.alloc,
            index,
            handler,
            &mut self.waiting,
            self.buffer.as_mut_slice(),
            now,
        )
    }

    /// Accepts the connections that wait.
    fn accept<W: World>(&mut self, world: &mut W, now: Milliseconds)
        ensures world { Performs W.performs world.old world.new (λ es.
            AllByRecursion IsAsideEvent es × AreFollowed self.old.streams.slots.items
            self.new.streams.slots.items (map At es)) }
        ensures waiting { self.new.waiting ≡ self.old.waiting }
        ensures accepts { Performs W.performs world.old world.new (λ es.
            AcceptsAll now self.old.listeners.items self.old.streams
            (length self.old.listeners.items) es self.new.listeners.items self.new.streams) }
        ensures datagrams { self.new.datagrams.items ≡ self.old.datagrams.items }
    {
        for index in 0..self.listeners.len() {
            self.accept_at(world, index, now);
        }
    }

    /// Accepts the connections that wait at the listener of an index.
    fn accept_at<W: World>(&mut self, world: &mut W, index: usize, now: Milliseconds)
        ensures world { Performs W.performs world.old world.new (λ es.
            AllByRecursion IsAsideEvent es × AreFollowed self.old.streams.slots.items
            self.new.streams.slots.items (map At es)) }
        ensures waiting { self.new.waiting ≡ self.old.waiting }
        ensures accepts { index < length self.old.listeners.items
            → Performs W.performs world.old world.new (λ es.
            AcceptsAt index now self.old.listeners.items self.old.streams es
            self.new.listeners.items self.new.streams) }
        ensures datagrams { self.new.datagrams.items ≡ self.old.datagrams.items }
        ensures count { length self.new.listeners.items ≡ length self.old.listeners.items }
    {
        if index < self.listeners.len() {
            self.listeners[index].accept(world, self.alloc, index, &mut self.streams, now);
        }
    }
}
