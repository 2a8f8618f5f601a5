//! A connection of a listener.

ghost use Rattle.std.specs.List.{AllByRecursion};
ghost use Rattle.std.specs.Prelude.{◌≡◌, ◌+◌, ◌<◌, ◌≤◌, ◌⊎◌, ◌++◌, [], ◌∷◌, true, false, IfOk, IfSome, Ok, OnOk, Option, drop, is_err, length, map, option_to_list, Some, ℕ};
ghost use Rattle.dns_server.specs.Connection.{max_input_len};
ghost use Rattle.dns_sockets.specs.Events.{Performs};
ghost use Rattle.dns_sockets.specs.Connections.{connected, connection_of, read_after};
ghost use Rattle.dns_sockets.specs.StreamSteps.{AreTaken, CallsLeave, IsAnswered, IsReady, KeepsBytes, KeepsReplies, Leaves, StaysUnless, bytes_read, ends, ends_if, is_end, released};
ghost use Rattle.dns_sockets.specs.Moments.{IsTimed};
ghost use Rattle.dns_sockets.specs.Trace.{At, Consults, IsOfStream, MayRead, Traces, moved_in};
ghost use Rattle.dns_sockets.specs.World.{Clocked, IsWithin, moved, write_event};
ghost use Rattle.dns_sockets.specs.declared.world.Progress.{Progress};
ghost use Rattle.dns_sockets.specs.Handler.{message_bytes, request_content};
ghost use Rattle.dns_sockets.specs.Stream.{Answers, AnswersAt, AreAnswered, AreHandled, IsNew, deadline, held_message, held_reply, noted, stream_request};
ghost use Rattle.dns_sockets.specs.StreamTable.{is_transferring};

use crate::clock::Milliseconds;
use crate::handler::{Handler, Request, Transport};
use crate::output::Output;
use crate::world::{Progress, World};
use dns_faults::Delivery;
use dns_server::Connection;
use std::alloc::{AllocError, Global};
use std::collections::VecDeque;
use std::io;
use std::net::SocketAddr;

/// How many steps a connection makes before others have their turn.
const MAX_STEPS: usize = 8;

/// How many requests are handled together at most.
const MAX_BATCH: usize = 64;

/// How long a connection may be idle.
const MAX_IDLE: Milliseconds = 10_000;

/// What one step of a connection did.
#[derive(Clone, Copy)]
enum Step {
    /// Something, so another step may follow.
    Moved,
    /// Nothing: the connection waits.
    Waits,
    /// The connection has ended.
    Closes,
}

/// Which calls of a socket may succeed.
#[derive(Clone, Copy)]
struct Readiness {
    read: bool,
    write: bool,
}

/// A reply that waits until its moment. The requests that follow it wait, too.
#[derive(Drop)]
struct HeldReply {
    moment: Milliseconds,
    reply: Option<Vec<u8>>,
    close_after: Option<usize>,
}

impl HeldReply {
    /// Holds what is to be sent until its moment.
    fn new(delivery: Delivery, now: Milliseconds) -> HeldReply
        ensures { result ≡ held_reply now delivery }
    {
        HeldReply {
            moment: now.saturating_add(delivery.after_milliseconds),
            close_after: delivery.close_after,
            reply: delivery.reply,
        }
    }

    /// Holds a message of a reply that has several.
    fn of_message(message: Vec<u8>, now: Milliseconds) -> HeldReply
        ensures { result ≡ held_message now message }
    {
        HeldReply {
            moment: now,
            reply: Some(message),
            close_after: None,
        }
    }
}

/// A connection, and what has arrived and is to be written on it.
pub(crate) struct Stream {
    alloc: Global,
    peer: SocketAddr,
    /// What has arrived. Its requests are taken from it before they are handled.
    connection: Connection,
    /// The replies to requests that were handled, in order.
    held: VecDeque<HeldReply>,
    output: Output,
    /// Whether the connection is closed once its output is written.
    is_closing: bool,
    has_ended: bool,
    readiness: Readiness,
    last_activity: Milliseconds,
    /// Whether the connection may go on at once.
    wants_turn: bool,
    /// Whether the held replies are the messages of one reply.
    is_transferring: bool,
}

impl Drop for Stream {
    fn drop(self) {
        let Stream {
            alloc: _alloc,
            peer: _peer,
            connection,
            held,
            output,
            is_closing: _is_closing,
            has_ended: _has_ended,
            readiness: _readiness,
            last_activity: _last_activity,
            wants_turn: _wants_turn,
            is_transferring: _is_transferring,
        } = self;
        drop(connection);
        drop(held);
        drop(output);
    }
}

impl Stream {
    /// Creates the state of a connection that a listener has accepted.
    pub(crate) fn new(alloc: Global, peer: SocketAddr, now: Milliseconds) -> Stream
        ensures connected { connection_of result ≡ connected peer }
        ensures fresh { IsNew peer now result }
    {
        Stream {
            alloc,
            peer,
            connection: Connection::new(alloc),
            held: VecDeque::new(alloc),
            output: Output::new(alloc),
            is_closing: false,
            has_ended: false,
            readiness: Readiness {
                read: true,
                write: true,
            },
            last_activity: now,
            wants_turn: true,
            is_transferring: false,
        }
    }

    /// Takes note of what the system says that the socket is ready for.
    pub(crate) fn note(&mut self, is_readable: bool, is_writable: bool)
        ensures kept { connection_of self.new ≡ connection_of self.old }
        ensures noted { self.new ≡ noted is_readable is_writable self.old }
    {
        self.readiness.read = self.readiness.read || is_readable;
        self.readiness.write = self.readiness.write || is_writable;
        self.wants_turn = true;
    }

    /// Returns when the connection has something to do without its peer: its held reply is due, or it has been idle for too
    /// long.
    pub(crate) fn deadline(&self) -> Milliseconds
        ensures { result ≡ deadline self.now }
    {
        if self.wants_turn {
            return 0;
        }
        match self.held.front() {
            Some(held) if !self.output.is_full() => held.moment,
            _ => self.last_activity.saturating_add(MAX_IDLE),
        }
    }

    /// Returns when bytes were last received or sent.
    pub(crate) fn last_activity(&self) -> Milliseconds
        ensures { result ≡ self.now.last_activity }
    {
        self.last_activity
    }

    /// Returns `true` if messages of a reply with several wait to be written.
    pub(crate) fn is_transferring(&self) -> bool
        ensures { result ≡ is_transferring self.now }
    {
        self.is_transferring && !self.held.is_empty()
    }

    /// Goes on as far as the peer allows, but for at most 8 steps. Returns `true` if the connection is to be closed. `now` is what the
    /// clock showed last.
    ///
    /// # Errors
    ///
    /// The clock fails.
    pub(crate) fn go_on<W: World, H: Handler>(
        &mut self,
        world: &mut W,
        index: usize,
        handler: &mut H,
        buffer: &mut [u8],
        now: &mut Milliseconds,
        is_busy: bool,
    ) -> io::Result<bool>
        ensures acts { Traces W.performs H.steps world.old handler.old world.new handler.new
            (λ acts. AllByRecursion (IsOfStream index) acts
            × Leaves (is_end result) index (connection_of self.old) acts (connection_of self.new)
            × IsTimed acts) }
        ensures in_time { result ≡ Ok false
            → (self.new.wants_turn ≡ true) ⊎ (now.new < deadline self.new) }
        ensures active { (self.new.last_activity ≡ self.old.last_activity)
            ⊎ Traces W.performs H.steps world.old handler.old world.new handler.new
            (λ acts. 0 < moved_in acts) }
    {
        for _step in 0..MAX_STEPS {
            match self.step(world, index, handler, buffer, now, is_busy)? {
                Step::Moved => {}
                Step::Waits => {
                    self.wants_turn = false;
                    return Ok(self.deadline() <= *now);
                }
                Step::Closes => return Ok(true),
            }
        }
        self.wants_turn = true;
        Ok(false)
    }

    /// Makes one step: writes what waits, releases held replies, handles requests, or reads.
    fn step<W: World, H: Handler>(
        &mut self,
        world: &mut W,
        index: usize,
        handler: &mut H,
        buffer: &mut [u8],
        now: &mut Milliseconds,
        is_busy: bool,
    ) -> io::Result<Step>
        ensures acts { Traces W.performs H.steps world.old handler.old world.new handler.new
            (λ acts. AllByRecursion (IsOfStream index) acts
            × Leaves (ends_if result) index (connection_of self.old) acts (connection_of self.new)
            × IsTimed acts) }
        ensures active { (self.new.last_activity ≡ self.old.last_activity)
            ⊎ Traces W.performs H.steps world.old handler.old world.new handler.new
            (λ acts. 0 < moved_in acts) }
    {
        let has_output = !self.output.rest().is_empty();
        if has_output && self.readiness.write {
            return Ok(self.write(world, index, *now));
        }
        if self.is_closing {
            return Ok(if has_output {
                Step::Waits
            } else {
                Step::Closes
            });
        }
        if self.output.is_full() {
            return Ok(Step::Waits);
        }
        if !self.held.is_empty() {
            return Ok(self.release(*now));
        }
        if self.connection.next_message().is_some() {
            return self.handle(world, handler, now, is_busy);
        }
        Ok(self.receive(world, index, buffer, *now))
    }

    /// Writes bytes that wait.
    fn write<W: World>(&mut self, world: &mut W, index: usize, now: Milliseconds) -> Step
        ensures write { (progress : Progress) × (W.performs world.old
            (write_event index progress self.old.output) world.new
            × ((moved progress ≤ length self.old.output) × (connection_of self.new
            ≡ connection_of (record self.old { output = drop (moved progress) self.old.output })))) }
        ensures active { (self.new.last_activity ≡ self.old.last_activity)
            ⊎ Performs W.performs world.old world.new (λ es. 0 < moved_in (map At es)) }
    {
        let progress = world.write(index, self.output.rest());
        self.wrote(progress, now)
    }

    /// Takes note of what came of a write.
    fn wrote(&mut self, progress: Progress, now: Milliseconds) -> Step
        ensures written { connection_of self.new
            ≡ connection_of (record self.old { output = drop (moved progress) self.old.output }) }
        ensures active { moved progress ≡ 0
            → self.new.last_activity ≡ self.old.last_activity }
    {
        match progress {
            Progress::Bytes(0) | Progress::Failed => Step::Closes,
            Progress::Bytes(count) => {
                self.output.wrote(count);
                self.last_activity = now;
                Step::Moved
            }
            Progress::Interrupted => Step::Moved,
            Progress::Nothing => {
                self.readiness.write = false;
                Step::Moved
            }
        }
    }

    /// Handles the requests that have arrived, at the moment that the clock shows now, and holds their replies.
    fn handle<W: World, H: Handler>(
        &mut self,
        world: &mut W,
        handler: &mut H,
        now: &mut Milliseconds,
        is_busy: bool,
    ) -> io::Result<Step>
        requires { IsReady self.old }
        ensures answers { Consults W.performs H.steps world.old handler.old world.new handler.new
            (λ clocks calls. (shown : Option ℕ) × ((clocks ≡ Clocked shown ∷ [])
            × (AnswersAt shown is_busy self.old.peer calls × CallsLeave (ends_if result)
            (connection_of self.old) calls (connection_of self.new)))) }
        ensures active { self.new.last_activity ≡ self.old.last_activity }
    {
        let moment = world.now()?;
        let answered = self.answer(handler, moment, is_busy);
        *now = moment;
        match answered {
            Ok(()) => Ok(Step::Moved),
            // There was no memory for the replies, so that no later ones may take their place.
            Err(AllocError) => Ok(Step::Closes),
        }
    }

    /// Handles the requests that have arrived and may be handled together, and holds their replies.
    fn answer<H: Handler>(
        &mut self,
        handler: &mut H,
        now: Milliseconds,
        is_busy: bool,
    ) -> Result<(), AllocError>
        requires { IsReady self.old }
        ensures calls { Performs H.steps handler.old handler.new (λ calls.
            Answers is_busy self.old.peer now calls
            × CallsLeave (is_err result) (connection_of self.old) calls (connection_of self.new)) }
        ensures active { self.new.last_activity ≡ self.old.last_activity }
    {
        let gathered = self.gather(handler)?;
        let requests = requests_of(self.alloc, gathered.as_slice(), self.peer, now)?;
        self.respond(handler, requests.as_slice(), now, is_busy)
    }

    /// Handles requests that arrived together, and holds their replies.
    fn respond<H: Handler>(
        &mut self,
        handler: &mut H,
        requests: &[Request<'_>],
        now: Milliseconds,
        is_busy: bool,
    ) -> Result<(), AllocError>
        requires { self.old.held.items ≡ [] }
        ensures calls { Performs H.steps handler.old handler.new (λ calls.
            AreAnswered is_busy (map request_content requests.now) calls
            × IsAnswered (is_err result) (map request_content requests.now) calls
            self.new.held.items) }
        ensures kept { KeepsBytes self.old self.new }
    {
        match requests {
            [request] => self.respond_to_one(handler, requests, request, now, is_busy),
            _ => self.respond_together(handler, requests, now),
        }
    }

    /// Handles a single request, which may have a reply of several messages, and holds its replies.
    fn respond_to_one<H: Handler>(
        &mut self,
        handler: &mut H,
        requests: &[Request<'_>],
        request: &Request<'_>,
        now: Milliseconds,
        is_busy: bool,
    ) -> Result<(), AllocError>
        requires one { map request_content requests.now ≡ request_content request.now ∷ [] }
        requires none_held { self.old.held.items ≡ [] }
        ensures calls { Performs H.steps handler.old handler.new (λ calls.
            AreAnswered is_busy (request_content request.now ∷ []) calls
            × IsAnswered (is_err result) (request_content request.now ∷ []) calls
            self.new.held.items) }
        ensures kept { KeepsBytes self.old self.new }
    {
        match handler.transfer(request, is_busy)? {
            Some(messages) => self.hold_all(messages, now),
            None => self.respond_together(handler, requests, now),
        }
    }

    /// Handles requests together, and holds their replies.
    fn respond_together<H: Handler>(
        &mut self,
        handler: &mut H,
        requests: &[Request<'_>],
        now: Milliseconds,
    ) -> Result<(), AllocError>
        requires { self.old.held.items ≡ [] }
        ensures calls { Performs H.steps handler.old handler.new (λ calls.
            AreHandled (map request_content requests.now) calls
            × IsAnswered (is_err result) (map request_content requests.now) calls
            self.new.held.items) }
        ensures kept { KeepsBytes self.old self.new }
    {
        let deliveries = handler.handle(requests)?;
        self.is_transferring = false;
        self.hold(deliveries, now)
    }

    /// Holds the messages of a reply that has several.
    fn hold_all(&mut self, messages: Vec<Vec<u8>>, now: Milliseconds) -> Result<(), AllocError>
        ensures held { OnOk result (self.new.held.items
            ≡ self.old.held.items ++ map (held_message now) messages.items) }
        ensures transferring { self.new.is_transferring ≡ true }
        ensures kept { KeepsBytes self.old self.new }
    {
        self.is_transferring = true;
        for message in messages {
            self.held.push_back(HeldReply::of_message(message, now))?;
        }
        Ok(())
    }

    /// Takes the requests that have arrived and may be handled together, at most 64 of them. One that does not gather is taken alone,
    /// so that it is handled as if nothing had arrived with it.
    fn gather<H: Handler>(&mut self, handler: &H) -> Result<Vec<Vec<u8>>, AllocError>
        ensures taken { IfOk result (λ gathered. AreTaken self.old.connection.input
            (map message_bytes gathered.items) self.new.connection.input) }
        ensures kept { KeepsReplies self.old self.new }
    {
        let mut gathered = Vec::new(self.alloc);
        for _request in 0..MAX_BATCH {
            let Some(message) = self.connection.next_message() else {
                break;
            };
            let gathers = handler.gathers(message);
            if !gathers && !gathered.is_empty() {
                break;
            }
            let bytes = Vec::from_slice(self.alloc, message)?;
            gathered.push(bytes)?;
            self.connection.complete(None)?;
            if !gathers {
                break;
            }
        }
        Ok(gathered)
    }

    /// Holds replies until their moments.
    fn hold(&mut self, deliveries: Vec<Delivery>, now: Milliseconds) -> Result<(), AllocError>
        ensures held { OnOk result (self.new.held.items
            ≡ self.old.held.items ++ map (held_reply now) deliveries.items) }
        ensures kept { KeepsBytes self.old self.new }
    {
        for delivery in deliveries {
            self.held.push_back(HeldReply::new(delivery, now))?;
        }
        Ok(())
    }

    /// Takes the held replies to the bytes that wait to be written, as far as their moments have come and there is room.
    fn release(&mut self, now: Milliseconds) -> Step
        ensures stays { StaysUnless (ends result) (connection_of self.old) (connection_of self.new) }
        ensures active { self.new.last_activity ≡ self.old.last_activity }
    {
        let mut released = Step::Waits;
        for _reply in 0..MAX_BATCH {
            match self.next_due(now) {
                Some(held) => released = self.reply(held),
                None => return released,
            }
            if let Step::Closes = released {
                return Step::Closes;
            }
        }
        released
    }

    /// Takes the first held reply, if its moment has come and there is room for it.
    fn next_due(&mut self, now: Milliseconds) -> Option<HeldReply>
        ensures due { IfSome result (λ held. held.moment ≤ now) }
        ensures first { self.old.held.items ≡ option_to_list result ++ self.new.held.items }
        ensures open { IfSome result (λ held. self.old.is_closing ≡ false) }
        ensures kept { KeepsBytes self.old self.new }
    {
        let is_due = match self.held.front() {
            Some(held) => held.moment <= now,
            None => false,
        };
        if !is_due || self.is_closing || self.output.is_full() {
            return None;
        }
        self.held.pop_front()
    }

    /// Takes a reply to the bytes that wait to be written.
    fn reply(&mut self, held: HeldReply) -> Step
        requires { self.old.is_closing ≡ false }
        ensures released { StaysUnless (ends result) (released held self.old) (connection_of self.new) }
        ensures active { self.new.last_activity ≡ self.old.last_activity }
    {
        let HeldReply {
            moment: _moment,
            reply,
            close_after,
        } = held;
        let pushed = match reply {
            Some(bytes) => self.output.push(bytes.as_slice(), close_after),
            None => Ok(()),
        };
        if close_after.is_some() {
            self.is_closing = true;
            self.held.clear();
        }
        match pushed {
            Ok(()) => Step::Moved,
            // There was no memory for the reply's frame.
            Err(AllocError) => Step::Closes,
        }
    }

    /// Reads bytes, if there is room for them.
    fn receive<W: World>(
        &mut self,
        world: &mut W,
        index: usize,
        buffer: &mut [u8],
        now: Milliseconds,
    ) -> Step
        requires { IsReady self.old }
        ensures reads { Performs W.performs world.old world.new (λ es. MayRead index es
            × Leaves (ends result) index (connection_of self.old) (map At es)
            (connection_of self.new)) }
        ensures active { (self.new.last_activity ≡ self.old.last_activity)
            ⊎ Performs W.performs world.old world.new (λ es. 0 < moved_in (map At es)) }
    {
        if self.has_ended {
            return if self.output.rest().is_empty() {
                Step::Closes
            } else {
                Step::Waits
            };
        }
        let count = self.connection.room().min(buffer.len());
        if count == 0 || !self.readiness.read {
            return Step::Waits;
        }
        let progress = world.read(index, &mut buffer[..count]);
        self.read(progress, &buffer[..count], now)
    }

    /// Takes note of what came of a read into a buffer, for whose bytes there is room.
    fn read(&mut self, progress: Progress, buffer: &[u8], now: Milliseconds) -> Step
        requires room { length self.old.connection.input + length buffer.now ≤ max_input_len }
        requires within { IsWithin progress (length buffer.now) }
        ensures read { StaysUnless (ends result)
            (read_after (bytes_read progress buffer.now) (connection_of self.old))
            (connection_of self.new) }
        ensures active { moved progress ≡ 0
            → self.new.last_activity ≡ self.old.last_activity }
    {
        match progress {
            Progress::Bytes(0) => {
                self.has_ended = true;
                Step::Moved
            }
            Progress::Bytes(count) => self.received(&buffer[..count], now),
            Progress::Interrupted => Step::Moved,
            Progress::Nothing => {
                self.readiness.read = false;
                Step::Waits
            }
            Progress::Failed => Step::Closes,
        }
    }

    /// Takes bytes that have arrived, for which there is room.
    fn received(&mut self, bytes: &[u8], now: Milliseconds) -> Step
        requires { length self.old.connection.input + length bytes.now ≤ max_input_len }
        ensures { StaysUnless (ends result)
            (read_after (Some bytes.now) (connection_of self.old)) (connection_of self.new) }
    {
        match self.connection.received(bytes) {
            Ok(()) => {
                self.last_activity = now;
                Step::Moved
            }
            // There was no memory for the bytes.
            Err(AllocError) => Step::Closes,
        }
    }
}

/// Returns messages that arrived over a stream as requests.
fn requests_of<'g>(
    alloc: Global,
    gathered: &'g [Vec<u8>],
    peer: SocketAddr,
    now: Milliseconds,
) -> Result<Vec<Request<'g>>, AllocError>
    ensures { IfOk result (λ requests. map request_content requests.items
        ≡ map (stream_request peer now) (map message_bytes gathered.now)) }
{
    let mut requests = Vec::new(alloc);
    for bytes in gathered {
        requests.push(Request {
            bytes: bytes.as_slice(),
            peer,
            transport: Transport::Stream,
            moment: now,
        })?;
    }
    Ok(requests)
}
