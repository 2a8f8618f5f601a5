//! Datagram sockets.

ghost use Rattle.std.specs.Prelude.{◌≡◌, IfOk, List, Some, is_err, map};
ghost use Rattle.dns_sockets.specs.Datagrams.{AreSent, Delivers, DeliversAll, Gathers, Handles, HandlesAt, HandlesIf, IsAddedOrLost, IsTurn, IsTurnUnless, Receives, TakesIf, content_at, is_complete, peer_of, taken_if};
ghost use Rattle.dns_sockets.specs.Deadlines.{earliest, socket_deadline};
ghost use Rattle.dns_sockets.specs.Events.{Performs};
ghost use Rattle.dns_sockets.specs.Handler.{deliveries_if, request_content};
ghost use Rattle.dns_sockets.specs.Notices.{is_response};
ghost use Rattle.dns_sockets.specs.Trace.{Consults, Traces};
ghost use Rattle.dns_sockets.specs.schedule.Schedule.{all_due, all_left};
ghost use Rattle.dns_sockets.specs.World.{AreCopies};

use crate::clock::Milliseconds;
use crate::handler::{Handler, Request, Transport};
use crate::notices::is_response;
use crate::schedule::Schedule;
use crate::world::{Receipt, World};
use dns_faults::Delivery;
use std::alloc::{AllocError, Global};
use std::io;
use std::net::SocketAddr;

/// How many datagrams of a socket are handled before others have their turn.
const MAX_BATCH: usize = 64;

/// How long a socket waits after the system could not receive a datagram for another reason than that there is none.
const RETRY_INTERVAL: Milliseconds = 10;

/// A reply that waits until it is sent.
pub(crate) struct WaitingReply {
    /// The index of the socket from which it is sent.
    socket: usize,
    /// The address to which it is sent.
    peer: SocketAddr,
    /// How often it is sent.
    copies: u8,
    /// The message.
    bytes: Vec<u8>,
}

impl Drop for WaitingReply {
    fn drop(self) {
        let WaitingReply {
            socket: _socket,
            peer: _peer,
            copies: _copies,
            bytes,
        } = self;
        drop(bytes);
    }
}

/// A datagram socket at an address of the service.
#[derive(Drop)]
pub(crate) struct DatagramSocket {
    /// When datagrams may wait.
    ready_at: Milliseconds,
}

/// A datagram that has arrived, and waits until those that arrived with it are handled.
struct Datagram {
    /// The address from which it was sent.
    peer: SocketAddr,
    /// The message.
    bytes: Vec<u8>,
}

impl Drop for Datagram {
    fn drop(self) {
        let Datagram { peer: _peer, bytes } = self;
        drop(bytes);
    }
}

impl DatagramSocket {
    /// Creates the state of a socket that was opened.
    pub(crate) fn new() -> DatagramSocket
        ensures { result ≡ record { ready_at = 0 } }
    {
        DatagramSocket { ready_at: 0 }
    }

    /// Takes note that datagrams wait.
    pub(crate) fn note(&mut self)
        ensures { self.new ≡ record { ready_at = 0 } }
    {
        self.ready_at = 0;
    }

    /// Returns when datagrams may wait.
    pub(crate) fn deadline(&self) -> Milliseconds
        ensures { result ≡ socket_deadline self.now }
    {
        self.ready_at
    }

    /// Handles datagrams that wait, at most 64 of them. `now` is a moment before they are received.
    ///
    /// # Errors
    ///
    /// The clock fails.
    pub(crate) fn serve<W: World, H: Handler>(
        &mut self,
        world: &mut W,
        alloc: Global,
        index: usize,
        handler: &mut H,
        waiting: &mut Schedule<WaitingReply>,
        buffer: &mut [u8],
        now: Milliseconds,
    ) -> io::Result<()>
        ensures { Traces W.performs H.steps world.old handler.old world.new handler.new
            (IsTurnUnless (is_err result) index waiting.old waiting.new) }
    {
        if now < self.ready_at {
            return Ok(());
        }
        let mut gathered = Vec::new(alloc);
        self.receive_all(
            world,
            &mut gathered,
            alloc,
            index,
            handler,
            waiting,
            buffer,
            now,
        )?;
        handle_all(world, alloc, index, handler, waiting, gathered.as_slice())
    }

    /// Receives datagrams that wait, at most 64 of them, and handles those that need not wait for others.
    fn receive_all<W: World, H: Handler>(
        &mut self,
        world: &mut W,
        gathered: &mut Vec<Datagram>,
        alloc: Global,
        index: usize,
        handler: &mut H,
        waiting: &mut Schedule<WaitingReply>,
        buffer: &mut [u8],
        now: Milliseconds,
    ) -> io::Result<()>
        ensures { Traces W.performs H.steps world.old handler.old world.new handler.new
            (IsTurn index gathered.old.items waiting.old gathered.new.items waiting.new) }
    {
        for _datagram in 0..MAX_BATCH {
            if !self.step(world, gathered, alloc, index, handler, waiting, buffer, now)? {
                return Ok(());
            }
        }
        Ok(())
    }

    /// Adds the next datagram to those that are handled together, and handles these unless others may follow. Returns `false` if none
    /// waits.
    fn step<W: World, H: Handler>(
        &mut self,
        world: &mut W,
        gathered: &mut Vec<Datagram>,
        alloc: Global,
        index: usize,
        handler: &mut H,
        waiting: &mut Schedule<WaitingReply>,
        buffer: &mut [u8],
        now: Milliseconds,
    ) -> io::Result<bool>
        ensures { Traces W.performs H.steps world.old handler.old world.new handler.new
            (IsTurn index gathered.old.items waiting.old gathered.new.items waiting.new) }
    {
        let is_received = self.receive(world, gathered, alloc, index, handler, buffer, now)?;
        if is_received && is_complete(handler, gathered.as_slice()) {
            let handled = handle_all(world, alloc, index, handler, waiting, gathered.as_slice());
            gathered.clear();
            handled?;
        }
        Ok(is_received)
    }

    /// Adds the next datagram to those that are handled together, unless it is a response that is expected. Returns `false` if none
    /// waits.
    fn receive<W: World, H: Handler>(
        &mut self,
        world: &mut W,
        gathered: &mut Vec<Datagram>,
        alloc: Global,
        index: usize,
        handler: &mut H,
        buffer: &mut [u8],
        now: Milliseconds,
    ) -> io::Result<bool>
        ensures { Traces W.performs H.steps world.old handler.old world.new handler.new
            (λ acts. Receives index gathered.old.items acts gathered.new.items) }
    {
        match world.receive(index, buffer) {
            Receipt::Datagram(len, peer) => {
                gather(world, gathered, alloc, handler, &buffer[..len], peer)?;
            }
            Receipt::Interrupted => {}
            Receipt::Nothing => {
                self.ready_at = Milliseconds::MAX;
                return Ok(false);
            }
            Receipt::Failed => self.ready_at = now.saturating_add(RETRY_INTERVAL),
        }
        Ok(true)
    }
}

/// Handles datagrams that arrived together, if there are any, at the moment that the clock shows now.
fn handle_all<W: World, H: Handler>(
    world: &mut W,
    alloc: Global,
    index: usize,
    handler: &mut H,
    waiting: &mut Schedule<WaitingReply>,
    gathered: &[Datagram],
) -> io::Result<()>
    ensures { Traces W.performs H.steps world.old handler.old world.new handler.new
        (λ acts. Handles index gathered.now waiting.old acts waiting.new) }
{
    if gathered.is_empty() {
        return Ok(());
    }
    let now = world.now()?;
    handle_at(world, alloc, index, handler, waiting, gathered, now);
    Ok(())
}

/// Handles datagrams that arrived together at a moment.
fn handle_at<W: World, H: Handler>(
    world: &mut W,
    alloc: Global,
    index: usize,
    handler: &mut H,
    waiting: &mut Schedule<WaitingReply>,
    gathered: &[Datagram],
    now: Milliseconds,
)
    ensures { Traces W.performs H.steps world.old handler.old world.new handler.new
        (λ acts. HandlesAt (Some now) index gathered.now waiting.old acts waiting.new) }
{
    // Without memory there is no reply, as if the datagrams had been lost.
    let Ok(deliveries) = deliveries_of(alloc, handler, gathered, now) else {
        return;
    };
    deliver_all(world, index, waiting, deliveries, gathered, now);
}

/// Sends the replies to datagrams, in order, or puts them among those that wait.
fn deliver_all<W: World>(
    world: &mut W,
    index: usize,
    waiting: &mut Schedule<WaitingReply>,
    deliveries: Vec<Delivery>,
    gathered: &[Datagram],
    now: Milliseconds,
)
    ensures { Performs W.performs world.old world.new (λ es.
        DeliversAll index now (map peer_of gathered.now) deliveries.items waiting.old es waiting.new) }
{
    let mut rest = gathered;
    for delivery in deliveries {
        let [datagram, more @ ..] = rest else {
            return;
        };
        deliver(world, index, waiting, delivery, datagram.peer, now);
        rest = more;
    }
}

/// Sends a reply, or puts it among those that wait for their moment. One for which there is no room is lost, as any datagram may be.
fn deliver<W: World>(
    world: &mut W,
    index: usize,
    waiting: &mut Schedule<WaitingReply>,
    delivery: Delivery,
    peer: SocketAddr,
    now: Milliseconds,
)
    ensures { Performs W.performs world.old world.new (λ es.
        Delivers index peer now delivery waiting.old es waiting.new) }
{
    let Delivery {
        reply,
        copies,
        after_milliseconds,
        close_after: _close_after,
    } = delivery;
    let Some(bytes) = reply else {
        return;
    };
    let moment = now.saturating_add(after_milliseconds);
    let reply = WaitingReply {
        socket: index,
        peer,
        copies,
        bytes,
    };
    if moment <= now {
        send(world, &reply);
    } else {
        let _pushed = waiting.push(moment, reply);
    }
}

/// Sends a reply. What the system does not take is lost, as any datagram may be.
fn send<W: World>(world: &mut W, reply: &WaitingReply)
    ensures { Performs W.performs world.old world.new
        (AreCopies reply.now.socket reply.now.copies reply.now.bytes.items reply.now.peer) }
{
    for _copy in 0..reply.copies {
        let _sent = world.send(reply.socket, reply.bytes.as_slice(), reply.peer);
    }
}

/// Returns `true` if no further datagram may be handled together with these.
fn is_complete<H: Handler>(handler: &H, gathered: &[Datagram]) -> bool
    ensures { result ≡ is_complete (H.gathers_after handler.now) gathered.now }
{
    match gathered.last() {
        Some(last) => !handler.gathers(last.bytes.as_slice()),
        None => false,
    }
}

/// Adds a datagram to those that are handled together, unless it is a response that is expected.
fn gather<W: World, H: Handler>(
    world: &mut W,
    gathered: &mut Vec<Datagram>,
    alloc: Global,
    handler: &mut H,
    bytes: &[u8],
    peer: SocketAddr,
) -> io::Result<()>
    ensures { Consults W.performs H.steps world.old handler.old world.new handler.new
        (λ clocks calls. Gathers bytes.now peer gathered.old.items clocks calls
        gathered.new.items) }
{
    if !is_expected(world, handler, bytes, peer)? {
        add(gathered, alloc, bytes, peer);
    }
    Ok(())
}

/// Returns `true` for a response that is expected, at the moment that the clock shows now.
fn is_expected<W: World, H: Handler>(
    world: &mut W,
    handler: &mut H,
    bytes: &[u8],
    peer: SocketAddr,
) -> io::Result<bool>
    ensures { Consults W.performs H.steps world.old handler.old world.new handler.new
        (λ clocks calls. TakesIf (is_response bytes.now) bytes.now peer clocks calls
        (taken_if result)) }
{
    if !is_response(bytes) {
        return Ok(false);
    }
    let moment = world.now()?;
    let response = Request {
        bytes,
        peer,
        transport: Transport::Datagram,
        moment,
    };
    Ok(handler.take_response(&response))
}

/// Adds a datagram to those that are handled together. Without memory there is no reply, as if the datagram had been lost.
fn add(gathered: &mut Vec<Datagram>, alloc: Global, bytes: &[u8], peer: SocketAddr)
    ensures { IsAddedOrLost peer bytes.now gathered.old.items gathered.new.items }
{
    if let Ok(bytes) = Vec::from_slice(alloc, bytes) {
        let _pushed = gathered.push(Datagram { peer, bytes });
    }
}

/// Returns what is sent for datagrams that arrived together.
fn deliveries_of<H: Handler>(
    alloc: Global,
    handler: &mut H,
    gathered: &[Datagram],
    now: Milliseconds,
) -> Result<Vec<Delivery>, AllocError>
    ensures { Performs H.steps handler.old handler.new (λ calls.
        HandlesIf now gathered.now calls (deliveries_if result)) }
{
    let requests = requests_of(alloc, gathered, now)?;
    handler.handle(requests.as_slice())
}

/// Returns datagrams that arrived together as requests.
fn requests_of<'g>(
    alloc: Global,
    gathered: &'g [Datagram],
    now: Milliseconds,
) -> Result<Vec<Request<'g>>, AllocError>
    ensures { IfOk result (λ requests. map request_content requests.items
        ≡ map (content_at now) gathered.now) }
{
    let mut requests = Vec::new(alloc);
    for datagram in gathered {
        requests.push(Request {
            bytes: datagram.bytes.as_slice(),
            peer: datagram.peer,
            transport: Transport::Datagram,
            moment: now,
        })?;
    }
    Ok(requests)
}

/// Sends the replies whose moment has come.
pub(crate) fn send_due<W: World>(
    world: &mut W,
    waiting: &mut Schedule<WaitingReply>,
    now: Milliseconds,
)
    ensures sent { Performs W.performs world.old world.new
        (AreSent (all_due now waiting.old.items)) }
    ensures left { waiting.new ≡ record waiting.old { items = all_left now waiting.old.items } }
{
    for _reply in 0..waiting.len() {
        let Some(reply) = waiting.pop_due(now) else {
            return;
        };
        send(world, &reply);
    }
}

/// Returns the earliest moment at which datagrams may wait at one of some sockets.
pub(crate) fn earliest_socket(sockets: &[DatagramSocket]) -> Milliseconds
    ensures { result ≡ earliest socket_deadline sockets.now }
{
    let mut least = Milliseconds::MAX;
    for socket in sockets {
        least = least.min(socket.deadline());
    }
    least
}
