//! The sockets of the system: the world of a service over a network.

ghost use Rattle.std.specs.Prelude.{◌≡◌, ◌+◌, [], IfOk, OnErr, OnOk, length};
ghost use Rattle.dns_sockets.specs.World.{moved as moved_by};
ghost use Rattle.dns_sockets.specs.declared.world.Progress.TheVariants as progresses;

use crate::clock::{Milliseconds, ServiceClock};
use crate::input::{has_ended, watch_input};
use crate::tokens::SocketToken;
use crate::world::{Arrival, Progress, Receipt, Wake, World};
use mio::net::{TcpListener, TcpStream, UdpSocket};
use mio::{Events, Interest, Poll};
use std::alloc::Global;
use std::io::{self, ErrorKind, Input, Read, Write};
use std::net::{Net, SocketAddr};
use std::time::{Clock, Duration};

/// The number of events that the system reports at once.
const MAX_EVENTS: usize = 512;

/// How often a port is drawn until it is free for datagrams and for connections.
const MAX_DRAWS: u32 = 64;

/// The sockets at which requests arrive, the clock and standard input.
pub struct SocketWorld<'a, R: Net + Clock + Input> {
    rt: &'a R,
    poll: Poll,
    events: Events,
    /// What ended the last wait.
    woken: Vec<Wake>,
    datagrams: Vec<UdpSocket>,
    listeners: Vec<TcpListener>,
    /// The connection that was accepted last, until it is admitted.
    accepted: Option<TcpStream>,
    streams: Vec<Option<TcpStream>>,
    clock: ServiceClock,
    /// Whether standard input cannot be waited for.
    is_over: bool,
}

impl<R: Net + Clock + Input> Drop for SocketWorld<'_, R> {
    fn drop(self) {
        let SocketWorld {
            rt: _rt,
            poll,
            events,
            woken,
            datagrams,
            listeners,
            accepted,
            streams,
            clock: _clock,
            is_over: _is_over,
        } = self;
        drop(poll);
        drop(events);
        drop(woken);
        drop(datagrams);
        drop(listeners);
        drop(accepted);
        drop(streams);
    }
}

impl<'a, R: Net + Clock + Input> SocketWorld<'a, R> {
    /// Creates a world without sockets, whose clock begins at 0. What the system's clock and poll do, no clause says.
    pub fn new(rt: &'a R, alloc: Global) -> io::Result<SocketWorld<'a, R>>
        ensures { IfOk result (λ world. (world.datagrams.items ≡ [])
            × ((world.listeners.items ≡ []) × (world.streams.items ≡ []))) }
    {
        Ok(SocketWorld {
            rt,
            poll: Poll::new(rt)?,
            events: Events::with_capacity(alloc, MAX_EVENTS)?,
            woken: vec![in alloc; Wake::End; MAX_EVENTS]?,
            datagrams: Vec::new(alloc),
            listeners: Vec::new(alloc),
            accepted: None,
            streams: Vec::new(alloc),
            clock: ServiceClock::start(rt)?,
            is_over: false,
        })
    }

    /// Opens a datagram socket and a listener at an address, and returns it. At port 0, both have a port that the system chooses. Their
    /// index is the number of those that were opened before. Which addresses the system binds, no clause says.
    pub fn listen(&mut self, address: SocketAddr) -> io::Result<SocketAddr>
        ensures datagrams { OnOk result (length self.new.datagrams.items
            ≡ length self.old.datagrams.items + 1) }
        ensures listeners { OnOk result (length self.new.listeners.items
            ≡ length self.old.listeners.items + 1) }
        ensures streams { self.new.streams ≡ self.old.streams }
    {
        let (mut datagrams, mut listener) = bind_both(self.rt, address)?;
        let address = datagrams.local_addr()?;
        let index = self.datagrams.len();
        let registry = self.poll.registry();
        let readable = Interest::READABLE;
        registry.register(
            &mut datagrams,
            SocketToken::Datagrams(index).to_token(),
            readable,
        )?;
        registry.register(
            &mut listener,
            SocketToken::Listener(index).to_token(),
            readable,
        )?;
        self.datagrams.push(datagrams)?;
        self.listeners.push(listener)?;
        Ok(address)
    }

    /// Ends the service when standard input ends, or at once if it cannot be waited for. Which of both, no clause says.
    pub fn end_with_input(&mut self)
        ensures datagrams { self.new.datagrams ≡ self.old.datagrams }
        ensures listeners { self.new.listeners ≡ self.old.listeners }
        ensures streams { self.new.streams ≡ self.old.streams }
    {
        self.is_over = !watch_input(self.poll.registry());
    }

    /// Takes note of the events of a wait.
    fn note_all(&mut self) -> io::Result<()> {
        for event in self.events.iter() {
            let wake = match SocketToken::from_token(event.token()) {
                SocketToken::Datagrams(index) => Wake::Datagrams(index),
                SocketToken::Listener(index) => Wake::Listener(index),
                SocketToken::Stream(index) => {
                    Wake::Stream(index, event.is_readable(), event.is_writable())
                }
                SocketToken::Input => {
                    if !has_ended(self.rt, self.poll.registry()) {
                        continue;
                    }
                    Wake::End
                }
            };
            self.woken.push(wake)?;
        }
        Ok(())
    }
}

impl<R: Net + Clock + Input> World for SocketWorld<'_, R> {
    ghost use Rattle.std.specs.Prelude.{⊤};

    /// No definition says what a call of the system does.
    ghost performs = { λ _ _ _. ⊤ };

    fn receive(&mut self, socket: usize, buffer: &mut [u8]) -> Receipt {
        let Some(datagrams) = self.datagrams.as_slice().get(socket) else {
            return Receipt::Nothing;
        };
        match datagrams.recv_from(buffer) {
            Ok((len, peer)) => Receipt::Datagram(len, peer),
            Err(error) => match error.kind() {
                ErrorKind::Interrupted => Receipt::Interrupted,
                ErrorKind::WouldBlock => Receipt::Nothing,
                _ => Receipt::Failed,
            },
        }
    }

    fn send(&mut self, socket: usize, bytes: &[u8], peer: SocketAddr) -> bool {
        match self.datagrams.as_slice().get(socket) {
            Some(datagrams) => datagrams.send_to(bytes, peer).is_ok(),
            None => false,
        }
    }

    fn accept(&mut self, listener: usize) -> Arrival {
        let Some(listener) = self.listeners.as_slice().get(listener) else {
            return Arrival::Nothing;
        };
        match listener.accept() {
            Ok((stream, peer)) => {
                self.accepted = Some(stream);
                Arrival::Connection(peer)
            }
            Err(error) => match error.kind() {
                ErrorKind::Interrupted | ErrorKind::ConnectionAborted => Arrival::Interrupted,
                ErrorKind::WouldBlock => Arrival::Nothing,
                _ => Arrival::Failed,
            },
        }
    }

    fn admit(&mut self, stream: usize) -> bool {
        let Some(accepted) = self.accepted.take() else {
            return false;
        };
        let mut accepted = accepted;
        for _place in self.streams.len()..stream.saturating_add(1) {
            if self.streams.push(None).is_err() {
                return false;
            }
        }
        // Without it, replies may only be slower.
        let _delays = accepted.set_nodelay(true);
        let token = SocketToken::Stream(stream).to_token();
        let interest = Interest::READABLE | Interest::WRITABLE;
        if self
            .poll
            .registry()
            .register(&mut accepted, token, interest)
            .is_err()
        {
            return false;
        }
        match self.streams.as_mut_slice().get_mut(stream) {
            Some(place) => {
                *place = Some(accepted);
                true
            }
            None => false,
        }
    }

    fn read(&mut self, stream: usize, buffer: &mut [u8]) -> Progress {
        match self.streams.as_slice().get(stream) {
            Some(Some(source)) => {
                let mut source = source;
                progress(source.read(buffer))
            }
            _ => Progress::Failed,
        }
    }

    fn write(&mut self, stream: usize, bytes: &[u8]) -> Progress {
        match self.streams.as_slice().get(stream) {
            Some(Some(sink)) => {
                let mut sink = sink;
                progress(sink.write(bytes))
            }
            _ => Progress::Failed,
        }
    }

    fn close(&mut self, stream: usize) {
        if stream < self.streams.len() {
            self.streams[stream] = None;
        }
    }

    fn now(&mut self) -> io::Result<Milliseconds> {
        self.clock.now(self.rt)
    }

    fn wait(&mut self, most: Option<Milliseconds>) -> io::Result<()> {
        self.woken.clear();
        if self.is_over {
            self.woken.push(Wake::End)?;
            return Ok(());
        }
        let most = match most {
            Some(milliseconds) => Some(Duration::from_millis(milliseconds)),
            None => None,
        };
        self.poll.poll(&mut self.events, most)?;
        self.note_all()
    }

    fn next_wake(&mut self) -> Option<Wake> {
        self.woken.pop()
    }
}

/// Returns what came of a read or a write.
fn progress(moved: io::Result<usize>) -> Progress
    ensures bytes { IfOk moved (λ count. result ≡ progresses.Bytes count) }
    ensures none { OnErr moved (moved_by result ≡ 0) }
{
    match moved {
        Ok(count) => Progress::Bytes(count),
        Err(error) => match error.kind() {
            ErrorKind::Interrupted => Progress::Interrupted,
            ErrorKind::WouldBlock => Progress::Nothing,
            _ => Progress::Failed,
        },
    }
}

/// Binds a datagram socket and a listener to an address. At port 0, both have the same port, which the system draws for the
/// first, again if the second cannot have it.
fn bind_both<R: Net>(net: &R, address: SocketAddr) -> io::Result<(UdpSocket, TcpListener)> {
    if address.port() != 0 {
        return bind_pair(net, address);
    }
    for _draw in 1..MAX_DRAWS {
        if let Ok(pair) = bind_pair(net, address) {
            return Ok(pair);
        }
    }
    bind_pair(net, address)
}

/// Binds a datagram socket to an address, and a listener to the address that it has got.
fn bind_pair<R: Net>(net: &R, address: SocketAddr) -> io::Result<(UdpSocket, TcpListener)> {
    let datagrams = UdpSocket::bind(net, address)?;
    let listener = TcpListener::bind(net, datagrams.local_addr()?)?;
    Ok((datagrams, listener))
}
