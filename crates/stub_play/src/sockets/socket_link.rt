//! A link to the server of a zone, over sockets of the loopback interface.

ghost use Rattle.std.specs.Prelude.{◌≡◌, ◌≤◌, ◌⊎◌, Ok, Err, IfOk, MatchResult, false};
ghost use Rattle.stub_link.specs.Link.{Rises};
ghost use Rattle.dns_zone.specs.declared.transport.Transport.TheVariants.{Stream};
ghost use Rattle.stub_play.specs.sockets.SocketLink.{MayServe, failures_after, link_error, memory_after};

use dns_blocking::{
    AskerEnd, ServerEnd, SocketError, accept, close_waiting, connect, loopback, set_patience,
    transfer_message,
};
use dns_zone::{DatagramLimit, Transport, Zone};
use std::alloc::Global;
use std::net::{Net, SocketAddr, TcpListener, TcpStream};
use stub_link::{Link, LinkError};

/// A link to the server of a zone, over sockets of the loopback interface.
///
/// Both ends belong to the link, which works in the thread that calls it: [`next_datagram`](Link::next_datagram) first serves
/// the datagrams that wait at the server end, and [`ask_stream`](Link::ask_stream) plays both ends of its stream. Any program
/// on the machine may send datagrams to [`server_addr`](SocketLink::server_addr), and is replied to at the next receive.
///
/// A system call that a signal interrupts is repeated, at most 1,024 times.
#[derive(Drop)]
pub struct SocketLink<R> {
    net: R,
    alloc: Global,
    zone: Zone,
    limit: DatagramLimit,
    asker: AskerEnd,
    server: ServerEnd,
    failures: u64,
    out_of_memory: bool,
}

impl<R: Net<Listener = TcpListener, Stream = TcpStream> + Drop> SocketLink<R> {
    ghost use Rattle.dns_zone.specs.declared.transport.Transport.TheVariants.{Datagram};
    ghost use Rattle.stub_play.specs.sockets.SocketLink.{ServesAtMost};

    /// Opens a link to a server of the zone whose datagrams have at most `limit` bytes: two datagram sockets, and a listener,
    /// at ports of 127.0.0.1 that the system chooses. `net` is the runtime, or a reference to it.
    ///
    /// # Errors
    ///
    /// - [`LinkError::Failed`] if a socket cannot be opened;
    /// - [`LinkError::Memory`] if the buffers cannot be allocated.
    pub fn new(
        net: R,
        alloc: Global,
        zone: Zone,
        limit: DatagramLimit,
    ) -> Result<SocketLink<R>, LinkError>
        requires { limit ≤ 65507 }
        ensures zone { IfOk result (λ link. link.zone ≡ zone) }
        ensures limit { IfOk result (λ link. link.limit ≡ limit) }
        ensures failures { IfOk result (λ link. link.failures ≡ 0) }
        ensures memory { IfOk result (λ link. link.out_of_memory ≡ false) }
    {
        match link_result(open_ends(&net, alloc)) {
            Ok((asker, server)) => Ok(SocketLink {
                net,
                alloc,
                zone,
                limit,
                asker,
                server,
                failures: 0,
                out_of_memory: false,
            }),
            Err(error) => Err(error),
        }
    }

    /// Returns the address of the datagram socket of the server.
    pub fn server_addr(&self) -> SocketAddr
        ensures { result ≡ self.now.server.address }
    {
        self.server.address()
    }

    /// Returns the address of the listener of the server. Connections that the link did not make are closed.
    pub fn stream_addr(&self) -> SocketAddr
        ensures { result ≡ self.now.server.stream_address }
    {
        self.server.stream_address()
    }

    /// Returns the address of the socket with which the link asks.
    pub fn asker_addr(&self) -> SocketAddr
        ensures { result ≡ self.now.asker.address }
    {
        self.asker.address()
    }

    /// Returns `true` if the link or its server has run out of memory, and could not answer a call for it.
    pub fn is_out_of_memory(&self) -> bool
        ensures { result ≡ self.now.out_of_memory }
    {
        self.out_of_memory
    }

    /// Returns the zone.
    pub fn zone(&self) -> &Zone
        ensures { result.now ≡ self.now.zone }
    {
        &self.zone
    }

    /// Serves the datagrams that wait, and receives the next reply.
    fn receive(&mut self) -> Result<Option<Vec<u8>>, SocketError>
        ensures served { ServesAtMost (Datagram self.old.limit) self.old.zone 1024 self.new.zone }
        ensures limit { self.new.limit ≡ self.old.limit }
        ensures failures { self.new.failures ≡ self.old.failures }
        ensures memory { self.new.out_of_memory ≡ self.old.out_of_memory }
    {
        self.server.serve_waiting(&mut self.zone, self.limit)?;
        self.asker.receive()
    }

    /// Asks over a new stream.
    fn ask(&mut self, bytes: &[u8]) -> Result<Vec<u8>, SocketError>
        ensures served { MayServe Stream self.old.zone self.new.zone }
        ensures limit { self.new.limit ≡ self.old.limit }
        ensures failures { self.new.failures ≡ self.old.failures }
        ensures memory { self.new.out_of_memory ≡ self.old.out_of_memory }
    {
        close_waiting(self.server.listener());
        let asker = connect(&self.net, self.server.stream_address())?;
        let server = accept(self.server.listener(), &asker)?;
        ask_over(self.alloc, &asker, &server, bytes, &mut self.zone)
    }
}

/// Opens both ends of a link.
fn open_ends<R: Net<Listener = TcpListener, Stream = TcpStream>>(
    net: &R,
    alloc: Global,
) -> Result<(AskerEnd, ServerEnd), SocketError> {
    let server = ServerEnd::open(net, alloc, loopback())?;
    let asker = AskerEnd::open(net, alloc, loopback(), server.address())?;
    Ok((asker, server))
}

/// Asks over a stream, given both ends, and returns the reply. A message without a reply is a failure: the server closes the
/// stream.
fn ask_over(
    alloc: Global,
    asker: &TcpStream,
    server: &TcpStream,
    bytes: &[u8],
    zone: &mut Zone,
) -> Result<Vec<u8>, SocketError>
    ensures { MayServe Stream zone.old zone.new }
{
    set_patience(asker)?;
    set_patience(server)?;
    let request = transfer_message(alloc, asker, server, bytes)?;
    match zone.serve(request.as_slice(), Transport::Stream)? {
        Some(reply) => transfer_message(alloc, server, asker, reply.as_slice()),
        None => Err(SocketError::Failed),
    }
}

/// Returns the result of a call of a socket as that of a call of a link.
fn link_result<T>(outcome: Result<T, SocketError>) -> Result<T, LinkError>
    ensures { MatchResult outcome (λ value. result ≡ Ok value)
        (λ error. result ≡ Err (link_error error)) }
{
    match outcome {
        Ok(value) => Ok(value),
        Err(SocketError::Failed) => Err(LinkError::Failed),
        // The socket had no memory for a message.
        Err(SocketError::Memory) => Err(LinkError::Memory),
    }
}

/// Remembers whether a call ran out of memory.
fn note_memory<T>(out_of_memory: &mut bool, outcome: &Result<T, LinkError>)
    ensures { out_of_memory.new ≡ memory_after outcome.now out_of_memory.old }
{
    if matches!(outcome, Err(LinkError::Memory)) {
        *out_of_memory = true;
    }
}

/// Counts the failure of a call, if it failed.
fn count_failure<T>(failures: &mut u64, outcome: &Result<T, LinkError>)
    ensures counted { failures.new ≡ failures_after outcome.now failures.old }
    ensures kept { failures.old ≤ failures.new }
    ensures rises { outcome.now ≡ Err LinkError.Failed → Rises failures.old failures.new }
{
    if matches!(outcome, Err(LinkError::Failed)) {
        *failures = failures.saturating_add(1);
    }
}

impl<R: Net<Listener = TcpListener, Stream = TcpStream> + Drop> Link for SocketLink<R> {
    ghost use Rattle.std.specs.Prelude.{List, ℕ};
    ghost use Rattle.stub_play.specs.sockets.SocketLink.{Receives, Sends, Streams};

    ghost sends = { λ old _ result new. Sends old result new };

    ghost receives = { λ old result new. Receives old result new };

    ghost streams = { λ old _ result new. Streams old result new };

    ghost failure_count = { λ link. link.failures };

    fn send_datagram(&mut self, bytes: &[u8]) -> Result<(), LinkError> {
        let sent = link_result(self.asker.send(bytes));
        count_failure(&mut self.failures, &sent);
        note_memory(&mut self.out_of_memory, &sent);
        sent
    }

    fn next_datagram(&mut self) -> Result<Option<Vec<u8>>, LinkError> {
        let received = link_result(self.receive());
        count_failure(&mut self.failures, &received);
        note_memory(&mut self.out_of_memory, &received);
        received
    }

    fn ask_stream(&mut self, bytes: &[u8]) -> Result<Vec<u8>, LinkError> {
        let reply = link_result(self.ask(bytes));
        count_failure(&mut self.failures, &reply);
        note_memory(&mut self.out_of_memory, &reply);
        reply
    }

    fn failures(&self) -> u64 {
        self.failures
    }
}
