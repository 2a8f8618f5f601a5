//! A link that answers by the replies of a script.

ghost use Rattle.std.specs.Prelude.{◌≡◌, ◌++◌, IfOk, OnOk, OnErr, [], length, take, reverse};
ghost use Rattle.std.specs.Option.{option_copied};
ghost use Rattle.stub_script.specs.GivenLink.{answer_to, bytes_of, first_about, given_answer, is_about, messages_bytes, next_line, same_transport, stream_message};

use crate::reply_line::{GivenAnswer, GivenMessage, GivenReply, ReplyTransport};
use std::alloc::{AllocError, Global};
use stub_link::trace::RequestNote;
use stub_link::{Link, LinkError};
use stub_run::{Event, EventLink};

/// A link that answers questions by the replies that a script gives, and passes all other calls on to another link.
///
/// A reply answers the events below its line, up to the next reply to the same question over the same transport. What was given for
/// an event and not received is dropped when the next one begins. The link words of an event are those of the other link.
#[derive(Drop)]
pub struct GivenLink<L> {
    alloc: Global,
    link: L,
    /// The replies, the last one first.
    replies: Vec<GivenReply>,
    /// The line of each event.
    lines: Vec<usize>,
    /// How many events have begun.
    begun: usize,
    /// The line of the event that has begun last, or 0.
    line: usize,
    /// The datagrams that were not received yet, the oldest first.
    waiting: Vec<Vec<u8>>,
}

impl<L> GivenLink<L> {
    /// Creates a link around another. The events of the script have these lines.
    pub fn new(
        alloc: Global,
        link: L,
        mut replies: Vec<GivenReply>,
        lines: Vec<usize>,
    ) -> GivenLink<L>
        ensures link { result.link ≡ link }
        ensures replies { result.replies.items ≡ reverse replies.items }
        ensures lines { result.lines ≡ lines }
        ensures begun { result.begun ≡ 0 }
        ensures line { result.line ≡ 0 }
        ensures waiting { bytes_of result.waiting ≡ [] }
    {
        replies.reverse();
        GivenLink {
            alloc,
            link,
            replies,
            lines,
            begun: 0,
            line: 0,
            waiting: Vec::new(alloc),
        }
    }
}

/// Returns the messages that answer a request, or `None` if the script gives none.
fn answer_to<'a>(
    replies: &'a [GivenReply],
    line: usize,
    transport: ReplyTransport,
    request: &RequestNote,
) -> Option<&'a [GivenMessage]>
    ensures { option_copied result ≡ answer_to line transport request.now replies.now }
{
    match first_about(replies, line, transport, request) {
        Some(reply) => given_answer(&reply.answer),
        None => None,
    }
}

/// Returns the first reply that is about a request.
fn first_about<'a>(
    replies: &'a [GivenReply],
    line: usize,
    transport: ReplyTransport,
    request: &RequestNote,
) -> Option<&'a GivenReply>
    ensures { option_copied result ≡ first_about line transport request.now replies.now }
{
    for reply in replies {
        if is_about(reply, line, transport, request) {
            return Some(reply);
        }
    }
    None
}

/// Returns `true` if a reply is about a request of an event on this line.
fn is_about(
    reply: &GivenReply,
    line: usize,
    transport: ReplyTransport,
    request: &RequestNote,
) -> bool
    ensures { result ≡ is_about line transport request.now reply.now }
{
    reply.line < line && same_transport(reply.transport, transport) && request.asks(&reply.question)
}

/// Returns `true` if two transports are the same.
fn same_transport(a: ReplyTransport, b: ReplyTransport) -> bool
    ensures { result ≡ same_transport a b }
{
    match (a, b) {
        (ReplyTransport::Datagram, ReplyTransport::Datagram) => true,
        (ReplyTransport::Stream, ReplyTransport::Stream) => true,
        _ => false,
    }
}

/// Returns the messages of an answer, or `None` if it is the server's.
fn given_answer(answer: &GivenAnswer) -> Option<&[GivenMessage]>
    ensures { option_copied result ≡ given_answer answer.now }
{
    match answer {
        GivenAnswer::Server => None,
        GivenAnswer::Messages(messages) => Some(messages.as_slice()),
    }
}

/// Appends the bytes of messages in reply to a request with this id, or none of them.
fn push_all(
    alloc: Global,
    messages: &[GivenMessage],
    id: u16,
    waiting: &mut Vec<Vec<u8>>,
) -> Result<(), AllocError>
    ensures ok { OnOk result (bytes_of waiting.new
        ≡ bytes_of waiting.old ++ messages_bytes id messages.now) }
    ensures err { OnErr result (bytes_of waiting.new ≡ bytes_of waiting.old) }
{
    let count = waiting.len();
    let pushed = push_messages(alloc, messages, id, waiting);
    if pushed.is_err() {
        waiting.truncate(count);
    }
    pushed
}

/// Appends the bytes of messages in reply to a request with this id. If memory is refused, some of them may have been appended.
fn push_messages(
    alloc: Global,
    messages: &[GivenMessage],
    id: u16,
    waiting: &mut Vec<Vec<u8>>,
) -> Result<(), AllocError>
    ensures ok { OnOk result (bytes_of waiting.new
        ≡ bytes_of waiting.old ++ messages_bytes id messages.now) }
    ensures err { OnErr result (
        take (length waiting.old.items) waiting.new.items ≡ waiting.old.items) }
{
    for message in messages {
        waiting.push(message.to_bytes(alloc, id)?)?;
    }
    Ok(())
}

/// Returns the bytes of the message over a stream in reply to a request with this id.
fn stream_message(alloc: Global, messages: &[GivenMessage], id: u16) -> Result<Vec<u8>, AllocError>
    ensures { IfOk result (λ bytes. bytes.items ≡ stream_message id messages.now) }
{
    match messages.first() {
        Some(message) => message.to_bytes(alloc, id),
        None => Ok(Vec::new(alloc)),
    }
}

/// Returns the line of the next event.
fn next_line(lines: &[usize], begun: usize) -> usize
    ensures { result ≡ next_line lines.now begun }
{
    match lines.get(begun) {
        Some(line) => *line,
        None => usize::MAX,
    }
}

impl<L: Link> Link for GivenLink<L> {
    ghost use Rattle.stub_script.specs.GivenLink.{GivenReceives, GivenSends, GivenStreams};

    ghost sends = { λ old bytes result new. GivenSends L.sends old bytes result new };

    ghost receives = { λ old result new. GivenReceives L.receives old result new };

    ghost streams = { λ old bytes result new. GivenStreams L.streams old bytes result new };

    ghost failure_count = { λ given. L.failure_count given.link };

    fn send_datagram(&mut self, bytes: &[u8]) -> Result<(), LinkError> {
        let Some(request) = RequestNote::read(self.alloc, bytes)? else {
            return self.link.send_datagram(bytes);
        };
        let replies = self.replies.as_slice();
        match answer_to(replies, self.line, ReplyTransport::Datagram, &request) {
            Some(messages) => Ok(push_all(self.alloc, messages, request.id, &mut self.waiting)?),
            None => self.link.send_datagram(bytes),
        }
    }

    fn next_datagram(&mut self) -> Result<Option<Vec<u8>>, LinkError> {
        if self.waiting.is_empty() {
            self.link.next_datagram()
        } else {
            Ok(Some(self.waiting.remove(0)))
        }
    }

    fn ask_stream(&mut self, bytes: &[u8]) -> Result<Vec<u8>, LinkError> {
        let Some(request) = RequestNote::read(self.alloc, bytes)? else {
            return self.link.ask_stream(bytes);
        };
        let replies = self.replies.as_slice();
        match answer_to(replies, self.line, ReplyTransport::Stream, &request) {
            Some(messages) => Ok(stream_message(self.alloc, messages, request.id)?),
            None => self.link.ask_stream(bytes),
        }
    }

    fn failures(&self) -> u64 {
        self.link.failures()
    }
}

impl<L: EventLink> EventLink for GivenLink<L> {
    ghost use Rattle.stub_script.specs.GivenLink.{GivenBegins, GivenEnds};

    ghost begins = { λ old event new. GivenBegins L.begins old event new };

    ghost ends = { λ old result new. GivenEnds L.ends old result new };

    ghost is_out = { λ given. L.is_out given.link };

    fn begin(&mut self, event: &Event) -> Result<(), AllocError> {
        self.waiting.clear();
        self.line = next_line(self.lines.as_slice(), self.begun);
        self.begun = self.begun.saturating_add(1);
        self.link.begin(event)
    }

    fn end(&mut self) -> Result<(), AllocError> {
        self.link.end()
    }

    fn has_run_out(&self) -> bool {
        self.link.has_run_out()
    }
}
