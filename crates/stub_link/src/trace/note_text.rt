//! Notes as lines of text.

ghost use Rattle.std.specs.Prelude.{◌≡◌, ◌<◌, IfOk, None, Ok, Some, length};
ghost use Rattle.stub_link.specs.trace.RequestNote.{IsNoteOf, ReadsRequest, asks, request_text};

use crate::LinkError;
use crate::trace::note::Note;
use crate::trace::verdict::{Verdict, verdict_on};
use dns_messages::{Message, Metadata, OpCode, Query};
use dns_wire::DecodeError;
use std::alloc::{AllocError, Global};
use std::{fmt, io};

/// The request whose reply is awaited, and how many receives there were since it was sent.
#[derive(Drop)]
pub struct RequestNote {
    /// The id under which it was sent.
    pub id: u16,
    /// Its question, or `None` if it is an update.
    pub question: Option<Query>,
    receives: u64,
}

impl RequestNote {
    /// Reads the request in a datagram, or `None` if the bytes are not a message. Fewer than 12 bytes take no memory.
    pub fn read(alloc: Global, bytes: &[u8]) -> Result<Option<RequestNote>, AllocError>
        ensures read { IfOk result (ReadsRequest bytes.now) }
        ensures short { length bytes.now < 12 → result ≡ Ok None }
    {
        match Message::from_vec(alloc, bytes) {
            Ok(message) => Ok(Some(RequestNote::of_message(&message)?)),
            // There was no memory for the message.
            Err(DecodeError::Memory) => Err(AllocError),
            Err(_) => Ok(None),
        }
    }

    /// Returns `true` if it asks a question.
    pub fn asks(&self, query: &Query) -> bool
        ensures { result ≡ asks self.now.question query.now }
    {
        match &self.question {
            Some(question) => question.asks_same(query),
            None => false,
        }
    }

    /// Returns the request of a message.
    fn of_message(message: &Message) -> Result<RequestNote, AllocError>
        ensures { IfOk result (IsNoteOf message.now) }
    {
        let question = match (message.metadata.op_code, message.queries.as_slice()) {
            (OpCode::Query, [query]) => Some(query.clone()?),
            _ => None,
        };
        Ok(RequestNote {
            id: message.metadata.id,
            question,
            receives: 0,
        })
    }
}

impl fmt::Display for RequestNote {
    ghost output = { λ request. Some (request_text request) };

    /// Writes the id and the question, as `id 1 a.t. IN A`, or `id 2 update`.
    fn fmt<W: fmt::Write>(&self, f: &mut fmt::Formatter<W>) -> fmt::Result {
        let id = self.id;
        match &self.question {
            Some(query) => write!(f, "id {id} {query}"),
            None => write!(f, "id {id} update"),
        }
    }
}

/// Writes the notes of an event, each on a line of its own, which begins with `  ->` or `  <-`.
///
/// The error is of kind [`io::ErrorKind::OutOfMemory`] if there is no memory to decode a message. Any other error is the
/// writer's.
pub fn write_notes<W: io::Write>(alloc: Global, notes: &[Note], writer: &mut W) -> io::Result<()> {
    let mut request = None;
    for note in notes {
        write_note(alloc, note, &mut request, writer)?;
    }
    Ok(())
}

/// Writes a note. `request` is the request whose reply is awaited.
fn write_note<W: io::Write>(
    alloc: Global,
    note: &Note,
    request: &mut Option<RequestNote>,
    writer: &mut W,
) -> io::Result<()> {
    match note {
        Note::Send { bytes, outcome } => {
            *request = RequestNote::read(alloc, bytes.as_slice())?;
            write_sent(request.as_ref(), bytes.len(), outcome.is_ok(), writer)
        }
        Note::Receive(outcome) => {
            let receive = next_receive(request);
            write_received(alloc, outcome, request.as_ref(), receive, writer)
        }
        Note::Stream { bytes, outcome } => {
            write_asked_again(request.as_ref(), bytes.len(), writer)?;
            write_stream_reply(alloc, outcome, request.as_ref(), writer)
        }
    }
}

/// Counts a receive for a request, and returns its number.
fn next_receive(request: &mut Option<RequestNote>) -> u64 {
    match request {
        Some(request) => {
            request.receives = request.receives.saturating_add(1);
            request.receives
        }
        None => 0,
    }
}

/// Writes that a datagram was sent, or was not.
fn write_sent<W: io::Write>(
    request: Option<&RequestNote>,
    len: usize,
    is_sent: bool,
    writer: &mut W,
) -> io::Result<()> {
    let ending = if is_sent { "" } else { ", not sent" };
    match request {
        Some(request) => writeln!(
            writer,
            "  -> {request}, attempt 1: datagram of {len} bytes{ending}"
        ),
        None => writeln!(writer, "  -> attempt 1: datagram of {len} bytes{ending}"),
    }
}

/// Writes that a request was sent again, over a stream.
fn write_asked_again<W: io::Write>(
    request: Option<&RequestNote>,
    len: usize,
    writer: &mut W,
) -> io::Result<()> {
    match request {
        Some(request) => writeln!(writer, "  -> {request}, attempt 2: stream, {len} bytes"),
        None => writeln!(writer, "  -> attempt 2: stream, {len} bytes"),
    }
}

/// Writes what a receive came to.
fn write_received<W: io::Write>(
    alloc: Global,
    outcome: &Result<Option<Vec<u8>>, LinkError>,
    request: Option<&RequestNote>,
    receive: u64,
    writer: &mut W,
) -> io::Result<()> {
    match outcome {
        Ok(Some(bytes)) => {
            write_header(bytes.as_slice(), writer)?;
            write!(writer, "receive {receive}: ")?;
            write_verdict(alloc, bytes.as_slice(), request, writer)
        }
        Ok(None) => writeln!(writer, "  <- receive {receive}: nothing"),
        Err(_) => writeln!(writer, "  <- receive {receive}: failed"),
    }
}

/// Writes what was received over a stream.
fn write_stream_reply<W: io::Write>(
    alloc: Global,
    outcome: &Result<Vec<u8>, LinkError>,
    request: Option<&RequestNote>,
    writer: &mut W,
) -> io::Result<()> {
    match outcome {
        Ok(bytes) => {
            write_header(bytes.as_slice(), writer)?;
            write!(writer, "stream: ")?;
            write_verdict(alloc, bytes.as_slice(), request, writer)
        }
        Err(_) => writeln!(writer, "  <- stream: failed"),
    }
}

/// Writes the id and the response code of a datagram, if it has a header.
fn write_header<W: io::Write>(bytes: &[u8], writer: &mut W) -> io::Result<()> {
    match Metadata::peek(bytes) {
        Some(header) => {
            let id = header.id;
            let code = header.response_code;
            write!(writer, "  <- id {id} {code}, ")
        }
        None => write!(writer, "  <- "),
    }
}

/// Writes the length of a datagram, and what it is to a request.
fn write_verdict<W: io::Write>(
    alloc: Global,
    bytes: &[u8],
    request: Option<&RequestNote>,
    writer: &mut W,
) -> io::Result<()> {
    let len = bytes.len();
    let Some(request) = request else {
        return writeln!(writer, "{len} bytes");
    };
    let verdict = verdict_on(alloc, request.id, request.question.as_ref(), bytes)?;
    if verdict == Verdict::Reply && is_truncated(bytes) {
        writeln!(writer, "{len} bytes, {verdict}, truncated")
    } else {
        writeln!(writer, "{len} bytes, {verdict}")
    }
}

/// Returns `true` if a datagram has a header with TC set (RFC 1035 section 4.1.1).
fn is_truncated(bytes: &[u8]) -> bool {
    Metadata::peek(bytes).is_some_and(|header| header.truncation)
}
