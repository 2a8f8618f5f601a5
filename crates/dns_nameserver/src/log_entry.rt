//! What the log of a name server says of a request.

ghost use Rattle.std.specs.Prelude.{◌≡◌, ◌<◌, IfOk, length, string_bytes};
ghost use Rattle.std.specs.Net.Text.{socket_text};
ghost use Rattle.dns_messages.specs.Header.{peeked_metadata};
ghost use Rattle.dns_nameserver.specs.LogEntry.{HasCode, HasQuestion, IsLogged, IsOnly, counts_of, log_transport, number_at, op_of_header, reply_bytes};

use crate::answered::Answered;
use dns_faults::rules::Transport;
use dns_log::{LogEntry, LogQuestion, LogTransport, ReplyCounts};
use dns_messages::{Message, Metadata, Query};
use dns_wire::DecodeError;
use std::alloc::{AllocError, Global};
use std::net::SocketAddr;

/// Returns what the log says of a request that arrived at a moment, in milliseconds since the start, from a peer. A request or a reply
/// that cannot be decoded has no question or no response code.
pub fn request_entry(
    alloc: Global,
    moment: u64,
    peer: SocketAddr,
    transport: Transport,
    request: &[u8],
    answered: &Answered,
) -> Result<LogEntry, AllocError>
    ensures arrived { IfOk result (λ entry. (entry.moment ≡ moment)
        × (entry.transport ≡ log_transport transport) × (entry.request_len ≡ length request.now)) }
    ensures peer { IfOk result (λ entry. string_bytes entry.peer ≡ socket_text peer) }
    ensures question { IfOk result (λ entry. HasQuestion request.now entry.question) }
    ensures code { IfOk result (λ entry. HasCode (reply_bytes answered.now) entry.code) }
    ensures asked { IfOk result (λ entry. (entry.id ≡ number_at request.now 0)
        × (entry.op_code ≡ op_of_header (peeked_metadata request.now))) }
    ensures sent { IfOk result (λ entry. let reply = reply_bytes answered.now in
        (entry.counts ≡ counts_of reply) × (entry.reply_len ≡ length reply)) }
    ensures effects { IfOk result (λ entry. (entry.fault_line ≡ answered.now.line)
        × (entry.is_update_applied ≡ answered.now.has_updated)) }
{
    let reply = reply_bytes(answered);
    Ok(LogEntry {
        moment,
        peer: format!(in alloc; "{peer}")?,
        transport: log_transport(transport),
        id: number_at(request, 0),
        op_code: op_code_of(request),
        question: question_of(alloc, request)?,
        code: code_of(alloc, reply)?,
        counts: counts_of(reply),
        request_len: request.len(),
        reply_len: reply.len(),
        fault_line: answered.line,
        is_update_applied: answered.has_updated,
    })
}

/// Returns the bytes of a reply, or none if nothing is sent.
fn reply_bytes(answered: &Answered) -> &[u8]
    ensures { result.now ≡ reply_bytes answered.now }
{
    match &answered.delivery.reply {
        Some(bytes) => bytes.as_slice(),
        None => &[],
    }
}

/// Returns the transport, as the log names it.
fn log_transport(transport: Transport) -> LogTransport
    ensures { result ≡ log_transport transport }
{
    match transport {
        Transport::Datagram => LogTransport::Udp,
        Transport::Stream => LogTransport::Tcp,
    }
}

/// Returns the number of the opcode of a message, if it has a header.
fn op_code_of(message: &[u8]) -> Option<u8>
    ensures { result ≡ op_of_header (peeked_metadata message.now) }
{
    match Metadata::peek(message) {
        Some(metadata) => Some(u8::from(metadata.op_code)),
        None => None,
    }
}

/// Returns the number in two bytes of a message, most significant first, if they are there.
fn number_at(message: &[u8], place: usize) -> Option<u16>
    requires { place < 12 }
    ensures { result ≡ number_at message.now place }
{
    if message.len() < place + 2 {
        return None;
    }
    Some(u16::from_be_bytes([message[place], message[place + 1]]))
}

/// Returns the numbers of records that the header of a reply states (RFC 1035 section 4.1.1), or zeros without a header.
fn counts_of(reply: &[u8]) -> ReplyCounts
    ensures { result ≡ counts_of reply.now }
{
    ReplyCounts {
        answers: number_at(reply, 6).unwrap_or(0),
        authorities: number_at(reply, 8).unwrap_or(0),
        additionals: number_at(reply, 10).unwrap_or(0),
    }
}

/// Returns the question of a request, if it has exactly one and can be decoded.
fn question_of(alloc: Global, request: &[u8]) -> Result<Option<LogQuestion>, AllocError>
    ensures { IfOk result (HasQuestion request.now) }
{
    match Message::from_vec(alloc, request) {
        Ok(message) => only_question(alloc, &message),
        // There was no memory for the message.
        Err(DecodeError::Memory) => Err(AllocError),
        Err(_) => Ok(None),
    }
}

/// Returns the question of a message that has exactly one.
fn only_question(alloc: Global, message: &Message) -> Result<Option<LogQuestion>, AllocError>
    ensures { IfOk result (IsOnly message.now.queries) }
{
    match message.queries.as_slice() {
        [query] => Ok(Some(question_text(alloc, query)?)),
        _ => Ok(None),
    }
}

/// Returns a question as text.
fn question_text(alloc: Global, query: &Query) -> Result<LogQuestion, AllocError>
    ensures { IfOk result (IsLogged query.now) }
{
    let name = &query.name;
    let record_type = query.query_type;
    let class = query.query_class;
    Ok(LogQuestion {
        name: format!(in alloc; "{name}")?,
        record_type: format!(in alloc; "{record_type}")?,
        class: format!(in alloc; "{class}")?,
    })
}

/// Returns the number of the response code of a reply, if it can be decoded.
fn code_of(alloc: Global, reply: &[u8]) -> Result<Option<u16>, AllocError>
    ensures { IfOk result (HasCode reply.now) }
{
    match Message::from_vec(alloc, reply) {
        Ok(message) => Ok(Some(u16::from(message.metadata.response_code))),
        // There was no memory for the message.
        Err(DecodeError::Memory) => Err(AllocError),
        Err(_) => Ok(None),
    }
}
