//! Which messages are the reply to a request (RFC 5452 sections 3 and 9).
//!
//! A request is known by its id, and by its question if it is a query; an update has none.

ghost use Rattle.std.specs.Prelude.{◌≡◌, ◌≤◌, true, IfOk, OnErr, Some};
ghost use Rattle.std.specs.Option.{option_copied};
ghost use Rattle.dns_messages.specs.Header.{peeked_metadata};
ghost use Rattle.stub_link.specs.Link.{calls_of, wire};
ghost use Rattle.stub_link.specs.Reply.{has_reply_header, is_reply_code, is_reply_header, matches, repeats};
ghost use Rattle.stub_link.specs.Wait.{Wait};
ghost use Rattle.stub_link.specs.WireHandle.{FailsByLink, FindsReply};

use crate::link::{Link, LinkError};
use dns_messages::laws::{headers_are_peeked, messages_decode_unambiguously};
use dns_messages::{DnsResponse, Message, MessageType, Metadata, OpCode, Query, ResponseError};
use dns_wire::DecodeError;
use std::alloc::{AllocError, Global};
use stub_lookup::{LinkFault, NetError};

/// The maximum number of datagrams that are received for a request.
const MAX_RECEIVES: u8 = 16;

/// Receives datagrams up to the reply, at most sixteen. All others are dropped and counted.
pub(crate) fn wait<L: Link>(
    alloc: Global,
    link: &mut L,
    id: u16,
    question: Option<&Query>,
    dropped: &mut u64,
) -> Result<DnsResponse, NetError>
    ensures waits { Wait wire (calls_of L.sends L.receives L.streams) 16 id
        (option_copied question.entry) link.old dropped.old result link.new dropped.new }
    ensures failed { FailsByLink result (L.failure_count link.old) (L.failure_count link.new) }
    ensures kept { L.failure_count link.old ≤ L.failure_count link.new }
{
    for _received in 0..MAX_RECEIVES {
        match link.next_datagram() {
            Err(LinkError::Failed) => return Err(NetError::Link(LinkFault::NotReceived)),
            // The link ran out of memory.
            Err(LinkError::Memory) => return Err(NetError::Memory),
            Ok(None) => return Err(NetError::Link(LinkFault::Quiet)),
            Ok(Some(bytes)) => match reply_in(alloc, id, question, bytes) {
                Err(error) => return Err(NetError::from(error)),
                Ok(Some(response)) => return Ok(response),
                Ok(None) => *dropped = dropped.saturating_add(1),
            },
        }
    }
    Err(NetError::Link(LinkFault::NoMatch))
}

/// Returns the reply in a datagram, if it has one: a response with the opcode and the id of the request, and with its
/// question alone (RFC 5452 section 9.1). The reply to an update, which has none, may have any questions.
///
/// A datagram without the header of a reply is dropped before memory is taken.
pub fn reply_in(
    alloc: Global,
    id: u16,
    question: Option<&Query>,
    bytes: Vec<u8>,
) -> Result<Option<DnsResponse>, AllocError>
    ensures found { IfOk result
        (λ found. FindsReply id (option_copied question.entry) bytes.items found) }
    ensures headed { OnErr result (has_reply_header id (option_copied question.entry)
        (peeked_metadata bytes.items) ≡ true) }
{
    messages_decode_unambiguously();
    headers_are_peeked();
    if !has_reply_header(id, question, bytes.as_slice()) {
        return Ok(None);
    }
    match DnsResponse::from_buffer(alloc, bytes) {
        Ok(response) => {
            if is_reply(id, question, response.message()) {
                Ok(Some(response))
            } else {
                Ok(None)
            }
        }
        Err(ResponseError::Decode(error)) => match error {
            // There was no memory for the message.
            DecodeError::Memory => Err(AllocError),
            _ => Ok(None),
        },
        Err(ResponseError::NotAResponse) => Ok(None),
        Err(ResponseError::Encode(_)) => unreachable!(),
    }
}

/// Returns `true` if a datagram has the header of a reply.
fn has_reply_header(id: u16, question: Option<&Query>, bytes: &[u8]) -> bool
    ensures { result
        ≡ has_reply_header id (option_copied question.entry) (peeked_metadata bytes.now) }
{
    match Metadata::peek(bytes) {
        Some(header) => is_reply_header(id, question, header),
        None => false,
    }
}

/// Returns `true` if a header is that of a reply: a response with the opcode and the id of the request (RFC 5452 section 3).
fn is_reply_header(id: u16, question: Option<&Query>, header: Metadata) -> bool
    ensures { result ≡ is_reply_header id (option_copied question.entry) header }
{
    header.message_type == MessageType::Response
        && is_reply_code(question, header.op_code)
        && header.id == id
}

/// Returns `true` if an opcode is that of the replies to a request: of a query if it has a question, else of an update.
pub fn is_reply_code(question: Option<&Query>, op_code: OpCode) -> bool
    ensures { result ≡ is_reply_code (option_copied question.entry) op_code }
{
    match question {
        Some(_) => matches!(op_code, OpCode::Query),
        None => matches!(op_code, OpCode::Update),
    }
}

/// Returns `true` if a message is the reply to a request (RFC 5452 section 3).
pub(crate) fn is_reply(id: u16, question: Option<&Query>, message: &Message) -> bool
    ensures { result ≡ matches id (option_copied question.entry) message.now }
{
    is_reply_header(id, question, message.metadata)
        && match question {
            None => true,
            Some(query) => repeats(query, message.queries.as_slice()),
        }
}

/// Returns `true` if a question is the only one of a message.
fn repeats(query: &Query, queries: &[Query]) -> bool
    ensures { result ≡ repeats (Some query.now) queries.now }
{
    match queries {
        [asked] => query.asks_same(asked),
        _ => false,
    }
}
