//! What a line gives as the reply to a question: `reply <name> <type> <message>..` or `stream <name> <type> <message>`.

ghost use Rattle.std.specs.Prelude.{◌≡◌, IfOk, map, length, option_map};
ghost use Rattle.std.specs.Option.{option_copied};
ghost use Rattle.hex.specs.Hex.{decode_of};
ghost use Rattle.stub_script.specs.ReplyLine.{after_id, answer_content, answer_of, fits, is_server, message_bytes, message_content, message_if, message_of, messages_of, reply_content, reply_of};

use crate::script_fields::parse_question;
use dns_messages::Query;
use dns_zone_file::Types;
use hex::FromHexError;
use std::alloc::{AllocError, Global};

/// How the reply to a question is received.
#[derive(Clone, Copy, Debug, PartialEq, Eq)]
pub enum ReplyTransport {
    /// In datagrams.
    Datagram,
    /// Over a stream (RFC 7766 section 5).
    Stream,
}

/// A message that a script gives.
#[derive(Drop)]
pub struct GivenMessage {
    /// Whether the id of the request comes before the bytes.
    pub repeats_id: bool,
    /// The bytes of the message, or those after its id.
    pub bytes: Vec<u8>,
}

/// What answers a question.
#[derive(Drop)]
pub enum GivenAnswer {
    /// The server.
    Server,
    /// These messages, in the order in which they are received.
    Messages(Vec<GivenMessage>),
}

/// What a line of a script gives as the reply to a question.
#[derive(Drop)]
pub struct GivenReply {
    /// The line, counted from 1. The events below it are answered so.
    pub line: usize,
    /// How the reply is received.
    pub transport: ReplyTransport,
    /// The question. Its name is compared without regard to case.
    pub question: Query,
    /// What answers it.
    pub answer: GivenAnswer,
}

impl GivenMessage {
    /// Returns the bytes of the message in reply to a request with this id.
    pub fn to_bytes(&self, alloc: Global, id: u16) -> Result<Vec<u8>, AllocError>
        ensures { IfOk result (λ bytes. bytes.items ≡ message_bytes id self.now) }
    {
        let mut message = Vec::new(alloc);
        if self.repeats_id {
            message.extend_from_slice(&id.to_be_bytes())?;
        }
        message.extend_from_slice(self.bytes.as_slice())?;
        Ok(message)
    }
}

/// Reads the reply of a line, from the words after its keyword.
pub(crate) fn read_reply(
    alloc: Global,
    line: usize,
    transport: ReplyTransport,
    arguments: &[Vec<u8>],
    types: Types,
) -> Result<Option<GivenReply>, AllocError>
    ensures { IfOk result (λ found. option_map reply_content found
        ≡ reply_of types line transport (map (λ word. word.items) arguments.now)) }
{
    let [name, rtype, words @ ..] = arguments else {
        return Ok(None);
    };
    let Some((name, rtype)) = parse_question(alloc, name, rtype, types)? else {
        return Ok(None);
    };
    let Some(answer) = read_answer(alloc, transport, words)? else {
        return Ok(None);
    };
    Ok(Some(GivenReply {
        line,
        transport,
        question: Query::query(name, rtype),
        answer,
    }))
}

/// Reads what answers a question: `server`, or messages.
fn read_answer(
    alloc: Global,
    transport: ReplyTransport,
    words: &[Vec<u8>],
) -> Result<Option<GivenAnswer>, AllocError>
    ensures { IfOk result (λ found. option_map answer_content found
        ≡ answer_of transport (map (λ word. word.items) words.now)) }
{
    if is_server(words) {
        return Ok(Some(GivenAnswer::Server));
    }
    if !fits(transport, words.len()) {
        return Ok(None);
    }
    match read_messages(alloc, words)? {
        Some(messages) => Ok(Some(GivenAnswer::Messages(messages))),
        None => Ok(None),
    }
}

/// Returns `true` if the word is `server`, and the only one.
fn is_server(words: &[Vec<u8>]) -> bool
    ensures { result ≡ is_server (map (λ word. word.items) words.now) }
{
    match words {
        [word] => word.as_slice() == b"server".as_slice(),
        _ => false,
    }
}

/// Returns `true` if so many messages can be received. Over a stream it is one.
fn fits(transport: ReplyTransport, count: usize) -> bool
    ensures { result ≡ fits transport count }
{
    match transport {
        ReplyTransport::Datagram => true,
        ReplyTransport::Stream => count == 1,
    }
}

/// Reads the message of each word.
fn read_messages(alloc: Global, words: &[Vec<u8>]) -> Result<Option<Vec<GivenMessage>>, AllocError>
    ensures { IfOk result (λ found.
        option_map (λ messages. map message_content messages.items) found
        ≡ messages_of (map (λ word. word.items) words.now)) }
{
    let mut messages = Vec::new(alloc);
    for word in words {
        let Some(message) = parse_message(alloc, word)? else {
            return Ok(None);
        };
        messages.push(message)?;
    }
    Ok(Some(messages))
}

/// Parses a message: `-` if it is empty, or hexadecimal digits, before which `id` is in the place of the id of the request.
fn parse_message(alloc: Global, word: &[u8]) -> Result<Option<GivenMessage>, AllocError>
    ensures { IfOk result (λ found. option_map message_content found ≡ message_of word.now) }
{
    if word == b"-".as_slice() {
        return decode_message(alloc, false, &[]);
    }
    match after_id(word) {
        Some(digits) => decode_message(alloc, true, digits),
        None => decode_message(alloc, false, word),
    }
}

/// Returns the digits of a message after `id`.
fn after_id(word: &[u8]) -> Option<&[u8]>
    ensures { option_copied result ≡ after_id word.now }
{
    match word {
        [first, second, digits @ ..] if *first == b'i' && *second == b'd' => Some(digits),
        _ => None,
    }
}

/// Decodes the bytes of a message from its digits.
fn decode_message(
    alloc: Global,
    repeats_id: bool,
    digits: &[u8],
) -> Result<Option<GivenMessage>, AllocError>
    ensures { IfOk result (λ found. option_map message_content found
        ≡ message_if repeats_id (decode_of digits.now)) }
{
    match hex::decode(alloc, digits) {
        Ok(bytes) => Ok(Some(GivenMessage { repeats_id, bytes })),
        // The memory for the bytes was refused.
        Err(FromHexError::OutOfMemory) => Err(AllocError),
        Err(_) => Ok(None),
    }
}
