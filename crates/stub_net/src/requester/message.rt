//! The replies to a request.

ghost use Rattle.std.specs.Prelude.{◌≡◌, IfOk, OnErr};
ghost use Rattle.std.specs.Option.{option_copied};
ghost use Rattle.stub_link.specs.Reply.{question_in};
ghost use Rattle.stub_net.specs.Request.{Finds, IsHeaded, is_cut, is_cut_reply};

use dns_messages::{DnsResponse, Message, OpCode, Query};
use std::alloc::{AllocError, Global};
use stub_link::reply_in;
use stub_lookup::NetError;

/// Returns the reply to a request in a datagram, if it has one.
pub(crate) fn reply_to(
    alloc: Global,
    message: &Message,
    bytes: Vec<u8>,
) -> Result<Option<DnsResponse>, AllocError>
    ensures found { IfOk result (λ found. Finds message.now bytes.items found) }
    ensures headed { OnErr result (IsHeaded message.now bytes.items) }
{
    reply_in(alloc, message.metadata.id, question_in(message), bytes)
}

/// Returns `true` if an outcome is a reply that is not used, since it is truncated.
pub(crate) fn is_cut_reply(message: &Message, outcome: &Result<DnsResponse, NetError>) -> bool
    ensures { result ≡ is_cut_reply message.now outcome.now }
{
    match outcome {
        Ok(response) => is_cut(message, response),
        Err(_) => false,
    }
}

/// Returns `true` if a reply to a question is truncated. The response code of the reply to an update is not.
pub(crate) fn is_cut(message: &Message, response: &DnsResponse) -> bool
    ensures { result ≡ is_cut message.now response.now }
{
    question_in(message).is_some() && response.message().metadata.truncation
}

/// Returns the question of a request, which an update does not have.
pub(crate) fn question_in(message: &Message) -> Option<&Query>
    ensures { option_copied result ≡ question_in message.now }
{
    match (message.metadata.op_code, message.queries.as_slice()) {
        (OpCode::Query, [query]) => Some(query),
        _ => None,
    }
}
