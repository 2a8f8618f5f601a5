//! Replies that are known.

ghost use Rattle.std.specs.Prelude.{◌≡◌, IfSome, None, Some};
ghost use Rattle.std.specs.Option.{option_copied};
ghost use Rattle.api_resolver.specs.known.Known.{Restores, RestoresResponse, known_error, known_outcome, outcome_for};

use dns_messages::laws::messages_decode_unambiguously;
use dns_messages::{DnsResponse, Query, ResponseError, Sequence};
use dns_wire::DecodeError;
use std::alloc::{AllocError, Global};
use stub_lookup::{LinkFault, NetError};

/// What an exchange ended in.
pub enum KnownOutcome {
    /// The bytes of a response.
    Response(Sequence<u8>),
    /// No server gave a reply that is accepted.
    Fault(LinkFault),
    /// The question can't be asked.
    Unsupported,
}

impl Drop for KnownOutcome {
    fn drop(self) {
        match self {
            KnownOutcome::Response(bytes) => drop(bytes),
            KnownOutcome::Fault(_) => {}
            KnownOutcome::Unsupported => {}
        }
    }
}

/// A question, and what the exchange for it ended in.
pub struct KnownReply {
    /// The question.
    pub question: Query,
    /// What the exchange ended in.
    pub outcome: KnownOutcome,
}

impl Drop for KnownReply {
    fn drop(self) {
        let KnownReply { question, outcome } = self;
        drop(question);
        drop(outcome);
    }
}

/// Returns what the outcome of an exchange is kept as, or none if memory ran out.
pub fn known_outcome(outcome: Result<DnsResponse, NetError>) -> Option<KnownOutcome>
    ensures { result ≡ known_outcome outcome }
{
    match outcome {
        Ok(response) => Some(KnownOutcome::Response(Sequence::from_vec(response.into_buffer()))),
        Err(error) => known_error(&error),
    }
}

/// Returns what the error of an exchange is kept as, or none if memory ran out.
fn known_error(error: &NetError) -> Option<KnownOutcome>
    ensures { result ≡ known_error error.now }
{
    match error {
        NetError::Link(fault) => Some(KnownOutcome::Fault(*fault)),
        // Memory ran out during the exchange.
        NetError::Memory => None,
        _ => Some(KnownOutcome::Unsupported),
    }
}

/// Returns what is known of a question, ignoring ASCII case: the outcome of the first of some replies to it.
pub fn outcome_for<'a>(replies: &'a [KnownReply], question: &Query) -> Option<&'a KnownOutcome>
    ensures { option_copied result ≡ outcome_for replies.now question.now }
{
    match replies
        .iter()
        .find(|reply| reply.question.asks_same(question))
    {
        Some(reply) => Some(&reply.outcome),
        None => None,
    }
}

/// Returns the outcome of an exchange from what is kept of it. Its response is decoded again.
pub fn restored(alloc: Global, known: &KnownOutcome) -> Result<DnsResponse, NetError>
    ensures { Restores known.now result }
{
    match known {
        KnownOutcome::Response(bytes) => response_in(alloc, bytes),
        KnownOutcome::Fault(fault) => Err(NetError::Link(*fault)),
        KnownOutcome::Unsupported => Err(NetError::Unsupported),
    }
}

/// Returns the response that bytes decode to.
fn response_in(alloc: Global, bytes: &Sequence<u8>) -> Result<DnsResponse, NetError>
    ensures { RestoresResponse bytes.now result }
{
    messages_decode_unambiguously();
    let copy = Vec::from_slice(alloc, bytes.as_slice())?;
    match DnsResponse::from_buffer(alloc, copy) {
        Ok(response) => Ok(response),
        Err(ResponseError::Decode(error)) => match error {
            // There was no memory for the message.
            DecodeError::Memory => Err(NetError::Memory),
            _ => Err(NetError::Unsupported),
        },
        Err(ResponseError::NotAResponse) => Err(NetError::Unsupported),
        Err(ResponseError::Encode(_)) => unreachable!(),
    }
}
