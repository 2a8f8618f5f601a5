//! The requests for which a rule decides.

ghost use Rattle.std.specs.Prelude.{◌≡◌, IfOk, IfSome, None, Some, option_map};
ghost use Rattle.dns_faults.specs.Decided.{Decides, IsDecided, counted_for, deciding};
ghost use Rattle.dns_faults.specs.rules.Table.{decision_of};

use crate::rules::{Decision, FaultTable, Transport};
use dns_messages::laws::messages_decode_unambiguously;
use dns_messages::{Message, MessageType, Query};
use dns_wire::DecodeError;
use std::alloc::{AllocError, Global};

/// A request for which a rule decides.
#[derive(Drop)]
pub struct Decided {
    /// The request, which has one question.
    pub request: Message,
    /// What the rule decides.
    pub decision: Decision,
}

/// Returns the request that bytes are, with what a table decides for it, or `None` if no rule does. Nothing is counted.
///
/// No rule decides for bytes that do not decode, for responses, and for requests with another number of questions than one. An error is
/// want of memory.
pub fn decision_for(
    alloc: Global,
    table: &FaultTable,
    bytes: &[u8],
    transport: Transport,
) -> Result<Option<Decided>, AllocError>
    ensures { IfOk result (Decides table.now bytes.now transport) }
{
    messages_decode_unambiguously();
    let request = match Message::from_vec(alloc, bytes) {
        Ok(request) => request,
        Err(error) => match error {
            // The memory for the message was refused.
            DecodeError::Memory => return Err(AllocError),
            _ => return Ok(None),
        },
    };
    match request.metadata.message_type {
        MessageType::Query => Ok(decide(table, request, transport)),
        MessageType::Response => Ok(None),
    }
}

/// Returns a request with what a table decides for it, if a rule does.
fn decide(table: &FaultTable, request: Message, transport: Transport) -> Option<Decided>
    ensures some { IfSome result (λ d. (d.request ≡ request) × (Some d.decision
        ≡ option_map (decision_of transport) (deciding table.now transport request.queries))) }
    ensures none { result ≡ None
        → option_map (decision_of transport) (deciding table.now transport request.queries) ≡ None }
{
    match decision_in(table, request.queries.as_slice(), transport) {
        Some(decision) => Some(Decided { request, decision }),
        None => None,
    }
}

/// Returns what a table decides for a request with these questions.
fn decision_in(table: &FaultTable, queries: &[Query], transport: Transport) -> Option<Decision>
    ensures { result ≡ option_map (decision_of transport) (deciding table.now transport queries.now) }
{
    let [query] = queries else {
        return None;
    };
    table.decision(&query.name, query.query_type, transport)
}

impl Decided {
    /// Counts the decision in its table.
    pub fn count(&self, table: &mut FaultTable, transport: Transport)
        ensures { table.new ≡ counted_for table.old transport self.now.request.queries }
    {
        if let [query] = self.request.queries.as_slice() {
            table.decide(&query.name, query.query_type, transport);
        }
    }
}
