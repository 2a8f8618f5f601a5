//! Replies that have a response code and nothing else.

ghost use Rattle.std.specs.Prelude.{◌≡◌, ◌≤◌, IfOk};
ghost use Rattle.dns_wire.specs.Encoder.{max_message_len};
ghost use Rattle.dns_messages.specs.Cut.{front_reach};
ghost use Rattle.dns_messages.specs.Encoding.{Encodes};
ghost use Rattle.dns_faults.specs.Coded.{coded_edns, coded_number, coded_reply};

use dns_messages::{Edns, Message, Metadata, Query, ResponseCode};
use dns_names::Name;
use dns_wire::EncodeError;
use std::alloc::{AllocError, Global};

/// Returns the bytes of the reply to a request with one question, with the response code of this number: the question, an OPT
/// record if the request has one (RFC 6891 section 7), and no other records.
///
/// The id, the opcode, RD and CD are the request's, and the other flags are clear. Of the number, the lowest twelve bits count
/// if the request has an OPT record (RFC 6891 section 6.1.3), and the lowest four if it has none.
pub fn coded_reply(
    alloc: Global,
    request: &Message,
    query: &Query,
    number: u16,
) -> Result<Vec<u8>, AllocError>
    ensures { IfOk result (λ bytes. Encodes max_message_len
        (coded_reply request.now query.now number) bytes.items) }
{
    let reply = coded_message(alloc, request, query, number)?;
    match reply.to_vec(alloc) {
        Ok(bytes) => Ok(bytes),
        // The memory for the reply's bytes was refused.
        Err(EncodeError::Memory) => Err(AllocError),
        Err(EncodeError::MaxBufferSizeExceeded) => unreachable!(),
    }
}

/// Returns the reply to a request with one question, with the response code of this number.
fn coded_message(
    alloc: Global,
    request: &Message,
    query: &Query,
    number: u16,
) -> Result<Message, AllocError>
    ensures reply { IfOk result (λ reply. reply ≡ coded_reply request.now query.now number) }
    ensures short { IfOk result (λ reply. front_reach reply ≤ 512) }
{
    prove!(query.name.encoded_len() <= Name::MAX_LENGTH);
    let mut reply = Message::query(alloc, 0);
    reply.metadata = Metadata::response_from_request(&request.metadata);
    reply.metadata.response_code = ResponseCode::from(coded_number(request, number));
    reply.edns = coded_edns(alloc, request, number);
    reply.queries.push(query.clone()?)?;
    Ok(reply)
}

/// Returns the number of the response code that the reply to a request can have.
fn coded_number(request: &Message, number: u16) -> u16
    ensures { result ≡ coded_number request.now.edns number }
{
    match request.edns {
        Some(_) => number % 4096,
        None => number % 16,
    }
}

/// Returns the OPT record of the reply to a request, if the request has one.
fn coded_edns(alloc: Global, request: &Message, number: u16) -> Option<Edns>
    ensures { result ≡ coded_edns request.now.edns number }
{
    let Some(request) = &request.edns else {
        return None;
    };
    let mut edns = Edns::new(alloc);
    edns.set_dnssec_ok(request.flags().dnssec_ok);
    edns.set_rcode_high((number % 4096 / 16) as u8);
    Some(edns)
}
