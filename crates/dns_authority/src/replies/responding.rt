//! Requests, and what they are answered with (RFC 1035 section 4.1, RFC 6891 sections 6.1.1 and 6.1.3).

ghost use Rattle.std.specs.Prelude.{◌≡◌, ◌≤◌, false, None, Some, Ok, IfOk, IfSome, option_map};
ghost use Rattle.dns_messages.specs.Encoding.{Encodes};
ghost use Rattle.dns_messages.specs.Header.{peeked_metadata};
ghost use Rattle.dns_messages.specs.declared.message_type.MessageType.TheVariants as kinds;
ghost use Rattle.dns_zone.specs.Serving.{has_query_header, reply_limit};
ghost use Rattle.dns_authority.specs.Front.{first_records};
ghost use Rattle.dns_authority.specs.replies.Reply.{bare_answer_to, bare_answer_to_queries, reply};
ghost use Rattle.dns_authority.specs.replies.Responding.{IsSentForOther, Responds};
ghost use Rattle.dns_authority.specs.replies.Sending.{sent};

use crate::replies::malformed::{has_opt, malformed_bytes};
use crate::replies::reply::{reply_bytes, too_many_records};
use crate::{AuthorityAnswer, AuthorityView};
use dns_messages::{Message, MessageType, Metadata, OpCode, Query, ResponseCode};
use dns_zone::{Transport, decode_request, reply_limit};
use std::alloc::{AllocError, Global};

/// Returns the reply to a request, or `None` for fewer bytes than a header has, and for a response.
///
/// Bytes with the header of a query that do not decode, such as those with two OPT records, are answered with `FormErr`, and with an
/// OPT record if they have one (RFC 6891 section 7). The reply is within the limit of its transport.
pub fn respond(
    alloc: Global,
    authority: &AuthorityView<'_>,
    request: &[u8],
    transport: Transport,
) -> Result<Option<Vec<u8>>, AllocError>
    ensures reply { IfOk result (λ found. Responds authority.now.any authority.now.zones.now
        transport request.now (option_map (λ out. out.items) found)) }
    ensures header { has_query_header request.now ≡ false → result ≡ Ok None }
{
    let Some(metadata) = query_metadata(request) else {
        return Ok(None);
    };
    match decode_request(alloc, request)? {
        Some(message) => Ok(Some(respond_to(alloc, authority, &message, transport)?)),
        None => Ok(Some(malformed_bytes(alloc, &metadata, has_opt(request))?)),
    }
}

/// Returns the reply to a request that is decoded.
///
/// No more records are copied than fit, if each has as few bytes as a record may have. With more than these, the reply has TC (RFC
/// 2181 section 9), and the time does not grow with the rest of them.
pub fn respond_to(
    alloc: Global,
    authority: &AuthorityView<'_>,
    request: &Message,
    transport: Transport,
) -> Result<Vec<u8>, AllocError>
    ensures { IfOk result (λ out. Encodes (reply_limit transport request.now)
        (sent (reply_limit transport request.now)
        (reply authority.now.any authority.now.zones.now request.now)) out.items) }
{
    let limit = reply_limit(transport, request);
    let answer = first_records_for(alloc, authority, request, too_many_records(limit))?;
    reply_bytes(alloc, authority, request, answer, limit)
}

/// Returns the reply to bytes that are not a request: `FormErr` for those that begin with the header of a query (RFC 1035 section
/// 4.1.1), with an OPT record if the bytes have one (RFC 6891 section 7). Others have none, which is decided before memory is taken.
pub fn respond_to_other(alloc: Global, bytes: &[u8]) -> Result<Option<Vec<u8>>, AllocError>
    ensures reply { IfOk result (λ found. IsSentForOther bytes.now
        (option_map (λ out. out.items) found)) }
    ensures decided { has_query_header bytes.now ≡ false → result ≡ Ok None }
{
    match query_metadata(bytes) {
        Some(metadata) => Ok(Some(malformed_bytes(alloc, &metadata, has_opt(bytes))?)),
        None => Ok(None),
    }
}

/// Returns the first records of the answer to a request without its additional section, or its fault: a version of EDNS above 0, or
/// another opcode than that of a query.
fn first_records_for(
    alloc: Global,
    authority: &AuthorityView<'_>,
    request: &Message,
    most: usize,
) -> Result<AuthorityAnswer, AllocError>
    requires { 1 ≤ most }
    ensures { IfOk result (λ answer. answer ≡ first_records most
        (bare_answer_to authority.now.any authority.now.zones.now request.now)) }
{
    if request.version() > 0 {
        return Ok(AuthorityAnswer::refusal(alloc, ResponseCode::BADVERS));
    }
    match request.metadata.op_code {
        OpCode::Query => {
            first_records_for_queries(alloc, authority, request.queries.as_slice(), most)
        }
        _ => Ok(AuthorityAnswer::refusal(alloc, ResponseCode::NotImp)),
    }
}

/// Returns the first records of the answer to the question of a query without its additional section, or the fault of a query without
/// one or with several.
fn first_records_for_queries(
    alloc: Global,
    authority: &AuthorityView<'_>,
    queries: &[Query],
    most: usize,
) -> Result<AuthorityAnswer, AllocError>
    requires { 1 ≤ most }
    ensures { IfOk result (λ answer. answer ≡ first_records most
        (bare_answer_to_queries authority.now.any authority.now.zones.now queries.now)) }
{
    let [query] = queries else {
        return Ok(AuthorityAnswer::refusal(alloc, ResponseCode::FormErr));
    };
    authority.first_records(alloc, most, query)
}

/// Returns the header that bytes begin with, if it is that of a query.
fn query_metadata(bytes: &[u8]) -> Option<Metadata>
    ensures none { result ≡ None → has_query_header bytes.now ≡ false }
    ensures some { IfSome result (λ metadata. (peeked_metadata bytes.now ≡ Some metadata)
        × (metadata.message_type ≡ kinds.Query)) }
{
    let metadata = Metadata::peek(bytes)?;
    match metadata.message_type {
        MessageType::Query => Some(metadata),
        MessageType::Response => None,
    }
}
