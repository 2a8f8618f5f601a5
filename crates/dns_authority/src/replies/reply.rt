//! The reply to a request with an answer (RFC 1035 section 4.1.1, RFC 6891 section 7).

ghost use Rattle.std.specs.Prelude.{◌≡◌, ◌≤◌, nat_lt, option_map, IfOk, IfSome};
ghost use Rattle.dns_messages.specs.Cut.{front_reach};
ghost use Rattle.dns_messages.specs.Emit.{lent};
ghost use Rattle.dns_messages.specs.Encoding.{Encodes};
ghost use Rattle.dns_messages.specs.Message.{truncated};
ghost use Rattle.dns_authority.specs.replies.Reply.{edns_with, metadata_with, reply_with};
ghost use Rattle.dns_authority.specs.Additional.{with_additionals};
ghost use Rattle.dns_authority.specs.Front.{first_records};
ghost use Rattle.dns_authority.specs.declared.answer.AuthorityAnswer.{AuthorityAnswer};
ghost use Rattle.dns_authority.specs.replies.Sending.{borrowed_message, sent, IsTruncatedAt};
ghost use Rattle.dns_authority.specs.replies.TooMany.{record_count, too_many_records, IsReplyToLong};

use crate::replies::reply_ref::ReplyRef;
use crate::replies::sending::send;
use crate::{AuthorityAnswer, AuthorityView};
use dns_messages::{Edns, Message, Metadata, ResponseCode};
use dns_zone::repeated_queries;
use std::alloc::{AllocError, Global};

/// The most records of a section whose additional section is made before it is known whether they fit.
const FEW_RECORDS: usize = 16;

/// The number of bytes of the shortest record: an owner of one byte, and the fields before its data (RFC 1035 section 4.1.3).
const LEAST_RECORD_LEN: usize = 11;

/// Returns a number of records that do not fit a limit, whatever they are.
pub(crate) fn too_many_records(limit: u16) -> usize
    ensures { result ≡ too_many_records limit }
{
    usize::from(limit) / LEAST_RECORD_LEN + 1
}

/// Returns `true` if an answer has fewer records than so many in its answer and authority sections.
fn has_fewer_records(answer: &AuthorityAnswer, count: usize) -> bool
    ensures { result ≡ nat_lt (record_count answer.now) count }
{
    let answers = answer.answers.len();
    answers < count && answer.authorities.len() < count - answers
}

/// Returns the bytes of the reply with TC and without records to a request whose answer has too many records (RFC 2181 section 9).
pub(crate) fn reply_to_long_answer(
    alloc: Global,
    request: &Message,
    answer: &AuthorityAnswer,
    limit: u16,
) -> Result<Option<Vec<u8>>, AllocError>
    requires { 512 ≤ limit }
    ensures { IfOk result (λ found. IsReplyToLong limit request.now answer.now
        (option_map (λ out. out.items) found)) }
{
    if has_fewer_records(answer, too_many_records(limit)) {
        return Ok(None);
    }
    Ok(Some(truncated_reply(alloc, request, answer, limit)?))
}

/// Returns the bytes of the reply with TC and without records to a request with an answer.
fn truncated_reply(
    alloc: Global,
    request: &Message,
    answer: &AuthorityAnswer,
    limit: u16,
) -> Result<Vec<u8>, AllocError>
    requires { 512 ≤ limit }
    ensures { IfOk result (λ out. Encodes limit
        (truncated (reply_with request.now answer.now)) out.items) }
{
    let edns = edns_of_reply(alloc, &request.edns, answer.code);
    truncated_with(alloc, request, answer, edns.as_ref(), limit)
}

/// Returns the bytes of the reply with TC and an OPT record.
fn truncated_with<'a>(
    alloc: Global,
    request: &'a Message,
    answer: &'a AuthorityAnswer,
    edns: Option<&'a Edns>,
    limit: u16,
) -> Result<Vec<u8>, AllocError>
    requires { 512 ≤ limit }
    ensures { IfOk result (λ out. Encodes limit
        (truncated (record (reply_with request.now answer.now) { edns = lent edns.entry })) out.items) }
{
    reply_of(request, answer, edns)
        .truncated()
        .prefix(alloc, limit)
}

/// Returns the bytes of what is sent of the reply to a request, given the first records of its answer: one more than may fit a limit.
pub(crate) fn reply_bytes(
    alloc: Global,
    authority: &AuthorityView<'_>,
    request: &Message,
    answer: AuthorityAnswer,
    limit: u16,
) -> Result<Vec<u8>, AllocError>
    requires { 512 ≤ limit }
    ensures { IfOk result (λ out. (whole : AuthorityAnswer)
        → answer ≡ first_records (too_many_records limit) whole
        → Encodes limit (sent limit (reply_with request.now
        (with_additionals authority.now.zones.now whole))) out.items) }
{
    if let Some(bytes) = reply_to_long_answer(alloc, request, &answer, limit)? {
        return Ok(bytes);
    }
    reply_to_whole_answer(alloc, authority, request, answer, limit)
}

/// Returns the bytes of what is sent of the reply to a request with an answer, to which its additional section is added.
///
/// A long answer that does not fit is sent without records (RFC 2181 section 9), and its additional section is not made.
fn reply_to_whole_answer(
    alloc: Global,
    authority: &AuthorityView<'_>,
    request: &Message,
    answer: AuthorityAnswer,
    limit: u16,
) -> Result<Vec<u8>, AllocError>
    requires { 512 ≤ limit }
    ensures { IfOk result (λ out. Encodes limit (sent limit (reply_with request.now
        (with_additionals authority.now.zones.now answer))) out.items) }
{
    let edns = edns_of_reply(alloc, &request.edns, answer.code);
    if let Some(bytes) = truncated_bytes(alloc, request, &answer, edns.as_ref(), limit)? {
        return Ok(bytes);
    }
    let whole = authority.with_additionals(alloc, answer)?;
    bytes_with(alloc, request, &whole, edns.as_ref(), limit)
}

/// Returns the bytes of the reply with TC and without records, if the answer is long and does not fit a limit without its additional
/// section.
fn truncated_bytes<'a>(
    alloc: Global,
    request: &'a Message,
    answer: &'a AuthorityAnswer,
    edns: Option<&'a Edns>,
    limit: u16,
) -> Result<Option<Vec<u8>>, AllocError>
    requires { 512 ≤ limit }
    ensures { IfOk result (λ found. IfSome found (λ out.
        IsTruncatedAt limit (record (reply_with request.now answer.now) { edns = lent edns.entry })
        out.items)) }
{
    if answer.answers.len() <= FEW_RECORDS && answer.authorities.len() <= FEW_RECORDS {
        return Ok(None);
    }
    let reply = reply_of(request, answer, edns);
    if reply.sections_fit(alloc, limit)? {
        return Ok(None);
    }
    Ok(Some(reply.truncated().prefix(alloc, limit)?))
}

/// Returns the bytes of what is sent under a limit of the reply with an answer and an OPT record.
fn bytes_with<'a>(
    alloc: Global,
    request: &'a Message,
    answer: &'a AuthorityAnswer,
    edns: Option<&'a Edns>,
    limit: u16,
) -> Result<Vec<u8>, AllocError>
    requires { 512 ≤ limit }
    ensures { IfOk result (λ out. Encodes limit
        (sent limit (record (reply_with request.now answer.now) { edns = lent edns.entry }))
        out.items) }
{
    send(alloc, reply_of(request, answer, edns), limit)
}

/// Returns the reply with an answer and an OPT record.
fn reply_of<'a>(
    request: &'a Message,
    answer: &'a AuthorityAnswer,
    edns: Option<&'a Edns>,
) -> ReplyRef<'a>
    ensures reply { borrowed_message result
        ≡ record (reply_with request.now answer.now) { edns = lent edns.entry } }
    ensures front { front_reach (borrowed_message result) ≤ 500 }
{
    ReplyRef {
        metadata: metadata_of_reply(&request.metadata, answer),
        queries: repeated_queries(request),
        answers: answer.answers.as_slice(),
        authorities: answer.authorities.as_slice(),
        additionals: answer.additionals.as_slice(),
        edns,
    }
}

/// Returns the header of the reply to a request with an answer.
fn metadata_of_reply(request: &Metadata, answer: &AuthorityAnswer) -> Metadata
    ensures { result ≡ metadata_with request.now answer.now }
{
    Metadata {
        authoritative: answer.authoritative,
        response_code: answer.code,
        ..Metadata::response_from_request(request)
    }
}

/// Returns the OPT record of the reply to a request with a code, if the request has one, without taking memory.
fn edns_of_reply(alloc: Global, request: &Option<Edns>, code: ResponseCode) -> Option<Edns>
    ensures { result ≡ edns_with code request.now }
{
    let Some(request) = request else {
        return None;
    };
    let mut edns = Edns::new(alloc);
    edns.set_dnssec_ok(request.flags().dnssec_ok);
    edns.set_rcode_high(code.high());
    Some(edns)
}
