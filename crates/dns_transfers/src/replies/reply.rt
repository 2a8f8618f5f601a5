//! Replies to bytes that have arrived.

ghost use Rattle.std.specs.Prelude.{◌≡◌, ◌<◌, ◌&&◌, length, map, IfOk, IfSome, option_copied, option_map};
ghost use Rattle.dns_messages.specs.Header.{code_number, code_of, peeked_metadata};
ghost use Rattle.dns_messages.specs.Sound.{IsSound};
ghost use Rattle.dns_transfers.specs.replies.Reply.{IsSignedAlone, IsSignedRefusal, Replies, RepliesChecked, RepliesIf, SendsChecked, SendsPlain, SendsSigned, SignsWith, asks_for_transfer, code_of_request, has_authorities, has_query, histories_for, is_query, refusal_of, unless_signed, verified_key};

use crate::replies::incremental::reply_to_incremental;
use crate::replies::request::incremental_question;
use crate::replies::signed_stream::sign_each;
use crate::replies::zone_history::ZoneHistory;
use crate::whole::{is_transfer, reply_to_transfer};
use dns_messages::{Message, Metadata, OpCode, ResponseCode};
use dns_tsig::{Checked, Found, Key, Verdict, sign_reply, verify_request};
use dns_zone::{Transport, Zone, bare_reply_bytes, decode_request};
use std::alloc::{AllocError, Global};

/// What decides on the reply to a request for a transfer, beside its bytes.
#[derive(Clone, Copy, Debug, PartialEq, Eq)]
pub struct Terms {
    /// The transport, with its limit.
    pub transport: Transport,
    /// Whether the requestor may have the zones.
    pub is_permitted: bool,
    /// The time, in seconds since 1 January 1970 (UTC).
    pub time: u64,
}

/// Returns the messages of the reply to bytes that are a request for a transfer, or `None` for any others. The histories have the last
/// differences of zones, by their origins; a zone without one has no differences.
///
/// If the request is signed by the holder of a key, each message is signed. A request with another TSIG record is refused with
/// `FormErr` or `NotAuth`, as any is (RFC 8945 section 5.2).
pub fn transfer_reply(
    alloc: Global,
    zones: &[Zone],
    histories: &[ZoneHistory],
    keys: &[Key],
    bytes: &[u8],
    terms: &Terms,
) -> Result<Option<Vec<Vec<u8>>>, AllocError>
    ensures { IfOk result (λ found. Replies zones.now histories.now keys.now terms.now bytes.now
        (option_map (λ messages. map (λ bytes. bytes.items) messages.items) found)) }
{
    match decode_request(alloc, bytes)? {
        Some(request) => reply_to(alloc, zones, histories, keys, bytes, &request, terms),
        None => Ok(None),
    }
}

/// Returns the messages of the reply to a request, if it is for a transfer.
fn reply_to(
    alloc: Global,
    zones: &[Zone],
    histories: &[ZoneHistory],
    keys: &[Key],
    bytes: &[u8],
    request: &Message,
    terms: &Terms,
) -> Result<Option<Vec<Vec<u8>>>, AllocError>
    requires { IsSound request.now }
    ensures { IfOk result (λ found. RepliesIf (asks_for_transfer request.now) zones.now
        histories.now keys.now terms.now bytes.now request.now
        (option_map (λ messages. map (λ bytes. bytes.items) messages.items) found)) }
{
    if asks_for_transfer(request) {
        checked_reply(alloc, zones, histories, keys, bytes, request, terms)
    } else {
        Ok(None)
    }
}

/// Returns the messages of the reply to a request for a transfer, whose TSIG record is checked.
fn checked_reply(
    alloc: Global,
    zones: &[Zone],
    histories: &[ZoneHistory],
    keys: &[Key],
    bytes: &[u8],
    request: &Message,
    terms: &Terms,
) -> Result<Option<Vec<Vec<u8>>>, AllocError>
    requires { IsSound request.now }
    ensures { IfOk result (λ found. RepliesChecked zones.now histories.now keys.now terms.now
        bytes.now request.now
        (option_map (λ messages. map (λ bytes. bytes.items) messages.items) found)) }
{
    let checked = verify_request(alloc, keys, bytes, terms.time)?;
    reply_by_verdict(alloc, zones, histories, keys, request, &checked, terms)
}

/// Returns the messages of the reply to a request for a transfer, by the verdict on it.
fn reply_by_verdict(
    alloc: Global,
    zones: &[Zone],
    histories: &[ZoneHistory],
    keys: &[Key],
    request: &Message,
    checked: &Checked<'_>,
    terms: &Terms,
) -> Result<Option<Vec<Vec<u8>>>, AllocError>
    requires { IsSound request.now }
    ensures { IfOk result (λ found. SendsChecked (refusal_of checked.now.verdict) zones.now
        histories.now keys.now checked.now terms.now request.now
        (option_map (λ messages. map (λ bytes. bytes.items) messages.items) found)) }
{
    match refusal_of(checked.verdict) {
        Some(code) => {
            let messages = refused(alloc, keys, request, checked, terms, code)?;
            Ok(Some(messages))
        }
        None => permitted_reply(alloc, zones, histories, keys, request, checked, terms),
    }
}

/// Returns `true` if a request is for a transfer, whole or incremental.
fn asks_for_transfer(request: &Message) -> bool
    ensures { result ≡ asks_for_transfer request.now }
{
    is_transfer(request) || incremental_question(request).is_some()
}

/// Returns the code with which a request is refused for its TSIG record.
fn refusal_of(verdict: Verdict) -> Option<ResponseCode>
    ensures value { result ≡ refusal_of verdict }
    ensures code { IfSome result (λ code.
        (code_number code < 16) × (code_of (code_number code) ≡ code)) }
{
    match verdict {
        Verdict::Unsigned | Verdict::Verified(_) => None,
        Verdict::FormErr => Some(ResponseCode::FormErr),
        Verdict::BadKey | Verdict::BadSig(_) | Verdict::BadTime(_) | Verdict::BadTrunc(_) => {
            Some(ResponseCode::NotAuth)
        }
    }
}

/// Returns the messages of the reply to a request that is not refused for its TSIG record.
fn permitted_reply(
    alloc: Global,
    zones: &[Zone],
    histories: &[ZoneHistory],
    keys: &[Key],
    request: &Message,
    checked: &Checked<'_>,
    terms: &Terms,
) -> Result<Option<Vec<Vec<u8>>>, AllocError>
    requires { IsSound request.now }
    ensures { IfOk result (λ found. SendsSigned zones.now histories.now keys.now checked.now
        terms.now request.now
        (option_map (λ messages. map (λ bytes. bytes.items) messages.items) found)) }
{
    let (transport, is_permitted) = (terms.transport, terms.is_permitted);
    let known = histories_for(&transport, checked.verdict, histories);
    let Some(messages) = plain_reply(alloc, zones, known, request, transport, is_permitted)? else {
        return Ok(None);
    };
    let messages = signed_reply(alloc, keys, request, checked, terms, messages)?;
    Ok(Some(messages))
}

/// Returns the messages of the reply to a request for a transfer, before they are signed, or `None` for another request.
fn plain_reply(
    alloc: Global,
    zones: &[Zone],
    histories: &[ZoneHistory],
    request: &Message,
    transport: Transport,
    is_permitted: bool,
) -> Result<Option<Vec<Vec<u8>>>, AllocError>
    requires { IsSound request.now }
    ensures { IfOk result (λ found. SendsPlain zones.now histories.now transport is_permitted
        request.now (option_map (λ messages. map (λ bytes. bytes.items) messages.items) found)) }
{
    if is_transfer(request) {
        let messages = reply_to_transfer(alloc, zones, request, transport, is_permitted)?;
        return Ok(Some(messages));
    }
    reply_to_incremental(alloc, zones, histories, request, transport, is_permitted)
}

/// Returns the histories by which a request with a verdict is answered: none in a datagram that is signed.
fn histories_for<'a>(
    transport: &Transport,
    verdict: Verdict,
    histories: &'a [ZoneHistory],
) -> &'a [ZoneHistory]
    ensures { result.now ≡ histories_for transport.now verdict histories.now }
{
    match transport {
        Transport::Stream => histories,
        Transport::Datagram(_) => unless_signed(verdict, histories),
    }
}

/// Returns histories, or none for the verdict on a request of the holder of a key.
fn unless_signed(verdict: Verdict, histories: &[ZoneHistory]) -> &[ZoneHistory]
    ensures { result.now ≡ unless_signed verdict histories.now }
{
    match verdict {
        Verdict::Verified(_) => &[],
        _ => histories,
    }
}

/// Returns messages, signed with the key of their request if it is signed, or one message if one of them has no room for a signature.
fn signed_reply(
    alloc: Global,
    keys: &[Key],
    request: &Message,
    checked: &Checked<'_>,
    terms: &Terms,
    mut messages: Vec<Vec<u8>>,
) -> Result<Vec<Vec<u8>>, AllocError>
    requires { IsSound request.now }
    ensures { IfOk result (λ signed. SignsWith (verified_key keys.now checked.now.verdict) keys.now
        checked.now terms.now.time terms.now.transport request.now
        (map (λ bytes. bytes.items) messages.items) (map (λ bytes. bytes.items) signed.items)) }
{
    let Some(key) = verified_key(keys, checked.verdict) else {
        return Ok(messages);
    };
    let code = code_of_request(&checked.found);
    if sign_each(alloc, key, code, terms.time, messages.as_mut_slice())? {
        return Ok(messages);
    }
    refused(alloc, keys, request, checked, terms, ResponseCode::ServFail)
}

/// Returns the key whose holder signed a request.
fn verified_key(keys: &[Key], verdict: Verdict) -> Option<&Key>
    ensures { option_copied result ≡ verified_key keys.now verdict }
{
    match verdict {
        Verdict::Verified(index) => keys.get(index),
        _ => None,
    }
}

/// Returns the code of a request, which is empty if it has none.
fn code_of_request<'m>(found: &Found<'m>) -> &'m [u8]
    ensures value { result.now ≡ code_of_request found.now }
    ensures short { length result.now < 65536 }
{
    match found {
        Found::Signed(signature) => signature.tsig.mac(),
        _ => &[],
    }
}

/// Returns one message with a response code and no records, signed as the request allows.
fn refused(
    alloc: Global,
    keys: &[Key],
    request: &Message,
    checked: &Checked<'_>,
    terms: &Terms,
    code: ResponseCode,
) -> Result<Vec<Vec<u8>>, AllocError>
    requires sound { IsSound request.now }
    requires fits { code_number code < 16 }
    requires named { code_of (code_number code) ≡ code }
    ensures { IfOk result (λ messages. IsSignedAlone keys.now checked.now terms.now.time
        terms.now.transport request.now code (map (λ bytes. bytes.items) messages.items)) }
{
    let bytes = signed_refusal(alloc, keys, request, checked, terms, code)?;
    let mut messages = Vec::new(alloc);
    messages.push(bytes)?;
    Ok(messages)
}

/// Returns the message with a response code and no records, signed as the request allows.
fn signed_refusal(
    alloc: Global,
    keys: &[Key],
    request: &Message,
    checked: &Checked<'_>,
    terms: &Terms,
    code: ResponseCode,
) -> Result<Vec<u8>, AllocError>
    requires sound { IsSound request.now }
    requires fits { code_number code < 16 }
    requires named { code_of (code_number code) ≡ code }
    ensures { IfOk result (λ out.
        IsSignedRefusal keys.now checked.now terms.now.time terms.now.transport
        request.now code out.items) }
{
    let mut message = bare_reply_bytes(alloc, request, code, terms.transport)?;
    match sign_reply(alloc, keys, checked, &mut message, terms.time) {
        Ok(_code) => Ok(message),
        // Memory for the signature was refused: the reply has a header and room for a record, and its key is there.
        Err(_) => Err(AllocError),
    }
}

/// Returns `true` for bytes that may ask for an incremental transfer: they begin with the header of a query with an authority section
/// (RFC 1995 section 3).
pub fn may_ask_by_datagram(bytes: &[u8]) -> bool
    ensures { result ≡ (has_authorities bytes.now && has_query (peeked_metadata bytes.now)) }
{
    has_authorities(bytes) && has_query(bytes)
}

/// Returns `true` if a header states records in the authority section.
fn has_authorities(bytes: &[u8]) -> bool
    ensures { result ≡ has_authorities bytes.now }
{
    match bytes {
        [_, _, _, _, _, _, _, _, high, low, ..] => !(*high == 0 && *low == 0),
        _ => false,
    }
}

/// Returns `true` for bytes with the header of a query.
fn has_query(bytes: &[u8]) -> bool
    ensures { result ≡ has_query (peeked_metadata bytes.now) }
{
    match Metadata::peek(bytes) {
        Some(metadata) => is_query(metadata.op_code),
        None => false,
    }
}

/// Returns `true` for the opcode of queries.
fn is_query(op_code: OpCode) -> bool
    ensures { result ≡ is_query op_code }
{
    match op_code {
        OpCode::Query => true,
        _ => false,
    }
}
