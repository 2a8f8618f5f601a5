//! What a datagram is to a request that waits for its reply (RFC 5452 section 9.1).

ghost use Rattle.std.specs.Prelude.{◌≡◌, ◌≢◌, IfOk, IfSome, None, OnErr, Some, true};
ghost use Rattle.std.specs.Option.{option_copied};
ghost use Rattle.dns_messages.specs.Header.{peeked_metadata};
ghost use Rattle.stub_link.specs.Link.{wire};
ghost use Rattle.stub_link.specs.Reply.{has_reply_header, is_reply_header};
ghost use Rattle.stub_link.specs.Wait.{IsOther};
ghost use Rattle.stub_link.specs.trace.Verdict.{HasFault, IsFaultOfContent, IsVerdict, verdict_text};

use crate::{is_reply_code, reply_in};
use dns_messages::laws::headers_are_peeked;
use dns_messages::{Message, MessageType, Metadata, Query};
use dns_wire::DecodeError;
use std::alloc::{AllocError, Global};
use std::fmt;

/// What a datagram is to a request: its reply, or else why it is dropped.
#[derive(Clone, Copy, Debug, PartialEq, Eq)]
pub enum Verdict {
    /// It is the reply.
    Reply,
    /// It has no header: fewer than 12 bytes.
    NoHeader,
    /// It is a request (QR is clear).
    Request,
    /// It has another opcode than a reply.
    OtherOpCode,
    /// It has another id.
    OtherId,
    /// It has the header of a reply, and cannot be decoded.
    Malformed,
    /// It has the header of a reply, and not the question of the request alone.
    OtherQuestion,
}

/// Returns what a datagram is to a request with this id and question; an update has none. It is the reply exactly if
/// [`reply_in`] finds one in it.
///
/// A datagram without the header of a reply takes no memory.
pub fn verdict_on(
    alloc: Global,
    id: u16,
    question: Option<&Query>,
    bytes: &[u8],
) -> Result<Verdict, AllocError>
    ensures verdict { IfOk result (λ verdict.
        IsVerdict id (option_copied question.entry) bytes.now verdict) }
    ensures dropped { IfOk result (λ verdict. verdict ≢ Verdict.Reply
        → IsOther wire id (option_copied question.entry) bytes.now) }
    ensures headed { OnErr result (has_reply_header id (option_copied question.entry)
        (peeked_metadata bytes.now) ≡ true) }
{
    headers_are_peeked();
    match Metadata::peek(bytes) {
        None => Ok(Verdict::NoHeader),
        Some(header) => match fault_of_header(id, question, header) {
            Some(fault) => Ok(fault),
            None => verdict_on_content(alloc, id, question, bytes),
        },
    }
}

/// Returns what a datagram with the header of a reply is.
fn verdict_on_content(
    alloc: Global,
    id: u16,
    question: Option<&Query>,
    bytes: &[u8],
) -> Result<Verdict, AllocError>
    requires { has_reply_header id (option_copied question) (peeked_metadata bytes.now)
        ≡ true }
    ensures verdict { IfOk result (λ verdict.
        IsVerdict id (option_copied question.entry) bytes.now verdict) }
    ensures dropped { IfOk result (λ verdict. verdict ≢ Verdict.Reply
        → IsOther wire id (option_copied question.entry) bytes.now) }
{
    headers_are_peeked();
    let copy = Vec::from_slice(alloc, bytes)?;
    let found = reply_in(alloc, id, question, copy)?;
    match found {
        Some(response) => {
            drop(response);
            Ok(Verdict::Reply)
        }
        None => fault_of_content(alloc, bytes),
    }
}

/// Returns why a header is not that of a reply to a request, if it is not.
fn fault_of_header(id: u16, question: Option<&Query>, header: Metadata) -> Option<Verdict>
    ensures fault { IfSome result (HasFault id (option_copied question.entry) header) }
    ensures none { result ≡ None → is_reply_header id (option_copied question.entry) header ≡ true }
{
    if header.message_type != MessageType::Response {
        return Some(Verdict::Request);
    }
    if !is_reply_code(question, header.op_code) {
        return Some(Verdict::OtherOpCode);
    }
    if header.id != id {
        return Some(Verdict::OtherId);
    }
    None
}

/// Returns why a datagram with the header of a reply is not the reply.
fn fault_of_content(alloc: Global, bytes: &[u8]) -> Result<Verdict, AllocError>
    ensures { IfOk result (λ fault. IsFaultOfContent bytes.now fault) }
{
    match Message::from_vec(alloc, bytes) {
        Ok(_) => Ok(Verdict::OtherQuestion),
        // There was no memory for the message.
        Err(DecodeError::Memory) => Err(AllocError),
        Err(_) => Ok(Verdict::Malformed),
    }
}

impl fmt::Display for Verdict {
    ghost output = { λ verdict. Some (verdict_text verdict) };

    /// Writes what the datagram is, as `dropped: another id`.
    fn fmt<W: fmt::Write>(&self, f: &mut fmt::Formatter<W>) -> fmt::Result {
        match self {
            Verdict::Reply => f.write_str("the reply"),
            Verdict::NoHeader => f.write_str("dropped: shorter than a header"),
            Verdict::Request => f.write_str("dropped: a request"),
            Verdict::OtherOpCode => f.write_str("dropped: another opcode"),
            Verdict::OtherId => f.write_str("dropped: another id"),
            Verdict::Malformed => f.write_str("dropped: malformed"),
            Verdict::OtherQuestion => f.write_str("dropped: another question"),
        }
    }
}
