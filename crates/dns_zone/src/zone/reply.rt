//! The replies of a zone's server (RFC 1035 section 4.1, RFC 6891 sections 6 and 7).

ghost use Rattle.std.specs.Prelude.{◌≡◌, true, Some, IfOk, OnOk, Err};
ghost use Rattle.dns_wire.specs.Encoder.{state_of};
ghost use Rattle.dns_messages.specs.Cut.{front_reach, IsFresh};
ghost use Rattle.dns_messages.specs.Encoding.{Encodes, IsTooLong};
ghost use Rattle.dns_zone.specs.Section.{borrowed_answer};
ghost use Rattle.dns_zone.specs.Serving.{bare_reply, borrowed_reply, has_authority, reply_edns, reply_metadata};

use crate::zone::answer::AnswerRef;
use dns_messages::{
    Edns, Message, MessageType, Metadata, OpCode, Query, ResponseCode, emit_message_parts,
};
use dns_records::Record;
use dns_wire::{BinEncoder, EncodeError};
use std::alloc::Global;

/// A reply whose questions and records are borrowed from the request and the zone.
#[derive(Drop)]
pub(crate) struct ReplyRef<'a> {
    metadata: Metadata,
    queries: &'a [Query],
    answer: AnswerRef<'a>,
    edns: Option<Edns>,
}

impl<'a> ReplyRef<'a> {
    /// Creates the reply to a request that repeats these questions and has this answer, without taking memory.
    pub(crate) fn new(
        alloc: Global,
        request: &Message,
        queries: &'a [Query],
        answer: AnswerRef<'a>,
    ) -> ReplyRef<'a>
        ensures { borrowed_reply result ≡ record (bare_reply request.now answer.entry.code) {
          queries = queries.now;
          answers = (borrowed_answer answer.entry).answers;
          authorities = (borrowed_answer answer.entry).authorities;
        } }
    {
        ReplyRef {
            metadata: metadata_of_reply(request.metadata, answer.code),
            queries,
            answer,
            edns: edns_of_reply(alloc, &request.edns),
        }
    }

    /// Returns the reply with TC (RFC 1035 section 4.1.1). Its records stay.
    pub(crate) fn with_truncation(self) -> ReplyRef<'a>
        ensures reply { borrowed_reply result ≡ record (borrowed_reply self.entry) {
          metadata = record (borrowed_reply self.entry).metadata { truncation = true };
        } }
        ensures front { front_reach (borrowed_reply result) ≡ front_reach (borrowed_reply self.entry) }
    {
        let mut reply = self;
        reply.metadata.truncation = true;
        reply
    }

    /// Writes the reply at the start of an encoder, as much of it as fits (RFC 1035 section 4.2.1).
    fn emit(&self, encoder: &mut BinEncoder<'_>) -> Result<(), EncodeError>
        requires fresh { IsFresh (state_of encoder.old) }
        ensures encodes { OnOk result (Encodes (state_of encoder.old).limit
            (borrowed_reply self.now) (state_of encoder.new).bytes) }
        ensures full { result ≡ Err EncodeError.MaxBufferSizeExceeded
            → IsTooLong (state_of encoder.old).limit (borrowed_reply self.now) }
        ensures lender { (state_of encoder.new).lender ≡ (state_of encoder.old).lender }
    {
        let mut queries = self.queries;
        let mut answers = self.answer.answers;
        let mut authorities = self.answer.authorities;
        let mut additionals: &[Record] = &[];
        emit_message_parts(
            &self.metadata,
            &mut queries,
            &mut answers,
            &mut authorities,
            &mut additionals,
            self.edns.as_ref(),
            None,
            encoder,
        )?;
        Ok(())
    }

    /// Encodes the reply, as much of it as fits `limit` bytes.
    pub(crate) fn to_vec_within(&self, alloc: Global, limit: u16) -> Result<Vec<u8>, EncodeError>
        ensures encodes { IfOk result (λ bytes.
            Encodes limit (borrowed_reply self.now) bytes.items) }
        ensures full { result ≡ Err EncodeError.MaxBufferSizeExceeded
            → IsTooLong limit (borrowed_reply self.now) }
    {
        let mut buffer = Vec::new(alloc);
        let mut encoder = BinEncoder::new(alloc, &mut buffer);
        encoder.set_max_size(limit);
        self.emit(&mut encoder)?;
        encoder.into_bytes();
        Ok(buffer)
    }
}

/// Returns `true` if the server has authority in a reply with this code to a request with this opcode.
fn is_authoritative(op_code: OpCode, code: ResponseCode) -> bool
    ensures { result ≡ has_authority op_code code }
{
    matches!(op_code, OpCode::Query)
        && matches!(code, ResponseCode::NoError | ResponseCode::NXDomain)
}

/// Returns the header of the reply with this code to a request.
fn metadata_of_reply(request: Metadata, code: ResponseCode) -> Metadata
    ensures { result ≡ reply_metadata request code }
{
    Metadata {
        id: request.id,
        message_type: MessageType::Response,
        op_code: request.op_code,
        authoritative: is_authoritative(request.op_code, code),
        truncation: false,
        recursion_desired: request.recursion_desired,
        recursion_available: false,
        authentic_data: false,
        checking_disabled: request.checking_disabled,
        response_code: code,
    }
}

/// Returns the OPT record of the reply to a request, if the request has one, without taking memory.
fn edns_of_reply(alloc: Global, request: &Option<Edns>) -> Option<Edns>
    ensures { result ≡ reply_edns request.now }
{
    let Some(request) = request else {
        return None;
    };
    let mut edns = Edns::new(alloc);
    edns.set_dnssec_ok(request.flags().dnssec_ok);
    Some(edns)
}
