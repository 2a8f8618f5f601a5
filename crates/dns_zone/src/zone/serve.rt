//! The server of a zone: requests and their replies (RFC 1035 sections 4.1 and 4.2).

ghost use Rattle.std.specs.Prelude.{◌≡◌, ◌≤◌, ◌<◌, false, length, None, Ok, IfOk, OnOk, OnErr};
ghost use Rattle.dns_messages.specs.declared.op_code.OpCode.TheVariants as ops;
ghost use Rattle.dns_zone.specs.Serving.{borrowed_reply, reply_limit, has_query_header as is_query_header};
ghost use Rattle.dns_zone.specs.Request.{DecodesRequest, IsEncodedReply, reply_without_zone, only_query, repeated_queries};
ghost use Rattle.std.specs.List.{AllByRecursion};
ghost use Rattle.dns_wire.specs.Name.{name_len};
ghost use Rattle.dns_messages.specs.declared.response_code.ResponseCode.{ResponseCode};
ghost use Rattle.dns_messages.specs.declared.response_code.ResponseCode.TheVariants as codes;
ghost use Rattle.dns_messages.specs.Cut.{front_reach};
ghost use Rattle.dns_messages.specs.Header.{code_number, code_of};
ghost use Rattle.dns_messages.specs.Message.{truncated};
ghost use Rattle.dns_messages.specs.Sound.{IsSound};

use crate::transport::Transport;
use crate::zone::Zone;
use crate::zone::answer::AnswerRef;
use crate::zone::reply::ReplyRef;
use dns_differences::Difference;
use dns_messages::laws::messages_decode_unambiguously;
use dns_messages::{Message, MessageType, Metadata, OpCode, Query, ResponseCode};
use dns_names::Name;
use dns_wire::{DecodeError, EncodeError};
use std::alloc::{AllocError, Global};

/// A request that was served.
#[derive(Drop)]
pub struct Served {
    /// The bytes of the reply.
    pub reply: Vec<u8>,
    /// The records that the zone has lost, and those that it has gained.
    pub change: Difference,
}

impl Zone {
    ghost use Rattle.dns_zone.specs.Change.{IsChange};
    ghost use Rattle.dns_zone.specs.Serving.{Serves, IsReplyTo, bare_reply, reply, zone_after};
    ghost use Rattle.dns_zone.specs.Rows.{IsZone};
    ghost use Rattle.dns_messages.specs.Cut.{front_reach};
    ghost use Rattle.dns_messages.specs.Sound.{IsSound};
    ghost use Rattle.std.specs.Prelude.{false, None, Ok, option_map};

    /// Returns the reply to a request without questions and records, without taking memory.
    fn bare_reply<'a>(&'a self, request: &Message, code: ResponseCode) -> ReplyRef<'a>
        ensures { borrowed_reply result ≡ bare_reply request.now code }
    {
        ReplyRef::new(
            self.alloc,
            request,
            &[],
            AnswerRef::bare(&self.origin, code),
        )
    }

    /// Returns the whole reply to a request, without taking memory.
    fn reply_to<'a>(&'a self, request: &'a Message) -> ReplyRef<'a>
        ensures reply { borrowed_reply result ≡ reply self.now request.now }
        ensures sound { IsSound request.now → IsSound (borrowed_reply result) }
        ensures short { front_reach (borrowed_reply result) ≤ 512 }
    {
        match request.metadata.op_code {
            OpCode::Query => self.reply_to_query(request),
            OpCode::Update => self.bare_reply(request, self.update_code(request)),
            _ => self.bare_reply(request, ResponseCode::NotImp),
        }
    }

    /// Returns the whole reply to a request with opcode Query, without taking memory.
    fn reply_to_query<'a>(&'a self, request: &'a Message) -> ReplyRef<'a>
        requires { request.now.metadata.op_code ≡ ops.Query }
        ensures reply { borrowed_reply result ≡ reply self.now request.now }
        ensures sound { IsSound request.now → IsSound (borrowed_reply result) }
        ensures short { front_reach (borrowed_reply result) ≤ 512 }
    {
        let queries = request.queries.as_slice();
        let [query] = queries else {
            return self.bare_reply(request, ResponseCode::FormErr);
        };
        prove!(query.name.encoded_len() <= Name::MAX_LENGTH);
        ReplyRef::new(self.alloc, request, queries, self.answer_ref(query))
    }

    /// Returns the bytes of the reply to a request, under the limit of its transport. An update is not applied.
    pub fn reply_bytes(
        &self,
        request: &Message,
        transport: Transport,
    ) -> Result<Vec<u8>, AllocError>
        ensures encodes { IfOk result (λ out. IsSound request.now
            → IsReplyTo self.now transport request.now out.items) }
    {
        let reply = self.reply_to(request);
        match reply.to_vec_within(self.alloc, reply_limit(transport, request)) {
            Ok(out) => Ok(out),
            // The memory for the reply's bytes was refused.
            Err(EncodeError::Memory) => Err(AllocError),
            Err(EncodeError::MaxBufferSizeExceeded) => unreachable!(),
        }
    }

    /// Serves a message: returns its reply, or `None` if the bytes do not decode or are a response. Bytes that do not begin
    /// with the header of a query are dropped before memory is taken.
    ///
    /// Only an update with the response code `NoError` changes the zone (RFC 2136 section 3). Its reply is encoded before the
    /// change, so that an error leaves the zone unchanged.
    pub fn serve(
        &mut self,
        bytes: &[u8],
        transport: Transport,
    ) -> Result<Option<Vec<u8>>, AllocError>
        ensures reply { IfOk result (λ reply. Serves self.old transport bytes.now
            (option_map (λ out. out.items) reply) self.new) }
        ensures err { OnErr result (self.new ≡ self.old) }
        ensures well_formed { IsZone self.new }
        ensures header { is_query_header bytes.now ≡ false → result ≡ Ok None }
    {
        self.well_formed();
        match decode_request(self.alloc, bytes)? {
            Some(request) => Ok(Some(self.serve_message(&request, transport)?)),
            None => Ok(None),
        }
    }

    /// Serves a request that is decoded: returns its reply, and applies an update whose response code is `NoError` (RFC 2136
    /// section 3). The reply is encoded before the change, so that an error leaves the zone unchanged.
    pub fn serve_message(
        &mut self,
        request: &Message,
        transport: Transport,
    ) -> Result<Vec<u8>, AllocError>
        requires { IsSound request.now }
        ensures reply { IfOk result (λ out. IsReplyTo self.old transport request.now out.items) }
        ensures ok { OnOk result (self.new ≡ zone_after self.old request.now) }
        ensures err { OnErr result (self.new ≡ self.old) }
        ensures well_formed { IsZone self.new }
    {
        let served = self.serve_request(request, transport)?;
        Ok(served.reply)
    }

    /// Serves a request that is decoded as [`serve_message`](Zone::serve_message) does, and returns its reply and what it has
    /// changed.
    pub fn serve_request(
        &mut self,
        request: &Message,
        transport: Transport,
    ) -> Result<Served, AllocError>
        requires { IsSound request.now }
        ensures reply { IfOk result (λ served.
            IsReplyTo self.old transport request.now served.reply.items) }
        ensures ok { OnOk result (self.new ≡ zone_after self.old request.now) }
        ensures change { IfOk result (λ served.
            IsChange self.old.rows self.new.rows served.change) }
        ensures err { OnErr result (self.new ≡ self.old) }
        ensures well_formed { IsZone self.new }
    {
        self.well_formed();
        let reply = self.reply_bytes(request, transport)?;
        let change = self.take(request)?;
        Ok(Served { reply, change })
    }

    /// Applies a request that is an update, and returns what it changes.
    fn take(&mut self, request: &Message) -> Result<Difference, AllocError>
        requires { IsSound request.now }
        ensures ok { OnOk result (self.new ≡ zone_after self.old request.now) }
        ensures change { IfOk result (IsChange self.old.rows self.new.rows) }
        ensures err { OnErr result (self.new ≡ self.old) }
        ensures well_formed { IsZone self.new }
    {
        self.well_formed();
        match request.metadata.op_code {
            OpCode::Update => {
                let applied = self.update(request)?;
                Ok(applied.change)
            }
            _ => Ok(self.no_change()),
        }
    }
}

/// Decodes a request: returns `None` if the bytes do not decode or are a response. Bytes that do not begin with the header of
/// a query are dropped before memory is taken.
pub fn decode_request(alloc: Global, bytes: &[u8]) -> Result<Option<Message>, AllocError>
    ensures request { IfOk result (DecodesRequest bytes.now) }
    ensures header { is_query_header bytes.now ≡ false → result ≡ Ok None }
{
    messages_decode_unambiguously();
    if !has_query_header(bytes) {
        return Ok(None);
    }
    match Message::from_vec(alloc, bytes) {
        Ok(request) => Ok(Some(request)),
        Err(error) => match error {
            // The memory for the message was refused.
            DecodeError::Memory => Err(AllocError),
            _ => Ok(None),
        },
    }
}

/// Returns the bytes of a reply that no zone decides: it has this response code and no records, and repeats the question of a
/// query that has exactly one (RFC 1035 section 4.1).
pub fn bare_reply_bytes(
    alloc: Global,
    request: &Message,
    code: ResponseCode,
    transport: Transport,
) -> Result<Vec<u8>, AllocError>
    requires fits { code_number code < 16 }
    requires named { code_of (code_number code) ≡ code }
    ensures { IfOk result (λ out. IsSound request.now
        → IsEncodedReply (reply_without_zone request.now code) transport request.now out.items) }
{
    let owner = Name::root(alloc);
    let reply = without_zone(alloc, request, &owner, code);
    match reply.to_vec_within(alloc, reply_limit(transport, request)) {
        Ok(out) => Ok(out),
        // The memory for the reply's bytes was refused.
        Err(EncodeError::Memory) => Err(AllocError),
        Err(EncodeError::MaxBufferSizeExceeded) => unreachable!(),
    }
}

/// Returns the bytes of the reply to a request whose whole reply has no room beside its signature: it has TC, the response code
/// `NoError` and no records, and repeats the question of a query that has exactly one (RFC 8945 section 5.3).
pub fn truncated_reply_bytes(
    alloc: Global,
    request: &Message,
    transport: Transport,
) -> Result<Vec<u8>, AllocError>
    ensures { IfOk result (λ out. IsSound request.now → IsEncodedReply
        (truncated (reply_without_zone request.now codes.NoError)) transport request.now out.items) }
{
    let owner = Name::root(alloc);
    let reply = without_zone(alloc, request, &owner, ResponseCode::NoError).with_truncation();
    match reply.to_vec_within(alloc, reply_limit(transport, request)) {
        Ok(out) => Ok(out),
        // The memory for the reply's bytes was refused.
        Err(EncodeError::Memory) => Err(AllocError),
        Err(EncodeError::MaxBufferSizeExceeded) => unreachable!(),
    }
}

/// Returns the reply with a response code that no zone decides, without taking memory. `owner` is ignored.
fn without_zone<'a>(
    alloc: Global,
    request: &'a Message,
    owner: &'a Name,
    code: ResponseCode,
) -> ReplyRef<'a>
    ensures reply { borrowed_reply result ≡ reply_without_zone request.now code }
    ensures short { front_reach (borrowed_reply result) ≤ 512 }
{
    ReplyRef::new(
        alloc,
        request,
        repeated_queries(request),
        AnswerRef::bare(owner, code),
    )
}

/// Returns the question that a reply repeats if no zone decides it: that of a query which has exactly one, or nothing.
pub fn repeated_queries(request: &Message) -> &[Query]
    ensures value { result.now ≡ repeated_queries request.now }
    ensures few { length result.now ≤ 1 }
    ensures short { AllByRecursion (λ q. name_len q.name.labels ≤ 255) result.now }
    ensures front { (code : ResponseCode)
        → front_reach (reply_without_zone request.now code) ≤ 512 }
{
    match request.metadata.op_code {
        OpCode::Query => only(request.queries.as_slice()),
        _ => &[],
    }
}

/// Returns questions if there is exactly one, or nothing.
fn only(queries: &[Query]) -> &[Query]
    ensures value { result.now ≡ only_query queries.now }
    ensures few { length result.now ≤ 1 }
    ensures short { AllByRecursion (λ q. name_len q.name.labels ≤ 255) result.now }
{
    let [query] = queries else {
        return &[];
    };
    prove!(query.name.encoded_len() <= Name::MAX_LENGTH);
    queries
}

/// Returns `true` if bytes begin with the header of a query.
fn has_query_header(bytes: &[u8]) -> bool
    ensures { result ≡ is_query_header bytes.now }
{
    match Metadata::peek(bytes) {
        Some(metadata) => matches!(metadata.message_type, MessageType::Query),
        None => false,
    }
}

/// Returns how many bytes a reply to a request may have on a transport: at least 512.
pub fn reply_limit(transport: Transport, request: &Message) -> u16
    ensures value { result ≡ reply_limit transport request.now }
    ensures least { 512 ≤ result }
{
    match transport {
        Transport::Datagram(limit) => limit.value().min(request.max_payload()),
        Transport::Stream => 65_535,
    }
}
