//! Messages (RFC 1035 section 4.1).

ghost use Rattle.std.specs.Prelude.{◌≡◌, [], None};

mod display;
mod dnssec;
mod encoding;
mod extensions;
mod parts;
mod section_iter;
mod sections;

use crate::edns::Edns;
use crate::header::Metadata;
use crate::message_type::MessageType;
use crate::op_code::OpCode;
use crate::query::Query;
use crate::response_code::ResponseCode;
use dns_records::laws::copies_are_identical;
use dns_records::{Record, Sequence};
pub use parts::MessageParts;
pub use section_iter::{IntoSections, Sections};
use std::alloc::{AllocError, Global};

/// A message (RFC 1035 section 4.1).
pub struct Message {
    /// The header, without its counts.
    pub metadata: Metadata,
    /// The question section.
    pub queries: Sequence<Query>,
    /// The answer section.
    pub answers: Sequence<Record>,
    /// The authority section.
    pub authorities: Sequence<Record>,
    /// The additional section, without the OPT record and the signature.
    pub additionals: Sequence<Record>,
    /// The OPT record (RFC 6891 section 6.1).
    pub edns: Option<Edns>,
    /// The TSIG record (RFC 8945 section 4.2), as opaque data.
    pub(crate) signature: Option<Record>,
}

impl Drop for Message {
    fn drop(self) {
        let Message {
            metadata: _metadata,
            queries,
            answers,
            authorities,
            additionals,
            edns,
            signature,
        } = self;
        drop(queries);
        drop(answers);
        drop(authorities);
        drop(additionals);
        drop(edns);
        drop(signature);
    }
}

impl Message {
    ghost use Rattle.std.specs.Prelude.{IfOk};
    ghost use Rattle.dns_messages.specs.declared.message_type.MessageType.TheVariants as kinds;
    ghost use Rattle.dns_messages.specs.declared.op_code.OpCode.TheVariants as ops;
    ghost use Rattle.dns_messages.specs.declared.response_code.ResponseCode.TheVariants as codes;
    ghost use Rattle.dns_messages.specs.Message.{clear_metadata, empty_message, truncated, HasNoOptions};

    /// Creates a message without questions and records. All flags are clear, and the response code is `NoError`.
    pub fn new(alloc: Global, id: u16, message_type: MessageType, op_code: OpCode) -> Message
        ensures { result ≡ empty_message (clear_metadata id message_type op_code codes.NoError) }
    {
        Message {
            metadata: Metadata::new(id, message_type, op_code),
            queries: Sequence::new(alloc),
            answers: Sequence::new(alloc),
            authorities: Sequence::new(alloc),
            additionals: Sequence::new(alloc),
            edns: None,
            signature: None,
        }
    }

    /// Creates a query without questions. All flags are clear.
    pub fn query(alloc: Global, id: u16) -> Message
        ensures { result ≡ empty_message (clear_metadata id kinds.Query ops.Query codes.NoError) }
    {
        Message::new(alloc, id, MessageType::Query, OpCode::Query)
    }

    /// Creates a response without questions and records. All other flags are clear.
    pub fn response(alloc: Global, id: u16, op_code: OpCode) -> Message
        ensures { result ≡ empty_message (clear_metadata id kinds.Response op_code codes.NoError) }
    {
        Message::new(alloc, id, MessageType::Response, op_code)
    }

    /// Creates a response that has nothing but a response code.
    pub fn error_msg(
        alloc: Global,
        id: u16,
        op_code: OpCode,
        response_code: ResponseCode,
    ) -> Message
        ensures { result ≡ empty_message (clear_metadata id kinds.Response op_code response_code) }
    {
        let mut message = Message::response(alloc, id, op_code);
        message.metadata.response_code = response_code;
        message
    }

    /// Converts to the parts of the message. No memory is taken.
    pub fn into_parts(self) -> MessageParts
        ensures { result ≡ record {
          metadata = self.metadata;
          queries = self.queries;
          answers = self.answers;
          authorities = self.authorities;
          additionals = self.additionals;
          edns = self.edns;
          signature = self.signature;
        } }
    {
        let Message {
            metadata,
            queries,
            answers,
            authorities,
            additionals,
            edns,
            signature,
        } = self;
        MessageParts {
            metadata,
            queries,
            answers,
            authorities,
            additionals,
            edns,
            signature,
        }
    }

    /// Converts to a response.
    pub fn into_response(self) -> Message
        ensures { result ≡ record self {
          metadata = record self.metadata { message_type = kinds.Response };
        } }
    {
        let mut message = self;
        message.metadata.message_type = MessageType::Response;
        message
    }

    /// Copies the message without its records and its signature, and sets TC (RFC 2181 section 9). Without questions and
    /// options it takes no memory.
    pub fn truncate(&self, alloc: Global) -> Result<Message, AllocError>
        ensures ok { IfOk result (λ copy. copy ≡ truncated self.now) }
        ensures empty { self.now.queries ≡ [] → HasNoOptions self.now.edns → IsOk result }
    {
        let mut message = Message::query(alloc, 0);
        message.metadata = self.metadata;
        message.metadata.truncation = true;
        message.queries = copy_queries(&self.queries)?;
        message.edns = copy_edns(&self.edns)?;
        Ok(message)
    }
}

impl Message {
    ghost use Rattle.std.specs.Prelude.{IfOk, IsOk};
    ghost use Rattle.dns_messages.specs.Message.{IsBare};

    /// Copies the message, with its OPT record and its signature. One that has neither questions, records, options nor a
    /// signature takes no memory.
    pub fn clone(&self) -> Result<Message, AllocError>
        ensures ok { IfOk result (λ copy. copy ≡ self.now) }
        ensures empty { IsBare self.now → IsOk result }
    {
        Ok(Message {
            metadata: self.metadata,
            queries: copy_queries(&self.queries)?,
            answers: copy_records(&self.answers)?,
            authorities: copy_records(&self.authorities)?,
            additionals: copy_records(&self.additionals)?,
            edns: copy_edns(&self.edns)?,
            signature: copy_signature(&self.signature)?,
        })
    }
}

impl Clone for Message {
    ghost is_clone = { λ message copy. copy ≡ message };

    fn clone(&self) -> Result<Message, AllocError> {
        Message::clone(self)
    }
}

ghost use Rattle.std.specs.Prelude.{IfOk, IsOk};
ghost use Rattle.dns_messages.specs.Message.{HasNoOptions};

/// Copies questions.
fn copy_queries(queries: &Sequence<Query>) -> Result<Sequence<Query>, AllocError>
    ensures ok { IfOk result (λ copies. copies ≡ queries.now) }
    ensures empty { queries.now ≡ [] → IsOk result }
{
    queries.clone()
}

/// Copies records.
fn copy_records(records: &Sequence<Record>) -> Result<Sequence<Record>, AllocError>
    ensures ok { IfOk result (λ copies. copies ≡ records.now) }
    ensures empty { records.now ≡ [] → IsOk result }
{
    copies_are_identical();
    records.clone()
}

/// Copies an OPT record, if there is one.
fn copy_edns(edns: &Option<Edns>) -> Result<Option<Edns>, AllocError>
    ensures ok { IfOk result (λ copy. copy ≡ edns.now) }
    ensures empty { HasNoOptions edns.now → IsOk result }
{
    match edns {
        Some(edns) => Ok(Some(edns.clone()?)),
        None => Ok(None),
    }
}

/// Copies a signature, if there is one.
fn copy_signature(signature: &Option<Record>) -> Result<Option<Record>, AllocError>
    ensures ok { IfOk result (λ copy. copy ≡ signature.now) }
    ensures none { signature.now ≡ None → IsOk result }
{
    match signature {
        Some(signature) => Ok(Some(signature.clone()?)),
        None => Ok(None),
    }
}
