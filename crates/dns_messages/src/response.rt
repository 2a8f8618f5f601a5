//! Responses, and what they say.

ghost use Rattle.std.specs.Prelude.{◌≡◌, ◌≢◌, ◌<◌, ◌↔◌, length, IfOk, Err};
ghost use Rattle.std.specs.List.{list_any};
ghost use Rattle.dns_messages.specs.Response.{answers_question, has_answer_of_type, has_type, in_sections, is_at, is_soa_above};

use crate::message::Message;
use crate::message_type::MessageType;
use crate::query::Query;
use crate::response_error::ResponseError;
use dns_data::RData;
use dns_records::Record;
use dns_wire::{DecodeError, EncodeError, RecordType};
use std::alloc::Global;

/// A response and the bytes that it was decoded from, or that it is encoded as.
///
/// Changing the message leaves the bytes as they are.
pub struct DnsResponse {
    message: Message,
    buffer: Vec<u8>,
}

impl Drop for DnsResponse {
    fn drop(self) {
        let DnsResponse { message, buffer } = self;
        drop(message);
        drop(buffer);
    }
}

impl DnsResponse {
    ghost use Rattle.std.specs.Borrow.{sem};
    ghost use Rattle.std.specs.Option.{option_copied};
    ghost use Rattle.dns_messages.specs.Lending.{LendsMessage};
    ghost use Rattle.dns_messages.specs.Response.{contains_answer, negative_ttl, soa_in};
    ghost use Rattle.dns_messages.specs.Encoding.{Encodes, IsTooLong};
    ghost use Rattle.dns_messages.specs.Grammar.{ReadsMessage, RefusesMessage, IsBareHeader};
    ghost use Rattle.dns_messages.specs.declared.header.Header.{Header};
    ghost use Rattle.dns_messages.specs.declared.message.Message.{Message};
    ghost use Rattle.dns_messages.specs.declared.message_type.MessageType.TheVariants as kinds;
    ghost use Rattle.dns_wire.specs.Encoder.{max_message_len};
    ghost use Rattle.dns_wire.specs.declared.error.DecodeError.{DecodeError};
    ghost use Rattle.dns_wire.specs.declared.error.EncodeError.{EncodeError};

    /// Creates a response from a message, and encodes it. A query is refused before anything is allocated (RFC 1035
    /// section 4.1.1).
    pub fn from_message(alloc: Global, message: Message) -> Result<DnsResponse, ResponseError>
        ensures message { IfOk result (λ response. response.message ≡ message) }
        ensures buffer { IfOk result (λ response.
            Encodes max_message_len message response.buffer.items) }
        ensures query { (result ≡ Err ResponseError.NotAResponse)
            ↔ (message.metadata.message_type ≡ kinds.Query) }
        ensures full { result ≡ Err (ResponseError.Encode EncodeError.MaxBufferSizeExceeded)
            → IsTooLong max_message_len message }
        ensures encode { (error : DecodeError) → result ≢ Err (ResponseError.Decode error) }
    {
        if message.metadata.message_type == MessageType::Query {
            return Err(ResponseError::NotAResponse);
        }
        match message.to_vec(alloc) {
            Ok(buffer) => Ok(DnsResponse { message, buffer }),
            Err(error) => Err(ResponseError::Encode(error)),
        }
    }

    /// Decodes a response. A query is refused (RFC 1035 section 4.1.1). Fewer than 12 bytes are refused before memory is
    /// allocated, and a header whose counts are all 0 takes none.
    pub fn from_buffer(alloc: Global, buffer: Vec<u8>) -> Result<DnsResponse, ResponseError>
        ensures read { IfOk result (λ response. ReadsMessage buffer.items response.message) }
        ensures kind { IfOk result (λ response.
            response.message.metadata.message_type ≡ kinds.Response) }
        ensures buffer { IfOk result (λ response. response.buffer ≡ buffer) }
        ensures query { result ≡ Err ResponseError.NotAResponse
            → (m : Message) × ReadsMessage buffer.items m
            × (m.metadata.message_type ≡ kinds.Query) }
        ensures refused { (error : DecodeError) → result ≡ Err (ResponseError.Decode error)
            → error ≢ DecodeError.Memory → RefusesMessage buffer.items error }
        ensures decode { (error : EncodeError) → result ≢ Err (ResponseError.Encode error) }
        ensures short { length buffer.items < 12
            → result ≡ Err (ResponseError.Decode DecodeError.InsufficientBytes) }
        ensures decided { (header : Header) → IsBareHeader buffer.items header
            → result ≢ Err (ResponseError.Decode DecodeError.Memory) }
    {
        match Message::from_vec(alloc, buffer.as_slice()) {
            Ok(message) => match message.metadata.message_type {
                MessageType::Query => Err(ResponseError::NotAResponse),
                MessageType::Response => Ok(DnsResponse { message, buffer }),
            },
            Err(error) => Err(ResponseError::Decode(error)),
        }
    }

    /// Returns the message.
    pub fn message(&self) -> &Message
        ensures { result.now ≡ self.now.message }
    {
        &self.message
    }

    /// Returns the message, which can be changed.
    pub fn message_mut(&mut self) -> &mut Message
        ensures value { result.now ≡ self.old.message }
        ensures* lends { sem 𝓛 (LendsMessage self.entry result) }
    {
        &mut self.message
    }

    /// Returns the first SOA record of the authority section (RFC 2308 section 3).
    pub fn soa(&self) -> Option<&Record>
        ensures { option_copied result ≡ soa_in self.now.message.authorities }
    {
        self.message
            .authorities
            .as_slice()
            .iter()
            .find(|record| matches!(&record.rdata, RData::SOA(_)))
    }

    /// Returns how long a negative answer may be cached, in seconds: the lesser of the TTL and the minimum of the first
    /// SOA record of the authority section (RFC 2308 section 5).
    pub fn negative_ttl(&self) -> Option<u32>
        ensures { result ≡ negative_ttl (soa_in self.now.message.authorities) }
    {
        let record = self.soa()?;
        match &record.rdata {
            RData::SOA(soa) => Some(record.ttl.min(soa.minimum)),
            _ => None,
        }
    }

    /// Returns `true` if one of the questions has an answer.
    pub fn contains_answer(&self) -> bool
        ensures { result ≡ contains_answer self.now.message }
    {
        self.message
            .queries
            .as_slice()
            .iter()
            .any(|query| answers_question(&self.message, query))
    }

    /// Returns the bytes.
    pub fn as_buffer(&self) -> &[u8]
        ensures { result.now ≡ self.now.buffer.items }
    {
        self.buffer.as_slice()
    }

    /// Converts to the bytes.
    pub fn into_buffer(self) -> Vec<u8>
        ensures { result ≡ self.buffer }
    {
        let DnsResponse {
            message: _message,
            buffer,
        } = self;
        buffer
    }

    /// Converts to the message.
    pub fn into_message(self) -> Message
        ensures { result ≡ self.message }
    {
        let DnsResponse {
            message,
            buffer: _buffer,
        } = self;
        message
    }

    /// Returns the message and the bytes.
    pub fn into_parts(self) -> (Message, Vec<u8>)
        ensures { result ≡ (self.message, self.buffer) }
    {
        let DnsResponse { message, buffer } = self;
        (message, buffer)
    }
}

/// Returns `true` if a message answers a question.
fn answers_question(message: &Message, query: &Query) -> bool
    ensures { result ≡ answers_question message.now query.now }
{
    match query.query_type {
        RecordType::ANY => has_record_at(message, query),
        RecordType::SOA => has_soa_above(message, query),
        kind => has_answer_of_type(message, kind, query),
    }
}

/// Returns `true` if there is an answer, or a record of a type at the name of a question.
fn has_answer_of_type(message: &Message, kind: RecordType, query: &Query) -> bool
    ensures { result ≡ has_answer_of_type kind query.now message.now }
{
    !message.answers.as_slice().is_empty() || has_record_of_type(message, kind, query)
}

ghost use Rattle.std.specs.Prelude.{◌&&◌};

/// Returns `true` if a record is at the name of a question.
fn has_record_at(message: &Message, query: &Query) -> bool
    ensures { result ≡ in_sections (is_at query.now) message.now }
{
    is_record_at(message.answers.as_slice(), query)
        || is_record_at(message.authorities.as_slice(), query)
        || is_record_at(message.additionals.as_slice(), query)
}

fn is_record_at(records: &[Record], query: &Query) -> bool
    ensures { result ≡ list_any (is_at query.now) records.now }
{
    records
        .iter()
        .any(|record| record.name.eq_ignore_root(&query.name))
}

/// Returns `true` if there is an SOA record of a zone that has the name of a question.
fn has_soa_above(message: &Message, query: &Query) -> bool
    ensures { result ≡ in_sections (is_soa_above query.now) message.now }
{
    is_any_soa_above(message.answers.as_slice(), query)
        || is_any_soa_above(message.authorities.as_slice(), query)
        || is_any_soa_above(message.additionals.as_slice(), query)
}

fn is_any_soa_above(records: &[Record], query: &Query) -> bool
    ensures { result ≡ list_any (is_soa_above query.now) records.now }
{
    records.iter().any(|record| is_of_type(record, RecordType::SOA)
        && record.name.zone_of(&query.name))
}

/// Returns `true` if a record of a type is at the name of a question.
fn has_record_of_type(message: &Message, kind: RecordType, query: &Query) -> bool
    ensures { result ≡ in_sections (λ r. has_type kind r && is_at query.now r) message.now }
{
    is_any_of_type(message.answers.as_slice(), kind, query)
        || is_any_of_type(message.authorities.as_slice(), kind, query)
        || is_any_of_type(message.additionals.as_slice(), kind, query)
}

fn is_any_of_type(records: &[Record], kind: RecordType, query: &Query) -> bool
    ensures { result ≡ list_any (λ r. has_type kind r && is_at query.now r) records.now }
{
    records.iter().any(|record| is_of_type(record, kind) && record.name.eq_ignore_root(&query.name))
}

/// Returns `true` if a record has this type.
fn is_of_type(record: &Record, kind: RecordType) -> bool
    ensures { result ≡ has_type kind «record».now }
{
    record.record_type() == kind
}
