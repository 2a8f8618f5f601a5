//! The header of a message (RFC 1035 section 4.1.1).

ghost use Rattle.std.specs.Prelude.{◌≡◌, ◌≢◌, ◌<◌, ◌↔◌, List, [], ◌∷◌, ℕ, length, Some, IfOk, IfErr, OnErr, refl};
ghost use Rattle.std.proofs.Common.{rules};
ghost use Rattle.dns_wire.specs.Decoder.{rest};
ghost use Rattle.dns_wire.specs.Encodable.{Plain, BytesAt};
ghost use Rattle.dns_messages.specs.Header.{has_bit, metadata_of, peeked_metadata, third_byte, fourth_byte, encoded_header, DecodesHeader, RefusesHeader, FitsHeader, IsSoundHeader};
ghost use Rattle.dns_messages.specs.declared.header.Metadata.{Metadata};
ghost use Rattle.dns_messages.specs.declared.header.Header.{Header};

use crate::message_type::MessageType;
use crate::op_code::OpCode;
use crate::response_code::ResponseCode;
use dns_wire::{
    BinDecodable, BinDecoder, BinEncodable, BinEncoder, DecodeError, EncodeError, EncodedSize,
};
use std::alloc::Global;

/// The number of bytes in a header.
const HEADER_LEN: usize = 12;

/// The flags of a header, without QR.
#[derive(Clone, Copy, Debug, PartialEq, Eq)]
pub struct Flags {
    /// AA: the response is authoritative.
    pub authoritative: bool,
    /// TC: the message is truncated.
    pub truncation: bool,
    /// RD: recursion is desired.
    pub recursion_desired: bool,
    /// RA: recursion is available.
    pub recursion_available: bool,
    /// AD: the data is authentic (RFC 4035 section 3.2.3).
    pub authentic_data: bool,
    /// CD: checking is disabled (RFC 4035 section 3.2.2).
    pub checking_disabled: bool,
}

/// The header of a message without its counts.
#[derive(Clone, Copy, Debug, PartialEq, Eq)]
pub struct Metadata {
    /// The identifier, which a response copies from its query.
    pub id: u16,
    /// QR: whether the message is a query or a response.
    pub message_type: MessageType,
    /// The kind of query. The header encodes its lowest four bits.
    pub op_code: OpCode,
    /// AA: the response is authoritative.
    pub authoritative: bool,
    /// TC: the message is truncated.
    pub truncation: bool,
    /// RD: recursion is desired.
    pub recursion_desired: bool,
    /// RA: recursion is available.
    pub recursion_available: bool,
    /// AD: the data is authentic (RFC 4035 section 3.2.3).
    pub authentic_data: bool,
    /// CD: checking is disabled (RFC 4035 section 3.2.2).
    pub checking_disabled: bool,
    /// The response code. The header encodes its lowest four bits.
    pub response_code: ResponseCode,
}

/// The number of entries in each section of a message.
#[derive(Clone, Copy, Debug, PartialEq, Eq)]
pub struct HeaderCounts {
    /// QDCOUNT: questions.
    pub queries: u16,
    /// ANCOUNT: answers.
    pub answers: u16,
    /// NSCOUNT: authority records.
    pub authorities: u16,
    /// ARCOUNT: additional records.
    pub additionals: u16,
}

/// The header of a message.
///
/// The bit Z, which is reserved, is ignored when a header is decoded and clear when it is encoded.
#[derive(Clone, Copy, Debug, PartialEq, Eq)]
pub struct Header {
    pub metadata: Metadata,
    pub counts: HeaderCounts,
}

impl Metadata {
    ghost use Rattle.dns_messages.specs.Header.{new_metadata, response_metadata, flags_of};
    ghost use Rattle.dns_messages.specs.ResponseCode.{code_low, code_from_parts};

    /// Creates metadata with all flags clear and the code `NoError`.
    pub fn new(id: u16, message_type: MessageType, op_code: OpCode) -> Metadata
        ensures { result ≡ new_metadata id message_type op_code }
    {
        Metadata {
            id,
            message_type,
            op_code,
            authoritative: false,
            truncation: false,
            recursion_desired: false,
            recursion_available: false,
            authentic_data: false,
            checking_disabled: false,
            response_code: ResponseCode::NoError,
        }
    }

    /// Creates the metadata of a response: the id, the opcode, RD and CD are those of the request, the other flags are
    /// clear, and the code is `NoError`.
    pub fn response_from_request(request: &Metadata) -> Metadata
        ensures { result ≡ response_metadata request.now }
    {
        Metadata {
            recursion_desired: request.recursion_desired,
            checking_disabled: request.checking_disabled,
            ..Metadata::new(request.id, MessageType::Response, request.op_code)
        }
    }

    /// Returns the flags.
    pub fn flags(&self) -> Flags
        ensures { result ≡ flags_of self.now }
    {
        Flags {
            authoritative: self.authoritative,
            truncation: self.truncation,
            recursion_desired: self.recursion_desired,
            recursion_available: self.recursion_available,
            authentic_data: self.authentic_data,
            checking_disabled: self.checking_disabled,
        }
    }

    /// Sets the upper eight bits of the response code, which are in the OPT record of a message (RFC 6891 section
    /// 6.1.3). The lowest four bits stay as they are.
    pub fn merge_response_code(&mut self, high: u8)
        ensures { self.new ≡ record self.old {
          response_code = code_from_parts high (code_low self.old.response_code);
        } }
    {
        self.response_code = ResponseCode::from_high_low(high, self.response_code.low());
    }

    /// Decodes the metadata with this id from the two bytes of flags that follow it.
    pub fn from_bytes(id: u16, third: u8, fourth: u8) -> Metadata
        ensures { result ≡ metadata_of id third fourth }
    {
        Metadata {
            id,
            message_type: if is_set(128, third) {
                MessageType::Response
            } else {
                MessageType::Query
            },
            op_code: OpCode::from_u8(third / 8 % 16),
            authoritative: is_set(4, third),
            truncation: is_set(2, third),
            recursion_desired: is_set(1, third),
            recursion_available: is_set(128, fourth),
            authentic_data: is_set(32, fourth),
            checking_disabled: is_set(16, fourth),
            response_code: ResponseCode::from_low(fourth),
        }
    }

    /// Decodes the metadata that bytes begin with. Returns `None` if there are fewer than twelve.
    pub fn peek(bytes: &[u8]) -> Option<Metadata>
        ensures { result ≡ peeked_metadata bytes.now }
    {
        let [first, second, third, fourth, counts @ ..] = bytes else {
            return None;
        };
        if counts.len() < 8 {
            return None;
        }
        let id = 256 * u16::from(*first) + u16::from(*second);
        Some(Metadata::from_bytes(id, *third, *fourth))
    }

    /// Encodes QR, the opcode, AA, TC and RD.
    fn third_byte(&self) -> u8
        ensures { result ≡ third_byte self.now }
    {
        let is_response: u8 = match self.message_type {
            MessageType::Query => 0,
            MessageType::Response => 1,
        };
        128 * is_response
            + 8 * (u8::from(self.op_code) % 16)
            + 4 * u8::from(self.authoritative)
            + 2 * u8::from(self.truncation)
            + u8::from(self.recursion_desired)
    }

    /// Encodes RA, AD, CD and the response code.
    fn fourth_byte(&self) -> u8
        ensures { result ≡ fourth_byte self.now }
    {
        128 * u8::from(self.recursion_available)
            + 32 * u8::from(self.authentic_data)
            + 16 * u8::from(self.checking_disabled)
            + self.response_code.low()
    }
}

/// Returns `true` if the bit of this weight is set.
fn is_set(weight: u8, byte: u8) -> bool
    requires { 0 < weight }
    ensures { result ≡ has_bit weight byte }
{
    byte / weight % 2 == 1
}

impl Header {
    /// Encodes the header.
    pub(crate) fn to_array(&self) -> [u8; 12]
        ensures { result ≡ encoded_header self.now }
    {
        let id = self.metadata.id.to_be_bytes();
        let queries = self.counts.queries.to_be_bytes();
        let answers = self.counts.answers.to_be_bytes();
        let authorities = self.counts.authorities.to_be_bytes();
        let additionals = self.counts.additionals.to_be_bytes();
        [
            id[0],
            id[1],
            self.metadata.third_byte(),
            self.metadata.fourth_byte(),
            queries[0],
            queries[1],
            answers[0],
            answers[1],
            authorities[0],
            authorities[1],
            additionals[0],
            additionals[1],
        ]
    }

    /// Decodes the header from its twelve bytes.
    fn from_slice(bytes: &[u8]) -> Header
        requires { length bytes.now ≡ HEADER_LEN }
        ensures { DecodesHeader bytes.now 0 result HEADER_LEN }
    {
        let id = u16::from_be_bytes([bytes[0], bytes[1]]);
        let queries = u16::from_be_bytes([bytes[4], bytes[5]]);
        let answers = u16::from_be_bytes([bytes[6], bytes[7]]);
        let authorities = u16::from_be_bytes([bytes[8], bytes[9]]);
        let additionals = u16::from_be_bytes([bytes[10], bytes[11]]);
        Header {
            metadata: Metadata::from_bytes(id, bytes[2], bytes[3]),
            counts: HeaderCounts {
                queries,
                answers,
                authorities,
                additionals,
            },
        }
    }
}

impl BinEncodable for Header {
    ghost pieces = { λ header _. Plain (encoded_header header) ∷ [] };

    fn emit(&self, encoder: &mut BinEncoder<'_>) -> Result<(), EncodeError> {
        encoder.emit_vec(&self.to_array())
    }
}

impl EncodedSize for Header {
    ghost LEN = { 12 };

    const LEN: usize = HEADER_LEN;

    ghost wire = { encoded_header };

    fn fill(&self, target: &mut [u8]) {
        target.copy_from_slice(&self.to_array());
    }

    ghost is_plain = { λ value s. refl };

    ghost has_len = { λ value. refl };

    ghost some = { Prim.search rules };
}

impl BinDecodable for Header {
    ghost use Rattle.dns_messages.specs.internal.Headers.{header_unambiguous, header_not_refused};

    ghost decodes = { DecodesHeader };

    ghost refuses = { RefusesHeader };

    /// Decodes a header. Fails with `InsufficientBytes` if fewer than twelve bytes are unread, and otherwise succeeds.
    fn read(_alloc: Global, decoder: &mut BinDecoder<'_>) -> Result<Header, DecodeError>
        ensures read { IfOk result (λ header.
            DecodesHeader decoder.old.bytes decoder.old.index header decoder.new.index) }
        ensures refused { IfErr result (λ error. error ≢ DecodeError.Memory
            → RefusesHeader decoder.old.bytes decoder.old.index error) }
        ensures bytes { decoder.new.bytes ≡ decoder.old.bytes }
        ensures err { OnErr result (decoder.new ≡ decoder.old) }
        ensures short { (result ≡ Err DecodeError.InsufficientBytes)
            ↔ (length (rest decoder.old) < HEADER_LEN) }
        ensures only { IfErr result (λ error. error ≡ DecodeError.InsufficientBytes) }
    {
        let bytes = decoder.read_slice(HEADER_LEN)?;
        Ok(Header::from_slice(bytes))
    }

    ghost unambiguous = { header_unambiguous };

    ghost not_refused = { header_not_refused };
}

/// The metadata that bytes begin with is that of the header that they begin with.
pub fn headers_are_peeked()
    ensures { (bytes : List ℕ) (header : Header) → DecodesHeader bytes 0 header HEADER_LEN
        → peeked_metadata bytes ≡ Some header.metadata }
{}

/// Metadata round-trips through its two bytes of flags, if its opcode and its response code are below 16 and are the
/// variants that their numbers decode to.
pub fn metadata_round_trips()
    ensures { (metadata : Metadata) → FitsHeader metadata
        → metadata_of metadata.id (third_byte metadata) (fourth_byte metadata) ≡ metadata }
{}

/// An encoded header decodes to itself, if its opcode and its response code are below 16 and are the variants that
/// their numbers decode to.
pub fn headers_decode_as_encoded()
    ensures { (bytes : List ℕ) (place end : ℕ) (header : Header) → IsSoundHeader header
        → BytesAt bytes place (encoded_header header) end
        → DecodesHeader bytes place header end }
{}
