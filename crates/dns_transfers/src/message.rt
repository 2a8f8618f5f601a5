//! One message of a transfer (RFC 5936 section 2.2).

ghost use Rattle.std.specs.Prelude.{◌≡◌, ◌≤◌, ◌+◌, ◌-◌, length, IfOk, OnOk, Err, option_map};
ghost use Rattle.std.specs.List.{AllByRecursion};
ghost use Rattle.dns_wire.specs.Encoder.{state_of};
ghost use Rattle.dns_wire.specs.Name.{name_len};
ghost use Rattle.dns_messages.specs.Cut.{edns_item, front_reach, items_len, listed, query_item, IsFresh};
ghost use Rattle.dns_messages.specs.Encoding.{Encodes, IsTooLong};
ghost use Rattle.dns_transfers.specs.Message.{borrowed_message, edns_of, transfer_metadata};

use crate::batch::Batch;
use crate::lent_record::LentRecord;
use dns_messages::{Edns, MessageType, Metadata, OpCode, Query, emit_message_parts};
use dns_records::Record;
use dns_wire::{BinEncoder, EncodeError};
use std::alloc::{AllocError, Global};

/// The greatest length of a message over a stream, in bytes (RFC 1035 section 4.2.2).
const MAX_MESSAGE_LEN: usize = 65_535;

/// The length of a header, in bytes (RFC 1035 section 4.1.1).
const HEADER_LEN: usize = 12;

/// The length of the type and the class of a question, in bytes (RFC 1035 section 4.1.2).
const QUERY_FIELDS_LEN: usize = 4;

/// The length of an OPT record without options, in bytes (RFC 6891 section 6.1.2).
const EDNS_LEN: usize = 11;

/// A message of a transfer, whose question and records are borrowed.
#[derive(Drop)]
pub(crate) struct TransferMessage<'b, 'a> {
    pub(crate) metadata: Metadata,
    pub(crate) queries: &'b [Query],
    pub(crate) records: &'b [LentRecord<'a>],
    pub(crate) edns: Option<Edns>,
}

impl TransferMessage<'_, '_> {
    /// Writes the message at the start of an encoder.
    fn emit(&self, encoder: &mut BinEncoder<'_>) -> Result<(), EncodeError>
        requires fresh { IsFresh (state_of encoder.old) }
        ensures encodes { OnOk result (Encodes (state_of encoder.old).limit
            (borrowed_message self.now) (state_of encoder.new).bytes) }
        ensures full { result ≡ Err EncodeError.MaxBufferSizeExceeded
            → IsTooLong (state_of encoder.old).limit (borrowed_message self.now) }
        ensures lender { (state_of encoder.new).lender ≡ (state_of encoder.old).lender }
    {
        let mut queries = self.queries;
        let mut answers = Batch {
            records: self.records,
        };
        let mut authorities: &[Record] = &[];
        let mut additionals: &[Record] = &[];
        emit_message_parts(
            &self.metadata,
            &mut queries,
            &mut answers,
            &mut authorities,
            &mut additionals,
            self.edns.as_ref(),
            None,
            encoder,
        )?;
        Ok(())
    }

    /// Encodes the message in at most 65,535 bytes.
    fn to_vec(&self, alloc: Global) -> Result<Vec<u8>, EncodeError>
        ensures encodes { IfOk result (λ bytes.
            Encodes 65535 (borrowed_message self.now) bytes.items) }
        ensures full { result ≡ Err EncodeError.MaxBufferSizeExceeded
            → IsTooLong 65535 (borrowed_message self.now) }
    {
        let mut bytes = Vec::new(alloc);
        let mut encoder = BinEncoder::new(alloc, &mut bytes);
        self.emit(&mut encoder)?;
        encoder.into_bytes();
        Ok(bytes)
    }

    /// Encodes the message in at most 65,535 bytes. Its header and its question fit.
    pub(crate) fn encode(&self, alloc: Global) -> Result<Vec<u8>, AllocError>
        requires { front_reach (borrowed_message self.now) ≤ 65535 }
        ensures { IfOk result (λ bytes. Encodes 65535 (borrowed_message self.now) bytes.items) }
    {
        match self.to_vec(alloc) {
            Ok(bytes) => Ok(bytes),
            // The memory for the message's bytes was refused.
            Err(EncodeError::Memory) => Err(AllocError),
            Err(EncodeError::MaxBufferSizeExceeded) => unreachable!(),
        }
    }
}

/// Returns the header of each message of the reply to a request (RFC 5936 section 2.2.1).
pub(crate) fn metadata_of_transfer(request: &Metadata) -> Metadata
    ensures { result ≡ transfer_metadata request.now }
{
    Metadata {
        authoritative: true,
        recursion_desired: request.recursion_desired,
        ..Metadata::new(request.id, MessageType::Response, OpCode::Query)
    }
}

/// Returns an OPT record without options, if its DO is given. No memory is taken.
pub(crate) fn edns_of(alloc: Global, dnssec_ok: Option<bool>) -> Option<Edns>
    ensures { result ≡ edns_of dnssec_ok }
{
    let Some(dnssec_ok) = dnssec_ok else {
        return None;
    };
    let mut edns = Edns::new(alloc);
    edns.set_dnssec_ok(dnssec_ok);
    Some(edns)
}

/// Returns DO of an OPT record, if there is one (RFC 3225 section 3).
pub(crate) fn dnssec_ok_of(edns: &Option<Edns>) -> Option<bool>
    ensures { result ≡ option_map (λ e. e.flags.dnssec_ok) edns.now }
{
    match edns {
        Some(edns) => Some(edns.flags().dnssec_ok),
        None => None,
    }
}

/// Returns how many bytes are left for records in a message with this question and this OPT record, without compression.
pub(crate) fn room_for(queries: &[Query], dnssec_ok: Option<bool>) -> usize
    requires { length queries.now ≤ 1 }
    ensures value { result ≡ 65535 - (12 + (items_len query_item queries.now
        + items_len edns_item (listed (edns_of dnssec_ok)))) }
    ensures short { AllByRecursion (λ q. name_len q.name.labels ≤ 255) queries.now }
{
    MAX_MESSAGE_LEN - (HEADER_LEN + (queries_len(queries) + edns_len(dnssec_ok)))
}

/// Returns the length of a question, if there is one, without compression.
fn queries_len(queries: &[Query]) -> usize
    requires { length queries.now ≤ 1 }
    ensures value { result ≡ items_len query_item queries.now }
    ensures most { result ≤ 259 }
    ensures short { AllByRecursion (λ q. name_len q.name.labels ≤ 255) queries.now }
{
    let [query] = queries else {
        return 0;
    };
    query.name.encoded_len() + QUERY_FIELDS_LEN
}

/// Returns the length of the OPT record, if there is one.
fn edns_len(dnssec_ok: Option<bool>) -> usize
    ensures value { result ≡ items_len edns_item (listed (edns_of dnssec_ok)) }
    ensures most { result ≤ 11 }
{
    match dnssec_ok {
        Some(_dnssec_ok) => EDNS_LEN,
        None => 0,
    }
}
