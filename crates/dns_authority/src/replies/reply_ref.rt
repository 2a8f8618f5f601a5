//! Messages whose questions and records are borrowed, and their bytes (RFC 1035 section 4.2.1).

ghost use Rattle.std.specs.Prelude.{◌≡◌, ◌≤◌, ◌+◌, IfOk, OnOk, Err, option_map};
ghost use Rattle.dns_wire.specs.Encoder.{state_of};
ghost use Rattle.dns_messages.specs.Cut.{front_reach, IsFresh};
ghost use Rattle.dns_messages.specs.Emit.{header_at};
ghost use Rattle.dns_messages.specs.Encoding.{Encodes, IsTooLong};
ghost use Rattle.dns_messages.specs.Message.{truncated};
ghost use Rattle.dns_authority.specs.replies.Sending.{borrowed_message, fitting_count, is_referral, sections_fit, with_fitting, without_additionals, IsWhole};

use crate::replies::whole_sets::set_start;
use dns_messages::{Edns, Header, Metadata, Query, emit_message_parts};
use dns_records::Record;
use dns_wire::{BinEncoder, EncodeError, RecordType};
use std::alloc::{AllocError, Global};

/// The number of bytes of the OPT record of a reply, which has no options (RFC 6891 section 6.1.2).
const EDNS_LEN: u16 = 11;

/// A message whose questions, records and OPT record are borrowed.
#[derive(Clone, Copy)]
pub(crate) struct ReplyRef<'a> {
    pub(crate) metadata: Metadata,
    pub(crate) queries: &'a [Query],
    pub(crate) answers: &'a [Record],
    pub(crate) authorities: &'a [Record],
    pub(crate) additionals: &'a [Record],
    pub(crate) edns: Option<&'a Edns>,
}

/// The bytes of a message under a limit.
#[derive(Drop)]
pub(crate) struct Encoded {
    bytes: Vec<u8>,
    /// The header: TC is set if some of the message did not fit, or if it was set before.
    header: Header,
}

impl<'a> ReplyRef<'a> {
    /// Writes the message at the start of an encoder, as much of it as fits, and returns its header.
    fn emit(&self, encoder: &mut BinEncoder<'_>) -> Result<Header, EncodeError>
        requires fresh { IsFresh (state_of encoder.old) }
        ensures encodes { OnOk result (Encodes (state_of encoder.old).limit
            (borrowed_message self.now) (state_of encoder.new).bytes) }
        ensures header { IfOk result (λ header. header
            ≡ header_at (state_of encoder.old).limit (borrowed_message self.now)) }
        ensures full { result ≡ Err EncodeError.MaxBufferSizeExceeded
            → IsTooLong (state_of encoder.old).limit (borrowed_message self.now) }
        ensures lender { (state_of encoder.new).lender ≡ (state_of encoder.old).lender }
    {
        let mut queries = self.queries;
        let mut answers = self.answers;
        let mut authorities = self.authorities;
        let mut additionals = self.additionals;
        let header = emit_message_parts(
            &self.metadata,
            &mut queries,
            &mut answers,
            &mut authorities,
            &mut additionals,
            self.edns,
            None,
            encoder,
        )?;
        Ok(header)
    }

    /// Encodes the message, as much of it as fits `limit` bytes.
    fn to_vec_within(&self, alloc: Global, limit: u16) -> Result<Encoded, EncodeError>
        ensures encodes { IfOk result (λ encoded.
            Encodes limit (borrowed_message self.now) encoded.bytes.items) }
        ensures header { IfOk result (λ encoded. encoded.header
            ≡ header_at limit (borrowed_message self.now)) }
        ensures full { result ≡ Err EncodeError.MaxBufferSizeExceeded
            → IsTooLong limit (borrowed_message self.now) }
    {
        let mut bytes = Vec::new(alloc);
        let mut encoder = BinEncoder::new(alloc, &mut bytes);
        encoder.set_max_size(limit);
        let header = self.emit(&mut encoder)?;
        encoder.into_bytes();
        Ok(Encoded { bytes, header })
    }

    /// Encodes the message, as much of it as fits `limit` bytes. Its header and its questions fit.
    fn encode(&self, alloc: Global, limit: u16) -> Result<Encoded, AllocError>
        requires { front_reach (borrowed_message self.now) ≤ limit }
        ensures encodes { IfOk result (λ encoded.
            Encodes limit (borrowed_message self.now) encoded.bytes.items) }
        ensures header { IfOk result (λ encoded. encoded.header
            ≡ header_at limit (borrowed_message self.now)) }
    {
        match self.to_vec_within(alloc, limit) {
            Ok(encoded) => Ok(encoded),
            // The memory for the message's bytes was refused.
            Err(EncodeError::Memory) => Err(AllocError),
            Err(EncodeError::MaxBufferSizeExceeded) => unreachable!(),
        }
    }

    /// Returns the bytes of the message if all of it fits `limit` bytes.
    pub(crate) fn whole(&self, alloc: Global, limit: u16) -> Result<Option<Vec<u8>>, AllocError>
        requires { front_reach (borrowed_message self.now) ≤ limit }
        ensures { IfOk result (λ found. IsWhole limit (borrowed_message self.now)
            (option_map (λ bytes. bytes.items) found)) }
    {
        let encoded = self.encode(alloc, limit)?;
        if encoded.header.metadata.truncation {
            return Ok(None);
        }
        Ok(Some(encoded.into_bytes()))
    }

    /// Returns the bytes of as much of the message as fits `limit` bytes.
    pub(crate) fn prefix(&self, alloc: Global, limit: u16) -> Result<Vec<u8>, AllocError>
        requires { front_reach (borrowed_message self.now) ≤ limit }
        ensures { IfOk result (λ bytes. Encodes limit (borrowed_message self.now) bytes.items) }
    {
        let encoded = self.encode(alloc, limit)?;
        Ok(encoded.into_bytes())
    }

    /// Returns `true` if the answers and the authority records of the message fit `limit` bytes.
    pub(crate) fn sections_fit(&self, alloc: Global, limit: u16) -> Result<bool, AllocError>
        requires { front_reach (borrowed_message self.now) ≤ limit }
        ensures { IfOk result (λ fit. fit ≡ sections_fit limit (borrowed_message self.now)) }
    {
        let sections = ReplyRef {
            additionals: &[],
            edns: None,
            ..*self
        };
        let encoded = sections.encode(alloc, limit)?;
        Ok(!encoded.header.metadata.truncation)
    }

    /// Returns `true` if the message is a referral: there are NS records in its authority section.
    pub(crate) fn is_referral(&self) -> bool
        ensures { result ≡ is_referral (borrowed_message self.now) }
    {
        self.authorities
            .iter()
            .any(|record| record.rdata.record_type() == RecordType::NS)
    }

    /// Returns the message without its additional records. The OPT record stays.
    pub(crate) fn without_additionals(self) -> ReplyRef<'a>
        ensures { borrowed_message result ≡ without_additionals (borrowed_message self.entry) }
    {
        ReplyRef {
            additionals: &[],
            ..self
        }
    }

    /// Returns how many of the additional records fit `limit` bytes beside an OPT record.
    fn fitting_count(&self, alloc: Global, limit: u16) -> Result<usize, AllocError>
        requires { front_reach (borrowed_message self.now) + 11 ≤ limit }
        ensures { IfOk result (λ count. count
            ≡ fitting_count limit (borrowed_message self.now)) }
    {
        let bare = ReplyRef {
            edns: None,
            ..*self
        };
        let encoded = bare.encode(alloc, limit - EDNS_LEN)?;
        Ok(usize::from(encoded.header.counts.additionals))
    }

    /// Returns the message with as many sets of its additional records as fit `limit` bytes beside an OPT record.
    pub(crate) fn with_fitting(self, alloc: Global, limit: u16) -> Result<ReplyRef<'a>, AllocError>
        requires { front_reach (borrowed_message self) + 11 ≤ limit }
        ensures { IfOk result (λ reply. borrowed_message reply
            ≡ with_fitting limit (borrowed_message self.entry)) }
    {
        let count = self.fitting_count(alloc, limit)?;
        let end = set_start(self.additionals, count);
        Ok(ReplyRef {
            additionals: &self.additionals[..end],
            ..self
        })
    }

    /// Returns the message with TC, and without records but the OPT record (RFC 2181 section 9).
    pub(crate) fn truncated(self) -> ReplyRef<'a>
        ensures { borrowed_message result ≡ truncated (borrowed_message self.entry) }
    {
        ReplyRef {
            metadata: Metadata {
                truncation: true,
                ..self.metadata
            },
            answers: &[],
            authorities: &[],
            additionals: &[],
            ..self
        }
    }
}

impl Encoded {
    /// Returns the bytes.
    fn into_bytes(self) -> Vec<u8>
        ensures { result ≡ self.bytes }
    {
        let Encoded {
            bytes,
            header: _header,
        } = self;
        bytes
    }
}
