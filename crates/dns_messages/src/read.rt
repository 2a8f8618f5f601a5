//! Decoding messages (RFC 1035 section 4.1, RFC 6891 section 6.1).

ghost use Rattle.std.specs.Prelude.{◌≡◌, ◌≢◌, ◌<◌, ◌+◌, false, true, [], length, None, Ok, Err, IfOk, IfErr, OnErr};
ghost use Rattle.dns_messages.specs.Grammar.{extended, kind_of, ReadsMessage, RefusesMessage, ReadsQuestions, RefusesQuestions, IsBareHeader};
ghost use Rattle.dns_messages.specs.Section.{ReadsSection, ReadsSectionRecords, RefusesSection};
ghost use Rattle.dns_messages.specs.Header.{code_number, DecodesHeader};
ghost use Rattle.dns_messages.specs.Message.{empty_message};
ghost use Rattle.dns_messages.specs.Sound.{IsSound};
ghost use Rattle.dns_messages.specs.declared.header.Header.{Header};

use crate::edns::Edns;
use crate::header::{Header, Metadata};
use crate::laws::decoded_messages_are_sound;
use crate::message::Message;
use crate::op_code::OpCode;
use crate::query::Query;
use crate::response_code::ResponseCode;
use crate::section::{SectionRecords, push_expected};
use dns_records::{Record, Sequence};
use dns_wire::{BinDecodable, BinDecoder, DecodeError, PointerTable};
use std::alloc::{AllocError, Global};

/// The length of a header, in bytes (RFC 1035 section 4.1.1).
const HEADER_LEN: usize = 12;

/// The greatest length of a message, in bytes, that is decoded without a table of its compression pointers. The chains of
/// pointers in it are short.
const SHORT_LEN: usize = 2_048;

impl Message {
    /// Decodes a message. Bytes after its last record are ignored.
    ///
    /// Fewer than 12 bytes are refused before memory is allocated, and a header whose counts are all 0 needs none. Memory is
    /// allocated for items as they are decoded: with the first of a section for at most 16, since the counts of the header may
    /// be false. A message of more than 2,048 bytes is decoded with a table of its compression pointers, of at most 32 KiB, if
    /// there is memory for it.
    pub fn from_vec(alloc: Global, bytes: &[u8]) -> Result<Message, DecodeError>
        ensures read { IfOk result (λ message. ReadsMessage bytes.now message) }
        ensures sound { IfOk result (λ message. IsSound message) }
        ensures refused { IfErr result (λ error. error ≢ DecodeError.Memory
            → RefusesMessage bytes.now error) }
        ensures short { length bytes.now < HEADER_LEN
            → result ≡ Err DecodeError.InsufficientBytes }
        ensures decided { (header : Header) → IsBareHeader bytes.now header
            → result ≡ Ok (empty_message header.metadata) }
    {
        if bytes.len() < HEADER_LEN {
            return Err(DecodeError::InsufficientBytes);
        }
        decoded_messages_are_sound();
        read_message(alloc, bytes)
    }

    /// Decodes `count` questions. A failed read leaves the decoder unchanged. No question takes no memory.
    pub fn read_queries(
        alloc: Global,
        decoder: &mut BinDecoder<'_>,
        count: u16,
    ) -> Result<Sequence<Query>, DecodeError>
        ensures read { IfOk result (λ queries. ReadsQuestions
            decoder.old.bytes decoder.old.index count queries decoder.new.index) }
        ensures refused { IfErr result (λ error. error ≢ DecodeError.Memory
            → RefusesQuestions decoder.old.bytes decoder.old.index count error) }
        ensures bytes { decoder.new.bytes ≡ decoder.old.bytes }
        ensures err { OnErr result (decoder.new ≡ decoder.old) }
        ensures decided { count ≡ 0 → result ≡ Ok [] }
    {
        let mut reader = decoder.clone(decoder.index());
        let queries = read_questions(alloc, &mut reader, count)?;
        *decoder = reader;
        Ok(queries)
    }

    /// Decodes a section of `count` records of a message with this opcode. An OPT record and a signature are only in the
    /// additional section (RFC 6891 section 6.1.1, RFC 8945 section 5.1). A failed read leaves the decoder unchanged. No
    /// record takes no memory.
    pub fn read_records(
        alloc: Global,
        decoder: &mut BinDecoder<'_>,
        count: u16,
        op_code: OpCode,
        is_additional: bool,
    ) -> Result<SectionRecords, DecodeError>
        ensures read { IfOk result (λ section. ReadsSectionRecords decoder.old.bytes
            (kind_of op_code is_additional) decoder.old.index count section decoder.new.index) }
        ensures refused { IfErr result (λ error. error ≢ DecodeError.Memory
            → RefusesSection decoder.old.bytes
            (kind_of op_code is_additional) decoder.old.index count error) }
        ensures bytes { decoder.new.bytes ≡ decoder.old.bytes }
        ensures err { OnErr result (decoder.new ≡ decoder.old) }
        ensures decided { count ≡ 0
            → result ≡ Ok (record { records = []; edns = None; signature = None }) }
    {
        let mut reader = decoder.clone(decoder.index());
        let mut section = SectionRecords::new(alloc);
        section.read(alloc, &mut reader, count, op_code, is_additional)?;
        *decoder = reader;
        Ok(section)
    }
}

/// Decodes `count` questions. A failed read may advance the decoder.
fn read_questions(
    alloc: Global,
    decoder: &mut BinDecoder<'_>,
    count: u16,
) -> Result<Sequence<Query>, DecodeError>
    ensures read { IfOk result (λ queries. ReadsQuestions
        decoder.old.bytes decoder.old.index count queries decoder.new.index) }
    ensures refused { IfErr result (λ error. error ≢ DecodeError.Memory
        → RefusesQuestions decoder.old.bytes decoder.old.index count error) }
    ensures bytes { decoder.new.bytes ≡ decoder.old.bytes }
    ensures decided { count ≡ 0 → result ≡ Ok [] }
{
    let mut queries = Sequence::new(alloc);
    for nth in 0..count {
        let query = Query::read(alloc, decoder)?;
        push_expected(alloc, &mut queries, query, count - nth)?;
    }
    Ok(queries)
}

/// Decodes a message. A long one is decoded with a table of its compression pointers, if there is memory for it.
fn read_message(alloc: Global, bytes: &[u8]) -> Result<Message, DecodeError>
    ensures read { IfOk result (λ message. ReadsMessage bytes.now message) }
    ensures refused { IfErr result (λ error. error ≢ DecodeError.Memory
        → RefusesMessage bytes.now error) }
    ensures decided { (header : Header) → IsBareHeader bytes.now header
        → result ≡ Ok (empty_message header.metadata) }
{
    if bytes.len() <= SHORT_LEN {
        return read_from(alloc, BinDecoder::new(bytes));
    }
    match PointerTable::new(alloc, bytes) {
        Ok(table) => read_from(alloc, BinDecoder::with_pointers(bytes, &table)),
        // The memory for the table was refused, which only takes longer.
        Err(AllocError) => read_from(alloc, BinDecoder::new(bytes)),
    }
}

/// Decodes a message with a decoder of its bytes.
fn read_from(alloc: Global, decoder: BinDecoder<'_>) -> Result<Message, DecodeError>
    requires { decoder.index ≡ 0 }
    ensures read { IfOk result (λ message. ReadsMessage decoder.entry.bytes message) }
    ensures refused { IfErr result (λ error. error ≢ DecodeError.Memory
        → RefusesMessage decoder.entry.bytes error) }
    ensures decided { (header : Header) → IsBareHeader decoder.entry.bytes header
        → result ≡ Ok (empty_message header.metadata) }
{
    let mut decoder = decoder;
    let header = read_header(alloc, &mut decoder)?;
    let counts = header.counts;
    let op_code = header.metadata.op_code;
    let queries = Message::read_queries(alloc, &mut decoder, counts.queries)?;
    let answers = read_plain_section(alloc, &mut decoder, counts.answers, op_code)?;
    let authorities = read_plain_section(alloc, &mut decoder, counts.authorities, op_code)?;
    let mut last = SectionRecords::new(alloc);
    last.read(alloc, &mut decoder, counts.additionals, op_code, true)?;
    Ok(Message {
        metadata: extended(&last.edns, header.metadata),
        queries,
        answers,
        authorities,
        additionals: last.records,
        edns: last.edns,
        signature: last.signature,
    })
}

/// Decodes the answer section or the authority section.
fn read_plain_section(
    alloc: Global,
    decoder: &mut BinDecoder<'_>,
    count: u16,
    op_code: OpCode,
) -> Result<Sequence<Record>, DecodeError>
    ensures read { IfOk result (λ records. ReadsSection decoder.old.bytes
        (kind_of op_code false) decoder.old.index count records decoder.new.index) }
    ensures refused { IfErr result (λ error. error ≢ DecodeError.Memory
        → RefusesSection decoder.old.bytes (kind_of op_code false) decoder.old.index count error) }
    ensures bytes { decoder.new.bytes ≡ decoder.old.bytes }
    ensures decided { count ≡ 0 → result ≡ Ok [] }
{
    let mut section = SectionRecords::new(alloc);
    section.read(alloc, decoder, count, op_code, false)?;
    Ok(section.records)
}

/// Decodes the header.
fn read_header(alloc: Global, decoder: &mut BinDecoder<'_>) -> Result<Header, DecodeError>
    requires { decoder.old.index ≡ 0 }
    ensures read { IfOk result (λ header. DecodesHeader decoder.old.bytes 0 header 12) }
    ensures index { IfOk result (λ _. decoder.new.index ≡ 12) }
    ensures short { IfErr result (λ error.
        (error ≡ DecodeError.InsufficientBytes) × (length decoder.old.bytes < 12)) }
    ensures bytes { decoder.new.bytes ≡ decoder.old.bytes }
{
    Header::read(alloc, decoder)
}

/// Returns the metadata of a header with the upper eight bits of the response code, which the OPT record has (RFC 6891
/// section 6.1.3).
fn extended(edns: &Option<Edns>, metadata: Metadata) -> Metadata
    requires { code_number metadata.response_code < 16 }
    ensures { result ≡ extended edns.now metadata }
{
    match edns {
        None => metadata,
        Some(edns) => Metadata {
            response_code: ResponseCode::from(
                16 * u16::from(edns.rcode_high()) + u16::from(metadata.response_code),
            ),
            ..metadata
        },
    }
}
