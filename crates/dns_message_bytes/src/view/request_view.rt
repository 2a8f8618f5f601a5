//! Requests, borrowed from their bytes (RFC 1035 section 4.1, RFC 6891 section 6.1).

ghost use Rattle.std.specs.Prelude.{◌≡◌, ◌<◌, ◌+◌, ◌*◌, ℕ, List, IfSome, IsSome, Option, None, Some, Ok, drop, length};
ghost use Rattle.dns_wire.specs.Decoder.{rest};
ghost use Rattle.dns_messages.specs.declared.edns.Edns.{Edns};
ghost use Rattle.dns_messages.specs.declared.message.Message.{Message};
ghost use Rattle.dns_messages.specs.Grammar.{ReadsMessage};
ghost use Rattle.dns_messages.specs.Header.{DecodesHeader};
ghost use Rattle.dns_messages.specs.declared.header.Header.{Header};

use crate::view::edns_view::EdnsView;
use crate::view::question_view::QuestionView;
use dns_messages::{Header, HeaderCounts, Metadata};
use dns_wire::BinDecoder;

/// The number of bytes in a header (RFC 1035 section 4.1.1).
pub(crate) const HEADER_LEN: usize = 12;

/// A request, borrowed from its bytes: a header, one question, and at most an OPT record.
///
/// The name of the question has no compression pointers, and the owner of the OPT record is a zero byte, as in the requests of
/// stub resolvers and recursive servers. Any other message is decoded by `Message::from_vec`.
#[derive(Drop)]
pub struct RequestView<'a> {
    /// The header, without its counts. The upper eight bits of the response code are those of the OPT record.
    pub metadata: Metadata,
    /// The question.
    pub question: QuestionView<'a>,
    /// The OPT record, if there is one.
    pub edns: Option<EdnsView<'a>>,
}

impl<'a> RequestView<'a> {
    ghost use Rattle.dns_message_bytes.specs.view.Request.{ReadsRequest, IsRequestOf};

    /// Reads a request in place, without taking memory. Bytes after its last record are ignored. Returns `None` if the bytes
    /// are not those of a request with these parts alone.
    ///
    /// The view has the parts of the message that `Message::from_vec` decodes from the bytes.
    pub fn of(bytes: &'a [u8]) -> Option<RequestView<'a>>
        ensures read { IfSome result (λ view. (m : Message) × (ReadsMessage bytes.now m
            × (ReadsRequest bytes.now m × IsRequestOf view m))) }
        ensures some { (m : Message) → ReadsRequest bytes.now m → IsSome result }
    {
        let mut decoder = BinDecoder::new(bytes);
        let Some(header) = read_header(&mut decoder) else {
            return None;
        };
        let Some(additionals) = additional_count(header.counts) else {
            return None;
        };
        let Some(question) = QuestionView::read(&mut decoder) else {
            return None;
        };
        let Some(edns) = read_last(&mut decoder, additionals) else {
            return None;
        };
        Some(RequestView {
            metadata: extended(&edns, header.metadata),
            question,
            edns,
        })
    }
}

ghost use Rattle.dns_messages.specs.Header.{code_number};
ghost use Rattle.dns_message_bytes.specs.view.Request.{ReadsLast, MatchEdns, extended_by, request_counts};

/// Reads the header. Returns `None` if there are fewer than twelve bytes.
pub(crate) fn read_header(decoder: &mut BinDecoder<'_>) -> Option<Header>
    requires { decoder.old.index ≡ 0 }
    ensures read { IfSome result (λ header. DecodesHeader decoder.old.bytes 0 header 12) }
    ensures index { IfSome result (λ _. decoder.new.index ≡ 12) }
    ensures none { result ≡ None → length decoder.old.bytes < 12 }
    ensures bytes { decoder.new.bytes ≡ decoder.old.bytes }
{
    let Ok(bytes) = decoder.read_slice(HEADER_LEN) else {
        return None;
    };
    Some(header_of(bytes))
}

/// Decodes a header from its twelve bytes.
fn header_of(bytes: &[u8]) -> Header
    requires { length bytes.now ≡ HEADER_LEN }
    ensures { DecodesHeader bytes.now 0 result HEADER_LEN }
{
    let id = u16::from_be_bytes([bytes[0], bytes[1]]);
    let queries = u16::from_be_bytes([bytes[4], bytes[5]]);
    let answers = u16::from_be_bytes([bytes[6], bytes[7]]);
    let authorities = u16::from_be_bytes([bytes[8], bytes[9]]);
    let additionals = u16::from_be_bytes([bytes[10], bytes[11]]);
    Header {
        metadata: Metadata::from_bytes(id, bytes[2], bytes[3]),
        counts: HeaderCounts {
            queries,
            answers,
            authorities,
            additionals,
        },
    }
}

/// Returns the number of additional records, if the other sections have the lengths of those of a request: one question, no
/// answer and no authority record.
fn additional_count(counts: HeaderCounts) -> Option<u16>
    ensures some { IfSome result (λ count. counts ≡ request_counts count) }
    ensures none { result ≡ None → (count : ℕ) → counts ≡ request_counts count → ⊥ }
{
    if counts.queries == 1 && counts.answers == 0 && counts.authorities == 0 {
        Some(counts.additionals)
    } else {
        None
    }
}

/// Reads the additional section of a request, which has so many records: none, or an OPT record. Returns `None` if it has any
/// other.
fn read_last<'a>(decoder: &mut BinDecoder<'a>, count: u16) -> Option<Option<EdnsView<'a>>>
    ensures read { IfSome result (λ view. (edns : Option Edns)
        × (ReadsLast (rest decoder.old) count edns × MatchEdns view edns)) }
    ensures none { result ≡ None → (edns : Option Edns)
        → ReadsLast (rest decoder.old) count edns → ⊥ }
{
    match count {
        0 => Some(None),
        1 => match EdnsView::read(decoder) {
            Some(edns) => Some(Some(edns)),
            None => None,
        },
        _ => None,
    }
}

/// Returns the metadata of a header with the upper eight bits of the response code, which the OPT record has (RFC 6891 section
/// 6.1.3).
fn extended(edns: &Option<EdnsView<'_>>, metadata: Metadata) -> Metadata
    requires { code_number metadata.response_code < 16 }
    ensures { result ≡ extended_by edns.now metadata }
{
    let mut metadata = metadata;
    if let Some(edns) = edns {
        metadata.merge_response_code(edns.rcode_high);
    }
    metadata
}
