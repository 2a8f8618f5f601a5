//! Requests that do not decode: the reply to them, and whether they have an OPT record (RFC 1035 section 4.1.1, RFC 6891 section 7).

ghost use Rattle.std.specs.Prelude.{◌≡◌, false, List, IfOk};
ghost use Rattle.dns_messages.specs.Emit.{lent};
ghost use Rattle.dns_messages.specs.Encoding.{Encodes};
ghost use Rattle.dns_authority.specs.replies.Malformed.{IsOptFound, malformed_metadata, malformed_reply, plain_edns};

use crate::replies::reply_ref::ReplyRef;
use dns_message_bytes::view::{MessageView, RecordViews};
use dns_messages::{Edns, Metadata, ResponseCode};
use dns_wire::RecordType;
use std::alloc::{AllocError, Global};

/// The number of bytes that every reply may have (RFC 1035 section 4.2.1).
const LEAST_LIMIT: u16 = 512;

/// Returns the bytes of the reply to a malformed request with this header: it has the code `FormErr`, and an OPT record if the request
/// has one.
pub(crate) fn malformed_bytes(
    alloc: Global,
    request: &Metadata,
    has_opt: bool,
) -> Result<Vec<u8>, AllocError>
    ensures { IfOk result (λ out. Encodes 512 (malformed_reply has_opt request.now) out.items) }
{
    let edns = edns_if(alloc, has_opt);
    bytes_with(alloc, request, edns.as_ref())
}

/// Returns the bytes of the reply to a malformed request with an OPT record.
fn bytes_with<'a>(
    alloc: Global,
    request: &Metadata,
    edns: Option<&'a Edns>,
) -> Result<Vec<u8>, AllocError>
    ensures { IfOk result (λ out. Encodes 512
        (record (malformed_reply false request.now) { edns = lent edns.entry }) out.items) }
{
    let reply = ReplyRef {
        metadata: malformed_metadata(request),
        queries: &[],
        answers: &[],
        authorities: &[],
        additionals: &[],
        edns,
    };
    reply.prefix(alloc, LEAST_LIMIT)
}

/// Returns the OPT record of the reply to a malformed request, if it has one, without taking memory.
fn edns_if(alloc: Global, has_opt: bool) -> Option<Edns>
    ensures { result ≡ plain_edns has_opt }
{
    if has_opt {
        Some(Edns::new(alloc))
    } else {
        None
    }
}

/// Returns the header of the reply to a malformed request.
fn malformed_metadata(request: &Metadata) -> Metadata
    ensures { result ≡ malformed_metadata request.now }
{
    Metadata {
        response_code: ResponseCode::FormErr,
        ..Metadata::response_from_request(request)
    }
}

/// Returns `true` if bytes have the form of a message with an OPT record in its additional section, whatever the data of its records.
pub(crate) fn has_opt(bytes: &[u8]) -> bool
    ensures { IsOptFound bytes.now result }
{
    match MessageView::of(bytes) {
        Ok(view) => is_opt_among(view.additionals()),
        Err(_) => false,
    }
}

ghost use Rattle.dns_message_bytes.specs.view.RecordView.{RawRecord};
ghost use Rattle.dns_message_bytes.specs.view.RecordViews.{HasRecords};
ghost use Rattle.dns_authority.specs.replies.Malformed.{has_raw_opt};

/// Returns `true` if one of these records is an OPT record.
fn is_opt_among(records: RecordViews<'_>) -> bool
    ensures { (rs : List RawRecord) → HasRecords records.entry rs → result ≡ has_raw_opt rs }
{
    for record in records {
        if let RecordType::OPT = record.record_type {
            return true;
        }
    }
    false
}
