//! Whether messages fit a limit without compression (RFC 1035 section 4.1.4).

ghost use Rattle.std.specs.Prelude.{◌≡◌, ◌+◌, ◌<◌, ◌≤◌, ◌↔◌, IfSome, IsTrue, None, length};
ghost use Rattle.dns_messages.specs.Cut.{edns_item, items_len, listed, query_item, record_item, uncompressed_len};
ghost use Rattle.dns_message_bytes.specs.soundness.Size.{record_len};
ghost use Rattle.std.specs.Option.{option_copied};

use dns_messages::{Edns, Message, Query, Record};

/// The length of a header, in bytes (RFC 1035 section 4.1.1).
const HEADER_LEN: u128 = 12;

/// The length of the type and the class of a question, in bytes (RFC 1035 section 4.1.2).
const QUERY_FIELDS_LEN: u128 = 4;

/// The length of type, class, TTL and data length of a record, in bytes (RFC 1035 section 4.1.3).
const RECORD_FIELDS_LEN: u128 = 10;

/// Returns `true` if a message has at most `limit` bytes without compression.
pub fn fits_uncompressed(message: &Message, limit: u16) -> bool
    ensures { IsTrue result ↔ (uncompressed_len message.now ≤ limit) }
{
    left_of(message, u128::from(limit)).is_some()
}

/// Returns how many of `left` bytes are left after a message without compression, or `None` if it has more bytes.
fn left_of(message: &Message, left: u128) -> Option<u128>
    ensures some { IfSome result (λ rest. rest + uncompressed_len message.now ≡ left) }
    ensures none { result ≡ None → left < uncompressed_len message.now }
{
    let left = left_after(HEADER_LEN, left)?;
    let left = left_after_queries(message.queries.as_slice(), left)?;
    let left = left_after_records(message.answers.as_slice(), left)?;
    let left = left_after_records(message.authorities.as_slice(), left)?;
    let left = left_after_records(message.additionals.as_slice(), left)?;
    let left = left_after_edns(message.edns.as_ref(), left)?;
    left_after_signature(message.signature(), left)
}

/// Returns how many of `left` bytes are left after `len` bytes.
fn left_after(len: u128, left: u128) -> Option<u128>
    ensures some { IfSome result (λ rest. rest + len ≡ left) }
    ensures none { result ≡ None → left < len }
{
    left.checked_sub(len)
}

/// Returns how many of `left` bytes are left after questions.
fn left_after_queries(queries: &[Query], mut left: u128) -> Option<u128>
    ensures some { IfSome result (λ rest. rest + items_len query_item queries.now ≡ left) }
    ensures none { result ≡ None → left < items_len query_item queries.now }
{
    for query in queries {
        let len = query.name.encoded_len() as u128 + QUERY_FIELDS_LEN;
        left = left_after(len, left)?;
    }
    Some(left)
}

/// Returns how many of `left` bytes are left after records.
fn left_after_records(records: &[Record], mut left: u128) -> Option<u128>
    ensures some { IfSome result (λ rest. rest + items_len record_item records.now ≡ left) }
    ensures none { result ≡ None → left < items_len record_item records.now }
{
    for resource_record in records {
        left = left_after_record(resource_record, left)?;
    }
    Some(left)
}

/// Returns how many of `left` bytes are left after a record.
fn left_after_record(resource_record: &Record, left: u128) -> Option<u128>
    ensures some { IfSome result (λ rest. rest + record_len resource_record.now ≡ left) }
    ensures none { result ≡ None → left < record_len resource_record.now }
{
    let head = resource_record.name.encoded_len() as u128 + RECORD_FIELDS_LEN;
    let left = left_after(head, left)?;
    left_after(resource_record.rdata.encoded_len(), left)
}

/// Returns how many of `left` bytes are left after the OPT record of a message, if it has one: it is owned by the root.
fn left_after_edns(edns: Option<&Edns>, left: u128) -> Option<u128>
    ensures some { IfSome result (λ rest.
        rest + items_len edns_item (listed (option_copied edns.entry)) ≡ left) }
    ensures none { result ≡ None
        → left < items_len edns_item (listed (option_copied edns.entry)) }
{
    let Some(edns) = edns else {
        return Some(left);
    };
    let left = left_after(1 + RECORD_FIELDS_LEN, left)?;
    left_after(edns.options().encoded_len(), left)
}

/// Returns how many of `left` bytes are left after the signature of a message, if it has one.
fn left_after_signature(signature: Option<&Record>, left: u128) -> Option<u128>
    ensures some { IfSome result (λ rest.
        rest + items_len record_item (listed (option_copied signature.entry)) ≡ left) }
    ensures none { result ≡ None
        → left < items_len record_item (listed (option_copied signature.entry)) }
{
    match signature {
        Some(signature) => left_after_record(signature, left),
        None => Some(left),
    }
}
