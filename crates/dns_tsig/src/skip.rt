//! Names, questions and records that are skipped (RFC 1035 sections 4.1.2 to 4.1.4).

ghost use Rattle.std.specs.Prelude.{◌≡◌, drop, option_map};
ghost use Rattle.dns_tsig.specs.Skip.{after_bytes, after_fields, after_labels, after_name, after_plain_name, after_plain_record, after_question, after_questions, after_records, is_tsig};

use crate::numbers::number_at;

/// The number of the type TSIG.
const TSIG: u16 = 250;

/// Returns the bytes from the end of a name's labels on.
fn after_labels(bytes: &[u8]) -> &[u8]
    ensures { result.now ≡ after_labels 0 bytes.now }
{
    let mut rest = bytes;
    while let [code, ..] = rest {
        if *code == 0 || *code >= 64 {
            break;
        }
        rest = after_label(rest, usize::from(*code) + 1);
    }
    rest
}

/// Returns the bytes after the first `len`, none if there are fewer.
fn after_label(bytes: &[u8], len: usize) -> &[u8]
    ensures { result.now ≡ drop len bytes.now }
{
    if len <= bytes.len() {
        &bytes[len..]
    } else {
        &[]
    }
}

/// Returns the bytes after a name, which may end in a pointer.
pub fn after_name(bytes: &[u8]) -> Option<&[u8]>
    ensures { option_map (λ rest. rest.now) result ≡ after_name bytes.now }
{
    match after_labels(bytes) {
        [0, rest @ ..] => Some(rest),
        [192..=255, _, rest @ ..] => Some(rest),
        _ => None,
    }
}

/// Returns the bytes after a name without pointers.
pub fn after_plain_name(bytes: &[u8]) -> Option<&[u8]>
    ensures { option_map (λ rest. rest.now) result ≡ after_plain_name bytes.now }
{
    match after_labels(bytes) {
        [0, rest @ ..] => Some(rest),
        _ => None,
    }
}

/// Returns the bytes after the first `len`, if there are as many.
fn after_bytes(bytes: &[u8], len: usize) -> Option<&[u8]>
    ensures { option_map (λ rest. rest.now) result ≡ after_bytes len bytes.now }
{
    if bytes.len() < len {
        return None;
    }
    Some(&bytes[len..])
}

/// Returns the bytes after a question.
fn after_question(bytes: &[u8]) -> Option<&[u8]>
    ensures { option_map (λ rest. rest.now) result ≡ after_question bytes.now }
{
    match after_name(bytes) {
        Some(fields) => after_bytes(fields, 4),
        None => None,
    }
}

/// Returns the bytes after a number of questions.
pub fn after_questions(bytes: &[u8], count: u16) -> Option<&[u8]>
    ensures { option_map (λ rest. rest.now) result ≡ after_questions count bytes.now }
{
    let mut rest = bytes;
    for _ in 0..count {
        match after_question(rest) {
            Some(more) => rest = more,
            None => return None,
        }
    }
    Some(rest)
}

/// Returns `true` if the type of a record is TSIG, from the bytes after its owner.
pub fn is_tsig(fields: &[u8]) -> bool
    ensures { result ≡ is_tsig fields.now }
{
    fields.len() >= 2 && number_at(fields, 0) == TSIG
}

/// Returns the bytes after a record, from those after its owner.
pub fn after_fields(fields: &[u8]) -> Option<&[u8]>
    ensures { option_map (λ rest. rest.now) result ≡ after_fields fields.now }
{
    if fields.len() < 10 {
        return None;
    }
    after_bytes(&fields[10..], usize::from(number_at(fields, 8)))
}

/// Returns the bytes after a record that is not a TSIG record.
fn after_plain_record(bytes: &[u8]) -> Option<&[u8]>
    ensures { option_map (λ rest. rest.now) result ≡ after_plain_record bytes.now }
{
    match after_name(bytes) {
        Some(fields) => {
            if is_tsig(fields) {
                return None;
            }
            after_fields(fields)
        }
        None => None,
    }
}

/// Returns the bytes after a number of records, none of which is a TSIG record.
pub fn after_records(bytes: &[u8], count: u32) -> Option<&[u8]>
    ensures { option_map (λ rest. rest.now) result ≡ after_records count bytes.now }
{
    let mut rest = bytes;
    for _ in 0..count {
        match after_plain_record(rest) {
            Some(more) => rest = more,
            None => return None,
        }
    }
    Some(rest)
}
