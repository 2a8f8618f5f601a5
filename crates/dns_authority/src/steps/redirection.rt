//! Redirection by DNAME records (RFC 6672).

ghost use Rattle.std.specs.Prelude.{◌≡◌, ◌≢◌, IfOk, Ok, List, [], ℕ, Option, None, false, option_map, take};
ghost use Rattle.dns_names.specs.Name.{DomainName};
ghost use Rattle.dns_authority.specs.steps.Redirection.{dname_target, name_of_bytes, split_label, with_label, with_target};

use dns_data::RData;
use dns_names::{Name, ParseError};
use std::alloc::{AllocError, Global};

/// The most labels that a name has, with the root's.
const MAX_LABELS: usize = 128;

/// Returns the target of a DNAME record: the name that all bytes of its data encode, without compression (RFC 6672 section
/// 2.1). Data that is no name has none.
pub fn dname_target(alloc: Global, rdata: &RData) -> Result<Option<Name>, AllocError>
    ensures { IfOk result (λ target. target ≡ dname_target rdata.now) }
{
    match rdata {
        RData::Unknown {
            code: _code,
            rdata: bytes,
        } => name_of_bytes(alloc, bytes.as_slice()),
        _ => Ok(None),
    }
}

/// Returns the name that all of the bytes encode, without compression.
fn name_of_bytes(alloc: Global, bytes: &[u8]) -> Result<Option<Name>, AllocError>
    ensures { IfOk result (λ name. name ≡ name_of_bytes bytes.now) }
{
    let mut name = Name::root(alloc);
    let mut rest = bytes;
    for _ in 0..MAX_LABELS {
        let Some((label, left)) = split_label(rest) else {
            return Ok(None);
        };
        if label.is_empty() {
            return Ok(closed(name, left));
        }
        name = match name.append_label(label) {
            Ok(longer) => longer,
            Err(error) => return refused(error),
        };
        rest = left;
    }
    Ok(None)
}

/// Returns a name if no bytes are left after it.
fn closed(name: Name, left: &[u8]) -> Option<Name>
    ensures { (rest : DomainName → List ℕ → Option DomainName)
        → result ≡ with_label rest name [] left.now }
{
    if left.is_empty() { Some(name) } else { None }
}

/// Splits the label at the front of bytes, after its length, from the bytes after it. The root's label is empty.
fn split_label(bytes: &[u8]) -> Option<(&[u8], &[u8])>
    ensures { option_map (λ part. (part.0.now, part.1.now)) result ≡ split_label bytes.now }
{
    let (len, after) = bytes.split_first()?;
    let len = usize::from(*len);
    if after.len() < len {
        return None;
    }
    Some((&after[..len], &after[len..]))
}

/// Returns the first `kept` labels of a name with a target appended, or `None` if that has more than 255 bytes (RFC 6672
/// section 2.2).
pub fn with_target(
    alloc: Global,
    name: &Name,
    kept: usize,
    target: &Name,
) -> Result<Option<Name>, AllocError>
    ensures { IfOk result (λ made. made ≡ with_target name.now kept target.now) }
{
    let front = first_labels(alloc, name, kept)?;
    match front.append_name(target) {
        Ok(made) => Ok(Some(made)),
        Err(error) => refused(error),
    }
}

/// Returns `None` for an error that is not want of memory.
fn refused(error: ParseError) -> Result<Option<Name>, AllocError>
    ensures ok { IfOk result (λ name. (error ≢ ParseError.Memory) × (name ≡ None)) }
    ensures decided { error ≢ ParseError.Memory → result ≡ Ok None }
{
    match error {
        // The memory for the name was refused.
        ParseError::Memory => Err(AllocError),
        _ => Ok(None),
    }
}

/// Returns the first `kept` labels of a name, as a relative name.
fn first_labels(alloc: Global, name: &Name, kept: usize) -> Result<Name, AllocError>
    ensures { IfOk result (λ front.
        front ≡ record { is_fqdn = false; labels = take kept name.now.labels }) }
{
    let mut front = Name::new(alloc);
    let mut labels = name.iter();
    for _ in 0..kept {
        let Some(label) = labels.next() else {
            return Ok(front);
        };
        front = match front.append_label(label) {
            Ok(longer) => longer,
            // Labels of a name are appended, so that only memory can be refused.
            Err(_) => return Err(AllocError),
        };
    }
    Ok(front)
}
