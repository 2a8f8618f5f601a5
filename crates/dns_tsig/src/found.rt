//! The TSIG record of a message (RFC 8945 section 5.1).

ghost use Rattle.std.specs.Prelude.{◌≡◌, ◌≤◌, List, ℕ, None, Ok, Err, length, IfOk, IfSome, IsOk};
ghost use Rattle.dns_wire.specs.Element.{element_at};
ghost use Rattle.dns_wire.specs.Reading.{ReadsName};
ghost use Rattle.dns_names.specs.Name.{IsInline};
ghost use Rattle.dns_tsig.specs.Found.{Finds, FindsOwner};
ghost use Rattle.dns_tsig.specs.Layout.{layout_of};

use crate::layout::{Layout, layout_of};
use crate::tsig::{Tsig, read_tsig};
use crate::wire_name::{WireName, canonical_name};
use dns_names::Name;
use dns_wire::{BinDecoder, DecodeError};
use std::alloc::{AllocError, Global};

/// The TSIG record of a message.
#[derive(Drop)]
pub struct Signature<'m> {
    /// Where the record begins in the message.
    pub place: usize,
    /// The name of the key.
    pub name: WireName,
    /// The other fields.
    pub tsig: Tsig<'m>,
}

/// What a message has of TSIG records.
#[derive(Drop)]
pub enum Found<'m> {
    /// The message has no TSIG record.
    Unsigned,
    /// The message ends in its only TSIG record.
    Signed(Signature<'m>),
    /// The sections end early, the message has a TSIG record that is not its last record, or the record cannot be read.
    Malformed,
}

/// Finds the TSIG record of a message.
pub fn find_tsig<'m>(alloc: Global, message: &'m [u8]) -> Result<Found<'m>, AllocError>
    ensures { IfOk result (λ found. Finds message.now found) }
{
    match layout_of(message) {
        Layout::Unsigned => Ok(Found::Unsigned),
        Layout::Malformed => Ok(Found::Malformed),
        Layout::Signed(place) => read_signature(alloc, message, place),
    }
}

/// Reads the TSIG record at a place of a message.
fn read_signature<'m>(
    alloc: Global,
    message: &'m [u8],
    place: usize,
) -> Result<Found<'m>, AllocError>
    requires after_header { 12 ≤ place }
    requires within { place ≤ length message.now }
    requires layout { layout_of message.now ≡ Layout.Signed place }
    ensures { IfOk result (λ found. Finds message.now found) }
{
    let Some(Owner { name, end }) = read_owner(alloc, message, place)? else {
        return Ok(Found::Malformed);
    };
    match read_tsig(&message[end..]) {
        Some(tsig) => Ok(Found::Signed(Signature { place, name, tsig })),
        None => Ok(Found::Malformed),
    }
}

/// The owner of a record, and the place after it.
#[derive(Drop)]
struct Owner {
    name: WireName,
    end: usize,
}

/// Reads the owner of a record. It is `None` if the bytes are no name. A fault of its first element is found, and a name that is stored
/// inline is read, without memory.
fn read_owner(alloc: Global, message: &[u8], place: usize) -> Result<Option<Owner>, AllocError>
    requires { place ≤ length message.now }
    ensures owner { IfOk result (λ owner. FindsOwner message.now place owner) }
    ensures fault { (error : DecodeError) → element_at message.now place ≡ Err error
        → result ≡ Ok None }
    ensures inline { (labels : List (List ℕ)) (end : ℕ)
        → ReadsName message.now place labels end → IsInline labels → IsOk result }
    ensures within { IfOk result (λ owner. IfSome owner (λ found. found.end ≤ length message.now)) }
{
    let mut decoder = BinDecoder::new(message).clone(place);
    match Name::read(alloc, &mut decoder) {
        Ok(name) => Ok(Some(Owner {
            name: canonical_name(&name),
            end: decoder.index(),
        })),
        // The memory for the name was refused.
        Err(DecodeError::Memory) => Err(AllocError),
        Err(_) => Ok(None),
    }
}
