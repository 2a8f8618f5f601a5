//! What is wrong in the text of a zone (RFC 1035 section 5.1).

ghost use Rattle.std.specs.Prelude.{◌≡◌, IfErr, IfOk, OnErr};
ghost use Rattle.api.specs.zones.Faults.{IsFaultIn, IsUnread, FindsFault, line_of, sentence_of};

use crate::buffer::{Refusal, origin_in, text_in};
use dns_zone::{Zone, ZoneFault};
use dns_zone_file::Types;
use std::alloc::{AllocError, Global};
use zone_check::findings::fault_advice;

/// Returns what is wrong in a text that is not the zone file of a zone under an origin, as for `read_zone`, a semicolon, a blank and
/// what to write instead, and writes the line of the fault, from 1, to `line`, or 0 if the fault has none. If nothing is wrong, the
/// sentence is empty, and the line 0.
///
/// # Errors
///
/// - [`Refusal::Encoding`] if the text is not UTF-8;
/// - [`Refusal::Name`] if the origin is no name;
/// - [`Refusal::Memory`] if memory is refused.
pub fn zone_fault(
    alloc: Global,
    text: &[u8],
    origin: &[u8],
    line: &mut usize,
) -> Result<Vec<u8>, Refusal>
    ensures fault { IfOk result (λ sentence.
        FindsFault origin.now text.now line.new sentence.items) }
    ensures refused { IfErr result (IsUnread origin.now text.now) }
    ensures err { OnErr result (line.new ≡ line.old) }
{
    match fault_in(alloc, text, origin)? {
        Some(fault) => {
            let sentence = sentence_of(alloc, &fault)?;
            *line = line_of(&fault);
            Ok(sentence)
        }
        None => {
            *line = 0;
            Ok(Vec::new(alloc))
        }
    }
}

/// Returns what a fault says, and what to write instead.
fn sentence_of(alloc: Global, fault: &ZoneFault) -> Result<Vec<u8>, AllocError>
    ensures { IfOk result (λ sentence. sentence.items ≡ sentence_of fault.now) }
{
    let advice = fault_advice(Types::Nine, fault);
    let mut sentence = Vec::new(alloc);
    sentence.extend_from_slice(advice.reason.as_bytes())?;
    sentence.extend_from_slice(b"; ")?;
    sentence.extend_from_slice(advice.hint.as_bytes())?;
    Ok(sentence)
}

/// Returns the fault of a text, or none if it is the zone file of a zone.
fn fault_in(alloc: Global, text: &[u8], origin: &[u8]) -> Result<Option<ZoneFault>, Refusal>
    ensures found { IfOk result (IsFaultIn origin.now text.now) }
    ensures refused { IfErr result (IsUnread origin.now text.now) }
{
    let text = text_in(text)?;
    let origin = origin_in(alloc, origin)?;
    match Zone::from_text(alloc, text, &[], origin.as_ref()) {
        Ok(zone) => {
            drop(zone);
            Ok(None)
        }
        // Memory was refused while the zone was read.
        Err(ZoneFault::Memory) => Err(Refusal::Memory),
        Err(fault) => Ok(Some(fault)),
    }
}

/// Returns the line of a fault, from 1, or 0 if it has none.
fn line_of(fault: &ZoneFault) -> usize
    ensures { result ≡ line_of fault.now }
{
    match fault {
        ZoneFault::Parse(error) => error.line().unwrap_or(0),
        _ => 0,
    }
}
