//! Messages that can be encoded, and decoded as themselves (RFC 1035 section 4.1, RFC 6891 section 6.1, RFC 2136 section 2).

ghost use Rattle.std.specs.Prelude.{◌≡◌, ◌<◌, ◌^◌, ◌↔◌, IfSome, IsTrue};
ghost use Rattle.std.specs.List.{AllByRecursion};
ghost use Rattle.std.specs.Option.{option_copied};
ghost use Rattle.dns_messages.specs.Edns.{IsSoundEdns};
ghost use Rattle.dns_messages.specs.Sound.{IsExtendedBy, IsSound, IsSoundMetadata, IsSoundQuery, IsSoundSignature};

use crate::soundness::code::{is_named_code, is_named_op_code};
use crate::soundness::rdata::is_sound_options;
use crate::soundness::record::{are_sound_in, is_sound_signature};
use dns_messages::{Edns, Message, Metadata, OpCode, Query, Record, ResponseCode};

/// Returns `true` if a message can be encoded, and decoded as itself.
///
/// Its names are fully qualified, its codes, types and classes are the variants that their numbers decode to, and its data is
/// sound. Its OPT record announces at least 512 bytes, and has the upper bits of the response code. No section has an OPT
/// record or a TSIG record with data, and only those of an update have records without data.
pub fn is_sound(message: &Message) -> bool
    ensures sound { IsTrue result → IsSound message.now }
    ensures only { IsSound message.now → IsTrue result }
{
    let is_update = matches!(message.metadata.op_code, OpCode::Update);
    let has_metadata = is_sound_metadata(message.metadata);
    let has_queries = are_sound_queries(message.queries.as_slice());
    let has_answers = are_sound_in(is_update, message.answers.as_slice());
    let has_authorities = are_sound_in(is_update, message.authorities.as_slice());
    let has_additionals = are_sound_in(is_update, message.additionals.as_slice());
    let has_edns = is_sound_edns_of(message.edns.as_ref(), message.metadata.response_code);
    let has_signature = is_sound_signature_of(message.signature());
    has_metadata
        && has_queries
        && has_answers
        && has_authorities
        && has_additionals
        && has_edns
        && has_signature
}

/// Returns `true` if the codes of a header are the variants that their numbers decode to, and fit their bits.
fn is_sound_metadata(metadata: Metadata) -> bool
    ensures sound { IsTrue result → IsSoundMetadata metadata }
    ensures only { IsSoundMetadata metadata → IsTrue result }
{
    let _id = metadata.id;
    let has_op_code = is_named_op_code(metadata.op_code);
    has_op_code && is_named_code(metadata.response_code)
}

/// Returns `true` if each question is sound.
fn are_sound_queries(queries: &[Query]) -> bool
    ensures sound { IsTrue result → AllByRecursion IsSoundQuery queries.now }
    ensures only { AllByRecursion IsSoundQuery queries.now → IsTrue result }
{
    for query in queries {
        if !query.is_sound() {
            return false;
        }
    }
    true
}

/// Returns `true` if an OPT record can be encoded, and decoded as itself.
fn is_sound_edns(edns: &Edns) -> bool
    ensures sound { IsTrue result → IsSoundEdns edns.now }
    ensures only { IsSoundEdns edns.now → IsTrue result }
{
    let _bytes = (edns.rcode_high(), edns.version());
    let has_flags = edns.flags().z < 1 << 15;
    let has_payload = edns.max_payload() >= 512;
    has_flags && has_payload && is_sound_options(edns.options())
}

/// Returns `true` if the OPT record of a message, if it has one, is sound and has the upper eight bits of the response code;
/// without one, the code has four bits (RFC 6891 section 6.1.3).
fn is_sound_edns_of(edns: Option<&Edns>, code: ResponseCode) -> bool
    ensures sound { IsTrue result → IfSome (option_copied edns.entry) IsSoundEdns
        × IsExtendedBy (option_copied edns.entry) code }
    ensures only { IfSome (option_copied edns.entry) IsSoundEdns
        → IsExtendedBy (option_copied edns.entry) code → IsTrue result }
{
    let number = u16::from(code);
    match edns {
        Some(edns) => u16::from(edns.rcode_high()) == number / 16 && is_sound_edns(edns),
        None => number < 16,
    }
}

/// Returns `true` if the signature of a message, if it has one, is sound.
fn is_sound_signature_of(signature: Option<&Record>) -> bool
    ensures sound { IsTrue result → IfSome (option_copied signature.entry) IsSoundSignature }
    ensures only { IfSome (option_copied signature.entry) IsSoundSignature → IsTrue result }
{
    match signature {
        Some(signature) => is_sound_signature(signature),
        None => true,
    }
}
