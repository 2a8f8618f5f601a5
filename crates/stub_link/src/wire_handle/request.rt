//! Which requests can be asked, and the datagrams of requests.

ghost use Rattle.std.specs.Prelude.{◌≡◌, IfOk, IfSome, None};
ghost use Rattle.std.specs.Option.{option_copied};
ghost use Rattle.dns_messages.specs.declared.query.Query.{Query};
ghost use Rattle.stub_link.specs.Link.{Encodes};
ghost use Rattle.stub_link.specs.Request.{IsQuestion, IsWhole};

use dns_message_bytes::soundness::{fits_uncompressed, is_sound};
use dns_messages::laws::messages_within_the_limit_are_not_cut;
use dns_messages::{Message, MessageType, OpCode, Query};
use dns_wire::EncodeError;
use std::alloc::{AllocError, Global};

/// The maximum size of a message, in bytes (RFC 1035 section 4.2.2).
const MAX_MESSAGE_LEN: u16 = 65_535;

/// Returns the question of a request that can be asked: a sound query with one question, of at most 65,535 bytes
/// without compression (RFC 1035 section 4.2.2).
pub fn question_of(request: &Message) -> Option<&Query>
    ensures some { IfSome (option_copied result) (λ q. IsQuestion request.now q) }
    ensures none { result ≡ None → (q : Query) → ¬ IsQuestion request.now q }
{
    let is_query = request.metadata.message_type == MessageType::Query
        && request.metadata.op_code == OpCode::Query;
    let [query] = request.queries.as_slice() else {
        return None;
    };
    if is_query && is_sound(request) && fits_uncompressed(request, MAX_MESSAGE_LEN) {
        Some(query)
    } else {
        None
    }
}

/// Returns the datagram of a request, which has all of it. The request must be sound, and have at most 65,535 bytes
/// without compression.
pub fn request_bytes(alloc: Global, request: &Message) -> Result<Vec<u8>, AllocError>
    requires { IsWhole request.now }
    ensures { IfOk result (λ bytes. Encodes request.now bytes.items) }
{
    messages_within_the_limit_are_not_cut();
    match request.to_vec(alloc) {
        Ok(bytes) => Ok(bytes),
        // The encoder ran out of memory.
        Err(EncodeError::Memory) => Err(AllocError),
        Err(EncodeError::MaxBufferSizeExceeded) => unreachable!(),
    }
}
