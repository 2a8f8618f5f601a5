//! Queries (RFC 1035 section 4.1).

ghost use Rattle.std.specs.Prelude.{◌≡◌, IfErr, IfOk};
ghost use Rattle.api.specs.messages.Questions.{AsksQuestion, IsUnasked, question_message};

use crate::buffer::{Refusal, name_in};
use crate::messages::encoding::encode;
use dns_messages::{Edns, Message, Query};
use dns_names::Name;
use dns_wire::RecordType;
use std::alloc::{AllocError, Global};

/// Returns the bytes of a query for the records of a name and a type, with RD or not, and with an OPT record or not.
///
/// # Errors
///
/// - [`Refusal::Name`] if the text is no name;
/// - [`Refusal::Memory`] if memory is refused.
pub fn question_bytes(
    alloc: Global,
    id: u16,
    name: &[u8],
    query_type: u16,
    recursion_desired: bool,
    use_edns: bool,
) -> Result<Vec<u8>, Refusal>
    ensures bytes { IfOk result (λ bytes.
        AsksQuestion id name.now query_type recursion_desired use_edns bytes.items) }
    ensures refused { IfErr result (IsUnasked id name.now query_type recursion_desired use_edns) }
{
    let name = name_in(alloc, name)?;
    let message = question(alloc, id, name, query_type, recursion_desired, use_edns)?;
    encode(alloc, &message)
}

/// Returns a query.
fn question(
    alloc: Global,
    id: u16,
    name: Name,
    query_type: u16,
    recursion_desired: bool,
    use_edns: bool,
) -> Result<Message, AllocError>
    ensures { IfOk result (λ message.
        message ≡ question_message id name query_type recursion_desired use_edns) }
{
    let mut message = Message::query(alloc, id);
    message.metadata.recursion_desired = recursion_desired;
    message.add_query(Query::query(name, RecordType::from(query_type)))?;
    if use_edns {
        message.set_edns(Edns::new(alloc));
    }
    Ok(message)
}
