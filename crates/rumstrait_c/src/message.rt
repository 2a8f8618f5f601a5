//! Messages in buffers of the caller.

ghost use Rattle.api.specs.messages.Messages.{IsEncodedAgain, IsNotEncodedAgain, IsTextOf, IsUndecoded};
ghost use Rattle.api.specs.messages.Questions.{AsksQuestion, IsUnasked};
ghost use Rattle.rumstrait_c.specs.Codes.{Gives};

use crate::codes::result_code;
use api::buffer::deliver;
use api::messages::{encode_again, message_text, question_bytes};
use std::alloc::Global;

/// Writes a message in the layout of dig.
#[unsafe(no_mangle)]
pub extern "C" fn rumstrait_message_text(
    alloc: Global,
    message: &[u8],
    text: &mut [u8],
    len: &mut usize,
) -> i32
    ensures { Gives (IsTextOf message.now) (IsUndecoded message.now) result text.old text.new
        len.old len.new }
{
    result_code(deliver(message_text(alloc, message), text, len))
}

/// Decodes a message, and writes the bytes that it is encoded as.
#[unsafe(no_mangle)]
pub extern "C" fn rumstrait_message_encode(
    alloc: Global,
    message: &[u8],
    bytes: &mut [u8],
    len: &mut usize,
) -> i32
    ensures { Gives (IsEncodedAgain message.now) (IsNotEncodedAgain message.now) result bytes.old
        bytes.new len.old len.new }
{
    result_code(deliver(encode_again(alloc, message), bytes, len))
}

/// Writes a query for the records of a name and a type.
#[unsafe(no_mangle)]
pub extern "C" fn rumstrait_question(
    alloc: Global,
    id: u16,
    name: &[u8],
    query_type: u16,
    recursion_desired: bool,
    use_edns: bool,
    bytes: &mut [u8],
    len: &mut usize,
) -> i32
    ensures { Gives (AsksQuestion id name.now query_type recursion_desired use_edns)
        (IsUnasked id name.now query_type recursion_desired use_edns) result bytes.old bytes.new
        len.old len.new }
{
    let found = question_bytes(alloc, id, name, query_type, recursion_desired, use_edns);
    result_code(deliver(found, bytes, len))
}
