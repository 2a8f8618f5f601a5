//! Edits of the bytes of a reply.

ghost use Rattle.std.specs.Prelude.{◌≡◌, IfOk};
ghost use Rattle.dns_faults.specs.Edited.{with_edits};

use crate::rules::{Fault, garbage, set_wrong_id, set_wrong_question};
use std::alloc::{AllocError, Global};

/// Returns a reply to a request with this id as a fault edits its bytes: with the wrong id, with the wrong question, or with garbage in
/// its place, in this order.
pub fn edited_reply(
    alloc: Global,
    fault: &Fault,
    id: u16,
    mut reply: Vec<u8>,
) -> Result<Vec<u8>, AllocError>
    ensures { IfOk result (λ bytes. bytes.items ≡ with_edits fault.now id reply.items) }
{
    if fault.wrong_id {
        set_wrong_id(reply.as_mut_slice());
    }
    if fault.wrong_question {
        set_wrong_question(reply.as_mut_slice());
    }
    match fault.garbage {
        Some(len) => garbage(alloc, id, len),
        None => Ok(reply),
    }
}
