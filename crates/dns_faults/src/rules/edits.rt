//! Edits of the bytes of a reply (RFC 1035 sections 4.1.1 and 4.1.2).

ghost use Rattle.std.specs.Prelude.{◌≡◌, ◌+◌, ◌<◌, IfOk, length};
ghost use Rattle.dns_faults.specs.rules.Edits.{garbage, has_question, other_octet, with_next_number, with_wrong_id, with_wrong_question};

use std::alloc::{AllocError, Global};

/// Adds one to the id of a message, modulo 65,536. Fewer than two bytes stay as they are.
pub fn set_wrong_id(message: &mut [u8])
    ensures { message.new ≡ with_wrong_id message.old }
{
    if message.len() >= 2 {
        set_next_number(message, 0);
    }
}

/// Changes the question of a message to another name of the same length: the first octet of its first label becomes `x`, or
/// `y` if it is `x` in either case. Names that point to it change along. A question for the root gets another type: its number
/// plus one, modulo 65,536. A message without a question stays as it is.
pub fn set_wrong_question(message: &mut [u8])
    ensures { message.new ≡ with_wrong_question message.old }
{
    if !has_question(message) {
        return;
    }
    match message[12] {
        0 => set_next_number(message, 13),
        1..=63 => message[13] = other_octet(message[13]),
        _ => {}
    }
}

/// Returns `len` bytes that do not decode: the id, and then 0xFF, cut to this length.
pub fn garbage(alloc: Global, id: u16, len: u16) -> Result<Vec<u8>, AllocError>
    ensures { IfOk result (λ bytes. bytes.items ≡ garbage id len) }
{
    let mut bytes = Vec::new(alloc);
    bytes.extend_from_slice(&id.to_be_bytes())?;
    bytes.resize(2 + usize::from(len), 255)?;
    bytes.truncate(usize::from(len));
    Ok(bytes)
}

/// Adds one to the 16-bit number at a place, modulo 65,536.
fn set_next_number(message: &mut [u8], place: usize)
    requires { place + 1 < length message.old }
    ensures { message.new ≡ with_next_number place message.old }
{
    let number = 256 * u16::from(message[place]) + u16::from(message[place + 1]);
    let next = number.wrapping_add(1);
    message[place] = (next / 256) as u8;
    message[place + 1] = (next % 256) as u8;
}

/// Returns `true` if a message has a question: if QDCOUNT is not 0, and there are enough bytes for one.
fn has_question(message: &[u8]) -> bool
    ensures { result ≡ has_question message.now }
{
    message.len() >= 17 && (message[4] != 0 || message[5] != 0)
}

/// Returns another octet for a label, which is not the same letter in another case.
fn other_octet(octet: u8) -> u8
    ensures { result ≡ other_octet octet }
{
    match octet {
        b'x' | b'X' => b'y',
        _ => b'x',
    }
}
