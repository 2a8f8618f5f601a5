//! Headers and entries are appended to bytes.

ghost use Rattle.std.specs.Prelude.{◌≡◌, ◌<◌, ◌+◌, ◌^◌, ◌++◌, length, IfOk, OnOk, OnErr};
ghost use Rattle.dns_journal.specs.format.Format.{entry, first_link, front, header, next, IsShort};

use crate::format::link::Link;
use crate::format::sealing::{check, head_seal, seal, word};
use std::alloc::AllocError;

/// The number of bytes of the identity of a journal: a digest of 32 bytes, and a key of 16.
pub const HEAD_LEN: usize = 48;

/// The number of bytes of a header.
pub const HEADER_LEN: usize = 64;

/// The number of bytes of the frame of an entry.
pub(crate) const FRAME_LEN: usize = 28;

/// The greatest length of a payload, in bytes. A batch of requests is much shorter: 64 of at most 65,535 bytes.
pub const MAX_PAYLOAD_LEN: usize = 8_388_607;

/// The bytes with which a header begins: `dnsjrnl2`.
pub(crate) const MAGIC: [u8; 8] = [100, 110, 115, 106, 114, 110, 108, 50];

/// The bytes with which a header of the former format begins: `dnsjrnl1`.
pub(crate) const FORMER_MAGIC: [u8; 8] = [100, 110, 115, 106, 114, 110, 108, 49];

/// Appends the header of a journal with an identity: the digest of the text that it belongs to, and its key. Returns the link for the
/// first entry. An error leaves `out` unchanged.
pub fn write_header(out: &mut Vec<u8>, head: &[u8]) -> Result<Link, AllocError>
    requires { length head.now ≡ 48 }
    ensures ok { OnOk result (out.new.items ≡ out.old.items ++ header head.now) }
    ensures link { IfOk result (λ link. link ≡ first_link head.now) }
    ensures err { OnErr result (out.new.items ≡ out.old.items) }
{
    let seal = head_seal(head);
    out.reserve(HEADER_LEN)?;
    out.extend_from_slice(MAGIC.as_slice())?;
    out.extend_from_slice(head)?;
    out.extend_from_slice(word(seal).as_slice())?;
    Ok(Link { seal, number: 0 })
}

/// Returns the front of an entry.
#[tactic(auto, unfolding(crate::specs::format::Format::front))]
pub(crate) fn front(link: Link, len: usize) -> [u8; 20]
    requires number { link.number + 1 < 2 ^ 64 }
    requires small { len < 2 ^ 23 }
    ensures { result ≡ front link.seal (link.number + 1) len }
{
    let [a, b, c, d, e, f, g, h] = link.seal.to_be_bytes();
    let [i, j, k, l, m, n, o, p] = (link.number + 1).to_be_bytes();
    let [q, r, s, t] = (len as u32).to_be_bytes();
    [a, b, c, d, e, f, g, h, i, j, k, l, m, n, o, p, q, r, s, t]
}

/// Appends the entry with a payload that follows a link, and returns the link that it is for the next one. An error leaves `out`
/// unchanged.
pub fn write_entry(
    out: &mut Vec<u8>,
    key: &[u8],
    link: Link,
    payload: &[u8],
) -> Result<Link, AllocError>
    requires number { link.number + 1 < 2 ^ 64 }
    requires short { IsShort payload.now }
    ensures ok { OnOk result (out.new.items ≡ out.old.items ++ entry key.now link payload.now) }
    ensures link { IfOk result (λ after. after ≡ next key.now link payload.now) }
    ensures err { OnErr result (out.new.items ≡ out.old.items) }
{
    let front = front(link, payload.len());
    let sealed = seal(key, front.as_slice(), payload);
    out.reserve(36 + payload.len())?;
    out.extend_from_slice(front.as_slice())?;
    out.extend_from_slice(word(check(key, front.as_slice())).as_slice())?;
    out.extend_from_slice(payload)?;
    out.extend_from_slice(word(sealed).as_slice())?;
    Ok(Link {
        seal: sealed,
        number: link.number + 1,
    })
}
