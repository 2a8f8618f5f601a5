//! Frames are appended to bytes.

ghost use Rattle.std.specs.Prelude.{◌≡◌, ◌≤◌, ◌+◌, ◌++◌, length, IsOk, OnOk, OnErr, vec_len, vec_capacity};
ghost use Rattle.dns_message_bytes.specs.frames.Frame.{frame};

use std::alloc::AllocError;

/// Appends the frame of a message. An error leaves `out` unchanged. It does not fail if `out` has the capacity for the frame.
pub fn write_frame(out: &mut Vec<u8>, bytes: &[u8]) -> Result<(), AllocError>
    requires { length bytes.now ≤ 65535 }
    ensures ok { OnOk result (out.new.items ≡ out.old.items ++ frame bytes.now) }
    ensures memory { OnErr result (out.new.items ≡ out.old.items) }
    ensures decided { vec_len out.old + 2 + length bytes.now ≤ vec_capacity out.old
        → IsOk result }
{
    out.reserve(2 + bytes.len())?;
    out.extend_from_slice(&(bytes.len() as u16).to_be_bytes())?;
    out.extend_from_slice(bytes)
}
