//! The first frame of bytes (RFC 1035 section 4.2.2).

ghost use Rattle.std.specs.Prelude.{◌≡◌, ◌≤◌};
ghost use Rattle.std.specs.Option.{option_copied};
ghost use Rattle.dns_message_bytes.specs.frames.Frame.{frame_len};
ghost use Rattle.dns_server.specs.Connection.{first_message};

/// Returns the number of bytes of the first frame: two, and as many as these say, if they are there.
pub(crate) fn frame_len(bytes: &[u8]) -> usize
    ensures len { result ≡ frame_len bytes.now }
    ensures most { result ≤ 65537 }
{
    match bytes {
        [high, low, ..] => 2 + usize::from(u16::from_be_bytes([*high, *low])),
        _ => 2,
    }
}

/// Returns the message of the first frame, or `None` if only a part of the frame is there.
pub(crate) fn first_message(bytes: &[u8]) -> Option<&[u8]>
    ensures { option_copied result ≡ first_message bytes.now }
{
    let len = frame_len(bytes);
    if len <= bytes.len() {
        Some(&bytes[2..len])
    } else {
        None
    }
}
