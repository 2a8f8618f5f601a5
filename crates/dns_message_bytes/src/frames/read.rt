//! Frames are read from a source.

ghost use Rattle.std.specs.Prelude.{◌≡◌, ◌≢◌, ◌<◌, ◌≤◌, ◌++◌, [], length, take, IfOk, OnErr, Err};
ghost use Rattle.dns_message_bytes.specs.frames.Frame.{Rises, ReadsFrame, frame_read};

use crate::frames::error::FrameError;
use crate::frames::source::Source;
use std::alloc::Global;

/// Reads the next frame of a stream, whatever the pieces in which the source gives it, and returns its message, or `None` at
/// the end of the stream. The bytes that follow the frame are not read. Memory is allocated only after the two bytes of the
/// length.
///
/// # Errors
///
/// - [`FrameError::Truncated`] if the stream ends within the frame;
/// - [`FrameError::Failed`] if a read of the source fails;
/// - [`FrameError::Memory`] if the message cannot be allocated.
pub fn read_frame<S: Source>(alloc: Global, source: &mut S) -> Result<Option<Vec<u8>>, FrameError>
    ensures read { ReadsFrame (S.bytes_left source.old) (frame_read result)
        (S.bytes_left source.new) }
    ensures kept { S.failure_count source.old ≤ S.failure_count source.new }
    ensures fails { result ≡ Err FrameError.Failed
        → Rises (S.failure_count source.old) (S.failure_count source.new) }
    ensures decided { length (S.bytes_left source.old) < 2 → result ≢ Err FrameError.Memory }
{
    let mut length = [0u8; 2];
    match fill(source, &mut length)? {
        0 => return Ok(None),
        1 => return Err(FrameError::Truncated),
        _ => {}
    }
    let [high, low] = length;
    let len = usize::from(u16::from_be_bytes([high, low]));
    Ok(Some(read_bytes(alloc, source, len)?))
}

/// Reads a number of bytes.
fn read_bytes<S: Source>(alloc: Global, source: &mut S, len: usize) -> Result<Vec<u8>, FrameError>
    ensures ok { IfOk result (λ bytes. (length bytes.items ≡ len)
        × (S.bytes_left source.old ≡ bytes.items ++ S.bytes_left source.new)) }
    ensures truncated { result ≡ Err FrameError.Truncated
        → (length (S.bytes_left source.old) < len) × (S.bytes_left source.new ≡ []) }
    ensures kept { S.failure_count source.old ≤ S.failure_count source.new }
    ensures fails { result ≡ Err FrameError.Failed
        → Rises (S.failure_count source.old) (S.failure_count source.new) }
{
    let mut bytes = vec![in alloc; 0u8; len]?;
    if fill(source, bytes.as_mut_slice())? < len {
        return Err(FrameError::Truncated);
    }
    Ok(bytes)
}

/// Reads bytes to the front of a buffer until it is full or the stream ends, and returns their number.
fn fill<S: Source>(source: &mut S, buffer: &mut [u8]) -> Result<usize, FrameError>
    ensures within { IfOk result (λ count. count ≤ length buffer.old) }
    ensures front { IfOk result (λ count. S.bytes_left source.old
        ≡ take count buffer.new ++ S.bytes_left source.new) }
    ensures full { IfOk result (λ count. count < length buffer.old
        → S.bytes_left source.new ≡ []) }
    ensures refused { OnErr result (result ≡ Err FrameError.Failed) }
    ensures kept { S.failure_count source.old ≤ S.failure_count source.new }
    ensures fails { OnErr result (Rises (S.failure_count source.old)
        (S.failure_count source.new)) }
{
    let mut filled = 0;
    while filled < buffer.len() {
        match source.read(&mut buffer[filled..]) {
            Ok(0) => return Ok(filled),
            Ok(count) => filled += count,
            Err(()) => return Err(FrameError::Failed),
        }
    }
    Ok(filled)
}
