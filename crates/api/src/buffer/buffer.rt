//! Bytes for a buffer of the caller.

ghost use Rattle.api.specs.buffer.Buffer.{Delivers, Writes, bytes_in};

use crate::buffer::refusal::Refusal;

/// Writes bytes to the front of a buffer, and their number to `len`.
///
/// The error is [`Refusal::TooSmall`] if they do not fit. Then nothing is written but their number.
pub fn write_bytes(bytes: &[u8], buffer: &mut [u8], len: &mut usize) -> Result<(), Refusal>
    ensures { Writes bytes.now buffer.old result buffer.new len.new }
{
    *len = bytes.len();
    if buffer.len() < bytes.len() {
        return Err(Refusal::TooSmall);
    }
    buffer[..bytes.len()].copy_from_slice(bytes);
    Ok(())
}

/// Writes bytes that were found to the front of a buffer, and their number to `len`.
///
/// The error is why there are none, or [`Refusal::TooSmall`] if they do not fit. Then nothing is written, but for the number
/// of bytes that do not fit.
pub fn deliver(
    found: Result<Vec<u8>, Refusal>,
    buffer: &mut [u8],
    len: &mut usize,
) -> Result<(), Refusal>
    ensures { Delivers (bytes_in (λ bytes. bytes.items) found) buffer.old len.old result
        buffer.new len.new }
{
    match found {
        Ok(bytes) => write_bytes(bytes.as_slice(), buffer, len),
        Err(refusal) => Err(refusal),
    }
}
