//! Sources of the bytes of a stream.

ghost use Rattle.std.specs.Prelude.{◌≡◌, ◌≤◌, ◌<◌, ◌++◌, [], take, length, IfOk, OnErr, Ok};
ghost use Rattle.dns_message_bytes.specs.frames.Frame.{Rises, ReadsFront};

/// Gives the bytes of a stream in pieces.
pub trait Source {
    ghost use Rattle.std.specs.Prelude.{List, ℕ};

    /// The bytes that are left to read.
    ghost bytes_left: { Self → List ℕ };

    /// The number of reads that failed.
    ghost failure_count: { Self → ℕ };

    /// Reads bytes to the front of a buffer, and returns their number, which is 0 only if none are left or the buffer is
    /// empty.
    fn read(&mut self, buffer: &mut [u8]) -> Result<usize, ()>
        ensures ok { IfOk result (ReadsFront (bytes_left self.old) (length buffer.old) buffer.new
            (bytes_left self.new)) }
        ensures kept { failure_count self.old ≤ failure_count self.new }
        ensures fails { OnErr result (Rises (failure_count self.old) (failure_count self.new)) };

    /// Returns the number of reads that failed, which stays at `u64::MAX` once it is there.
    fn failures(&self) -> u64
        ensures { result ≡ failure_count self.now };
}
