//! Comparison in constant time.

ghost use Rattle.std.specs.Prelude.{◌≡◌, ◌↔◌, IsTrue};

/// Returns `true` if two codes are equal. All bytes of codes of one length are compared, wherever they differ, so that the time
/// tells nothing about a code but its length (RFC 8945 section 10).
pub fn is_same(code: &[u8], other: &[u8]) -> bool
    ensures { IsTrue result ↔ (code.now ≡ other.now) }
{
    if code.len() != other.len() {
        return false;
    }
    let mut difference = 0;
    for i in 0..code.len() {
        difference |= code[i] ^ other[i];
    }
    difference == 0
}
