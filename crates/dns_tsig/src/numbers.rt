//! Numbers in bytes, most significant byte first.

ghost use Rattle.std.specs.Prelude.{◌≡◌, ◌+◌, ◌<◌, length};
ghost use Rattle.dns_tsig.specs.Numbers.{number_at, time_at};

/// Returns the 16-bit number at a place.
pub fn number_at(bytes: &[u8], place: usize) -> u16
    requires { place + 1 < length bytes.now }
    ensures { result ≡ number_at bytes.now place }
{
    256 * u16::from(bytes[place]) + u16::from(bytes[place + 1])
}

/// Returns the 48-bit number at the front of bytes.
pub fn time_at(bytes: &[u8]) -> u64
    requires { 5 < length bytes.now }
    ensures { result ≡ time_at bytes.now }
{
    let high = u64::from(number_at(bytes, 0));
    let middle = u64::from(number_at(bytes, 2));
    let low = u64::from(number_at(bytes, 4));
    (high * 65_536 + middle) * 65_536 + low
}
