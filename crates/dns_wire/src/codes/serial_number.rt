//! Serial numbers of zones (RFC 1982).

/// A serial number of 32 bits.
#[derive(Clone, Copy, Debug, PartialEq, Eq)]
pub struct SerialNumber(u32);

/// The order of two serial numbers (RFC 1982 section 3.2).
#[derive(Clone, Copy, Debug, PartialEq, Eq)]
pub enum SerialOrder {
    /// The first is less: 1 to 2^31 - 1 increments lead from it to the second.
    Less,
    /// They are equal.
    Equal,
    /// The first is greater: 1 to 2^31 - 1 increments lead from the second to it.
    Greater,
    /// They differ by 2^31, so neither is less.
    Undecided,
}

impl SerialNumber {
    ghost use Rattle.std.specs.Prelude.{◌≡◌};
    ghost use Rattle.dns_wire.specs.codes.SerialNumber.{serial_value, serial_order};

    /// Creates a serial number.
    pub fn new(value: u32) -> Self
        ensures { serial_value result ≡ value }
    {
        SerialNumber(value)
    }

    /// Returns the value.
    pub fn get(self) -> u32
        ensures { result ≡ serial_value self }
    {
        self.0
    }

    /// Compares this serial number with another (RFC 1982 section 3.2).
    pub fn compare(self, other: Self) -> SerialOrder
        ensures { result ≡ serial_order (serial_value self) (serial_value other) }
    {
        match other.0.wrapping_sub(self.0) {
            0 => SerialOrder::Equal,
            1..0x8000_0000 => SerialOrder::Less,
            0x8000_0000 => SerialOrder::Undecided,
            _ => SerialOrder::Greater,
        }
    }
}
