//! Laws of the codes, as functions with empty bodies.

ghost use Rattle.std.specs.Prelude.{◌≡◌, ◌<◌, ◌↔◌, ◌^◌, ◌-◌, ◌⊎◌, ℕ};
ghost use Rattle.dns_wire.specs.codes.DNSClass.{class_number, class_of};
ghost use Rattle.dns_wire.specs.codes.RecordType.{type_number, type_of};
ghost use Rattle.dns_wire.specs.codes.SerialNumber.{serial_order, steps_up};
ghost use Rattle.dns_wire.specs.declared.codes.serial_number.SerialOrder.TheVariants.{Less, Undecided};

/// Every 16-bit code round-trips through `RecordType` (RFC 3597 section 3).
pub fn type_number_round_trips()
    ensures { (number : ℕ) → type_number (type_of number) ≡ number }
{}

/// Every 16-bit code round-trips through `DNSClass` (RFC 3597 section 3).
pub fn class_number_round_trips()
    ensures { (number : ℕ) → class_number (class_of number) ≡ number }
{}

/// A serial number is less than another if 1 to 2^31 - 1 increments lead from it to the other. If 2^31 do, neither is
/// less (RFC 1982 section 3.2).
pub fn serials_compare_by_distance()
    ensures less { (a b : ℕ) → a < 2 ^ 32 → b < 2 ^ 32
        → (serial_order a b ≡ Less) ↔ ((0 < steps_up a b) × (steps_up a b < 2 ^ 31)) }
    ensures undecided { (a b : ℕ) → a < 2 ^ 32 → b < 2 ^ 32
        → (serial_order a b ≡ Undecided) ↔ (steps_up a b ≡ 2 ^ 31) }
    ensures by_values { (a b : ℕ) → a < 2 ^ 32 → b < 2 ^ 32
        → (serial_order a b ≡ Less)
        ↔ (((a < b) × (b - a < 2 ^ 31)) ⊎ ((b < a) × (2 ^ 31 < a - b))) }
{}
