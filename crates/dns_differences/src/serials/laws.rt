//! Theorems about the definitions of this crate, as functions with empty bodies.

ghost use Rattle.std.specs.Prelude.{◌≡◌, ◌<◌, ◌^◌, ℕ};
ghost use Rattle.dns_wire.specs.codes.SerialNumber.{serial_order};
ghost use Rattle.dns_wire.specs.declared.codes.serial_number.SerialOrder.TheVariants.{Less};
ghost use Rattle.dns_differences.specs.serials.Serial.{serial_after};

/// After each change the serial number is greater than before (RFC 1982 section 3.2), and one that the change has raised stays.
#[tactic(auto, using(crate::proofs::SerialLaws::risen, crate::proofs::SerialLaws::stays))]
pub fn serials_rise()
    ensures rises { (before after : ℕ) → before < 2 ^ 32 → after < 2 ^ 32
        → serial_order before (serial_after before after) ≡ Less }
    ensures stays { (before after : ℕ) → serial_order before after ≡ Less
        → serial_after before after ≡ after }
{}
