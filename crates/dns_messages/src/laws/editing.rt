//! Theorems about messages that are made from others.

ghost use Rattle.std.specs.Prelude.{◌≡◌, ◌<◌, ◌^◌, Bool, true, ℕ, []};
ghost use Rattle.dns_messages.specs.declared.message.Message.{Message};
ghost use Rattle.dns_messages.specs.Edns.{flags_number, flags_of};
ghost use Rattle.dns_messages.specs.Message.{stripped, truncated};

/// Truncating a message twice is truncating it once.
pub fn truncating_is_idempotent()
    ensures { (m : Message) → truncated (truncated m) ≡ truncated m }
{}

/// Removing the records of DNSSEC twice is removing them once.
pub fn stripping_is_idempotent()
    ensures { (dnssec_ok : Bool) (m : Message)
        → stripped dnssec_ok (stripped dnssec_ok m) ≡ stripped dnssec_ok m }
{}

/// No record is removed from a message for someone who wants DNSSEC, or from a message without a question.
pub fn stripping_is_conditional()
    ensures wanted { (m : Message) → stripped true m ≡ m }
    ensures unasked { (dnssec_ok : Bool) (m : Message) → m.queries ≡ []
        → stripped dnssec_ok m ≡ m }
{}

/// Every 16-bit number round-trips through `EdnsFlags`.
pub fn edns_flags_round_trip()
    ensures { (number : ℕ) → number < 2 ^ 16 → flags_number (flags_of number) ≡ number }
{}
