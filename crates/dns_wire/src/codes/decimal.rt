//! Decimal numbers in text.

ghost use Rattle.std.specs.Prelude.{◌≡◌, ◌+◌, ◌*◌, ◌-◌, ◌≤◌, [], ◌∷◌, IfSome};
ghost use Rattle.dns_wire.specs.codes.Decimal.{decimal_up_to, at_most, digits_from};

/// Parses a decimal number that is at most `greatest`. There is no sign and at least one digit. Leading zeros are
/// allowed.
#[tactic(auto, unfolding(crate::specs::codes::Decimal::decimal_up_to))]
pub fn parse_decimal(text: &[u8], greatest: u64) -> Option<u64>
    ensures value { result ≡ decimal_up_to greatest text.now }
    ensures bound { IfSome result (λ number. number ≤ greatest) }
{
    if text.is_empty() {
        return None;
    }
    let mut number = 0;
    for byte in text {
        number = with_digit(number, *byte, greatest)?;
    }
    Some(number)
}

/// Appends a digit to a number.
fn with_digit(number: u64, byte: u8, greatest: u64) -> Option<u64>
    ensures value { result ≡ at_most greatest (digits_from number (byte ∷ [])) }
{
    if !byte.is_ascii_digit() {
        return None;
    }
    let digit = (byte - b'0') as u64;
    if digit > greatest || number > (greatest - digit) / 10 {
        return None;
    }
    Some(10 * number + digit)
}
