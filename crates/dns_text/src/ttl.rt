//! Times to live as text (RFC 1035 section 5.1).

ghost use Rattle.std.specs.Prelude.{◌≡◌, ◌≤◌, IfSome};
ghost use Rattle.dns_text.specs.Ttl.{unit_seconds, ttl_of_text};
ghost use Rattle.dns_text.specs.internal.Ttl.{add_character, total};

use dns_names::ParseError;

/// The greatest time to live: it has 32 bits, without a sign (RFC 1035 section 4.1.3).
const GREATEST: u64 = 4_294_967_295;

/// The sum of the complete runs in seconds, and the number of the current run, if there is one.
#[derive(Clone, Copy)]
struct TtlSum {
    sum: u64,
    run: Option<u64>,
}

/// Parses a time to live in seconds: runs of digits, each followed by a unit of seconds, minutes, hours, days or weeks
/// (`s`, `m`, `h`, `d`, `w` in any case); the unit of the last run may be missing and is then seconds. So `1h30` is
/// 3,630 seconds. The error has the position of the first character such that the text up to and including it is not a
/// time of 32 bits, or 0 if the text is empty.
pub fn parse_ttl(text: &str) -> Result<u32, ParseError>
    ensures { result ≡ ttl_of_text text.now }
{
    parse_ttl_bytes(text.as_bytes())
}

/// Parses a time to live in seconds, as `parse_ttl` does.
pub fn parse_ttl_bytes(text: &[u8]) -> Result<u32, ParseError>
    ensures { result ≡ ttl_of_text text.now }
{
    if text.is_empty() {
        return Err(ParseError::Text(0));
    }
    let mut so_far = TtlSum { sum: 0, run: None };
    for place in 0..text.len() {
        so_far = match with_character(so_far, text[place]) {
            Some(next) if total_of(next) <= GREATEST => next,
            _ => return Err(ParseError::Text(place)),
        };
    }
    Ok(total_of(so_far) as u32)
}

/// Adds a character to the sum.
fn with_character(so_far: TtlSum, character: u8) -> Option<TtlSum>
    requires { total so_far ≤ 4294967295 }
    ensures value { result ≡ add_character so_far character }
    ensures small { IfSome result (λ next. total next ≤ 2600000000000000) }
{
    if character.is_ascii_digit() {
        let digit = (character - b'0') as u64;
        return Some(TtlSum {
            sum: so_far.sum,
            run: Some(10 * so_far.run.unwrap_or(0) + digit),
        });
    }
    let number = so_far.run?;
    let seconds = seconds_of(character)?;
    Some(TtlSum {
        sum: so_far.sum + seconds * number,
        run: None,
    })
}

/// Returns the number of seconds of a unit.
fn seconds_of(unit: u8) -> Option<u64>
    ensures value { result ≡ unit_seconds unit }
    ensures small { IfSome result (λ seconds. seconds ≤ 604800) }
{
    match unit.to_ascii_lowercase() {
        b's' => Some(1),
        b'm' => Some(60),
        b'h' => Some(3_600),
        b'd' => Some(86_400),
        b'w' => Some(604_800),
        _ => None,
    }
}

/// Returns the sum in seconds, with the current run.
fn total_of(so_far: TtlSum) -> u64
    requires { total so_far ≤ 2600000000000000 }
    ensures { result ≡ total so_far }
{
    so_far.sum + so_far.run.unwrap_or(0)
}
