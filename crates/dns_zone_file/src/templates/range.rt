//! The numbers of a `$GENERATE`.

ghost use Rattle.std.specs.Prelude.{◌≡◌, ◌+◌, ◌*◌, ◌-◌, ◌<◌, ◌≤◌, ◌^◌, length, IfOk, IfSome};
ghost use Rattle.std.specs.List.{position};
ghost use Rattle.dns_zone_file.specs.templates.Range.{greatest, max_numbers, is_dash, is_slash, count_of, range_with, range_from, range_of, number_at};

use crate::templates::fault::GenerateFault;
use dns_wire::codes::parse_decimal;

/// The greatest number of a range.
pub(crate) const GREATEST: u64 = 0x7fff_ffff;

/// How many numbers a directive may have.
const MAX_NUMBERS: u32 = 65_536;

/// The numbers of a `$GENERATE`: `count` of them, from `start` on, in steps.
#[derive(Clone, Copy, Debug, PartialEq, Eq)]
pub struct Range {
    /// The first number.
    pub start: u32,
    /// The difference of two consecutive numbers, at least 1.
    pub step: u32,
    /// How many numbers there are, from 1 to 65,536.
    pub count: u32,
}

/// Parses the range of a `$GENERATE`: `START-STOP`, or `START-STOP/STEP`, in decimal numbers from 0 to 2^31 - 1. It may have at
/// most 65,536 numbers.
pub fn parse_range(text: &[u8]) -> Result<Range, GenerateFault>
    ensures value { result ≡ range_of text.now }
    ensures count { IfOk result (λ range. range.count ≤ max_numbers) }
    ensures bound { IfOk result (λ range.
        range.start + (range.count - 1) * range.step ≤ greatest) }
{
    match find_dash(text) {
        None => Err(GenerateFault::InvalidRange),
        Some(place) => range_from(&text[..place], &text[place + 1..]),
    }
}

/// Returns the place of the first dash.
fn find_dash(text: &[u8]) -> Option<usize>
    ensures place { result ≡ position is_dash text.now }
    ensures within { IfSome result (λ place. place < length text.now) }
{
    text.iter().position(|c| *c == b'-')
}

/// Returns the place of the first slash.
fn find_slash(text: &[u8]) -> Option<usize>
    ensures place { result ≡ position is_slash text.now }
    ensures within { IfSome result (λ place. place < length text.now) }
{
    text.iter().position(|c| *c == b'/')
}

/// Parses a range from the text of its start and from that after the dash.
fn range_from(start: &[u8], text: &[u8]) -> Result<Range, GenerateFault>
    ensures value { result ≡ range_from start.now text.now }
    ensures count { IfOk result (λ range. range.count ≤ max_numbers) }
    ensures bound { IfOk result (λ range.
        range.start + (range.count - 1) * range.step ≤ greatest) }
{
    let start = parse_decimal(start, GREATEST);
    match find_slash(text) {
        None => range_with(start, parse_decimal(text, GREATEST), Some(1)),
        Some(place) => range_with(
            start,
            parse_decimal(&text[..place], GREATEST),
            parse_decimal(&text[place + 1..], GREATEST),
        ),
    }
}

/// Returns a range with its numbers, unless there is none, or one too many.
fn range_with(
    start: Option<u64>,
    stop: Option<u64>,
    step: Option<u64>,
) -> Result<Range, GenerateFault>
    requires start { IfSome start (λ n. n ≤ greatest) }
    requires stop { IfSome stop (λ n. n ≤ greatest) }
    requires step { IfSome step (λ n. n ≤ greatest) }
    ensures value { result ≡ range_with start stop step }
    ensures count { IfOk result (λ range. range.count ≤ max_numbers) }
    ensures bound { IfOk result (λ range.
        range.start + (range.count - 1) * range.step ≤ greatest) }
{
    let (Some(start), Some(stop), Some(step)) = (start, stop, step) else {
        return Err(GenerateFault::InvalidRange);
    };
    if stop < start || step == 0 {
        return Err(GenerateFault::InvalidRange);
    }
    let count = (stop - start) / step + 1;
    if count > MAX_NUMBERS as u64 {
        return Err(GenerateFault::TooManyNumbers);
    }
    Ok(Range {
        start: start as u32,
        step: step as u32,
        count: count as u32,
    })
}

impl Range {
    /// Returns the number at a place, from 0.
    pub fn number(self, place: u32) -> u32
        requires bound { self.start + (self.count - 1) * self.step ≤ greatest }
        requires within { place < self.count }
        ensures value { result ≡ number_at self place }
        ensures small { result < 2 ^ 31 }
    {
        self.start + place * self.step
    }
}
