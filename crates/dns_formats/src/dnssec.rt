//! The fields of DNSSEC: types by their names, times, and salts (RFC 4034 section 3, RFC 5155 section 3.3).

ghost use Rattle.std.specs.Prelude.{◌≡◌, ◌≤◌, ◌+◌, ◌<◌, length, IfSome};
ghost use Rattle.hex.specs.Hex.{decode_of};
ghost use Rattle.dns_text.specs.Token.{lexeme};
ghost use Rattle.dns_formats.specs.Value.{Appends};
ghost use Rattle.dns_formats.specs.Counted.{counted};
ghost use Rattle.dns_formats.specs.Rest.{hex_outcome};
ghost use Rattle.dns_formats.specs.Dnssec.{type_bytes, is_leap, leaps_before, days_in, days_before, is_date, days_to, date_days, part, date_seconds, time_seconds, time_bytes, salt_bytes};

use crate::fault::TokenFault;
use crate::rest::push_hex;
use crate::value::push_counted;
use dns_fields::bitmaps::type_of_word;
use dns_text::Token;
use dns_wire::codes::parse_decimal;
use std::alloc::Global;

/// Appends the number of a record type.
pub(crate) fn push_type(token: Token<'_>, out: &mut Vec<u8>) -> Result<(), TokenFault>
    ensures { Appends TokenFault.Memory (type_bytes (lexeme token.entry))
        out.old.items result out.new.items }
{
    let Token::CharData(text) = token else {
        return Err(TokenFault::NotAWord);
    };
    let Some(record_type) = type_of_word(text) else {
        return Err(TokenFault::NotAType);
    };
    out.extend_from_slice(&u16::from(record_type).to_be_bytes())?;
    Ok(())
}

// ---- times

/// Appends a time.
pub(crate) fn push_time(token: Token<'_>, out: &mut Vec<u8>) -> Result<(), TokenFault>
    ensures { Appends TokenFault.Memory (time_bytes (lexeme token.entry))
        out.old.items result out.new.items }
{
    let Token::CharData(text) = token else {
        return Err(TokenFault::NotAWord);
    };
    let Some(seconds) = time_seconds(text) else {
        return Err(TokenFault::NotATime);
    };
    out.extend_from_slice(&(seconds as u32).to_be_bytes())?;
    Ok(())
}

/// Returns the seconds from 1970 of a time: a number, or a date and a time of the form `YYYYMMDDHHmmSS`, modulo 2^32
/// (RFC 4034 section 3.1.5).
fn time_seconds(text: &[u8]) -> Option<u64>
    ensures value { result ≡ time_seconds text.now }
    ensures bound { IfSome result (λ seconds. seconds ≤ 4294967295) }
{
    if let Some(seconds) = parse_decimal(text, 4_294_967_295) {
        return Some(seconds);
    }
    if text.len() != 14 {
        return None;
    }
    Some(date_seconds(text)? % 4_294_967_296)
}

/// Returns the seconds from 1970 to a date and a time.
fn date_seconds(text: &[u8]) -> Option<u64>
    requires { length text.now ≡ 14 }
    ensures { result ≡ date_seconds text.now }
{
    let year = part(text, 0, 4, 9999)?;
    let month = part(text, 4, 2, 12)?;
    let day = part(text, 6, 2, 31)?;
    let days = date_days(year, month, day)?;
    let hour = part(text, 8, 2, 23)?;
    let minute = part(text, 10, 2, 59)?;
    let second = part(text, 12, 2, 59)?;
    Some(((days * 24 + hour) * 60 + minute) * 60 + second)
}

/// Returns the number in `len` digits from a place of a text.
fn part(text: &[u8], place: usize, len: usize, greatest: u64) -> Option<u64>
    requires { place + len ≤ length text.now }
    ensures value { result ≡ part place len greatest text.now }
    ensures bound { IfSome result (λ number. number ≤ greatest) }
{
    parse_decimal(&text[place..place + len], greatest)
}

/// Returns the days from 1970 to a date, if it is one.
fn date_days(year: u64, month: u64, day: u64) -> Option<u64>
    requires y { year ≤ 9999 }
    requires m { month ≤ 12 }
    requires d { day ≤ 31 }
    ensures value { result ≡ date_days (Some year) (Some month) (Some day) }
    ensures bound { IfSome result (λ days. days ≤ 4000000) }
{
    if year < 1970 || month < 1 || day < 1 || day > days_in(year, month) {
        return None;
    }
    Some(days_to(year, month, day))
}

/// Returns the days from 1970 to a date.
fn days_to(year: u64, month: u64, day: u64) -> u64
    requires y { 1970 ≤ year }
    requires last { year ≤ 9999 }
    requires m { month ≤ 12 }
    requires d { 1 ≤ day }
    requires e { day ≤ 31 }
    ensures value { result ≡ days_to year month day }
    ensures bound { result ≤ 4000000 }
{
    let leap_day = if is_leap(year) && month > 2 { 1 } else { 0 };
    let leaps = leaps_before(year) - 477;
    365 * (year - 1970) + leaps + days_before(month) + leap_day + (day - 1)
}

/// Returns how many leap years precede a year.
fn leaps_before(year: u64) -> u64
    requires { 1970 ≤ year }
    ensures value { result ≡ leaps_before year }
    ensures least { 477 ≤ result }
    ensures bound { result ≤ year }
{
    let last = year - 1;
    last / 4 - last / 100 + last / 400
}

/// Returns `true` for a leap year.
fn is_leap(year: u64) -> bool
    ensures { result ≡ is_leap year }
{
    year % 4 == 0 && year % 100 != 0 || year % 400 == 0
}

/// Returns the days of a month.
fn days_in(year: u64, month: u64) -> u64
    ensures { result ≡ days_in year month }
{
    match month {
        2 => { if is_leap(year) { 29 } else { 28 } }
        4 | 6 | 9 | 11 => 30,
        _ => 31,
    }
}

/// Returns the days of a year before a month, without a leap day.
fn days_before(month: u64) -> u64
    requires { month ≤ 12 }
    ensures value { result ≡ days_before month }
    ensures bound { result ≤ 334 }
{
    match month {
        2 => 31,
        3 => 59,
        4 => 90,
        5 => 120,
        6 => 151,
        7 => 181,
        8 => 212,
        9 => 243,
        10 => 273,
        11 => 304,
        12 => 334,
        _ => 0,
    }
}

// ---- salts

/// Appends a salt, after its length.
pub(crate) fn push_salt(
    alloc: Global,
    token: Token<'_>,
    out: &mut Vec<u8>,
) -> Result<(), TokenFault>
    ensures { Appends TokenFault.Memory (salt_bytes (lexeme token.entry))
        out.old.items result out.new.items }
{
    let Token::CharData(text) = token else {
        return Err(TokenFault::NotAWord);
    };
    if text == b"-".as_slice() {
        out.push(0)?;
        return Ok(());
    }
    push_counted_hex(alloc, text, out)
}

/// Appends at most 255 bytes from hexadecimal digits, after their number.
fn push_counted_hex(alloc: Global, digits: &[u8], out: &mut Vec<u8>) -> Result<(), TokenFault>
    ensures { Appends TokenFault.Memory (counted (hex_outcome (decode_of digits.now)))
        out.old.items result out.new.items }
{
    let mut bytes = Vec::new(alloc);
    push_hex(alloc, digits, &mut bytes)?;
    if bytes.len() > 255 {
        return Err(TokenFault::StringTooLong);
    }
    push_counted(bytes.as_slice(), out)?;
    Ok(())
}
