//! The text of a number.

ghost use Rattle.std.specs.Prelude.{◌≡◌, ◌≢◌, ◌+◌, ◌<◌, ◌≤◌, ◌^◌, ◌++◌, Ok, Err, OnOk, IfOk, IfErr};
ghost use Rattle.dns_zone_file.specs.templates.Number.{radix, digit, digits_within, digit_count, digits, nibbles, is_nibbles, greater, number_text, with_offset, form_text, Added};

use crate::templates::fault::GenerateFault;
use std::alloc::AllocError;

/// How the digits of a number are written.
#[derive(Clone, Copy)]
pub(crate) enum Base {
    Decimal,
    Octal,
    LowerHex,
    UpperHex,
    /// Hexadecimal digits, the least significant first, separated by dots, as names of `ip6.arpa` have them.
    LowerNibbles,
    UpperNibbles,
}

/// What is added to a number, or subtracted from it.
#[derive(Clone, Copy)]
pub(crate) enum Offset {
    Plus(u32),
    Minus(u32),
}

/// The form of a number: its offset, the least number of characters, and its base.
#[derive(Clone, Copy)]
pub(crate) struct Form {
    pub(crate) offset: Offset,
    pub(crate) width: usize,
    pub(crate) base: Base,
}

/// Returns the radix of a base.
fn radix(base: Base) -> u32
    ensures value { result ≡ radix base }
    ensures some { 8 ≤ result }
    ensures small { result ≤ 16 }
{
    match base {
        Base::Decimal => 10,
        Base::Octal => 8,
        _ => 16,
    }
}

/// Returns the character of a digit.
fn digit(base: Base, value: u32) -> u8
    requires { value < 16 }
    ensures { result ≡ digit base value }
{
    if value < 10 {
        return b'0' + value as u8;
    }
    match base {
        Base::UpperHex | Base::UpperNibbles => 55 + value as u8,
        _ => 87 + value as u8,
    }
}

/// Returns how many digits a number has, at most `more + 1`.
fn digits_within(radix: u32, more: usize, number: u32) -> usize
    requires radix { 8 ≤ radix }
    requires small { more ≤ 10 }
    ensures value { result ≡ digits_within radix more number }
    ensures bound { result ≤ more + 1 }
{
    if more == 0 || number < radix {
        return 1;
    }
    digits_within(radix, more - 1, number / radix) + 1
}

/// Appends the last `count` digits of a number.
fn push_digits(text: &mut Vec<u8>, base: Base, count: usize, number: u32) -> Result<(), AllocError>
    ensures { OnOk result (text.new.items ≡ text.old.items ++ digits base count number) }
{
    if count == 0 {
        return Ok(());
    }
    let radix = radix(base);
    push_digits(text, base, count - 1, number / radix)?;
    text.push(digit(base, number % radix))?;
    Ok(())
}

/// Appends the first `len` characters of a number in nibbles.
fn push_nibbles(text: &mut Vec<u8>, base: Base, len: usize, number: u32) -> Result<(), AllocError>
    ensures { OnOk result (text.new.items ≡ text.old.items ++ nibbles base len number) }
{
    if len == 0 {
        return Ok(());
    }
    text.push(digit(base, number % 16))?;
    if len == 1 {
        return Ok(());
    }
    text.push(b'.')?;
    push_nibbles(text, base, len - 2, number / 16)?;
    Ok(())
}

/// Returns `true` if a base has a dot after each digit.
fn is_nibbles(base: Base) -> bool
    ensures { result ≡ is_nibbles base }
{
    matches!(base, Base::LowerNibbles | Base::UpperNibbles)
}

/// Returns the greater of two numbers.
fn greater(a: usize, b: usize) -> usize
    ensures { result ≡ greater a b }
{
    if a < b { b } else { a }
}

/// Appends the text of a number in a base, of at least `width` characters.
fn push_number(text: &mut Vec<u8>, base: Base, width: usize, number: u32) -> Result<(), AllocError>
    ensures { OnOk result (text.new.items ≡ text.old.items ++ number_text base width number) }
{
    if is_nibbles(base) {
        let len = greater(width, 2 * digits_within(16, 10, number) - 1);
        push_nibbles(text, base, len, number)
    } else {
        let count = greater(width, digits_within(radix(base), 10, number));
        push_digits(text, base, count, number)
    }
}

/// Returns a number with an offset.
fn with_offset(number: u32, offset: Offset) -> Result<u32, GenerateFault>
    requires { number < 2 ^ 31 }
    ensures { result ≡ with_offset number offset }
{
    match offset {
        Offset::Plus(offset) => {
            let sum = number as u64 + offset as u64;
            if sum < 0x8000_0000 {
                Ok(sum as u32)
            } else {
                Err(GenerateFault::NumberTooGreat)
            }
        }
        Offset::Minus(offset) => {
            if offset <= number {
                Ok(number - offset)
            } else {
                Err(GenerateFault::NegativeNumber)
            }
        }
    }
}

/// Appends the text of a number in a form.
pub(crate) fn push_form(text: &mut Vec<u8>, form: Form, number: u32) -> Result<(), GenerateFault>
    requires { number < 2 ^ 31 }
    ensures ok { IfOk result (λ _. Added (form_text form number) text.old.items text.new.items) }
    ensures refused { IfErr result (λ fault. fault ≢ GenerateFault.Memory
        → form_text form number ≡ Err fault) }
{
    let number = with_offset(number, form.offset)?;
    push_number(text, form.base, form.width, number)?;
    Ok(())
}
