//! The characters of a file, as a report shows them.

ghost use Rattle.std.specs.Prelude.{◌≡◌, ◌++◌, ◌<◌, ◌≤◌, IfOk, OnOk, flat_map, length, string_bytes, take};
ghost use Rattle.std.specs.Str.{chars};
ghost use Rattle.zone_check.specs.findings.Shown.{front_shown, hex_digit, hex_text, is_unsafe, shown, shown_char};

use crate::findings::format::ReportFormat;
use std::alloc::{AllocError, Global};

/// How many characters of a word at fault are shown.
const MAX_SHOWN: usize = 60;

/// Appends a text of a file. The characters on which a terminal would act are escaped: as `\u{001b}`, or in JSON as `\u001b`.
pub fn push_shown(
    alloc: Global,
    format: ReportFormat,
    report: &mut String,
    text: &str,
) -> Result<(), AllocError>
    ensures { OnOk result (string_bytes report.new
        ≡ string_bytes report.old ++ shown format text.now) }
{
    let characters = characters_of(alloc, text)?;
    push_characters(format, report, characters.as_slice())
}

/// Appends the first 60 characters of a text of a file, in the same form, and three dots if there are more.
pub(crate) fn push_front(
    alloc: Global,
    format: ReportFormat,
    report: &mut String,
    text: &str,
) -> Result<(), AllocError>
    ensures { OnOk result (string_bytes report.new
        ≡ string_bytes report.old ++ front_shown format text.now) }
{
    let characters = characters_of(alloc, text)?;
    if characters.len() <= MAX_SHOWN {
        return push_characters(format, report, characters.as_slice());
    }
    let front = front_of(characters.as_slice(), MAX_SHOWN);
    push_characters(format, report, front)?;
    report.push_str("...")
}

/// Returns the first characters of some, so many.
fn front_of(characters: &[char], count: usize) -> &[char]
    requires { count ≤ length characters.now }
    ensures { result.now ≡ take count characters.now }
{
    match characters.split_at_checked(count) {
        Some((front, _)) => front,
        None => characters,
    }
}

/// Appends characters of a file.
fn push_characters(
    format: ReportFormat,
    report: &mut String,
    characters: &[char],
) -> Result<(), AllocError>
    ensures { OnOk result (string_bytes report.new
        ≡ string_bytes report.old ++ flat_map (shown_char format) characters.now) }
{
    for c in characters {
        push_character(format, report, *c)?;
    }
    Ok(())
}

/// Returns the characters of a text.
fn characters_of(alloc: Global, text: &str) -> Result<Vec<char>, AllocError>
    ensures { IfOk result (λ found. found.items ≡ chars text.now) }
{
    text.chars().collect(alloc)
}

/// Appends a character of a file.
fn push_character(format: ReportFormat, report: &mut String, c: char) -> Result<(), AllocError>
    ensures { OnOk result (string_bytes report.new
        ≡ string_bytes report.old ++ shown_char format c) }
{
    match format {
        ReportFormat::Text => push_text(report, c),
        ReportFormat::Json => push_json(report, c),
    }
}

/// Appends a character in a report for people.
fn push_text(report: &mut String, c: char) -> Result<(), AllocError>
    ensures { OnOk result (string_bytes report.new
        ≡ string_bytes report.old ++ shown_char ReportFormat.Text c) }
{
    if !is_unsafe(c) {
        return report.push(c);
    }
    report.push_str("\\u{")?;
    push_hex(report, c)?;
    report.push('}')
}

/// Appends a character in a JSON string.
fn push_json(report: &mut String, c: char) -> Result<(), AllocError>
    ensures { OnOk result (string_bytes report.new
        ≡ string_bytes report.old ++ shown_char ReportFormat.Json c) }
{
    match c {
        '"' => report.push_str("\\\""),
        '\\' => report.push_str("\\\\"),
        c if c == '\t' || is_unsafe(c) => {
            report.push_str("\\u")?;
            push_hex(report, c)
        }
        c => report.push(c),
    }
}

/// Returns `true` for a character on which a terminal may act: a control character other than a tab, or one that changes the
/// direction or the division of text, or is not visible.
fn is_unsafe(c: char) -> bool
    ensures { result ≡ is_unsafe c }
{
    matches!(
        u32::from(c),
        0..=8
            | 10..=31
            | 127..=159
            | 0x61C
            | 0x200B..=0x200F
            | 0x2028..=0x202E
            | 0x2060..=0x206F
            | 0xFEFF
    )
}

/// Appends the number of a character with four hexadecimal digits, which are enough for those that are escaped.
fn push_hex(report: &mut String, c: char) -> Result<(), AllocError>
    ensures { OnOk result (string_bytes report.new ≡ string_bytes report.old ++ hex_text c) }
{
    let number = u32::from(c);
    report.push(hex_digit(number / 4096 % 16))?;
    report.push(hex_digit(number / 256 % 16))?;
    report.push(hex_digit(number / 16 % 16))?;
    report.push(hex_digit(number % 16))
}

/// Returns a hexadecimal digit.
fn hex_digit(value: u32) -> char
    requires { value < 16 }
    ensures { result ≡ hex_digit value }
{
    let code = if value < 10 { 48 + value } else { 87 + value };
    char::from(code as u8)
}
