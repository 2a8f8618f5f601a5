//! Parameters in text (RFC 9460 section 2.1 and appendix A).

ghost use Rattle.std.specs.Prelude.{◌≡◌, ◌≤◌, ◌<◌, ◌∷◌, ◌++◌, [], true, false, length, drop, take, get_or, slice_index, map, option_map, Some, ◌/◌, ◌%◌};
ghost use Rattle.std.specs.Fmt.{WritesOnOk, decimal};
ghost use Rattle.base64.specs.Engines.{standard};
ghost use Rattle.base64.specs.GeneralPurpose.{encode_of};
ghost use Rattle.hex.specs.Hex.{lower_digits};
ghost use Rattle.dns_fields.specs.service.Wire.{key_at};
ghost use Rattle.dns_fields.specs.service.Text.{is_plain_octet, octet_text, word_text, name_among, key_name, item_octet, item_text, dotted, ipv4_text, hex_pair, group_text, more_groups, ipv6_text, item_len, front_item, lead, items_text, value_octets, value_part, parameter_text, parameter_texts, spaced_words};

use crate::service::key::KEYS;
use crate::service::list::Item;
use crate::service::wire::{after_front, byte_at, front_value, key_at, skip};
use base64::display::Base64Display;
use base64::engine::general_purpose::STANDARD;
use std::fmt;

/// The parameters of a service binding, which `Display` writes in their order, a blank before each: the name of the key, and
/// `=` and the value unless it is empty (RFC 9460 section 2.1). An octet that a word of a zone file can't have is `\DDD`.
#[derive(Clone, Copy, Debug)]
pub struct ParametersText<'a> {
    /// The parameters as bytes.
    pub bytes: &'a [u8],
}

impl<'a> fmt::Display for ParametersText<'a> {
    ghost output = { λ it. Some (spaced_words (parameter_texts 0 it.bytes.now)) };

    fn fmt<W: fmt::Write>(&self, f: &mut fmt::Formatter<W>) -> fmt::Result {
        write_parameters(self.bytes, f)
    }
}

/// Writes parameters, a blank before each.
fn write_parameters<W: fmt::Write>(bytes: &[u8], f: &mut fmt::Formatter<W>) -> fmt::Result
    ensures { WritesOnOk W.write_str_gives f.old result
        (spaced_words (parameter_texts 0 bytes.now)) f.new }
{
    let mut left = bytes;
    while !left.is_empty() {
        write_parameter(key_at(left), front_value(left), f)?;
        left = after_front(left);
    }
    Ok(())
}

/// Writes a blank and a parameter.
fn write_parameter<W: fmt::Write>(
    key: usize,
    value: &[u8],
    f: &mut fmt::Formatter<W>,
) -> fmt::Result
    ensures { WritesOnOk W.write_str_gives f.old result (32 ∷ parameter_text key value.now) f.new }
{
    f.write_char(' ')?;
    write_key(key, f)?;
    write_part(key, value, f)
}

/// Writes `=` and a value, unless it is empty.
fn write_part<W: fmt::Write>(key: usize, value: &[u8], f: &mut fmt::Formatter<W>) -> fmt::Result
    ensures { WritesOnOk W.write_str_gives f.old result
        (value_part value.now (value_octets key value.now)) f.new }
{
    if value.is_empty() {
        return Ok(());
    }
    f.write_char('=')?;
    write_value(key, value, f)
}

/// Writes a value.
fn write_value<W: fmt::Write>(key: usize, value: &[u8], f: &mut fmt::Formatter<W>) -> fmt::Result
    ensures { WritesOnOk W.write_str_gives f.old result
        (word_text (value_octets key value.now)) f.new }
{
    match key {
        0 => write_items(Item::Key, value, f),
        1 => write_items(Item::Protocol, value, f),
        3 => write_number(key_at(value), f),
        4 => write_items(Item::Address4, value, f),
        5 => write_base64(value, f),
        6 => write_items(Item::Address6, value, f),
        _ => write_word(value, f),
    }
}

// ---- keys

/// Writes the name of a key, or `key` and its number.
fn write_key<W: fmt::Write>(key: usize, f: &mut fmt::Formatter<W>) -> fmt::Result
    ensures { WritesOnOk W.write_str_gives f.old result (key_name key) f.new }
{
    match name_among(KEYS, key) {
        Some(name) => f.write_str(name),
        None => write!(f, "key{key}"),
    }
}

/// Returns the name of a key in a table.
fn name_among(keys: &'static [(&'static str, u16)], key: usize) -> Option<&'static str>
    ensures { option_map (λ name. name.now) result
        ≡ name_among (map (λ line. (line.0.now, line.1)) keys.now) key }
{
    for (name, number) in keys {
        if usize::from(*number) == key {
            return Some(*name);
        }
    }
    None
}

// ---- words

/// Writes octets within a word.
fn write_word<W: fmt::Write>(octets: &[u8], f: &mut fmt::Formatter<W>) -> fmt::Result
    ensures { WritesOnOk W.write_str_gives f.old result (word_text octets.now) f.new }
{
    for octet in octets {
        write_octet(*octet, f)?;
    }
    Ok(())
}

/// Writes an octet within a word.
fn write_octet<W: fmt::Write>(octet: u8, f: &mut fmt::Formatter<W>) -> fmt::Result
    ensures { WritesOnOk W.write_str_gives f.old result (octet_text octet) f.new }
{
    if is_plain_octet(octet) {
        return f.write_char(octet as char);
    }
    f.write_char('\\')?;
    f.write_char((b'0' + octet / 100) as char)?;
    f.write_char((b'0' + octet / 10 % 10) as char)?;
    f.write_char((b'0' + octet % 10) as char)
}

/// Returns `true` if a word may contain the character unescaped.
fn is_plain_octet(octet: u8) -> bool
    ensures value { result ≡ is_plain_octet octet }
    ensures ascii { result ≡ true → octet < 128 }
{
    match octet {
        b'"' | b'(' | b')' | b';' | b'\\' => false,
        33..=126 => true,
        _ => false,
    }
}

/// Writes a number, which needs no escape.
fn write_number<W: fmt::Write>(number: usize, f: &mut fmt::Formatter<W>) -> fmt::Result
    ensures { WritesOnOk W.write_str_gives f.old result (word_text (decimal number)) f.new }
{
    write_decimal(number, f)
}

/// Writes a decimal number.
fn write_decimal<W: fmt::Write>(number: usize, f: &mut fmt::Formatter<W>) -> fmt::Result
    ensures { WritesOnOk W.write_str_gives f.old result (decimal number) f.new }
{
    write!(f, "{number}")
}

/// Writes bytes in base64, which needs no escape.
fn write_base64<W: fmt::Write>(bytes: &[u8], f: &mut fmt::Formatter<W>) -> fmt::Result
    ensures { WritesOnOk W.write_str_gives f.old result
        (word_text (encode_of standard bytes.now)) f.new }
{
    write_encoded(bytes, f)
}

/// Writes bytes in base64.
fn write_encoded<W: fmt::Write>(bytes: &[u8], f: &mut fmt::Formatter<W>) -> fmt::Result
    ensures { WritesOnOk W.write_str_gives f.old result (encode_of standard bytes.now) f.new }
{
    let text = Base64Display::new(bytes, &STANDARD);
    write!(f, "{text}")
}

// ---- lists

/// Writes the items of a list, separated by commas.
fn write_items<W: fmt::Write>(kind: Item, value: &[u8], f: &mut fmt::Formatter<W>) -> fmt::Result
    ensures { WritesOnOk W.write_str_gives f.old result
        (word_text (items_text kind true 0 value.now)) f.new }
{
    let mut left = value;
    let mut is_first = true;
    while !left.is_empty() {
        write_item(is_first, kind, left, f)?;
        left = skip(left, item_len(kind, left));
        is_first = false;
    }
    Ok(())
}

/// Writes the item at the front of a value, after a comma unless it is the first.
fn write_item<W: fmt::Write>(
    is_first: bool,
    kind: Item,
    bytes: &[u8],
    f: &mut fmt::Formatter<W>,
) -> fmt::Result
    ensures { WritesOnOk W.write_str_gives f.old result
        (lead is_first ++ word_text (front_item kind bytes.now)) f.new }
{
    if !is_first {
        f.write_char(',')?;
    }
    write_front(kind, bytes, f)
}

/// Returns how many octets the item at the front of a value has.
fn item_len(kind: Item, bytes: &[u8]) -> usize
    ensures value { result ≡ item_len kind bytes.now }
    ensures some { 0 < result }
{
    match kind {
        Item::Key => 2,
        Item::Protocol => 1 + byte_at(bytes, 0),
        Item::Address4 => 4,
        Item::Address6 => 16,
    }
}

/// Writes the item at the front of a value.
fn write_front<W: fmt::Write>(kind: Item, bytes: &[u8], f: &mut fmt::Formatter<W>) -> fmt::Result
    ensures { WritesOnOk W.write_str_gives f.old result
        (word_text (front_item kind bytes.now)) f.new }
{
    match kind {
        Item::Key => write_name(key_at(bytes), f),
        Item::Protocol => write_identifier(identifier(bytes), f),
        Item::Address4 => write_ipv4(bytes, f),
        Item::Address6 => write_ipv6(bytes, f),
    }
}

/// Writes the name of a key, which needs no escape.
fn write_name<W: fmt::Write>(key: usize, f: &mut fmt::Formatter<W>) -> fmt::Result
    ensures { WritesOnOk W.write_str_gives f.old result (word_text (key_name key)) f.new }
{
    write_key(key, f)
}

/// Returns the identifier at the front of a value, as far as it is there.
fn identifier(bytes: &[u8]) -> &[u8]
    ensures { result.now ≡ take (get_or bytes.now 0 0) (drop 1 bytes.now) }
{
    let octets = skip(bytes, 1);
    &octets[..octets.len().min(byte_at(bytes, 0))]
}

/// Writes an identifier.
fn write_identifier<W: fmt::Write>(octets: &[u8], f: &mut fmt::Formatter<W>) -> fmt::Result
    ensures { WritesOnOk W.write_str_gives f.old result (word_text (item_text octets.now)) f.new }
{
    for octet in octets {
        write_item_octet(*octet, f)?;
    }
    Ok(())
}

/// Writes an octet of an identifier.
fn write_item_octet<W: fmt::Write>(octet: u8, f: &mut fmt::Formatter<W>) -> fmt::Result
    ensures { WritesOnOk W.write_str_gives f.old result (word_text (item_octet octet)) f.new }
{
    if octet == b',' || octet == b'\\' {
        return write_word(&[b'\\', octet], f);
    }
    write_word(&[octet], f)
}

// ---- addresses

/// Writes an IPv4 address.
fn write_ipv4<W: fmt::Write>(bytes: &[u8], f: &mut fmt::Formatter<W>) -> fmt::Result
    ensures { WritesOnOk W.write_str_gives f.old result (word_text (ipv4_text bytes.now)) f.new }
{
    let a = byte_at(bytes, 0);
    let b = byte_at(bytes, 1);
    let c = byte_at(bytes, 2);
    let d = byte_at(bytes, 3);
    write_numbers(a, b, c, d, f)
}

/// Writes four numbers between dots, which need no escape.
fn write_numbers<W: fmt::Write>(
    a: usize,
    b: usize,
    c: usize,
    d: usize,
    f: &mut fmt::Formatter<W>,
) -> fmt::Result
    ensures { WritesOnOk W.write_str_gives f.old result (word_text (dotted a b c d)) f.new }
{
    write_dotted(a, b, c, d, f)
}

/// Writes four numbers, separated by dots.
fn write_dotted<W: fmt::Write>(
    a: usize,
    b: usize,
    c: usize,
    d: usize,
    f: &mut fmt::Formatter<W>,
) -> fmt::Result
    ensures { WritesOnOk W.write_str_gives f.old result (dotted a b c d) f.new }
{
    write!(f, "{a}.{b}.{c}.{d}")
}

/// Writes an IPv6 address.
fn write_ipv6<W: fmt::Write>(bytes: &[u8], f: &mut fmt::Formatter<W>) -> fmt::Result
    ensures { WritesOnOk W.write_str_gives f.old result (word_text (ipv6_text bytes.now)) f.new }
{
    write_groups(bytes, f)
}

/// Writes eight groups, separated by colons.
fn write_groups<W: fmt::Write>(bytes: &[u8], f: &mut fmt::Formatter<W>) -> fmt::Result
    ensures { WritesOnOk W.write_str_gives f.old result
        (word_text (group_text bytes.now) ++ word_text (more_groups 7 (drop 2 bytes.now))) f.new }
{
    write_group(bytes, f)?;
    write_more(skip(bytes, 2), f)
}

/// Writes seven groups, a colon before each.
fn write_more<W: fmt::Write>(bytes: &[u8], f: &mut fmt::Formatter<W>) -> fmt::Result
    ensures { WritesOnOk W.write_str_gives f.old result
        (word_text (more_groups 7 bytes.now)) f.new }
{
    let mut left = bytes;
    for _ in 0..7usize {
        write_next(left, f)?;
        left = skip(left, 2);
    }
    Ok(())
}

/// Writes a colon and a group.
fn write_next<W: fmt::Write>(bytes: &[u8], f: &mut fmt::Formatter<W>) -> fmt::Result
    ensures { WritesOnOk W.write_str_gives f.old result
        (58 ∷ word_text (group_text bytes.now)) f.new }
{
    f.write_char(':')?;
    write_group(bytes, f)
}

/// Writes the two bytes at the front as four hexadecimal digits.
fn write_group<W: fmt::Write>(bytes: &[u8], f: &mut fmt::Formatter<W>) -> fmt::Result
    ensures { WritesOnOk W.write_str_gives f.old result (word_text (group_text bytes.now)) f.new }
{
    let high = byte_at(bytes, 0);
    let low = byte_at(bytes, 1);
    write_pairs(high, low, f)
}

/// Writes two bytes as hexadecimal digits, which need no escape.
fn write_pairs<W: fmt::Write>(high: usize, low: usize, f: &mut fmt::Formatter<W>) -> fmt::Result
    requires { (high < 256) × (low < 256) }
    ensures { WritesOnOk W.write_str_gives f.old result
        (word_text (hex_pair high ++ hex_pair low)) f.new }
{
    write_digits(high, low, f)
}

/// Writes two bytes as hexadecimal digits.
fn write_digits<W: fmt::Write>(high: usize, low: usize, f: &mut fmt::Formatter<W>) -> fmt::Result
    requires { (high < 256) × (low < 256) }
    ensures { WritesOnOk W.write_str_gives f.old result (hex_pair high ++ hex_pair low) f.new }
{
    write_pair(high, f)?;
    write_pair(low, f)
}

/// Writes a byte as two hexadecimal digits.
fn write_pair<W: fmt::Write>(byte: usize, f: &mut fmt::Formatter<W>) -> fmt::Result
    requires { byte < 256 }
    ensures { WritesOnOk W.write_str_gives f.old result (hex_pair byte) f.new }
{
    f.write_char(hex_digit(byte / 16) as char)?;
    f.write_char(hex_digit(byte % 16) as char)
}

/// Returns a hexadecimal digit, in lower case.
fn hex_digit(value: usize) -> u8
    requires { value < 16 }
    ensures digit { result ≡ slice_index lower_digits value }
    ensures ascii { result < 128 }
{
    if value < 10 {
        b'0' + value as u8
    } else {
        b'a' - 10 + value as u8
    }
}
