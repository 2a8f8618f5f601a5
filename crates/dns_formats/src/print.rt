//! Record data as text (RFC 1035 section 5.1, RFC 3597 section 5).

ghost use Rattle.std.specs.Prelude.{◌≡◌, ◌≤◌, ◌<◌, ◌∷◌, ◌++◌, [], true, false, length, drop, slice_index, Some, flat_map, is_some, ◌/◌, ◌%◌};
ghost use Rattle.std.specs.Fmt.{WritesOnOk, decimal};
ghost use Rattle.std.specs.Int.{w16, w32, from_be_bytes};
ghost use Rattle.base64.specs.Engines.{standard};
ghost use Rattle.base64.specs.GeneralPurpose.{encode_of};
ghost use Rattle.hex.specs.Hex.{encode_lower, lower_digits};
ghost use Rattle.dns_names.specs.Print.{text_of_labels, label_text, octet_text};
ghost use Rattle.dns_names.specs.Parse.{is_plain_octet};
ghost use Rattle.dns_text.specs.CharacterString.{quoted_text};
ghost use Rattle.dns_text.specs.Tokens.{datum_text, data_text};
ghost use Rattle.dns_fields.specs.bitmaps.TypeWord.{word_of_type};
ghost use Rattle.dns_wire.specs.codes.RecordType.{type_number};
ghost use Rattle.dns_fields.specs.bitmaps.Bitmap.{types_of, spaced_types};
ghost use Rattle.dns_fields.specs.bitmaps.Base32.{encoded};
ghost use Rattle.dns_fields.specs.service.Text.{parameter_texts, spaced_words};
ghost use Rattle.dns_fields.specs.location.Text.{location_words, joined_words};
ghost use Rattle.dns_formats.specs.Field.{may_be_empty, begins, fields_of};
ghost use Rattle.dns_formats.specs.Wire.{value_len, fits};
ghost use Rattle.dns_formats.specs.Print.{labels_at, front_token, list_tokens, front_tokens, data_tokens, lead, spaced, salt_text, generic_text, format_text};

use crate::field::{Field, format_of};
use crate::wire::{counted_octets, fits, value_size};
use base64::display::Base64Display;
use base64::engine::general_purpose::STANDARD;
use dns_fields::bitmaps::{Base32Text, BitmapText, TypeWord};
use dns_fields::location::LocationText;
use dns_fields::service::ParametersText;
use dns_text::QuotedString;
use dns_wire::codes::RecordType;
use std::fmt;

/// Record data of a type, which `Display` writes as the text of a zone file: the fields of the type, separated by blanks,
/// or the generic form if the type has none, or the bytes are not its data. `read_data` reads it back.
#[derive(Clone, Copy, Debug)]
pub struct DataText<'a> {
    /// The type of the record.
    pub record_type: RecordType,
    /// The data, with uncompressed names.
    pub bytes: &'a [u8],
}

impl<'a> fmt::Display for DataText<'a> {
    ghost output = { λ it. Some (format_text (fields_of (type_number it.record_type)) it.bytes.now) };

    fn fmt<W: fmt::Write>(&self, f: &mut fmt::Formatter<W>) -> fmt::Result {
        match format_of(self.record_type) {
            Some(fields) if fits(fields, self.bytes) => write_fields(fields, self.bytes, f),
            _ => write_generic(self.bytes, f),
        }
    }
}

/// Writes the values of fields, separated by blanks.
fn write_fields<W: fmt::Write>(
    fields: &[Field],
    bytes: &[u8],
    f: &mut fmt::Formatter<W>,
) -> fmt::Result
    requires fitting { fits fields.now bytes.now ≡ true }
    requires begun { begins fields.now ≡ true }
    ensures { WritesOnOk W.write_str_gives f.old result
        (data_text (data_tokens fields.now bytes.now)) f.new }
{
    let mut left = bytes;
    let mut is_first = true;
    for field in fields {
        write_spaced(is_first, *field, left, f)?;
        left = &left[value_size(*field, left)..];
        is_first = false;
    }
    Ok(())
}

/// Writes the value of a field at the front of bytes, after a blank unless it is the first.
fn write_spaced<W: fmt::Write>(
    is_first: bool,
    field: Field,
    bytes: &[u8],
    f: &mut fmt::Formatter<W>,
) -> fmt::Result
    requires there { is_some (value_len field bytes.now) ≡ true }
    requires front { is_first ≡ true → may_be_empty field ≡ false }
    ensures { WritesOnOk W.write_str_gives f.old result
        (spaced is_first (front_tokens field bytes.now)) f.new }
{
    if field.may_be_empty() {
        return write_list(field, bytes, f);
    }
    write_one(is_first, field, bytes, f)
}

/// Writes the value of a field of one token, or a location, after a blank unless it is the first.
fn write_one<W: fmt::Write>(
    is_first: bool,
    field: Field,
    bytes: &[u8],
    f: &mut fmt::Formatter<W>,
) -> fmt::Result
    requires { is_some (value_len field bytes.now) ≡ true }
    ensures { WritesOnOk W.write_str_gives f.old result
        (lead is_first ++ datum_text (front_token field bytes.now)) f.new }
{
    if !is_first {
        f.write_char(' ')?;
    }
    write_value(field, bytes, f)
}

/// Writes the values of a field that may be empty, a blank before each.
fn write_list<W: fmt::Write>(field: Field, bytes: &[u8], f: &mut fmt::Formatter<W>) -> fmt::Result
    ensures { WritesOnOk W.write_str_gives f.old result
        (spaced false (list_tokens field bytes.now)) f.new }
{
    match field {
        Field::Types => write_types(bytes, f),
        Field::Parameters => write_parameters(bytes, f),
        _ => Ok(()),
    }
}

/// Writes the value of a field at the front of bytes.
fn write_value<W: fmt::Write>(field: Field, bytes: &[u8], f: &mut fmt::Formatter<W>) -> fmt::Result
    requires { is_some (value_len field bytes.now) ≡ true }
    ensures { WritesOnOk W.write_str_gives f.old result
        (datum_text (front_token field bytes.now)) f.new }
{
    match field {
        Field::Number8 => write_number8(bytes, f),
        Field::Number16 => write_number16(bytes, f),
        Field::Number32 => write_number32(bytes, f),
        Field::Name => write_name(bytes, f),
        Field::CharacterString => write_quoted(counted_octets(bytes), f),
        Field::Tag => write_label(counted_octets(bytes), f),
        Field::RecordType => write_type(bytes, f),
        Field::Time => write_number32(bytes, f),
        Field::Salt => write_salt(counted_octets(bytes), f),
        Field::Algorithm => write_number8(bytes, f),
        Field::CertificateType => write_number16(bytes, f),
        Field::Hash => write_base32(counted_octets(bytes), f),
        Field::Text => write_quoted(bytes, f),
        Field::Hex => write_hex(bytes, f),
        Field::Base64 => write_base64(bytes, f),
        Field::Location => write_location(bytes, f),
        // They are lists, which `write_list` writes.
        Field::Types | Field::Parameters => Ok(()),
    }
}

// ---- numbers

/// Writes a number of 8 bits.
fn write_number8<W: fmt::Write>(bytes: &[u8], f: &mut fmt::Formatter<W>) -> fmt::Result
    requires { 1 ≤ length bytes.now }
    ensures { WritesOnOk W.write_str_gives f.old result (decimal (slice_index bytes.now 0)) f.new }
{
    let number = bytes[0];
    write!(f, "{number}")
}

/// Writes a number of 16 bits.
fn write_number16<W: fmt::Write>(bytes: &[u8], f: &mut fmt::Formatter<W>) -> fmt::Result
    requires { 2 ≤ length bytes.now }
    ensures { WritesOnOk W.write_str_gives f.old result
        (decimal (from_be_bytes w16 bytes.now)) f.new }
{
    let number = u16::from_be_bytes([bytes[0], bytes[1]]);
    write!(f, "{number}")
}

/// Writes a number of 32 bits.
fn write_number32<W: fmt::Write>(bytes: &[u8], f: &mut fmt::Formatter<W>) -> fmt::Result
    requires { 4 ≤ length bytes.now }
    ensures { WritesOnOk W.write_str_gives f.old result
        (decimal (from_be_bytes w32 bytes.now)) f.new }
{
    let number = u32::from_be_bytes([bytes[0], bytes[1], bytes[2], bytes[3]]);
    write!(f, "{number}")
}

// ---- names

/// Writes the uncompressed name at the front of bytes: each label before a dot, and the root as a dot.
fn write_name<W: fmt::Write>(bytes: &[u8], f: &mut fmt::Formatter<W>) -> fmt::Result
    ensures { WritesOnOk W.write_str_gives f.old result
        (text_of_labels true (labels_at 0 bytes.now)) f.new }
{
    if bytes.is_empty() || bytes[0] == 0 {
        return f.write_char('.');
    }
    write_labels(bytes, f)
}

/// Writes the labels of the uncompressed name at the front of bytes, each before a dot.
fn write_labels<W: fmt::Write>(bytes: &[u8], f: &mut fmt::Formatter<W>) -> fmt::Result
    ensures { WritesOnOk W.write_str_gives f.old result
        (flat_map (λ label. label_text label ++ 46 ∷ []) (labels_at 0 bytes.now)) f.new }
{
    let mut left = bytes;
    while !left.is_empty() && left[0] != 0 {
        let label = counted_octets(left);
        write_before_dot(label, f)?;
        left = &left[1 + label.len()..];
    }
    Ok(())
}

/// Writes a label and a dot.
fn write_before_dot<W: fmt::Write>(label: &[u8], f: &mut fmt::Formatter<W>) -> fmt::Result
    ensures { WritesOnOk W.write_str_gives f.old result (label_text label.now ++ 46 ∷ []) f.new }
{
    write_label(label, f)?;
    f.write_char('.')
}

/// Writes a label: each octet as itself if it needs no escape, and else as `\DDD`.
fn write_label<W: fmt::Write>(label: &[u8], f: &mut fmt::Formatter<W>) -> fmt::Result
    ensures { WritesOnOk W.write_str_gives f.old result (label_text label.now) f.new }
{
    let mut is_first = true;
    for octet in label {
        write_octet(is_first, *octet, f)?;
        is_first = false;
    }
    Ok(())
}

/// Writes an octet of a label.
fn write_octet<W: fmt::Write>(is_first: bool, octet: u8, f: &mut fmt::Formatter<W>) -> fmt::Result
    ensures { WritesOnOk W.write_str_gives f.old result (octet_text is_first octet) f.new }
{
    if is_plain_octet(is_first, octet) {
        return f.write_char(octet as char);
    }
    f.write_char('\\')?;
    f.write_char((b'0' + octet / 100) as char)?;
    f.write_char((b'0' + octet / 10 % 10) as char)?;
    f.write_char((b'0' + octet % 10) as char)
}

/// Returns `true` if a label may contain the character unescaped.
fn is_plain_octet(is_first: bool, octet: u8) -> bool
    ensures value { result ≡ is_plain_octet is_first octet }
    ensures ascii { result ≡ true → octet < 128 }
{
    match octet {
        b'a'..=b'z' | b'A'..=b'Z' | b'0'..=b'9' | b'_' => true,
        b'*' => is_first,
        b'-' => !is_first,
        _ => false,
    }
}

// ---- types and salts

/// Writes a record type.
fn write_type<W: fmt::Write>(bytes: &[u8], f: &mut fmt::Formatter<W>) -> fmt::Result
    requires { 2 ≤ length bytes.now }
    ensures { WritesOnOk W.write_str_gives f.old result
        (word_of_type (from_be_bytes w16 bytes.now)) f.new }
{
    let word = TypeWord {
        number: u16::from_be_bytes([bytes[0], bytes[1]]),
    };
    write!(f, "{word}")
}

/// Writes a salt.
fn write_salt<W: fmt::Write>(salt: &[u8], f: &mut fmt::Formatter<W>) -> fmt::Result
    ensures { WritesOnOk W.write_str_gives f.old result (salt_text salt.now) f.new }
{
    if salt.is_empty() {
        return f.write_char('-');
    }
    write_hex(salt, f)
}

/// Writes bytes in base32hex.
fn write_base32<W: fmt::Write>(bytes: &[u8], f: &mut fmt::Formatter<W>) -> fmt::Result
    ensures { WritesOnOk W.write_str_gives f.old result (encoded bytes.now) f.new }
{
    let text = Base32Text { bytes };
    write!(f, "{text}")
}

/// Writes the types of a bitmap, a blank before each.
fn write_types<W: fmt::Write>(bytes: &[u8], f: &mut fmt::Formatter<W>) -> fmt::Result
    ensures { WritesOnOk W.write_str_gives f.old result
        (spaced_types (types_of 0 0 bytes.now)) f.new }
{
    let text = BitmapText { bytes };
    write!(f, "{text}")
}

/// Writes the parameters of a service binding, a blank before each.
fn write_parameters<W: fmt::Write>(bytes: &[u8], f: &mut fmt::Formatter<W>) -> fmt::Result
    ensures { WritesOnOk W.write_str_gives f.old result
        (spaced_words (parameter_texts 0 bytes.now)) f.new }
{
    let text = ParametersText { bytes };
    write!(f, "{text}")
}

// ---- locations

/// Writes a location, the parts of which blanks separate.
fn write_location<W: fmt::Write>(bytes: &[u8], f: &mut fmt::Formatter<W>) -> fmt::Result
    ensures { WritesOnOk W.write_str_gives f.old result
        (joined_words (location_words bytes.now)) f.new }
{
    let text = LocationText { bytes };
    write!(f, "{text}")
}

// ---- strings, hexadecimal digits and base64

/// Writes octets between quotes.
fn write_quoted<W: fmt::Write>(octets: &[u8], f: &mut fmt::Formatter<W>) -> fmt::Result
    ensures { WritesOnOk W.write_str_gives f.old result (quoted_text octets.now) f.new }
{
    let string = QuotedString(octets);
    write!(f, "{string}")
}

/// Writes bytes in base64.
fn write_base64<W: fmt::Write>(bytes: &[u8], f: &mut fmt::Formatter<W>) -> fmt::Result
    ensures { WritesOnOk W.write_str_gives f.old result (encode_of standard bytes.now) f.new }
{
    let text = Base64Display::new(bytes, &STANDARD);
    write!(f, "{text}")
}

/// Writes data in the generic form: `\#`, the number of its bytes, and the bytes in hexadecimal digits.
fn write_generic<W: fmt::Write>(bytes: &[u8], f: &mut fmt::Formatter<W>) -> fmt::Result
    ensures { WritesOnOk W.write_str_gives f.old result (generic_text bytes.now) f.new }
{
    if bytes.is_empty() {
        return f.write_str("\\# 0");
    }
    let len = bytes.len();
    write!(f, "\\# {len} ")?;
    write_hex(bytes, f)
}

/// Writes bytes in hexadecimal digits.
fn write_hex<W: fmt::Write>(bytes: &[u8], f: &mut fmt::Formatter<W>) -> fmt::Result
    ensures { WritesOnOk W.write_str_gives f.old result (encode_lower bytes.now) f.new }
{
    for byte in bytes {
        write_byte(*byte, f)?;
    }
    Ok(())
}

/// Writes a byte as two hexadecimal digits.
fn write_byte<W: fmt::Write>(byte: u8, f: &mut fmt::Formatter<W>) -> fmt::Result
    ensures { WritesOnOk W.write_str_gives f.old result
        (slice_index lower_digits (byte / 16) ∷ slice_index lower_digits (byte % 16) ∷ []) f.new }
{
    f.write_char(hex_digit(byte / 16) as char)?;
    f.write_char(hex_digit(byte % 16) as char)
}

/// Returns a hexadecimal digit, in lower case.
fn hex_digit(value: u8) -> u8
    requires { value < 16 }
    ensures digit { result ≡ slice_index lower_digits value }
    ensures ascii { result < 128 }
{
    if value < 10 {
        b'0' + value
    } else {
        b'a' - 10 + value
    }
}
