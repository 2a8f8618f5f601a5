//! Templates of `$GENERATE`, and their text for a number.

ghost use Rattle.std.specs.Prelude.{◌≡◌, ◌≢◌, ◌+◌, ◌<◌, ◌≤◌, ◌^◌, length, option_map, Ok, Err, IfOk, IfErr, IfSome};
ghost use Rattle.std.specs.List.{position, position_or_len};
ghost use Rattle.dns_zone_file.specs.templates.Number.{Added};
ghost use Rattle.dns_zone_file.specs.templates.Template.{is_comma, is_brace, offset_of, base_of, form_with, form_from, form_of, braced_piece, number_piece, number_more, piece_of, piece_more, piece_text, expanded};

use crate::templates::fault::GenerateFault;
use crate::templates::form::{Base, Form, Offset, push_form};
use crate::templates::range::GREATEST;
use dns_wire::codes::parse_decimal;
use std::alloc::Global;

/// How many characters the text of a number may be asked to have.
const MAX_WIDTH: u64 = 127;

/// A piece of a template: characters that stay, or a number in a form.
#[derive(Clone, Copy)]
pub(crate) enum Piece {
    One(u8),
    Two(u8, u8),
    Number(Form),
}

/// Returns the text of a template for a number: `$` is the number, `${OFFSET,WIDTH,BASE}` the number in a form, whose width and
/// base may be omitted, `$$` a dollar sign, and a backslash stays with the character after it.
pub fn expand(alloc: Global, template: &[u8], number: u32) -> Result<Vec<u8>, GenerateFault>
    requires { number < 2 ^ 31 }
    ensures ok { IfOk result (λ text. expanded number template.now ≡ Ok text.items) }
    ensures refused { IfErr result (λ fault. fault ≢ GenerateFault.Memory
        → expanded number template.now ≡ Err fault) }
{
    let mut text = Vec::new(alloc);
    let mut place = 0;
    while place < template.len() {
        let Some((piece, len)) = first_piece(&template[place..]) else {
            return Err(GenerateFault::InvalidTemplate);
        };
        push_piece(&mut text, piece, number)?;
        place += len;
    }
    Ok(text)
}

/// Appends the text of a piece.
fn push_piece(text: &mut Vec<u8>, piece: Piece, number: u32) -> Result<(), GenerateFault>
    requires { number < 2 ^ 31 }
    ensures ok { IfOk result (λ _.
        Added (piece_text number (Some piece)) text.old.items text.new.items) }
    ensures refused { IfErr result (λ fault. fault ≢ GenerateFault.Memory
        → piece_text number (Some piece) ≡ Err fault) }
{
    match piece {
        Piece::One(c) => {
            text.push(c)?;
            Ok(())
        }
        Piece::Two(c, d) => {
            text.push(c)?;
            text.push(d)?;
            Ok(())
        }
        Piece::Number(form) => push_form(text, form, number),
    }
}

/// Returns the first piece of a template, and how many characters it takes.
fn first_piece(text: &[u8]) -> Option<(Piece, usize)>
    requires { 0 < length text.now }
    ensures piece { option_map (λ found. found.0) result ≡ piece_of text.now }
    ensures len { IfSome result (λ found. found.1 ≡ piece_more text.now + 1) }
    ensures within { IfSome result (λ found. found.1 ≤ length text.now) }
{
    match text[0] {
        b'$' => {
            let (piece, more) = number_piece(&text[1..])?;
            Some((piece, more + 1))
        }
        b'\\' if text.len() > 1 => Some((Piece::Two(b'\\', text[1]), 2)),
        c => Some((Piece::One(c), 1)),
    }
}

/// Returns the piece after `$`, and how many more characters it takes.
fn number_piece(text: &[u8]) -> Option<(Piece, usize)>
    ensures piece { option_map (λ found. found.0) result ≡ number_piece text.now }
    ensures more { IfSome result (λ found. found.1 ≡ number_more text.now) }
    ensures within { IfSome result (λ found. found.1 ≤ length text.now) }
{
    match text.first() {
        Some(b'$') => Some((Piece::One(b'$'), 1)),
        Some(b'{') => {
            let (piece, len) = braced_piece(&text[1..])?;
            Some((piece, len + 1))
        }
        _ => Some((
            Piece::Number(Form {
                offset: Offset::Plus(0),
                width: 0,
                base: Base::Decimal,
            }),
            0,
        )),
    }
}

/// Returns the piece after `${`, and how many characters it takes up to its closing brace.
fn braced_piece(text: &[u8]) -> Option<(Piece, usize)>
    ensures piece { option_map (λ found. found.0) result ≡ braced_piece text.now }
    ensures len { IfSome result (λ found. found.1 ≡ position_or_len is_brace text.now + 1) }
    ensures within { IfSome result (λ found. found.1 ≤ length text.now) }
{
    match find_brace(text) {
        None => None,
        Some(end) => match parse_form(&text[..end]) {
            None => None,
            Some(form) => Some((Piece::Number(form), end + 1)),
        },
    }
}

/// Returns the place of the first closing brace.
fn find_brace(text: &[u8]) -> Option<usize>
    ensures place { result ≡ position is_brace text.now }
    ensures within { IfSome result (λ place. place < length text.now) }
{
    text.iter().position(|c| *c == b'}')
}

/// Returns the place of the first comma.
fn find_comma(text: &[u8]) -> Option<usize>
    ensures place { result ≡ position is_comma text.now }
    ensures within { IfSome result (λ place. place < length text.now) }
{
    text.iter().position(|c| *c == b',')
}

/// Parses the form between braces: an offset, perhaps a width, and perhaps a base.
fn parse_form(text: &[u8]) -> Option<Form>
    ensures { result ≡ form_of text.now }
{
    match find_comma(text) {
        None => Some(Form {
            offset: parse_offset(text)?,
            width: 0,
            base: Base::Decimal,
        }),
        Some(place) => form_from(&text[..place], &text[place + 1..]),
    }
}

/// Parses a form from the text of its offset and from that after the comma.
fn form_from(offset: &[u8], text: &[u8]) -> Option<Form>
    ensures { result ≡ form_from offset.now text.now }
{
    let offset = parse_offset(offset)?;
    let (width, base) = match find_comma(text) {
        None => (parse_decimal(text, MAX_WIDTH)?, Base::Decimal),
        Some(place) => (
            parse_decimal(&text[..place], MAX_WIDTH)?,
            parse_base(&text[place + 1..])?,
        ),
    };
    Some(Form {
        offset,
        width: width as usize,
        base,
    })
}

/// Parses an offset: a decimal number, perhaps with a sign.
fn parse_offset(text: &[u8]) -> Option<Offset>
    ensures { result ≡ offset_of text.now }
{
    let [first, rest @ ..] = text else {
        return None;
    };
    match *first {
        b'-' => Some(Offset::Minus(parse_decimal(rest, GREATEST)? as u32)),
        b'+' => Some(Offset::Plus(parse_decimal(rest, GREATEST)? as u32)),
        _ => Some(Offset::Plus(parse_decimal(text, GREATEST)? as u32)),
    }
}

/// Parses a base.
fn parse_base(text: &[u8]) -> Option<Base>
    ensures { result ≡ base_of text.now }
{
    let [c] = text else {
        return None;
    };
    match *c {
        b'd' => Some(Base::Decimal),
        b'o' => Some(Base::Octal),
        b'x' => Some(Base::LowerHex),
        b'X' => Some(Base::UpperHex),
        b'n' => Some(Base::LowerNibbles),
        b'N' => Some(Base::UpperNibbles),
        _ => None,
    }
}
