//! The fields of a record in a zone file: owner, TTL, class and type (RFC 1035 section 5.1).

ghost use Rattle.std.specs.Prelude.{◌≡◌, ◌≤◌, map, length, IfOk, IfErr, Ok, Err};
ghost use Rattle.dns_text.specs.Token.{lexeme};
ghost use Rattle.dns_zone_file.specs.Fields.{name_of, field_in, word_field, zone_class, numbered_class, class_in, fields_in};
ghost use Rattle.dns_zone_file.specs.internal.Fields.{field_view, fields_view};

use crate::error::EntryFault;
use crate::types::{Types, type_of_word};
use dns_names::{Name, ParseError};
use dns_text::{Token, parse_ttl_bytes};
use dns_wire::{DNSClass, RecordType};
use std::alloc::{AllocError, Global};

/// What a token between owner and data is.
#[derive(Clone, Copy)]
pub(crate) enum Field {
    Ttl(u32),
    /// A word that begins with a digit and is no TTL.
    InvalidTtl,
    Class(DNSClass),
    RecordType(RecordType),
    /// None of these.
    Unknown,
}

/// The fields between owner and data. TTL and class may be omitted.
#[derive(Clone, Copy)]
pub struct Fields {
    /// The TTL, in seconds.
    pub ttl: Option<u32>,
    /// The class.
    pub dns_class: Option<DNSClass>,
    /// The type.
    pub record_type: RecordType,
    /// The number of the tokens of these fields.
    pub count: usize,
}

/// Returns the name of a token, which the origin completes if it is relative, or `None` if the token is no name.
pub(crate) fn parse_name(
    alloc: Global,
    token: Token<'_>,
    origin: &Name,
) -> Result<Option<Name>, AllocError>
    ensures { IfOk result (λ name. name ≡ name_of origin.now (lexeme token.entry)) }
{
    match token {
        Token::CharData(text) => match Name::parse_bytes(alloc, text, Some(origin)) {
            Ok(name) => Ok(Some(name)),
            // Memory for the name was refused.
            Err(ParseError::Memory) => Err(AllocError),
            Err(_) => Ok(None),
        },
        Token::At => Ok(Some(origin.clone()?)),
        _ => Ok(None),
    }
}

/// Returns the class of a word, in any case, if it is one of zone files.
fn parse_class(text: &[u8]) -> Option<DNSClass>
    ensures { result ≡ zone_class text.now }
{
    for class in [DNSClass::IN, DNSClass::CH, DNSClass::HS] {
        if class.name().as_bytes().eq_ignore_ascii_case(text) {
            return Some(class);
        }
    }
    None
}

/// Returns the class whose number a word has, as in `CLASS1`, in any case, if it is one of zone files (RFC 3597 section 5).
fn numbered_class(text: &[u8]) -> Option<DNSClass>
    ensures { result ≡ numbered_class text.now }
{
    if b"CLASS1".eq_ignore_ascii_case(text) {
        Some(DNSClass::IN)
    } else if b"CLASS3".eq_ignore_ascii_case(text) {
        Some(DNSClass::CH)
    } else if b"CLASS4".eq_ignore_ascii_case(text) {
        Some(DNSClass::HS)
    } else {
        None
    }
}

/// Returns the class that a word denotes: its name or, where all types may be, its number.
fn class_of_word(types: Types, text: &[u8]) -> Option<DNSClass>
    ensures { result ≡ class_in types text.now }
{
    if let Some(class) = parse_class(text) {
        return Some(class);
    }
    match types {
        Types::Nine => None,
        Types::All => numbered_class(text),
    }
}

/// Returns what a word between owner and data is.
fn field_of_word(types: Types, text: &[u8]) -> Field
    ensures { field_view result ≡ word_field types text.now }
{
    if text.first().is_some_and(u8::is_ascii_digit) {
        return match parse_ttl_bytes(text) {
            Ok(ttl) => Field::Ttl(ttl),
            Err(_) => Field::InvalidTtl,
        };
    }
    if let Some(class) = class_of_word(types, text) {
        return Field::Class(class);
    }
    match type_of_word(types, text) {
        Some(record_type) => Field::RecordType(record_type),
        None => Field::Unknown,
    }
}

/// Returns what a token between owner and data is.
fn field_of(types: Types, token: Token<'_>) -> Field
    ensures { field_view result ≡ field_in types (lexeme token.entry) }
{
    match token {
        Token::CharData(text) => field_of_word(types, text),
        _ => Field::Unknown,
    }
}

/// Parses the fields between owner and data: a TTL and a class, each at most once and in either order, and a type.
pub fn parse_fields(types: Types, tokens: &[Token<'_>]) -> Result<Fields, EntryFault>
    ensures ok { IfOk result (λ f.
        fields_in types (map lexeme tokens.now) ≡ Ok (fields_view f (map lexeme tokens.now))) }
    ensures within { IfOk result (λ f. f.count ≤ length tokens.now) }
    ensures refused { IfErr result (λ fault. fields_in types (map lexeme tokens.now) ≡ Err fault) }
{
    let mut ttl = None;
    let mut dns_class = None;
    for (i, token) in tokens.iter().enumerate() {
        match field_of(types, *token) {
            Field::Ttl(_) if ttl.is_some() => return Err(EntryFault::RepeatedField),
            Field::Class(_) if dns_class.is_some() => return Err(EntryFault::RepeatedField),
            Field::Ttl(seconds) => ttl = Some(seconds),
            Field::Class(class) => dns_class = Some(class),
            Field::InvalidTtl => return Err(EntryFault::InvalidTtl),
            Field::Unknown => return Err(EntryFault::UnknownType),
            Field::RecordType(record_type) => {
                return Ok(Fields {
                    ttl,
                    dns_class,
                    record_type,
                    count: i + 1,
                });
            }
        }
    }
    Err(EntryFault::MissingType)
}
