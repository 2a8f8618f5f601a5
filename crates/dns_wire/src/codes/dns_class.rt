//! Classes of records and questions (RFC 1035 sections 3.2.4 and 3.2.5, RFC 2136 section 1.3).

ghost use Rattle.std.specs.Prelude.{◌≡◌, Some, find};
ghost use Rattle.std.specs.Str.{str_eq_ignore_ascii_case};
ghost use Rattle.dns_wire.specs.codes.CodeText.{class_name, class_text};

use crate::codes::code_text::{CodeTextError, is_same_word, parse_numbered};
use std::fmt;
use std::str::FromStr;

/// A class of a record or a question.
///
/// Classes are equal if their numbers are: `Unknown(1)` equals `IN` (RFC 3597 section 3).
#[derive(Clone, Copy, Debug)]
pub enum DNSClass {
    /// The Internet, 1.
    IN,
    /// Chaos, 3.
    CH,
    /// Hesiod, 4.
    HS,
    /// No class, 254 (RFC 2136 section 2.4).
    NONE,
    /// Any class, 255 (RFC 1035 section 3.2.5).
    ANY,
    /// The payload size, which an OPT record has in place of a class (RFC 6891 section 6.1.2).
    OPT(u16),
    /// Any other class, by its number.
    Unknown(u16),
}

impl DNSClass {
    ghost use Rattle.std.specs.Prelude.{◌≡◌, max};

    /// Returns the name in capitals, or an empty text for a class without a name.
    pub fn name(self) -> &'static str
        ensures { result.now ≡ class_name self }
    {
        match self {
            DNSClass::IN => "IN",
            DNSClass::CH => "CH",
            DNSClass::HS => "HS",
            DNSClass::NONE => "NONE",
            DNSClass::ANY => "ANY",
            DNSClass::OPT(_) | DNSClass::Unknown(_) => "",
        }
    }

    /// Returns the class of an OPT record that announces this payload size; a size below 512 becomes 512 (RFC 6891
    /// section 6.2.3).
    pub fn for_opt(payload: u16) -> Self
        ensures { result ≡ DNSClass.OPT (max payload 512) }
    {
        DNSClass::OPT(payload.max(512))
    }
}

impl From<u16> for DNSClass {
    ghost use Rattle.std.specs.Prelude.{◌≡◌};
    ghost use Rattle.dns_wire.specs.codes.DNSClass.{class_of};

    ghost from_gives = { λ number class. class ≡ class_of number };

    fn from(number: u16) -> DNSClass {
        match number {
            1 => DNSClass::IN,
            3 => DNSClass::CH,
            4 => DNSClass::HS,
            254 => DNSClass::NONE,
            255 => DNSClass::ANY,
            _ => DNSClass::Unknown(number),
        }
    }
}

impl From<DNSClass> for u16 {
    ghost use Rattle.std.specs.Prelude.{◌≡◌};
    ghost use Rattle.dns_wire.specs.codes.DNSClass.{class_number};

    ghost from_gives = { λ class number. number ≡ class_number class };

    fn from(class: DNSClass) -> u16 {
        match class {
            DNSClass::IN => 1,
            DNSClass::CH => 3,
            DNSClass::HS => 4,
            DNSClass::NONE => 254,
            DNSClass::ANY => 255,
            DNSClass::OPT(payload) => payload,
            DNSClass::Unknown(number) => number,
        }
    }
}

impl PartialEq for DNSClass {
    ghost use Rattle.std.specs.Cmp.{nat_eq_equiv, on_equiv, partial_equiv_from_equiv};
    ghost use Rattle.dns_wire.specs.codes.DNSClass.{class_number, same_class};

    ghost eq = { same_class };

    ghost laws = { partial_equiv_from_equiv (on_equiv class_number nat_eq_equiv) };

    /// Returns `true` if the numbers are equal.
    fn eq(&self, other: &DNSClass) -> bool {
        u16::from(*self) == u16::from(*other)
    }
}

impl Eq for DNSClass {
    ghost use Rattle.std.specs.Cmp.{nat_eq_equiv, on_equiv};
    ghost use Rattle.dns_wire.specs.codes.DNSClass.{class_number};

    ghost laws = { on_equiv class_number nat_eq_equiv };
}

impl DNSClass {
    ghost use Rattle.std.specs.Prelude.{◌≡◌};
    ghost use Rattle.dns_wire.specs.codes.DNSClass.{class_number, class_of};

    /// Returns the variant that the class's number decodes to: `Unknown(1)` becomes `IN` (RFC 3597 section 3).
    pub fn canonical(self) -> DNSClass
        ensures { result ≡ class_of (class_number self) }
    {
        DNSClass::from(u16::from(self))
    }
}

/// The classes that have a name.
const NAMED: [DNSClass; 5] = [
    DNSClass::IN,
    DNSClass::CH,
    DNSClass::HS,
    DNSClass::NONE,
    DNSClass::ANY,
];

/// Returns the class that a text names, in any case.
fn find_named(classes: &[DNSClass], text: &[u8]) -> Option<DNSClass>
    ensures { result
        ≡ find (λ class. str_eq_ignore_ascii_case (class_name class) text.now) classes.now }
{
    classes
        .iter()
        .copied()
        .find(|class| is_same_word(class.name().as_bytes(), text))
}

impl DNSClass {
    ghost use Rattle.dns_wire.specs.codes.CodeText.{class_of_text};

    /// Parses a class from bytes: a name in any case, or `CLASS` and a number (RFC 3597 section 5).
    pub fn from_ascii_bytes(text: &[u8]) -> Option<DNSClass>
        ensures { result ≡ class_of_text text.now }
    {
        if let Some(class) = find_named(&NAMED, text) {
            return Some(class);
        }
        let number = parse_numbered(b"CLASS".as_slice(), text)?;
        Some(DNSClass::from(number))
    }
}

impl FromStr for DNSClass {
    type Err = CodeTextError;

    ghost use Rattle.std.specs.Prelude.{◌≡◌, ok_or};
    ghost use Rattle.dns_wire.specs.codes.CodeText.{class_of_text};
    ghost use Rattle.dns_wire.specs.declared.codes.code_text.CodeTextError.TheVariants.{UnknownName};

    ghost from_str_gives = { λ text result. result ≡ ok_or (class_of_text text) UnknownName };

    /// Parses a class: a name in any case, or `CLASS` and a number (RFC 3597 section 5).
    fn from_str(text: &str) -> Result<DNSClass, CodeTextError> {
        DNSClass::from_ascii_bytes(text.as_bytes()).ok_or(CodeTextError::UnknownName)
    }
}

impl fmt::Display for DNSClass {
    ghost output = { λ class. Some (class_text class) };

    /// Writes the name in capitals, or `CLASS` and the number if it has none (RFC 3597 section 5).
    fn fmt<W: fmt::Write>(&self, f: &mut fmt::Formatter<W>) -> fmt::Result {
        match self {
            DNSClass::OPT(number) | DNSClass::Unknown(number) => write!(f, "CLASS{number}"),
            _ => f.write_str(self.name()),
        }
    }
}
