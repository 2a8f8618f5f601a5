//! Names from text (RFC 1035 section 5.1).

ghost use Rattle.std.specs.Prelude.{◌≡◌, ◌≢◌, ◌≤◌, length, Ok, Err, IsOk, IfErr, OnOk, option_map};
ghost use Rattle.dns_names.specs.Parse.{PartialName, IsInlinePartial, name_of_text, finish, push_symbol, push_octet, end_label, is_plain_octet};
ghost use Rattle.dns_names.specs.Name.{DomainName, IsInline, IsInlineOutcome};
ghost use Rattle.dns_names.specs.Build.{parse_name};
ghost use Rattle.dns_wire.specs.Error.{IsUnless};

use super::symbol::{Symbol, next_symbol};
use crate::error::ParseError;
use crate::label::Label;
use crate::name::{Name, PartialName};
use std::alloc::Global;

impl PartialName {
    ghost use Rattle.dns_names.specs.internal.Symbol.{symbol_of};

    /// Adds the symbol at a place of the text.
    fn push_symbol(&mut self, place: usize, symbol: Symbol) -> Result<(), ParseError>
        ensures ok { OnOk result (push_symbol self.old
            (record { place = place; symbol = symbol_of symbol }) ≡ Ok self.new) }
        ensures refused { IfErr result (λ error. error ≢ ParseError.Memory
            → push_symbol self.old (record { place = place; symbol = symbol_of symbol })
            ≡ Err error) }
        ensures fault { (error : ParseError)
            → push_symbol self.old (record { place = place; symbol = symbol_of symbol })
            ≡ Err error → result ≡ Err error }
        ensures inline { (next : PartialName)
            → push_symbol self.old (record { place = place; symbol = symbol_of symbol }) ≡ Ok next
            → IsInlinePartial next → IsOk result }
    {
        match symbol {
            Symbol::Dot => self.end_label(),
            Symbol::Plain(byte) => {
                if is_plain_octet(self.label_len() == 0, byte) {
                    self.push_octet(byte)
                } else {
                    Err(ParseError::Text(place))
                }
            }
            Symbol::Escaped(byte) => self.push_octet(byte),
            Symbol::Broken => Err(ParseError::Text(place)),
        }
    }

    /// Adds an octet to the current label.
    fn push_octet(&mut self, byte: u8) -> Result<(), ParseError>
        ensures ok { OnOk result (push_octet self.old byte ≡ Ok self.new) }
        ensures refused { IfErr result (λ error. error ≢ ParseError.Memory
            → push_octet self.old byte ≡ Err error) }
        ensures fault { (error : ParseError) → push_octet self.old byte ≡ Err error
            → result ≡ Err error }
        ensures inline { (next : PartialName) → push_octet self.old byte ≡ Ok next
            → IsInlinePartial next → IsOk result }
    {
        if self.label_len() >= Label::MAX_LENGTH {
            return Err(ParseError::LabelBytesTooLong);
        }
        self.push(byte)?;
        Ok(())
    }

    /// Ends the current label.
    fn end_label(&mut self) -> Result<(), ParseError>
        ensures ok { OnOk result (end_label self.old ≡ Ok self.new) }
        ensures refused { IfErr result (λ error. error ≢ ParseError.Memory
            → end_label self.old ≡ Err error) }
        ensures fault { (error : ParseError) → end_label self.old ≡ Err error
            → result ≡ Err error }
        ensures inline { (next : PartialName) → end_label self.old ≡ Ok next
            → IsInlinePartial next → IsOk result }
    {
        if self.label_len() == 0 {
            return Err(ParseError::EmptyLabel);
        }
        if self.encoded_len() > Name::MAX_LENGTH {
            return Err(ParseError::DomainNameTooLong);
        }
        self.complete_label()?;
        Ok(())
    }

    /// Returns the name at the end of the text.
    fn finish(mut self) -> Result<Name, ParseError>
        ensures outcome { IsUnless ParseError.Memory (finish self) result }
        ensures inline { IsInlineOutcome (finish self) → result ≡ finish self }
    {
        let is_fqdn = self.label_len() == 0 && self.label_count() > 0;
        if self.label_len() > 0 {
            self.end_label()?;
        }
        Ok(self.into_name(is_fqdn))
    }
}

/// Returns `true` if a label may contain the character unescaped.
pub(crate) fn is_plain_octet(is_first: bool, byte: u8) -> bool
    ensures { result ≡ is_plain_octet is_first byte }
{
    match byte {
        b'a'..=b'z' | b'A'..=b'Z' | b'0'..=b'9' | b'_' => true,
        b'*' => is_first,
        b'-' => !is_first,
        _ => false,
    }
}

impl Name {
    /// Parses a name: labels separated by dots, with a trailing dot if it is fully qualified. `.` is the root, and the
    /// empty text is the relative name without labels. A label may contain ASCII letters, digits and `_`, `-` except
    /// first, and `*` only first; any other octet must be escaped, as in `\.` or `\046` (RFC 1035 section 5.1). That
    /// exactly the texts of this grammar parse is the theorem `laws::parsing_follows_the_grammar`.
    pub fn from_ascii(alloc: Global, text: &str) -> Result<Name, ParseError>
        ensures outcome { IsUnless ParseError.Memory (name_of_text text.now) result }
        ensures inline { (name : DomainName) → name_of_text text.now ≡ Ok name
            → IsInline name.labels → IsOk result }
        ensures short { length text.now ≤ 32 → result ≡ name_of_text text.now }
    {
        Name::from_ascii_bytes(alloc, text.as_bytes())
    }

    /// Parses a name from the bytes of a text, as `from_ascii` does. Bytes that are not ASCII are refused.
    #[tactic(auto, unfolding(crate::specs::Parse::name_of_text))]
    pub fn from_ascii_bytes(alloc: Global, text: &[u8]) -> Result<Name, ParseError>
        ensures outcome { IsUnless ParseError.Memory (name_of_text text.now) result }
        ensures inline { (name : DomainName) → name_of_text text.now ≡ Ok name
            → IsInline name.labels → IsOk result }
        ensures short { length text.now ≤ 32 → result ≡ name_of_text text.now }
    {
        if text == b".".as_slice() {
            return Ok(Name::root(alloc));
        }
        let mut partial = PartialName::new(alloc);
        let mut place = 0;
        while place < text.len() {
            let (symbol, more) = next_symbol(&text[place..]);
            partial.push_symbol(place, symbol)?;
            place += 1 + more;
        }
        partial.finish()
    }

    /// Parses a name as `from_ascii` does, and appends the origin, if there is one, to a relative name. The result is
    /// then fully qualified.
    pub fn parse(alloc: Global, text: &str, origin: Option<&Name>) -> Result<Name, ParseError>
        ensures outcome { IsUnless ParseError.Memory
            (parse_name text.now (option_map (λ o. o.now) origin.entry)) result }
        ensures inline { (name : DomainName)
            → parse_name text.now (option_map (λ o. o.now) origin.entry) ≡ Ok name
            → IsInline name.labels → IsOk result }
        ensures short { length text.now ≤ 32
            → IsInlineOutcome (parse_name text.now (option_map (λ o. o.now) origin.entry))
            → result ≡ parse_name text.now (option_map (λ o. o.now) origin.entry) }
    {
        Name::parse_bytes(alloc, text.as_bytes(), origin)
    }

    /// Parses a name from the bytes of a text, as `parse` does.
    pub fn parse_bytes(
        alloc: Global,
        text: &[u8],
        origin: Option<&Name>,
    ) -> Result<Name, ParseError>
        ensures outcome { IsUnless ParseError.Memory
            (parse_name text.now (option_map (λ o. o.now) origin.entry)) result }
        ensures inline { (name : DomainName)
            → parse_name text.now (option_map (λ o. o.now) origin.entry) ≡ Ok name
            → IsInline name.labels → IsOk result }
        ensures short { length text.now ≤ 32
            → IsInlineOutcome (parse_name text.now (option_map (λ o. o.now) origin.entry))
            → result ≡ parse_name text.now (option_map (λ o. o.now) origin.entry) }
    {
        let name = Name::from_ascii_bytes(alloc, text)?;
        match origin {
            Some(origin) if !name.is_fqdn() => name.append_domain(origin),
            _ => Ok(name),
        }
    }

    /// Parses a name as `from_ascii` does: text that is not ASCII is refused.
    pub fn from_str_relaxed(alloc: Global, text: &str) -> Result<Name, ParseError>
        ensures outcome { IsUnless ParseError.Memory (name_of_text text.now) result }
        ensures inline { (name : DomainName) → name_of_text text.now ≡ Ok name
            → IsInline name.labels → IsOk result }
        ensures short { length text.now ≤ 32 → result ≡ name_of_text text.now }
    {
        Name::from_ascii(alloc, text)
    }
}
