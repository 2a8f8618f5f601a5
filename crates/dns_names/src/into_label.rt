//! Conversion into labels.

ghost use Rattle.std.specs.Prelude.{◌≡◌, ℕ, List, Result, Ok, Err, string_bytes};
ghost use Rattle.dns_names.specs.Label.{label_of_bytes, label_of_text, IsInlineLabel};
ghost use Rattle.dns_names.specs.declared.error.ParseError.{ParseError};
ghost use Rattle.dns_wire.specs.Error.{IsUnless};

use crate::error::ParseError;
use crate::label::Label;
use std::alloc::Global;

/// A value that converts into a label: arbitrary bytes, or text without escapes.
pub trait IntoLabel: Sized {
    /// The label, or why there is none.
    ghost label: { Self → Result (List ℕ) ParseError };

    /// Converts the value into a label. At most 24 bytes are stored inline, without memory.
    fn into_label(self, alloc: Global) -> Result<Label, ParseError>
        ensures outcome { IsUnless ParseError.Memory (label self) result }
        ensures fault { (error : ParseError) → label self ≡ Err error → result ≡ Err error }
        ensures inline { IsInlineLabel (label self) → result ≡ label self };
}

impl IntoLabel for Label {
    ghost label = { λ own. Ok own };

    fn into_label(self, _alloc: Global) -> Result<Label, ParseError> {
        Ok(self)
    }
}

impl<'a> IntoLabel for &'a Label {
    ghost label = { λ own. Ok own.now };

    fn into_label(self, _alloc: Global) -> Result<Label, ParseError> {
        Ok(self.clone()?)
    }
}

impl<'a> IntoLabel for &'a [u8] {
    ghost label = { λ bytes. label_of_bytes bytes.now };

    fn into_label(self, alloc: Global) -> Result<Label, ParseError> {
        Label::from_raw_bytes(alloc, self)
    }
}

impl IntoLabel for Vec<u8> {
    ghost label = { λ bytes. label_of_bytes bytes.items };

    fn into_label(self, alloc: Global) -> Result<Label, ParseError> {
        Label::from_raw_bytes(alloc, self.as_slice())
    }
}

impl<'a> IntoLabel for &'a str {
    ghost label = { λ text. label_of_text text.now };

    fn into_label(self, alloc: Global) -> Result<Label, ParseError> {
        Label::from_ascii(alloc, self)
    }
}

impl IntoLabel for String {
    ghost label = { λ text. label_of_text (string_bytes text) };

    fn into_label(self, alloc: Global) -> Result<Label, ParseError> {
        Label::from_ascii(alloc, self.as_str())
    }
}
