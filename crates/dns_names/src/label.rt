//! Labels (RFC 1035 sections 2.3.1 and 2.3.4).

ghost use Rattle.std.specs.Prelude.{◌≡◌, ◌≢◌, ◌≤◌, false, [], ◌∷◌, Err, length, IsOk, IfOk, IfErr};
ghost use Rattle.std.specs.Str.{str_to_ascii_lowercase, str_eq_ignore_ascii_case, bytes_eq};
ghost use Rattle.dns_wire.specs.Name.{IsLabel};
ghost use Rattle.dns_names.specs.Label.{label_of_bytes, label_of_text, refused_from};

pub(crate) mod compare;

ghost use Rattle.dns_wire.specs.Error.{IsUnless};

use crate::error::ParseError;
use crate::text::is_plain_octet;
use smallvec::SmallVec;
use std::alloc::{AllocError, Global};
use std::marker::Model;

/// A label of 1 to 63 bytes (RFC 1035 section 2.3.4, RFC 2181 section 11). Up to 24 bytes are stored inline.
pub struct Label {
    bytes: SmallVec<u8, 24>,
}

impl Drop for Label {
    fn drop(self) {
        let Label { bytes } = self;
        drop(bytes);
    }
}

impl Model for Label {
    ghost use Rattle.std.specs.Prelude.{List, ℕ};
    ghost use Rattle.dns_wire.specs.Name.{IsLabel};

    ghost Value = { List ℕ };

    ghost view = { λ l. l.bytes.items };

    ghost invariant = { λ l. IsLabel l.bytes.items };
}

impl Label {
    /// The maximum length of a label in bytes (RFC 1035 section 2.3.4).
    pub const MAX_LENGTH: usize = 63;

    /// Creates a label from arbitrary bytes.
    pub fn from_raw_bytes(alloc: Global, bytes: &[u8]) -> Result<Label, ParseError>
        ensures outcome { IsUnless ParseError.Memory (label_of_bytes bytes.now) result }
        ensures fault { (error : ParseError) → label_of_bytes bytes.now ≡ Err error
            → result ≡ Err error }
        ensures inline { length bytes.now ≤ 24 → IfErr result (λ error. error ≢ ParseError.Memory) }
    {
        if bytes.is_empty() {
            return Err(ParseError::EmptyLabel);
        }
        if bytes.len() > Label::MAX_LENGTH {
            return Err(ParseError::LabelBytesTooLong);
        }
        Ok(Label {
            bytes: SmallVec::from_slice(alloc, bytes)?,
        })
    }

    /// Creates a label from text without escapes: ASCII letters, digits and `_`, `-` except first, and `*` only first.
    /// A dot separates labels, so it is not allowed (RFC 1035 section 5.1).
    pub fn from_ascii(alloc: Global, text: &str) -> Result<Label, ParseError>
        ensures outcome { IsUnless ParseError.Memory (label_of_text text.now) result }
        ensures fault { (error : ParseError) → label_of_text text.now ≡ Err error
            → result ≡ Err error }
        ensures inline { length text.now ≤ 24 → IfErr result (λ error. error ≢ ParseError.Memory) }
    {
        let bytes = text.as_bytes();
        match first_refused(bytes) {
            Some(place) if !bytes.is_empty() && bytes.len() <= Label::MAX_LENGTH => {
                Err(ParseError::Text(place))
            }
            _ => Label::from_raw_bytes(alloc, bytes),
        }
    }

    /// Creates the label `*` (RFC 4592 section 2.1.1).
    pub fn wildcard(alloc: Global) -> Label
        ensures { result ≡ 42 ∷ [] }
    {
        let mut bytes = SmallVec::new(alloc);
        bytes.push_reserved(b'*');
        Label { bytes }
    }

    /// Returns a copy of the label. It does not fail if there are at most 24 bytes, which are stored inline.
    pub fn clone(&self) -> Result<Label, AllocError>
        ensures ok { IfOk result (λ label. label ≡ self.now) }
        ensures inline { length self.now ≤ 24 → IsOk result }
    {
        Ok(Label {
            bytes: SmallVec::from_slice(*self.bytes.allocator(), self.bytes.as_slice())?,
        })
    }

    /// Returns the label with its ASCII letters in lower case. It does not fail if there are at most 24 bytes, which
    /// are stored inline.
    pub fn to_lowercase(&self) -> Result<Label, AllocError>
        ensures ok { IfOk result (λ label. label ≡ str_to_ascii_lowercase self.now) }
        ensures inline { length self.now ≤ 24 → IsOk result }
    {
        let mut label = self.clone()?;
        label.make_lowercase();
        Ok(label)
    }

    /// Returns the label's allocator.
    pub(crate) fn allocator(&self) -> Global {
        *self.bytes.allocator()
    }

    /// Converts ASCII letters to lower case in place.
    fn make_lowercase(&mut self)
        ensures { self.new ≡ str_to_ascii_lowercase self.old }
    {
        self.bytes.as_mut_slice().make_ascii_lowercase();
    }

    /// Returns `true` if the label is `*` (RFC 4592 section 2.1.1).
    pub fn is_wildcard(&self) -> bool
        ensures { result ≡ bytes_eq self.now (42 ∷ []) }
    {
        self.as_bytes() == b"*".as_slice()
    }

    /// Returns the number of bytes.
    pub fn len(&self) -> usize
        ensures { result ≡ length self.now }
    {
        self.bytes.len()
    }

    /// Returns `false`: a label has at least one byte.
    pub fn is_empty(&self) -> bool
        ensures { result ≡ false }
    {
        self.bytes.is_empty()
    }

    /// Returns the label's bytes.
    pub fn as_bytes(&self) -> &[u8]
        ensures value { result.now ≡ self.now }
        ensures is_label { IsLabel self.now }
    {
        self.bytes.as_slice()
    }

    /// Returns `true` if the labels are equal, ignoring ASCII case (RFC 4343).
    pub fn eq_ignore_ascii_case(&self, other: &Label) -> bool
        ensures { result ≡ str_eq_ignore_ascii_case self.now other.now }
    {
        self.as_bytes().eq_ignore_ascii_case(other.as_bytes())
    }
}

impl Clone for Label {
    ghost is_clone = { λ label copy. copy ≡ label };

    fn clone(&self) -> Result<Self, AllocError> {
        Label::clone(self)
    }
}

/// Returns the place of the first character that needs an escape.
fn first_refused(text: &[u8]) -> Option<usize>
    ensures { result ≡ refused_from 0 text.now }
{
    for place in 0..text.len() {
        if !is_plain_octet(place == 0, text[place]) {
            return Some(place);
        }
    }
    None
}
