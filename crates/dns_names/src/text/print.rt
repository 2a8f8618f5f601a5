//! Names and labels to text (RFC 1035 section 5.1).

ghost use Rattle.std.specs.Prelude.{◌≡◌, ◌∷◌, Some, drop, ◌<◌, ◌++◌, Ok, IfOk, OnOk, codes, string_bytes};
ghost use Rattle.std.specs.Fmt.{WritesOnOk};
ghost use Rattle.dns_names.specs.Print.{octet_text, escape_sequence, octets_text, label_text, dotted_labels, text_of_name, debug_text, AreOctets};
ghost use Rattle.std.specs.List.{AllByRecursion};
ghost use Rattle.dns_names.specs.Parse.{name_of_text};

use super::is_plain_octet;
use crate::label::Label;
use crate::lower_name::LowerName;
use crate::name::Name;
use std::alloc::AllocError;
use std::fmt;

impl fmt::Display for Name {
    ghost output = { λ name. Some (text_of_name name) };

    fn fmt<W: fmt::Write>(&self, f: &mut fmt::Formatter<W>) -> fmt::Result {
        if self.label_count() > 0 {
            write_octets(true, self.label(0), f)?;
            write_dotted_labels(self, f)?;
        }
        if self.is_fqdn() {
            f.write_char('.')?;
        }
        Ok(())
    }
}

impl fmt::Debug for Name {
    ghost debug_output = { λ name. Some (debug_text (codes "Name") (text_of_name name)) };

    fn fmt<W: fmt::Write>(&self, f: &mut fmt::Formatter<W>) -> fmt::Result {
        write!(f, "Name(\"{self}\")")
    }
}

impl fmt::Display for LowerName {
    ghost output = { λ name. Some (text_of_name name) };

    fn fmt<W: fmt::Write>(&self, f: &mut fmt::Formatter<W>) -> fmt::Result {
        self.as_name().fmt(f)
    }
}

impl fmt::Debug for LowerName {
    ghost debug_output = { λ name. Some (debug_text (codes "LowerName") (text_of_name name)) };

    fn fmt<W: fmt::Write>(&self, f: &mut fmt::Formatter<W>) -> fmt::Result {
        write!(f, "LowerName(\"{self}\")")
    }
}

impl fmt::Display for Label {
    ghost output = { λ label. Some (label_text label) };

    fn fmt<W: fmt::Write>(&self, f: &mut fmt::Formatter<W>) -> fmt::Result {
        self.write_ascii(f)
    }
}

impl fmt::Debug for Label {
    ghost debug_output = { λ label. Some (debug_text (codes "Label") (label_text label)) };

    fn fmt<W: fmt::Write>(&self, f: &mut fmt::Formatter<W>) -> fmt::Result {
        write!(f, "Label(\"{self}\")")
    }
}

impl Label {
    /// Writes the label as text, as `to_ascii` returns it.
    pub fn write_ascii<W: fmt::Write>(&self, f: &mut fmt::Formatter<W>) -> fmt::Result
        ensures { WritesOnOk W.write_str_gives f.old result (label_text self.now) f.new }
    {
        write_octets(true, self.as_bytes(), f)
    }
}

impl Name {
    /// Returns the name as text, which `from_ascii` parses back to this name.
    pub fn to_ascii(&self) -> Result<String, AllocError>
        ensures text { IfOk result (λ text. string_bytes text ≡ text_of_name self.now) }
        ensures read { IfOk result (λ text. name_of_text (string_bytes text) ≡ Ok self.now) }
    {
        let mut text = String::with_capacity(self.allocator(), self.encoded_len())?;
        push_name(self, &mut text)?;
        Ok(text)
    }
}

impl Label {
    /// Returns the label as text: each octet as itself if it needs no escape, and else as `\DDD`.
    pub fn to_ascii(&self) -> Result<String, AllocError>
        ensures { IfOk result (λ text. string_bytes text ≡ label_text self.now) }
    {
        let mut text = String::with_capacity(self.allocator(), self.len())?;
        push_label(self.as_bytes(), &mut text)?;
        Ok(text)
    }
}

/// Writes the labels after the first, each after a dot.
fn write_dotted_labels<W: fmt::Write>(name: &Name, f: &mut fmt::Formatter<W>) -> fmt::Result
    ensures { WritesOnOk W.write_str_gives f.old result
        (dotted_labels (drop 1 name.now.labels)) f.new }
{
    let offsets = name.label_offsets();
    for index in 1..name.label_count() {
        write_after_dot(name.label_at(&offsets, index), f)?;
    }
    Ok(())
}

/// Writes a dot and a label.
fn write_after_dot<W: fmt::Write>(label: &[u8], f: &mut fmt::Formatter<W>) -> fmt::Result
    ensures { WritesOnOk W.write_str_gives f.old result (46 ∷ label_text label.now) f.new }
{
    f.write_char('.')?;
    write_octets(true, label, f)
}

/// Writes octets of a label, of which the first may be the label's first.
fn write_octets<W: fmt::Write>(
    is_first: bool,
    octets: &[u8],
    f: &mut fmt::Formatter<W>,
) -> fmt::Result
    ensures { WritesOnOk W.write_str_gives f.old result (octets_text is_first octets.now) f.new }
{
    let mut is_first = is_first;
    for octet in octets {
        write_octet(is_first, *octet, f)?;
        is_first = false;
    }
    Ok(())
}

/// Writes an octet as itself if it needs no escape, and else as `\DDD`.
fn write_octet<W: fmt::Write>(is_first: bool, octet: u8, f: &mut fmt::Formatter<W>) -> fmt::Result
    ensures { WritesOnOk W.write_str_gives f.old result (octet_text is_first octet) f.new }
{
    if is_plain_octet(is_first, octet) {
        return f.write_char(octet as char);
    }
    write_escape(octet, f)
}

/// Writes an octet as a backslash and three digits.
fn write_escape<W: fmt::Write>(octet: u8, f: &mut fmt::Formatter<W>) -> fmt::Result
    ensures { WritesOnOk W.write_str_gives f.old result (escape_sequence octet) f.new }
{
    f.write_char('\\')?;
    f.write_char((b'0' + octet / 100) as char)?;
    f.write_char((b'0' + octet / 10 % 10) as char)?;
    f.write_char((b'0' + octet % 10) as char)
}

/// Appends a name.
fn push_name(name: &Name, text: &mut String) -> Result<(), AllocError>
    ensures text { OnOk result (string_bytes text.new ≡ string_bytes text.old
        ++ text_of_name name.now) }
    ensures octets { OnOk result (AllByRecursion AreOctets name.now.labels) }
{
    if name.label_count() > 0 {
        push_label(name.label(0), text)?;
        push_dotted_labels(name, text)?;
    }
    if name.is_fqdn() {
        text.push('.')?;
    }
    Ok(())
}

/// Appends the labels after the first, each after a dot.
fn push_dotted_labels(name: &Name, text: &mut String) -> Result<(), AllocError>
    ensures text { OnOk result (string_bytes text.new ≡ string_bytes text.old
        ++ dotted_labels (drop 1 name.now.labels)) }
    ensures octets { OnOk result (AllByRecursion AreOctets (drop 1 name.now.labels)) }
{
    let offsets = name.label_offsets();
    for index in 1..name.label_count() {
        push_after_dot(name.label_at(&offsets, index), text)?;
    }
    Ok(())
}

/// Appends a dot and a label.
fn push_after_dot(label: &[u8], text: &mut String) -> Result<(), AllocError>
    ensures text { OnOk result (string_bytes text.new ≡ string_bytes text.old
        ++ (46 ∷ label_text label.now)) }
    ensures octets { OnOk result (AreOctets label.now) }
{
    text.push('.')?;
    push_label(label, text)
}

/// Appends a label.
fn push_label(label: &[u8], text: &mut String) -> Result<(), AllocError>
    ensures text { OnOk result (string_bytes text.new ≡ string_bytes text.old
        ++ label_text label.now) }
    ensures octets { OnOk result (AreOctets label.now) }
{
    let mut is_first = true;
    for octet in label {
        push_octet(is_first, *octet, text)?;
        is_first = false;
    }
    Ok(())
}

/// Appends an octet as itself if it needs no escape, and else as `\DDD`.
fn push_octet(is_first: bool, octet: u8, text: &mut String) -> Result<(), AllocError>
    ensures text { OnOk result (string_bytes text.new ≡ string_bytes text.old
        ++ octet_text is_first octet) }
    ensures small { octet < 256 }
{
    if is_plain_octet(is_first, octet) {
        return text.push(octet as char);
    }
    push_escape(octet, text)
}

/// Appends an octet as a backslash and three digits.
fn push_escape(octet: u8, text: &mut String) -> Result<(), AllocError>
    ensures { OnOk result (string_bytes text.new ≡ string_bytes text.old ++ escape_sequence octet) }
{
    text.push('\\')?;
    text.push((b'0' + octet / 100) as char)?;
    text.push((b'0' + octet / 10 % 10) as char)?;
    text.push((b'0' + octet % 10) as char)
}
