//! Options of a message's extension (RFC 6891 section 6.1.2).

ghost use Rattle.std.specs.Prelude.{◌≡◌, ◌≢◌, ◌+◌, [], IfOk, IfErr, IsOk, ◌++◌, ◌<◌, ◌^◌, List, length, flat_map};
ghost use Rattle.dns_data.specs.Wire.{ValuesAt, RefusesFields};
ghost use Rattle.dns_data.specs.rdata.OPT.{opt_kinds, opt_values};
ghost use Rattle.std.specs.Int.{w16, to_be_bytes};
ghost use Rattle.std.specs.Fmt.{WritesOnOk};
ghost use Rattle.dns_data.specs.Field.{option_form};
ghost use Rattle.dns_data.specs.Text.{hex_text};

use crate::generic::write_hex;
use crate::octets::{OptionData, clone_items};
use crate::wire::{emit_items, read_items};
use dns_wire::{BinDecoder, BinEncodable, BinEncoder, DecodeError, EncodeError};
use std::alloc::{AllocError, Global};
use std::cmp::Ordering;
use std::fmt;
use std::marker::Model;

/// An option (RFC 6891 section 6.1.2).
#[derive(Debug, Drop)]
pub struct EdnsOption {
    code: u16,
    value: OptionData,
}

impl Model for EdnsOption {
    ghost use Rattle.dns_data.specs.Field.{OptionValue};

    ghost Value = { OptionValue };

    ghost view = { λ o. record { code = o.code; bytes = o.value } };
}

impl EdnsOption {
    /// Creates an option.
    pub fn new(code: u16, value: OptionData) -> EdnsOption
        ensures { result ≡ record { code = code; bytes = value } }
    {
        EdnsOption { code, value }
    }

    /// Returns the code.
    pub fn code(&self) -> u16
        ensures { result ≡ self.now.code }
    {
        self.code
    }

    /// Returns the data.
    pub fn data(&self) -> &[u8]
        ensures value { result.now ≡ self.now.bytes }
        ensures bounded { length result.now < 2 ^ 16 }
    {
        self.value.as_slice()
    }

    /// Returns the code and the data, which is not copied.
    pub fn into_parts(self) -> (u16, OptionData)
        ensures { result ≡ (self.code, self.bytes) }
    {
        (self.code, self.value)
    }

    /// Clones the option. Without data it takes no memory.
    pub fn clone(&self) -> Result<EdnsOption, AllocError>
        ensures ok { IfOk result (λ copy. copy ≡ self.now) }
        ensures empty { self.now.bytes ≡ [] → IsOk result }
    {
        Ok(EdnsOption {
            code: self.code,
            value: self.value.clone()?,
        })
    }
}

impl BinEncodable for EdnsOption {
    ghost use Rattle.dns_data.specs.Field.{option_pieces};

    ghost pieces = { λ option _. option_pieces option };

    fn emit(&self, encoder: &mut BinEncoder<'_>) -> Result<(), EncodeError> {
        let bytes = self.value.as_slice();
        encoder.emit_u16(self.code)?;
        encoder.emit_u16(bytes.len() as u16)?;
        encoder.emit_vec(bytes)
    }
}

impl Clone for EdnsOption {
    ghost is_clone = { λ option copy. copy ≡ option };

    fn clone(&self) -> Result<EdnsOption, AllocError> {
        EdnsOption::clone(self)
    }
}

impl PartialEq for EdnsOption {
    ghost use Rattle.std.specs.Cmp.{partial_equiv_from_equiv};
    ghost use Rattle.dns_data.specs.Field.{same_option};
    ghost use Rattle.dns_data.specs.internal.Equality.{same_option-equivalence};

    ghost eq = { same_option };

    ghost laws = { partial_equiv_from_equiv same_option-equivalence };

    fn eq(&self, other: &EdnsOption) -> bool {
        self.code == other.code && self.value == other.value
    }
}

impl Eq for EdnsOption {
    ghost use Rattle.dns_data.specs.internal.Equality.{same_option-equivalence};

    ghost laws = { same_option-equivalence };
}

impl Ord for EdnsOption {
    ghost use Rattle.std.proofs.Common.{refl};
    ghost use Rattle.dns_data.specs.Field.{option_cmp};
    ghost use Rattle.dns_data.specs.internal.Order.{option_cmp-total, options_tie};

    ghost cmp = { option_cmp };

    ghost total = { option_cmp-total };

    ghost matches_partial_cmp = { λ x y. refl };

    ghost matches_eq = { options_tie };

    fn cmp(&self, other: &EdnsOption) -> Ordering {
        self.code
            .cmp(&other.code)
            .then(self.value.cmp(&other.value))
    }
}

impl PartialOrd for EdnsOption {
    ghost use Rattle.std.specs.Ordering.{as_partial_cmp};
    ghost use Rattle.std.specs.Cmp.{po};
    ghost use Rattle.dns_data.specs.Field.{option_cmp};
    ghost use Rattle.dns_data.specs.internal.Order.{option_cmp-total, options_tie};

    ghost partial_cmp = { as_partial_cmp option_cmp };

    ghost laws = { po option_cmp-total options_tie };

    fn partial_cmp(&self, other: &EdnsOption) -> Option<Ordering> {
        Some(self.cmp(other))
    }
}

/// The options of a message's extension (RFC 6891 section 6.1.2).
#[derive(Debug, Drop)]
pub struct OPT {
    options: Vec<EdnsOption>,
}

impl Model for OPT {
    ghost use Rattle.std.specs.Prelude.{List};
    ghost use Rattle.dns_data.specs.Field.{OptionValue};

    ghost Value = { List OptionValue };

    ghost view = { λ o. o.options.items };
}

impl OPT {
    /// Creates the data from its options, without copying them.
    pub fn new(options: Vec<EdnsOption>) -> OPT
        ensures { result ≡ options.items }
    {
        OPT { options }
    }

    /// Returns the options.
    pub fn options(&self) -> &[EdnsOption]
        ensures { result.now ≡ self.now }
    {
        self.options.as_slice()
    }

    /// Reads data of `len` bytes. The last option may extend past it.
    pub(crate) fn read(
        alloc: Global,
        decoder: &mut BinDecoder<'_>,
        len: u16,
    ) -> Result<OPT, DecodeError>
        ensures read { IfOk result (λ opt. ValuesAt decoder.old.bytes (decoder.old.index + len)
            opt_kinds decoder.old.index (opt_values opt) decoder.new.index) }
        ensures refused { IfErr result (λ error. error ≢ DecodeError.Memory
            → RefusesFields decoder.old.bytes (decoder.old.index + len) opt_kinds
            decoder.old.index error) }
        ensures bytes { decoder.new.bytes ≡ decoder.old.bytes }
    {
        let options = read_items(alloc, decoder, usize::from(len))?;
        Ok(OPT::new(options))
    }
}

impl BinEncodable for OPT {
    ghost use Rattle.dns_data.specs.Field.{values_pieces};

    ghost pieces = { λ opt s. values_pieces s.canonical opt_kinds (opt_values opt) };

    fn emit(&self, encoder: &mut BinEncoder<'_>) -> Result<(), EncodeError> {
        emit_items(self.options(), encoder)
    }
}

impl OPT {
    ghost use Rattle.dns_data.specs.Field.{values_len};
    ghost use Rattle.dns_data.specs.Memory.{AreInlineValues};

    /// Returns the length of the data's uncompressed encoding.
    pub fn encoded_len(&self) -> u128
        ensures { result ≡ values_len opt_kinds (opt_values self.now) }
    {
        encoded_len(self.options())
    }

    /// Returns the options as a vector, without copying them.
    pub fn into_options(self) -> Vec<EdnsOption>
        ensures { result.items ≡ self }
    {
        self.options
    }

    /// Clones the data. No options take no memory.
    pub fn clone(&self) -> Result<OPT, AllocError>
        ensures ok { IfOk result (λ copy. copy ≡ self.now) }
        ensures inline { AreInlineValues opt_kinds (opt_values self.now) → IsOk result }
    {
        Ok(OPT {
            options: clone_items(&self.options)?,
        })
    }
}

impl Clone for OPT {
    ghost is_clone = { λ opt copy. copy ≡ opt };

    fn clone(&self) -> Result<OPT, AllocError> {
        OPT::clone(self)
    }
}

impl PartialEq for OPT {
    ghost use Rattle.std.specs.Cmp.{partial_equiv_from_equiv};
    ghost use Rattle.std.specs.Cmp.Lexicographic.{pointwise, lists_equiv};
    ghost use Rattle.dns_data.specs.Field.{same_option};
    ghost use Rattle.dns_data.specs.internal.Equality.{same_option-equivalence};

    ghost eq = { pointwise same_option };

    ghost laws = { partial_equiv_from_equiv (lists_equiv same_option-equivalence) };

    fn eq(&self, other: &OPT) -> bool {
        self.options == other.options
    }
}

impl Eq for OPT {
    ghost use Rattle.std.specs.Cmp.Lexicographic.{lists_equiv};
    ghost use Rattle.dns_data.specs.internal.Equality.{same_option-equivalence};

    ghost laws = { lists_equiv same_option-equivalence };
}

impl Ord for OPT {
    ghost use Rattle.std.proofs.Common.{refl};
    ghost use Rattle.std.specs.Cmp.Lexicographic.{slice_cmp, lists_total, lists_ties};
    ghost use Rattle.dns_data.specs.Field.{option_cmp};
    ghost use Rattle.dns_data.specs.internal.Order.{option_cmp-total, options_tie};

    ghost cmp = { slice_cmp option_cmp };

    ghost total = { lists_total option_cmp-total };

    ghost matches_partial_cmp = { λ x y. refl };

    ghost matches_eq = { lists_ties option_cmp options_tie };

    fn cmp(&self, other: &OPT) -> Ordering {
        self.options.cmp(&other.options)
    }
}

impl PartialOrd for OPT {
    ghost use Rattle.std.specs.Ordering.{as_partial_cmp};
    ghost use Rattle.std.specs.Cmp.{po};
    ghost use Rattle.std.specs.Cmp.Lexicographic.{slice_cmp, lists_total, lists_ties};
    ghost use Rattle.dns_data.specs.Field.{option_cmp};
    ghost use Rattle.dns_data.specs.internal.Order.{option_cmp-total, options_tie};

    ghost partial_cmp = { as_partial_cmp (slice_cmp option_cmp) };

    ghost laws = { po (lists_total option_cmp-total) (lists_ties option_cmp options_tie) };

    fn partial_cmp(&self, other: &OPT) -> Option<Ordering> {
        Some(self.cmp(other))
    }
}

impl fmt::Display for OPT {
    ghost use Rattle.std.specs.Prelude.{Some, flat_map};
    ghost use Rattle.dns_data.specs.Field.{option_form};
    ghost use Rattle.dns_data.specs.Text.{generic_text};

    ghost output = { λ o. Some (generic_text (flat_map option_form o)) };

    /// Writes the encoding of the options in the form of RFC 3597 section 5.
    fn fmt<W: fmt::Write>(&self, f: &mut fmt::Formatter<W>) -> fmt::Result {
        let options = self.options.as_slice();
        if options.is_empty() {
            return f.write_str("\\# 0");
        }
        let len = encoded_len(options);
        write!(f, "\\# {len} ")?;
        write_options(options, f)
    }
}

/// Returns the length of the encoding of options.
fn encoded_len(options: &[EdnsOption]) -> u128
    ensures { result ≡ length (flat_map option_form options.now) }
{
    let mut len = 0u128;
    for option in options {
        len += 4 + option.data().len() as u128;
    }
    len
}

/// Writes the encoding of options in hexadecimal digits.
fn write_options<W: fmt::Write>(options: &[EdnsOption], f: &mut fmt::Formatter<W>) -> fmt::Result
    ensures { WritesOnOk W.write_str_gives f.old result
        (hex_text (flat_map option_form options.now)) f.new }
{
    for option in options {
        write_option(option, f)?;
    }
    Ok(())
}

/// Writes the encoding of an option in hexadecimal digits.
fn write_option<W: fmt::Write>(option: &EdnsOption, f: &mut fmt::Formatter<W>) -> fmt::Result
    ensures { WritesOnOk W.write_str_gives f.old result (hex_text (option_form option.now)) f.new }
{
    let bytes = option.data();
    write_hex(&option.code().to_be_bytes(), f)?;
    write_hex(&(bytes.len() as u16).to_be_bytes(), f)?;
    write_hex(bytes, f)
}
