//! Texts (RFC 1035 section 3.3.14).

ghost use Rattle.std.specs.Prelude.{◌≡◌, ◌≢◌, ◌+◌, IfOk, IfErr, IsOk, ◌∷◌, Option};
ghost use Rattle.std.specs.Result.{result_err};
ghost use Rattle.dns_data.specs.Wire.{ValuesAt, RefusesFields};
ghost use Rattle.dns_data.specs.rdata.TXT.{txt_kinds, txt_values};
ghost use Rattle.std.specs.Fmt.{WritesOnOk};
ghost use Rattle.dns_names.specs.Name.{DomainName};
ghost use Rattle.dns_text.specs.CharacterString.{quoted_text};
ghost use Rattle.dns_data.specs.Memory.{IsParsedEarly};
ghost use Rattle.dns_data.specs.Text.{AreParsed, RefusesTokens};
ghost use Rattle.dns_data.specs.internal.Text.{more_strings_text};

use crate::error::RDataParseError;
use crate::octets::{CharacterString, clone_items};
use crate::text::DataTokens;
use crate::wire::{emit_items, read_items};
use dns_text::QuotedString;
use dns_wire::{BinDecoder, BinEncodable, BinEncoder, DecodeError, EncodeError};
use std::alloc::{AllocError, Global};
use std::cmp::Ordering;
use std::fmt;
use std::marker::Model;

/// Character strings (RFC 1035 section 3.3.14).
#[derive(Debug, Drop)]
pub struct TXT {
    strings: Vec<CharacterString>,
}

impl Model for TXT {
    ghost use Rattle.std.specs.Prelude.{List, ℕ};

    ghost Value = { List (List ℕ) };

    ghost view = { λ t. t.strings.items };
}

impl TXT {
    /// Creates the data from its strings, without copying them.
    pub fn new(strings: Vec<CharacterString>) -> TXT
        ensures { result ≡ strings.items }
    {
        TXT { strings }
    }

    /// Returns the strings.
    pub fn strings(&self) -> &[CharacterString]
        ensures { result.now ≡ self.now }
    {
        self.strings.as_slice()
    }

    /// Returns the strings as a vector, without copying them.
    pub fn into_strings(self) -> Vec<CharacterString>
        ensures { result.items ≡ self }
    {
        self.strings
    }

    /// Reads data of `len` bytes. The last string may extend past it.
    pub(crate) fn read(
        alloc: Global,
        decoder: &mut BinDecoder<'_>,
        len: u16,
    ) -> Result<TXT, DecodeError>
        ensures read { IfOk result (λ txt. ValuesAt decoder.old.bytes (decoder.old.index + len)
            txt_kinds decoder.old.index (txt_values txt) decoder.new.index) }
        ensures refused { IfErr result (λ error. error ≢ DecodeError.Memory
            → RefusesFields decoder.old.bytes (decoder.old.index + len) txt_kinds
            decoder.old.index error) }
        ensures bytes { decoder.new.bytes ≡ decoder.old.bytes }
    {
        let strings = read_items(alloc, decoder, usize::from(len))?;
        Ok(TXT::new(strings))
    }
}

impl BinEncodable for TXT {
    ghost use Rattle.dns_data.specs.Field.{values_pieces};

    ghost pieces = { λ txt s. values_pieces s.canonical txt_kinds (txt_values txt) };

    fn emit(&self, encoder: &mut BinEncoder<'_>) -> Result<(), EncodeError> {
        emit_items(self.strings(), encoder)
    }
}

impl TXT {
    ghost use Rattle.dns_data.specs.Field.{values_len};
    ghost use Rattle.dns_data.specs.Memory.{AreInlineValues};

    /// Returns the length of the data's uncompressed encoding.
    pub fn encoded_len(&self) -> u128
        ensures { result ≡ values_len txt_kinds (txt_values self.now) }
    {
        let strings = self.strings.as_slice();
        let mut len = 0u128;
        for string in strings {
            len += 1 + string.as_slice().len() as u128;
        }
        len
    }

    /// Clones the data. No strings take no memory.
    pub fn clone(&self) -> Result<TXT, AllocError>
        ensures ok { IfOk result (λ copy. copy ≡ self.now) }
        ensures inline { AreInlineValues txt_kinds (txt_values self.now) → IsOk result }
    {
        Ok(TXT {
            strings: clone_items(&self.strings)?,
        })
    }
}

impl Clone for TXT {
    ghost is_clone = { λ txt copy. copy ≡ txt };

    fn clone(&self) -> Result<TXT, AllocError> {
        TXT::clone(self)
    }
}

impl PartialEq for TXT {
    ghost use Rattle.std.specs.Str.{bytes_eq};
    ghost use Rattle.std.specs.Cmp.{partial_equiv_from_equiv};
    ghost use Rattle.std.specs.Cmp.Lexicographic.{pointwise, lists_equiv, nat_list_eq_equiv};

    ghost eq = { pointwise bytes_eq };

    ghost laws = { partial_equiv_from_equiv (lists_equiv nat_list_eq_equiv) };

    fn eq(&self, other: &TXT) -> bool {
        self.strings == other.strings
    }
}

impl Eq for TXT {
    ghost use Rattle.std.specs.Cmp.Lexicographic.{lists_equiv, nat_list_eq_equiv};

    ghost laws = { lists_equiv nat_list_eq_equiv };
}

impl Ord for TXT {
    ghost use Rattle.std.proofs.Common.{refl};
    ghost use Rattle.std.specs.Ordering.{nat_cmp};
    ghost use Rattle.std.specs.Cmp.Lexicographic.{slice_cmp, lists_total, nat_list_cmp_total, lists_ties, texts_ties};

    ghost cmp = { slice_cmp (slice_cmp nat_cmp) };

    ghost total = { lists_total nat_list_cmp_total };

    ghost matches_partial_cmp = { λ x y. refl };

    ghost matches_eq = { lists_ties (slice_cmp nat_cmp) texts_ties };

    fn cmp(&self, other: &TXT) -> Ordering {
        self.strings.cmp(&other.strings)
    }
}

impl PartialOrd for TXT {
    ghost use Rattle.std.specs.Ordering.{nat_cmp, as_partial_cmp};
    ghost use Rattle.std.specs.Cmp.{po};
    ghost use Rattle.std.specs.Cmp.Lexicographic.{slice_cmp, lists_total, nat_list_cmp_total, lists_ties, texts_ties};

    ghost partial_cmp = { as_partial_cmp (slice_cmp (slice_cmp nat_cmp)) };

    ghost laws = { po (lists_total nat_list_cmp_total) (lists_ties (slice_cmp nat_cmp) texts_ties) };

    fn partial_cmp(&self, other: &TXT) -> Option<Ordering> {
        Some(self.cmp(other))
    }
}

impl TXT {
    /// Parses the data from its tokens.
    pub(crate) fn parse(
        alloc: Global,
        tokens: &mut DataTokens<'_, '_>,
    ) -> Result<TXT, RDataParseError>
        ensures parsed { (o : Option DomainName)
            → IfOk result (λ t. AreParsed o txt_kinds tokens.old (txt_values t)) }
        ensures refused { (o : Option DomainName) → IfErr result (λ error.
            error ≢ RDataParseError.Memory → RefusesTokens o txt_kinds tokens.old error) }
        ensures early { (o : Option DomainName)
            → IsParsedEarly o txt_kinds tokens.old (result_err result) }
    {
        Ok(TXT {
            strings: tokens.strings(alloc)?,
        })
    }
}

impl fmt::Display for TXT {
    ghost use Rattle.std.specs.Prelude.{Some};
    ghost use Rattle.dns_data.specs.Text.{values_text};
    ghost use Rattle.dns_data.specs.rdata.TXT.{txt_kinds, txt_values};

    ghost output = { λ t. Some (values_text txt_kinds (txt_values t)) };

    fn fmt<W: fmt::Write>(&self, f: &mut fmt::Formatter<W>) -> fmt::Result {
        let strings = self.strings.as_slice();
        if strings.is_empty() {
            return Ok(());
        }
        let first = QuotedString(strings[0].as_slice());
        write!(f, "{first}")?;
        write_more_strings(&strings[1..], f)
    }
}

/// Writes the strings after the first, each after a blank.
fn write_more_strings<W: fmt::Write>(
    strings: &[CharacterString],
    f: &mut fmt::Formatter<W>,
) -> fmt::Result
    ensures { WritesOnOk W.write_str_gives f.old result (more_strings_text strings.now) f.new }
{
    for string in strings {
        write_after_blank(string.as_slice(), f)?;
    }
    Ok(())
}

/// Writes a blank and a string.
fn write_after_blank<W: fmt::Write>(string: &[u8], f: &mut fmt::Formatter<W>) -> fmt::Result
    ensures { WritesOnOk W.write_str_gives f.old result (32 ∷ quoted_text string.now) f.new }
{
    let string = QuotedString(string);
    write!(f, " {string}")
}
