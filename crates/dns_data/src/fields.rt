//! The fields of record data one after another, on the wire and in text (RFC 1035 sections 3.3 and 5.1).

ghost use Rattle.std.specs.Prelude.{◌≡◌, ◌≢◌, ◌+◌, ◌*◌, ◌<◌, ◌≤◌, ◌^◌, [], ◌∷◌, ℕ, List, length, true, IsOk, IfOk, IfErr, Err, option_map};
ghost use Rattle.std.specs.Result.{result_err};
ghost use Rattle.dns_wire.specs.Encoder.{state_of, IsAtEnd};
ghost use Rattle.dns_wire.specs.Encodable.{Emits, AreWritable};
ghost use Rattle.dns_data.specs.Field.{Kind, Number16, Number32, Seconds, Address4, Address6, CompressibleName, WholeName, ValueOf, Values, value_pieces, values_pieces, values_len};
ghost use Rattle.dns_data.specs.Wire.{ValueAt, ValuesAt, RefusesValue, RefusesFields};
ghost use Rattle.dns_data.specs.Text.{Takes, AreParsed, RefusesToken, RefusesTokens};
ghost use Rattle.dns_data.specs.Memory.{is_fixed, IsReadEarly, IsParsedEarly};

use crate::error::RDataParseError;
use crate::text::DataTokens;
use crate::wire::{read_ipv4, read_ipv6};
use dns_names::Name;
use dns_wire::{BinDecodable, BinDecoder, BinEncoder, DecodeError, EncodeError, RDataEncoding};
use std::alloc::Global;
use std::net::{Ipv4Addr, Ipv6Addr};

/// A field that is decoded and parsed.
pub(crate) trait Field: Drop {
    ghost kind: { Kind };

    ghost value: { Self → ValueOf kind };

    /// Reads the field.
    fn read_field(alloc: Global, decoder: &mut BinDecoder<'_>) -> Result<Self, DecodeError>
        ensures read { IfOk result (λ field. (data_end : ℕ) → ValueAt decoder.old.bytes data_end
            kind decoder.old.index (value field) decoder.new.index) }
        ensures refused { IfErr result (λ error. error ≢ DecodeError.Memory → (data_end : ℕ)
            → RefusesValue decoder.old.bytes data_end kind decoder.old.index error) }
        ensures fixed { is_fixed kind ≡ true → IfErr result (λ error. error ≢ DecodeError.Memory) }
        ensures bytes { decoder.new.bytes ≡ decoder.old.bytes };

    /// Parses the field from the next token. A relative name ends in the origin.
    fn parse_field(
        alloc: Global,
        tokens: &mut DataTokens<'_, '_>,
        origin: Option<&Name>,
    ) -> Result<Self, RDataParseError>
        ensures ok { IfOk result (λ field. Takes (option_map (λ o. o.now) origin.entry)
            kind tokens.old (value field) tokens.new) }
        ensures refused { IfErr result (λ error. error ≢ RDataParseError.Memory
            → RefusesToken (option_map (λ o. o.now) origin.entry) kind tokens.old error) }
        ensures fixed { is_fixed kind ≡ true
            → IfErr result (λ error. error ≢ RDataParseError.Memory) }
        ensures missing { tokens.old ≡ [] → result ≡ Err RDataParseError.MissingToken };
}

/// A time in seconds, which text may state with units.
#[derive(Clone, Copy)]
pub(crate) struct Time(pub(crate) u32);

/// A name that is never compressed (RFC 3597 section 4).
#[derive(Drop)]
pub(crate) struct Whole(pub(crate) Name);

/// A name that is never compressed, to be encoded.
#[derive(Clone, Copy)]
pub(crate) struct WholeRef<'a>(pub(crate) &'a Name);

impl Field for u16 {
    ghost kind = { Number16 };

    ghost value = { λ number. number };

    fn read_field(_alloc: Global, decoder: &mut BinDecoder<'_>) -> Result<u16, DecodeError> {
        let number = decoder.read_u16()?;
        Ok(number)
    }

    fn parse_field(
        _alloc: Global,
        tokens: &mut DataTokens<'_, '_>,
        _origin: Option<&Name>,
    ) -> Result<u16, RDataParseError> {
        let number = tokens.number16()?;
        Ok(number)
    }
}

impl Field for u32 {
    ghost kind = { Number32 };

    ghost value = { λ number. number };

    fn read_field(_alloc: Global, decoder: &mut BinDecoder<'_>) -> Result<u32, DecodeError> {
        let number = decoder.read_u32()?;
        Ok(number)
    }

    fn parse_field(
        _alloc: Global,
        tokens: &mut DataTokens<'_, '_>,
        _origin: Option<&Name>,
    ) -> Result<u32, RDataParseError> {
        let number = tokens.number32()?;
        Ok(number)
    }
}

impl Field for Time {
    ghost kind = { Seconds };

    ghost value = { λ time. time.0 };

    fn read_field(_alloc: Global, decoder: &mut BinDecoder<'_>) -> Result<Time, DecodeError> {
        let seconds = decoder.read_u32()?;
        Ok(Time(seconds))
    }

    fn parse_field(
        _alloc: Global,
        tokens: &mut DataTokens<'_, '_>,
        _origin: Option<&Name>,
    ) -> Result<Time, RDataParseError> {
        Ok(Time(tokens.seconds()?))
    }
}

impl Field for Ipv4Addr {
    ghost kind = { Address4 };

    ghost value = { λ address. address };

    fn read_field(_alloc: Global, decoder: &mut BinDecoder<'_>) -> Result<Ipv4Addr, DecodeError> {
        read_ipv4(decoder)
    }

    fn parse_field(
        _alloc: Global,
        tokens: &mut DataTokens<'_, '_>,
        _origin: Option<&Name>,
    ) -> Result<Ipv4Addr, RDataParseError> {
        let address = tokens.ipv4()?;
        Ok(address)
    }
}

impl Field for Ipv6Addr {
    ghost kind = { Address6 };

    ghost value = { λ address. address };

    fn read_field(_alloc: Global, decoder: &mut BinDecoder<'_>) -> Result<Ipv6Addr, DecodeError> {
        read_ipv6(decoder)
    }

    fn parse_field(
        _alloc: Global,
        tokens: &mut DataTokens<'_, '_>,
        _origin: Option<&Name>,
    ) -> Result<Ipv6Addr, RDataParseError> {
        let address = tokens.ipv6()?;
        Ok(address)
    }
}

impl Field for Name {
    ghost kind = { CompressibleName };

    ghost value = { λ name. name };

    fn read_field(alloc: Global, decoder: &mut BinDecoder<'_>) -> Result<Name, DecodeError> {
        Name::read(alloc, decoder)
    }

    fn parse_field(
        alloc: Global,
        tokens: &mut DataTokens<'_, '_>,
        origin: Option<&Name>,
    ) -> Result<Name, RDataParseError> {
        tokens.name(alloc, origin)
    }
}

impl Field for Whole {
    ghost kind = { WholeName };

    ghost value = { λ name. name.0 };

    fn read_field(alloc: Global, decoder: &mut BinDecoder<'_>) -> Result<Whole, DecodeError> {
        Ok(Whole(Name::read(alloc, decoder)?))
    }

    fn parse_field(
        alloc: Global,
        tokens: &mut DataTokens<'_, '_>,
        origin: Option<&Name>,
    ) -> Result<Whole, RDataParseError> {
        Ok(Whole(tokens.name(alloc, origin)?))
    }
}

/// Fields that are decoded and parsed one after another: `(first, (second, ()))`.
pub(crate) trait Fields: Drop {
    ghost kinds: { List Kind };

    ghost values: { Self → Values kinds };

    /// Reads the fields.
    fn read_fields(alloc: Global, decoder: &mut BinDecoder<'_>) -> Result<Self, DecodeError>
        ensures read { IfOk result (λ fields. (data_end : ℕ) → ValuesAt decoder.old.bytes data_end
            kinds decoder.old.index (values fields) decoder.new.index) }
        ensures refused { IfErr result (λ error. error ≢ DecodeError.Memory → (data_end : ℕ)
            → RefusesFields decoder.old.bytes data_end kinds decoder.old.index error) }
        ensures early { (data_end : ℕ)
            → IsReadEarly decoder.old.bytes data_end kinds decoder.old.index (result_err result) }
        ensures bytes { decoder.new.bytes ≡ decoder.old.bytes };

    /// Parses the fields from all tokens that are left.
    fn parse_fields(
        alloc: Global,
        tokens: &mut DataTokens<'_, '_>,
        origin: Option<&Name>,
    ) -> Result<Self, RDataParseError>
        ensures parsed { IfOk result (λ fields. AreParsed (option_map (λ o. o.now) origin.entry)
            kinds tokens.old (values fields)) }
        ensures refused { IfErr result (λ error. error ≢ RDataParseError.Memory
            → RefusesTokens (option_map (λ o. o.now) origin.entry) kinds tokens.old error) }
        ensures early { IsParsedEarly (option_map (λ o. o.now) origin.entry)
            kinds tokens.old (result_err result) };
}

impl Fields for () {
    ghost kinds = { [] };

    ghost values = { λ _. tt };

    fn read_fields(_alloc: Global, _decoder: &mut BinDecoder<'_>) -> Result<(), DecodeError> {
        Ok(())
    }

    fn parse_fields(
        _alloc: Global,
        tokens: &mut DataTokens<'_, '_>,
        _origin: Option<&Name>,
    ) -> Result<(), RDataParseError> {
        tokens.finish()?;
        Ok(())
    }
}

impl<F: Field, R: Fields> Fields for (F, R) {
    ghost kinds = { F.kind ∷ R.kinds };

    ghost values = { λ fields. (F.value fields.0, R.values fields.1) };

    fn read_fields(alloc: Global, decoder: &mut BinDecoder<'_>) -> Result<(F, R), DecodeError> {
        let field = F::read_field(alloc, decoder)?;
        let rest = R::read_fields(alloc, decoder)?;
        Ok((field, rest))
    }

    fn parse_fields(
        alloc: Global,
        tokens: &mut DataTokens<'_, '_>,
        origin: Option<&Name>,
    ) -> Result<(F, R), RDataParseError> {
        let field = F::parse_field(alloc, tokens, origin)?;
        let rest = R::parse_fields(alloc, tokens, origin)?;
        Ok((field, rest))
    }
}

/// Record data with a fixed number of fields.
pub(crate) trait FixedData<F: Fields>: Drop {
    /// The fields, in their order.
    ghost fields: { Self → F };

    /// Creates the data from its fields.
    fn from_fields(given: F) -> Self
        ensures { fields result ≡ given };

    /// Reads the fields of data of `len` bytes. They may end before or after it.
    final fn read(
        alloc: Global,
        decoder: &mut BinDecoder<'_>,
        _len: u16,
    ) -> Result<Self, DecodeError>
        ensures read { IfOk result (λ it. ValuesAt decoder.old.bytes (decoder.old.index + _len)
            F.kinds decoder.old.index (F.values (fields it)) decoder.new.index) }
        ensures refused { IfErr result (λ error. error ≢ DecodeError.Memory
            → RefusesFields decoder.old.bytes (decoder.old.index + _len)
            F.kinds decoder.old.index error) }
        ensures early { IsReadEarly decoder.old.bytes (decoder.old.index + _len)
            F.kinds decoder.old.index (result_err result) }
        ensures bytes { decoder.new.bytes ≡ decoder.old.bytes }
    {
        let given = F::read_fields(alloc, decoder)?;
        Ok(Self::from_fields(given))
    }

    /// Parses the data from its tokens.
    final fn parse(
        alloc: Global,
        tokens: &mut DataTokens<'_, '_>,
        origin: Option<&Name>,
    ) -> Result<Self, RDataParseError>
        ensures parsed { IfOk result (λ it. AreParsed (option_map (λ o. o.now) origin.entry)
            F.kinds tokens.old (F.values (fields it))) }
        ensures refused { IfErr result (λ error. error ≢ RDataParseError.Memory
            → RefusesTokens (option_map (λ o. o.now) origin.entry)
            F.kinds tokens.old error) }
        ensures early { IsParsedEarly (option_map (λ o. o.now) origin.entry)
            F.kinds tokens.old (result_err result) }
    {
        let given = F::parse_fields(alloc, tokens, origin)?;
        Ok(Self::from_fields(given))
    }
}

// ---- encoding

/// A field that is encoded.
pub(crate) trait WriteField {
    ghost kind: { Kind };

    ghost value: { Self → ValueOf kind };

    /// Writes the field.
    fn emit_field(&self, encoder: &mut BinEncoder<'_>) -> Result<(), EncodeError>
        requires { IsAtEnd (state_of encoder.old) }
        ensures emits { Emits (state_of encoder.old)
            (value_pieces (state_of encoder.old).canonical kind (value self.now))
            result (state_of encoder.new) }
        ensures writable { IsOk result → AreWritable
            (value_pieces (state_of encoder.old).canonical kind (value self.now)) };

    /// Returns the length of the field's uncompressed encoding.
    fn field_len(&self) -> u128
        ensures value { result ≡ values_len (kind ∷ []) (value self.now, tt) }
        ensures bounded { result ≤ 255 };
}

/// Fields that are encoded one after another: `(first, (second, ()))`.
pub(crate) trait WriteFields {
    ghost kinds: { List Kind };

    ghost values: { Self → Values kinds };

    /// Writes the fields.
    fn emit_fields(&self, encoder: &mut BinEncoder<'_>) -> Result<(), EncodeError>
        requires { IsAtEnd (state_of encoder.old) }
        ensures emits { Emits (state_of encoder.old)
            (values_pieces (state_of encoder.old).canonical kinds (values self.now))
            result (state_of encoder.new) }
        ensures writable { IsOk result → AreWritable
            (values_pieces (state_of encoder.old).canonical kinds (values self.now)) };

    /// Returns the length of the fields' uncompressed encoding.
    fn fields_len(&self) -> u128
        requires { length kinds < 2 ^ 64 }
        ensures value { result ≡ values_len kinds (values self.now) }
        ensures bounded { result ≤ 255 * length kinds };
}

impl WriteFields for () {
    ghost kinds = { [] };

    ghost values = { λ _. tt };

    fn emit_fields(&self, _encoder: &mut BinEncoder<'_>) -> Result<(), EncodeError> {
        Ok(())
    }

    fn fields_len(&self) -> u128 {
        0
    }
}

impl<F: WriteField, R: WriteFields> WriteFields for (F, R) {
    ghost kinds = { F.kind ∷ R.kinds };

    ghost values = { λ fields. (F.value fields.0, R.values fields.1) };

    fn emit_fields(&self, encoder: &mut BinEncoder<'_>) -> Result<(), EncodeError> {
        self.0.emit_field(encoder)?;
        self.1.emit_fields(encoder)
    }

    fn fields_len(&self) -> u128 {
        self.0.field_len() + self.1.fields_len()
    }
}

impl WriteField for u16 {
    ghost kind = { Number16 };

    ghost value = { λ number. number };

    fn emit_field(&self, encoder: &mut BinEncoder<'_>) -> Result<(), EncodeError> {
        encoder.emit_u16(*self)
    }

    fn field_len(&self) -> u128 {
        2
    }
}

impl WriteField for u32 {
    ghost kind = { Number32 };

    ghost value = { λ number. number };

    fn emit_field(&self, encoder: &mut BinEncoder<'_>) -> Result<(), EncodeError> {
        encoder.emit_u32(*self)
    }

    fn field_len(&self) -> u128 {
        4
    }
}

impl WriteField for Time {
    ghost kind = { Seconds };

    ghost value = { λ time. time.0 };

    fn emit_field(&self, encoder: &mut BinEncoder<'_>) -> Result<(), EncodeError> {
        encoder.emit_u32(self.0)
    }

    fn field_len(&self) -> u128 {
        4
    }
}

impl WriteField for Ipv4Addr {
    ghost kind = { Address4 };

    ghost value = { λ address. address };

    fn emit_field(&self, encoder: &mut BinEncoder<'_>) -> Result<(), EncodeError> {
        encoder.emit_vec(&self.octets())
    }

    fn field_len(&self) -> u128 {
        self.octets().len() as u128
    }
}

impl WriteField for Ipv6Addr {
    ghost kind = { Address6 };

    ghost value = { λ address. address };

    fn emit_field(&self, encoder: &mut BinEncoder<'_>) -> Result<(), EncodeError> {
        encoder.emit_vec(&self.octets())
    }

    fn field_len(&self) -> u128 {
        self.octets().len() as u128
    }
}

impl WriteField for &Name {
    ghost kind = { CompressibleName };

    ghost value = { λ name. name.now };

    fn emit_field(&self, encoder: &mut BinEncoder<'_>) -> Result<(), EncodeError> {
        self.emit_with_behavior(RDataEncoding::StandardRecord, encoder)
    }

    fn field_len(&self) -> u128 {
        self.encoded_len() as u128
    }
}

impl WriteField for WholeRef<'_> {
    ghost kind = { WholeName };

    ghost value = { λ name. name.0.now };

    fn emit_field(&self, encoder: &mut BinEncoder<'_>) -> Result<(), EncodeError> {
        self.0.emit_with_behavior(RDataEncoding::Canonical, encoder)
    }

    fn field_len(&self) -> u128 {
        self.0.encoded_len() as u128
    }
}
