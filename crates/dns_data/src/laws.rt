//! Theorems about the definitions of this crate, as functions with empty bodies.

ghost use Rattle.std.specs.Prelude.{◌≡◌, ◌≢◌, ◌-◌, ◌<◌, ◌^◌, ◌&&◌, nat_eq, ℕ, List, Option, Some, [], false, true};
ghost use Rattle.dns_wire.specs.declared.codes.record_type.RecordType.{RecordType};
ghost use Rattle.dns_data.specs.Field.{OptionValue, same_option, lower_values};
ghost use Rattle.dns_data.specs.declared.rdata.RData.{RData};
ghost use Rattle.dns_data.specs.declared.rdata.a.A.{A};
ghost use Rattle.dns_data.specs.declared.rdata.aaaa.AAAA.{AAAA};
ghost use Rattle.dns_data.specs.declared.rdata.cname.CNAME.{CNAME};
ghost use Rattle.dns_data.specs.declared.rdata.mx.MX.{MX};
ghost use Rattle.dns_data.specs.declared.rdata.ns.NS.{NS};
ghost use Rattle.dns_data.specs.declared.rdata.ptr.PTR.{PTR};
ghost use Rattle.dns_data.specs.declared.rdata.soa.SOA.{SOA};
ghost use Rattle.dns_data.specs.declared.rdata.srv.SRV.{SRV};
ghost use Rattle.dns_names.specs.Compare.{same_name};
ghost use Rattle.dns_names.specs.Name.{DomainName};
ghost use Rattle.dns_text.specs.Lexer.{Lexeme, LexerState};
ghost use Rattle.dns_text.specs.Tokens.{LexesTo};
ghost use Rattle.dns_data.specs.Text.{AreValidValues, has_text};
ghost use Rattle.dns_data.specs.declared.error.RDataParseError.{RDataParseError};
ghost use Rattle.dns_wire.specs.Encoder.{EncoderState, IsAtEnd};
ghost use Rattle.dns_wire.specs.Encodable.{append_pieces, AreWritable};
ghost use Rattle.dns_wire.specs.Writing.{ArePointerTargets};
ghost use Rattle.dns_wire.specs.declared.error.DecodeError.{DecodeError};
ghost use Rattle.dns_wire.specs.declared.name_encoding.NameEncoding.TheVariants.{UncompressedLowercase};
ghost use Rattle.std.specs.Cmp.Lexicographic.{pointwise};
ghost use Rattle.std.specs.Cmp.{IsEquivalence, IsTotalOrder};
ghost use Rattle.std.specs.Ordering.{is_eq};
ghost use Rattle.std.specs.Net.Addr.{ipv4_octets, ipv6_segments};
ghost use Rattle.std.specs.Str.{bytes_eq};
ghost use Rattle.dns_data.specs.rdata.{data_type, data_kinds, data_values, data_pieces, data_text, kinds_of_type, is_update_data, whole_len, same_data, IsSoundData, ReadsData, RefusesData, IsParsedData, RefusesText};
ghost use Rattle.dns_data.specs.rdata.Order.{data_cmp};
ghost use Rattle.dns_data.specs.Wire.{ValuesAt};

use dns_wire::RecordType;

/// Bytes decode to at most one value of a type and a length, and are then not refused. Bytes that are refused are refused
/// with one error.
pub fn data_decoding_is_unambiguous()
    ensures one { (bytes : List ℕ) (place len : ℕ) (record_type : RecordType) (a b : RData)
        → ReadsData bytes place record_type len a → ReadsData bytes place record_type len b
        → a ≡ b }
    ensures not_refused { (bytes : List ℕ) (place len : ℕ) (record_type : RecordType) (a : RData)
        (error : DecodeError)
        → ReadsData bytes place record_type len a
        → RefusesData bytes place record_type len error → ⊥ }
    ensures one_error { (bytes : List ℕ) (place len : ℕ) (record_type : RecordType)
        (error other : DecodeError)
        → RefusesData bytes place record_type len error
        → RefusesData bytes place record_type len other → error ≡ other }
{}

/// Sound data that is written at the end of a buffer, by an encoding that keeps the case of names, decodes to itself. Its
/// length is that of the bytes that were written, which 16 bits can hold.
pub fn written_data_decodes()
    ensures decodes { (w : EncoderState) (d : RData)
        → IsAtEnd w → ArePointerTargets w.bytes w.suffixes → w.encoding ≢ UncompressedLowercase
        → IsSoundData d → AreWritable (data_pieces false d)
        → ReadsData (append_pieces w (data_pieces false d)).bytes w.offset (data_type d)
        ((append_pieces w (data_pieces false d)).offset - w.offset) d }
    ensures fits { (w : EncoderState) (d : RData) → IsSoundData d
        → (append_pieces w (data_pieces false d)).offset - w.offset < 2 ^ 16 }
{}

/// Equality of record data is an equivalence.
pub fn equality_of_data()
    ensures { IsEquivalence same_data }
{}

/// Data of one type are equal if their fields are: names up to ASCII case, and all else only if it is identical.
pub fn equality_is_by_fields()
    ensures a { (x y : A) → same_data (RData.A x) (RData.A y)
        ≡ bytes_eq (ipv4_octets x.0) (ipv4_octets y.0) }
    ensures aaaa { (x y : AAAA) → same_data (RData.AAAA x) (RData.AAAA y)
        ≡ pointwise nat_eq (ipv6_segments x.0) (ipv6_segments y.0) }
    ensures cname { (x y : CNAME) → same_data (RData.CNAME x) (RData.CNAME y) ≡ same_name x.0 y.0 }
    ensures ns { (x y : NS) → same_data (RData.NS x) (RData.NS y) ≡ same_name x.0 y.0 }
    ensures ptr { (x y : PTR) → same_data (RData.PTR x) (RData.PTR y) ≡ same_name x.0 y.0 }
    ensures mx { (x y : MX) → same_data (RData.MX x) (RData.MX y)
        ≡ (nat_eq x.preference y.preference && same_name x.exchange y.exchange) }
    ensures srv { (x y : SRV) → same_data (RData.SRV x) (RData.SRV y)
        ≡ (nat_eq x.priority y.priority && (nat_eq x.weight y.weight
        && (nat_eq x.port y.port && same_name x.target y.target))) }
    ensures txt { (x y : List (List ℕ)) → same_data (RData.TXT x) (RData.TXT y)
        ≡ pointwise bytes_eq x y }
    ensures opt { (x y : List OptionValue) → same_data (RData.OPT x) (RData.OPT y)
        ≡ pointwise same_option x y }
    ensures update0 { (t u : RecordType) → same_data (RData.Update0 t) (RData.Update0 u)
        ≡ ⟦<RecordType as PartialEq>⟧.eq t u }
    ensures unknown { (t u : RecordType) (x y : List ℕ)
        → same_data (RData.Unknown t x) (RData.Unknown u y)
        ≡ (⟦<RecordType as PartialEq>⟧.eq t u && bytes_eq x y) }
{}

/// The fields of an SOA record are its names, its serial number and its times.
pub fn equality_of_soa_is_by_fields()
    ensures { (x y : SOA) → same_data (RData.SOA x) (RData.SOA y)
        ≡ (same_name x.mname y.mname && (same_name x.rname y.rname
        && (nat_eq x.serial y.serial && (nat_eq x.refresh y.refresh
        && (nat_eq x.retry y.retry && (nat_eq x.expire y.expire
        && nat_eq x.minimum y.minimum)))))) }
{}

/// The order of record data is total, and data compare equal in it exactly if they are equal.
pub fn order_of_data()
    ensures total { IsTotalOrder data_cmp }
    ensures equal { (x y : RData) → same_data x y ≡ is_eq (data_cmp x y) }
{}

// ---- text

/// Tokens parse to at most one value of a type, and are then not refused. Tokens that are refused are refused with one
/// error.
pub fn parsed_data_is_unambiguous()
    ensures one { (origin : Option DomainName) (record_type : RecordType) (tokens : List Lexeme)
        (a b : RData) → IsParsedData origin record_type tokens a
        → IsParsedData origin record_type tokens b → a ≡ b }
    ensures not_refused { (origin : Option DomainName) (record_type : RecordType)
        (tokens : List Lexeme) (d : RData) (error : RDataParseError)
        → IsParsedData origin record_type tokens d → ¬ RefusesText origin record_type tokens error }
    ensures one_error { (origin : Option DomainName) (record_type : RecordType)
        (tokens : List Lexeme) (error other : RDataParseError)
        → RefusesText origin record_type tokens error → RefusesText origin record_type tokens other
        → error ≡ other }
{}

/// Data that is parsed with an origin is sound if it is short enough to be encoded: the origin completes relative names,
/// and fully qualifies them. Its type has fields and is neither `OPT` nor `TSIG`.
pub fn parsed_data_is_sound()
    ensures sound { (origin : DomainName) (record_type : RecordType) (tokens : List Lexeme)
        (d : RData) → IsParsedData (Some origin) record_type tokens d
        → whole_len d < 2 ^ 16 → IsSoundData d }
    ensures not_opt { (origin : Option DomainName) (record_type : RecordType)
        (tokens : List Lexeme) (d : RData) → IsParsedData origin record_type tokens d
        → data_type d ≢ RecordType.OPT }
    ensures not_tsig { (origin : Option DomainName) (record_type : RecordType)
        (tokens : List Lexeme) (d : RData) → IsParsedData origin record_type tokens d
        → data_type d ≢ RecordType.TSIG }
    ensures has_data { (origin : Option DomainName) (record_type : RecordType)
        (tokens : List Lexeme) (d : RData) → IsParsedData origin record_type tokens d
        → is_update_data d ≡ false }
{}

/// The text of data of a type with a text form lexes to tokens that parse back to the data, whatever the origin is.
pub fn printed_data_parses_back()
    ensures { (d : RData) (p : LexerState) → IsSoundData d
        → AreValidValues (data_kinds d) (data_values d)
        → has_text (data_kinds d) ≡ true → data_kinds d ≡ kinds_of_type (data_type d)
        → p.is_open ≡ false → p.text ≡ data_text d
        → (tokens : List Lexeme) × LexesTo p tokens (record p { text = []; is_front = false })
        × ((origin : Option DomainName) → IsParsedData origin (data_type d) tokens d) }
{}

/// The canonical form of sound data decodes, and has the names of the data in lower case (RFC 4034 section 6.2).
pub fn canonical_form_has_names_in_lower_case()
    ensures { (w : EncoderState) (d : RData)
        → IsAtEnd w → ArePointerTargets w.bytes w.suffixes
        → IsSoundData d → AreWritable (data_pieces true d)
        → ValuesAt (append_pieces w (data_pieces true d)).bytes
        (append_pieces w (data_pieces true d)).offset (data_kinds d) w.offset
        (lower_values (data_kinds d) (data_values d))
        (append_pieces w (data_pieces true d)).offset }
{}
