//! Record data.

ghost use Rattle.std.specs.Prelude.{◌≡◌, ◌≢◌, ◌+◌, ◌<◌, ◌≤◌, [], ◌∷◌, length, drop, true, IfOk, IfErr, IsOk, OnErr, Some, Err, map, option_map};
ghost use Rattle.std.specs.declared.net.ip_addr.IpAddr.TheVariants.{V4, V6};
ghost use Rattle.std.specs.Result.{result_err};
ghost use Rattle.dns_text.specs.Token.{lexeme};
ghost use Rattle.dns_data.specs.Memory.{are_fixed, IsReadEarly};
ghost use Rattle.dns_data.specs.rdata.{IsParsedData, RefusesText, RefusesTextEarly, IsInlineData, kinds_of_number};

mod a;
mod aaaa;
mod cname;
mod mx;
mod ns;
mod opt;
mod order;
mod ptr;
mod soa;
mod srv;
mod txt;

use crate::error::RDataParseError;
use crate::fields::FixedData;
use crate::generic::write_generic;
use crate::octets::OptionData;
use crate::text::DataTokens;
use crate::wire::read_octets;
pub use a::A;
pub use aaaa::AAAA;
pub use cname::CNAME;
use dns_names::Name;
use dns_text::Token;
use dns_wire::laws::type_number_round_trips;
use dns_wire::{BinDecoder, BinEncodable, BinEncoder, DecodeError, EncodeError, RecordType};
pub use mx::MX;
pub use ns::NS;
pub use opt::{EdnsOption, OPT};
pub use ptr::PTR;
pub use soa::SOA;
pub use srv::SRV;
use std::alloc::{AllocError, Global};
use std::fmt;
use std::net::{IpAddr, Ipv4Addr, Ipv6Addr};
pub use txt::TXT;

/// The data of a record.
#[derive(Debug, PartialEq, Eq)]
pub enum RData {
    A(A),
    AAAA(AAAA),
    CNAME(CNAME),
    NS(NS),
    PTR(PTR),
    MX(MX),
    SOA(SOA),
    SRV(SRV),
    TXT(TXT),
    OPT(OPT),
    /// No data, in a record of an update (RFC 2136 section 2.4).
    Update0(RecordType),
    /// Opaque data of a type without fields (RFC 3597).
    Unknown { code: RecordType, rdata: OptionData },
}

impl Drop for RData {
    fn drop(self) {
        match self {
            RData::A(_a) => {}
            RData::AAAA(_aaaa) => {}
            RData::CNAME(cname) => drop(cname),
            RData::NS(ns) => drop(ns),
            RData::PTR(ptr) => drop(ptr),
            RData::MX(mx) => drop(mx),
            RData::SOA(soa) => drop(soa),
            RData::SRV(srv) => drop(srv),
            RData::TXT(txt) => drop(txt),
            RData::OPT(opt) => drop(opt),
            RData::Update0(_record_type) => {}
            RData::Unknown { code: _code, rdata } => drop(rdata),
        }
    }
}

impl RData {
    ghost use Rattle.dns_wire.specs.Decoder.{Advances};
    ghost use Rattle.dns_wire.specs.codes.RecordType.{type_number, type_of};
    ghost use Rattle.dns_data.specs.Field.{Opaque};
    ghost use Rattle.dns_data.specs.Wire.{ValuesAt, RefusesFields};
    ghost use Rattle.dns_data.specs.rdata.{data_type, data_kinds, data_values, kinds_of_type, empty_data, ReadsData, RefusesData, RefusesDataEarly};

    /// Reads data of a type and of `len` bytes. On an error the decoder is unchanged.
    ///
    /// Empty data is an `OPT` record's without options, or that of a record of an update (RFC 2136 section 2.4). It takes no
    /// memory, and neither do numbers and addresses. The bytes of opaque data are counted before memory is taken.
    pub fn read(
        alloc: Global,
        decoder: &mut BinDecoder<'_>,
        record_type: RecordType,
        len: u16,
    ) -> Result<RData, DecodeError>
        ensures read { IfOk result (λ rdata.
            ReadsData decoder.old.bytes decoder.old.index record_type len rdata) }
        ensures moved { IfOk result (λ _. Advances decoder.old decoder.new len) }
        ensures refused { IfErr result (λ error. error ≢ DecodeError.Memory
            → RefusesData decoder.old.bytes decoder.old.index record_type len error) }
        ensures empty { len ≡ 0 → IsOk result }
        ensures fixed { are_fixed (kinds_of_number record_type) ≡ true
            → IfErr result (λ error. error ≢ DecodeError.Memory) }
        ensures fault { (error : DecodeError)
            → RefusesDataEarly decoder.old.bytes decoder.old.index record_type len error
            → result ≡ Err error }
        ensures opaque { kinds_of_number record_type ≡ Opaque ∷ []
            → length (drop decoder.old.index decoder.old.bytes) < len
            → result ≡ Err DecodeError.InsufficientBytes }
        ensures err { OnErr result (decoder.new ≡ decoder.old) }
    {
        type_number_round_trips();
        let named_type = RecordType::from(u16::from(record_type));
        if len == 0 {
            return Ok(RData::empty(alloc, named_type));
        }
        let start = decoder.index();
        let mut reader = decoder.clone(start);
        let rdata = RData::read_fields(alloc, &mut reader, named_type, len)?;
        if reader.index() - start != usize::from(len) {
            return Err(DecodeError::IncorrectRDataLengthRead);
        }
        *decoder = reader;
        Ok(rdata)
    }

    /// The data of a record whose data is empty.
    fn empty(alloc: Global, record_type: RecordType) -> RData
        ensures { result ≡ empty_data record_type }
    {
        match record_type {
            RecordType::OPT => RData::OPT(OPT::new(Vec::new(alloc))),
            record_type => RData::Update0(record_type),
        }
    }

    /// Reads the fields of data of a type. They may end before or after `len` bytes.
    fn read_fields(
        alloc: Global,
        decoder: &mut BinDecoder<'_>,
        record_type: RecordType,
        len: u16,
    ) -> Result<RData, DecodeError>
        requires { decoder.old.index ≤ length decoder.old.bytes }
        ensures of_type { IfOk result (λ rdata. data_type rdata ≡ record_type) }
        ensures fields { IfOk result (λ rdata. data_kinds rdata ≡ kinds_of_type record_type) }
        ensures read { IfOk result (λ rdata. ValuesAt decoder.old.bytes (decoder.old.index + len)
            (data_kinds rdata) decoder.old.index (data_values rdata) decoder.new.index) }
        ensures refused { IfErr result (λ error. error ≢ DecodeError.Memory
            → RefusesFields decoder.old.bytes (decoder.old.index + len)
            (kinds_of_type record_type) decoder.old.index error) }
        ensures early { IsReadEarly decoder.old.bytes (decoder.old.index + len)
            (kinds_of_type record_type) decoder.old.index (result_err result) }
        ensures opaque { kinds_of_type record_type ≡ Opaque ∷ []
            → length (drop decoder.old.index decoder.old.bytes) < len
            → result ≡ Err DecodeError.InsufficientBytes }
        ensures bytes { decoder.new.bytes ≡ decoder.old.bytes }
    {
        match record_type {
            RecordType::A => Ok(RData::A(A::read(alloc, decoder, len)?)),
            RecordType::AAAA => Ok(RData::AAAA(AAAA::read(alloc, decoder, len)?)),
            RecordType::CNAME => Ok(RData::CNAME(CNAME::read(alloc, decoder, len)?)),
            RecordType::NS => Ok(RData::NS(NS::read(alloc, decoder, len)?)),
            RecordType::PTR => Ok(RData::PTR(PTR::read(alloc, decoder, len)?)),
            RecordType::MX => Ok(RData::MX(MX::read(alloc, decoder, len)?)),
            RecordType::SOA => Ok(RData::SOA(SOA::read(alloc, decoder, len)?)),
            RecordType::SRV => Ok(RData::SRV(SRV::read(alloc, decoder, len)?)),
            RecordType::TXT => Ok(RData::TXT(TXT::read(alloc, decoder, len)?)),
            RecordType::OPT => Ok(RData::OPT(OPT::read(alloc, decoder, len)?)),
            code => {
                let rdata = read_octets(alloc, decoder, usize::from(len))?;
                Ok(RData::Unknown { code, rdata })
            }
        }
    }
}

impl BinEncodable for RData {
    ghost use Rattle.dns_data.specs.rdata.{data_pieces};

    ghost pieces = { λ rdata s. data_pieces s.canonical rdata };

    fn emit(&self, encoder: &mut BinEncoder<'_>) -> Result<(), EncodeError> {
        match self {
            RData::A(a) => a.emit(encoder),
            RData::AAAA(aaaa) => aaaa.emit(encoder),
            RData::CNAME(cname) => cname.emit(encoder),
            RData::NS(ns) => ns.emit(encoder),
            RData::PTR(ptr) => ptr.emit(encoder),
            RData::MX(mx) => mx.emit(encoder),
            RData::SOA(soa) => soa.emit(encoder),
            RData::SRV(srv) => srv.emit(encoder),
            RData::TXT(txt) => txt.emit(encoder),
            RData::OPT(opt) => opt.emit(encoder),
            RData::Update0(_) => Ok(()),
            RData::Unknown { code: _, rdata } => encoder.emit_vec(rdata.as_slice()),
        }
    }
}

impl RData {
    ghost use Rattle.dns_data.specs.rdata.{data_type, data_addr, data_options, data_soa, whole_len};

    /// Returns the type of a record with this data.
    pub fn record_type(&self) -> RecordType
        ensures { result ≡ data_type self.now }
    {
        match self {
            RData::A(_) => RecordType::A,
            RData::AAAA(_) => RecordType::AAAA,
            RData::CNAME(_) => RecordType::CNAME,
            RData::NS(_) => RecordType::NS,
            RData::PTR(_) => RecordType::PTR,
            RData::MX(_) => RecordType::MX,
            RData::SOA(_) => RecordType::SOA,
            RData::SRV(_) => RecordType::SRV,
            RData::TXT(_) => RecordType::TXT,
            RData::OPT(_) => RecordType::OPT,
            RData::Update0(record_type) => *record_type,
            RData::Unknown { code, rdata: _ } => *code,
        }
    }

    /// Returns the length of the data's uncompressed encoding, in bytes (RFC 1035 section 3.3). Data of more than 65,535
    /// bytes cannot be encoded (RFC 1035 section 3.2.1).
    pub fn encoded_len(&self) -> u128
        ensures { result ≡ whole_len self.now }
    {
        match self {
            RData::A(a) => a.encoded_len(),
            RData::AAAA(aaaa) => aaaa.encoded_len(),
            RData::CNAME(cname) => cname.encoded_len(),
            RData::NS(ns) => ns.encoded_len(),
            RData::PTR(ptr) => ptr.encoded_len(),
            RData::MX(mx) => mx.encoded_len(),
            RData::SOA(soa) => soa.encoded_len(),
            RData::SRV(srv) => srv.encoded_len(),
            RData::TXT(txt) => txt.encoded_len(),
            RData::OPT(opt) => opt.encoded_len(),
            RData::Update0(_) => 0,
            RData::Unknown { code: _, rdata } => rdata.as_slice().len() as u128,
        }
    }

    /// Returns the address of `A` or `AAAA` data.
    pub fn ip_addr(&self) -> Option<IpAddr>
        ensures { result ≡ data_addr self.now }
    {
        match self {
            RData::A(a) => Some(IpAddr::V4(a.0)),
            RData::AAAA(aaaa) => Some(IpAddr::V6(aaaa.0)),
            _ => None,
        }
    }

    /// Returns `OPT` data, without copying it, and `None` for data of another type.
    pub fn into_opt(self) -> Option<OPT>
        ensures { result ≡ data_options self }
    {
        match self {
            RData::OPT(opt) => Some(opt),
            _ => None,
        }
    }

    /// Returns `SOA` data, without copying it, and `None` for data of another type.
    pub fn into_soa(self) -> Option<SOA>
        ensures { result ≡ data_soa self }
    {
        match self {
            RData::SOA(soa) => Some(soa),
            _ => None,
        }
    }

    /// Clones the data. Numbers, addresses and short names take no memory.
    pub fn clone(&self) -> Result<RData, AllocError>
        ensures ok { IfOk result (λ copy. copy ≡ self.now) }
        ensures inline { IsInlineData self.now → IsOk result }
    {
        Ok(match self {
            RData::A(a) => RData::A(*a),
            RData::AAAA(aaaa) => RData::AAAA(*aaaa),
            RData::CNAME(cname) => RData::CNAME(cname.clone()?),
            RData::NS(ns) => RData::NS(ns.clone()?),
            RData::PTR(ptr) => RData::PTR(ptr.clone()?),
            RData::MX(mx) => RData::MX(mx.clone()?),
            RData::SOA(soa) => RData::SOA(soa.clone()?),
            RData::SRV(srv) => RData::SRV(srv.clone()?),
            RData::TXT(txt) => RData::TXT(txt.clone()?),
            RData::OPT(opt) => RData::OPT(opt.clone()?),
            RData::Update0(record_type) => RData::Update0(*record_type),
            RData::Unknown { code, rdata } => RData::Unknown {
                code: *code,
                rdata: rdata.clone()?,
            },
        })
    }
}

impl Clone for RData {
    ghost is_clone = { λ rdata copy. copy ≡ rdata };

    fn clone(&self) -> Result<RData, AllocError> {
        RData::clone(self)
    }
}

impl From<Ipv4Addr> for RData {
    ghost use Rattle.dns_data.specs.rdata.{data_addr};

    ghost from_gives = { λ address rdata. data_addr rdata ≡ Some (V4 address) };

    fn from(address: Ipv4Addr) -> RData {
        RData::A(A(address))
    }
}

impl From<Ipv6Addr> for RData {
    ghost use Rattle.dns_data.specs.rdata.{data_addr};

    ghost from_gives = { λ address rdata. data_addr rdata ≡ Some (V6 address) };

    fn from(address: Ipv6Addr) -> RData {
        RData::AAAA(AAAA(address))
    }
}

impl From<IpAddr> for RData {
    ghost use Rattle.dns_data.specs.rdata.{data_addr};

    ghost from_gives = { λ address rdata. data_addr rdata ≡ Some address };

    fn from(address: IpAddr) -> RData {
        match address {
            IpAddr::V4(address) => RData::A(A(address)),
            IpAddr::V6(address) => RData::AAAA(AAAA(address)),
        }
    }
}

impl RData {
    /// Parses the data of a record from the tokens after its type, all of which belong to the data (RFC 1035 section 5.1).
    /// Relative names end in the origin, if there is one. A type is taken by its number; `OPT` and types without fields
    /// have no text that parses. Numbers and addresses take no memory.
    pub fn parse(
        alloc: Global,
        record_type: RecordType,
        tokens: &[Token<'_>],
        origin: Option<&Name>,
    ) -> Result<RData, RDataParseError>
        ensures parsed { IfOk result (λ d. IsParsedData (option_map (λ o. o.now) origin.entry)
            record_type (map lexeme tokens.now) d) }
        ensures refused { IfErr result (λ error. error ≢ RDataParseError.Memory
            → RefusesText (option_map (λ o. o.now) origin.entry)
            record_type (map lexeme tokens.now) error) }
        ensures fixed { are_fixed (kinds_of_number record_type) ≡ true
            → IfErr result (λ error. error ≢ RDataParseError.Memory) }
        ensures fault { (error : RDataParseError)
            → RefusesTextEarly (option_map (λ o. o.now) origin.entry)
            record_type (map lexeme tokens.now) error → result ≡ Err error }
    {
        let mut tokens = DataTokens::new(tokens);
        match record_type.canonical() {
            RecordType::A => Ok(RData::A(A::parse(alloc, &mut tokens, origin)?)),
            RecordType::AAAA => Ok(RData::AAAA(AAAA::parse(alloc, &mut tokens, origin)?)),
            RecordType::CNAME => Ok(RData::CNAME(CNAME::parse(alloc, &mut tokens, origin)?)),
            RecordType::NS => Ok(RData::NS(NS::parse(alloc, &mut tokens, origin)?)),
            RecordType::PTR => Ok(RData::PTR(PTR::parse(alloc, &mut tokens, origin)?)),
            RecordType::MX => Ok(RData::MX(MX::parse(alloc, &mut tokens, origin)?)),
            RecordType::SOA => Ok(RData::SOA(SOA::parse(alloc, &mut tokens, origin)?)),
            RecordType::SRV => Ok(RData::SRV(SRV::parse(alloc, &mut tokens, origin)?)),
            RecordType::TXT => Ok(RData::TXT(TXT::parse(alloc, &mut tokens)?)),
            _ => Err(RDataParseError::UnsupportedRecordType),
        }
    }
}

impl fmt::Display for RData {
    ghost use Rattle.std.specs.Prelude.{Some};
    ghost use Rattle.dns_data.specs.rdata.{data_text};

    ghost output = { λ d. Some (data_text d) };

    /// Writes the fields of the data, or its bytes in the form of RFC 3597 section 5 if its type has no text form here.
    fn fmt<W: fmt::Write>(&self, f: &mut fmt::Formatter<W>) -> fmt::Result {
        match self {
            RData::A(a) => a.fmt(f),
            RData::AAAA(aaaa) => aaaa.fmt(f),
            RData::CNAME(cname) => cname.fmt(f),
            RData::NS(ns) => ns.fmt(f),
            RData::PTR(ptr) => ptr.fmt(f),
            RData::MX(mx) => mx.fmt(f),
            RData::SOA(soa) => soa.fmt(f),
            RData::SRV(srv) => srv.fmt(f),
            RData::TXT(txt) => txt.fmt(f),
            RData::OPT(opt) => opt.fmt(f),
            RData::Update0(_) => f.write_str("\\# 0"),
            RData::Unknown { rdata, .. } => write_generic(rdata.as_slice(), f),
        }
    }
}
