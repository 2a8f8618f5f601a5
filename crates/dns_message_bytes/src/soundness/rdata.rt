//! Record data that can be encoded, and decoded as itself (RFC 1035 section 3.3).

ghost use Rattle.std.specs.Prelude.{◌≡◌, ◌<◌, ◌≢◌, ◌^◌, ◌↔◌, [], ◌∷◌, IsTrue, length};
ghost use Rattle.std.specs.List.{AllByRecursion};
ghost use Rattle.dns_data.specs.Field.{AreSoundValues, IsSoundValue, Opaque, Options};
ghost use Rattle.dns_data.specs.declared.rdata.RData.TheVariants as of;
ghost use Rattle.dns_data.specs.rdata.A.{a_kinds, a_values};
ghost use Rattle.dns_data.specs.rdata.AAAA.{aaaa_kinds, aaaa_values};
ghost use Rattle.dns_data.specs.rdata.MX.{mx_kinds, mx_values};
ghost use Rattle.dns_data.specs.rdata.OPT.{opt_kinds, opt_values};
ghost use Rattle.dns_data.specs.rdata.TXT.{txt_kinds, txt_values};
ghost use Rattle.dns_data.specs.rdata.SOA.{soa_kinds, soa_values};
ghost use Rattle.dns_data.specs.rdata.SRV.{srv_kinds, srv_values};
ghost use Rattle.dns_data.specs.rdata.{HasFieldsOfType, IsSoundData, data_kinds, data_values, kinds_of_type};

use crate::soundness::code::{has_16_bits, has_32_bits, is_named_type};
use dns_data::{A, AAAA, CharacterString, EdnsOption, MX, OPT, OptionData, RData, SOA, SRV, TXT};
use dns_wire::RecordType;

/// The maximum length of data, in bytes (RFC 1035 section 3.2.1).
const MAX_DATA_LEN: u128 = 65_535;

/// Returns `true` if data can be encoded, and decoded as itself: its names are fully qualified, its type is the variant that
/// its number decodes to, and it has the fields of the type, in at most 65,535 bytes without compression.
pub fn is_sound_data(rdata: &RData) -> bool
    ensures sound { IsTrue result → IsSoundData rdata.now }
    ensures only { IsSoundData rdata.now → IsTrue result }
{
    let is_named = is_named_type(rdata.record_type());
    let is_short = rdata.encoded_len() <= MAX_DATA_LEN;
    let has_fields = has_fields_of_type(rdata);
    is_named && is_short && has_fields && has_sound_values(rdata)
}

/// Returns `true` if data has the fields of its type, or none in an update (RFC 2136 section 2.4).
fn has_fields_of_type(rdata: &RData) -> bool
    ensures sound { IsTrue result → HasFieldsOfType rdata.now }
    ensures only { HasFieldsOfType rdata.now → IsTrue result }
{
    match rdata {
        RData::Update0(kind) => !matches!(*kind, RecordType::OPT),
        RData::Unknown { code, rdata: _ } => is_opaque(*code),
        _ => true,
    }
}

/// Returns `true` if data of a type has no fields that this crate knows.
fn is_opaque(kind: RecordType) -> bool
    ensures sound { IsTrue result → Opaque ∷ [] ≡ kinds_of_type kind }
    ensures only { Opaque ∷ [] ≡ kinds_of_type kind → IsTrue result }
{
    match kind {
        RecordType::A
        | RecordType::AAAA
        | RecordType::CNAME
        | RecordType::NS
        | RecordType::PTR
        | RecordType::MX
        | RecordType::SOA
        | RecordType::SRV
        | RecordType::TXT
        | RecordType::OPT => false,
        _ => true,
    }
}

/// Returns `true` if the values of data can be encoded, and decoded as themselves.
fn has_sound_values(rdata: &RData) -> bool
    ensures sound { IsTrue result → AreSoundValues (data_kinds rdata.now) (data_values rdata.now) }
    ensures only { AreSoundValues (data_kinds rdata.now) (data_values rdata.now) → IsTrue result }
{
    match rdata {
        RData::A(a) => is_sound_a(a),
        RData::AAAA(aaaa) => is_sound_aaaa(aaaa),
        RData::Update0(_) => true,
        RData::CNAME(cname) => cname.0.is_fqdn(),
        RData::NS(ns) => ns.0.is_fqdn(),
        RData::PTR(ptr) => ptr.0.is_fqdn(),
        RData::MX(mx) => is_sound_mx(mx),
        RData::SOA(soa) => is_sound_soa(soa),
        RData::SRV(srv) => is_sound_srv(srv),
        RData::TXT(txt) => is_sound_txt(txt),
        RData::OPT(opt) => has_sound_options(opt),
        RData::Unknown { code: _, rdata } => is_sound_opaque(rdata),
    }
}

/// Returns `true`: every IPv4 address has four octets.
fn is_sound_a(a: &A) -> bool
    ensures sound { IsTrue result → AreSoundValues a_kinds (a_values a.now) }
    ensures only { IsTrue result }
{
    a.0.octets().len() == 4
}

/// Returns `true`: every IPv6 address has eight segments.
fn is_sound_aaaa(aaaa: &AAAA) -> bool
    ensures sound { IsTrue result → AreSoundValues aaaa_kinds (aaaa_values aaaa.now) }
    ensures only { IsTrue result }
{
    aaaa.0.segments().len() == 8
}

/// Returns `true` if there is at least one character string, and each has at most 255 bytes.
fn is_sound_txt(txt: &TXT) -> bool
    ensures sound { IsTrue result → AreSoundValues txt_kinds (txt_values txt.now) }
    ensures only { AreSoundValues txt_kinds (txt_values txt.now) → IsTrue result }
{
    !txt.strings().is_empty() && are_short(txt.strings())
}

/// Returns `true` if there is at least one opaque byte.
fn is_sound_opaque(rdata: &OptionData) -> bool
    ensures sound { IsTrue result → AreSoundValues (Opaque ∷ []) (rdata.now, tt) }
    ensures only { AreSoundValues (Opaque ∷ []) (rdata.now, tt) → IsTrue result }
{
    !rdata.as_slice().is_empty()
}

/// Returns `true` if the code of each option, and the length of its data, has 16 bits.
fn has_sound_options(opt: &OPT) -> bool
    ensures sound { IsTrue result → AreSoundValues opt_kinds (opt_values opt.now) }
    ensures only { AreSoundValues opt_kinds (opt_values opt.now) → IsTrue result }
{
    are_sound_options(opt.options())
}

/// Returns `true` if the name of a mail exchange is fully qualified.
fn is_sound_mx(mx: &MX) -> bool
    ensures sound { IsTrue result → AreSoundValues mx_kinds (mx_values mx.now) }
    ensures only { AreSoundValues mx_kinds (mx_values mx.now) → IsTrue result }
{
    has_16_bits(mx.preference);
    mx.exchange.is_fqdn()
}

/// Returns `true` if the names of the start of a zone's authority are fully qualified.
fn is_sound_soa(soa: &SOA) -> bool
    ensures sound { IsTrue result → AreSoundValues soa_kinds (soa_values soa.now) }
    ensures only { AreSoundValues soa_kinds (soa_values soa.now) → IsTrue result }
{
    has_32_bits(soa.serial);
    has_32_bits(soa.refresh);
    has_32_bits(soa.retry);
    has_32_bits(soa.expire);
    has_32_bits(soa.minimum);
    soa.mname.is_fqdn() && soa.rname.is_fqdn()
}

/// Returns `true` if the name of a server of a service is fully qualified.
fn is_sound_srv(srv: &SRV) -> bool
    ensures sound { IsTrue result → AreSoundValues srv_kinds (srv_values srv.now) }
    ensures only { AreSoundValues srv_kinds (srv_values srv.now) → IsTrue result }
{
    has_16_bits(srv.priority);
    has_16_bits(srv.weight);
    has_16_bits(srv.port);
    srv.target.is_fqdn()
}

/// Returns `true` if the options of an OPT record can be encoded, and decoded as themselves.
pub(crate) fn is_sound_options(opt: &OPT) -> bool
    ensures sound { IsTrue result → IsSoundData (of.OPT opt.now) }
    ensures only { IsSoundData (of.OPT opt.now) → IsTrue result }
{
    let is_short = opt.encoded_len() <= MAX_DATA_LEN;
    is_short && are_sound_options(opt.options())
}

/// Returns `true` if each character string has at most 255 bytes.
fn are_short(strings: &[CharacterString]) -> bool
    ensures sound { IsTrue result → AllByRecursion (λ string. length string < 256) strings.now }
    ensures only { AllByRecursion (λ string. length string < 256) strings.now → IsTrue result }
{
    for string in strings {
        if string.as_slice().len() > 255 {
            return false;
        }
    }
    true
}

/// Returns `true` if the code of each option, and the length of its data, has 16 bits.
fn are_sound_options(options: &[EdnsOption]) -> bool
    ensures sound { IsTrue result → IsSoundValue Options options.now }
    ensures only { IsSoundValue Options options.now → IsTrue result }
{
    for option in options {
        let _code = option.code();
        if option.data().len() > 65_535 {
            return false;
        }
    }
    true
}
