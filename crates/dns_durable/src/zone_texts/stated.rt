//! Whether a zone file of all types can state the data of a zone.

ghost use Rattle.std.specs.Prelude.{◌≡◌, ◌<◌, ◌^◌, ℕ, true, length, slice_index, IsTrue};
ghost use Rattle.std.specs.Net.Addr.{IsIpv4Addr, IsIpv6Addr};
ghost use Rattle.std.specs.List.{AllByRecursion};
ghost use Rattle.dns_wire.specs.codes.RecordType.{type_number};
ghost use Rattle.dns_formats.specs.Field.{fields_of};
ghost use Rattle.dns_formats.specs.ReadBack.{AreDataOf};
ghost use Rattle.dns_names.specs.Print.{AreOctets};
ghost use Rattle.dns_zone_file.specs.Data.{is_meta_type};
ghost use Rattle.dns_zone_file.specs.Printed.{IsValidName};
ghost use Rattle.dns_durable.specs.zone_texts.Stated.{IsGenericData, IsStated, IsStatedData, IsStatedSet};

use dns_data::{CharacterString, RData};
use dns_formats::{fits, format_of};
use dns_names::Name;
use dns_records::{Record, RecordSet};
use dns_wire::codes::RecordType;
use dns_zone::Zone;
use std::net::{Ipv4Addr, Ipv6Addr};

/// Returns `true` if a zone file of all types can state the data of each record of a zone. Then each text of the zone is read back as the
/// zone ([`printed_zones_parse_back`](crate::zone_texts::laws::printed_zones_parse_back)). Data that was taken as bytes may not have the format of
/// its type.
pub fn is_stated(zone: &Zone) -> bool
    ensures { IsTrue result → IsStated zone.now }
{
    for set in zone.sets() {
        if !is_stated_set(set) {
            return false;
        }
    }
    true
}

/// Returns `true` if a zone file can state the data of each record of a set.
pub(crate) fn is_stated_set(set: &RecordSet) -> bool
    ensures { IsTrue result → IsStatedSet set.now }
{
    name_is_valid(set.name());
    are_stated(set.as_slice())
}

/// Returns `true` if a zone file can state the data of each of these records.
fn are_stated(records: &[Record]) -> bool
    ensures { IsTrue result → AllByRecursion (λ r. IsStatedData r.rdata) records.now }
{
    for record in records {
        if !is_stated_data(&record.rdata) {
            return false;
        }
    }
    true
}

/// Returns `true` if a zone file can state data.
fn is_stated_data(rdata: &RData) -> bool
    ensures { IsTrue result → IsStatedData rdata.now }
{
    match rdata {
        RData::A(data) => is_ipv4_address(&data.0),
        RData::AAAA(data) => is_ipv6_address(&data.0),
        RData::CNAME(data) => is_valid(&data.0),
        RData::NS(data) => is_valid(&data.0),
        RData::PTR(data) => is_valid(&data.0),
        RData::MX(data) => is_valid(&data.exchange),
        RData::SOA(data) => is_valid(&data.mname) && is_valid(&data.rname),
        RData::SRV(data) => is_valid(&data.target),
        RData::TXT(data) => are_octets(data.strings()),
        RData::OPT(_) | RData::Update0(_) => false,
        RData::Unknown { code, rdata } => is_generic_data(*code, rdata.as_slice()),
    }
}

/// Returns `true` if the generic form can state bytes as data of a type (RFC 3597 section 5).
fn is_generic_data(record_type: RecordType, bytes: &[u8]) -> bool
    ensures { IsTrue result → IsGenericData record_type bytes.now }
{
    bytes_are_octets(bytes);
    !bytes.is_empty() && !is_meta_type(u16::from(record_type)) && are_data_of(record_type, bytes)
}

/// Returns `true` if bytes have the format of a type, where that is known (RFC 3597 section 4).
fn are_data_of(record_type: RecordType, bytes: &[u8]) -> bool
    ensures { IsTrue result → AreDataOf (fields_of (type_number record_type)) bytes.now }
{
    match format_of(record_type) {
        Some(fields) => fits(fields, bytes),
        None => true,
    }
}

/// Returns `true` for the number of a type that no record of a zone has (RFC 6895 section 3.1).
fn is_meta_type(number: u16) -> bool
    ensures { result ≡ is_meta_type number }
{
    matches!(number, 0 | 41 | 128..=255)
}

/// Returns `true`: an IPv4 address has four octets.
fn is_ipv4_address(address: &Ipv4Addr) -> bool
    ensures valid { IsIpv4Addr address.now }
    ensures always { result ≡ true }
{
    let _octets = octets_of(address.octets());
    true
}

/// Returns the octets of an IPv4 address.
fn octets_of(octets: [u8; 4]) -> [u8; 4]
    ensures same { result ≡ octets }
    ensures count { length result ≡ 4 }
    ensures fit { (k : ℕ) → slice_index result k < 2 ^ 8 }
{
    octets
}

/// Returns `true`: an IPv6 address has eight segments.
fn is_ipv6_address(address: &Ipv6Addr) -> bool
    ensures valid { IsIpv6Addr address.now }
    ensures always { result ≡ true }
{
    let _segments = segments_of(address.segments());
    true
}

/// Returns the segments of an IPv6 address.
fn segments_of(segments: [u16; 8]) -> [u16; 8]
    ensures same { result ≡ segments }
    ensures count { length result ≡ 8 }
    ensures fit { (k : ℕ) → slice_index result k < 2 ^ 16 }
{
    segments
}

/// Returns `true`: a name is valid.
fn is_valid(name: &Name) -> bool
    ensures valid { IsValidName name.now }
    ensures always { result ≡ true }
{
    name_is_valid(name);
    true
}

/// Proves that a name is valid; nothing is computed.
fn name_is_valid(name: &Name)
    ensures { IsValidName name.now }
{
    let _ = name.encoded_len();
    for label in name.iter() {
        bytes_are_octets(label);
    }
}

/// Returns `true`: strings consist of octets.
fn are_octets(strings: &[CharacterString]) -> bool
    ensures octets { AllByRecursion AreOctets strings.now }
    ensures always { result ≡ true }
{
    for string in strings {
        bytes_are_octets(string.as_slice());
    }
    true
}

/// Proves that bytes are octets; nothing is computed.
fn bytes_are_octets(_bytes: &[u8])
    ensures { AreOctets _bytes.now }
{}
