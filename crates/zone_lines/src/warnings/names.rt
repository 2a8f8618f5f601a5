//! The names of records, those without their last dot, and those that are addresses.

ghost use Rattle.std.specs.Prelude.{◌≡◌, ◌==◌, ◌∷◌, [], find, length, IfOk, IsOk, None, option_copied};
ghost use Rattle.zone_lines.specs.warnings.Names.{begins_with_address, doubled_origin, has_address_name, has_top_name, is_address_name, is_octet, lies_below, name_below, name_lies_below, names_of, server_of};

use crate::RecordLine;
use dns_data::RData;
use dns_names::{Name, ParseError};
use dns_wire::codes::parse_decimal;
use std::alloc::AllocError;

/// Returns the origin with its labels once more, if that is a name and has a label. If not, no memory is taken.
pub fn doubled_origin(origin: &Name) -> Result<Option<Name>, AllocError>
    ensures ok { IfOk result (λ doubled. doubled ≡ doubled_origin origin.now) }
    ensures none { doubled_origin origin.now ≡ None → IsOk result }
{
    if origin.num_labels() == 0 {
        return Ok(None);
    }
    if origin.encoded_len() + origin.encoded_len() > Name::MAX_LENGTH + 1 {
        return Ok(None);
    }
    match origin.clone()?.append_name(origin) {
        Ok(doubled) => Ok(Some(doubled)),
        // Memory for the name was refused.
        Err(ParseError::Memory) => Err(AllocError),
        Err(_) => Ok(None),
    }
}

/// Returns `true` if some name of a record is at or below another.
pub(crate) fn name_lies_below(doubled: Option<&Name>, record_line: &RecordLine) -> bool
    ensures { result ≡ name_lies_below (option_copied doubled.entry) record_line.now }
{
    match doubled {
        Some(doubled) => name_below(doubled, record_line).is_some(),
        None => false,
    }
}

/// Returns the first name of a record that is at or below another: its owner, or a name of its data.
pub fn name_below<'a>(name: &Name, record_line: &'a RecordLine) -> Option<&'a Name>
    ensures { option_copied result ≡ name_below name.now record_line.now }
{
    if name.zone_of(&record_line.owner) {
        return Some(&record_line.owner);
    }
    data_name_below(name, &record_line.rdata)
}

/// Returns the first name of data that is at or below another.
fn data_name_below<'a>(name: &Name, rdata: &'a RData) -> Option<&'a Name>
    ensures { option_copied result ≡ find (lies_below name.now) (names_of rdata.now) }
{
    match rdata {
        RData::CNAME(cname) => if_below(name, &cname.0),
        RData::NS(ns) => if_below(name, &ns.0),
        RData::PTR(ptr) => if_below(name, &ptr.0),
        RData::MX(mx) => if_below(name, &mx.exchange),
        RData::SRV(srv) => if_below(name, &srv.target),
        RData::SOA(soa) if name.zone_of(&soa.mname) => Some(&soa.mname),
        RData::SOA(soa) => if_below(name, &soa.rname),
        _ => None,
    }
}

/// Returns a name, if it is at or below another.
fn if_below<'a>(name: &Name, other: &'a Name) -> Option<&'a Name>
    ensures { option_copied result ≡ find (lies_below name.now) (other.now ∷ []) }
{
    name.zone_of(other).then_some(other)
}

/// Returns the server that data names.
pub(crate) fn server_of(rdata: &RData) -> Option<&Name>
    ensures { option_copied result ≡ server_of rdata.now }
{
    match rdata {
        RData::NS(ns) => Some(&ns.0),
        RData::MX(mx) => Some(&mx.exchange),
        _ => None,
    }
}

/// Returns `true` if some name in data has one label.
pub(crate) fn has_top_name(rdata: &RData) -> bool
    ensures { result ≡ has_top_name rdata.now }
{
    match rdata {
        RData::CNAME(cname) => is_top(&cname.0),
        RData::NS(ns) => is_top(&ns.0),
        RData::PTR(ptr) => is_top(&ptr.0),
        RData::MX(mx) => is_top(&mx.exchange),
        RData::SRV(srv) => is_top(&srv.target),
        RData::SOA(soa) => is_top(&soa.mname) || is_top(&soa.rname),
        _ => false,
    }
}

/// Returns `true` if a name has one label.
fn is_top(name: &Name) -> bool
    ensures { result ≡ (length name.now.labels == 1) }
{
    name.iter().len() == 1
}

/// Returns `true` if some name in data is an address, which perhaps an origin completes.
pub(crate) fn has_address_name(origin: &Name, rdata: &RData) -> bool
    ensures { result ≡ has_address_name origin.now rdata.now }
{
    match rdata {
        RData::CNAME(cname) => is_address_name(origin, &cname.0),
        RData::NS(ns) => is_address_name(origin, &ns.0),
        RData::PTR(ptr) => is_address_name(origin, &ptr.0),
        RData::MX(mx) => is_address_name(origin, &mx.exchange),
        RData::SRV(srv) => is_address_name(origin, &srv.target),
        RData::SOA(soa) => is_address_name(origin, &soa.mname)
            || is_address_name(origin, &soa.rname),
        _ => false,
    }
}

/// Returns `true` if a name is an address, alone or before an origin.
fn is_address_name(origin: &Name, name: &Name) -> bool
    ensures { result ≡ is_address_name origin.now name.now }
{
    let others = name.iter().len().saturating_sub(4);
    let is_completed = others == origin.iter().len() && origin.zone_of(name);
    begins_with_address(name) && (others == 0 || is_completed)
}

/// Returns `true` if the first four labels of a name are numbers up to 255.
fn begins_with_address(name: &Name) -> bool
    ensures { result ≡ begins_with_address name.now.labels }
{
    name.iter().len() >= 4 && name.iter().take(4).all(|label| is_octet(label))
}

/// Returns `true` if a label is a number up to 255.
fn is_octet(label: &[u8]) -> bool
    ensures { result ≡ is_octet label.now }
{
    parse_decimal(label, 255).is_some()
}
