//! The answers of special-use names (RFC 6303, RFC 6761, RFC 7686).

ghost use Rattle.std.specs.Prelude.{◌≡◌, IfOk, OnErr};
ghost use Rattle.dns_text.specs.Usage.{zone_name, localhost_zone};
ghost use Rattle.stub_client.specs.SpecialNames.{IsLoopback, loopback_data, loopback_answer, name_answer, special_answer};

use dns_data::{A, AAAA, PTR, RData};
use dns_messages::{Query, Record, ResponseCode};
use dns_names::Name;
use dns_text::usage;
use dns_wire::{DNSClass, RecordType};
use std::alloc::{AllocError, Global};
use std::net::{Ipv4Addr, Ipv6Addr};
use stub_lookup::MAX_TTL;

/// How a resolver answers a question without asking for it.
#[derive(Drop)]
pub enum SpecialAnswer {
    /// It does not: the name is not special.
    Ordinary,
    /// With a record of the local host.
    Loopback(Record),
    /// With no records and a response code, which tells whether the name exists.
    Nothing(ResponseCode),
}

/// Returns how a question is answered without asking for it (RFC 6761 section 6).
///
/// In class `IN`, names at or below `localhost.`, `127.in-addr.arpa.` and the reverse name of `::1` have an A record
/// with `127.0.0.1`, an AAAA record with `::1` and a PTR record with `localhost.`, each with a TTL of 86,400 seconds.
/// Names at or below `invalid.` and `onion.` do not exist. Names below `local.` are asked for as any other. The class and
/// the type are taken by their numbers. Memory is taken for a record of the local host alone.
pub fn special_answer(alloc: Global, query: &Query) -> Result<SpecialAnswer, AllocError>
    ensures answer { IfOk result (λ answer. answer ≡ special_answer query.now) }
    ensures decided { OnErr result (IsLoopback (special_answer query.now)) }
{
    match query.query_class.canonical() {
        DNSClass::IN => name_answer(alloc, &query.name, query.query_type.canonical()),
        _ => Ok(SpecialAnswer::Ordinary),
    }
}

/// Answers a question of class `IN`.
fn name_answer(
    alloc: Global,
    name: &Name,
    record_type: RecordType,
) -> Result<SpecialAnswer, AllocError>
    ensures answer { IfOk result (λ answer. answer ≡ name_answer name.now record_type) }
    ensures decided { OnErr result (IsLoopback (name_answer name.now record_type)) }
{
    if usage::is_loopback(name) {
        return loopback_answer(alloc, name, record_type);
    }
    if usage::is_nonexistent(name) {
        return Ok(SpecialAnswer::Nothing(ResponseCode::NXDomain));
    }
    Ok(SpecialAnswer::Ordinary)
}

/// Answers a question for a name of the local host.
fn loopback_answer(
    alloc: Global,
    name: &Name,
    record_type: RecordType,
) -> Result<SpecialAnswer, AllocError>
    ensures answer { IfOk result (λ answer.
        answer ≡ loopback_answer name.now (loopback_data record_type)) }
    ensures decided { OnErr result
        (IsLoopback (loopback_answer name.now (loopback_data record_type))) }
{
    match loopback_data(alloc, record_type)? {
        Some(rdata) => {
            let name = name.clone()?;
            Ok(SpecialAnswer::Loopback(Record::from_rdata(name, MAX_TTL, rdata)))
        }
        None => Ok(SpecialAnswer::Nothing(ResponseCode::NoError)),
    }
}

/// Returns the data of a type that a name of the local host has.
fn loopback_data(alloc: Global, record_type: RecordType) -> Result<Option<RData>, AllocError>
    ensures data { IfOk result (λ rdata. rdata ≡ loopback_data record_type) }
    ensures decided { OnErr result (record_type ≡ RecordType.PTR) }
{
    match record_type {
        RecordType::A => Ok(Some(RData::A(A(Ipv4Addr::LOCALHOST)))),
        RecordType::AAAA => Ok(Some(RData::AAAA(AAAA(Ipv6Addr::LOCALHOST)))),
        RecordType::PTR => Ok(Some(RData::PTR(PTR(localhost_name(alloc)?)))),
        _ => Ok(None),
    }
}

/// Returns the name of the local host.
fn localhost_name(alloc: Global) -> Result<Name, AllocError>
    ensures { IfOk result (λ name. name ≡ zone_name localhost_zone) }
{
    let zone = usage::localhost(alloc)?;
    zone.name().clone()
}
