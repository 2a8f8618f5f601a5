//! Steps by DNAME records (RFC 6672 section 3.2).

ghost use Rattle.std.specs.Prelude.{◌≡◌, IfOk, option_copied};
ghost use Rattle.dns_data.specs.declared.rdata.RData.{RData};
ghost use Rattle.dns_authority.specs.steps.Redirection.{dname_target};
ghost use Rattle.dns_zone.specs.Rows.{row_of, rows_of};
ghost use Rattle.dns_authority.specs.Step.{followed_for, is_alias_type, redirect, redirected, refusal, step_below, step_to, synthesized};

use crate::answer::AuthorityAnswer;
use crate::asked::is_any;
use crate::copies::copy;
use crate::step::{Step, followed};
use crate::steps::{dname_target, with_target};
use dns_data::{CNAME, RData};
use dns_messages::ResponseCode;
use dns_names::Name;
use dns_records::{Record, Sequence};
use dns_server::ZoneTable;
use dns_wire::{DNSClass, RecordType};
use std::alloc::{AllocError, Global};

/// Returns the step by the first DNAME record of a name above the owner. Data that is no name is a failure of the server.
pub(crate) fn step_below(
    alloc: Global,
    zones: &ZoneTable,
    record_type: RecordType,
    owner: &Name,
    at: &Name,
    stored: &[Record],
) -> Result<Step, AllocError>
    ensures { IfOk result (λ made. made
        ≡ step_below zones.now record_type owner.now at.now (rows_of stored.now)) }
{
    match stored.first() {
        Some(dname) => step_to(alloc, zones, record_type, owner, at, dname),
        None => Ok(failure(alloc)),
    }
}

/// Returns the step that ends in a failure of the server.
fn failure(alloc: Global) -> Step
    ensures { result ≡ Step.End (refusal ResponseCode.ServFail) }
{
    Step::End(AuthorityAnswer::refusal(alloc, ResponseCode::ServFail))
}

/// Returns the step by a DNAME record of a name above the owner.
fn step_to(
    alloc: Global,
    zones: &ZoneTable,
    record_type: RecordType,
    owner: &Name,
    at: &Name,
    dname: &Record,
) -> Result<Step, AllocError>
    ensures { IfOk result (λ made. made ≡ step_to zones.now record_type owner.now at.now
        (row_of dname.now) (dname_target dname.now.rdata)) }
{
    let Some(target) = dname_target(alloc, &dname.rdata)? else {
        return Ok(failure(alloc));
    };
    let made = redirect(alloc, owner, at, &target)?;
    redirected(alloc, zones, record_type, owner, at, dname, made.as_ref())
}

/// Returns the name that a DNAME record at a name makes of a name below, unless it has more than 255 bytes.
fn redirect(
    alloc: Global,
    owner: &Name,
    at: &Name,
    target: &Name,
) -> Result<Option<Name>, AllocError>
    ensures { IfOk result (λ made. made ≡ redirect owner.now at.now target.now) }
{
    let kept = owner.iter().len().saturating_sub(at.iter().len());
    with_target(alloc, owner, kept, target)
}

/// Returns the step by a DNAME record with the name that it makes of the owner.
fn redirected(
    alloc: Global,
    zones: &ZoneTable,
    record_type: RecordType,
    owner: &Name,
    at: &Name,
    dname: &Record,
    made: Option<&Name>,
) -> Result<Step, AllocError>
    ensures { IfOk result (λ step. step ≡ redirected zones.now record_type owner.now at.now
        (row_of dname.now) (option_copied made.entry)) }
{
    let mut records = Sequence::new(alloc);
    records.push(copy(at, dname)?)?;
    let Some(target) = made else {
        return Ok(Step::End(AuthorityAnswer::authoritative(
            alloc,
            ResponseCode::YXDomain,
            records,
            Sequence::new(alloc),
        )));
    };
    records.push(synthesized(owner, dname.ttl, target)?)?;
    let next = followed_for(zones, record_type, target)?;
    Ok(Step::Links(records, next))
}

/// Returns the alias that is synthesized from a DNAME record with a TTL (RFC 6672 section 3.1).
fn synthesized(owner: &Name, ttl: u32, target: &Name) -> Result<Record, AllocError>
    ensures { IfOk result (λ alias. (rdata : RData)
        → alias ≡ synthesized owner.now (record { ttl = ttl; rdata = rdata }) target.now) }
{
    let target = target.clone()?;
    Ok(Record {
        name: owner.clone()?,
        dns_class: DNSClass::IN,
        ttl,
        rdata: RData::CNAME(CNAME(target)),
    })
}

/// Returns the name at which an answer goes on after a synthesized alias: none if the alias answers the question.
fn followed_for(
    zones: &ZoneTable,
    record_type: RecordType,
    target: &Name,
) -> Result<Option<Name>, AllocError>
    ensures { IfOk result (λ next. next
        ≡ followed_for zones.now record_type target.now) }
{
    if is_alias_type(record_type) {
        return Ok(None);
    }
    followed(zones, Some(target))
}

/// Returns `true` if records of this type include aliases: for CNAME and ANY.
fn is_alias_type(record_type: RecordType) -> bool
    ensures { result ≡ is_alias_type record_type }
{
    u16::from(record_type) == 5 || is_any(record_type)
}
