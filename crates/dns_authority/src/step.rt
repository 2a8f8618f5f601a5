//! What a zone has for a question at a name (RFC 1034 section 4.3.2 step 3).

ghost use Rattle.std.specs.Prelude.{◌≡◌, ◌≤◌, ◌&&◌, not, IfOk, Option, Some, option_copied};
ghost use Rattle.dns_names.specs.Name.{DomainName};
ghost use Rattle.dns_zone.specs.Rows.{row_of, rows_at, rows_of};
ghost use Rattle.dns_authority.specs.steps.Barrier.{cut_at, is_cut, is_ds};
ghost use Rattle.dns_authority.specs.steps.Wildcard.{if_exists, source_of_synthesis};
ghost use Rattle.dns_authority.specs.Front.{step_front};
ghost use Rattle.dns_authority.specs.Step.{alias_step, alias_target, followed, is_followed, negative, step, step_at, step_by, step_from, step_over, step_with};

use crate::answer::AuthorityAnswer;
use crate::asked::{Wanted, asked_records};
use crate::copies::copy;
use crate::redirection::step_below;
use crate::steps::{barrier_above, is_cut, is_cut_with, is_ds, source_of_synthesis};
use crate::zones::{closest_zone, zone_for};
use dns_data::RData;
use dns_messages::ResponseCode;
use dns_names::Name;
use dns_records::{Record, Sequence};
use dns_server::ZoneTable;
use dns_text::usage;
use dns_wire::RecordType;
use dns_zone::{Node, Zone};
use std::alloc::{AllocError, Global};

/// A step of an answer, at one name.
#[derive(Drop)]
pub(crate) enum Step {
    /// The answer ends here.
    End(AuthorityAnswer),
    /// Aliases, and the name at which the answer goes on, if they are followed.
    Links(Sequence<Record>, Option<Name>),
}

/// Returns the step at a name: in the zone of the question, or a refusal without one. It has the first of the records: as many as
/// are wanted.
pub(crate) fn next_step(
    alloc: Global,
    zones: &ZoneTable,
    wanted: Wanted,
    owner: &Name,
) -> Result<Step, AllocError>
    requires { 1 ≤ wanted.most }
    ensures { IfOk result (λ made. step_front wanted.most made
        ≡ step_front wanted.most (step zones.now wanted.asked owner.now)) }
{
    let Some(zone) = zone_for(zones, wanted.asked.record_type, owner)? else {
        let refusal = AuthorityAnswer::refusal(alloc, ResponseCode::Refused);
        return Ok(Step::End(refusal));
    };
    match barrier_above(zone, owner)? {
        Some(at) => step_over(alloc, zones, zone, wanted, owner, &at),
        None => step_at_name(alloc, zones, zone, wanted, owner),
    }
}

/// Returns the step at a barrier: a referral at a zone cut, or else by a DNAME record.
fn step_over(
    alloc: Global,
    zones: &ZoneTable,
    zone: &Zone,
    wanted: Wanted,
    owner: &Name,
    at: &Name,
) -> Result<Step, AllocError>
    ensures { IfOk result (λ made. step_front wanted.most made ≡ step_front wanted.most
        (step_over zones.now zone.now wanted.asked.record_type owner.now at.now)) }
{
    if is_cut(zone, at) {
        let referral = AuthorityAnswer::referral(alloc, wanted.most, zone, at)?;
        return Ok(Step::End(referral));
    }
    let stored = zone.records_at(at, RecordType::DNAME);
    step_below(alloc, zones, wanted.asked.record_type, owner, at, stored)
}

/// Returns the step at a name above which there is no barrier. It may be a zone cut itself.
fn step_at_name(
    alloc: Global,
    zones: &ZoneTable,
    zone: &Zone,
    wanted: Wanted,
    owner: &Name,
) -> Result<Step, AllocError>
    requires { 1 ≤ wanted.most }
    ensures { IfOk result (λ made. step_front wanted.most made ≡ step_front wanted.most
        (step_with zones.now zone.now wanted.asked owner.now
        (cut_at zone.now wanted.asked.record_type owner.now))) }
{
    let node = zone.node(owner, wanted.asked.record_type);
    if !node.exists {
        return step_beside(alloc, zones, zone, wanted, owner);
    }
    if is_cut_for(zone, wanted.asked.record_type, owner, node.servers) {
        let referral = AuthorityAnswer::referral(alloc, wanted.most, zone, owner)?;
        return Ok(Step::End(referral));
    }
    step_from(alloc, zones, zone, wanted, owner, owner, node)
}

/// Returns `true` if a name with these NS records is a zone cut for a type: for all but DS, whose records are above it (RFC 4035
/// section 3.1.4.1).
fn is_cut_for(zone: &Zone, record_type: RecordType, name: &Name, servers: &[Record]) -> bool
    requires { rows_of servers.now ≡ rows_at zone.now.rows name.now.labels RecordType.NS }
    ensures { result ≡ (is_cut zone.now name.now && not (is_ds record_type)) }
{
    is_cut_with(zone, name, servers) && !is_ds(record_type)
}

/// Returns the step at a name that does not exist: from the records of the wildcard beside it, if there is one (RFC 4592 section
/// 3.3).
fn step_beside(
    alloc: Global,
    zones: &ZoneTable,
    zone: &Zone,
    wanted: Wanted,
    owner: &Name,
) -> Result<Step, AllocError>
    requires { 1 ≤ wanted.most }
    ensures { IfOk result (λ made. step_front wanted.most made ≡ step_front wanted.most
        (step_at zones.now zone.now wanted.asked owner.now
        (if_exists zone.now.rows (source_of_synthesis zone.now.rows owner.now.labels)))) }
{
    match source_of_synthesis(zone, owner)? {
        Some(source) => step_of_source(alloc, zones, zone, wanted, owner, &source),
        None => no_name(alloc, zone),
    }
}

/// Returns the step from a wildcard, if it exists.
fn step_of_source(
    alloc: Global,
    zones: &ZoneTable,
    zone: &Zone,
    wanted: Wanted,
    owner: &Name,
    source: &Name,
) -> Result<Step, AllocError>
    requires { 1 ≤ wanted.most }
    ensures { IfOk result (λ made. step_front wanted.most made ≡ step_front wanted.most
        (step_at zones.now zone.now wanted.asked owner.now
        (if_exists zone.now.rows (Some source.now)))) }
{
    let node = zone.node(source, wanted.asked.record_type);
    if !node.exists {
        return no_name(alloc, zone);
    }
    step_from(alloc, zones, zone, wanted, owner, source, node)
}

/// Returns the step at a name that does not exist, nor does a wildcard beside it.
fn no_name(alloc: Global, zone: &Zone) -> Result<Step, AllocError>
    ensures { IfOk result (λ made. made ≡ Step.End (negative zone.now ResponseCode.NXDomain)) }
{
    let answer = AuthorityAnswer::negative(alloc, zone, ResponseCode::NXDomain)?;
    Ok(Step::End(answer))
}

/// Returns the step from what a zone has at a name or a wildcard.
fn step_from(
    alloc: Global,
    zones: &ZoneTable,
    zone: &Zone,
    wanted: Wanted,
    owner: &Name,
    source: &Name,
    node: Node<'_>,
) -> Result<Step, AllocError>
    requires { (1 ≤ wanted.most)
        × ((rows_of node.records.now
        ≡ rows_at zone.now.rows source.now.labels wanted.asked.record_type)
        × (rows_of node.aliases.now ≡ rows_at zone.now.rows source.now.labels RecordType.CNAME)) }
    ensures { IfOk result (λ made. step_front wanted.most made ≡ step_front wanted.most
        (step_from zones.now zone.now wanted.asked owner.now source.now)) }
{
    let records = asked_records(alloc, zone, wanted, owner, source, node.records)?;
    step_by(alloc, zones, zone, owner, node.aliases, records)
}

/// Returns the step by the records of a name or a wildcard that are asked for: with these, or else along its alias, or else without
/// data.
fn step_by(
    alloc: Global,
    zones: &ZoneTable,
    zone: &Zone,
    owner: &Name,
    aliases: &[Record],
    records: Sequence<Record>,
) -> Result<Step, AllocError>
    ensures { IfOk result (λ made. made ≡ step_by zones.now zone.now owner.now records
        (rows_of aliases.now)) }
{
    if !records.is_empty() {
        return Ok(Step::End(AuthorityAnswer::authoritative(
            alloc,
            ResponseCode::NoError,
            records,
            Sequence::new(alloc),
        )));
    }
    match aliases.first() {
        Some(alias) => alias_step(alloc, zones, owner, alias),
        None => {
            let answer = AuthorityAnswer::negative(alloc, zone, ResponseCode::NoError)?;
            Ok(Step::End(answer))
        }
    }
}

/// Returns the step along an alias of a name.
fn alias_step(
    alloc: Global,
    zones: &ZoneTable,
    owner: &Name,
    alias: &Record,
) -> Result<Step, AllocError>
    ensures { IfOk result (λ made. made
        ≡ alias_step zones.now owner.now (row_of alias.now)) }
{
    let mut records = Sequence::new(alloc);
    records.push(copy(owner, alias)?)?;
    let next = followed(zones, alias_target(&alias.rdata))?;
    Ok(Step::Links(records, next))
}

/// Returns the target of an alias.
fn alias_target(rdata: &RData) -> Option<&Name>
    ensures { option_copied result ≡ alias_target rdata.now }
{
    match rdata {
        RData::CNAME(data) => Some(&data.0),
        _ => None,
    }
}

/// Returns the name at which an answer goes on, if it does.
pub(crate) fn followed(zones: &ZoneTable, target: Option<&Name>) -> Result<Option<Name>, AllocError>
    ensures { IfOk result (λ next. next ≡ followed zones.now (option_copied target.entry)) }
{
    let Some(name) = target else {
        return Ok(None);
    };
    if is_followed(zones, name) {
        return Ok(Some(name.clone()?));
    }
    Ok(None)
}

/// Returns `true` if an alias is followed to a name: to one in a zone, which is not a special-use name (RFC 6761).
fn is_followed(zones: &ZoneTable, name: &Name) -> bool
    ensures { result ≡ is_followed zones.now name.now }
{
    closest_zone(zones, name).is_some()
        && !(usage::is_loopback(name) || usage::is_nonexistent(name))
}
