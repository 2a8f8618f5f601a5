//! The additional section: addresses of the hosts that the other sections name (RFC 1034 section 4.3.2 step 6).

ghost use Rattle.std.specs.Prelude.{◌≡◌, IfOk, option_copied};
ghost use Rattle.dns_zone.specs.Rows.{rows_of};
ghost use Rattle.dns_authority.specs.Additional.{additionals_of, has_set, host_of, rows_by, rows_without, with_additionals, with_host, with_host_of, with_hosts, with_set};
ghost use Rattle.dns_authority.specs.steps.Barrier.{barrier};

use crate::answer::AuthorityAnswer;
use crate::copies::push_copies;
use crate::section::Section;
use crate::steps::barrier;
use crate::zones::closest_zone;
use dns_data::RData;
use dns_names::Name;
use dns_records::{Record, Sequence};
use dns_server::ZoneTable;
use dns_wire::RecordType;
use dns_zone::Zone;
use std::alloc::{AllocError, Global};

/// The most records of a section whose sets are compared one by one.
const FEW_RECORDS: usize = 16;

/// Why the addresses of a host are added.
#[derive(Clone, Copy, Debug, PartialEq, Eq)]
pub(crate) enum HostKind {
    /// The host is in a referral: its addresses may be below a zone cut.
    Glue,
    /// The host is in the answer section.
    Answer,
}

/// Returns an answer with its additional section.
pub(crate) fn with_additionals(
    alloc: Global,
    zones: &ZoneTable,
    answer: AuthorityAnswer,
) -> Result<AuthorityAnswer, AllocError>
    ensures { IfOk result (λ whole. whole ≡ with_additionals zones.now answer) }
{
    let mut answer = answer;
    answer.additionals = additionals_of(
        alloc,
        zones,
        answer.answers.as_slice(),
        answer.authorities.as_slice(),
    )?;
    Ok(answer)
}

/// Returns the additional section of an answer section and an authority section. The sets of a few records are compared one by one;
/// those of more are found through an index, so that the time does not grow with the square of their number.
fn additionals_of(
    alloc: Global,
    zones: &ZoneTable,
    answers: &[Record],
    authorities: &[Record],
) -> Result<Sequence<Record>, AllocError>
    ensures { IfOk result (λ records. records
        ≡ additionals_of zones.now answers.now authorities.now) }
{
    if answers.len() > FEW_RECORDS || authorities.len() > FEW_RECORDS {
        return indexed_additionals(alloc, zones, answers, authorities);
    }
    let none = Sequence::new(alloc);
    let glue = with_hosts(alloc, zones, HostKind::Glue, answers, none, authorities)?;
    with_hosts(alloc, zones, HostKind::Answer, answers, glue, answers)
}

/// Returns the same section, made with an index of its sets.
fn indexed_additionals(
    alloc: Global,
    zones: &ZoneTable,
    answers: &[Record],
    authorities: &[Record],
) -> Result<Sequence<Record>, AllocError>
    ensures { IfOk result (λ records. records
        ≡ additionals_of zones.now answers.now authorities.now) }
{
    let none = Section::new(alloc, answers)?;
    let glue = none.with_hosts(alloc, zones, HostKind::Glue, authorities)?;
    let all = glue.with_hosts(alloc, zones, HostKind::Answer, answers)?;
    Ok(all.into_records())
}

/// Adds the addresses of the hosts that some records name.
fn with_hosts(
    alloc: Global,
    zones: &ZoneTable,
    kind: HostKind,
    answers: &[Record],
    records: Sequence<Record>,
    naming: &[Record],
) -> Result<Sequence<Record>, AllocError>
    ensures { IfOk result (λ all. all
        ≡ with_hosts (rows_by kind zones.now) answers.now records naming.now) }
{
    let mut all = records;
    for record in naming {
        all = with_host_of(alloc, zones, kind, answers, all, &record.rdata)?;
    }
    Ok(all)
}

/// Adds the addresses of the host that data names, if it names one.
fn with_host_of(
    alloc: Global,
    zones: &ZoneTable,
    kind: HostKind,
    answers: &[Record],
    records: Sequence<Record>,
    rdata: &RData,
) -> Result<Sequence<Record>, AllocError>
    ensures { IfOk result (λ all. all ≡ with_host_of (rows_by kind zones.now) answers.now records
        (host_of rdata.now)) }
{
    match host_of(rdata) {
        Some(host) => with_host(alloc, zones, kind, answers, records, host),
        None => Ok(records),
    }
}

/// Returns the host that data names: that of an NS, an MX or an SRV record.
pub(crate) fn host_of(rdata: &RData) -> Option<&Name>
    ensures { option_copied result ≡ host_of rdata.now }
{
    match rdata {
        RData::NS(data) => Some(&data.0),
        RData::MX(data) => Some(&data.exchange),
        RData::SRV(data) => Some(&data.target),
        _ => None,
    }
}

/// Adds the addresses of a host.
fn with_host(
    alloc: Global,
    zones: &ZoneTable,
    kind: HostKind,
    answers: &[Record],
    records: Sequence<Record>,
    host: &Name,
) -> Result<Sequence<Record>, AllocError>
    ensures { IfOk result (λ all. all
        ≡ with_host (rows_by kind zones.now) answers.now records host.now) }
{
    let records = with_set(alloc, zones, kind, answers, records, host, RecordType::A)?;
    with_set(alloc, zones, kind, answers, records, host, RecordType::AAAA)
}

/// Adds the records of a host and a type, unless the answers or the records have them.
fn with_set(
    alloc: Global,
    zones: &ZoneTable,
    kind: HostKind,
    answers: &[Record],
    records: Sequence<Record>,
    host: &Name,
    record_type: RecordType,
) -> Result<Sequence<Record>, AllocError>
    ensures { IfOk result (λ all. all ≡ with_set answers.now records host.now record_type
        (rows_by kind zones.now host.now record_type)) }
{
    if has_set(answers, host, record_type) || has_set(records.as_slice(), host, record_type) {
        return Ok(records);
    }
    let stored = host_records(zones, kind, host, record_type)?;
    push_copies(alloc, records, host, stored)
}

/// Returns `true` if a section has records of a name and a type.
fn has_set(records: &[Record], name: &Name, record_type: RecordType) -> bool
    ensures { result ≡ has_set records.now name.now record_type }
{
    records.iter().any(|record| {
        name.eq_ignore_root(&record.name) && record.rdata.record_type() == record_type
    })
}

/// Returns the records of a host and a type, in the closest zone: glue even below a zone cut.
pub(crate) fn host_records<'a>(
    zones: &'a ZoneTable,
    kind: HostKind,
    host: &Name,
    record_type: RecordType,
) -> Result<&'a [Record], AllocError>
    ensures { IfOk result (λ found. rows_of found.now
        ≡ rows_by kind zones.now host.now record_type) }
{
    let Some(zone) = closest_zone(zones, host) else {
        return Ok(&[]);
    };
    match kind {
        HostKind::Glue => Ok(zone.records_at(host, record_type)),
        HostKind::Answer => records_without_barrier(zone, host, record_type),
    }
}

/// Returns the records of a host and a type, if no barrier is on the way to it.
fn records_without_barrier<'a>(
    zone: &'a Zone,
    host: &Name,
    record_type: RecordType,
) -> Result<&'a [Record], AllocError>
    ensures { IfOk result (λ found. rows_of found.now
        ≡ rows_without (barrier zone.now record_type host.now)
        zone.now host.now record_type) }
{
    match barrier(zone, record_type, host)? {
        Some(_at) => Ok(&[]),
        None => Ok(zone.records_at(host, record_type)),
    }
}
