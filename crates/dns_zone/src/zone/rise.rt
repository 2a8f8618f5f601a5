//! The rise of the serial number of a zone after a change (RFC 2136 section 3.6).

ghost use Rattle.std.specs.Prelude.{◌≡◌, ◌++◌, [], ◌∷◌, map, IfOk, OnOk};
ghost use Rattle.dns_zone.specs.Answer.{record_of};
ghost use Rattle.dns_zone.specs.Rising.{raised_row, with_next_serial};
ghost use Rattle.dns_zone.specs.Rows.{row_of, rows_of};
ghost use Rattle.dns_zone.specs.internal.Rise.{changes_start, has_start, is_due_by, start_after, start_before};

use crate::zone::difference::copy;
use dns_data::{RData, SOA};
use dns_differences::Difference;
use dns_differences::serials::next_serial;
use dns_names::Name;
use dns_records::Record;
use dns_wire::RecordType;
use std::alloc::{AllocError, Global};

/// A change of a zone with the rise of its serial number, if that is due.
#[derive(Drop)]
pub(crate) struct Rise {
    /// The change, with both versions of the SOA record in front if the serial number rises.
    pub(crate) change: Difference,
    /// The SOA record with the next serial number, if it rises.
    pub(crate) start: Vec<Record>,
}

/// Returns a change with the rise of the serial number that is due after it, by the SOA records of the zone.
pub(crate) fn rise_after(
    alloc: Global,
    origin: &Name,
    stored: &[Record],
    change: Difference,
) -> Result<Rise, AllocError>
    ensures deleted { IfOk result (λ rise. rise.change.deleted.items
        ≡ map (record_of origin.now) (start_before (is_due_by change) (rows_of stored.now))
        ++ change.deleted.items) }
    ensures added { IfOk result (λ rise. rise.change.added.items
        ≡ map (record_of origin.now) (start_after (is_due_by change) (rows_of stored.now))
        ++ change.added.items) }
    ensures start { IfOk result (λ rise. rise.start.items
        ≡ map (record_of origin.now) (start_after (is_due_by change) (rows_of stored.now))) }
{
    if !is_due(&change) {
        return Ok(no_rise(alloc, change));
    }
    match stored {
        [start, ..] => raise(alloc, origin, start, change),
        [] => Ok(no_rise(alloc, change)),
    }
}

/// Returns `true` if the serial number is to rise after a change: it has records, and no SOA record is among them.
fn is_due(change: &Difference) -> bool
    ensures { result ≡ is_due_by change.now }
{
    !change.is_empty() && !changes_start(change)
}

/// Returns `true` if an SOA record is deleted or added.
fn changes_start(change: &Difference) -> bool
    ensures { result ≡ changes_start change.now }
{
    has_start(change.deleted.as_slice()) || has_start(change.added.as_slice())
}

/// Returns `true` if some record is an SOA record.
fn has_start(records: &[Record]) -> bool
    ensures { result ≡ has_start records.now }
{
    records
        .iter()
        .any(|present| RecordType::SOA == present.record_type())
}

/// Returns a change without a rise of the serial number.
fn no_rise(alloc: Global, change: Difference) -> Rise
    ensures change { result.change ≡ change }
    ensures start { result.start.items ≡ [] }
{
    Rise {
        change,
        start: Vec::new(alloc),
    }
}

/// Puts both versions of an SOA record in front of a change, of which the later one has the next serial number.
fn raise(
    alloc: Global,
    origin: &Name,
    start: &Record,
    change: Difference,
) -> Result<Rise, AllocError>
    ensures deleted { IfOk result (λ rise. rise.change.deleted.items
        ≡ record_of origin.now (row_of start.now) ∷ change.deleted.items) }
    ensures added { IfOk result (λ rise. rise.change.added.items
        ≡ record_of origin.now (raised_row (row_of start.now)) ∷ change.added.items) }
    ensures start { IfOk result (λ rise. rise.start.items
        ≡ record_of origin.now (raised_row (row_of start.now)) ∷ []) }
{
    let mut change = change;
    put_first(&mut change.deleted, copy(origin, start)?)?;
    put_first(&mut change.added, raised(origin, start)?)?;
    let mut records = Vec::new(alloc);
    records.push(raised(origin, start)?)?;
    Ok(Rise {
        change,
        start: records,
    })
}

/// Inserts a record in front of others. An error leaves them unchanged.
fn put_first(records: &mut Vec<Record>, first: Record) -> Result<(), AllocError>
    ensures { OnOk result (records.new.items ≡ first ∷ records.old.items) }
{
    records.insert(0, first)?;
    Ok(())
}

/// Returns a copy of an SOA record of the class `IN`, with an owner and the next serial number.
fn raised(owner: &Name, start: &Record) -> Result<Record, AllocError>
    ensures { IfOk result (λ copy. copy ≡ record_of owner.now (raised_row (row_of start.now))) }
{
    let rdata = with_next_serial(&start.rdata)?;
    Ok(Record::from_rdata(owner.clone()?, start.ttl, rdata))
}

/// Returns a copy of the data of an SOA record with the next serial number, and of any other data as it is.
fn with_next_serial(rdata: &RData) -> Result<RData, AllocError>
    ensures { IfOk result (λ copy. copy ≡ with_next_serial rdata.now) }
{
    match rdata {
        RData::SOA(soa) => Ok(RData::SOA(soa_with(soa, next_serial(soa.serial))?)),
        _ => rdata.clone(),
    }
}

/// Returns a copy of the start of an authority with another serial number.
fn soa_with(soa: &SOA, serial: u32) -> Result<SOA, AllocError>
    ensures { IfOk result (λ copy. copy ≡ record soa.now { serial = serial }) }
{
    Ok(SOA {
        mname: soa.mname.clone()?,
        rname: soa.rname.clone()?,
        serial,
        refresh: soa.refresh,
        retry: soa.retry,
        expire: soa.expire,
        minimum: soa.minimum,
    })
}
