//! The origin of a zone file, also of one with faults.

ghost use Rattle.std.specs.Prelude.{◌≡◌, IfOk, option_copied};
ghost use Rattle.zone_check.specs.Apex.{apex_by, apex_of, first_meant, first_start, has_start, is_doubled, is_start_at, is_start_record, may_start, meant_by, some_starts, start_of, start_owner};

use dns_data::RData;
use dns_names::Name;
use std::alloc::AllocError;
use zone_lines::warnings::doubled_origin;
use zone_lines::{EntryLine, RecordLine};

/// Returns the origin of a zone file: the one that is given, or else the owner of the first SOA record, or else the origin by the
/// first entry with a fault that is meant as one. If this name lacks a dot, so that the origin is in it twice, the origin is its
/// last half.
pub(crate) fn apex_of(
    origin: Option<&Name>,
    entries: &[EntryLine],
) -> Result<Option<Name>, AllocError>
    ensures { IfOk result (λ apex. apex ≡ apex_of (option_copied origin.entry) entries.now) }
{
    match origin {
        Some(origin) => {
            let mut origin = origin.clone()?;
            origin.set_fqdn(true);
            Ok(Some(origin))
        }
        None => match start_owner(entries) {
            Some(owner) => Ok(Some(apex_by(owner)?)),
            None => Ok(None),
        },
    }
}

/// Returns the owner of the first SOA record, or else the origin by the first entry with a fault that is meant as one.
fn start_owner(entries: &[EntryLine]) -> Option<&Name>
    ensures { option_copied result ≡ start_owner entries.now }
{
    match first_start(entries) {
        Some(start) => Some(&start.owner),
        None => first_meant(entries),
    }
}

/// Returns the origin by the first entry with a fault that is meant as an SOA record.
fn first_meant(entries: &[EntryLine]) -> Option<&Name>
    ensures { option_copied result ≡ first_meant entries.now }
{
    for entry in entries {
        if let Some(apex) = meant_by(entry) {
            return Some(apex);
        }
    }
    None
}

/// Returns the origin by an entry, if that has a fault and is meant as an SOA record.
fn meant_by(entry: &EntryLine) -> Option<&Name>
    ensures { option_copied result ≡ meant_by entry.now }
{
    match entry {
        EntryLine::Record(_) => None,
        EntryLine::Fault(fault) => fault.apex.as_ref(),
    }
}

/// Returns the origin of a zone by the owner of its SOA record.
fn apex_by(owner: &Name) -> Result<Name, AllocError>
    ensures { IfOk result (λ apex. apex ≡ apex_by owner.now) }
{
    let half = owner.trim_to(usize::from(owner.num_labels()) / 2)?;
    if is_doubled(&half, owner)? {
        return Ok(half);
    }
    owner.clone()
}

/// Returns `true` if a name is an origin twice.
pub(crate) fn is_doubled(origin: &Name, name: &Name) -> Result<bool, AllocError>
    ensures { IfOk result (λ doubled. doubled ≡ is_doubled origin.now name.now) }
{
    match doubled_origin(origin)? {
        Some(doubled) => Ok(doubled.eq_ignore_root(name)),
        None => Ok(false),
    }
}

/// Returns the first SOA record among entries.
pub(crate) fn first_start(entries: &[EntryLine]) -> Option<&RecordLine>
    ensures { option_copied result ≡ first_start entries.now }
{
    for entry in entries {
        if let Some(start) = start_of(entry) {
            return Some(start);
        }
    }
    None
}

/// Returns the record of an entry, if it is an SOA record.
fn start_of(entry: &EntryLine) -> Option<&RecordLine>
    ensures { option_copied result ≡ start_of entry.now }
{
    match entry {
        EntryLine::Record(record_line) if is_start_record(record_line) => Some(record_line),
        _ => None,
    }
}

/// Returns `true` if a record is the start of an authority.
pub(crate) fn is_start_record(record_line: &RecordLine) -> bool
    ensures { result ≡ is_start_record record_line.now }
{
    matches!(&record_line.rdata, RData::SOA(_))
}

/// Returns `true` if some entry is an SOA record of an owner.
pub(crate) fn has_start(owner: &Name, entries: &[EntryLine]) -> bool
    ensures { result ≡ has_start owner.now entries.now }
{
    entries.iter().any(|entry| is_start_at(owner, entry))
}

/// Returns `true` if an entry is an SOA record of an owner.
fn is_start_at(owner: &Name, entry: &EntryLine) -> bool
    ensures { result ≡ is_start_at owner.now entry.now }
{
    match start_of(entry) {
        Some(start) => owner.eq_ignore_root(&start.owner),
        None => false,
    }
}

/// Returns `true` if some entry is an SOA record, or has a fault and may be meant as one.
pub(crate) fn some_starts(entries: &[EntryLine]) -> bool
    ensures { result ≡ some_starts entries.now }
{
    entries.iter().any(|entry| may_start(entry))
}

/// Returns `true` if an entry is an SOA record, or has a fault and may be meant as one.
fn may_start(entry: &EntryLine) -> bool
    ensures { result ≡ may_start entry.now }
{
    match entry {
        EntryLine::Record(record_line) => is_start_record(record_line),
        EntryLine::Fault(fault) => fault.may_be_start,
    }
}
