//! The check of a zone file.

ghost use Rattle.std.specs.Prelude.{◌≡◌, IfOk, option_copied};
ghost use Rattle.zone_check.specs.Check.{ReadsZoneText, checked_origin, is_plain, warnings_at_origin, warnings_if_known};
ghost use Rattle.zone_check.specs.Mark.{unmarked};
ghost use Rattle.zone_lines.specs.Reading.{ReadsFile};
ghost use Rattle.zone_lines.specs.Source.{text_view};

use crate::apex::apex_of;
use crate::mark::unmarked;
use dns_names::Name;
use dns_zone::{Zone, ZoneFault};
use dns_zone_file::Types;
use std::alloc::{AllocError, Global};
use zone_lines::warnings::{Warning, ZoneFacts, warnings};
use zone_lines::{EntryLine, ZoneText, lines_of_file, read_lines};

/// What is to be said of a zone file.
#[derive(Drop)]
pub struct ZoneCheck {
    /// The zone, or its fault. The fault is not `Memory`.
    pub outcome: Result<Zone, ZoneFault>,
    /// The origin of the zone, also of a text with faults, if it is known.
    pub origin: Option<Name>,
    /// The records and the faults of entries, in order.
    pub entries: Vec<EntryLine>,
    /// What the server accepts and nobody means, in the order of the entries. Without an origin there are none.
    pub warnings: Vec<Warning>,
}

/// Checks a zone file. The origin completes relative names and is the zone's, as for [`Zone::from_text_with`]. Signatures must not
/// have expired at a time, in seconds since 1970 and modulo 2^32, if one is given. A byte-order mark at the start of the file is a
/// fault, and the entry after it is read without it.
pub fn check_zone(
    alloc: Global,
    file: &ZoneText<'_>,
    origin: Option<&Name>,
    now: Option<u32>,
) -> Result<ZoneCheck, AllocError>
    ensures outcome { IfOk result (λ check.
        ReadsZoneText (text_view file.entry.now) (option_copied origin.entry) check.outcome) }
    ensures entries { IfOk result (λ check. ReadsFile (unmarked (text_view file.entry.now))
        (option_copied origin.entry) check.entries.items) }
    ensures origin { IfOk result (λ check. check.origin
        ≡ checked_origin check.outcome (option_copied origin.entry) check.entries.items) }
    ensures warnings { IfOk result (λ check. check.warnings.items
        ≡ warnings_at_origin (option_copied origin.entry) now
        (unmarked (text_view file.entry.now)) check.origin check.entries.items) }
{
    let unmarked = unmarked(file);
    let entries = read_lines(alloc, &unmarked, origin)?;
    let outcome = zone_of(alloc, file, origin)?;
    let apex = checked_origin(&outcome, origin, entries.as_slice())?;
    let warnings = warnings_at(
        alloc,
        &unmarked,
        origin.is_some(),
        now,
        apex.as_ref(),
        entries.as_slice(),
    )?;
    Ok(ZoneCheck {
        outcome,
        origin: apex,
        entries,
        warnings,
    })
}

/// Returns the zone of a file, or its fault, which is not `Memory`.
fn zone_of(
    alloc: Global,
    file: &ZoneText<'_>,
    origin: Option<&Name>,
) -> Result<Result<Zone, ZoneFault>, AllocError>
    ensures { IfOk result (ReadsZoneText (text_view file.entry.now) (option_copied origin.entry)) }
{
    match Zone::from_text_with(alloc, file.text, file.includes, origin, file.types) {
        Ok(zone) => Ok(Ok(zone)),
        // Memory was refused while the zone was read.
        Err(ZoneFault::Memory) => Err(AllocError),
        Err(fault) => Ok(Err(fault)),
    }
}

/// Returns the origin of a zone, or of the entries of a file that has faults, if it is known.
fn checked_origin(
    outcome: &Result<Zone, ZoneFault>,
    origin: Option<&Name>,
    entries: &[EntryLine],
) -> Result<Option<Name>, AllocError>
    ensures { IfOk result (λ found. found
        ≡ checked_origin outcome.now (option_copied origin.entry) entries.now) }
{
    match outcome {
        Ok(zone) => Ok(Some(zone.origin().clone()?)),
        Err(_) => apex_of(origin, entries),
    }
}

/// Returns `true` if a file of some types is served plainly: a server that reads no other types expands no wildcard, and follows
/// no delegation.
fn is_plain(types: Types) -> bool
    ensures { result ≡ is_plain types }
{
    matches!(types, Types::Nine)
}

/// Returns the warnings that apply to the records of a file, if its origin is known.
fn warnings_at(
    alloc: Global,
    file: &ZoneText<'_>,
    is_given: bool,
    now: Option<u32>,
    apex: Option<&Name>,
    entries: &[EntryLine],
) -> Result<Vec<Warning>, AllocError>
    ensures { IfOk result (λ found. found.items ≡ warnings_if_known is_given now
        (text_view file.entry.now) (option_copied apex.entry) entries.now) }
{
    let Some(origin) = apex else {
        return Ok(Vec::new(alloc));
    };
    let texts = lines_of_file(alloc, file)?;
    let facts = ZoneFacts {
        origin,
        is_given,
        is_plain: is_plain(file.types),
        now,
        texts: texts.as_slice(),
    };
    warnings(alloc, &facts, entries)
}
