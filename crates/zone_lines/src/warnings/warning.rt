//! The warnings of a zone's records.

ghost use Rattle.std.specs.Prelude.{◌≡◌, ◌∷◌, ◌++◌, [], if◌then◌else◌, IfOk, IsOk, OnOk, List};
ghost use Rattle.zone_lines.specs.declared.record_line.EntryLine.{EntryLine};
ghost use Rattle.zone_lines.specs.warnings.Survey.{Surveys, facts_view};
ghost use Rattle.zone_lines.specs.warnings.Warning.{warnings_at, warnings_of};

use crate::warnings::applies::applies;
use crate::warnings::cuts::Cuts;
use crate::warnings::kind::{Warning, WarningKind};
use crate::warnings::survey::{Survey, ZoneFacts};
use crate::{EntryLine, RecordLine};
use std::alloc::{AllocError, Global};

/// Returns the warnings that apply to the records among the entries of a zone, in their order. No entry takes no memory. Among
/// *n* entries this takes a time proportional to *n*.
pub fn warnings(
    alloc: Global,
    facts: &ZoneFacts<'_>,
    entries: &[EntryLine],
) -> Result<Vec<Warning>, AllocError>
    ensures ok { IfOk result (λ found.
        found.items ≡ warnings_of (facts_view facts.entry.now) entries.now) }
    ensures empty { entries.now ≡ [] → IsOk result }
{
    if entries.is_empty() {
        return Ok(Vec::new(alloc));
    }
    let survey = Survey::new(alloc, facts, entries)?;
    let mut found = Vec::new(alloc);
    for (place, entry) in entries.iter().enumerate() {
        match entry {
            EntryLine::Record(record_line) => {
                push_warnings(&mut found, facts, &survey, place, record_line)?;
            }
            EntryLine::Fault(_) => continue,
        }
    }
    Ok(found)
}

/// Appends the warnings that apply to the record at a place.
fn push_warnings(
    found: &mut Vec<Warning>,
    facts: &ZoneFacts<'_>,
    survey: &Survey,
    place: usize,
    record_line: &RecordLine,
) -> Result<(), AllocError>
    ensures { OnOk result ((entries : List EntryLine)
        → Surveys survey.now (facts_view facts.entry.now) entries → found.new.items ≡ found.old.items
        ++ warnings_at (facts_view facts.entry.now) entries place record_line.now) }
{
    let cuts = Cuts::of(facts, survey, record_line)?;
    for kind in WarningKind::ALL {
        let is_meant = applies(kind, facts, survey, place, record_line, cuts);
        let warning = Warning {
            at: record_line.at,
            kind,
            place,
        };
        push_if(found, is_meant, warning)?;
    }
    Ok(())
}

/// Appends a warning, if it applies.
fn push_if(found: &mut Vec<Warning>, is_meant: bool, warning: Warning) -> Result<(), AllocError>
    ensures { OnOk result (found.new.items ≡ found.old.items
        ++ (if is_meant then warning ∷ [] else [])) }
{
    if !is_meant {
        return Ok(());
    }
    found.push(warning)?;
    Ok(())
}
