//! The delegations of a zone, and what is below them (RFC 1034 section 4.2.1).

ghost use Rattle.std.specs.Prelude.{◌≡◌, IfOk, List, option_copied};
ghost use Rattle.zone_lines.specs.declared.record_line.EntryLine.{EntryLine};
ghost use Rattle.zone_lines.specs.warnings.Cuts.{AreCuts, is_below_cut, is_delegated, is_glue, is_server_delegated, lacks_cut, lacks_glue, refers};
ghost use Rattle.zone_lines.specs.warnings.Survey.{Facts, Surveys, facts_view};

use crate::RecordLine;
use crate::warnings::names::server_of;
use crate::warnings::places::{Trait, has_trait};
use crate::warnings::survey::{Survey, ZoneFacts};
use dns_names::Name;
use std::alloc::AllocError;

/// Which names of a record have a delegation above them. A zone that is served plainly has none.
#[derive(Clone, Copy)]
pub(crate) struct Cuts {
    /// Whether the owner is below a delegation.
    pub(crate) is_above_owner: bool,
    /// Whether the server that the data names is at or below one.
    pub(crate) is_above_server: bool,
}

impl Cuts {
    /// Looks for delegations above the names of a record.
    pub(crate) fn of(
        facts: &ZoneFacts<'_>,
        survey: &Survey,
        record_line: &RecordLine,
    ) -> Result<Cuts, AllocError>
        ensures { IfOk result (λ cuts. (entries : List EntryLine)
            → Surveys survey.now (facts_view facts.entry.now) entries
            → AreCuts cuts (facts_view facts.entry.now) entries record_line.now) }
    {
        Ok(Cuts {
            is_above_owner: is_below_cut(facts, survey, &record_line.owner)?,
            is_above_server: is_server_delegated(facts, survey, server_of(&record_line.rdata))?,
        })
    }
}

/// Returns `true` if a server, if there is one, is at or below a delegation.
fn is_server_delegated(
    facts: &ZoneFacts<'_>,
    survey: &Survey,
    server: Option<&Name>,
) -> Result<bool, AllocError>
    ensures { IfOk result (λ is_in_other_zone. (entries : List EntryLine)
        → Surveys survey.now (facts_view facts.entry.now) entries → is_in_other_zone
        ≡ is_server_delegated (facts_view facts.entry.now) entries (option_copied server.entry)) }
{
    let Some(server) = server else {
        return Ok(false);
    };
    if facts.is_plain {
        return Ok(false);
    }
    if is_delegated(facts, survey, server) {
        return Ok(true);
    }
    is_below_cut(facts, survey, server)
}

/// Returns `true` if a name is below a delegation.
fn is_below_cut(facts: &ZoneFacts<'_>, survey: &Survey, name: &Name) -> Result<bool, AllocError>
    ensures { IfOk result (λ is_below. (entries : List EntryLine)
        → Surveys survey.now (facts_view facts.entry.now) entries
        → is_below ≡ is_below_cut (facts_view facts.entry.now) entries name.now) }
{
    if facts.is_plain {
        return Ok(false);
    }
    let mut above = name.base_name()?;
    while facts.origin.iter().len() < above.iter().len() {
        if is_delegated(facts, survey, &above) {
            return Ok(true);
        }
        above = above.base_name()?;
    }
    Ok(false)
}

/// Returns `true` if a name is delegated: it is below the origin, is no wildcard and has an NS record.
fn is_delegated(facts: &ZoneFacts<'_>, survey: &Survey, name: &Name) -> bool
    ensures { (entries : List EntryLine) → Surveys survey.now (facts_view facts.entry.now) entries
        → result ≡ is_delegated (facts_view facts.entry.now) entries name.now }
{
    facts.origin.iter().len() < name.iter().len()
        && !name.is_wildcard()
        && survey.cuts.get(name).is_some()
}

/// Returns `true` if an owner is no delegation.
pub(crate) fn lacks_cut(facts: &ZoneFacts<'_>, survey: &Survey, owner: &Name) -> bool
    ensures { (entries : List EntryLine) → Surveys survey.now (facts_view facts.entry.now) entries
        → result ≡ lacks_cut (facts_view facts.entry.now) entries owner.now }
{
    facts.origin.eq_ignore_root(owner) || survey.cuts.get(owner).is_none()
}

/// Returns `true` if a record is an NS record of another owner than the origin.
pub(crate) fn refers(facts: &ZoneFacts<'_>, record_line: &RecordLine) -> bool
    ensures { result ≡ refers (facts_view facts.entry.now) record_line.now }
{
    has_trait(Trait::NameServer, record_line) && !facts.origin.eq_ignore_root(&record_line.owner)
}

/// Returns `true` if a record is one of a delegation to a server at or below it, for which a zone has no address.
pub(crate) fn lacks_glue(facts: &ZoneFacts<'_>, survey: &Survey, record_line: &RecordLine) -> bool
    ensures { (entries : List EntryLine) → Surveys survey.now (facts_view facts.entry.now) entries
        → result ≡ lacks_glue (facts_view facts.entry.now) entries record_line.now }
{
    if facts.is_plain || record_line.owner.is_wildcard() || !refers(facts, record_line) {
        return false;
    }
    match server_of(&record_line.rdata) {
        Some(server) => {
            record_line.owner.zone_of(server) && survey.addresses.get(server).is_none()
        }
        None => false,
    }
}

/// Returns `true` if a record is the address of a name server.
pub(crate) fn is_glue(survey: &Survey, record_line: &RecordLine) -> bool
    ensures { (f : Facts) (entries : List EntryLine) → Surveys survey.now f entries
        → result ≡ is_glue entries record_line.now }
{
    has_trait(Trait::Address, record_line) && survey.servers.get(&record_line.owner).is_some()
}
