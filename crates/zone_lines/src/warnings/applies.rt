//! To which records a kind of warning applies.

ghost use Rattle.std.specs.Prelude.{◌≡◌, List};
ghost use Rattle.zone_lines.specs.declared.record_line.EntryLine.{EntryLine};
ghost use Rattle.zone_lines.specs.warnings.Survey.{Surveys, facts_view};
ghost use Rattle.zone_lines.specs.warnings.Cuts.{AreCuts};
ghost use Rattle.zone_lines.specs.warnings.Warning.{applies, comes_after, is_cut, is_dropped, is_first, is_single, is_start, lacks_address, leaves_string};

use crate::warnings::cuts::{Cuts, is_glue, lacks_cut, lacks_glue, refers};
use crate::warnings::digest::wrong_digest;
use crate::warnings::kind::WarningKind;
use crate::warnings::names::{has_address_name, name_lies_below, server_of};
use crate::warnings::places::{Trait, has_trait, is_alias};
use crate::warnings::signature::{has_expired, is_signature, is_signer};
use crate::warnings::survey::{Survey, ZoneFacts};
use crate::warnings::text::{cuts_word, ends_quoted};
use crate::{Position, RecordLine, line_at};
use dns_data::RData;

/// The greatest TTL, in seconds (RFC 2181 section 8).
const MAX_TTL: u32 = 2_147_483_647;

/// Returns `true` if a kind of warning applies to the record at a place.
pub(crate) fn applies(
    kind: WarningKind,
    facts: &ZoneFacts<'_>,
    survey: &Survey,
    place: usize,
    record_line: &RecordLine,
    cuts: Cuts,
) -> bool
    ensures { (entries : List EntryLine) → Surveys survey.now (facts_view facts.entry.now) entries
        → AreCuts cuts (facts_view facts.entry.now) entries record_line.now
        → result ≡ applies kind (facts_view facts.entry.now) entries place record_line.now }
{
    match kind {
        WarningKind::RootZone => {
            is_start(record_line) && facts.origin.is_root() && !facts.is_given
        }
        WarningKind::NoOrigin => {
            is_start(record_line) && !facts.origin.is_root() && survey.lacks_origin
        }
        WarningKind::NoServer => {
            is_start(record_line)
                && facts.origin.eq_ignore_root(&record_line.owner)
                && survey.lacks_server
        }
        WarningKind::AliasBesideData => {
            is_alias(&record_line.rdata) && survey.others.get(&record_line.owner).is_some()
        }
        WarningKind::SecondRecord => is_single(&record_line.rdata) && record_line.earlier.exists,
        WarningKind::DuplicateRecord => is_dropped(record_line),
        WarningKind::OtherTtl => {
            record_line.earlier.has_other_ttl
                && !record_line.earlier.is_no_more
                && !is_signature(&record_line.rdata)
        }
        WarningKind::HighTtl => record_line.ttl > MAX_TTL,
        WarningKind::AddressName => has_address_name(facts.origin, &record_line.rdata),
        WarningKind::NoAddress => {
            lacks_address(facts, survey, &record_line.rdata)
                && !has_address_name(facts.origin, &record_line.rdata)
                && !name_lies_below(survey.doubled.as_ref(), record_line)
                && !cuts.is_above_server
        }
        WarningKind::Wildcard => {
            facts.is_plain && record_line.owner.is_wildcard() && is_first(record_line)
        }
        WarningKind::Delegation => {
            facts.is_plain && refers(facts, record_line) && is_first(record_line)
        }
        WarningKind::WildcardCut => {
            !facts.is_plain
                && refers(facts, record_line)
                && record_line.owner.is_wildcard()
                && is_first(record_line)
        }
        WarningKind::NoGlue => {
            lacks_glue(facts, survey, record_line)
                && !has_address_name(facts.origin, &record_line.rdata)
        }
        WarningKind::Occluded => cuts.is_above_owner && !is_glue(survey, record_line),
        WarningKind::SignerWithoutCut => {
            is_signer(&record_line.rdata) && lacks_cut(facts, survey, &record_line.owner)
        }
        WarningKind::WrongDigest => wrong_digest(&record_line.rdata).is_some(),
        WarningKind::ExpiredSignature => match facts.now {
            Some(now) => has_expired(now, &record_line.rdata),
            None => false,
        },
        WarningKind::SecondSpf => {
            has_trait(Trait::Spf, record_line)
                && !is_dropped(record_line)
                && comes_after(survey.spf.get(&record_line.owner), place)
        }
        WarningKind::SecondDmarc => {
            has_trait(Trait::Dmarc, record_line)
                && !is_dropped(record_line)
                && comes_after(survey.dmarc.get(&record_line.owner), place)
        }
        WarningKind::CutText => {
            matches!(&record_line.rdata, RData::TXT(_)) && is_cut(facts, record_line.at)
        }
        WarningKind::OpenString => leaves_string(facts, record_line.at),
        WarningKind::MissingDot => name_lies_below(survey.doubled.as_ref(), record_line),
    }
}

/// Returns `true` if a record is an SOA record and the first of its owner.
fn is_start(record_line: &RecordLine) -> bool
    ensures { result ≡ is_start record_line.now }
{
    matches!(&record_line.rdata, RData::SOA(_)) && is_first(record_line)
}

/// Returns `true` if a record is the first of its owner and type.
fn is_first(record_line: &RecordLine) -> bool
    ensures { result ≡ is_first record_line.now }
{
    !record_line.earlier.exists
}

/// Returns `true` if data is of a type of which an owner has one record.
fn is_single(rdata: &RData) -> bool
    ensures { result ≡ is_single rdata.now }
{
    matches!(rdata, RData::CNAME(_) | RData::SOA(_))
}

/// Returns `true` if a record is dropped, since one above has equal data.
fn is_dropped(record_line: &RecordLine) -> bool
    ensures { result ≡ is_dropped record_line.now }
{
    !is_single(&record_line.rdata) && record_line.earlier.exists && record_line.earlier.is_no_more
}

/// Returns `true` if data names a server in a zone that has no address for it.
fn lacks_address(facts: &ZoneFacts<'_>, survey: &Survey, rdata: &RData) -> bool
    ensures { (entries : List EntryLine) → Surveys survey.now (facts_view facts.entry.now) entries
        → result ≡ lacks_address (facts_view facts.entry.now) entries rdata.now }
{
    match server_of(rdata) {
        Some(server) => facts.origin.zone_of(server) && survey.addresses.get(server).is_none(),
        None => false,
    }
}

/// Returns `true` if a place comes after the first one.
fn comes_after(first: Option<usize>, place: usize) -> bool
    ensures { result ≡ comes_after first place }
{
    match first {
        Some(first) => first < place,
        None => false,
    }
}

/// Returns `true` if the comment of the line at a place directly follows a word.
fn is_cut(facts: &ZoneFacts<'_>, at: Position) -> bool
    ensures { result ≡ is_cut (facts_view facts.entry.now) at }
{
    match line_at(facts.texts, at) {
        Some(text) => cuts_word(text),
        None => false,
    }
}

/// Returns `true` if the line at a place ends inside a quoted string.
fn leaves_string(facts: &ZoneFacts<'_>, at: Position) -> bool
    ensures { result ≡ leaves_string (facts_view facts.entry.now) at }
{
    match line_at(facts.texts, at) {
        Some(text) => ends_quoted(text),
        None => false,
    }
}
