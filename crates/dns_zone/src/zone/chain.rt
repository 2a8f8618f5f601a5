//! The answer along an alias chain (RFC 1034 sections 3.6.2 and 4.3.2).

ghost use Rattle.std.specs.Prelude.{◌≡◌, option_copied};
ghost use Rattle.dns_names.specs.Name.{DomainName};
ghost use Rattle.dns_zone.specs.Rows.{zone_of, rows_of};
ghost use Rattle.dns_zone.specs.Answer.{after_records, answer_at, bare, direct_answer, max_aliases, negative, next_owner, positive};
ghost use Rattle.dns_zone.specs.Section.{alias_records, borrowed_answer, IsLinkAt};

use crate::rows::{has_row_below, records_at};
use crate::sets::ZoneSets;
use crate::zone::answer::AnswerRef;
use crate::zone::section::{MAX_ALIASES, RowRef, Section, SectionTtl};
use dns_data::RData;
use dns_messages::{Query, ResponseCode};
use dns_names::Name;
use dns_records::Record;
use dns_text::usage;
use dns_wire::RecordType;

/// The aliases of a chain, and then no more.
type Aliases<'a> = [Option<RowRef<'a>>; MAX_ALIASES];

/// What a zone has at a name of an alias chain.
#[derive(Clone, Copy, Drop)]
enum Link<'a> {
    /// Records of the type that is asked for, or neither these nor an alias.
    End(&'a [Record]),
    /// An alias.
    Alias(&'a Record),
}

/// Returns what sets have at a name for a type.
fn link_at<'a>(sets: &'a ZoneSets, owner: &Name, record_type: RecordType) -> Link<'a>
    ensures { (origin : DomainName)
        → IsLinkAt (zone_of origin sets.now) owner.now record_type result }
{
    let records = records_at(sets, owner, record_type);
    if !records.is_empty() {
        return Link::End(records);
    }
    match records_at(sets, owner, RecordType::CNAME).first() {
        Some(alias) => Link::Alias(alias),
        None => Link::End(records),
    }
}

/// Returns where an alias leads if it is followed: to a name in the zone that is not a special-use name (RFC 6761).
fn next_owner<'a>(origin: &Name, alias: &'a Record) -> Option<&'a Name>
    ensures { option_copied result ≡ next_owner origin.now alias.now.rdata }
{
    let RData::CNAME(data) = &alias.rdata else {
        return None;
    };
    let target = &data.0;
    let is_followed = origin.zone_of(target)
        && !(usage::is_loopback(target) || usage::is_nonexistent(target));
    is_followed.then_some(target)
}

/// Returns the answer after aliases where a name has neither the type nor an alias.
fn negative_answer<'a>(
    origin: &'a Name,
    sets: &'a ZoneSets,
    aliases: Aliases<'a>,
    owner: &Name,
) -> AnswerRef<'a>
    ensures { borrowed_answer result ≡ after_records (alias_records aliases.entry)
        (negative (zone_of origin.now sets.now) owner.now.labels) }
{
    let code = if has_row_below(sets, owner) {
        ResponseCode::NoError
    } else {
        ResponseCode::NXDomain
    };
    let records = records_at(sets, origin, RecordType::SOA);
    AnswerRef {
        code,
        answers: Section::along(aliases, origin, &[]),
        authorities: Section::authority(origin, records),
    }
}

/// Returns the answer after aliases with these records of a name, or the negative answer if there are none.
fn direct_answer<'a>(
    origin: &'a Name,
    sets: &'a ZoneSets,
    aliases: Aliases<'a>,
    owner: &'a Name,
    records: &'a [Record],
) -> AnswerRef<'a>
    ensures { borrowed_answer result ≡ after_records (alias_records aliases.entry)
        (direct_answer (zone_of origin.now sets.now) owner.now (rows_of records.now)) }
{
    if records.is_empty() {
        return negative_answer(origin, sets, aliases, owner);
    }
    positive_answer(origin, aliases, owner, records)
}

/// Returns the answer with aliases and these records of a name.
fn positive_answer<'a>(
    origin: &'a Name,
    aliases: Aliases<'a>,
    owner: &'a Name,
    records: &'a [Record],
) -> AnswerRef<'a>
    ensures { borrowed_answer result ≡ after_records (alias_records aliases.entry)
        (positive owner.now (rows_of records.now)) }
{
    AnswerRef {
        code: ResponseCode::NoError,
        answers: Section::along(aliases, owner, records),
        authorities: Section::empty(origin),
    }
}

/// Returns the answer to a question, along an alias chain from its name.
pub(super) fn answer_along<'a>(
    origin: &'a Name,
    sets: &'a ZoneSets,
    query: &'a Query,
) -> AnswerRef<'a>
    ensures { borrowed_answer result ≡ answer_at max_aliases (zone_of origin.now sets.now)
        query.now.query_type query.now.name }
{
    let mut aliases = [None; MAX_ALIASES];
    let mut owner = &query.name;
    for i in 0..MAX_ALIASES {
        let alias = match link_at(sets, owner, query.query_type) {
            Link::End(records) => return direct_answer(origin, sets, aliases, owner, records),
            Link::Alias(alias) => alias,
        };
        aliases[i] = Some(RowRef::new(owner, SectionTtl::Unchanged, alias));
        match next_owner(origin, alias) {
            Some(target) => owner = target,
            None => return positive_answer(origin, aliases, owner, &[]),
        }
    }
    match link_at(sets, owner, query.query_type) {
        Link::End(records) => direct_answer(origin, sets, aliases, owner, records),
        // Too many aliases: the chain is cut off before this one.
        Link::Alias(_) => positive_answer(origin, aliases, owner, &[]),
    }
}
