//! The aliases in a reply, and their end (RFC 1034 section 3.6.2).

ghost use Rattle.std.specs.Prelude.{◌≡◌, IfOk, option_map};
ghost use Rattle.std.specs.Option.{option_copied};
ghost use Rattle.stub_net.specs.scrub.Scrub.{alias_in, alias_to, aliases_of, end_of, is_at, max_aliases};

use dns_data::RData;
use dns_messages::{Query, Record};
use dns_names::Name;
use dns_wire::RecordType;
use std::alloc::{AllocError, Global};

/// The greatest number of aliases that are followed in one reply. A client follows fewer.
const MAX_ALIASES: usize = 16;

/// Returns how many aliases a question follows at most: none if it asks for aliases or for all types.
pub(super) fn max_aliases(query: &Query) -> usize
    ensures { result ≡ max_aliases query.now }
{
    let asked = query.query_type;
    if asked == RecordType::CNAME || asked == RecordType::ANY {
        0
    } else {
        MAX_ALIASES
    }
}

/// Returns the name at the end of the aliases that lead from the name of a question.
pub(super) fn end_of<'a>(query: &'a Query, answers: &'a [Record]) -> &'a Name
    ensures { result.now ≡ end_of query.now answers.now }
{
    let mut name = &query.name;
    for _followed in 0..max_aliases(query) {
        match alias_in(query, name, answers) {
            Some((_alias, target)) => name = target,
            None => return name,
        }
    }
    name
}

/// Returns copies of the aliases that lead from the name of a question, in their order.
pub(super) fn aliases_of(
    alloc: Global,
    query: &Query,
    answers: &[Record],
) -> Result<Vec<Record>, AllocError>
    ensures { IfOk result (λ aliases. aliases.items ≡ aliases_of query.now answers.now) }
{
    let mut aliases = Vec::new(alloc);
    let mut name = &query.name;
    for _followed in 0..max_aliases(query) {
        match alias_in(query, name, answers) {
            Some((alias, target)) => {
                aliases.push(alias.clone()?)?;
                name = target;
            }
            None => return Ok(aliases),
        }
    }
    Ok(aliases)
}

/// Returns the first alias at a name, and its target.
fn alias_in<'a>(query: &Query, name: &Name, answers: &'a [Record]) -> Option<(&'a Record, &'a Name)>
    ensures { option_map (λ found. (found.0.now, found.1.now)) result
        ≡ alias_in query.now name.now answers.now }
{
    for answer in answers {
        if let Some(target) = alias_to(query, name, answer) {
            return Some((answer, target));
        }
    }
    None
}

/// Returns the target of a record that is an alias at a name.
fn alias_to<'a>(query: &Query, name: &Name, answer: &'a Record) -> Option<&'a Name>
    ensures { option_copied result ≡ alias_to query.now name.now answer.now }
{
    if !is_at(query, name, answer) {
        return None;
    }
    match &answer.rdata {
        RData::CNAME(alias) => Some(&alias.0),
        _ => None,
    }
}

/// Returns `true` if a record is at a name and has the class of a question.
pub(super) fn is_at(query: &Query, name: &Name, answer: &Record) -> bool
    ensures { result ≡ is_at query.now name.now answer.now }
{
    answer.dns_class == query.query_class && answer.name == *name
}
