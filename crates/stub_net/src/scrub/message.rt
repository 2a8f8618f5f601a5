//! What remains of a message.

ghost use Rattle.std.specs.Prelude.{◌≡◌, ◌++◌, IfOk, OnOk};
ghost use Rattle.std.specs.List.{filter};
ghost use Rattle.stub_net.specs.scrub.Scrub.{aliases_of, has_asked_type, is_asked, is_soa_above, scrubbed_message};

use crate::scrub::chain::{aliases_of, end_of, is_at};
use dns_messages::{Message, Query, Record, Sequence};
use dns_names::Name;
use dns_wire::RecordType;
use std::alloc::{AllocError, Global};

/// Keeps of a message the answers to which a question leads, and the SOA records at or above the end of its aliases.
pub(super) fn scrub_message(
    alloc: Global,
    query: &Query,
    message: &mut Message,
) -> Result<(), AllocError>
    ensures { OnOk result (message.new ≡ scrubbed_message query.now message.old) }
{
    let end = end_of(query, message.answers.as_slice()).clone()?;
    let authorities = soa_above(alloc, &end, message.authorities.as_slice())?;
    let answers = scrub_answers(alloc, query, &end, message.answers.as_slice())?;
    message.answers = answers;
    message.authorities = authorities;
    message.additionals.clear();
    Ok(())
}

/// Returns the aliases that lead from the name of a question, and the records at a name that it asks for.
fn scrub_answers(
    alloc: Global,
    query: &Query,
    end: &Name,
    answers: &[Record],
) -> Result<Sequence<Record>, AllocError>
    ensures { IfOk result (λ kept.
        kept ≡ aliases_of query.now answers.now ++ filter (is_asked query.now end.now) answers.now) }
{
    let mut kept = aliases_of(alloc, query, answers)?;
    push_asked(query, end, answers, &mut kept)?;
    Ok(Sequence::from_vec(kept))
}

/// Appends copies of the records at a name that a question asks for.
fn push_asked(
    query: &Query,
    name: &Name,
    answers: &[Record],
    kept: &mut Vec<Record>,
) -> Result<(), AllocError>
    ensures { OnOk result
        (kept.new.items ≡ kept.old.items ++ filter (is_asked query.now name.now) answers.now) }
{
    for answer in answers {
        if is_asked(query, name, answer) {
            kept.push(answer.clone()?)?;
        }
    }
    Ok(())
}

/// Returns `true` if a record is at a name, and has the class and the type of a question.
fn is_asked(query: &Query, name: &Name, answer: &Record) -> bool
    ensures { result ≡ is_asked query.now name.now answer.now }
{
    is_at(query, name, answer) && has_asked_type(query, answer)
}

/// Returns `true` if a record has the type of a question, or all types are asked for.
fn has_asked_type(query: &Query, answer: &Record) -> bool
    ensures { result ≡ has_asked_type query.now answer.now }
{
    query.query_type == RecordType::ANY || answer.record_type() == query.query_type
}

/// Returns copies of the SOA records at or above a name.
fn soa_above(
    alloc: Global,
    name: &Name,
    authorities: &[Record],
) -> Result<Sequence<Record>, AllocError>
    ensures { IfOk result (λ kept. kept ≡ filter (is_soa_above name.now) authorities.now) }
{
    let mut kept = Vec::new(alloc);
    for authority in authorities {
        if is_soa_above(name, authority) {
            kept.push(authority.clone()?)?;
        }
    }
    Ok(Sequence::from_vec(kept))
}

/// Returns `true` if a record is an SOA record at or above a name.
fn is_soa_above(name: &Name, authority: &Record) -> bool
    ensures { result ≡ is_soa_above name.now authority.now }
{
    authority.record_type() == RecordType::SOA && authority.name.zone_of(name)
}
