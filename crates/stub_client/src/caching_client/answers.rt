//! What is found in a reply, and the message that is returned (RFC 1034 section 5.3.3).

ghost use Rattle.std.specs.Prelude.{◌≡◌, ◌&&◌, ◌||◌, not, IfOk, OnOk};
ghost use Rattle.dns_names.specs.Compare.{same_name};
ghost use Rattle.dns_wire.specs.declared.codes.record_type.RecordType.TheVariants as types;
ghost use Rattle.dns_messages.specs.Response.{has_type, is_empty};
ghost use Rattle.stub_client.specs.Step.{asks_for, found, given_answers, given_message, has_class, is_at_either, is_end_found, is_found, is_given, is_kept_alias, is_selected, kept_aliases, lowered, selected_answers, with_question};

use super::chain::Chain;
use super::step::LookupSettings;
use dns_messages::{Message, Query, Record, Sequence};
use dns_wire::RecordType;
use std::alloc::AllocError;

// ---- found records

/// Returns `true` if what is found in a message is returned: something is found, and the aliases do not lead on from
/// kept ones.
pub(super) fn is_given(query: &Query, chain: &Chain, kept: &[Record], message: &Message) -> bool
    ensures { result ≡ is_given query.now chain.now kept.now message.now }
{
    is_any_found(query, chain, message) && (!chain.is_alias || kept.is_empty())
}

/// Returns `true` if a record of any section is found.
pub(super) fn is_any_found(query: &Query, chain: &Chain, message: &Message) -> bool
    ensures { result ≡ not (is_empty (found query.now chain.now message.now)) }
{
    for entry in message.all_sections() {
        if is_found(query, chain, entry) {
            return true;
        }
    }
    false
}

/// Returns `true` if a record at the end of the aliases is found.
fn is_end_found(query: &Query, chain: &Chain, message: &Message) -> bool
    ensures { result ≡ is_end_found query.now chain.now message.now }
{
    for entry in message.all_sections() {
        if is_found_at_end(query, chain, entry) {
            return true;
        }
    }
    false
}

/// Returns `true` if a record is found, and is at the end of the aliases.
fn is_found_at_end(query: &Query, chain: &Chain, entry: &Record) -> bool
    ensures { result ≡ (is_found query.now chain.now.name entry.now
        && same_name entry.now.name chain.now.name) }
{
    is_found(query, chain, entry) && entry.name == chain.name
}

/// Returns `true` if a record has the class and the type of a question, and is at its name or at the end of the
/// aliases.
fn is_found(query: &Query, chain: &Chain, entry: &Record) -> bool
    ensures { result ≡ is_found query.now chain.now.name entry.now }
{
    has_class(query, entry) && asks_for(query, entry) && is_at_either(query, chain, entry)
}

/// Returns `true` if a record has the class of a question.
fn has_class(query: &Query, entry: &Record) -> bool
    ensures { result ≡ has_class query.now entry.now }
{
    entry.dns_class == query.query_class
}

/// Returns `true` if a record has the type of a question, or any type is asked for (RFC 1035 section 3.2.3).
fn asks_for(query: &Query, entry: &Record) -> bool
    ensures { result ≡ asks_for query.now entry.now }
{
    let asked = query.query_type;
    asked == RecordType::ANY || entry.record_type() == asked
}

/// Returns `true` if a record is at the end of the aliases of a question, or at its name.
fn is_at_either(query: &Query, chain: &Chain, entry: &Record) -> bool
    ensures { result ≡ is_at_either chain.now.name query.now entry.now }
{
    entry.name == chain.name || entry.name == query.name
}

// ---- the message

/// Returns the message in which records are found, with a question, with the answers that are wanted, and without
/// records of DNSSEC if these are not wanted.
pub(super) fn given_message(
    settings: LookupSettings,
    query: &Query,
    chain: &Chain,
    kept: Sequence<Record>,
    message: Message,
) -> Result<Message, AllocError>
    ensures { IfOk result (λ given.
        given ≡ given_message settings query.now chain.now kept message) }
{
    let mut message = message;
    complete_message(settings, query, chain, kept, &mut message)?;
    message.maybe_strip_dnssec_records(settings.dnssec_ok);
    Ok(message)
}

/// Adds the question to a message that has none, and replaces the answers if they are selected.
fn complete_message(
    settings: LookupSettings,
    query: &Query,
    chain: &Chain,
    kept: Sequence<Record>,
    message: &mut Message,
) -> Result<(), AllocError>
    ensures { OnOk result (message.new ≡ record (with_question query.now message.old) {
      answers = given_answers settings query.now chain.now kept message.old;
    }) }
{
    if is_selected(settings, query, chain, kept.as_slice(), message) {
        message.answers = selected_answers(settings, query, chain, kept, message)?;
    }
    if message.queries.is_empty() {
        message.add_query(query.clone()?)?;
    }
    Ok(())
}

/// Returns `true` if the answers are selected: after kept aliases, and where aliases are left out.
fn is_selected(
    settings: LookupSettings,
    query: &Query,
    chain: &Chain,
    kept: &[Record],
    message: &Message,
) -> bool
    ensures { result ≡ is_selected settings query.now chain.now kept.now message.now }
{
    !kept.is_empty()
        || (chain.is_alias
            && is_end_found(query, chain, message)
            && !settings.preserve_intermediates)
}

/// Returns the kept aliases, followed by the records of a message that are found and the aliases to keep, with TTLs of
/// at most those of the aliases that lead to them.
fn selected_answers(
    settings: LookupSettings,
    query: &Query,
    chain: &Chain,
    kept: Sequence<Record>,
    message: &Message,
) -> Result<Sequence<Record>, AllocError>
    ensures { IfOk result (λ answers.
        answers ≡ selected_answers settings query.now chain.now kept message.now) }
{
    let mut answers = kept;
    for entry in message.all_sections() {
        if is_wanted(settings, query, chain, entry) {
            answers.push(lowered(chain.ttl, entry)?)?;
        }
    }
    Ok(answers)
}

/// Returns `true` if a record is found, or is an alias to keep.
fn is_wanted(settings: LookupSettings, query: &Query, chain: &Chain, entry: &Record) -> bool
    ensures { result ≡ (is_found query.now chain.now.name entry.now
        || is_kept_alias settings query.now entry.now) }
{
    is_found(query, chain, entry) || is_kept_alias(settings, query, entry)
}

/// Returns the kept aliases, followed by the aliases of a message to keep, with TTLs of at most those of the aliases
/// that lead to them.
pub(super) fn kept_aliases(
    settings: LookupSettings,
    query: &Query,
    chain: &Chain,
    kept: Sequence<Record>,
    message: &Message,
) -> Result<Sequence<Record>, AllocError>
    ensures { IfOk result (λ aliases.
        aliases ≡ kept_aliases settings query.now chain.now kept message.now) }
{
    let mut aliases = kept;
    for entry in message.all_sections() {
        if is_kept_alias(settings, query, entry) {
            aliases.push(lowered(chain.ttl, entry)?)?;
        }
    }
    Ok(aliases)
}

/// Returns `true` if a record is an alias to keep.
fn is_kept_alias(settings: LookupSettings, query: &Query, entry: &Record) -> bool
    ensures { result ≡ is_kept_alias settings query.now entry.now }
{
    settings.preserve_intermediates && has_class(query, entry) && is_alias(entry)
}

/// Returns `true` if a record is an alias (RFC 1034 section 3.6.2).
fn is_alias(entry: &Record) -> bool
    ensures { result ≡ has_type types.CNAME entry.now }
{
    entry.record_type() == RecordType::CNAME
}

/// Copies a record, with a TTL of at most `most` seconds.
fn lowered(most: u32, entry: &Record) -> Result<Record, AllocError>
    ensures { IfOk result (λ copy. copy ≡ lowered most entry.now) }
{
    let mut copy = entry.clone()?;
    copy.ttl = copy.ttl.min(most);
    Ok(copy)
}
