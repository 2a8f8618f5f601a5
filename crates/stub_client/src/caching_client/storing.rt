//! What a client stores in its cache.

ghost use Rattle.std.specs.Prelude.{◌≡◌, ◌≤◌, ◌<◌, ◌^◌, length, IfOk, IsOkAnd, OnErr, OnOk, Ok, Err, Some, []};
ghost use Rattle.stub_lookup.specs.Lookup.{response_to};
ghost use Rattle.stub_cache.specs.Cache.{storing};
ghost use Rattle.stub_client.specs.Looks.{Stores, given_reply, kept_of, negative};
ghost use Rattle.stub_client.specs.internal.Looks.{reply_if_stored};

use dns_messages::{Message, OpCode, Query};
use std::alloc::{AllocError, Global};
use stub_cache::ResponseCache;
use stub_lookup::{Lookup, Moment, NetError, NoRecords, copy_records};

/// Stores a message as the response to a question, and returns its lookup.
pub(super) fn store_message(
    cache: &mut ResponseCache,
    query: Query,
    message: Message,
    now: Moment,
) -> Result<Lookup, NetError>
    requires moment { now ≤ 2 ^ 62 }
    requires question { 0 < length message.queries }
    ensures { Stores now cache.old query (Some (Ok message))
        (given_reply cache.old.config now query message) result cache.new }
{
    let lookup = given_lookup(cache, &query, &message, now);
    let stored = cache.insert_message(query, message, now);
    lookup_if_stored(stored, lookup)
}

/// Returns the lookup of a message that is stored: a copy with its TTLs within their bounds, which is valid as long as
/// the message is stored.
fn given_lookup(
    cache: &ResponseCache,
    query: &Query,
    message: &Message,
    now: Moment,
) -> Result<Lookup, AllocError>
    requires moment { now ≤ 2 ^ 62 }
    requires question { 0 < length message.now.queries }
    ensures { IfOk result (λ lookup.
        Ok lookup ≡ given_reply cache.now.config now query.now message.now) }
{
    let mut copy = message.clone()?;
    let lifetime = cache.clamp_positive_ttls(query.query_type, &mut copy);
    Ok(Lookup::new(copy, now + u64::from(lifetime)))
}

/// Returns a lookup whose message was stored, or the error that memory ran out.
fn lookup_if_stored(
    stored: Result<(), AllocError>,
    lookup: Result<Lookup, AllocError>,
) -> Result<Lookup, NetError>
    ensures { result ≡ reply_if_stored Ok stored lookup }
{
    stored?;
    Ok(lookup?)
}

/// Stores a negative answer to a question, and returns it.
pub(super) fn store_answer(
    cache: &mut ResponseCache,
    query: Query,
    answer: NoRecords,
    now: Moment,
) -> Result<Lookup, NetError>
    requires { now ≤ 2 ^ 62 }
    ensures { Stores now cache.old query (Some (Err answer)) (negative answer) result cache.new }
{
    let copy = answer.clone();
    let stored = cache.insert_answer(query, answer, now);
    answer_if_stored(stored, copy)
}

/// Returns a negative answer that was stored, or the error that memory ran out.
fn answer_if_stored(
    stored: Result<(), AllocError>,
    answer: Result<NoRecords, AllocError>,
) -> Result<Lookup, NetError>
    ensures { result ≡ reply_if_stored negative stored answer }
{
    stored?;
    Err(NetError::from(answer?))
}

/// Stores the reply to which the alias of a question led, if it can be stored, and returns it.
pub(super) fn store_reply(
    alloc: Global,
    cache: &mut ResponseCache,
    query: Query,
    reply: Result<Lookup, NetError>,
    now: Moment,
) -> Result<Lookup, NetError>
    requires { now ≤ 2 ^ 62 }
    ensures { Stores now cache.old query (kept_of query reply) reply result cache.new }
{
    match reply {
        Ok(lookup) => store_lookup(alloc, cache, query, lookup, now),
        Err(error) => store_failure(cache, query, error, now),
    }
}

/// Stores the records of a lookup to which the alias of a question led, and returns the lookup.
fn store_lookup(
    alloc: Global,
    cache: &mut ResponseCache,
    query: Query,
    lookup: Lookup,
    now: Moment,
) -> Result<Lookup, NetError>
    requires { now ≤ 2 ^ 62 }
    ensures { Stores now cache.old query (kept_of query (Ok lookup)) (Ok lookup) result cache.new }
{
    let response = response_to(alloc, &query, &lookup);
    let stored = insert_response(cache, query, response, now);
    lookup_if_stored(stored, Ok(lookup))
}

/// Stores a response to a question, if there was memory for it.
fn insert_response(
    cache: &mut ResponseCache,
    query: Query,
    response: Result<Message, AllocError>,
    now: Moment,
) -> Result<(), AllocError>
    requires { now ≤ 2 ^ 62 }
    ensures stored { OnOk result (IsOkAnd response (λ message.
        cache.new ≡ storing cache.old query (Ok message) now)) }
    ensures memory { OnErr result (cache.new ≡ cache.old) }
{
    cache.insert_message(query, response?, now)
}

/// Stores an error to which the alias of a question led, if it is a negative answer, and returns it.
fn store_failure(
    cache: &mut ResponseCache,
    query: Query,
    error: NetError,
    now: Moment,
) -> Result<Lookup, NetError>
    requires { now ≤ 2 ^ 62 }
    ensures { Stores now cache.old query (kept_of query (Err error)) (Err error) result cache.new }
{
    match error.into_no_records() {
        Ok(answer) => store_answer(cache, query, answer, now),
        Err(error) => Err(error),
    }
}

/// Returns a response to a question with the records of a lookup.
fn response_to(alloc: Global, query: &Query, lookup: &Lookup) -> Result<Message, AllocError>
    ensures { IfOk result (λ response. Some (Ok response) ≡ kept_of query.now (Ok lookup.now)) }
{
    let mut response = empty_response(alloc, query)?;
    copy_sections(lookup, &mut response)?;
    Ok(response)
}

/// Returns a response to a question without records.
fn empty_response(alloc: Global, query: &Query) -> Result<Message, AllocError>
    ensures { IfOk result (λ response. response ≡ response_to query.now []) }
{
    let question = query.clone()?;
    let mut response = Message::response(alloc, 0, OpCode::Query);
    response.add_query(question)?;
    Ok(response)
}

/// Copies the records of a lookup into a response.
fn copy_sections(lookup: &Lookup, response: &mut Message) -> Result<(), AllocError>
    ensures { OnOk result (response.new ≡ record response.old {
      answers = lookup.now.message.answers;
      authorities = lookup.now.message.authorities;
      additionals = lookup.now.message.additionals;
    }) }
{
    response.insert_answers(copy_records(&lookup.message().answers)?.into_vec());
    response.insert_authorities(copy_records(&lookup.message().authorities)?.into_vec());
    response.insert_additionals(copy_records(&lookup.message().additionals)?.into_vec());
    Ok(())
}
