//! Questions that a client answers without its handle: those for special-use names, and those that its cache answers.

ghost use Rattle.std.specs.Prelude.{◌≡◌, ◌≤◌, ◌<◌, ◌+◌, ◌^◌, ◌∷◌, [], length, IfOk, Ok, option_map};
ghost use Rattle.dns_messages.specs.declared.response_code.ResponseCode.{ResponseCode};
ghost use Rattle.std.specs.Option.{unwrap_or};
ghost use Rattle.stub_lookup.specs.Lookup.{lookup_of, max_ttl};
ghost use Rattle.stub_cache.specs.Cache.{current};
ghost use Rattle.stub_cache.specs.Ttl.{least_ttl, lesser};
ghost use Rattle.stub_client.specs.Looks.{cached_reply};
ghost use Rattle.stub_client.specs.SpecialNames.{special_answer};
ghost use Rattle.stub_client.specs.Step.{with_question};
ghost use Rattle.stub_client.specs.declared.special_names.SpecialAnswer.TheVariants as special;
ghost use Rattle.stub_client.specs.internal.Looks.{local_reply, reply_of};

use crate::special_names::{SpecialAnswer, special_answer};
use dns_messages::{Message, Query, Record, ResponseCode};
use std::alloc::{AllocError, Global};
use stub_cache::ResponseCache;
use stub_lookup::{Lookup, MAX_TTL, Moment, NetError};

/// How a question is answered without the handle.
#[derive(Drop)]
pub enum LocalReply {
    /// With this reply.
    Complete(Result<Lookup, NetError>),
    /// With no records and a response code, by its name alone.
    Nothing(ResponseCode),
    /// It is not: the handle is asked.
    Asks,
}

/// Returns how a question is answered without the handle. For a name without records no memory is taken.
pub(super) fn local_reply(
    alloc: Global,
    cache: &ResponseCache,
    query: &Query,
    now: Moment,
) -> Result<LocalReply, AllocError>
    requires { now ≤ 2 ^ 62 }
    ensures reply { IfOk result (λ reply. reply_of query.now reply ≡ local_reply now query.now
        (special_answer query.now) (current cache.now.entries query.now now)) }
    ensures decided { (code : ResponseCode) → special_answer query.now ≡ special.Nothing code
        → result ≡ Ok (LocalReply.Nothing code) }
{
    match special_answer(alloc, query)? {
        SpecialAnswer::Ordinary => cached_reply(alloc, cache, query, now),
        SpecialAnswer::Loopback(entry) => {
            let lookup = loopback_lookup(alloc, query, entry, now)?;
            Ok(LocalReply::Complete(Ok(lookup)))
        }
        SpecialAnswer::Nothing(code) => Ok(LocalReply::Nothing(code)),
    }
}

/// Returns the lookup of a record of the local host.
fn loopback_lookup(
    alloc: Global,
    query: &Query,
    entry: Record,
    now: Moment,
) -> Result<Lookup, AllocError>
    requires { now ≤ 2 ^ 62 }
    ensures { IfOk result (λ lookup.
        lookup ≡ lookup_of query.now (entry ∷ []) (now + max_ttl)) }
{
    let mut answers = Vec::new(alloc);
    answers.push(entry)?;
    Lookup::new_with_max_ttl(alloc, query.clone()?, answers, now)
}

/// Returns what a cache has for a question, if it has something.
fn cached_reply(
    alloc: Global,
    cache: &ResponseCache,
    query: &Query,
    now: Moment,
) -> Result<LocalReply, AllocError>
    requires { now ≤ 2 ^ 62 }
    ensures { IfOk result (λ reply. reply_of query.now reply ≡ option_map
        (cached_reply now query.now) (current cache.now.entries query.now now)) }
{
    match cache.get(query, now)? {
        Some(Ok(message)) => {
            let cached = cached_lookup(alloc, query, message, now)?;
            Ok(LocalReply::Complete(Ok(cached)))
        }
        Some(Err(answer)) => Ok(LocalReply::Complete(Err(NetError::from(answer)))),
        None => Ok(LocalReply::Asks),
    }
}

/// Returns the lookup of a message from the cache, which is valid as long as each of its answers.
fn cached_lookup(
    alloc: Global,
    query: &Query,
    message: Message,
    now: Moment,
) -> Result<Lookup, AllocError>
    requires { now ≤ 2 ^ 62 }
    ensures { IfOk result (λ lookup. Ok lookup ≡ cached_reply now query.now (Ok message)) }
{
    let lifetime = least_ttl(message.answers.as_slice()).unwrap_or(MAX_TTL);
    let message = with_question(query, message)?;
    Ok(Lookup::new(message, now + u64::from(lifetime)))
}

/// Returns the least TTL of some records, if there are any.
fn least_ttl(records: &[Record]) -> Option<u32>
    ensures { result ≡ least_ttl records.now }
{
    let mut least = None;
    for entry in records {
        least = Some(lesser(entry.ttl, least));
    }
    least
}

/// Returns the lesser of a TTL and another one, if there is one.
fn lesser(ttl: u32, other: Option<u32>) -> u32
    ensures { result ≡ lesser ttl other }
{
    match other {
        Some(other) => ttl.min(other),
        None => ttl,
    }
}

/// Adds a question to a message that has none.
fn with_question(query: &Query, message: Message) -> Result<Message, AllocError>
    ensures message { IfOk result (λ complete. complete ≡ with_question query.now message) }
    ensures question { IfOk result (λ complete. 0 < length complete.queries) }
{
    let mut message = message;
    if message.queries.is_empty() {
        message.add_query(query.clone()?)?;
    }
    Ok(message)
}
