//! What a client does with the outcome of a question (RFC 1034 section 5.3.3, RFC 2308 section 2).

ghost use Rattle.std.specs.Prelude.{◌≡◌, ◌≢◌, ◌&&◌, ℕ, nat_lt, false, IfOk, IsOk, IsErr, Ok, Err};
ghost use Rattle.dns_messages.specs.declared.query.Query.{Query};
ghost use Rattle.stub_lookup.specs.Outcome.{outcome};
ghost use Rattle.stub_client.specs.Looks.{MayRunOut};
ghost use Rattle.stub_client.specs.Step.{given_message, is_given, is_negative_end, kept_aliases, max_depth, meaning, next_question, nothing_found, step_along, step_of, step_on};
ghost use Rattle.stub_client.specs.declared.caching_client.step.LookupSettings.{LookupSettings};
ghost use Rattle.stub_client.specs.declared.caching_client.step.Step.TheVariants as steps;
ghost use Rattle.stub_lookup.specs.declared.error.DnsError.TheVariants as errors;
ghost use Rattle.stub_lookup.specs.declared.error.NetError.TheVariants.{Dns, Memory};

use super::answers::{given_message, is_any_found, is_given, kept_aliases};
use super::chain::{Chain, chain_of};
use dns_messages::{DnsResponse, Message, Query, Record, Sequence};
use std::alloc::{AllocError, Global};
use stub_lookup::{DnsError, NetError, NoRecords, copy_soa};

/// How many times a lookup goes on to the question for the end of aliases.
const MAX_DEPTH: u8 = 7;

/// The settings of a lookup.
#[derive(Clone, Copy)]
pub struct LookupSettings {
    /// Whether the answers have the aliases that lead to them.
    pub preserve_intermediates: bool,
    /// Whether records of DNSSEC are wanted (RFC 3225 section 3).
    pub dnssec_ok: bool,
}

/// What the outcome of a question leads to.
#[derive(Drop)]
pub enum Step {
    /// A message with records, which the cache stores.
    Gives(Message),
    /// A negative answer, which the cache stores.
    Misses(NoRecords),
    /// An error, which the cache does not store.
    Stops(NetError),
    /// An alias leads to another question; these aliases are kept.
    Follows(Query, Sequence<Record>),
}

/// Returns what the outcome of a question leads to, at a depth of aliases and with those that are kept.
pub(super) fn step_of(
    alloc: Global,
    settings: LookupSettings,
    query: &Query,
    kept: Sequence<Record>,
    depth: u8,
    outcome: Result<DnsResponse, NetError>,
) -> Result<Step, AllocError>
    ensures step { IfOk result (λ step. step ≡ step_of settings query.now kept depth outcome) }
    ensures memory { IsErr result → MayRunOut (meaning outcome) }
{
    match outcome {
        Ok(response) => step_on_response(alloc, settings, query, kept, depth, response),
        Err(error) => Ok(step_on_error(error)),
    }
}

/// Returns what a response leads to.
fn step_on_response(
    alloc: Global,
    settings: LookupSettings,
    query: &Query,
    kept: Sequence<Record>,
    depth: u8,
    response: DnsResponse,
) -> Result<Step, AllocError>
    ensures step { IfOk result (λ step.
        step ≡ step_on settings query.now kept depth (outcome response)) }
    ensures memory { IsErr result → MayRunOut (outcome response) }
{
    match DnsError::from_response(alloc, response) {
        Ok(response) => step_along(settings, query, kept, depth, response),
        Err(error) => step_on_meaning(error),
    }
}

/// Returns what the error that a response means leads to. Fails if there was no memory for it.
fn step_on_meaning(error: NetError) -> Result<Step, AllocError>
    ensures step { IfOk result (λ step.
        (settings : LookupSettings) (q : Query) (kept : _) (depth : ℕ)
        → step ≡ step_on settings q kept depth (Err error)) }
    ensures ok { IsOk result → error ≢ Memory }
    ensures err { IsErr result → error ≡ Memory }
{
    if matches!(&error, NetError::Memory) {
        // There was no memory for the response.
        return Err(AllocError);
    }
    Ok(step_on_error(error))
}

/// Returns what an error leads to: a negative answer is stored, any other error is not.
fn step_on_error(error: NetError) -> Step
    ensures { (settings : LookupSettings) (q : Query) (kept : _) (depth : ℕ)
        → result ≡ step_on settings q kept depth (Err error) }
{
    match error.into_no_records() {
        Ok(answer) => Step::Misses(answer),
        Err(error) => Step::Stops(error),
    }
}

/// Returns what a response that is no error leads to.
fn step_along(
    settings: LookupSettings,
    query: &Query,
    kept: Sequence<Record>,
    depth: u8,
    response: DnsResponse,
) -> Result<Step, AllocError>
    ensures { IfOk result (λ step.
        step ≡ step_on settings query.now kept depth (Ok response)) }
{
    let chain = chain_of(query, response.message())?;
    if is_given(query, &chain, kept.as_slice(), response.message()) {
        gives(settings, query, &chain, kept, response.into_message())
    } else {
        follows_or_stops(settings, query, chain, kept, depth, response)
    }
}

/// Returns what a response leads to whose records are not returned.
fn follows_or_stops(
    settings: LookupSettings,
    query: &Query,
    chain: Chain,
    kept: Sequence<Record>,
    depth: u8,
    response: DnsResponse,
) -> Result<Step, AllocError>
    requires { is_given query.now chain kept response.message ≡ false }
    ensures { IfOk result (λ step.
        step ≡ step_along settings query.now chain kept depth response.message) }
{
    if is_negative_end(query, &chain, &response) {
        misses(query, &response)
    } else if is_followed(&chain, depth) {
        follows(settings, query, chain, kept, response.message())
    } else {
        stops(query, &response)
    }
}

/// Returns `true` if aliases end in nothing: no record is found, and the response has the SOA record of a negative answer
/// (RFC 2308 section 2.1).
fn is_negative_end(query: &Query, chain: &Chain, response: &DnsResponse) -> bool
    ensures { result ≡ is_negative_end query.now chain.now response.now.message }
{
    chain.is_alias && !is_any_found(query, chain, response.message()) && response.soa().is_some()
}

/// Returns the step to the negative answer in which aliases end.
fn misses(query: &Query, response: &DnsResponse) -> Result<Step, AllocError>
    ensures { IfOk result (λ step.
        step ≡ steps.Misses (nothing_found query.now response.now.message)) }
{
    let answer = nothing_found(query, response)?;
    Ok(Step::Misses(answer))
}

/// Returns `true` if aliases at a depth are followed.
fn is_followed(chain: &Chain, depth: u8) -> bool
    ensures { result ≡ (chain.now.is_alias && nat_lt depth max_depth) }
{
    chain.is_alias && depth < MAX_DEPTH
}

/// Returns the step to the message in which records are found.
fn gives(
    settings: LookupSettings,
    query: &Query,
    chain: &Chain,
    kept: Sequence<Record>,
    message: Message,
) -> Result<Step, AllocError>
    ensures { IfOk result (λ step.
        step ≡ steps.Gives (given_message settings query.now chain.now kept message)) }
{
    let given = given_message(settings, query, chain, kept, message)?;
    Ok(Step::Gives(given))
}

/// Returns the step to the question that the aliases lead to.
fn follows(
    settings: LookupSettings,
    query: &Query,
    chain: Chain,
    kept: Sequence<Record>,
    message: &Message,
) -> Result<Step, AllocError>
    ensures { IfOk result (λ step. step ≡ steps.Follows (next_question query.now chain)
        (kept_aliases settings query.now chain kept message.now)) }
{
    let aliases = kept_aliases(settings, query, &chain, kept, message)?;
    Ok(Step::Follows(Query::query(chain.name, query.query_type), aliases))
}

/// Returns the error that there is no record for a question.
fn stops(query: &Query, response: &DnsResponse) -> Result<Step, AllocError>
    ensures { IfOk result (λ step. step ≡ steps.Stops
        (Dns (errors.NoRecordsFound (nothing_found query.now response.now.message)))) }
{
    let answer = nothing_found(query, response)?;
    Ok(Step::Stops(NetError::from(answer)))
}

// ---- no records

/// Returns the negative answer of a response without a record for the question (RFC 2308 section 5).
fn nothing_found(query: &Query, response: &DnsResponse) -> Result<NoRecords, AllocError>
    ensures { IfOk result (λ answer. answer ≡ nothing_found query.now response.now.message) }
{
    let soa = copy_soa(response)?;
    let mut answer = NoRecords::new(query.clone()?, response.message().metadata.response_code);
    answer.soa = soa;
    answer.negative_ttl = response.negative_ttl();
    Ok(answer)
}
