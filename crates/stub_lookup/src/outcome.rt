//! What a reply means: records, a negative answer, or an error.

ghost use Rattle.std.specs.Prelude.{◌≡◌, IfOk, IsOk, Ok, Err, None, true};
ghost use Rattle.dns_wire.specs.Error.{IsUnless};
ghost use Rattle.dns_messages.specs.Response.{soa_in};
ghost use Rattle.stub_lookup.specs.Outcome.{any_records, as_soa, error_in, first_question, is_negative, no_records_in, outcome, with_soa_data};
ghost use Rattle.stub_lookup.specs.declared.error.NetError.TheVariants.{Memory};

use crate::error::{DnsError, NetError, NoRecords};
use dns_data::SOA;
use dns_messages::{DnsResponse, Query, Record, ResponseCode, Sequence};
use std::alloc::{AllocError, Global};

impl DnsError {
    /// Returns the response, or the error that it means (RFC 2308 section 2).
    ///
    /// A response with the code `NoError` or `NXDomain` that is not truncated and contains no answer is a negative
    /// answer. One with another code that has a name is [`DnsError::ResponseCode`]. A response that is not an error is
    /// returned as it is, without taking memory. A negative answer takes memory only for a copy of its SOA record.
    pub fn from_response(alloc: Global, response: DnsResponse) -> Result<DnsResponse, NetError>
        ensures outcome { IsUnless Memory (outcome response) result }
        ensures memory { result ≡ Err Memory
            → is_negative (error_in response.message) ≡ true }
        ensures decided { soa_in response.message.authorities ≡ None
            → result ≡ outcome response }
    {
        match response.message().metadata.response_code {
            ResponseCode::NoError | ResponseCode::NXDomain => {
                if response.contains_answer() || response.message().metadata.truncation {
                    return Ok(response);
                }
                let answer = no_records(alloc, response)?;
                Err(NetError::from(answer))
            }
            ResponseCode::Unknown(_) => Ok(response),
            code => Err(NetError::Dns(DnsError::ResponseCode(code))),
        }
    }
}

/// Returns the negative answer of a response.
fn no_records(alloc: Global, response: DnsResponse) -> Result<NoRecords, AllocError>
    ensures answer { IfOk result (λ answer. answer ≡ no_records_in response.message) }
    ensures decided { soa_in response.message.authorities ≡ None → IsOk result }
{
    let soa = copy_soa(&response)?;
    let negative_ttl = response.negative_ttl();
    let parts = response.into_message().into_parts();
    Ok(NoRecords {
        query: first_question(alloc, parts.queries),
        soa,
        ns: None,
        negative_ttl,
        response_code: parts.metadata.response_code,
        authorities: any_records(parts.authorities),
    })
}

/// Copies the first SOA record of the authority section of a response (RFC 2308 section 3), if there is one.
pub fn copy_soa(response: &DnsResponse) -> Result<Option<Record<SOA>>, AllocError>
    ensures ok { IfOk result (λ soa. soa ≡ as_soa (soa_in response.now.message.authorities)) }
    ensures decided { soa_in response.now.message.authorities ≡ None → result ≡ Ok None }
{
    match response.soa() {
        Some(found) => copy_with_soa_data(found),
        None => Ok(None),
    }
}

/// Copies a record as one with data of the type SOA, if its data is of this type.
fn copy_with_soa_data(found: &Record) -> Result<Option<Record<SOA>>, AllocError>
    ensures { IfOk result (λ soa. soa ≡ with_soa_data found.now found.now.rdata) }
{
    match found.try_borrow::<SOA>() {
        Some(soa) => Ok(Some(soa.to_owned()?)),
        None => Ok(None),
    }
}

/// Returns the first question, or that for the addresses of the root.
fn first_question(alloc: Global, queries: Sequence<Query>) -> Query
    ensures { result ≡ first_question queries }
{
    match queries.into_vec().into_iter().next() {
        Some(query) => query,
        None => Query::new(alloc),
    }
}

/// Returns the records, if there are any.
fn any_records(records: Sequence<Record>) -> Option<Sequence<Record>>
    ensures { result ≡ any_records records }
{
    if records.is_empty() {
        None
    } else {
        Some(records)
    }
}
