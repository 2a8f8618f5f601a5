//! Replies with what their questions lead to, and nothing else (RFC 1034 section 3.6.2, RFC 2181 section 10.1).
//!
//! A name server can add any records to a reply. A client that takes all of them believes whoever answers for one name what it says
//! of others.
//!
//! - `scrub`: the handle; `scrub/chain`: the aliases in a reply, and their end; `scrub/message`: what remains of a message;
//!   `scrub/laws`: what holds of all that a handle gives

ghost use Rattle.std.specs.Prelude.{◌≡◌, IfOk};
ghost use Rattle.stub_net.specs.scrub.Scrub.{IsScrubbed, scrubbed_response};

mod chain;
pub mod laws;
mod message;

use dns_messages::{DnsResponse, Query};
use message::scrub_message;
use std::alloc::{AllocError, Global};
use stub_client::{DnsHandle, DnsRequest};
use stub_lookup::{Moment, NetError};

/// A handle that keeps of each reply of another handle what its question leads to.
///
/// Of the answers remain the aliases that lead from the name of the question, in their order and at most sixteen, and the records at
/// their end that have the type and the class of the question. Where a name has an alias and other records, the alias remains. Of the
/// authority section remain the SOA records at or above that end, which a negative answer needs (RFC 2308 section 3); of the additional
/// section, nothing. A question for aliases or for all types follows no alias.
#[derive(Drop)]
pub struct Scrubber<H> {
    alloc: Global,
    /// The handle that is asked.
    pub handle: H,
}

impl<H> Scrubber<H> {
    /// Creates a handle over another one.
    pub fn new(alloc: Global, handle: H) -> Scrubber<H>
        ensures { result.handle ≡ handle }
    {
        Scrubber { alloc, handle }
    }

    /// Returns the handle that was asked.
    pub fn into_handle(self) -> H
        ensures { result ≡ self.handle }
    {
        let Scrubber {
            alloc: _alloc,
            handle,
        } = self;
        handle
    }
}

impl<H: DnsHandle> DnsHandle for Scrubber<H> {
    ghost use Rattle.stub_net.specs.scrub.Scrub.{Gives};

    ghost gives = { λ old request now outcome new.
        Gives H.gives old.handle request now outcome new.handle };

    /// Asks the handle, and keeps of its reply what the question of the request leads to. The error is that of the handle, or
    /// [`NetError::Memory`].
    fn send(&mut self, request: DnsRequest, now: Moment) -> Result<DnsResponse, NetError> {
        let [query] = request.message().queries.as_slice() else {
            return self.handle.send(request, now);
        };
        let query = query.clone()?;
        let outcome = self.handle.send(request, now);
        scrub_outcome(self.alloc, &query, outcome)
    }
}

/// Keeps of a reply what its question leads to.
fn scrub_outcome(
    alloc: Global,
    query: &Query,
    outcome: Result<DnsResponse, NetError>,
) -> Result<DnsResponse, NetError>
    ensures { IsScrubbed query.now outcome result }
{
    match outcome {
        Ok(response) => Ok(scrub_response(alloc, query, response)?),
        Err(error) => Err(error),
    }
}

/// Keeps of a response what its question leads to. The bytes stay.
fn scrub_response(
    alloc: Global,
    query: &Query,
    response: DnsResponse,
) -> Result<DnsResponse, AllocError>
    ensures { IfOk result (λ r. r ≡ scrubbed_response query.now response) }
{
    let mut response = response;
    scrub_message(alloc, query, response.message_mut())?;
    Ok(response)
}
