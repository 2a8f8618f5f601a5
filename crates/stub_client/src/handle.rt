//! Handles: what a client sends its requests to.

ghost use Rattle.std.specs.Prelude.{◌≡◌};

use crate::request::DnsRequest;
use dns_messages::{DnsResponse, Query};
use std::alloc::Global;
use stub_config::DnsRequestOptions;
use stub_lookup::{Moment, NetError};

/// Sends requests and returns their responses.
///
/// The contract of [`send`](DnsHandle::send) is the relation `gives` alone, by which an implementation says which
/// outcomes and next states each of its states and a request allow.
pub trait DnsHandle {
    ghost use Rattle.std.specs.Prelude.{◌≡◌, ◌⊎◌, ℕ, Result, Err};
    ghost use Rattle.dns_messages.specs.declared.response.DnsResponse.{DnsResponse};
    ghost use Rattle.stub_lookup.specs.declared.error.NetError.{NetError};
    ghost use Rattle.stub_lookup.specs.declared.error.NetError.TheVariants.{Memory};
    ghost use Rattle.stub_client.specs.Handle.{request_for};
    ghost use Rattle.stub_client.specs.declared.request.DnsRequest.{DnsRequest};

    /// From a state, a request at a moment may have this outcome and lead to that state.
    ghost gives: { Self → DnsRequest → ℕ → Result DnsResponse NetError → Self → Type 0 };

    /// Sends a request at a moment, in seconds, and returns its response.
    fn send(&mut self, request: DnsRequest, now: Moment) -> Result<DnsResponse, NetError>
        ensures { gives self.old request now result self.new };

    /// Sends the request that asks a question, and returns its response. If there is no memory for the request, nothing
    /// is sent.
    fn lookup(
        &mut self,
        alloc: Global,
        query: Query,
        options: DnsRequestOptions,
        now: Moment,
    ) -> Result<DnsResponse, NetError>
        ensures { gives self.old (request_for query options) now result self.new
            ⊎ ((result ≡ Err Memory) × (self.new ≡ self.old)) }
    {
        let request = DnsRequest::from_query(alloc, query, options)?;
        self.send(request, now)
    }
}
