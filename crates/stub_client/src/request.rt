//! Requests (RFC 1035 section 4.1.1, RFC 6891 section 6.1.1).

ghost use Rattle.std.specs.Prelude.{◌≡◌, IfOk};

use dns_messages::{Edns, Message, Query};
use std::alloc::{AllocError, Global};
use stub_config::DnsRequestOptions;

/// A message to send, and the options of the request.
#[derive(Drop)]
pub struct DnsRequest {
    pub(crate) message: Message,
    pub(crate) options: DnsRequestOptions,
}

impl DnsRequest {
    ghost use Rattle.stub_client.specs.Request.{request_of};

    /// Creates a request of a message and options.
    pub fn new(message: Message, options: DnsRequestOptions) -> DnsRequest
        ensures { result ≡ record { message = message; options = options } }
    {
        DnsRequest { message, options }
    }

    /// Creates the request that asks a question: a query with the id 0, with RD and an OPT record as the options say.
    ///
    /// The OPT record has version 0, and announces a payload size of at least 512 bytes.
    pub fn from_query(
        alloc: Global,
        query: Query,
        options: DnsRequestOptions,
    ) -> Result<DnsRequest, AllocError>
        ensures { IfOk result (λ request.
            request ≡ record { message = request_of query options; options = options }) }
    {
        let mut message = Message::query(alloc, 0);
        message.metadata.recursion_desired = options.recursion_desired;
        message.add_query(query)?;
        if options.use_edns {
            message.set_edns(request_edns(alloc, options));
        }
        Ok(DnsRequest::new(message, options))
    }

    /// Returns the message.
    pub fn message(&self) -> &Message
        ensures { result.now ≡ self.now.message }
    {
        &self.message
    }

    /// Returns the options.
    pub fn options(&self) -> &DnsRequestOptions
        ensures { result.now ≡ self.now.options }
    {
        &self.options
    }

    /// Returns the message and the options.
    pub fn into_parts(self) -> (Message, DnsRequestOptions)
        ensures { result ≡ (self.message, self.options) }
    {
        (self.message, self.options)
    }
}

ghost use Rattle.stub_client.specs.Request.{request_edns};

/// Returns the OPT record of a request (RFC 6891 section 6.1).
fn request_edns(alloc: Global, options: DnsRequestOptions) -> Edns
    ensures { result ≡ request_edns options }
{
    let mut edns = Edns::new(alloc);
    edns.set_max_payload(options.edns_payload_len);
    edns.set_dnssec_ok(options.edns_set_dnssec_ok);
    edns
}
