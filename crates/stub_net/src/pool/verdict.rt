//! Which outcomes of a try end an exchange.

ghost use Rattle.std.specs.Prelude.{◌≡◌};
ghost use Rattle.stub_net.specs.Verdict.{accepts, declines_by_code, is_negative, verdict_on};

use crate::requester::question_in;
use dns_messages::{DnsResponse, Message, ResponseCode};
use stub_lookup::NetError;

/// What becomes of the outcome of a try.
pub(crate) enum Verdict {
    /// It is a reply that is accepted, and the outcome of the exchange.
    Accepted,
    /// The next server is tried.
    Declined,
    /// There is no memory to go on.
    OutOfMemory,
}

/// Decides on the outcome of a try.
pub(crate) fn verdict_on(
    message: &Message,
    trusted: bool,
    outcome: &Result<DnsResponse, NetError>,
) -> Verdict
    ensures { result ≡ verdict_on message.now trusted outcome.now }
{
    match outcome {
        Ok(response) => {
            if accepts(message, trusted, response.message()) {
                Verdict::Accepted
            } else {
                Verdict::Declined
            }
        }
        // The try was refused memory.
        Err(NetError::Memory) => Verdict::OutOfMemory,
        Err(_) => Verdict::Declined,
    }
}

/// Returns `true` if a reply to a request is accepted. Whether a server is trusted with negative responses decides only
/// on replies to questions.
fn accepts(request: &Message, trusted: bool, reply: &Message) -> bool
    ensures { result ≡ accepts request.now trusted reply.now }
{
    !declines_by_code(reply.metadata.response_code)
        && (trusted || question_in(request).is_none() || !is_negative(reply))
}

/// Returns `true` if a response code says that the server does not answer the request (RFC 1035 section 4.1.1).
fn declines_by_code(code: ResponseCode) -> bool
    ensures { result ≡ declines_by_code code }
{
    matches!(
        code,
        ResponseCode::ServFail | ResponseCode::NotImp | ResponseCode::Refused
    )
}

/// Returns `true` if a reply is negative: the name does not exist, or there are no answers (RFC 2308 section 2).
fn is_negative(reply: &Message) -> bool
    ensures { result ≡ is_negative reply.now }
{
    match reply.metadata.response_code {
        ResponseCode::NXDomain => true,
        ResponseCode::NoError => reply.answers.is_empty(),
        _ => false,
    }
}
