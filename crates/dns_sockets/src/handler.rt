//! What decides on the replies to requests.

use crate::clock::Milliseconds;
use dns_faults::Delivery;
pub use dns_faults::rules::Transport;
use std::alloc::AllocError;
use std::net::SocketAddr;

/// A request that has arrived.
#[derive(Clone, Copy, Debug)]
pub struct Request<'a> {
    /// The message.
    pub bytes: &'a [u8],
    /// The address from which it was sent.
    pub peer: SocketAddr,
    /// How it arrived.
    pub transport: Transport,
    /// When it had arrived, since the service began: what the clock shows once it has, and those that are handled together with it.
    pub moment: Milliseconds,
}

/// A datagram that is sent without a request, such as a notification (RFC 1996).
pub struct Notice {
    /// The address to which it is sent.
    pub peer: SocketAddr,
    /// The message.
    pub bytes: Vec<u8>,
}

impl Drop for Notice {
    fn drop(self) {
        let Notice { peer: _peer, bytes } = self;
        drop(bytes);
    }
}

/// Decides what is sent in reply to requests and without any, and when.
pub trait Handler {
    ghost use Rattle.std.specs.Prelude.{◌≡◌, Bool, List, map, ℕ};
    ghost use Rattle.dns_sockets.specs.Handler.{Handled, HandlerEvent, Noticed, Took, Transferred, deliveries_if, messages_if, notice_if, request_content};

    /// Whether the requests that wait after one of these bytes may be handled together with it.
    ghost gathers_after: { Self → List ℕ → Bool };

    /// From a state, a call may be this event and lead to that state.
    ghost steps: { Self → HandlerEvent → Self → Type 0 };

    /// Returns `true` if the requests that wait after this one may be handled together with it.
    fn gathers(&self, bytes: &[u8]) -> bool
        ensures { result ≡ gathers_after self.now bytes.now };

    /// Handles requests that arrived together: at most 64, each of which but the last one gathers. Returns what is sent for each of
    /// them, in order. After an error, which is want of memory, datagrams have no reply, and a stream is closed.
    fn handle(&mut self, requests: &[Request<'_>]) -> Result<Vec<Delivery>, AllocError>
        ensures { steps self.old (Handled (map request_content requests.now)
            (deliveries_if result)) self.new };

    /// Returns the messages of the reply to a request over a stream that has several, such as a transfer of a zone (RFC 5936), or
    /// `None` for another request, which is then handled. While many such replies wait to be written, `is_busy` is true. After an
    /// error, which is want of memory, the stream is closed.
    fn transfer(
        &mut self,
        request: &Request<'_>,
        is_busy: bool,
    ) -> Result<Option<Vec<Vec<u8>>>, AllocError>
        ensures { steps self.old (Transferred (request_content request.now) is_busy
            (messages_if result)) self.new };

    /// Takes a datagram that is a response, to what was sent without a request. Returns `false` if it is none that was expected:
    /// then it is handled as a request.
    fn take_response(&mut self, response: &Request<'_>) -> bool
        ensures { steps self.old (Took (request_content response.now) result) self.new };

    /// Returns the earliest moment at which a datagram is due to be sent without a request, or `None` if none will be.
    fn next_moment(&self) -> Option<Milliseconds> {
        None
    }

    /// Returns the next datagram that is due at a moment to be sent without a request. It is sent once.
    fn next_notice(&mut self, now: Milliseconds) -> Option<Notice>
        ensures { steps self.old (Noticed now (notice_if result)) self.new };
}
