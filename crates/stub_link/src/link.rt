//! Links: what carries requests and their replies between the asker and the server.

ghost use Rattle.std.specs.Prelude.{◌≡◌, ◌≤◌, Err};
ghost use Rattle.stub_link.specs.Link.{Rises, datagram_of, stream_reply_of};

mod script;
mod scripted;
mod server;

pub use script::{LinkEvent, Script};
pub use scripted::ScriptedLink;
use std::alloc::AllocError;

/// Why a call of a link failed.
#[derive(Clone, Copy, Debug, PartialEq, Eq)]
pub enum LinkError {
    /// The link failed.
    Failed,
    /// Memory could not be allocated.
    Memory,
}

impl From<AllocError> for LinkError {
    ghost use Rattle.stub_link.specs.declared.link.LinkError.TheVariants.{Memory};

    ghost from_gives = { λ _ error. error ≡ Memory };

    fn from(_error: AllocError) -> LinkError {
        LinkError::Memory
    }
}

/// Carries datagrams, and asks over streams.
///
/// [`LinkError::Failed`] is the error of a call only if [`failures`](Link::failures) rises in it.
pub trait Link {
    ghost use Rattle.std.specs.Prelude.{Option, Result, List, ℕ};
    ghost use Rattle.stub_link.specs.declared.link.LinkError.{LinkError};

    /// From a state, sending bytes may have this result and lead to that state.
    ghost sends: { Self → List ℕ → Result (Unit {0}) LinkError → Self → Type 0 };

    /// From a state, a receive may have this result and lead to that state.
    ghost receives: { Self → Result (Option (List ℕ)) LinkError → Self → Type 0 };

    /// From a state, asking bytes over a stream may have this result and lead to that state.
    ghost streams: { Self → List ℕ → Result (List ℕ) LinkError → Self → Type 0 };

    /// The number of calls that failed.
    ghost failure_count: { Self → ℕ };

    /// Sends a datagram.
    fn send_datagram(&mut self, bytes: &[u8]) -> Result<(), LinkError>
        ensures sends { sends self.old bytes.now result self.new }
        ensures kept { failure_count self.old ≤ failure_count self.new }
        ensures fails { result ≡ Err LinkError.Failed
            → Rises (failure_count self.old) (failure_count self.new) };

    /// Receives the next datagram, if there is one.
    fn next_datagram(&mut self) -> Result<Option<Vec<u8>>, LinkError>
        ensures receives { receives self.old (datagram_of result) self.new }
        ensures kept { failure_count self.old ≤ failure_count self.new }
        ensures fails { result ≡ Err LinkError.Failed
            → Rises (failure_count self.old) (failure_count self.new) };

    /// Sends a message over a stream, and returns the message that is received over it (RFC 7766 section 5).
    fn ask_stream(&mut self, bytes: &[u8]) -> Result<Vec<u8>, LinkError>
        ensures streams { streams self.old bytes.now (stream_reply_of result) self.new }
        ensures kept { failure_count self.old ≤ failure_count self.new }
        ensures fails { result ≡ Err LinkError.Failed
            → Rises (failure_count self.old) (failure_count self.new) };

    /// Returns the number of calls that failed, which stays at `u64::MAX` once it is there.
    fn failures(&self) -> u64
        ensures { result ≡ failure_count self.now };
}
