//! Lookups over the replies that are known: the lookup of a client as steps, for callers that ask the servers themselves.
//!
//! [`look_up`] runs a lookup of [`CachingClient`](stub_client::CachingClient) from its beginning over a list of replies. It ends as the
//! lookup over a handle that answers with these replies, or says which question it asks next, to which none is known; then it has
//! stored nothing. When the reply to that question is known, too, it is run again.
//!
//! - `known`: replies that are known; `answered`: a handle over these; `progress`: a lookup over these

mod answered;
mod known;
mod progress;

pub use answered::AnsweredHandle;
pub use known::{KnownOutcome, KnownReply, known_outcome};
pub use progress::{Progress, look_up};
