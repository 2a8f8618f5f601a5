//! The lookups of a resolver as steps: for callers with sockets, a clock and an event loop of their own.
//!
//! A lookup says which message to send, to which server, over which transport, and until when to wait for the reply. The caller
//! tells it what came of that: a message, nothing, or a failure. Then it waits for another reply, or has ended.
//!
//! No decision is taken here. An exchange is the one of [`NameServerPool`](stub_net::NameServerPool), run from its beginning over
//! what has come so far, up to the first wait. A lookup is one of the crate `stub_known`, run from its beginning over the replies that
//! are known, up to the first question without one.
//!
//! - `event`: what comes of a wait; `replayed`: a network of what has come so far; `exchange`: the exchange for a question;
//! - `lookup`: a lookup that is open, or has ended; `resolver`: the resolver, with its cache
//!
//! Further modules, each with a page of its own:
//! - [`known`]: lookups over the replies that are known: the lookup of a client as steps, for callers that ask the servers
//!   themselves.
#![tactic(auto)]

mod event;
mod exchange;
pub mod known;
mod lookup;
mod replayed;
mod resolver;

pub use event::{Arrival, Event, Outgoing};
pub use exchange::{
    Awaited, Continuation, Exchange, ExchangeSettings, ExchangeStep, Start, run_exchange,
};
pub use lookup::{Course, LookupState, OpenLookup};
pub use replayed::ReplayedNetwork;
pub use resolver::StepResolver;
