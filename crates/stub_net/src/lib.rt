//! A handle that asks the name servers of a configuration over a network.
//!
//! The handle asks the servers in their order, in as many rounds as are configured, and returns the first reply that is
//! accepted (RFC 1035 section 7.2). Datagrams that are not the reply are dropped while the wait for it goes on (RFC
//! 5452 section 9.1), and a truncated reply is asked for again over a stream (RFC 7766 section 5).
//!
//! - `network`: what carries requests to servers, and replies; `network/scripted`: a network in memory, which follows a
//!   script
//! - `ids`: where ids of questions come from
//! - `requester`: one request to one server; `requester/wait`: the wait for its reply; `requester/stream`: streams
//! - `pool`: the handle; `pool/verdict`: which replies are accepted
//! - `laws`: what holds of every exchange
//!
//! Further modules, each with a page of its own:
//! - [`scrub`]: replies with what their questions lead to, and nothing else;
//! - [`signed`]: signed requests over a network, and updates that are sent signed (RFC 8945).
#![tactic(auto)]

mod ids;
pub mod laws;
mod network;
mod pool;
mod requester;
pub mod scrub;
pub mod signed;

pub use ids::{IdSource, ListedIds};
pub use network::{Network, NetworkEvent, ScriptedNetwork, TimedEvent, Transmission};
pub use pool::NameServerPool;
pub use requester::NetCounts;
