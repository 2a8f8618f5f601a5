//! Signed requests over a network, and updates that are sent signed (RFC 8945).
//!
//! A [`SignedNetwork`] is a network like the one below it, for a `crate::NameServerPool` and whatever else asks over one. It signs
//! each request with a key, at the time of the clock below, and hands on a reply only if a holder of the key signed it for that
//! request, without its signature. Whatever else arrives may be forged: it is not handed on, and the wait goes on (RFC 8945 section
//! 5.4).
//!
//! - `network`: the network; `checked`: the replies; `update`: updates; `error`: why an update has no signed reply;
//! - `laws`: what holds of every exchange.

mod checked;
mod error;
pub mod laws;
mod network;
mod update;

pub use error::UpdateError;
pub use network::SignedNetwork;
pub use update::send_signed_update;
