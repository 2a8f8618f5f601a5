//! What a resolver knows from earlier responses.
//!
//! - `ttl`: bounds of TTLs; `cache`: the cache of responses
//! - `laws`: theorems about the definitions of this crate
#![tactic(auto)]

mod cache;
pub mod laws;
mod ttl;

pub use cache::ResponseCache;
pub use ttl::{TtlBounds, TtlBoundsError, TtlConfig};
