//! Lookups for the library for C: a resolver, and its lookups by number.
//!
//! - `table`: the resolver and its lookups; `answer`: what a lookup found, and why it found nothing;
//! - `endpoint`: addresses and ports as bytes; `servers`: servers, and what a resolver is told of them;
//! - `refusal`: why a call does not do what it was asked for.

mod answer;
mod endpoint;
mod refusal;
mod servers;
mod table;

pub use endpoint::{ENDPOINT_LEN, endpoint_bytes, endpoint_in};
pub use refusal::LookupRefusal;
pub use table::LookupTable;
