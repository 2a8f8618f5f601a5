//! A client that caches responses and follows aliases, over any handle.
//!
//! - `caching_client`: a lookup of one question; `special_names`: the answers of special-use names
//! - `laws`: what every lookup of a client keeps
//! - `handle`: what sends requests; `list_handle`: a handle of outcomes in memory; `request`: requests
#![tactic(auto)]

mod caching_client;
mod handle;
pub mod laws;
mod list_handle;
mod request;
mod special_names;

pub use caching_client::CachingClient;
pub use handle::DnsHandle;
pub use list_handle::ListHandle;
pub use request::DnsRequest;
pub use special_names::{SpecialAnswer, special_answer};
