//! The core of a resolver, over any handle.
//!
//! - `resolver`: lookups of names and hosts, by a configuration, options and hosts
//! - `attempted_names`: the names that a lookup attempts, in order; `attempts`, `strategies`: lookups of these
//! - `laws`: what every lookup of a resolver keeps
#![tactic(auto)]

mod attempted_names;
mod attempts;
pub mod laws;
mod resolver;
mod strategies;

pub use attempted_names::names_to_attempt;
pub use attempts::{lookup_names, lookup_names_with_hosts};
pub use resolver::{Resolver, ResolverBuilder};
pub use strategies::lookup_ip_names;
pub use stub_client::{CachingClient, DnsHandle, DnsRequest, ListHandle};
