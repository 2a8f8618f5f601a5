//! The name servers that a resolver asks, and the order in which it asks them.
//!
//! - `server`: a server with its addresses, as a configuration has it
//! - `server_list`: the servers of a configuration, when each last failed, and their order at a moment
//! - `laws`: what holds of every order
//!
//! Further modules, each with a page of its own:
//! - [`resolv_conf`]: the configuration file of the system's resolver, resolv.conf(5).
#![tactic(auto)]

pub mod laws;
pub mod resolv_conf;
mod server;
mod server_list;

pub use server::Server;
pub use server_list::{RETRY_INTERVAL, ServerList};
