//! What a name server for tests tells of each request, and what it keeps for it: the zones from before the last update that changed
//! records, whether an update is allowed, and the line of the log.
//!
//! - `answered`: what a request leads to; `former`: the zones from before the last update; `log_entry`: what the log says of a request.
#![tactic(auto)]

mod answered;
mod former;
mod log_entry;

pub use answered::{Answered, reply_transport, updates_of};
pub use former::{FormerZones, has_changed};
pub use log_entry::request_entry;
