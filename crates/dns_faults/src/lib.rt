//! Faults on demand for a test name server: what is sent, and what happens to the server.
//!
//! A table of rules decides what goes wrong with the reply to a request. The rule that decides is found ([`decision_for`]), the server
//! replies, unless the rule says otherwise, the reply is edited, and the rule is counted.
//!
//! - `decided`: the requests for which a rule decides; `coded`: replies with a response code alone; `truncated`: truncated replies;
//!   `edited`: edits of the bytes of a reply; `delivery`: how a reply is sent;
//! - `laws`: theorems about the definitions of this crate.
//!
//! Further modules, each with a page of its own:
//! - [`rules`]: faults on demand for a test name server: rules, and the rule that decides;
//! - [`table`]: the text of a table of faults: one rule a line.
#![tactic(auto)]

mod coded;
mod decided;
mod delivery;
mod edited;
pub mod laws;
pub mod rules;
pub mod table;
mod truncated;

pub use coded::coded_reply;
pub use decided::{Decided, decision_for};
pub use delivery::Delivery;
pub use edited::edited_reply;
pub use truncated::truncated_reply;
