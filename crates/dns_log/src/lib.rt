//! The log of a test name server: one JSON object a request, on one line (RFC 8259).
//!
//! - `entry`: an entry, and its line; `question`: the question of an entry
//! - `json`: texts, values by their texts, and optional numbers in JSON
#![tactic(auto)]

mod entry;
mod json;
mod question;

pub use entry::{LogEntry, LogTransport, ReplyCounts};
pub use json::{JsonBool, JsonDisplay, JsonNumber, JsonText};
pub use question::LogQuestion;
