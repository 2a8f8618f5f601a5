//! Incremental transfers of zones: differences as a sequence of messages (RFC 1995).
//!
//! - `difference_records`: the records of differences, in the order of a transfer; `messages`: messages with these;
//! - `laws`: theorems about the definitions of this crate.

mod difference_records;
pub mod laws;
mod messages;

pub use difference_records::DifferenceRecords;
pub use messages::incremental_transfer;
