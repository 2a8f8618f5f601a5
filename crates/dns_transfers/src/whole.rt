//! Transfers of whole zones (RFC 5936).
//!
//! - `request`: requests for transfers, and their refusals; `reply`: the messages that reply to them;
//! - `zone_records`: the records of a zone, with the SOA record before and after them;
//! - `laws`: theorems about the definitions of this crate.

pub mod laws;
mod reply;
mod request;
mod zone_records;

pub use reply::{reply_to_transfer, reply_with_zone, transfer};
pub use request::is_transfer;
pub use zone_records::ZoneRecords;
