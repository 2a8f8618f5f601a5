//! The text of records, as programs print them (RFC 1035 section 5.1).
//!
//! - `record_text`: owners, types, data and records, as `Display` writes them.

mod record_text;

pub use record_text::{OwnerText, RDataText, RecordText, TypeText};
