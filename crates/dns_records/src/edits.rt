//! The records of a set while updates edit it (RFC 2136 section 3.4.2).
//!
//! - `edited_records`: records that are added, replaced and removed by their data, each in logarithmic time
//! - `data_places`: where data stands among them

mod data_places;
mod edited_records;

pub use edited_records::EditedRecords;
