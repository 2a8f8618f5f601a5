//! Resource records (RFC 1035 section 4.1.3), and sets of them (RFC 2181 section 5).
//!
//! - `record`, `record_head`, `record_parts`: records, on the wire and as values; `record_ref`: borrowed records;
//! - `record_set`, `record_set_parts`: sets of records and their lists, and how updates change them (RFC 2136 section 3.4.2);
//! - `rrset_records`: iterators over the records of a set;
//! - `data_index`: the positions of records by their data;
//! - `row`: the rows of a zone, which contracts of updates and zones refer to;
//! - `sequence`: lists, as contracts see them;
//! - `laws`: theorems about the definitions.
//!
//! Further modules, each with a page of its own:
//! - [`edits`]: the records of a set while updates edit it (RFC 2136 section 3.4.2).
#![tactic(auto)]

mod data_index;
pub mod edits;
mod emit;
pub mod laws;
mod record;
mod record_head;
mod record_parts;
mod record_ref;
mod record_set;
mod record_set_parts;
mod row;
mod rrset_records;
mod sequence;

pub use data_index::DataIndex;
pub use emit::emit_behind_owner;
pub use record::Record;
pub use record_head::RecordHead;
pub use record_parts::RecordParts;
pub use record_ref::RecordRef;
pub use record_set::{RecordList, RecordSet};
pub use record_set_parts::RecordSetParts;
pub use row::Row;
pub use rrset_records::RrsetRecords;
pub use sequence::Sequence;
