//! Transfers of zones (RFC 5936): records as a sequence of messages.
//!
//! A transfer takes its records from a source and makes one message after another, each with as many records as have room. The
//! records of the messages, one after another, are those of the source.
//!
//! - `lent_record`: borrowed records; `records`: sources of records, and those that have room in a message;
//! - `transfer`: the messages, one after another; `message`: one of them; `batch`: its records;
//! - `error`: why there is no further message;
//! - `laws`: theorems about the definitions of this crate.
//!
//! Further modules, each with a page of its own:
//! - [`whole`]: transfers of whole zones (RFC 5936);
//! - [`incremental`]: incremental transfers of zones: differences as a sequence of messages (RFC 1995);
//! - [`replies`]: the last differences of zones, and replies to requests for transfers of zones: whole ones (RFC 5936),
//!   incremental ones (RFC 1995), and signed ones (RFC 8945).
#![tactic(auto)]

mod batch;
mod error;
pub mod incremental;
pub mod laws;
mod lent_record;
mod message;
mod records;
pub mod replies;
mod transfer;
pub mod whole;

pub use error::TransferError;
pub use lent_record::LentRecord;
pub use records::RecordSource;
pub use transfer::Transfer;
