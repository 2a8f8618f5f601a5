//! A zone file and its journal: what they stand for after a crash, and how the journal is replaced.
//!
//! The payload of an entry is a zero and the bytes of updates, or the mark of a compaction: a one, the digest of a text, and the bytes
//! of the updates that this lacks, because they were made while it was written. In a compaction a mark with the digest of the new text
//! is appended, the new text takes the place of the old one, and a new journal begins with the updates that it lacks. A crash at any
//! moment leaves the old text with its updates, or the new text, whose digest the mark tells, with those that it lacks.
//!
//! - `beginning`: a new journal; `opening`: a journal that was read is opened; `updating`: updates are appended; `compacting`: the text is replaced;
//! - `error`: why a journal is not opened.

mod beginning;
mod compacting;
mod error;
mod opening;
mod updating;

pub use compacting::{MARK_TAG, MAX_CARRIED_LEN, NewText, UPDATE_TAG, compact};
pub use error::OpenError;
pub use opening::{Opened, open_journal};
pub use updating::append_update;
