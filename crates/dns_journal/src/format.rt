//! The format of a journal: payloads, each of which is sealed, in the order in which they were appended.
//!
//! A journal begins with a header of 64 bytes: `dnsjrnl2`, the SHA-256 digest of the text that it belongs to, a key of 16 bytes that is
//! drawn at random for this journal, and a seal of both. An entry is a frame of 28 bytes, the payload and a seal. The frame has
//! the seal of the entry before, the number of the entry from 1 on, the length of the payload, and a check of these. Checks and
//! seals are the SipHash-1-3 of the key and the bytes before. So an entry that is changed, moved, repeated, left out or of another
//! journal is noticed, and so is one at any place that is not its own; and whoever does not know the key can't make a payload that
//! looks like an entry. All numbers have their most significant byte first.
//!
//! What follows the last entry is the end of an interrupted write only if such a write can leave it; anything else is damage.
//!
//! - `link`: what ties an entry to the one before it; `sealing`: digests, checks and seals; `write`: headers and entries;
//! - `find`: entries and frames that are found in bytes; `torn`: what an interrupted write may leave; `read`: a whole journal;
//! - `error`: why bytes are not a journal; `laws`: theorems about the definitions of this crate.

mod error;
mod find;
pub mod laws;
mod link;
mod read;
mod sealing;
mod torn;
mod write;

pub use error::ReadError;
pub use find::{FoundEntry, first_entry, has_later_frame, is_frame};
pub use link::Link;
pub use read::{JournalContent, read_journal};
pub use sealing::digest_of;
pub use torn::is_torn;
pub use write::{HEAD_LEN, HEADER_LEN, MAX_PAYLOAD_LEN, write_entry, write_header};
