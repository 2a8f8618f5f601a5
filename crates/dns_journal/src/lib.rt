//! A journal of a zone: each accepted update is on the disk before it is answered (RFC 2136 section 3.5).
//!
//! A storage keeps the text of a zone and its journal. What its calls do, and what a crash leaves of it, are relations on disks
//! (`specs/Storage.antt`), so that what a journal promises holds for every storage that behaves as such a disk.
//!
//! - `storage`: storages; `memory`: a storage in memory, which can be made to fail and to crash;
//! - `journal`: payloads are appended; `open`: a journal is read, and its end repaired;
//! - `error`: why a storage or a journal failed.
//!
//! Further modules, each with a page of its own:
//! - [`format`]: the format of a journal: payloads, each of which is sealed, in the order in which they were appended;
//! - [`files`]: the storage of a journal in files: the text of a zone in one, its journal in another.
#![tactic(auto)]

mod error;
pub mod files;
pub mod format;
mod journal;
mod memory;
mod open;
mod storage;

pub use error::{AppendError, StorageError};
pub use journal::{Journal, Position, State};
pub use memory::MemoryStorage;
pub use open::resume;
pub use storage::{Storage, StoredFiles};
