//! The storage of a journal in files: the text of a zone in one, its journal in another.
//!
//! No contract can say what a file has. So what this storage does is read here and not proved: each method makes the calls of the
//! system that it names, and no others.
//!
//! - `files`: the storage; `lock`: the lock file of a journal; `end`: the record of how many of its bytes are on the disk;
//!   `cut`: bytes that are cut off are kept beside the journal;
//!   `replace`: a file is replaced as a whole; `prepared`: a text that is about to replace another one; `stamp`: whether a file is still
//!   the one that was read; `paths`: symbolic links and folders.

mod cut;
mod end;
mod files;
mod lock;
mod paths;
mod prepared;
mod replace;
mod stamp;

pub use cut::Cut;
pub use files::FileStorage;
