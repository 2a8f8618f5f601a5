//! Frames of a stream of messages of DNS (RFC 1035 section 4.2.2, RFC 7766 section 8).
//!
//! Each message of a stream is preceded by its length in two bytes, most significant byte first. A stream of written frames
//! is read back as their messages, whatever the pieces in which its source gives it.
//!
//! - `write`: frames are appended to bytes; `read`: they are read from a source; `error`: why one cannot be read;
//! - `source`: sources of the bytes of a stream; `list_source`: sources of bytes in memory;
//! - `laws`: theorems about the definitions of this crate.

mod error;
pub mod laws;
mod list_source;
mod read;
mod source;
mod write;

pub use error::FrameError;
pub use list_source::ListSource;
pub use read::read_frame;
pub use source::Source;
pub use write::write_frame;
