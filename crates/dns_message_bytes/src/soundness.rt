//! Whether messages can be encoded, and decoded as themselves (RFC 1035 section 4.1, RFC 6891 section 6.1).
//!
//! Each function returns `true` exactly if its definition holds, and allocates nothing. A message that is sound and fits a
//! limit without compression is not cut under that limit, and decodes to itself.
//!
//! - `message`: sound messages, with their headers, questions, OPT records and signatures
//! - `record`: sound records, alone and in a section of a message; `rdata`: sound record data
//! - `size`: whether a message fits a limit without compression
//! - `code`: types, classes and codes that are what their numbers decode to

mod code;
mod message;
mod rdata;
mod record;
mod size;

pub use message::is_sound;
pub use rdata::is_sound_data;
pub use record::is_sound_record;
pub use size::fits_uncompressed;
