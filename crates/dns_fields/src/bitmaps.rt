//! Sets of record types as bitmaps (RFC 4034 section 4.1.2), and bytes in base32hex (RFC 4648 section 7).
//!
//! - `bitmap`: the bitmap of types, and which bytes are one; `text`: the types of a bitmap by their names
//! - `type_word`: types by the names of zone files, and other numbers by their mnemonics
//! - `base32`: bytes in base32hex without padding, as NSEC3 has them (RFC 5155 section 3.3)
//! - `laws`: what is printed is read back

mod base32;
mod bitmap;
pub mod laws;
mod text;
mod type_word;

pub use base32::{Base32Text, decode_base32};
pub use bitmap::{is_bitmap, push_bitmap};
pub use text::BitmapText;
pub use type_word::{TypeWord, number_among, type_of_word};
