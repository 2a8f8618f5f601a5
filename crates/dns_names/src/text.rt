//! Names and labels in text (RFC 1035 section 5.1): `parse` reads names symbol by symbol, as `symbol` splits the text, and
//! `print` writes names and labels.

mod parse;
mod print;
mod symbol;

pub(crate) use parse::is_plain_octet;
pub use symbol::escaped_octet;
