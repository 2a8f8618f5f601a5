//! The text of key files, in the syntax that BIND, `nsupdate` and `tsig-keygen` share:
//!
//! ```text
//! key "name" { algorithm hmac-sha256; secret "base64"; };
//! ```
//!
//! A file has any number of keys, and comments: `//` and `#` up to the end of the line, and `/* */`. The two statements of a key
//! come in any order. Words need no quotation marks.
//!
//! - `blanks`: blanks and comments; `word`: words and symbols; `statement`: the statement of a key; `file`: the keys of a text;
//! - `algorithm`: the names of algorithms; `permissions`: who may use the secrets of a file; `error`: why a text is not a key file;
//!   `laws`: theorems about the definitions.
//!
//! Further modules, each with a page of its own:
//! - [`grants`]: what the holders of keys may change (RFC 2136 section 3.3).
#![tactic(auto)]

mod algorithm;
mod blanks;
mod error;
mod file;
pub mod grants;
pub mod laws;
mod permissions;
mod statement;
mod word;

pub use algorithm::{algorithm_text, parse_algorithm};
pub use error::{KeyFault, KeyFileError};
pub use file::parse_keys;
pub use permissions::is_exposed;
