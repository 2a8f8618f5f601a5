//! What the holders of keys may change (RFC 2136 section 3.3).
//!
//! A grant gives a key a subtree of names, and perhaps some types of their records. An update is permitted if each of its records
//! is within a grant of the key; then it changes nothing else.
//!
//! - `grant`: grants, and whether they permit an update; `laws`: what permitted updates leave as it was.

mod grant;
pub mod laws;

pub use grant::{Grant, permits};
