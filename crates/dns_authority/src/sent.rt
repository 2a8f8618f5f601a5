//! What is known of the replies that an authoritative server sends, as theorems about their bytes.
//!
//! - `laws`: the theorems.

pub mod laws;
