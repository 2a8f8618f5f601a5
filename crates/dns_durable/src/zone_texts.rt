//! The text of a zone is read back as a zone file of all types (RFC 1035 section 5.1, RFC 3597 section 5).
//!
//! `stated` says of which zones, and `laws` has the theorems, as functions with empty bodies. `dns_zone` has the law for the types with fields alone.

pub mod laws;
mod stated;

pub use stated::is_stated;
pub(crate) use stated::is_stated_set;
