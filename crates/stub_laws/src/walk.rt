//! Walks over a zone, and lookups that agree with them.
//!
//! - `laws`: walks are functions, and lookups whose questions the zone answers come to what walks come to
//!
//! There is no other code: the definitions are in `specs/`.

pub mod laws;
