//! What the library for C is made of: zones, messages and lookups by number, without pointers.
//!
//! - [`buffer`]: what every function of the library for C shares: a buffer of the caller, names and texts that a caller
//!   passes, and why a call is refused;
//! - [`zones`]: zones for the library for C: from their texts, as requests leave them, and as texts;
//! - [`messages`]: messages for the library for C: as text, encoded again, queries and updates;
//! - [`lookups`]: lookups for the library for C: a resolver, and its lookups by number.
#![tactic(auto)]

pub mod buffer;
pub mod lookups;
pub mod messages;
pub mod zones;
