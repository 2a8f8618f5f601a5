//! Fields of record data that have a notation of their own, as text and as bytes.
//!
//! - [`service`]: the parameters of service bindings, from their texts and as bytes (RFC 9460);
//! - [`location`]: the data of LOC records, from the words of zone files and as text (RFC 1876);
//! - [`bitmaps`]: sets of record types as bitmaps (RFC 4034 section 4.1.2), and bytes in base32hex (RFC 4648 section 7).
#![tactic(auto)]

pub mod bitmaps;
pub mod location;
pub mod service;
