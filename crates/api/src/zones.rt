//! Zones for the library for C: from their texts, as requests leave them, and as texts.
//!
//! - `zone`: zones of texts, and their texts;
//! - `serving`: requests to a zone; `transport`: the transports of requests, by number;
//! - `fault`: what is wrong in a text, and on which line.

mod fault;
mod serving;
mod transport;
mod zone;

pub use fault::zone_fault;
pub use serving::serve_request;
pub use transport::transport_of;
pub use zone::{read_zone, zone_text};
