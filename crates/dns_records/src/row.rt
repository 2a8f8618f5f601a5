//! The rows of a zone.

use dns_data::RData;

/// One of the data of an owner and a type.
#[derive(Drop)]
pub struct Row {
    /// How long it may be cached, in seconds.
    pub ttl: u32,
    pub rdata: RData,
}
