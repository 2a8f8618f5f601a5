//! The input of a run.

use crate::report::PlayFormat;
use dns_names::Name;
use dns_zone_file::Types;

/// The contents of the files, and the options of a run.
#[derive(Drop)]
pub struct PlayInput {
    /// The text of the zone file.
    pub zone: String,
    /// The text of the script.
    pub script: String,
    /// The bytes of the hosts file, or none if no file was given.
    pub hosts: Vec<u8>,
    /// The origin of the zone, if it was given.
    pub origin: Option<Name>,
    /// The greatest UDP payload size, of requests and of the server's responses.
    pub limit: u16,
    /// The greatest number of cached responses.
    pub cache: u32,
    /// The greatest TTL of cached responses, in seconds.
    pub max_ttl: u32,
    /// Whether datagrams and streams of the loopback interface are used.
    pub udp: bool,
    /// Which types the zone file and the script may have.
    pub types: Types,
    /// How the report is written.
    pub format: PlayFormat,
}
