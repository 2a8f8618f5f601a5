//! A name server without sockets: zones and their replies, streams of frames, and addresses that may update.
//!
//! A server has zones, and answers each request by the zone with the closest origin. A connection has the bytes of one stream
//! that wait: whole frames are served in order, whatever the pieces in which they arrive.
//!
//! - `zone_table`: zones, found by their origins; `server`: the replies to requests; `server::route`: which zone a request is for;
//!   `server::maintaining`: updates that keep what RFC 2136 leaves to a server; `server::set_ttls`: one TTL for the records of a
//!   set; `updates`: whether a requestor may update;
//! - `connection`: the state of a stream; `frame`: the first frame of bytes; `buffer`: bytes that wait;
//! - `responder`: what replies to requests; `serving`: the frames of a connection are served by one;
//! - `address_list`: lists of address prefixes;
//! - `error`: why a zone is not added;
//! - `laws`: theorems about the definitions of this crate.
#![tactic(auto)]

mod address_list;
mod buffer;
mod connection;
mod error;
mod frame;
pub mod laws;
mod responder;
mod server;
mod serving;
mod updates;
mod zone_table;

pub use address_list::{AddressList, PrefixError, parse_prefix};
pub use buffer::Buffer;
pub use connection::{Connection, MAX_INPUT_LEN, MAX_WAITING_LEN};
pub use error::AddZoneError;
pub use responder::{ListResponder, Responder};
pub use server::{Served, Server, ZoneChange};
pub use serving::serve_frames;
pub use updates::Updates;
pub use zone_table::ZoneTable;
