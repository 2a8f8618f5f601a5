//! Zones of DNS (RFC 1034, RFC 1035): parsed from zone files, and served.
//!
//! A zone has the rows that its zone file defines. What it answers to a question, one table decides, and its server
//! encodes the answer without copying a record.
//!
//! - `zone`: zones; `zone::load`: the zone of a zone file; `zone::display`: the zone file of a zone; `zone::answer`: its
//!   answers; `zone::chain`: those along alias chains; `zone::lookup`: its records, by owner and type; `zone::node`: what it
//!   has at a name; `zone::serve`: its
//!   replies; `zone::update`: its updates; `zone::rising`: those after which its serial number rises by itself; `zone::serial`: its
//!   serial number;
//! - `sets`: record sets; `rows`: their records; `transport`: the transports of a message;
//! - `laws`: theorems about the definitions of this crate.
#![tactic(auto)]

pub mod laws;
mod rows;
mod sets;
mod transport;
mod zone;

pub use sets::{SetEntries, Sets};
// `Road` is the former name of `Transport`.
pub use transport::{DatagramLimit, LimitTooSmall, Transport, Transport as Road};
pub use zone::{
    Answer, Applied, Node, RecordLines, Serials, Served, Zone, ZoneFault, bare_reply_bytes,
    decode_request, first_serial, repeated_queries, reply_limit, truncated_reply_bytes,
    zone_serial,
};
