//! A link to the server of a zone over sockets of the loopback interface.
//!
//! `SocketLink` implements `stub_link::Link` with real datagrams (RFC 1035 section 4.2.1) and real streams (section 4.2.2).
//! It plays both ends by itself, in one thread: its calls serve what arrives at the server end. The sockets of both ends are
//! those of `dns_blocking`.
//!
//! - `socket_link`: the link;
//! - `event_link`: events over it; `world`: resolvers over it, and their runs.

mod event_link;
mod socket_link;
mod world;

pub use socket_link::SocketLink;
pub use world::{SocketWorld, run_sockets};
