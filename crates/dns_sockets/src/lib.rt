//! Requests over real sockets: datagrams (RFC 1035 section 4.2.1) and streams (section 4.2.2, RFC 7766).
//!
//! A [`Service`] moves bytes between a [`World`], of which it has one datagram socket and one listener at each of its addresses, and a
//! [`Handler`], which decides what is sent, and when. It has no rule of its own about messages, but for the bit that says which
//! datagrams are responses.
//!
//! - `world`: what a service sees of the world; `sockets`: that of the system, in [`SocketWorld`]; `handler`: what decides;
//! - `service`: the state of a service, and its loop; `datagrams`: datagram sockets; `notices`: datagrams without a request;
//!   `listener`: listeners; `stream`: a connection; `output`: what it writes; `stream_table`: at most 256 of them;
//! - `tokens`: the tokens of sockets; `input`: the end of standard input; `clock`: time.
//!
//! Further modules, each with a page of its own:
//! - [`schedule`]: items that wait for their moment.
#![tactic(auto)]

mod clock;
mod datagrams;
mod handler;
mod input;
pub mod laws;
mod listener;
mod notices;
mod output;
pub mod schedule;
mod service;
mod sockets;
mod stream;
mod stream_table;
mod tokens;
mod world;

pub use clock::Milliseconds;
pub use handler::{Handler, Notice, Request, Transport};
pub use service::{MAX_STREAMS, Service};
pub use sockets::SocketWorld;
pub use world::{Arrival, Progress, Receipt, Wake, World};
