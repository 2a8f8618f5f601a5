//! Blocking sockets: calls with a limit on their time, and the ends of an exchange of messages of DNS.
//!
//! A call waits for the other end for at most one second. One that a signal interrupts is repeated, at most 1,024 times. No
//! clause says what a socket carries; the clauses say what errors come, and what serving does to what replies.
//!
//! - `calls`: calls of sockets, and what becomes of those that fail; `error`: why a call has no result;
//! - `asker_end`: the socket with which requests are sent, and replies received;
//! - `server_end`: the sockets of a server; `responder`: what replies to its requests;
//! - `connection`: streams between both ends; `transfer`: messages are carried over them.
#![tactic(auto)]

mod asker_end;
mod calls;
mod connection;
mod error;
mod responder;
mod server_end;
mod transfer;

pub use asker_end::AskerEnd;
pub use calls::{loopback, or_failed, patience, read, receive, send, send_to, write};
pub use connection::{accept, close_waiting, connect, set_patience};
pub use error::SocketError;
pub use responder::DatagramResponder;
pub use server_end::ServerEnd;
pub use transfer::transfer_message;
