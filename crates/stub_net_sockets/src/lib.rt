//! A network over sockets: what a `stub_net::NameServerPool` asks servers over.
//!
//! Each datagram is sent from a socket of its own, which is connected to its server and whose port the system draws, so that no
//! reply to an earlier request and no datagram of another address arrives at it (RFC 5452 section 9.2). No clause says what a
//! socket carries; the clauses say that a stopwatch does not go back, and which ids are drawn from which random bytes.
//!
//! - `socket_network`: the network; `datagram`: the socket of a datagram; `stream`: an exchange over a stream
//! - `stopwatch`: a clock that counts milliseconds and does not go back
//! - `entropy`: sources of random bytes, of which one is the system; `random_ids`: ids from such bytes
//! - `traced`: a network that tells on standard error what it does
//! - `laws`: what holds of every exchange over sockets
#![tactic(auto)]

mod datagram;
mod entropy;
pub mod laws;
mod random_ids;
mod socket_network;
mod stopwatch;
mod stream;
mod traced;

pub use entropy::{Entropy, ListedEntropy, SystemEntropy};
pub use random_ids::RandomIds;
pub use socket_network::SocketNetwork;
pub use stopwatch::Stopwatch;
pub use traced::Traced;
