//! Requests to a server of zones, and how it answers them: each by its zone alone, or by the whole of RFC 1034
//! section 4.3.2.
//!
//! Whatever owns a `dns_server::Server` answers by this crate, and changes its zones by it: the zones with faults on demand of
//! `dns_nameserver`, and those with a journal of `dns_durable`.
//!
//! - `answering`: the choice, and the replies by it.

mod answering;

pub use answering::Answering;
