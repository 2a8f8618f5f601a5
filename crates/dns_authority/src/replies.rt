//! The replies of an authoritative server to requests as bytes (RFC 1035 section 4.1, RFC 6891).
//!
//! Each request with the header of a query has a reply: the answer of an authority to its question, or the code of its fault.
//! A reply that does not fit its transport is sent with as many sets of additional records as fit, or else without records (RFC 2181
//! section 9).
//!
//! - `responding`: requests, and what they are answered with; `reply`: the reply with an answer; `malformed`: the reply to what does
//!   not decode;
//! - `reply_ref`: messages whose records are borrowed, and their bytes; `sending`: what of them is sent; `whole_sets`: where
//!   sections may be cut.

mod malformed;
mod reply;
mod reply_ref;
mod responding;
mod sending;
mod whole_sets;

pub use responding::{respond, respond_to, respond_to_other};
