//! Messages as bytes: read in place, encoded and decoded as themselves, and framed in a stream.
//!
//! - [`view`]: messages of DNS that are read in place, without taking memory (RFC 1035 section 4.1, RFC 6891);
//! - [`soundness`]: whether messages can be encoded, and decoded as themselves (RFC 1035 section 4.1, RFC 6891 section 6.1);
//! - [`frames`]: frames of a stream of messages of DNS (RFC 1035 section 4.2.2, RFC 7766 section 8).
#![tactic(auto)]

pub mod frames;
pub mod soundness;
pub mod view;
