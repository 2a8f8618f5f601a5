//! HMAC (RFC 2104) over the hash functions that TSIG uses (RFC 8945 section 6).
//!
//! A message is authenticated piece by piece, without memory: its code is [`Hmac::finalize`] of a state to which the pieces were
//! added in turn. Codes are compared by [`is_same`], whose time depends on lengths alone.
//!
//! - `algorithm`: the hash functions, and the sizes of their blocks and codes; `hasher`: a hash function's state;
//! - `hmac`: HMAC by its definition; `compare`: comparison in constant time.

mod algorithm;
mod compare;
mod hasher;
mod hmac;

pub use algorithm::Algorithm;
pub use compare::is_same;
pub use hasher::Code;
pub use hmac::Hmac;
