//! What every function of the library for C shares: a buffer of the caller, names and texts that a caller passes, and why a
//! call is refused.
//!
//! - `buffer`: bytes for a buffer of the caller;
//! - `arguments`: names and texts that a caller passes as bytes;
//! - `refusal`: why a call does not do what it was asked for.

mod arguments;
mod buffer;
mod refusal;

pub use arguments::{name_in, origin_in, text_in};
pub use buffer::{deliver, write_bytes};
pub use refusal::Refusal;
