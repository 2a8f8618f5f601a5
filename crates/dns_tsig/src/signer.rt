//! The requestor's side of transaction signatures: requests that are signed with a key, and replies that are accepted only if a
//! holder of the key signed them for the last request (RFC 8945 sections 5.1 and 5.4).
//!
//! - `signer`: the key, and the code of the last request; `judged`: what becomes of a reply, by its TSIG record;
//! - `plain`: a message without its TSIG record; `refusal`: why a reply is refused; `key_choice`: a key of several;
//! - `laws`: what it means that a reply is accepted.

mod judged;
mod key_choice;
pub mod laws;
mod plain;
mod refusal;
mod signer;

pub use key_choice::choose_key;
pub use refusal::{Refusal, TsigError};
pub use signer::{Accepted, Signer};
