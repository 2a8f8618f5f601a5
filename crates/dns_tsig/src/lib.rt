//! Transaction signatures of messages: TSIG (RFC 8945).
//!
//! The crate works on the bytes of messages.
//!
//! - `skip`: names, questions and records that are skipped; `layout`: whether the last record of a message is a TSIG record;
//! - `wire_name`: names of keys in canonical form; `numbers`: numbers in bytes; `tsig`: the fields of a TSIG record;
//! - `found`: the TSIG record of a message;
//! - `key`: keys, and the names of algorithms; `covered`: what a code covers; `judge`: whether a code is that of a message;
//! - `verify`: by whom a request was signed; `tsig_record`: records that are appended; `signing`: messages that are signed; `reply`: replies
//!   by the verdicts on their requests; `client`: the side of clients; `error`: why a message cannot be signed.
//!
//! Further modules, each with a page of its own:
//! - [`hmac`]: HMAC (RFC 2104) over the hash functions that TSIG uses (RFC 8945 section 6);
//! - [`signer`]: the requestor's side of transaction signatures: requests that are signed with a key, and replies that are
//!   accepted only if a holder of the key signed them for the last request (RFC 8945 sections 5.1 and 5.4).
#![tactic(auto)]

mod client;
mod covered;
mod error;
mod found;
pub mod hmac;
mod judge;
mod key;
mod layout;
mod numbers;
mod reply;
pub mod signer;
mod signing;
mod skip;
mod tsig;
mod tsig_record;
mod verify;
mod wire_name;

pub use client::{CheckedReply, ReplyVerdict, sign_request, verify_reply};
pub use covered::{Coverage, Terms};
pub use error::SignError;
pub use found::{Found, Signature, find_tsig};
pub use judge::{Judgement, judgement_of};
pub use key::{Key, algorithm_name};
pub use layout::{Layout, layout_of};
pub use reply::sign_reply;
pub use signing::sign;
pub use tsig::Tsig;
pub use verify::{Checked, Verdict, verify_request};
pub use wire_name::{WireName, canonical_name};
