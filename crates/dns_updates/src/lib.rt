//! Dynamic updates (RFC 2136).
//!
//! - `update_message`: messages as dynamic updates; `builders`: builders of updates;
//! - `zone_rows`: the rows of a zone, as updates read them; `code`: the response code of an update, with `record_tests`;
//! - `changes`: what an update changes; `keys`: the keys by which sets are found;
//! - `laws`: theorems about updates: with which code a server replies to one, and how it changes the rows of a zone.
//!
//! Further modules, each with a page of its own:
//! - [`builder`]: a builder of dynamic updates: any prerequisites and changes of one zone, in one message (RFC 2136 section
//!   2).
#![tactic(auto)]

pub mod builder;
mod builders;
mod changes;
mod code;
mod keys;
pub mod laws;
mod record_tests;
mod update_message;
mod zone_rows;

pub use builders::{append, compare_and_swap, create, delete_all, delete_by_rdata, delete_rrset};
pub use changes::{ChangedSet, Changes, is_put, update_changes};
pub use code::update_code;
pub use keys::{OwnerKey, SetKey, end_key, first_key, owner_key, set_key, type_code};
pub use update_message::UpdateMessage;
pub use zone_rows::{SetList, ZoneRows};
