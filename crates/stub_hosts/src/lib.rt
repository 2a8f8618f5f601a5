//! Names and addresses that a resolver knows from a hosts file.
//!
//! - `hosts`: names and their addresses; `hosts/file`: hosts files; `hosts/table`: the lookups of one type,
//!   by name (`hosts/entries`) and by address (`hosts/address_index`), ordered by keys (`hosts/key`)
#![tactic(auto)]

mod hosts;

pub use hosts::{Hosts, HostsFault};
