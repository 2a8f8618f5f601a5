//! A builder of dynamic updates: any prerequisites and changes of one zone, in one message (RFC 2136 section 2).
//!
//! The builders of `dns_updates` make the updates of one prerequisite and one change; this one says whatever RFC 2136 can say. It
//! refuses no record: whether a name is in the zone and a type may be stored are rules of the server (RFC 2136 sections 3.2 and
//! 3.4), which answers NOTZONE and FORMERR.
//!
//! - `builder`: the builder; `prerequisites`: those of section 2.4; `changes`: those of section 2.5; `item`: their records;
//! - `laws`: which code a server answers, by the prerequisite.

mod builder;
mod changes;
mod item;
pub mod laws;
mod prerequisites;

pub use builder::UpdateBuilder;
